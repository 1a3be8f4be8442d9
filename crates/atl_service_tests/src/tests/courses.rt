//! The campaigns that are played while a disk stops: two months of one unit, and a month of two
//! factions' units.
use super::closing::MONTH_ONE;
use super::commands::JOIN_OF_AVALON;
use super::script::{CommandSpec, Course, Step, play_course};
use super::tables::{
    BOOKS_SUM, DAYS, DONE, FACTIONS, GOODS, MAILINGS, MONEY, MONTH, NEXT, REGION_MONEY, STARVED,
    UNITS,
};
use atl_test_worlds::month::{AVALON_MAILING, BREE_MAILING, MONTH_ROWS};
use atl_test_worlds::{ISLE, SMALL_WORLD};
use std::test::Fail;

/// The mailing of the first month: GUARD and NAME. A unit that guards takes taxes from the next
/// month on.
const FIRST_MAIL: CommandSpec = CommandSpec::Mail(
    1,
    "pw",
    "#ATLANTIS 1 pw\nUNIT 1\nGUARD 1\nNAME UNIT \"Wardens of Vale\"\n",
);

/// The mailing of the second month, which forms two units: one gets a man and a name, and one only
/// money, so it is swept.
const SECOND_MAIL: CommandSpec = CommandSpec::Mail(
    1,
    "pw",
    "#ATLANTIS 1 pw\nUNIT 1\nFORM 1\nEND\nFORM 2\nRECRUIT 1\nNAME UNIT Scouts\nEND\nPAY NEW 1 100\nPAY NEW 2 70\nTAX\n",
);

const MONTH_TWO: CommandSpec = CommandSpec::Close(2, "gm", &[0]);

const TWO_MONTHS: [Step; 5] = [
    Step::Joined(JOIN_OF_AVALON, 1, 1),
    Step::Mailed(FIRST_MAIL, 2, &[]),
    Step::Closed(MONTH_ONE, 1),
    Step::Mailed(SECOND_MAIL, 7, &[]),
    Step::Closed(MONTH_TWO, 2),
];

/// SELECTs and what they return after both months of `TWO_MONTHS`. Of 1,000 money unit 1 has 1,002
/// after its first month, in which it works for 12 and pays 10. It pays 170, takes 10 in tax, works
/// and pays 10 again, and gets the 100 of unit 2, which is swept: 944. Unit 3 recruits for 50,
/// works and pays 10: 22. The region has 500, gets 1,000 and, of a peasant less, 999, and gives the
/// tax. The people are 1,001.
const AFTER_BOTH: [(&str, Option<i64>); 8] = [
    (MONTH, Some(2)),
    (NEXT, Some(200004)),
    (FACTIONS, Some(1)),
    (UNITS, Some(2)),
    (MAILINGS, Some(0)),
    (MONEY, Some(966)),
    (REGION_MONEY, Some(2489)),
    (BOOKS_SUM, Some(4456)),
];

#[test]
fn both_months_are_closed(rt: HostRuntime) -> Result<(), Fail> {
    play_course(&rt, rt.alloc(), &COURSES[0])
}

const JOIN_OF_CORK: CommandSpec = CommandSpec::Join("Cork", "pc", 0);

const MONTH_OF_TWO: [Step; 4] = [
    Step::Joined(JOIN_OF_CORK, 3, 12),
    Step::Mailed(CommandSpec::Mail(1, "pw", AVALON_MAILING), 18, &[]),
    Step::Mailed(CommandSpec::Mail(2, "pb", BREE_MAILING), 1, &[]),
    Step::Closed(CommandSpec::Close(1, "gm", &[0, 0, 0, 0]), 1),
];

/// SELECTs and what they return after `MONTH_OF_TWO`. Unit 13 is formed and stays, 14 is formed and
/// swept, and 11 starves and is swept. The units had 904 money and Cork's 1,000. They take 30 in
/// tax, pay 50 for a recruit and 40 for a study, and earn 48, 24, 250, 20 and 12. Of 63 men all but
/// the one who starves cost 10 each, and for him 4 are paid. The regions have 650, give the tax and
/// get a coin for each of 1,299 peasants. With 3 of 21 wood a boat is begun. The 4 men who are
/// taught get 240 days; 1,440 were there before. The people are 1,361.
const AFTER_MONTH_OF_TWO: [(&str, Option<i64>); 12] = [
    (MONTH, Some(1)),
    (NEXT, Some(400015)),
    (FACTIONS, Some(3)),
    (UNITS, Some(12)),
    (MAILINGS, Some(0)),
    (STARVED, Some(-1)),
    (GOODS, Some(18)),
    (DAYS, Some(1680)),
    (DONE, Some(13)),
    (MONEY, Some(1574)),
    (REGION_MONEY, Some(1919)),
    (BOOKS_SUM, Some(4872)),
];

#[test]
fn a_month_of_two_factions_is_closed(rt: HostRuntime) -> Result<(), Fail> {
    play_course(&rt, rt.alloc(), &COURSES[1])
}

/// The courses that `crashes` plays: two months in the small world, and a month on the island.
pub(crate) static COURSES: [Course; 2] = [
    Course {
        world: SMALL_WORLD,
        rows: "",
        steps: &TWO_MONTHS,
        after: &AFTER_BOTH,
    },
    Course {
        world: ISLE,
        rows: MONTH_ROWS,
        steps: &MONTH_OF_TWO,
        after: &AFTER_MONTH_OF_TWO,
    },
];
