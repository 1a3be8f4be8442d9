//! Tests of `Close`: the reports, books and tables after a month, and refusals with a wrong number
//! of words of the dice.
use super::commands::JOIN_OF_AVALON;
use super::mailings::FAULTY;
use super::script::{CommandSpec, Course, Step, play, play_course};
use super::tables::{
    BOOKS_SUM, FACTIONS, INCOME, MAIL_BYTES, MAILINGS, MONEY, MONTH, NEXT, REGION_MONEY,
    REPORT_BYTES, UNITS, UPKEEP, WAGES,
};
use atl_test_worlds::{NO_WORK_PLACES, SMALL_WORLD};
use std::test::Fail;

pub(crate) const MONTH_ONE: CommandSpec = CommandSpec::Close(1, "gm", &[0]);

/// Avalon's report on a month without mail: the unit works for 12 and pays 10, and 1,000 peasants
/// bring 1 each to the region.
pub(crate) const AFTER_WORK: &str = "Atlantis report, month 1, faction 1 \"Avalon\".
Orders:
Unit 1, line 0, WORK: done 12.
Region 1 \"Vale\", plain: 1000 peasants, 1500 money.
Exits: none.
* Unit 1 \"Unit 1\": 1 men, 1002 money.
";

/// Avalon's report on a month with the mailing `FAULTY`: WORK is done, and ATTACK is an unknown
/// order.
const AFTER_FAULTY: &str = "Atlantis report, month 1, faction 1 \"Avalon\".
Orders:
Line 5: 2 UnknownOrder.
Unit 1, line 6, WORK: done 12.
Region 1 \"Vale\", plain: 1000 peasants, 1500 money.
Exits: none.
* Unit 1 \"Unit 1\": 1 men, 1002 money.
";

/// SELECTs and what they return after month 1 of the small world, which Avalon has joined. The
/// money is 2,502 (500 founded, 1,000 joined, 1,000 of income, 12 of wages, 10 spent on upkeep),
/// and the people are 1,001.
pub(crate) const AFTER_MONTH_ONE: [(&str, Option<i64>); 12] = [
    (MONTH, Some(1)),
    (NEXT, Some(200002)),
    (FACTIONS, Some(1)),
    (UNITS, Some(1)),
    (BOOKS_SUM, Some(3503)),
    (INCOME, Some(1000)),
    (WAGES, Some(12)),
    (UPKEEP, Some(-10)),
    (MONEY, Some(1002)),
    (REGION_MONEY, Some(1500)),
    (MAILINGS, Some(0)),
    (MAIL_BYTES, None),
];

const BOOKS_AFTER_WORK: &str = "money founding 500
money joining 1000
money income 1000
money wages 12
money upkeep -10
money total 2502
people founding 1000
people joining 1
people total 1001
";

/// Courses of a first month: without mail, and with a faulty mailing.
static FIRST_MONTHS: [Course; 2] = [
    Course {
        world: SMALL_WORLD,
        rows: "",
        steps: &[
            Step::Answers(JOIN_OF_AVALON, "joined"),
            Step::Closed(MONTH_ONE, 1),
            Step::Answers(CommandSpec::Report(1, "pw"), AFTER_WORK),
            Step::Books(BOOKS_AFTER_WORK),
        ],
        after: &AFTER_MONTH_ONE,
    },
    Course {
        world: SMALL_WORLD,
        rows: "",
        steps: &[
            Step::Answers(JOIN_OF_AVALON, "joined"),
            Step::Mailed(CommandSpec::Mail(1, "pw", FAULTY), 1, &[(5, 2)]),
            Step::Closed(MONTH_ONE, 1),
            Step::Keeps(None),
            Step::Answers(CommandSpec::Report(1, "pw"), AFTER_FAULTY),
        ],
        after: &AFTER_MONTH_ONE,
    },
];

#[test]
fn a_month_is_closed(rt: HostRuntime) -> Result<(), Fail> {
    play_course(&rt, rt.alloc(), &FIRST_MONTHS[0])
}

#[test]
fn a_faulty_line_is_reported_and_the_mail_is_gone(rt: HostRuntime) -> Result<(), Fail> {
    play_course(&rt, rt.alloc(), &FIRST_MONTHS[1])
}

/// Closings with a wrong number of words of the dice. The refusals are tested in this order: the
/// pass text, the month and its limit, the dice.
static WRONG_DICE: [Course; 2] = [
    Course {
        world: SMALL_WORLD,
        rows: "",
        steps: &[
            Step::Answers(CommandSpec::Close(2, "no", &[]), "wrong pass"),
            Step::Answers(CommandSpec::Close(0, "gm", &[]), "wrong month"),
            Step::Answers(CommandSpec::Close(1, "gm", &[]), "wrong dice"),
            Step::Answers(CommandSpec::Close(1, "gm", &[0, 0]), "wrong dice"),
        ],
        after: &[(MONTH, Some(0)), (BOOKS_SUM, Some(1500))],
    },
    Course {
        world: SMALL_WORLD,
        rows: "UPDATE campaign SET month = 9999",
        steps: &[Step::Answers(CommandSpec::Close(10000, "gm", &[]), "month limit")],
        after: &[(MONTH, Some(9999)), (BOOKS_SUM, Some(1500))],
    },
];

#[test]
fn wrong_dice_are_refused_last(rt: HostRuntime) -> Result<(), Fail> {
    play_course(&rt, rt.alloc(), &WRONG_DICE[0])?;
    play_course(&rt, rt.alloc(), &WRONG_DICE[1])
}

static AFTER_NOBODY: [(&str, Option<i64>); 5] = [
    (MONTH, Some(2)),
    (FACTIONS, Some(0)),
    (REPORT_BYTES, None),
    (BOOKS_SUM, Some(3500)),
    (REGION_MONEY, Some(2500)),
];

static NOBODY: [Step; 2] = [
    Step::Closed(MONTH_ONE, 1),
    Step::Closed(CommandSpec::Close(2, "gm", &[7]), 2),
];

#[test]
fn a_month_without_factions(rt: HostRuntime) -> Result<(), Fail> {
    play(&rt, rt.alloc(), SMALL_WORLD, &NOBODY, &AFTER_NOBODY)
}

/// Avalon's report where nobody finds work: 5 money don't keep one man for a month, so he starves
/// and the faction is gone.
const AFTER_STARVING: &str = "Atlantis report, month 1, faction 1 \"Avalon\".
Orders:
Unit 1, line 0, WORK: done 0.
Unit 1: 1 starved.
";

static STARVED: [Step; 6] = [
    Step::Joined(JOIN_OF_AVALON, 1, 1),
    Step::Closed(MONTH_ONE, 1),
    Step::Answers(CommandSpec::Report(1, "pw"), AFTER_STARVING),
    Step::Answers(CommandSpec::Mail(1, "pw", FAULTY), "gone"),
    Step::Closed(CommandSpec::Close(2, "gm", &[0]), 2),
    Step::Answers(CommandSpec::Report(1, "pw"), AFTER_STARVING),
];

/// SELECTs and what they return after the faction starved and a second month: there is the faction,
/// but no unit and no mail. The unit's number isn't given again.
static AFTER_ALL_STARVED: [(&str, Option<i64>); 6] = [
    (MONTH, Some(2)),
    (NEXT, Some(200002)),
    (FACTIONS, Some(1)),
    (UNITS, Some(0)),
    (MAILINGS, Some(0)),
    (REGION_MONEY, Some(2500)),
];

#[test]
fn a_faction_that_starves_is_gone(rt: HostRuntime) -> Result<(), Fail> {
    play(
        &rt,
        rt.alloc(),
        NO_WORK_PLACES,
        &STARVED,
        &AFTER_ALL_STARVED,
    )
}
