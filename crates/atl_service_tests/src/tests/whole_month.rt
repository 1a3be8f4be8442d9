//! A test of a whole month, worked out by hand: ten units of two factions with every kind of order
//! but SELL and BUY.
use super::script::{CommandSpec, Course, Step, play_course};
use super::tables::{MAILINGS, MONTH, NEXT, UNITS};
use atl_test_worlds::ISLE;
use std::test::Fail;

/// SQL that adds two factions, ten units, and a boat with a unit of each; all that they hold is
/// booked under Joining.
const ROWS_BEFORE: &str =
    "INSERT INTO faction VALUES (1, 'Avalon', 'Avalon', 'pw', 0), (2, 'Bree', 'Bree', 'pb', 0);
INSERT INTO report VALUES (1, 'A report.'), (2, 'A report.');
INSERT INTO unit VALUES (1, 1, 'Unit 1', 1, 0, 5, 100, 1), (2, 1, 'Unit 2', 1, 0, 4, 60, 0),
(3, 1, 'Unit 3', 1, 0, 1, 50, 0), (4, 1, 'Unit 4', 1, 1, 2, 30, 0), (5, 1, 'Unit 5', 3, 0, 15, 200, 0),
(6, 1, 'Unit 6', 3, 0, 3, 100, 0), (7, 1, 'Unit 7', 4, 0, 2, 40, 1), (8, 2, 'Unit 8', 1, 1, 1, 20, 0),
(9, 2, 'Unit 9', 3, 0, 25, 300, 0), (10, 2, 'Unit 10', 4, 0, 2, 14, 0);
INSERT INTO has VALUES (3, 1, 1, 90), (4, 1, 3, 60), (5, 1, 0, 450), (6, 0, 0, 5), (6, 1, 2, 90), (7, 0, 0, 1), (9, 1, 0, 750);
INSERT INTO structure VALUES (1, 0, 'Ship 1', 1, 10, 4);
INSERT INTO books VALUES (2, 0, 914), (2, 1, 60), (2, 2, 6);
UPDATE campaign SET next_faction = 3, next_unit = 11, next_structure = 2";

/// Avalon's mailing of sixteen orders; unit 5 has no wood to give yet.
const OF_AVALON: &str = "#ATLANTIS 1 pw
UNIT 1
NAME UNIT Watch
FORM 1
WORK
END
PAY 2 40
TRANSFER NEW 1 2
TAX
RECRUIT 3
UNIT 2
STUDY carpentry
UNIT 3
TEACH 2
UNIT 4
NAME SHIP Gull
SAIL EAST
UNIT 5
PRODUCE wood
GIVE 6 5 wood
UNIT 6
BUILD boat
UNIT 7
GUARD 0
MOVE SOUTH
#END
";

/// Bree's mailing of seven orders: unit 8 doesn't own the boat, and unit 10 lacks the skill; Bree
/// is faction 2, not 1.
const OF_BREE: &str = "#ATLANTIS 2 pb
UNIT 8
LEAVE
ENTER 1
PROMOTE 8
UNIT 9
PRODUCE wood
UNIT 10
GUARD 1
PRODUCE wood
QUIT 1
";

/// Avalon's report on the month. Of 100 money unit 1 pays 40, and sends 2 of its 5 men to the unit
/// that it forms. With 3 men it takes 30 of 500 money in tax, so it can pay for one recruit, and 4
/// men earn 48. Unit 2 pays 10 for each of its 4 men and gets 30 days for each and 30 more, as all
/// are taught. The 40 men of two factions who can make wood share 20. Each man costs 10 of upkeep.
const REPORT_FOR_AVALON: &str = "Atlantis report, month 1, faction 1 \"Avalon\".
Orders:
Unit 1, line 4, FORM: done 11.
Unit 1, line 3, NAME: done 0.
Unit 4, line 16, NAME: done 0.
Unit 7, line 24, GUARD: done 0.
Unit 1, line 7, PAY: done 40.
Unit 5, line 20, GIVE: fault 3 NotEnough.
Unit 1, line 8, TRANSFER: done 2.
Unit 1, line 9, TAX: done 30.
Unit 1, line 10, RECRUIT: done 1.
Unit 7, line 25, MOVE: done 0.
Unit 4, line 17, SAIL: done 0.
Unit 6, line 22, BUILD: done 3.
Unit 3, line 14, TEACH: done 4.
Unit 2, line 12, STUDY: done 240.
Unit 5, line 19, PRODUCE: done 7.
Unit 1, line 0, WORK: done 48.
Unit 11, line 5, WORK: done 24.
Region 1 \"Shore\", plain: 999 peasants, 1469 money.
Exits: east 2.
* Unit 1 \"Watch\": 4 men, 48 money, guard.
* Unit 2 \"Unit 2\": 4 men, 20 money, carpentry 1 (240).
* Unit 3 \"Unit 3\": 1 men, 40 money, carpentry 2 (90).
* Unit 11 \"Unit 11\": 2 men, 4 money.
Region 2 \"Sound\", ocean: 0 peasants, 0 money.
Exits: east 3, west 1.
Structure 1 \"Gull\", boat, 10 of 10, owner 4.
* Unit 4 \"Unit 4\": 2 men, 10 money, in 1, sailing 1 (60).
- Unit 8 \"Unit 8\" of faction 2 \"Bree\": 1 men, in 1.
Region 3 \"Far\", forest: 200 peasants, 300 money.
Exits: north 4, west 2.
Structure 2 \"Ship 2\", boat, 3 of 10, owner 6.
* Unit 5 \"Unit 5\": 15 men, 50 money, 7 wood, lumberjack 1 (450).
* Unit 6 \"Unit 6\": 3 men, 70 money, in 2, 2 wood, shipbuilding 1 (90).
* Unit 7 \"Unit 7\": 2 men, 20 money, 1 wood.
- Unit 9 \"Unit 9\" of faction 2 \"Bree\": 25 men.
";

/// Bree's report on the month. There are no jobs at sea. Unit 10 has 14 money for two men, so one
/// of them starves.
const REPORT_FOR_BREE: &str = "Atlantis report, month 1, faction 2 \"Bree\".
Orders:
Unit 8, line 3, LEAVE: done 0.
Unit 8, line 4, ENTER: done 0.
Unit 8, line 5, PROMOTE: fault 6 NotOwner.
Unit 10, line 9, GUARD: done 0.
Unit 10, line 11, QUIT: fault 11 WrongNumber.
Unit 9, line 7, PRODUCE: done 13.
Unit 10, line 10, PRODUCE: fault 13 NoSkill.
Unit 8, line 0, WORK: done 0.
Unit 10: 1 starved.
Region 2 \"Sound\", ocean: 0 peasants, 0 money.
Exits: east 3, west 1.
Structure 1 \"Gull\", boat, 10 of 10, owner 4.
- Unit 4 \"Unit 4\" of faction 1 \"Avalon\": 2 men, in 1.
* Unit 8 \"Unit 8\": 1 men, 10 money, in 1.
Region 3 \"Far\", forest: 200 peasants, 300 money.
Exits: north 4, west 2.
Structure 2 \"Ship 2\", boat, 3 of 10, owner 6.
- Unit 5 \"Unit 5\" of faction 1 \"Avalon\": 15 men.
- Unit 6 \"Unit 6\" of faction 1 \"Avalon\": 3 men, in 2.
- Unit 7 \"Unit 7\" of faction 1 \"Avalon\": 2 men.
* Unit 9 \"Unit 9\": 25 men, 50 money, 13 wood, lumberjack 1 (750).
Region 4 \"Wood\", forest: 100 peasants, 150 money.
Exits: south 3.
* Unit 10 \"Unit 10\": 1 men, 0 money, guard.
";

const BOOKS_AFTER_MONTH: &str = "money founding 650
money joining 914
money income 1299
money wages 72
money recruiting -50
money study -40
money upkeep -604
money total 2241
people founding 1300
people joining 60
people starved -1
people total 1359
item \"wood\" joining 6
item \"wood\" made 20
item \"wood\" used -3
item \"wood\" total 23
item \"cart\" total 0
";

const MONTH_OF_ORDERS: [Step; 6] = [
    Step::Mailed(CommandSpec::Mail(2, "pb", OF_BREE), 7, &[]),
    Step::Mailed(CommandSpec::Mail(1, "pw", OF_AVALON), 16, &[]),
    Step::Closed(CommandSpec::Close(1, "gm", &[0, 0, 0, 0]), 1),
    Step::Answers(CommandSpec::Report(1, "pw"), REPORT_FOR_AVALON),
    Step::Answers(CommandSpec::Report(2, "pb"), REPORT_FOR_BREE),
    Step::Books(BOOKS_AFTER_MONTH),
];

const AFTER_MONTH_OF_TEN: [(&str, Option<i64>); 4] = [
    (MONTH, Some(1)),
    (NEXT, Some(300012)),
    (UNITS, Some(11)),
    (MAILINGS, Some(0)),
];

static MONTH_OF_TEN: Course = Course {
    world: ISLE,
    rows: ROWS_BEFORE,
    steps: &MONTH_OF_ORDERS,
    after: &AFTER_MONTH_OF_TEN,
};

#[test]
fn ten_units_carry_out_all_orders(rt: HostRuntime) -> Result<(), Fail> {
    play_course(&rt, rt.alloc(), &MONTH_OF_TEN)
}
