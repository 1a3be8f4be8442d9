//! Tests of months with orders: one that forms a unit without recruits, and one in which a faction
//! quits.
use super::closing::MONTH_ONE;
use super::commands::JOIN_OF_AVALON;
use super::script::{CommandSpec, Step, play};
use super::tables::{FACTIONS, MAILINGS, MONEY, MONTH, NEXT, REGION_MONEY, UNITS};
use atl_test_worlds::{SMALL_WORLD, THREE_PEASANTS};
use std::test::Fail;

/// The mailing by which unit 1 forms a unit that is to recruit 2 men, and pays it 100. Three
/// peasants give no recruit, so the new unit is swept.
const FORMED: &str = "#ATLANTIS 1
UNIT 1
FORM 1
RECRUIT 2
END
PAY NEW 1 100
#END
";

/// Avalon's report on the month with FORM; what was paid to the new unit comes back.
const AFTER_FORMING: &str = "Atlantis report, month 1, faction 1 \"Avalon\".
Orders:
Unit 1, line 3, FORM: done 2.
Unit 1, line 6, PAY: done 100.
Unit 2, line 4, RECRUIT: done 0.
Unit 1, line 0, WORK: done 12.
Region 1 \"Vale\", plain: 3 peasants, 503 money.
Exits: none.
* Unit 1 \"Unit 1\": 1 men, 1002 money.
";

static NOBODY_COMES: [Step; 5] = [
    Step::Joined(JOIN_OF_AVALON, 1, 1),
    Step::Mailed(CommandSpec::Mail(1, "pw", FORMED), 3, &[]),
    Step::Closed(MONTH_ONE, 1),
    Step::Answers(CommandSpec::Report(1, "pw"), AFTER_FORMING),
    Step::Numbers(2, 3, 1),
];

static AFTER_NOBODY_CAME: [(&str, Option<i64>); 4] = [
    (NEXT, Some(200003)),
    (UNITS, Some(1)),
    (MONEY, Some(1002)),
    (REGION_MONEY, Some(503)),
];

#[test]
fn nobody_is_recruited_of_three_peasants(rt: HostRuntime) -> Result<(), Fail> {
    play(
        &rt,
        rt.alloc(),
        THREE_PEASANTS,
        &NOBODY_COMES,
        &AFTER_NOBODY_CAME,
    )
}

/// A mailing with two QUIT orders; the second has the faction's own number.
const QUITS: &str = "#ATLANTIS 1
UNIT 1
QUIT 2
QUIT 1
";

const AFTER_QUITTING: &str = "Atlantis report, month 1, faction 1 \"Avalon\".
Orders:
Unit 1, line 3, QUIT: fault 11 WrongNumber.
Unit 1, line 4, QUIT: done 0.
";

/// The text of the books after the faction quit: its one man has left, and what he had is lost.
const BOOKS_AFTER_QUITTING: &str = "money founding 500
money joining 1000
money income 1000
money lost -1000
money total 1500
people founding 1000
people joining 1
people left -1
people total 1000
";

static IT_QUITS: [Step; 6] = [
    Step::Joined(JOIN_OF_AVALON, 1, 1),
    Step::Mailed(CommandSpec::Mail(1, "pw", QUITS), 2, &[]),
    Step::Closed(MONTH_ONE, 1),
    Step::Answers(CommandSpec::Mail(1, "pw", QUITS), "gone"),
    Step::Answers(CommandSpec::Report(1, "pw"), AFTER_QUITTING),
    Step::Books(BOOKS_AFTER_QUITTING),
];

static AFTER_IT_QUIT: [(&str, Option<i64>); 4] = [
    (MONTH, Some(1)),
    (FACTIONS, Some(1)),
    (UNITS, Some(0)),
    (MAILINGS, Some(0)),
];

#[test]
fn a_faction_quits(rt: HostRuntime) -> Result<(), Fail> {
    play(&rt, rt.alloc(), SMALL_WORLD, &IT_QUITS, &AFTER_IT_QUIT)
}
