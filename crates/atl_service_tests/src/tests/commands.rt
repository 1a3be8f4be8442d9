//! Tests of `Join` and `Report`, and that a list run by `run_all` gets the answers of its commands.
use super::closing::{AFTER_MONTH_ONE, AFTER_WORK, MONTH_ONE};
use super::compare::assert_count;
use super::making::found_in_memory;
use super::script::{CommandSpec, Step, assert_answer, commands_of, play};
use super::serving::AnyService;
use super::tables::{
    AFTER_JOINING, BOOKS_SUM, FACTIONS, MAIL_BYTES, MAILINGS, MONEY, NEXT, REPORT_BYTES, UNITS,
    assert_tables,
};
use atl_service::{Answer, Command};
use atl_test_worlds::{ISLE, SMALL_WORLD};
use std::alloc::Global;
use std::process::Abort;
use std::test::Fail;

/// The first report of Avalon, when it joins the small world as faction 1.
pub(crate) const FIRST_REPORT: &str = "Atlantis report, month 0, faction 1 \"Avalon\".
Orders:
None.
Region 1 \"Vale\", plain: 1000 peasants, 500 money.
Exits: none.
* Unit 1 \"Unit 1\": 1 men, 1000 money.
";

pub(crate) const REPORT_OF_BREE: &str = "Atlantis report, month 0, faction 2 \"Bree\".
Orders:
None.
Region 1 \"Vale\", plain: 1000 peasants, 500 money.
Exits: none.
- Unit 1 \"Unit 1\" of faction 1 \"Avalon\": 1 men.
* Unit 2 \"Unit 2\": 1 men, 1000 money.
";

/// The first report of Avalon, when it joins the island and begins in its second land region.
const FAR_REPORT: &str = "Atlantis report, month 0, faction 1 \"Avalon\".
Orders:
None.
Region 3 \"Far\", forest: 200 peasants, 100 money.
Exits: north 4, west 2.
* Unit 1 \"Unit 1\": 1 men, 1000 money.
";

/// The command by which Avalon joins, with 0 as the word of the dice.
pub(crate) const JOIN_OF_AVALON: CommandSpec = CommandSpec::Join("Avalon", "pw", 0);

static ONE_JOINS: [Step; 2] = [
    Step::Joined(JOIN_OF_AVALON, 1, 1),
    Step::Answers(CommandSpec::Report(1, "pw"), FIRST_REPORT),
];

#[test]
fn first_report(rt: HostRuntime) -> Result<(), Fail> {
    assert_count(&rt, FIRST_REPORT.len(), 161);
    play(&rt, rt.alloc(), SMALL_WORLD, &ONE_JOINS, &AFTER_JOINING)
}

static TWO_JOIN: [Step; 3] = [
    Step::Answers(JOIN_OF_AVALON, "joined"),
    Step::Answers(CommandSpec::Join("Bree", "pb", 0), "joined"),
    Step::Answers(CommandSpec::Report(2, "pb"), REPORT_OF_BREE),
];

static AFTER_TWO: [(&str, Option<i64>); 3] = [
    (NEXT, Some(300003)),
    (FACTIONS, Some(2)),
    (UNITS, Some(2)),
];

#[test]
fn another_faction_is_seen_without_money(rt: HostRuntime) -> Result<(), Fail> {
    play(&rt, rt.alloc(), SMALL_WORLD, &TWO_JOIN, &AFTER_TWO)
}

static FAR_JOINS: [Step; 2] = [
    Step::Answers(CommandSpec::Join("Avalon", "pw", 1), "joined"),
    Step::Answers(CommandSpec::Report(1, "pw"), FAR_REPORT),
];

static AFTER_FAR: [(&str, Option<i64>); 2] = [(FACTIONS, Some(1)), (UNITS, Some(1))];

#[test]
fn the_second_land_region(rt: HostRuntime) -> Result<(), Fail> {
    play(&rt, rt.alloc(), ISLE, &FAR_JOINS, &AFTER_FAR)
}

const CLUB: [Step; 12] = [
    Step::Answers(CommandSpec::Join(" x", "pw", 0), "bad name"),
    Step::Answers(CommandSpec::Join("Avalon", "a b", 0), "bad pass text"),
    Step::Answers(JOIN_OF_AVALON, "joined"),
    Step::Answers(JOIN_OF_AVALON, "name taken"),
    Step::Answers(CommandSpec::Mail(9, "no", "hello"), "no faction"),
    Step::Answers(CommandSpec::Mail(1, "no", "hello"), "wrong pass"),
    Step::Answers(CommandSpec::Mail(1, "pw", "hello"), "no header"),
    Step::Answers(
        CommandSpec::Mail(1, "pw", "#ATLANTIS 1\nUNIT 1\nWORK\n"),
        "mailed",
    ),
    Step::Answers(
        CommandSpec::Mail(1, "pw", "#ATLANTIS 1\nUNIT 1\n"),
        "mailed",
    ),
    Step::Answers(CommandSpec::Report(1, "pw"), FIRST_REPORT),
    Step::Answers(CommandSpec::Report(9, "pw"), "no faction"),
    Step::Answers(CommandSpec::Report(1, "no"), "wrong pass"),
];

/// SELECTs and what they return after `CLUB`: one faction has joined and sent its second mailing.
const AFTER_CLUB: [(&str, Option<i64>); 8] = [
    (NEXT, Some(200002)),
    (FACTIONS, Some(1)),
    (UNITS, Some(1)),
    (REPORT_BYTES, Some(161)),
    (BOOKS_SUM, Some(2501)),
    (MONEY, Some(1000)),
    (MAILINGS, Some(1)),
    (MAIL_BYTES, Some(19)),
];

fn assert_answers(rt: &impl Abort, answers: &[Answer], steps: &[Step]) {
    assert_count(rt, answers.len(), steps.len());
    for (answer, step) in answers.iter().zip(steps.iter()) {
        assert_answer(rt, answer, step);
    }
}

fn run_in_one_list(
    rt: &impl Abort,
    service: &mut impl AnyService,
    commands: &[Command],
    steps: &[Step],
) {
    match service.run_all(commands) {
        Ok(answers) => assert_answers(rt, &answers, steps),
        Err(_) => assert!(rt; false),
    }
}

/// Steps whose commands are run as one list, with the wanted answers, and SELECTs with what they
/// return afterwards.
struct CommandList {
    steps: &'static [Step],
    after: &'static [(&'static str, Option<i64>)],
}

fn run_commands(
    rt: &impl Abort,
    alloc: Global,
    commands: &[Command],
    list: &CommandList,
) -> Result<(), Fail> {
    let mut service = found_in_memory(alloc, SMALL_WORLD)?;
    run_in_one_list(rt, &mut service, commands, list.steps);
    assert_tables(rt, &mut service.end(), list.after);
    Ok(())
}

fn run_list(rt: &impl Abort, alloc: Global, list: &CommandList) -> Result<(), Fail> {
    let commands = commands_of(alloc, list.steps)?;
    run_commands(rt, alloc, &commands, list)
}

/// Steps to run as one list: a join, a closing, the same closing again, which is refused, and a
/// report. `closing` tests the same month one command at a time.
const A_MONTH: [Step; 4] = [
    Step::Answers(JOIN_OF_AVALON, "joined"),
    Step::Answers(MONTH_ONE, "month done"),
    Step::Answers(MONTH_ONE, "wrong month"),
    Step::Answers(CommandSpec::Report(1, "pw"), AFTER_WORK),
];

static LISTS: [CommandList; 2] = [
    CommandList {
        steps: &CLUB,
        after: &AFTER_CLUB,
    },
    CommandList {
        steps: &A_MONTH,
        after: &AFTER_MONTH_ONE,
    },
];

fn run_lists(rt: &impl Abort, alloc: Global) -> Result<(), Fail> {
    for list in LISTS.iter() {
        run_list(rt, alloc, list)?;
    }
    Ok(())
}

#[test]
fn a_list_is_run_as_one_by_one(rt: HostRuntime) -> Result<(), Fail> {
    play(&rt, rt.alloc(), SMALL_WORLD, LISTS[0].steps, LISTS[0].after)?;
    run_lists(&rt, rt.alloc())
}
