//! Tables of steps: commands with their wanted answers, and what the campaign must then be. Plays
//! them and asserts each.
use super::compare::{assert_count, assert_number, assert_text};
use super::making::{answer_text, close, found_in_memory, join, mail, open_after_sql, report};
use super::serving::AnyService;
use super::tables::assert_tables;
use atl_service::{Answer, Command};
use std::alloc::Global;
use std::process::Abort;
use std::test::Fail;

/// A command to run, with the texts and numbers that it is made of.
pub(crate) enum CommandSpec {
    /// A name, a pass text and a dice word.
    Join(&'static str, &'static str, u32),
    /// A faction, its pass text and a mailing.
    Mail(u32, &'static str, &'static str),
    /// A month, the moderator's pass text and the words of the dice.
    Close(u32, &'static str, &'static [u32]),
    /// A faction and its pass text.
    Report(u32, &'static str),
}

/// A command with its wanted answer, or something to assert of the campaign.
pub(crate) enum Step {
    /// A command, and its answer in words (`answer_text` of `making`).
    Answers(CommandSpec, &'static str),
    /// A join, and the numbers of the faction and the unit in its answer.
    Joined(CommandSpec, u32, u32),
    /// A mailing that is stored: how many orders it has, and its faulty lines with the numbers of
    /// their faults.
    Mailed(CommandSpec, usize, &'static [(u32, u32)]),
    /// A closing, and the month that it answers and that the campaign then has.
    Closed(CommandSpec, u32),
    Month(u32),
    /// The numbers of the faction and the unit that come next, and how many units there are.
    Numbers(u32, u32, usize),
    /// What the campaign keeps of the first faction's mail.
    Keeps(Option<&'static str>),
    Books(&'static str),
}

fn command_of(alloc: Global, asked: &CommandSpec) -> Result<Command, Fail> {
    match asked {
        CommandSpec::Join(name, pass, word) => join(alloc, name, pass, *word),
        CommandSpec::Mail(faction, pass, text) => mail(alloc, *faction, pass, text),
        CommandSpec::Close(month, pass, words) => close(alloc, *month, pass, words),
        CommandSpec::Report(faction, pass) => report(alloc, *faction, pass),
    }
}

fn command_in(step: &Step) -> Option<&CommandSpec> {
    match step {
        Step::Answers(asked, _)
        | Step::Joined(asked, _, _)
        | Step::Mailed(asked, _, _)
        | Step::Closed(asked, _) => Some(asked),
        _ => None,
    }
}

fn fill(alloc: Global, commands: &mut Vec<Command>, steps: &[Step]) -> Result<(), Fail> {
    for step in steps {
        if let Some(asked) = command_in(step) {
            commands.push(command_of(alloc, asked)?)?;
        }
    }
    Ok(())
}

pub(crate) fn commands_of(alloc: Global, steps: &[Step]) -> Result<Vec<Command>, Fail> {
    let mut commands = Vec::new(alloc);
    fill(alloc, &mut commands, steps)?;
    Ok(commands)
}

fn answered(
    alloc: Global,
    service: &mut impl AnyService,
    asked: &CommandSpec,
) -> Result<Answer, Fail> {
    let command = command_of(alloc, asked)?;
    Ok(service.run(&command))
}

fn assert_joined(rt: &impl Abort, answer: &Answer, first: u32, member: u32) {
    match answer {
        Answer::Joined { faction, unit } => {
            assert_number(rt, i64::from(*faction), i64::from(first));
            assert_number(rt, i64::from(*unit), i64::from(member));
        }
        _ => assert!(rt; false),
    }
}

fn assert_mailed(rt: &impl Abort, answer: &Answer, wanted: usize, faulty: &[(u32, u32)]) {
    match answer {
        Answer::Mailed { orders, faults } => {
            assert_count(rt, *orders, wanted);
            assert_count(rt, faults.len(), faulty.len());
            for (actual, (line, fault)) in faults.as_slice().iter().zip(faulty.iter()) {
                assert_number(rt, i64::from(actual.line), i64::from(*line));
                assert_number(rt, i64::from(actual.fault.number()), i64::from(*fault));
            }
        }
        _ => assert!(rt; false),
    }
}

fn assert_closed(rt: &impl Abort, answer: &Answer, wanted: u32) {
    match answer {
        Answer::MonthDone { month } => assert_number(rt, i64::from(*month), i64::from(wanted)),
        _ => assert!(rt; false),
    }
}

fn assert_month(rt: &impl Abort, service: &impl AnyService, month: u32) {
    match service.campaign() {
        Some(campaign) => assert_number(rt, i64::from(campaign.month()), i64::from(month)),
        None => assert!(rt; false),
    }
}

fn assert_next_numbers(
    rt: &impl Abort,
    service: &impl AnyService,
    faction: u32,
    unit: u32,
    units: usize,
) {
    match service.campaign() {
        Some(campaign) => {
            assert_number(rt, i64::from(campaign.next_faction()), i64::from(faction));
            assert_number(rt, i64::from(campaign.next_unit()), i64::from(unit));
            assert_count(rt, campaign.unit_count(), units);
        }
        None => assert!(rt; false),
    }
}

fn assert_kept_mail(rt: &impl Abort, service: &impl AnyService, text: &Option<&str>) {
    match service.campaign() {
        Some(campaign) => match (campaign.mail_of(1), text) {
            (Some(kept), Some(text)) => assert!(rt; kept.as_slice() == text.as_bytes()),
            (None, None) => {}
            _ => assert!(rt; false),
        },
        None => assert!(rt; false),
    }
}

fn assert_books(rt: &impl Abort, service: &impl AnyService, wanted: &str) -> Result<(), Fail> {
    match service.books() {
        Some(text) => assert_text(rt, text?.as_str(), wanted),
        None => assert!(rt; false),
    }
    Ok(())
}

pub(crate) fn assert_answer(rt: &impl Abort, answer: &Answer, step: &Step) {
    match step {
        Step::Answers(_, words) => assert_text(rt, answer_text(answer), words),
        Step::Joined(_, faction, unit) => assert_joined(rt, answer, *faction, *unit),
        Step::Mailed(_, orders, faulty) => assert_mailed(rt, answer, *orders, faulty),
        Step::Closed(_, month) => assert_closed(rt, answer, *month),
        _ => assert!(rt; false),
    }
}

fn assert_campaign(rt: &impl Abort, service: &impl AnyService, step: &Step) -> Result<(), Fail> {
    match step {
        Step::Closed(_, month) | Step::Month(month) => assert_month(rt, service, *month),
        Step::Numbers(faction, unit, units) => assert_next_numbers(
            rt, service, *faction, *unit, *units,
        ),
        Step::Keeps(text) => assert_kept_mail(rt, service, text),
        Step::Books(wanted) => return assert_books(rt, service, wanted),
        _ => {}
    }
    Ok(())
}

fn run_step(
    rt: &impl Abort,
    alloc: Global,
    service: &mut impl AnyService,
    step: &Step,
) -> Result<(), Fail> {
    if let Some(asked) = command_in(step) {
        let answer = answered(alloc, service, asked)?;
        assert_answer(rt, &answer, step);
    }
    assert_campaign(rt, service, step)
}

pub(crate) fn follow(
    rt: &impl Abort,
    alloc: Global,
    service: &mut impl AnyService,
    steps: &[Step],
) -> Result<(), Fail> {
    for step in steps {
        run_step(rt, alloc, service, step)?;
    }
    Ok(())
}

pub(crate) fn play(
    rt: &impl Abort,
    alloc: Global,
    world: &str,
    steps: &[Step],
    rows: &[(&str, Option<i64>)],
) -> Result<(), Fail> {
    let mut service = found_in_memory(alloc, world)?;
    let done = follow(rt, alloc, &mut service, steps);
    assert_tables(rt, &mut service.end(), rows);
    done
}

/// A campaign to play: its world, SQL that adds rows after the founding, steps, and what the tables
/// hold at the end.
#[derive(Clone, Copy)]
pub(crate) struct Course {
    pub(crate) world: &'static str,
    pub(crate) rows: &'static str,
    pub(crate) steps: &'static [Step],
    pub(crate) after: &'static [(&'static str, Option<i64>)],
}

/// Plays a course in memory, and asserts all that it wants; the campaign is opened again after the
/// rows are added.
pub(crate) fn play_course(rt: &impl Abort, alloc: Global, course: &Course) -> Result<(), Fail> {
    let conn = found_in_memory(alloc, course.world)?.end();
    let mut service = open_after_sql(alloc, conn, course.rows)?;
    let done = follow(rt, alloc, &mut service, course.steps);
    assert_tables(rt, &mut service.end(), course.after);
    done
}
