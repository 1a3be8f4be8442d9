//! Tries one call with memory short, and checks that it answers Memory and leaves all as before, or
//! succeeds as with ample memory.
use crate::cases::{Call, Case};
use crate::setting::{begun, old_of};
use crate::shortage::Shortage;
use crate::texts::{answer_text, is_text, rows, rows_of, text_of};
use atl_campaign::Campaign;
use atl_service::{Answer, Cause, Fault, Refused, Service, found, open, upgrade};
use atl_state::{CheckFault, check};
use atl_test_worlds::{ISLE, ISLE_WITH_MARKET};
use atl_world::World;
use sqlite::{Alter, Connection};
use std::alloc::Global;

/// What a call did with memory short: it answered Memory and left what it had to leave, it had the
/// outcome of ample memory, or something else.
#[derive(Clone, Copy, PartialEq, Eq, Debug)]
enum Behaviour {
    /// The answer is Memory, and all is as before.
    Memory,
    /// The very outcome of ample memory.
    Done,
    Wrong(&'static str),
}

/// What a call did with memory short, judged together with whether a growth (a request for memory)
/// was refused.
#[derive(Clone, Copy, PartialEq, Eq, Debug)]
pub enum TrialResult {
    /// The answer is Memory, and all is as before.
    Held,
    /// The outcome is that of ample memory, and no growth was refused as far as is known.
    Done,
    /// A growth was refused, and the outcome is nevertheless that of ample memory.
    MadeGood,
    /// The answer is Memory, although no growth was refused.
    Untrue,
    Wrong(&'static str),
}

fn judged(was_refused: Option<bool>, behaviour: Behaviour) -> TrialResult {
    match (was_refused, behaviour) {
        (_, Behaviour::Wrong(what)) => TrialResult::Wrong(what),
        (Some(false), Behaviour::Memory) => TrialResult::Untrue,
        (_, Behaviour::Memory) => TrialResult::Held,
        (Some(true), Behaviour::Done) => TrialResult::MadeGood,
        (_, Behaviour::Done) => TrialResult::Done,
    }
}

fn after_memory(is_as_before: bool) -> Behaviour {
    if is_as_before {
        Behaviour::Memory
    } else {
        Behaviour::Wrong("Memory, and not all is as before")
    }
}

fn after_success(is_as_wanted: bool) -> Behaviour {
    if is_as_wanted {
        Behaviour::Done
    } else {
        Behaviour::Wrong("not the outcome of ample memory")
    }
}

fn has_rows<S: Alter + Drop>(alloc: Global, service: Service<S>, wanted: &str) -> bool {
    is_text(rows(alloc, service.campaign()), wanted)
        && is_text(rows_of(alloc, service.end()), wanted)
}

fn is_closed<S: Alter>(service: &mut Service<S>, case: &Case) -> bool {
    let mut is_closed = service.campaign().is_none()
        && service.books().is_none()
        && service.world().region(4).is_some();
    for command in &case.later {
        is_closed = is_closed && matches!(&service.run(command), Answer::Fault(Fault::Closed));
    }
    is_closed
}

fn is_left_closed<S: Alter + Drop>(
    alloc: Global,
    mut service: Service<S>,
    case: &Case,
    wanted: &str,
) -> bool {
    is_closed(&mut service, case) && is_text(rows_of(alloc, service.end()), wanted)
}

/// How the answers to a case's commands end: all as with ample memory, Memory and then Closed, or
/// otherwise.
#[derive(Clone, Copy, PartialEq, Eq)]
enum End {
    Done,
    /// This many answers are those of ample memory; then comes Memory, and after it only Closed.
    Memory(usize),
    /// Some answer is none of these, or an answer is missing.
    Astray,
}

fn end_of(alloc: Global, answers: &[Answer], wanted: &[String]) -> End {
    let mut end = End::Done;
    for (at, (answer, wanted)) in answers.iter().zip(wanted.iter()).enumerate() {
        end = match (answer, end) {
            (Answer::Fault(Fault::Memory), End::Done) => End::Memory(at),
            (Answer::Fault(Fault::Closed), End::Memory(at)) => End::Memory(at),
            (answer, End::Done) if is_text(answer_text(alloc, answer), wanted.as_str()) => {
                End::Done
            }
            _ => End::Astray,
        };
    }
    if answers.len() == wanted.len() {
        end
    } else {
        End::Astray
    }
}

fn judge_answers<S: Alter + Drop>(
    alloc: Global,
    service: Service<S>,
    answers: &[Answer],
    case: &Case,
) -> Behaviour {
    match end_of(alloc, answers, &case.answers) {
        End::Done => after_success(has_rows(alloc, service, case.rows_after(answers.len()))),
        End::Memory(at) => after_memory(is_left_closed(alloc, service, case, case.rows_after(at))),
        End::Astray => Behaviour::Wrong("another answer"),
    }
}

/// The case's commands, run now, must have the outcome of ample memory.
fn works_as_before<S: Alter + Drop>(alloc: Global, mut service: Service<S>, case: &Case) -> bool {
    let is_as_before = is_text(rows(alloc, service.campaign()), case.rows_after(0));
    match service.run_all(&case.commands) {
        Ok(answers) => is_as_before
            && judge_answers(alloc, service, &answers, case) == Behaviour::Done,
        Err(_) => false,
    }
}

/// After Memory the database must have no tables.
fn founds<S: Alter + Drop>(
    alloc: Global,
    conn: Connection<S>,
    case: &Case,
    shortage: &mut Shortage,
) -> Behaviour {
    shortage.begin(alloc);
    let answer = found(alloc, conn, ISLE, b"gm");
    shortage.end(alloc);
    match answer {
        Ok(service) => after_success(has_rows(alloc, service, case.rows_after(0))),
        Err(
            Refused {
                why: Cause::Memory,
                conn,
            },
        ) => after_memory(conn.schema().tables.is_empty()),
        Err(_) => Behaviour::Wrong("another cause"),
    }
}

/// After Memory the database must have the rows that it had.
fn opens<S: Alter + Drop>(
    alloc: Global,
    service: Service<S>,
    case: &Case,
    shortage: &mut Shortage,
) -> Behaviour {
    let conn = service.end();
    shortage.begin(alloc);
    let answer = open(alloc, conn);
    shortage.end(alloc);
    match answer {
        Ok(service) => after_success(has_rows(alloc, service, case.rows_after(0))),
        Err(
            Refused {
                why: Cause::Memory,
                conn,
            },
        ) => after_memory(is_text(rows_of(alloc, conn), case.rows_after(0))),
        Err(_) => Behaviour::Wrong("another cause"),
    }
}

fn is_still_old<S: Alter + Drop>(alloc: Global, conn: Connection<S>, case: &Case) -> bool {
    match open(alloc, conn) {
        Err(
            Refused {
                why: Cause::OldFormat,
                conn,
            },
        ) => match upgrade(alloc, conn, ISLE_WITH_MARKET) {
            Ok(service) => has_rows(alloc, service, case.rows_after(0)),
            Err(_) => false,
        },
        _ => false,
    }
}

/// After Memory the file must still be of the first format, and an upgrade must then succeed.
fn upgrades<S: Alter + Drop>(
    alloc: Global,
    service: Service<S>,
    case: &Case,
    shortage: &mut Shortage,
) -> Behaviour {
    let Some(conn) = old_of(alloc, service) else {
        return Behaviour::Wrong("no old file");
    };
    shortage.begin(alloc);
    let answer = upgrade(alloc, conn, ISLE_WITH_MARKET);
    shortage.end(alloc);
    match answer {
        Ok(service) => after_success(has_rows(alloc, service, case.rows_after(0))),
        Err(
            Refused {
                why: Cause::Memory,
                conn,
            },
        ) => after_memory(is_still_old(alloc, conn, case)),
        Err(_) => Behaviour::Wrong("another cause"),
    }
}

fn runs<S: Alter + Drop>(
    alloc: Global,
    mut service: Service<S>,
    case: &Case,
    shortage: &mut Shortage,
) -> Behaviour {
    let Some(command) = case.commands.first() else {
        return Behaviour::Wrong("no command");
    };
    shortage.begin(alloc);
    let answer = service.run(command);
    shortage.end(alloc);
    match Vec::from_array(alloc, [answer]) {
        Ok(answers) => judge_answers(alloc, service, &answers, case),
        Err(_) => Behaviour::Wrong("no room"),
    }
}

fn runs_all<S: Alter + Drop>(
    alloc: Global,
    mut service: Service<S>,
    case: &Case,
    shortage: &mut Shortage,
) -> Behaviour {
    shortage.begin(alloc);
    let answers = service.run_all(&case.commands);
    shortage.end(alloc);
    match answers {
        Ok(answers) => judge_answers(alloc, service, &answers, case),
        Err(_) => after_memory(works_as_before(alloc, service, case)),
    }
}

fn asks_for_books<S: Alter + Drop>(
    alloc: Global,
    service: Service<S>,
    case: &Case,
    shortage: &mut Shortage,
) -> Behaviour {
    shortage.begin(alloc);
    let books = service.books();
    shortage.end(alloc);
    let is_left = works_as_before(alloc, service, case);
    match books {
        Some(Ok(text)) => after_success(is_left && text.as_str() == case.books.as_str()),
        Some(Err(_)) => after_memory(is_left),
        None => Behaviour::Wrong("no books"),
    }
}

fn asks_for_rows(
    alloc: Global,
    campaign: &Campaign,
    case: &Case,
    shortage: &mut Shortage,
) -> Behaviour {
    shortage.begin(alloc);
    let parts = campaign.parts();
    shortage.end(alloc);
    let is_left = is_text(rows(alloc, Some(campaign)), case.rows_after(0));
    match &parts {
        Ok(parts) => after_success(is_left && is_text(text_of(alloc, parts), case.rows_after(0))),
        Err(_) => after_memory(is_left),
    }
}

fn checks(
    alloc: Global,
    world: &World,
    campaign: &Campaign,
    case: &Case,
    shortage: &mut Shortage,
) -> Behaviour {
    let Ok(parts) = campaign.parts() else {
        return Behaviour::Wrong("no rows");
    };
    shortage.begin(alloc);
    let checked = check(alloc, world, parts);
    shortage.end(alloc);
    match &checked {
        Ok(checked) => after_success(is_text(rows(alloc, Some(checked)), case.rows_after(0))),
        Err(CheckFault::Memory) => {
            after_memory(is_text(rows(alloc, Some(campaign)), case.rows_after(0)))
        }
        Err(_) => Behaviour::Wrong("a rule is broken"),
    }
}

fn reads<S: Alter + Drop>(
    alloc: Global,
    service: Service<S>,
    case: &Case,
    shortage: &mut Shortage,
) -> Behaviour {
    match service.campaign() {
        Some(campaign) if case.call == Call::Parts => {
            asks_for_rows(alloc, campaign, case, shortage)
        }
        Some(campaign) => checks(alloc, service.world(), campaign, case, shortage),
        None => Behaviour::Wrong("no campaign"),
    }
}

fn try_on_service<S: Alter + Drop>(
    alloc: Global,
    service: Service<S>,
    case: &Case,
    shortage: &mut Shortage,
) -> Behaviour {
    match case.call {
        Call::Open => opens(alloc, service, case, shortage),
        Call::Upgrade => upgrades(alloc, service, case, shortage),
        Call::RunAll => runs_all(alloc, service, case, shortage),
        Call::Books => asks_for_books(alloc, service, case, shortage),
        Call::Parts | Call::Check => reads(alloc, service, case, shortage),
        _ => runs(alloc, service, case, shortage),
    }
}

fn try_in_database<S: Alter + Drop>(
    alloc: Global,
    conn: Connection<S>,
    case: &Case,
    shortage: &mut Shortage,
) -> Behaviour {
    if case.call == Call::Found {
        return founds(alloc, conn, case, shortage);
    }
    match begun(alloc, conn) {
        Some(service) => try_on_service(alloc, service, case, shortage),
        None => Behaviour::Wrong("no campaign"),
    }
}

/// Tries the call of a case with memory short, in a new database in memory, and judges the outcome.
pub fn try_case(alloc: Global, case: &Case, shortage: &mut Shortage) -> TrialResult {
    let behaviour = match Connection::open_in_memory(alloc) {
        Ok(conn) => try_in_database(alloc, conn, case, shortage),
        Err(_) => Behaviour::Wrong("no connection"),
    };
    judged(shortage.was_refused, behaviour)
}
