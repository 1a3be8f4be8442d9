//! Tests that a disk that stops at any of its calls leaves the campaign before a write or after it,
//! never a part. The writes are those of founding, a join, mailings and closings.
use super::compare::assert_text;
use super::courses::COURSES;
use super::files::connected;
use super::making::{answer_text, cause_text, found_in_memory, open_after_sql};
use super::opening::rows_in;
use super::script::{Course, commands_of};
use super::serving::AnyService;
use atl_service::{Answer, Command, Refused, Service, found, open};
use atl_world::let_go;
use sqlite::{Alter, Connection, MemStore, Options};
use sqlite_disk::{Crash, Files, Fuse, Memory};
use std::alloc::Global;
use std::process::Abort;
use std::test::Fail;

/// What is played while a disk stops: a course, its commands, and the stages of its campaign.
/// `stages` begins with an empty text, before the first write; then come all rows of the campaign
/// after each write.
struct Plan {
    course: Course,
    commands: Vec<Command>,
    stages: Vec<String>,
}

impl Drop for Plan {
    fn drop(self) {
        let_go!(self: Plan { course, commands, stages });
    }
}

/// The campaign's rows are appended to `stages` after the founding and, if the course has rows of
/// its own, after these are added.
fn set_up(
    alloc: Global,
    course: &Course,
    stages: &mut Vec<String>,
) -> Result<Service<MemStore>, Fail> {
    let service = found_in_memory(alloc, course.world)?;
    stages.push(rows_in(alloc, &service)?)?;
    if course.rows.is_empty() {
        return Ok(service);
    }
    let service = open_after_sql(alloc, service.end(), course.rows)?;
    stages.push(rows_in(alloc, &service)?)?;
    Ok(service)
}

fn run_noted(
    alloc: Global,
    service: &mut impl AnyService,
    commands: &[Command],
    stages: &mut Vec<String>,
) -> Result<(), Fail> {
    for command in commands {
        let _answer = service.run(command);
        stages.push(rows_in(alloc, service)?)?;
    }
    Ok(())
}

fn note_stages(
    alloc: Global,
    course: &Course,
    commands: &[Command],
    stages: &mut Vec<String>,
) -> Result<(), Fail> {
    stages.push(String::new(alloc))?;
    let mut service = set_up(alloc, course, stages)?;
    run_noted(alloc, &mut service, commands, stages)
}

fn planned(alloc: Global, course: &Course) -> Result<Plan, Fail> {
    let commands = commands_of(alloc, course.steps)?;
    let mut stages = Vec::new(alloc);
    note_stages(alloc, course, &commands, &mut stages)?;
    Ok(Plan {
        course: *course,
        commands,
        stages,
    })
}

fn is_done(answer: &Answer) -> bool {
    matches!(answer_text(answer), "joined" | "mailed" | "month done")
}

/// The command at which the disk stops must be answered Store, and all later ones Closed; then
/// there is no campaign, and there are no books.
fn run_each(rt: &impl Abort, service: &mut impl AnyService, commands: &[Command]) -> usize {
    let mut done = 0usize;
    let mut stopped = false;
    for command in commands {
        let answer = service.run(command);
        if stopped {
            assert_text(rt, answer_text(&answer), "closed");
        } else if is_done(&answer) {
            done = done.saturating_add(1);
        } else {
            assert_text(rt, answer_text(&answer), "store");
            stopped = true;
        }
    }
    assert!(rt; service.campaign().is_none() == stopped);
    assert!(rt; service.books().is_none() == stopped);
    done
}

/// If the disk stopped, the cause must be Store.
fn service_or_connection<S: Alter>(
    rt: &impl Abort,
    tried: Result<Service<S>, Refused<S>>,
) -> Result<Service<S>, Connection<S>> {
    match tried {
        Ok(service) => Ok(service),
        Err(Refused { why, conn }) => {
            assert_text(rt, cause_text(&why), "store");
            Err(conn)
        }
    }
}

/// The number of writes done includes the `writings` before the commands.
fn runs<S: Alter>(
    rt: &impl Abort,
    service: Service<S>,
    plan: &Plan,
    writings: usize,
) -> (usize, Connection<S>) {
    let mut service = service;
    let done = run_each(rt, &mut service, &plan.commands);
    (done.saturating_add(writings), service.end())
}

fn reopen_and_run<S: Alter + Drop>(
    rt: &impl Abort,
    alloc: Global,
    conn: Connection<S>,
    plan: &Plan,
) -> (usize, Connection<S>) {
    let mut conn = conn;
    if conn.execute_batch(plan.course.rows).is_err() {
        return (1, conn);
    }
    match service_or_connection(rt, open(alloc, conn)) {
        Ok(service) => runs(rt, service, plan, 2),
        Err(conn) => (2, conn),
    }
}

fn found_and_run<S: Alter + Drop>(
    rt: &impl Abort,
    alloc: Global,
    conn: Connection<S>,
    plan: &Plan,
) -> (usize, Connection<S>) {
    match service_or_connection(rt, found(alloc, conn, plan.course.world, b"gm")) {
        Ok(service) if plan.course.rows.is_empty() => runs(rt, service, plan, 1),
        Ok(service) => reopen_and_run(rt, alloc, service.end(), plan),
        Err(conn) => (0, conn),
    }
}

/// The log is copied into the database before each write, so that both disks are called.
fn options() -> Options {
    let mut options = Options::new(2);
    options.checkpoint_frames = 1;
    options
}

fn crashed<D: Crash>(files: Files<D>) -> Files<D> {
    let Files { mut log, mut db } = files;
    log.crash();
    db.crash();
    Files { log, db }
}

fn is_stage(plan: &Plan, writings: usize, rows: &str) -> bool {
    match plan.stages.get(writings) {
        Some(stage) => stage.as_str() == rows,
        None => false,
    }
}

fn rows_left<S: Alter + Drop>(
    rt: &impl Abort,
    alloc: Global,
    conn: Connection<S>,
) -> Result<String, Fail> {
    match open(alloc, conn) {
        Ok(service) => rows_in(alloc, &service),
        Err(Refused { why, conn: _ }) => {
            assert_text(rt, cause_text(&why), "not a campaign");
            Ok(String::new(alloc))
        }
    }
}

/// A crash must leave the campaign after the writes done, or after one more. The result is how many
/// writes were done.
fn stopped<D: Crash + Drop>(
    rt: &impl Abort,
    alloc: Global,
    files: Files<D>,
    plan: &Plan,
) -> Result<usize, Fail> {
    if !files.may_be_used() {
        return Err(Fail::new("the files can't be used"));
    }
    let (done, files) = match Connection::open_files(alloc, files, options()) {
        Ok(conn) => {
            let (done, conn) = found_and_run(rt, alloc, conn, plan);
            (done, conn.into_store().close())
        }
        Err((_, left)) => (0, left.into_files()),
    };
    let conn = connected(alloc, crashed(files))?;
    let rows = rows_left(rt, alloc, conn)?;
    let rows = rows.as_str();
    assert!(rt; is_stage(plan, done, rows) || is_stage(plan, done.saturating_add(1), rows));
    Ok(done)
}

#[derive(Clone, Copy)]
enum WhichDisk {
    Log,
    Database,
}

fn stopping(alloc: Global, which: WhichDisk, calls: u64) -> Files<Fuse<Memory>> {
    let (log, db) = match which {
        WhichDisk::Log => (calls, u64::MAX),
        WhichDisk::Database => (u64::MAX, calls),
    };
    Files {
        log: Fuse::new(Memory::new(alloc), log),
        db: Fuse::new(Memory::new(alloc), db),
    }
}

/// More calls than a disk gets in any course.
const MANY_CALLS: u64 = 1_000;

/// The last run is the one in which all writes of the plan are done.
fn stop_at_each_call(
    rt: &impl Abort,
    alloc: Global,
    plan: &Plan,
    which: WhichDisk,
) -> Result<(), Fail> {
    for calls in 0..MANY_CALLS {
        let done = stopped(rt, alloc, stopping(alloc, which, calls), plan)?;
        if done.saturating_add(1) == plan.stages.len() {
            assert!(rt; calls > 0);
            return Ok(());
        }
    }
    Err(Fail::new("stopped each time"))
}

fn assert_stops_of_all(rt: &impl Abort, alloc: Global, which: WhichDisk) -> Result<(), Fail> {
    for course in COURSES.iter() {
        let plan = planned(alloc, course)?;
        stop_at_each_call(rt, alloc, &plan, which)?;
    }
    Ok(())
}

#[test]
fn the_log_stops(rt: HostRuntime) -> Result<(), Fail> {
    assert_stops_of_all(&rt, rt.alloc(), WhichDisk::Log)
}

#[test]
fn the_database_stops(rt: HostRuntime) -> Result<(), Fail> {
    assert_stops_of_all(&rt, rt.alloc(), WhichDisk::Database)
}
