//! Tests of `open`: a campaign opened again, on its connection or from its files, has the same
//! rows, and can be played on.
use super::closing::{AFTER_WORK, MONTH_ONE};
use super::commands::{FIRST_REPORT, JOIN_OF_AVALON, REPORT_OF_BREE};
use super::compare::assert_text;
use super::files::{connected, new_files};
use super::making::{found_service, opened};
use super::script::{CommandSpec, Step, follow};
use super::serving::AnyService;
use super::transactions::assert_refused;
use atl_campaign::Campaign;
use atl_service::{Service, found};
use atl_state::check;
use atl_test_worlds::SMALL_WORLD;
use atl_world::World;
use sqlite::{Alter, Connection, MemStore};
use sqlite_disk::{Disk, Files};
use std::alloc::Global;
use std::process::Abort;
use std::test::Fail;

/// What is done with a database between two openings: a world to found, and steps. Without a world
/// the stored campaign is opened.
struct Session {
    world: Option<&'static str>,
    steps: &'static [Step],
}

const AVALON_COMES: [Step; 3] = [
    Step::Joined(JOIN_OF_AVALON, 1, 1),
    Step::Mailed(
        CommandSpec::Mail(1, "pw", "#ATLANTIS 1\nUNIT 1\nWORK\n"),
        1,
        &[],
    ),
    Step::Answers(CommandSpec::Report(1, "pw"), FIRST_REPORT),
];

const BREE_COMES: [Step; 3] = [
    Step::Answers(CommandSpec::Report(1, "pw"), FIRST_REPORT),
    Step::Keeps(Some("#ATLANTIS 1\nUNIT 1\nWORK\n")),
    Step::Joined(CommandSpec::Join("Bree", "pb", 0), 2, 2),
];

const BOTH_ARE_THERE: [Step; 3] = [
    Step::Numbers(3, 3, 2),
    Step::Answers(CommandSpec::Report(1, "pw"), FIRST_REPORT),
    Step::Answers(CommandSpec::Report(2, "pb"), REPORT_OF_BREE),
];

const A_MONTH: [Step; 2] = [
    Step::Joined(JOIN_OF_AVALON, 1, 1),
    Step::Closed(MONTH_ONE, 1),
];

const AFTER_A_MONTH: [Step; 4] = [
    Step::Month(1),
    Step::Answers(MONTH_ONE, "wrong month"),
    Step::Answers(CommandSpec::Report(1, "pw"), AFTER_WORK),
    Step::Keeps(None),
];

fn rows_of(alloc: Global, campaign: &Campaign) -> Result<String, Fail> {
    let parts = campaign.parts()?;
    Ok(format!(in alloc; "{parts:?}")?)
}

pub(crate) fn rows_in(alloc: Global, service: &impl AnyService) -> Result<String, Fail> {
    rows_of(alloc, service.campaign().ok_or("closed")?)
}

fn rows_after(
    rt: &impl Abort,
    alloc: Global,
    service: &mut impl AnyService,
    steps: &[Step],
) -> Result<String, Fail> {
    follow(rt, alloc, service, steps)?;
    rows_in(alloc, service)
}

fn assert_rows(
    rt: &impl Abort,
    alloc: Global,
    service: &impl AnyService,
    rows: &str,
) -> Result<(), Fail> {
    let actual = rows_in(alloc, service)?;
    assert_text(rt, actual.as_str(), rows);
    Ok(())
}

fn service_of<S: Alter + Drop>(
    alloc: Global,
    conn: Connection<S>,
    world: Option<&str>,
) -> Result<Service<S>, Fail> {
    match world {
        Some(world) => found_service(alloc, conn, world),
        None => opened(alloc, conn),
    }
}

/// The campaign must have the rows of the session before (`rows`).
fn played<S: Alter + Drop>(
    rt: &impl Abort,
    alloc: Global,
    conn: Connection<S>,
    session: &Session,
    rows: &str,
) -> Result<(String, Connection<S>), Fail> {
    let mut service = service_of(alloc, conn, session.world)?;
    if !rows.is_empty() {
        assert_rows(rt, alloc, &service, rows)?;
    }
    let rows = rows_after(rt, alloc, &mut service, session.steps);
    let conn = service.end();
    Ok((rows?, conn))
}

fn play_on_connection(
    rt: &impl Abort,
    alloc: Global,
    sessions: &[Session],
) -> Result<(String, Connection<MemStore>), Fail> {
    let mut conn = Connection::open_in_memory(alloc)?;
    let mut rows = String::new(alloc);
    for session in sessions {
        (rows, conn) = played(rt, alloc, conn, session, rows.as_str())?;
    }
    Ok((rows, conn))
}

/// Plays sessions in files that are closed and opened between one session and the next.
fn play_in_files<D: Disk + Drop>(
    rt: &impl Abort,
    alloc: Global,
    files: Files<D>,
    sessions: &[Session],
) -> Result<(), Fail> {
    let mut files = files;
    let mut rows = String::new(alloc);
    for session in sessions {
        let conn = connected(alloc, files)?;
        let (actual, conn) = played(rt, alloc, conn, session, rows.as_str())?;
        rows = actual;
        files = conn.into_store().close();
    }
    Ok(())
}

fn checked(alloc: Global, world: &World, campaign: &Campaign) -> Result<Campaign, Fail> {
    match check(alloc, world, campaign.parts()?) {
        Ok(again) => Ok(again),
        Err(_) => Err(Fail::new("check")),
    }
}

fn assert_made_of(
    rt: &impl Abort,
    alloc: Global,
    world: &World,
    campaign: &Campaign,
    rows: &str,
) -> Result<(), Fail> {
    assert_text(rt, rows_of(alloc, campaign)?.as_str(), rows);
    let again = checked(alloc, world, campaign)?;
    assert_text(rt, rows_of(alloc, &again)?.as_str(), rows);
    Ok(())
}

fn assert_campaign(
    rt: &impl Abort,
    alloc: Global,
    conn: Connection<MemStore>,
    rows: &str,
) -> Result<(), Fail> {
    let service = opened(alloc, conn)?;
    let campaign = service.campaign().ok_or("closed")?;
    assert_made_of(rt, alloc, service.world(), campaign, rows)
}

static MONTH_STAYS_CLOSED: [Session; 2] = [
    Session {
        world: Some(SMALL_WORLD),
        steps: &A_MONTH,
    },
    Session {
        world: None,
        steps: &AFTER_A_MONTH,
    },
];

fn assert_month_stays_closed(rt: &impl Abort, alloc: Global) -> Result<(), Fail> {
    let (rows, conn) = play_on_connection(rt, alloc, &MONTH_STAYS_CLOSED)?;
    let conn = assert_refused(rt, found(alloc, conn, SMALL_WORLD, b"gm"), "not empty");
    assert_campaign(rt, alloc, conn, rows.as_str())
}

#[test]
fn a_closed_month_is_opened_again(rt: HostRuntime) -> Result<(), Fail> {
    assert_month_stays_closed(&rt, rt.alloc())
}

/// Sessions in which a campaign is founded and Avalon joins, is opened and Bree joins, and is
/// opened once more.
static REOPENED_TWICE: [Session; 3] = [
    Session {
        world: Some(SMALL_WORLD),
        steps: &AVALON_COMES,
    },
    Session {
        world: None,
        steps: &BREE_COMES,
    },
    Session {
        world: None,
        steps: &BOTH_ARE_THERE,
    },
];

fn assert_reopened_twice(rt: &impl Abort, alloc: Global) -> Result<(), Fail> {
    let (_, conn) = play_on_connection(rt, alloc, &REOPENED_TWICE)?;
    assert_refused(rt, found(alloc, conn, SMALL_WORLD, b"gm"), "not empty");
    Ok(())
}

#[test]
fn a_campaign_is_opened_on_its_connection(rt: HostRuntime) -> Result<(), Fail> {
    assert_reopened_twice(&rt, rt.alloc())
}

#[test]
fn a_campaign_is_opened_from_its_files(rt: HostRuntime) -> Result<(), Fail> {
    play_in_files(&rt, rt.alloc(), new_files(rt.alloc()), &REOPENED_TWICE)
}
