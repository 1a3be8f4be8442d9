//! Tests of `found`, `open` and `upgrade` on a connection that is in a transaction: they report
//! Store, or an earlier fault (docs/FORMATS.md, "Opening a file").
use super::compare::assert_text;
use super::making::{cause_text, found_in_memory, found_service};
use super::script::{CommandSpec, Step, follow};
use super::serving::{AnyService, Tables};
use super::tables::assert_tables;
use atl_service::{Refused, Service, found, open, upgrade};
use atl_test_files::old_file;
use atl_test_worlds::{ISLE, ISLE_WITH_MARKET, SMALL_WORLD};
use sqlite::{Alter, Connection};
use std::alloc::Global;
use std::process::Abort;
use std::test::Fail;

/// Asserts that a founding, an opening or an upgrade was refused, and why; returns the connection.
pub(crate) fn assert_refused<S: Alter>(
    rt: &impl Abort,
    tried: Result<Service<S>, Refused<S>>,
    words: &str,
) -> Connection<S> {
    match tried {
        Ok(service) => {
            assert!(rt; false);
            service.end()
        }
        Err(Refused { why, conn }) => {
            assert_text(rt, cause_text(&why), words);
            conn
        }
    }
}

/// A founding in a transaction: SQL statements on an empty database, a world text, the name of the
/// first check that fails, and a query with what it returns afterwards.
struct Founding {
    sql: &'static str,
    world: &'static str,
    words: &'static str,
    after: (&'static str, Option<i64>),
}

const TABLES: &str = "SELECT count(*) FROM sqlite_schema";

static FOUNDINGS: [Founding; 3] = [
    Founding {
        sql: "BEGIN",
        world: "a = = b",
        words: "world",
        after: (TABLES, Some(0)),
    },
    Founding {
        sql: "CREATE TABLE campaign (x INTEGER); INSERT INTO campaign VALUES (7); BEGIN",
        world: SMALL_WORLD,
        words: "not empty",
        after: ("SELECT x FROM campaign", Some(7)),
    },
    Founding {
        sql: "BEGIN",
        world: SMALL_WORLD,
        words: "store",
        after: (TABLES, Some(0)),
    },
];

fn assert_not_founded<S: Alter + Drop>(
    rt: &impl Abort,
    alloc: Global,
    conn: Connection<S>,
    founding: &Founding,
) -> Result<(), Fail> {
    let mut conn = conn;
    conn.change(founding.sql)?;
    let mut conn = assert_refused(
        rt,
        found(alloc, conn, founding.world, b"gm"),
        founding.words,
    );
    assert_tables(rt, &mut conn, &[founding.after]);
    Ok(())
}

fn assert_none_founded(rt: &impl Abort, alloc: Global) -> Result<(), Fail> {
    for founding in FOUNDINGS.iter() {
        assert_not_founded(rt, alloc, Connection::open_in_memory(alloc)?, founding)?;
    }
    Ok(())
}

#[test]
fn nothing_is_founded_in_a_transaction(rt: HostRuntime) -> Result<(), Fail> {
    assert_none_founded(&rt, rt.alloc())
}

static BOTH_JOIN: [Step; 2] = [
    Step::Joined(CommandSpec::Join("Avalon", "pw", 1), 1, 1),
    Step::Joined(CommandSpec::Join("Bree", "pb", 1), 2, 2),
];

/// SQL statements on a campaign that Avalon and Bree have joined, the last of which begins a
/// transaction. Without it, opening would report another fault after all but the first.
static BEGUN: [&str; 5] = [
    "BEGIN",
    "BEGIN; DROP TABLE campaign",
    "DELETE FROM campaign; BEGIN",
    "DROP TABLE unit; CREATE TABLE unit (number INTEGER NOT NULL PRIMARY KEY, faction INTEGER NOT NULL, name TEXT NOT NULL, region INTEGER NOT NULL, structure INTEGER NOT NULL, men INTEGER NOT NULL, money INTEGER NOT NULL, guard INTEGER NOT NULL); INSERT INTO unit VALUES (1, 1, 'Unit 1', 3, 0, 1, 'x', 0), (2, 2, 'Unit 2', 3, 0, 1, 1000, 0); BEGIN",
    "UPDATE unit SET guard = 1; BEGIN",
];

fn assert_not_opened<S: Alter + Drop>(
    rt: &impl Abort,
    alloc: Global,
    conn: Connection<S>,
    sql: &str,
) -> Result<(), Fail> {
    let mut service = found_service(alloc, conn, ISLE_WITH_MARKET)?;
    follow(rt, alloc, &mut service, &BOTH_JOIN)?;
    let mut conn = service.end();
    conn.change(sql)?;
    let _conn = assert_refused(rt, open(alloc, conn), "store");
    Ok(())
}

fn assert_none_opened(rt: &impl Abort, alloc: Global) -> Result<(), Fail> {
    for sql in BEGUN.iter() {
        assert_not_opened(rt, alloc, Connection::open_in_memory(alloc)?, sql)?;
    }
    Ok(())
}

#[test]
fn nothing_is_opened_in_a_transaction(rt: HostRuntime) -> Result<(), Fail> {
    assert_none_opened(&rt, rt.alloc())
}

fn begin_in_old_file<S: Alter>(
    conn: &mut Connection<S>,
    service: &impl AnyService,
) -> Result<(), Fail> {
    old_file(conn, ISLE, service.campaign().ok_or("closed")?)?;
    conn.change("BEGIN")
}

fn assert_not_upgraded<S: Alter + Drop>(rt: &impl Abort, alloc: Global, conn: Connection<S>) {
    let conn = assert_refused(rt, open(alloc, conn), "store");
    let conn = assert_refused(rt, upgrade(alloc, conn, ISLE_WITH_MARKET), "store");
    let _conn = assert_refused(rt, open(alloc, conn), "store");
}

fn assert_old_file_stays(rt: &impl Abort, alloc: Global) -> Result<(), Fail> {
    let mut service = found_in_memory(alloc, ISLE)?;
    follow(rt, alloc, &mut service, &BOTH_JOIN)?;
    let mut conn = Connection::open_in_memory(alloc)?;
    begin_in_old_file(&mut conn, &service)?;
    assert_not_upgraded(rt, alloc, conn);
    Ok(())
}

#[test]
fn nothing_is_upgraded_in_a_transaction(rt: HostRuntime) -> Result<(), Fail> {
    assert_old_file_stays(&rt, rt.alloc())
}
