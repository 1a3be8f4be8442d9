//! Reads and changes a database by statements written by hand, past the store.
use super::words::{done, text_of};
use atl_test_worlds::month::MONTH_ROWS;
use sqlite::{Alter, Connection, params};
use std::alloc::Global;
use std::test::Fail;

pub(crate) fn run_statements<S: Alter>(
    alloc: Global,
    conn: &mut Connection<S>,
    sql: &str,
) -> Result<String, Fail> {
    conn.execute_batch(sql)?;
    done(alloc)
}

/// Adds two factions, eleven units and a boat to the tables of the isle, where nobody has joined;
/// the answer is `Done`.
pub(crate) fn settle<S: Alter>(alloc: Global, conn: &mut Connection<S>) -> Result<String, Fail> {
    run_statements(alloc, conn, MONTH_ROWS)
}

pub(crate) fn set_world_text<S: Alter>(
    alloc: Global,
    conn: &mut Connection<S>,
    world: &str,
) -> Result<String, Fail> {
    conn.execute("UPDATE campaign SET world = ?1", params![world])?;
    done(alloc)
}

/// Limits how many steps SQLite may take for one statement, or removes the limit (None); the answer
/// is `Done`.
pub(crate) fn limit_steps<S: Alter>(
    alloc: Global,
    conn: &mut Connection<S>,
    limit: Option<u64>,
) -> Result<String, Fail> {
    conn.set_step_limit(limit);
    done(alloc)
}

pub(crate) fn query_number<S: Alter>(
    alloc: Global,
    conn: &mut Connection<S>,
    select: &str,
) -> Result<String, Fail> {
    let row = conn.query_row(select, &[])?;
    let number: i64 = row.get(0)?;
    text_of(alloc, number)
}

static ALL_ROWS: [&str; 10] = [
    "SELECT * FROM campaign ORDER BY id",
    "SELECT * FROM faction ORDER BY number",
    "SELECT * FROM region ORDER BY number",
    "SELECT * FROM unit ORDER BY number",
    "SELECT * FROM has ORDER BY unit, sort, thing",
    "SELECT * FROM structure ORDER BY number",
    "SELECT * FROM mail ORDER BY faction",
    "SELECT * FROM report ORDER BY faction",
    "SELECT * FROM books ORDER BY entry, thing",
    "SELECT * FROM market ORDER BY region, item",
];

/// A database as text: how many tables it has, and for each table of a campaign all rows, or the
/// error of reading them.
pub(crate) fn contents<S: Alter>(alloc: Global, conn: &mut Connection<S>) -> Result<String, Fail> {
    let mut text = text_of(alloc, conn.schema().tables.len())?;
    for select in ALL_ROWS.iter() {
        let rows = conn.query_all(select, &[]);
        text.push_str(&format!(in alloc; "\n{rows:?}")?)?;
    }
    Ok(text)
}
