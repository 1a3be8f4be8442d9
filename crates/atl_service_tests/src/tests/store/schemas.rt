//! Tests of `has_all_tables`: whether a schema is that of a campaign, after a person changed it.
use super::script::play_new;
use std::alloc::Global;
use std::process::Abort;
use std::test::Fail;

/// SQL statements, each for the tables of a campaign just founded, and the answer of
/// `has_all_tables` after it. The first leaves the schema as it is.
static CHANGES: [(&str, &str); 8] = [
    ("DELETE FROM mail", "yes"),
    ("CREATE TABLE notes (words TEXT)", "yes"),
    ("CREATE INDEX units_by_region ON unit (region)", "yes"),
    ("CREATE UNIQUE INDEX units_by_name ON unit (name)", "no"),
    ("CREATE VIEW rich AS SELECT number FROM unit", "no"),
    ("DROP TABLE unit", "no"),
    (
        "CREATE TABLE notes (unit INTEGER REFERENCES unit (number))",
        "no",
    ),
    (
        "DROP TABLE report; CREATE TABLE report (faction INTEGER NOT NULL PRIMARY KEY, text TEXT NOT NULL) STRICT",
        "no",
    ),
];

fn assert_answer(rt: &impl Abort, alloc: Global, change: &(&str, &str)) -> Result<(), Fail> {
    let (sql, wanted) = *change;
    let script = format!(in alloc; "create small\nsql {sql}\nhas_all_tables -> {wanted}")?;
    play_new(rt, alloc, script.as_str())
}

#[test]
fn a_schema_is_that_of_a_campaign(rt: HostRuntime) -> Result<(), Fail> {
    for change in CHANGES.iter() {
        assert_answer(&rt, rt.alloc(), change)?;
    }
    Ok(())
}
