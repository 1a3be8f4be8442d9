//! Tests of `upgrade` on files of the first format (docs/FORMATS.md, "Upgrading a file").
use super::script::play_new;
use std::alloc::Global;
use std::process::Abort;
use std::test::Fail;

/// The upgrade gives the campaign that a file of the second format with the same rows gives, and a
/// load after the upgrade gives it too.
#[test]
fn the_campaign_is_the_old_one(rt: HostRuntime) -> Result<(), Fail> {
    let script = "create isle
settle
load
keep_campaign
sql DROP TABLE campaign; DROP TABLE faction; DROP TABLE region; DROP TABLE unit; DROP TABLE has
sql DROP TABLE structure; DROP TABLE mail; DROP TABLE report; DROP TABLE books; DROP TABLE market
create_old isle
settle
upgrade isle with market
is_kept_campaign -> yes
load
is_kept_campaign -> yes
upgrade isle with market -> NotOld
SELECT format FROM campaign -> 2
SELECT count(*) FROM market -> 0
SELECT count(*) FROM unit -> 11
SELECT next_unit FROM campaign -> 12";
    play_new(&rt, rt.alloc(), script)
}

/// The upgrade makes the same tables as the statements of docs/FORMATS.md, "Upgrading a file", run
/// by hand.
#[test]
fn the_tables_are_those_made_by_hand(rt: HostRuntime) -> Result<(), Fail> {
    let script = "create_old isle
settle
sql CREATE TABLE market (region INTEGER NOT NULL, item INTEGER NOT NULL, stock INTEGER NOT NULL, PRIMARY KEY (region, item)) STRICT
sql UPDATE campaign SET format = 2
world isle with market
load
keep_tables
sql DROP TABLE campaign; DROP TABLE faction; DROP TABLE region; DROP TABLE unit; DROP TABLE has
sql DROP TABLE structure; DROP TABLE mail; DROP TABLE report; DROP TABLE books; DROP TABLE market
create_old isle
settle
upgrade isle with market
is_kept_tables -> yes";
    play_new(&rt, rt.alloc(), script)
}

/// A case: SQL on a file of the first format, a world text's name, and the answers that a load, and
/// an upgrade to that world, then have.
type Case = (&'static str, &'static str, &'static str, &'static str);

/// Statements that make the campaign's table again without STRICT, with a word as its month.
const LOOSE: &str =
    "DROP TABLE campaign; CREATE TABLE campaign (id INTEGER NOT NULL PRIMARY KEY CHECK (id = 1), format INTEGER NOT NULL, month INTEGER NOT NULL, next_faction INTEGER NOT NULL, next_unit INTEGER NOT NULL, next_structure INTEGER NOT NULL, pass TEXT NOT NULL, world TEXT NOT NULL); INSERT INTO campaign VALUES (1, 1, 'x', 3, 12, 2, 'gm', 'no world')";

/// Files of the first format, unchanged or changed by SQL, and a world for the upgrade. The answers
/// of `load` and `upgrade` are the faults of the first check that fails, or Done.
static CASES: [Case; 18] = [
    ("", "small", "OldFormat", "Differs"),
    ("", "no world", "OldFormat", "World"),
    ("", "isle", "OldFormat", "Done"),
    ("", "isle with market", "OldFormat", "Done"),
    ("BEGIN", "isle", "Store", "Store"),
    (
        "DROP TABLE campaign",
        "no world",
        "NotACampaign",
        "NotACampaign",
    ),
    ("DELETE FROM campaign", "isle", "Damaged 1", "Damaged 1"),
    (
        "UPDATE campaign SET format = 3",
        "no world",
        "Damaged 1",
        "Damaged 1",
    ),
    (
        "UPDATE campaign SET format = 2",
        "no world",
        "Store",
        "NotOld",
    ),
    (LOOSE, "isle", "OldFormat", "Damaged 1"),
    (
        "UPDATE campaign SET month = 10000",
        "no world",
        "OldFormat",
        "Damaged 2",
    ),
    (
        "INSERT INTO books VALUES (14, 0, -4); UPDATE unit SET money = 0 WHERE number = 10",
        "isle",
        "OldFormat",
        "Damaged 11",
    ),
    ("DELETE FROM report", "small", "OldFormat", "Damaged 12"),
    ("DROP TABLE unit", "isle", "OldFormat", "Store"),
    (
        "CREATE TABLE notes (words TEXT)",
        "no world",
        "OldFormat",
        "World",
    ),
    (
        "CREATE TABLE notes (words TEXT)",
        "small",
        "OldFormat",
        "Differs",
    ),
    (
        "CREATE TABLE notes (words TEXT)",
        "isle",
        "OldFormat",
        "Store",
    ),
    (
        "CREATE INDEX units_by_region ON unit (region)",
        "isle",
        "OldFormat",
        "Store",
    ),
];

/// If the upgrade is to be done, the lines are a load. Otherwise they compare the tables
/// with those kept before, and load with the same answer as before.
fn last_lines_of(alloc: Global, load: &str, upgrade: &str) -> Result<String, Fail> {
    if upgrade == "Done" {
        Ok(String::from_str(alloc, "load")?)
    } else {
        Ok(format!(in alloc; "is_kept_tables -> yes\nload -> {load}")?)
    }
}

fn assert_answer(rt: &impl Abort, alloc: Global, case: &Case) -> Result<(), Fail> {
    let (sql, world, load, upgrade) = *case;
    let before = format!(in alloc;
        "create_old isle\nsettle\nsql {sql}\nkeep_tables\nload -> {load}"
    )?;
    let rest = last_lines_of(alloc, load, upgrade)?;
    let script = format!(in alloc;
        "{}\nupgrade {world} -> {upgrade}\n{}",
        before.as_str(),
        rest.as_str()
    )?;
    play_new(rt, alloc, script.as_str())
}

#[test]
fn the_first_check_that_fails_is_reported(rt: HostRuntime) -> Result<(), Fail> {
    for case in CASES.iter() {
        assert_answer(&rt, rt.alloc(), case)?;
    }
    Ok(())
}
