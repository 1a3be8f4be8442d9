//! Tests of reading one table: after a person changed it by hand, and when SQLite may take no more
//! steps.
use super::script::play_new;
use std::test::Fail;

#[test]
fn a_value_of_another_type_is_reported(rt: HostRuntime) -> Result<(), Fail> {
    let script = "create small
join
sql DROP TABLE unit
sql CREATE TABLE unit (number INTEGER NOT NULL PRIMARY KEY, faction INTEGER NOT NULL, name TEXT NOT NULL, region INTEGER NOT NULL, structure INTEGER NOT NULL, men INTEGER NOT NULL, money INTEGER NOT NULL, guard INTEGER NOT NULL)
sql INSERT INTO unit (number, faction, name, region, structure, men, money, guard) VALUES (1, 1, 'Unit 1', 1, 0, 1, 'x', 0)
read unit -> OtherType";
    play_new(&rt, rt.alloc(), script)
}

#[test]
fn a_table_that_is_gone_is_refused(rt: HostRuntime) -> Result<(), Fail> {
    let script = r#"create small
join
sql DROP TABLE unit
read unit -> Refused
read report -> 1 "A report.\n""#;
    play_new(&rt, rt.alloc(), script)
}

#[test]
fn a_read_that_takes_too_many_steps_is_reported(rt: HostRuntime) -> Result<(), Fail> {
    let script = r#"create small
join
no_steps
read unit -> Store
any_steps
read unit -> 1 1 "Unit 1" 1 0 1 1000 0"#;
    play_new(&rt, rt.alloc(), script)
}

/// A report that is not UTF-8 answers OtherType; a unit's name is read as its bytes, UTF-8 or not.
#[test]
fn a_text_that_is_no_utf_8_is_reported(rt: HostRuntime) -> Result<(), Fail> {
    let script = "create small
join
sql UPDATE unit SET name = CAST(x'ff' AS TEXT)
read unit -> 1 1 [255] 1 0 1 1000 0
sql UPDATE report SET text = CAST(x'ff' AS TEXT)
read report -> OtherType";
    play_new(&rt, rt.alloc(), script)
}
