//! Tests of the tables after a founding, a join and a mailing.
use super::script::play_new;
use std::test::Fail;

#[test]
fn a_founded_campaign_is_kept(rt: HostRuntime) -> Result<(), Fail> {
    let script = r##"create small
read campaign -> 1 2 0 1 1 1 "gm" small
read region -> 1 1000 500
read books -> 1 0 500, 1 1 1000
read faction -> nothing
read unit -> nothing
read has -> nothing
read structure -> nothing
read mail -> nothing
read report -> nothing
read market -> nothing"##;
    play_new(&rt, rt.alloc(), script)
}

#[test]
fn a_second_creation_is_refused(rt: HostRuntime) -> Result<(), Fail> {
    let script = r##"create small
create isle -> NotEmpty
read campaign -> 1 2 0 1 1 1 "gm" small
read faction -> nothing
read books -> 1 0 500, 1 1 1000"##;
    play_new(&rt, rt.alloc(), script)
}

#[test]
fn a_join_and_a_mail_are_kept(rt: HostRuntime) -> Result<(), Fail> {
    let script = r##"create small
join
mail
read faction -> 1 "Avalon" "Avalon" "pw" 0
read books -> 1 0 500, 1 1 1000, 2 0 1000, 2 1 1
read unit -> 1 1 "Unit 1" 1 0 1 1000 0
read report -> 1 "A report.\n"
read mail -> 1 "#ATLANTIS 1""##;
    play_new(&rt, rt.alloc(), script)
}

#[test]
fn other_tables_are_carried_along(rt: HostRuntime) -> Result<(), Fail> {
    let script = r##"create small
sql CREATE TABLE notes (number INTEGER NOT NULL, words TEXT NOT NULL)
sql CREATE INDEX notes_by_words ON notes (words)
sql INSERT INTO notes (number, words) VALUES (7, 'pay the printer')
mail
read mail -> 1 "#ATLANTIS 1"
SELECT count(*) FROM notes -> 1
SELECT number FROM notes ORDER BY words -> 7
SELECT count(*) FROM notes WHERE words = 'pay the printer' -> 1"##;
    play_new(&rt, rt.alloc(), script)
}
