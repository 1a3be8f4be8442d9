//! Tests of `write_changes`: what is marked is written and nothing else, as rows changed by hand
//! past the store show.
use super::script::play_new;
use std::test::Fail;

/// What is marked is written, and nothing else: after a change in each table but `unit`, `has`,
/// `mail` and `market`, the tables have these changes. The unit keeps the name that it was given by
/// hand, and the mail stays, as neither is marked.
#[test]
fn marked_rows_alone_are_written(rt: HostRuntime) -> Result<(), Fail> {
    let script = "create small
join
mail
load
sql UPDATE unit SET name = 'By hand'
set month 3
set peasants 1 77
rename Bree
report Another.
begin Hut
book 5
write
marks -> 0
SELECT count(*) FROM campaign WHERE month = 3 AND next_structure = 2 AND length(world) > 100 -> 1
SELECT count(*) FROM faction WHERE name = 'Bree' AND joined_as = 'Avalon' -> 1
SELECT count(*) FROM region WHERE peasants = 77 AND money = 500 -> 1
SELECT length(text) FROM report -> 9
SELECT count(*) FROM structure WHERE name = 'Hut' AND done = 2 AND owner = 1 -> 1
SELECT amount FROM books WHERE entry = 3 AND thing = 0 -> 5
SELECT count(*) FROM unit WHERE name = 'By hand' -> 1
SELECT count(*) FROM mail -> 1";
    play_new(&rt, rt.alloc(), script)
}

#[test]
fn nothing_is_written_in_part(rt: HostRuntime) -> Result<(), Fail> {
    let script = "create small
join
mail
load
sql DROP TABLE structure
set month 3
set peasants 1 77
rename Bree
report Another.
begin Hut
book 5
write -> Store
marks -> 6
SELECT month FROM campaign -> 0
SELECT peasants FROM region -> 1000";
    play_new(&rt, rt.alloc(), script)
}

/// A unit's row and its rows of `has` are written apart: a skill's row that was changed by hand
/// stays if only the unit's money is marked. A unit that is removed leaves no row.
#[test]
fn a_unit_and_its_goods_are_written_apart(rt: HostRuntime) -> Result<(), Fail> {
    let script = "create small
join
mail
load
lend days 1 1 30
lend days 1 4 60
lend money 1 7
write
SELECT money FROM unit WHERE number = 1 -> 7
SELECT count(*) FROM has WHERE unit = 1 AND sort = 1 -> 2
SELECT sum(amount) FROM has -> 90
sql UPDATE has SET amount = 31 WHERE thing = 1
set money 1 8
write
SELECT money FROM unit WHERE number = 1 -> 8
SELECT sum(amount) FROM has -> 91
remove 1
write
SELECT count(*) FROM unit -> 0
SELECT count(*) FROM has -> 0";
    play_new(&rt, rt.alloc(), script)
}

/// A marked skill or item is written alone: rows of the unit and of another skill keep what was
/// changed by hand. A skill of 0 days loses its row, and an item with the number of a skill doesn't
/// touch the skill's row. A unit that is removed leaves no row.
#[test]
fn a_marked_thing_is_written_alone(rt: HostRuntime) -> Result<(), Fail> {
    let script = "create small
join
mail
load
lend days 1 1 30
lend days 1 4 60
lend money 1 7
write
SELECT sum(amount) FROM has -> 90
sql UPDATE has SET amount = 31 WHERE thing = 1
sql UPDATE unit SET name = 'By hand'
set days 1 4 90
set item 1 2 5
write
SELECT amount FROM has WHERE unit = 1 AND sort = 1 AND thing = 1 -> 31
SELECT amount FROM has WHERE unit = 1 AND sort = 1 AND thing = 4 -> 90
SELECT amount FROM has WHERE unit = 1 AND sort = 0 AND thing = 2 -> 5
SELECT count(*) FROM has -> 3
SELECT count(*) FROM unit WHERE name = 'By hand' -> 1
set days 1 4 0
set item 1 1 7
write
SELECT amount FROM has WHERE sort = 1 AND thing = 1 -> 31
SELECT amount FROM has WHERE sort = 0 AND thing = 1 -> 7
SELECT amount FROM has WHERE sort = 0 AND thing = 2 -> 5
SELECT count(*) FROM has -> 3
set days 1 1 40
remove 1
write
SELECT count(*) FROM unit -> 0
SELECT count(*) FROM has -> 0";
    play_new(&rt, rt.alloc(), script)
}

#[test]
fn an_amount_of_0_has_no_row(rt: HostRuntime) -> Result<(), Fail> {
    let script = "create small
join
mail
load
book 5
write
SELECT amount FROM books WHERE entry = 3 -> 5
book -5
write
SELECT count(*) FROM books WHERE entry = 3 -> 0
SELECT count(*) FROM books -> 4";
    play_new(&rt, rt.alloc(), script)
}

/// A campaign that was written is loaded again unchanged. Before the write a unit is lent, which
/// makes one mark, its money is set, an amount is booked, and the mail is cleared.
#[test]
fn a_written_campaign_comes_back(rt: HostRuntime) -> Result<(), Fail> {
    let script = "create small
join
mail
load
marks -> 0
lend nothing 1
marks -> 1
set money 1 1005
clear mail
book 5
write
keep_campaign
load
is_kept_campaign -> yes";
    play_new(&rt, rt.alloc(), script)
}

/// A unit that was lent (`unit_mut`) is written whole, and no other unit is. Before the write all
/// units get by hand another name and a day more of each skill, and two of them another skill.
/// After it unit 3, which was lent, has the campaign's name and skills. The ten others keep the
/// names given by hand, and four of them the days: 61, 451, 91, and 751 with 30.
#[test]
fn a_lent_unit_is_written_whole_and_alone(rt: HostRuntime) -> Result<(), Fail> {
    let script = "create isle
settle
load
sql UPDATE unit SET name = 'By hand'
sql UPDATE has SET amount = amount + 1 WHERE sort = 1
sql INSERT INTO has VALUES (3, 1, 4, 30), (9, 1, 4, 30)
lend days 3 1 30
lend guard 3 1
marks -> 1
write
SELECT count(*) FROM unit WHERE number = 3 AND faction = 1 AND name = 'Unit 3' AND region = 1 AND structure = 0 -> 1
SELECT count(*) FROM unit WHERE number = 3 AND men = 1 AND money = 50 AND guard = 1 -> 1
SELECT count(*) FROM unit WHERE name = 'By hand' -> 10
SELECT sum(amount) FROM has WHERE unit = 3 AND sort = 1 AND thing = 1 -> 30
SELECT sum(amount) FROM has WHERE unit <> 3 AND sort = 1 -> 1384
SELECT count(*) FROM has -> 8
load";
    play_new(&rt, rt.alloc(), script)
}

/// Only stocks that changed are written. All rows are changed by hand; then one stock is set to
/// less, and later to 0. Another stock of the same region, and one that is set to what it is in
/// the campaign, keep what was set by hand.
#[test]
fn only_changed_stocks_are_written(rt: HostRuntime) -> Result<(), Fail> {
    let script = "create isle with markets
SELECT count(*) FROM market -> 0
load
set stock 1 0 12
set stock 1 1 5
set stock 3 1 4
write
SELECT count(*) FROM market -> 3
SELECT stock FROM market WHERE region = 1 AND item = 0 -> 12
SELECT stock FROM market WHERE region = 1 AND item = 1 -> 5
SELECT stock FROM market WHERE region = 3 AND item = 1 -> 4
sql UPDATE market SET stock = 2
set stock 1 0 7
set peasants 3 77
set stock 3 1 4
write
SELECT peasants FROM region WHERE number = 3 -> 77
SELECT count(*) FROM market -> 3
SELECT stock FROM market WHERE region = 1 AND item = 0 -> 7
SELECT stock FROM market WHERE region = 1 AND item = 1 -> 2
SELECT stock FROM market WHERE region = 3 AND item = 1 -> 2
set stock 1 0 0
write
SELECT count(*) FROM market -> 2
SELECT stock FROM market WHERE region = 1 AND item = 1 -> 2";
    play_new(&rt, rt.alloc(), script)
}

/// Only items whose amounts changed are written. Items 1 and 2 are changed by hand; then item 2 is
/// set to what the campaign has of it, and item 0, which the unit lacks, to 0, which marks nothing.
/// Last item 2 is set to another amount, and item 1 keeps what was set by hand.
#[test]
fn only_changed_items_are_written(rt: HostRuntime) -> Result<(), Fail> {
    let script = "create small
join
mail
load
set item 1 2 5
set item 1 1 7
write
SELECT sum(amount) FROM has WHERE sort = 0 -> 12
sql UPDATE has SET amount = 2 WHERE sort = 0
set item 1 2 5
set item 1 0 0
marks -> 0
write
SELECT sum(amount) FROM has WHERE sort = 0 -> 4
set item 1 2 6
marks -> 1
write
SELECT amount FROM has WHERE sort = 0 AND thing = 2 -> 6
SELECT amount FROM has WHERE sort = 0 AND thing = 1 -> 2";
    play_new(&rt, rt.alloc(), script)
}

/// Only regions whose peasants changed are written. Those of regions 1 and 3 are changed by hand;
/// then region 1 is set to what the campaign has, which marks nothing, and region 3 to another
/// number. Region 1 keeps what was set by hand.
#[test]
fn only_changed_regions_are_written(rt: HostRuntime) -> Result<(), Fail> {
    let script = "create isle
load
set peasants 1 77
set peasants 3 78
write
sql UPDATE region SET peasants = 5
set peasants 1 77
marks -> 0
set peasants 3 79
marks -> 1
write
SELECT peasants FROM region WHERE number = 1 -> 5
SELECT peasants FROM region WHERE number = 3 -> 79";
    play_new(&rt, rt.alloc(), script)
}

#[test]
fn stocks_come_back(rt: HostRuntime) -> Result<(), Fail> {
    let script = "create isle with markets
load
set stock 1 0 12
set stock 1 1 5
set stock 3 1 4
write
sql INSERT INTO books VALUES (16, 2, 12), (16, 3, 9)
read market -> 1 0 12, 1 1 5, 3 1 4
load
stock 1 0 -> 12
stock 1 1 -> 5
stock 3 1 -> 4";
    play_new(&rt, rt.alloc(), script)
}
