//! Tests of what closing a month marks: each unit that changes, and of its goods only those that
//! change.
ghost use Rattle.std.specs.Prelude.{IfOk};
ghost use Rattle.atl_campaign.specs.Good.{IsGood};

use super::compare::assert_row_text;
use super::crowd::checked;
use super::months::{own_mailings, small_world};
use atl_campaign::parts::{Parts, StoredBooks, StoredHas};
use atl_campaign::{Campaign, LAST_MONTH, founded};
use atl_month::close_month;
use atl_tables::read_world;
use atl_test_worlds::ISLE_WITH_MARKET;
use atl_world::{Entries, MarkedNumbers, Numbered, Text, World, name_ok};
use std::alloc::{AllocError, Global};
use std::process::Abort;
use std::test::Fail;

fn join(alloc: Global, world: &World, campaign: &mut Campaign, name: &str) -> Result<(), Fail>
    requires { IsGood world.now campaign.old.value }
{
    let name = name.as_bytes();
    if !name_ok(name) {
        return Err(Fail::new("a good name"));
    }
    let (faction, _) = campaign.join(world, name, b"pw", 0)?;
    campaign.set_report(faction, Text::from_str(alloc, "")?)?;
    Ok(())
}

fn joined(
    alloc: Global,
    world: &World,
    mut campaign: Campaign,
    name: &str,
) -> Result<Campaign, Fail>
    requires { IsGood world.now campaign.value }
    ensures { IfOk result (λ campaign. IsGood world.now campaign.value) }
{
    join(alloc, world, &mut campaign, name)?;
    let rows = campaign.parts()?;
    checked(alloc, world, rows)
}

fn two_factions(alloc: Global, world: &World) -> Result<Campaign, Fail>
    ensures { IfOk result (λ campaign. IsGood world.now campaign.value) }
{
    let campaign = founded(alloc, world, b"gm")?;
    let campaign = joined(alloc, world, campaign, "Avalon")?;
    joined(alloc, world, campaign, "Bree")
}

/// A mailing in which unit 1 changes its name, pays unit 2, and recruits a man.
static PAYING: [&str; 1] = ["#ATLANTIS 1\nUNIT 1\nNAME UNIT Watch\nPAY 2 10\nRECRUIT 1\n"];

/// `words` has a word of the dice for each region.
fn after_month(
    alloc: Global,
    world: &World,
    campaign: Campaign,
    texts: &[&str],
    words: &[u32],
) -> Result<Campaign, Fail>
    requires { IsGood world.now campaign.value }
{
    let mailings = own_mailings(alloc, world, texts)?;
    if campaign.month() >= LAST_MONTH || words.len() != world.regions().len() {
        return Err(Fail::new("a first month with a word for each region"));
    }
    let (campaign, _) = close_month(alloc, world, campaign, mailings, words)?;
    Ok(campaign)
}

fn paid(alloc: Global, world: &World) -> Result<Campaign, Fail> {
    let campaign = two_factions(alloc, world)?;
    after_month(alloc, world, campaign, &PAYING, &[0])
}

fn assert_true(rt: &impl Abort, output: bool) {
    assert!(rt; output);
}

fn has_a_recruit(campaign: &Campaign) -> bool {
    match campaign.unit(1) {
        Some(unit) => unit.holding.men() == 2 && unit.holding.name().as_str() == "Watch",
        None => false,
    }
}

#[test]
fn names_pay_recruits_and_upkeep_mark_no_goods(rt: HostRuntime) -> Result<(), Fail> {
    let world = small_world(rt.alloc())?;
    let campaign = paid(rt.alloc(), &world)?;
    assert_true(&rt, has_a_recruit(&campaign));
    assert_marks(&rt, rt.alloc(), 0, &campaign, "1 2 |1 2 ||||")?;
    Ok(())
}

const WOOD: i64 = 20;

const CARPENTRY: i64 = 30;

fn equip(rows: &mut Parts) -> Result<(), AllocError> {
    rows.has.push(StoredHas {
        unit: 1,
        sort: 0,
        thing: 0,
        amount: WOOD,
    })?;
    rows.has.push(StoredHas {
        unit: 1,
        sort: 1,
        thing: 1,
        amount: CARPENTRY,
    })?;
    rows.books.push(StoredBooks {
        entry: 2,
        thing: 2,
        amount: WOOD,
    })
}

/// Nothing of the campaign is marked. The world is the island with a market of wood.
fn equipped(alloc: Global, world: &World) -> Result<Campaign, Fail>
    ensures { IfOk result (λ campaign. IsGood world.now campaign.value) }
{
    let campaign = two_factions(alloc, world)?;
    let mut rows = campaign.parts()?;
    equip(&mut rows)?;
    checked(alloc, world, rows)
}

fn island_after_month(alloc: Global, world: &World, mailing: &str) -> Result<Campaign, Fail> {
    let campaign = equipped(alloc, world)?;
    after_month(alloc, world, campaign, &[mailing], &[0, 0, 0, 0])
}

fn write_numbers(
    alloc: Global,
    numbers: MarkedNumbers<'_>,
    output: &mut String,
) -> Result<(), AllocError> {
    for number in numbers {
        output.push_str(&format!(in alloc; "{number} ")?)?;
    }
    output.push_str("|")
}

fn write_things_of(
    alloc: Global,
    unit: u32,
    things: &Numbered<()>,
    output: &mut String,
) -> Result<(), AllocError> {
    for (thing, _) in things.iter() {
        output.push_str(&format!(in alloc; "{unit}:{thing} ")?)?;
    }
    Ok(())
}

fn write_things(
    alloc: Global,
    units: Entries<'_, Numbered<()>>,
    output: &mut String,
) -> Result<(), AllocError> {
    for (unit, things) in units {
        write_things_of(alloc, unit, things, output)?;
    }
    output.push_str("|")
}

/// The five lists are the marked units, those with marked rows, those with all their goods marked,
/// single items, and single skills.
fn marks_of(alloc: Global, campaign: &Campaign) -> Result<String, AllocError> {
    let mut output = String::new(alloc);
    write_numbers(alloc, campaign.marked_units(), &mut output)?;
    write_numbers(alloc, campaign.marked_rows(), &mut output)?;
    write_numbers(alloc, campaign.marked_goods(), &mut output)?;
    write_things(alloc, campaign.marked_items(), &mut output)?;
    write_things(alloc, campaign.marked_skills(), &mut output)?;
    Ok(output)
}

fn assert_marks(
    rt: &impl Abort,
    alloc: Global,
    row: usize,
    campaign: &Campaign,
    wanted: &str,
) -> Result<(), AllocError> {
    let output = marks_of(alloc, campaign)?;
    assert_row_text(rt, row, output.as_str(), wanted);
    Ok(())
}

/// Mailings, and which units, rows and goods a month of each marks, as `marks_of` prints them. All
/// units pay their upkeep.
static MARKED: [(&str, &str); 6] = [
    ("#ATLANTIS 1\nUNIT 1\nWORK", "1 2 |1 2 ||||"),
    ("#ATLANTIS 1\nUNIT 1\nSTUDY lumberjack", "1 2 |1 2 |||1:0 |"),
    (
        "#ATLANTIS 1\nUNIT 1\nGIVE 2 3 wood",
        "1 2 |1 2 ||1:0 2:0 ||",
    ),
    ("#ATLANTIS 1\nUNIT 1\nPRODUCE cart", "1 2 |1 2 ||1:0 1:1 ||"),
    ("#ATLANTIS 1\nUNIT 1\nSELL 3 wood", "1 2 |1 2 ||1:0 ||"),
    (
        "#ATLANTIS 1\nUNIT 1\nGIVE 2 20 wood\nSTUDY carpentry",
        "1 2 |1 2 ||1:0 2:0 |1:1 |",
    ),
];

fn assert_month_marks(rt: &impl Abort, alloc: Global, world: &World) -> Result<(), Fail> {
    for (row, (mailing, wanted)) in MARKED.iter().enumerate() {
        let campaign = island_after_month(alloc, world, mailing)?;
        assert_marks(rt, alloc, row, &campaign, wanted)?;
    }
    Ok(())
}

#[test]
fn months_mark_what_they_change(rt: HostRuntime) -> Result<(), Fail> {
    let world = read_world(rt.alloc(), ISLE_WITH_MARKET)?;
    assert_month_marks(&rt, rt.alloc(), &world)
}
