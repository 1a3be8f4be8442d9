//! Writes the text of the books, at the end of `out`; after an AllocError some of it may be there.
//! See docs/FORMATS.md, "Books". The campaign has at most 1,000,000 units and regions together, and
//! its books have each thing whose amounts are written.
ghost use Rattle.std.specs.Prelude.{◌≡◌, ◌++◌, IfOk, OnOk, length, string_bytes};
ghost use Rattle.std.specs.List.{slice_get};
ghost use Rattle.atl_campaign.specs.Founding.{thing_count};
ghost use Rattle.atl_campaign.specs.Totals.{IsCountable};
ghost use Rattle.atl_report.specs.Books.{IsThing, entry_name, item_name, thing_name, amount_text, amount_line, amount_lines, total_line, thing_part, item_parts, books_of};

use atl_campaign::{BooksEntry, Campaign, Thing};
use atl_world::{World, text_of};
use std::alloc::{AllocError, Global};
use std::fmt::Write;

fn entry_name(entry: BooksEntry) -> &'static str
    ensures { result.now ≡ entry_name entry }
{
    text_of!(
        entry, BooksEntry: Founding "founding" Joining "joining" Income "income" Wages "wages"
        Recruiting "recruiting" Study "study" Upkeep "upkeep" Lost "lost" Births "births"
        Starved "starved" Left "left" Made "made" Used "used" Bought "bought" Sold "sold"
        Stocked "stocked"
    )
}

fn write_thing(out: &mut String, world: &World, thing: Thing) -> Result<(), AllocError>
    ensures { OnOk result (string_bytes out.new
        ≡ string_bytes out.old ++ thing_name world.now thing) }
{
    match thing {
        Thing::Money => out.push_str("money"),
        Thing::People => out.push_str("people"),
        Thing::Item(item) => write_item(out, world, item),
    }
}

/// Writes `item` and the item's name in quotes; nothing for one that the world doesn't have.
fn write_item(out: &mut String, world: &World, item: u16) -> Result<(), AllocError>
    ensures { OnOk result (string_bytes out.new
        ≡ string_bytes out.old ++ item_name (slice_get world.now.items item)) }
{
    match world.item(item) {
        Some(known) => {
            let name = known.name.as_str();
            write!(out, "item \"{name}\"")
        }
        None => Ok(()),
    }
}

fn write_amount(out: &mut String, entry: BooksEntry, amount: i64) -> Result<(), AllocError>
    ensures { OnOk result (string_bytes out.new
        ≡ string_bytes out.old ++ amount_text entry amount) }
{
    let name = entry_name(entry);
    write!(out, " {name} {amount}\n")
}

/// Writes the line of a thing under an entry; nothing for an amount of 0.
#[tactic(auto, unfolding(crate::specs::Books::amount_line))]
fn write_entry(
    out: &mut String,
    world: &World,
    thing: Thing,
    entry: BooksEntry,
    amount: i64,
) -> Result<(), AllocError>
    ensures { OnOk result (string_bytes out.new
        ≡ string_bytes out.old ++ amount_line world.now thing entry amount) }
{
    if amount == 0 {
        return Ok(());
    }
    write_thing(out, world, thing)?;
    write_amount(out, entry, amount)?;
    Ok(())
}

fn write_entries(
    out: &mut String,
    world: &World,
    campaign: &Campaign,
    thing: Thing,
    entries: &[BooksEntry],
) -> Result<(), AllocError>
    requires { IsThing campaign.now.value thing }
    ensures { OnOk result (string_bytes out.new
        ≡ string_bytes out.old ++ amount_lines world.now campaign.now.value.books thing
        entries.now) }
{
    for entry in entries {
        let amount = campaign.booked(*entry, thing);
        write_entry(out, world, thing, *entry, amount)?;
    }
    Ok(())
}

#[tactic(auto, unfolding(crate::specs::Books::total_line))]
fn write_total(
    out: &mut String,
    world: &World,
    campaign: &Campaign,
    thing: Thing,
) -> Result<(), AllocError>
    requires { IsCountable campaign.now.value }
    ensures { OnOk result (string_bytes out.new
        ≡ string_bytes out.old ++ total_line world.now campaign.now.value thing) }
{
    let amount = campaign.total(thing);
    write_thing(out, world, thing)?;
    write!(out, " total {amount}\n")?;
    Ok(())
}

#[tactic(auto, unfolding(crate::specs::Books::thing_part))]
fn write_thing_part(
    out: &mut String,
    world: &World,
    campaign: &Campaign,
    thing: Thing,
) -> Result<(), AllocError>
    requires countable { IsCountable campaign.now.value }
    requires thing { IsThing campaign.now.value thing }
    ensures { OnOk result (string_bytes out.new
        ≡ string_bytes out.old ++ thing_part world.now campaign.now.value thing) }
{
    write_entries(out, world, campaign, thing, &BooksEntry::ALL)?;
    write_total(out, world, campaign, thing)?;
    Ok(())
}

/// The books must have as many things as the world.
fn write_items(out: &mut String, world: &World, campaign: &Campaign) -> Result<(), AllocError>
    requires things { campaign.now.value.books.things ≡ thing_count world.now }
    requires countable { IsCountable campaign.now.value }
    ensures { OnOk result (string_bytes out.new
        ≡ string_bytes out.old ++ item_parts world.now campaign.now.value
        (length world.now.items)) }
{
    for item in 0..world.items().len() {
        write_thing_part(out, world, campaign, Thing::Item(item as u16))?;
    }
    Ok(())
}

/// The text of the books of a campaign. They must have as many things as the world, and the
/// campaign at most 1,000,000 units and regions together. For money, people and each item in the
/// order of the world, it has a line for each entry whose amount isn't 0. One more line says how
/// much all units and regions hold, with the stocks of markets. AllocError without memory. See
/// docs/FORMATS.md, "Books".
#[tactic(auto, unfolding(crate::specs::Books::books_of))]
pub fn books_text(alloc: Global, world: &World, campaign: &Campaign) -> Result<String, AllocError>
    requires things { campaign.now.value.books.things ≡ thing_count world.now }
    requires countable { IsCountable campaign.now.value }
    ensures definition { IfOk result
        (λ text. string_bytes text ≡ books_of world.now campaign.now.value) }
{
    let mut out = String::new(alloc);
    write_thing_part(&mut out, world, campaign, Thing::Money)?;
    write_thing_part(&mut out, world, campaign, Thing::People)?;
    write_items(&mut out, world, campaign)?;
    Ok(out)
}
