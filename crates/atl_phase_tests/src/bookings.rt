//! Appends the differences between the books of two campaigns to a text, a line for each entry and
//! thing. See docs/RULES.md, "Books".
ghost use Rattle.std.specs.Prelude.{◌≡◌};
ghost use Rattle.atl_records.specs.Books.{thing_index};

use crate::lines::append_number;
use atl_campaign::{BooksEntry, Campaign, ENTRY_COUNT, Thing};
use atl_world::World;
use std::alloc::{AllocError, Global};

const MONEY: usize = 0;

const PEOPLE: usize = 1;

const FIRST_ITEM: usize = 2;

/// All entries of the books with their names in files of cases.
static ENTRIES: [(&str, BooksEntry); ENTRY_COUNT] = [
    ("founding", BooksEntry::Founding),
    ("joining", BooksEntry::Joining),
    ("income", BooksEntry::Income),
    ("wages", BooksEntry::Wages),
    ("recruiting", BooksEntry::Recruiting),
    ("study", BooksEntry::Study),
    ("upkeep", BooksEntry::Upkeep),
    ("lost", BooksEntry::Lost),
    ("births", BooksEntry::Births),
    ("starved", BooksEntry::Starved),
    ("left", BooksEntry::Left),
    ("made", BooksEntry::Made),
    ("used", BooksEntry::Used),
    ("bought", BooksEntry::Bought),
    ("sold", BooksEntry::Sold),
    ("stocked", BooksEntry::Stocked),
];

fn booked(campaign: &Campaign, entry: BooksEntry, index: usize, thing: Thing) -> i64
    requires { thing_index thing ≡ index }
{
    if index < campaign.things() {
        campaign.booked(entry, thing)
    } else {
        0
    }
}

/// Each line says by how much an amount rose, negative where it fell.
fn write_thing(
    alloc: Global,
    of: &str,
    index: usize,
    thing: Thing,
    before: &Campaign,
    after: &Campaign,
    output: &mut String,
) -> Result<(), AllocError>
    requires { thing_index thing ≡ index }
{
    for (what, entry) in ENTRIES.iter() {
        let old = booked(before, *entry, index, thing);
        let new = booked(after, *entry, index, thing);
        let more = new.wrapping_sub(old);
        append_number(alloc, of, what, 0, more, output)?;
    }
    Ok(())
}

pub(crate) fn write_books(
    alloc: Global,
    world: &World,
    before: &Campaign,
    after: &Campaign,
    output: &mut String,
) -> Result<(), AllocError> {
    let money = Thing::Money;
    write_thing(alloc, "booked money", MONEY, money, before, after, output)?;
    let people = Thing::People;
    write_thing(
        alloc,
        "booked people",
        PEOPLE,
        people,
        before,
        after,
        output,
    )?;
    for (index, item) in world.items().iter().enumerate() {
        let of = format!(in alloc; "booked {}", item.name.as_str())?;
        write_thing(
            alloc,
            of.as_str(),
            FIRST_ITEM + index,
            Thing::Item(index as u16),
            before,
            after,
            output,
        )?;
    }
    Ok(())
}
