//! Appends the differences between two campaigns to a text, a line for each number or text that
//! changed.
use crate::bookings::write_books;
use crate::lines::{append_number, append_text};
use atl_campaign::{Campaign, Faction, Region, Structure, Unit};
use atl_world::World;
use std::alloc::{AllocError, Global};

fn numbers_of(unit: Option<&Unit>) -> [i64; 6] {
    match unit {
        Some(found) => [
            i64::from(found.faction),
            i64::from(found.region),
            i64::from(found.structure),
            i64::from(found.holding.men()),
            i64::from(found.holding.money()),
            i64::from(found.holding.guard()),
        ],
        None => [0; 6],
    }
}

/// The names of a unit's numbers in the result of a case, in the order of `numbers_of`.
static NUMBERS: [&str; 6] = ["faction", "region", "inside", "men", "money", "guard"];

fn unit_name(unit: Option<&Unit>) -> &str {
    match unit {
        Some(found) => found.holding.name().as_str(),
        None => "",
    }
}

fn amount_of(unit: Option<&Unit>, item: u32) -> i64 {
    match unit {
        Some(found) => i64::from(found.holding.amount(item)),
        None => 0,
    }
}

fn days_of(unit: Option<&Unit>, skill: u32) -> i64 {
    match unit {
        Some(found) => i64::from(found.holding.days_of(skill)),
        None => 0,
    }
}

fn write_goods(
    alloc: Global,
    world: &World,
    of: &str,
    before: Option<&Unit>,
    after: Option<&Unit>,
    output: &mut String,
) -> Result<(), AllocError> {
    let mut thing: u32 = 0;
    for item in world.items() {
        let (had, has) = (amount_of(before, thing), amount_of(after, thing));
        append_number(alloc, of, item.name.as_str(), had, has, output)?;
        thing = thing.wrapping_add(1);
    }
    Ok(())
}

fn write_skills(
    alloc: Global,
    world: &World,
    of: &str,
    before: Option<&Unit>,
    after: Option<&Unit>,
    output: &mut String,
) -> Result<(), AllocError> {
    let mut thing: u32 = 0;
    for skill in world.skills() {
        let (had, has) = (days_of(before, thing), days_of(after, thing));
        append_number(alloc, of, skill.name.as_str(), had, has, output)?;
        thing = thing.wrapping_add(1);
    }
    Ok(())
}

fn write_unit(
    alloc: Global,
    world: &World,
    of: &str,
    before: Option<&Unit>,
    after: Option<&Unit>,
    output: &mut String,
) -> Result<(), AllocError> {
    append_text(
        alloc,
        of,
        "name",
        unit_name(before),
        unit_name(after),
        output,
    )?;
    let (old, new) = (numbers_of(before), numbers_of(after));
    for (what, (was, is)) in NUMBERS.iter().zip(old.iter().zip(new.iter())) {
        append_number(alloc, of, what, *was, *is, output)?;
    }
    write_goods(alloc, world, of, before, after, output)?;
    write_skills(alloc, world, of, before, after, output)
}

fn write_units(
    alloc: Global,
    world: &World,
    before: &Campaign,
    after: &Campaign,
    output: &mut String,
) -> Result<(), AllocError> {
    for (number, old) in before.units() {
        let of = format!(in alloc; "unit {number}")?;
        let new = after.unit(number);
        if new.is_none() {
            output.push_str(of.as_str())?;
            output.push_str(" gone\n")?;
        } else {
            write_unit(alloc, world, of.as_str(), Some(old), new, output)?;
        }
    }
    Ok(())
}

fn write_new_units(
    alloc: Global,
    world: &World,
    before: &Campaign,
    after: &Campaign,
    output: &mut String,
) -> Result<(), AllocError> {
    for (number, new) in after.units() {
        if before.unit(number).is_none() {
            let of = format!(in alloc; "unit {number}")?;
            write_unit(alloc, world, of.as_str(), None, Some(new), output)?;
        }
    }
    Ok(())
}

fn structure_numbers(structure: Option<&Structure>) -> [i64; 3] {
    match structure {
        Some(found) => [
            i64::from(found.region),
            i64::from(found.done),
            i64::from(found.owner),
        ],
        None => [0; 3],
    }
}

/// The names of a structure's numbers in the result of a case, in the order of `structure_numbers`.
static STRUCTURE_NUMBERS: [&str; 3] = ["region", "done", "owner"];

fn names_of<'a>(world: &'a World, structure: Option<&'a Structure>) -> (&'a str, &'a str) {
    let Some(found) = structure else {
        return ("", "");
    };
    match world.kinds().get(usize::from(found.kind)) {
        Some(kind) => (found.name.as_str(), kind.name.as_str()),
        None => (found.name.as_str(), ""),
    }
}

fn write_structure(
    alloc: Global,
    world: &World,
    of: &str,
    before: Option<&Structure>,
    after: Option<&Structure>,
    output: &mut String,
) -> Result<(), AllocError> {
    let ((old_name, old_kind), (name, kind)) = (names_of(world, before), names_of(world, after));
    append_text(alloc, of, "name", old_name, name, output)?;
    append_text(alloc, of, "kind", old_kind, kind, output)?;
    let (old, new) = (structure_numbers(before), structure_numbers(after));
    for (what, (was, is)) in STRUCTURE_NUMBERS.iter().zip(old.iter().zip(new.iter())) {
        append_number(alloc, of, what, *was, *is, output)?;
    }
    Ok(())
}

fn write_structures(
    alloc: Global,
    world: &World,
    before: &Campaign,
    after: &Campaign,
    output: &mut String,
) -> Result<(), AllocError> {
    for (number, new) in after.structures() {
        let of = format!(in alloc; "structure {number}")?;
        write_structure(
            alloc,
            world,
            of.as_str(),
            before.structure(number),
            Some(new),
            output,
        )?;
    }
    Ok(())
}

fn write_stocks(
    alloc: Global,
    world: &World,
    of: &str,
    old: &Region,
    new: &Region,
    output: &mut String,
) -> Result<(), AllocError> {
    let of = format!(in alloc; "{of} stock")?;
    let mut thing: u32 = 0;
    for item in world.items() {
        let (had, has) = (i64::from(old.stock(thing)), i64::from(new.stock(thing)));
        append_number(alloc, of.as_str(), item.name.as_str(), had, has, output)?;
        thing = thing.wrapping_add(1);
    }
    Ok(())
}

fn write_region(
    alloc: Global,
    world: &World,
    number: u32,
    old: &Region,
    new: &Region,
    output: &mut String,
) -> Result<(), AllocError> {
    let of = format!(in alloc; "region {number}")?;
    let (peasants, now) = (i64::from(old.peasants), i64::from(new.peasants));
    append_number(alloc, of.as_str(), "peasants", peasants, now, output)?;
    let (money, now) = (i64::from(old.money), i64::from(new.money));
    append_number(alloc, of.as_str(), "money", money, now, output)?;
    write_stocks(alloc, world, of.as_str(), old, new, output)
}

fn write_regions(
    alloc: Global,
    world: &World,
    before: &Campaign,
    after: &Campaign,
    output: &mut String,
) -> Result<(), AllocError> {
    for (number, new) in after.regions() {
        if let Some(old) = before.region(number) {
            write_region(alloc, world, number, old, new, output)?;
        }
    }
    Ok(())
}

fn write_faction(
    alloc: Global,
    number: u32,
    old: &Faction,
    new: &Faction,
    output: &mut String,
) -> Result<(), AllocError> {
    let of = format!(in alloc; "faction {number}")?;
    append_text(
        alloc,
        of.as_str(),
        "name",
        old.name.as_str(),
        new.name.as_str(),
        output,
    )?;
    append_number(
        alloc,
        of.as_str(),
        "gone",
        i64::from(old.gone),
        i64::from(new.gone),
        output,
    )
}

fn write_factions(
    alloc: Global,
    before: &Campaign,
    after: &Campaign,
    output: &mut String,
) -> Result<(), AllocError> {
    for (number, new) in after.factions() {
        if let Some(old) = before.faction(number) {
            write_faction(alloc, number, old, new, output)?;
        }
    }
    Ok(())
}

fn write_nexts(
    alloc: Global,
    before: &Campaign,
    after: &Campaign,
    output: &mut String,
) -> Result<(), AllocError> {
    let (old, new) = (before.next_unit(), after.next_unit());
    append_number(
        alloc,
        "next",
        "unit",
        i64::from(old),
        i64::from(new),
        output,
    )?;
    let (old, new) = (before.next_structure(), after.next_structure());
    append_number(
        alloc,
        "next",
        "structure",
        i64::from(old),
        i64::from(new),
        output,
    )
}

/// Appends all differences between two campaigns of a world, a line each.
pub(crate) fn write_changes(
    alloc: Global,
    world: &World,
    before: &Campaign,
    after: &Campaign,
    output: &mut String,
) -> Result<(), AllocError> {
    write_units(alloc, world, before, after, output)?;
    write_new_units(alloc, world, before, after, output)?;
    write_structures(alloc, world, before, after, output)?;
    write_regions(alloc, world, before, after, output)?;
    write_factions(alloc, before, after, output)?;
    write_nexts(alloc, before, after, output)?;
    write_books(alloc, world, before, after, output)
}
