//! Which orders of a mailing count: of some verbs only the last one for a unit. See docs/RULES.md,
//! "Orders of a month". `aliases` has the units that FORM made, by faction and then by alias.
ghost use Rattle.std.specs.Prelude.{◌≡◌, IfOk, OnOk};
ghost use Rattle.atl_orders.specs.Mailing.{reading_of};
ghost use Rattle.atl_phase.specs.PhaseOrders.{unit_of, slot_number, is_same_slot, tasks_of};
ghost use Rattle.atl_phase.specs.OrderIndices.{AreLastLines, line_in, counts_by_lines, with_line};

use crate::month::unit_under;
use atl_orders::{Mailing, Slot, UnitRef};
use atl_world::Numbered;
use std::alloc::{AllocError, Global};

fn number_of(slot: Slot) -> u32
    ensures { result ≡ slot_number slot }
{
    match slot {
        Slot::MonthLong => 0,
        Slot::Selling => 1,
        Slot::Buying => 2,
        Slot::Taxing => 3,
        Slot::Recruiting => 4,
    }
}

pub(crate) fn is_same_slot(slot: Slot, other: Option<Slot>) -> bool
    ensures { result ≡ is_same_slot slot other }
{
    match other {
        Some(other) => number_of(slot) == number_of(other),
        None => false,
    }
}

/// The number of the unit that a faction's order names; 0 for an alias under which no unit was
/// made.
pub(crate) fn unit_of(aliases: &Numbered<Numbered<u32>>, faction: u32, target: UnitRef) -> u32
    ensures { result ≡ unit_of aliases.now faction target }
{
    match target {
        UnitRef::Number(number) => number,
        UnitRef::Alias(alias) => unit_under(aliases, faction, alias).unwrap_or(0),
    }
}

/// The greatest line of a mailing's orders in each slot for each unit, by the slot's number and
/// then by unit.
pub(crate) type LastLines = Numbered<Numbered<u32>>;

/// The line noted for a unit in a slot; 0 where none is.
fn line_in(lines: &LastLines, slot: Slot, unit: u32) -> u32
    ensures { result ≡ line_in lines.now (slot_number slot) unit }
{
    lines.get_under(number_of(slot), unit).copied().unwrap_or(0)
}

/// Notes a line for a unit in a slot, unless a greater one is noted there.
fn note(
    alloc: Global,
    lines: &mut LastLines,
    slot: Slot,
    unit: u32,
    line: u32,
) -> Result<(), AllocError>
    ensures { OnOk result (lines.new ≡ with_line lines.old (slot_number slot) unit line) }
{
    let last = line_in(lines, slot, unit).max(line);
    lines.insert_under(alloc, number_of(slot), unit, last)
}

/// Notes the line of each order of a mailing whose verb has a slot, in one pass, so that the
/// greatest line for each slot and unit is left. An order counts in its slot only on this line.
pub(crate) fn last_lines(
    alloc: Global,
    aliases: &Numbered<Numbered<u32>>,
    mailing: &Mailing,
) -> Result<LastLines, AllocError>
    ensures { IfOk result (AreLastLines
        (tasks_of aliases.now mailing.now.faction (reading_of mailing.now))) }
{
    let mut lines = Numbered::new(alloc);
    for entry in mailing.entries.as_slice() {
        if let Some(slot) = entry.order.verb.row().slot {
            let unit = unit_of(aliases, mailing.faction, entry.target);
            note(alloc, &mut lines, slot, unit, entry.line)?;
        }
    }
    Ok(lines)
}

pub(crate) fn order_counts(lines: &LastLines, unit: u32, line: u32, slot: Option<Slot>) -> bool
    ensures { result ≡ counts_by_lines lines.now unit line slot }
{
    match slot {
        None => true,
        Some(slot) => line == line_in(lines, slot, unit),
    }
}
