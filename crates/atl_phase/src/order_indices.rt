//! Finds the orders of all mailings that count for a phase, and sorts their indices. `aliases` has
//! the units that FORM made, by faction and alias. See docs/RULES.md, "Orders of a month".
ghost use Rattle.std.specs.Prelude.{◌≡◌, ◌<◌, ◌&&◌, length, IfOk, OnOk};
ghost use Rattle.std.specs.List.{list_any};
ghost use Rattle.std.specs.List.Sorted.{IsPermutation, IsSortedByKey};
ghost use Rattle.std.specs.Cmp.Lexicographic.{slice_cmp};
ghost use Rattle.std.specs.Ordering.{nat_cmp};
ghost use Rattle.atl_world.specs.Verbs.{row_of};
ghost use Rattle.atl_phase.specs.OrderIndices.{AddsMailing, AreByFaction, AreIndicesByMailing, AreLastLines, AreOrderIndices, counts_by_lines, key_by, tasks_at};

use crate::last_lines::{LastLines, last_lines, order_counts, unit_of};
use crate::orders::PhaseVerbs;
use crate::phase_order::Arrangement;
use atl_orders::{Entry, Mailing};
use atl_world::Numbered;
use std::alloc::{AllocError, Global};

/// Where an order that counts is (the index of its mailing, and its own index in the mailing), with
/// the numbers that it is sorted by.
#[derive(Drop, Clone, Copy)]
pub(crate) struct OrderIndex {
    /// The unit that the order is for; 0 for an alias under which no unit was made.
    pub unit: u32,
    pub line: u32,
    pub faction: u32,
    /// The index of the mailing among those of the month, from 0 on.
    pub mailing: usize,
    /// The index of the order among those of its mailing, from 0 on.
    pub index: usize,
}

impl OrderIndex {
    fn key(&self, arrangement: Arrangement) -> [usize; 4]
        ensures { result ≡ key_by arrangement self.now }
    {
        let unit = self.unit as usize;
        let line = self.line as usize;
        let faction = self.faction as usize;
        match arrangement {
            Arrangement::ByUnit => [unit, line, faction, self.index],
            Arrangement::ByFaction => [faction, line, unit, self.index],
        }
    }
}

/// Whether an order, which is for `unit`, has a verb of the phase and counts. `lines` has the
/// greatest line of each slot and unit in the order's mailing.
fn counts<P: PhaseVerbs>(phase: &P, lines: &LastLines, unit: u32, entry: &Entry) -> bool
    ensures { result ≡ (P.is_of entry.now.order.verb
        && counts_by_lines lines.now unit entry.now.line (row_of entry.now.order.verb).slot) }
{
    let verb = entry.order.verb;
    phase.has(verb) && order_counts(lines, unit, entry.line, verb.row().slot)
}

/// Adds the indices of those orders of the mailing at `at` that count and have a verb of the phase,
/// in the order of the mailing. `lines` has the greatest line of each slot and unit there.
fn add_counting<P: PhaseVerbs>(
    phase: &P,
    aliases: &Numbered<Numbered<u32>>,
    mailings: &[Mailing],
    at: usize,
    lines: &LastLines,
    list: &mut Vec<OrderIndex>,
) -> Result<(), AllocError>
    requires within { at < length mailings.now }
    requires lines { AreLastLines (tasks_at aliases.now mailings.now at) lines.now }
    ensures { OnOk result
        (AddsMailing P.is_of aliases.now mailings.now at list.old.items list.new.items) }
{
    let mailing = &mailings[at];
    let entries = mailing.entries.as_slice();
    for index in 0..entries.len() {
        let entry = &entries[index];
        let unit = unit_of(aliases, mailing.faction, entry.target);
        if counts(phase, lines, unit, entry) {
            list.push(OrderIndex {
                unit,
                line: entry.line,
                faction: mailing.faction,
                mailing: at,
                index,
            })?;
        }
    }
    Ok(())
}

/// Whether a mailing has an order with a verb of the phase, even one that doesn't count.
fn has_order<P: PhaseVerbs>(phase: &P, mailing: &Mailing) -> bool
    ensures { result ≡ list_any (λ e. P.is_of e.order.verb) mailing.now.entries }
{
    let entries = mailing.entries.as_slice();
    for i in 0..entries.len() {
        if phase.has(entries[i].order.verb) {
            return true;
        }
    }
    false
}

/// Adds the indices of those orders of the mailing at `at` that count and have a verb of the phase.
/// It takes no memory where the mailing has no order with such a verb.
fn add_mailing<P: PhaseVerbs>(
    alloc: Global,
    phase: &P,
    aliases: &Numbered<Numbered<u32>>,
    mailings: &[Mailing],
    at: usize,
    list: &mut Vec<OrderIndex>,
) -> Result<(), AllocError>
    requires { at < length mailings.now }
    ensures { OnOk result
        (AddsMailing P.is_of aliases.now mailings.now at list.old.items list.new.items) }
{
    if !has_order(phase, &mailings[at]) {
        return Ok(());
    }
    let lines = last_lines(alloc, aliases, &mailings[at])?;
    add_counting(phase, aliases, mailings, at, &lines, list)
}

/// The indices of the orders that count and have a verb of the phase, mailing by mailing.
fn indices_by_mailing<P: PhaseVerbs>(
    alloc: Global,
    phase: &P,
    aliases: &Numbered<Numbered<u32>>,
    mailings: &[Mailing],
) -> Result<Vec<OrderIndex>, AllocError>
    ensures { IfOk result (λ list.
        AreIndicesByMailing P.is_of aliases.now mailings.now list.items) }
{
    let mut list = Vec::new(alloc);
    for at in 0..mailings.len() {
        add_mailing(alloc, phase, aliases, mailings, at, &mut list)?;
    }
    Ok(list)
}

/// The indices of the orders of all mailings that count and have a verb of the phase, sorted by
/// unit or by faction first, as `arrangement` says. The mailings are sorted by faction, no two of
/// one faction. It takes memory for each order of the mailings that have one with such a verb, and
/// n log n steps for n orders of the phase.
pub(crate) fn order_indices<P: PhaseVerbs>(
    alloc: Global,
    phase: &P,
    arrangement: Arrangement,
    aliases: &Numbered<Numbered<u32>>,
    mailings: &[Mailing],
) -> Result<Vec<OrderIndex>, AllocError>
    requires { AreByFaction mailings.now }
    ensures { IfOk result (λ list.
        AreOrderIndices P.is_of arrangement aliases.now mailings.now list.items) }
{
    let mut list = indices_by_mailing(alloc, phase, aliases, mailings)?;
    sort(&mut list, arrangement);
    Ok(list)
}

fn sort(list: &mut Vec<OrderIndex>, arrangement: Arrangement)
    ensures moved { IsPermutation list.old.items list.new.items }
    ensures sorted { IsSortedByKey (key_by arrangement) (slice_cmp nat_cmp) list.new.items }
{
    list.sort_unstable_by_key(
        move |placed|
            ensures { result ≡ key_by arrangement placed.now }
        { placed.key(arrangement) },
    );
}
