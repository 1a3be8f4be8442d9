//! The phase of the sweep: removes units without men; factions without units are gone then. See
//! docs/RULES.md, "Sweep". AllocError without memory; the campaign may then be changed in part.
ghost use Rattle.std.specs.Prelude.{◌≡◌, ◌≤◌, ◌<◌, ◌+◌, ◌-◌, IfOk, OnOk, fold, length, min};
ghost use Rattle.atl_world.specs.Limits.{most_amount};
ghost use Rattle.atl_records.specs.Books.{amount_in};
ghost use Rattle.atl_campaign.specs.Covers.{MarksChanges};
ghost use Rattle.atl_world.specs.Every.{EachEntry};
ghost use Rattle.atl_campaign.specs.Good.{IsSteady};
ghost use Rattle.atl_records.specs.declared.books.BooksEntry.TheVariants.{Lost};
ghost use Rattle.atl_records.specs.declared.books.Thing.TheVariants.{Item, Money};
ghost use Rattle.atl_phase.specs.Meaning.{most_moved};
ghost use Rattle.atl_phase.specs.Bounds.{HasRoom, HaveRoom, moved_times, items_bound};
ghost use Rattle.atl_records.specs.Limits.{holding_limit};
ghost use Rattle.atl_upkeep.specs.Sweep.{IsSwept, after_passing_item, after_passing_money, after_sweeping_faction, after_sweeping_unit, loses_by, menless_units, sweep_keeps, sweep_meaning};
ghost use Rattle.atl_upkeep.specs.Receivers.{AreReceivers};

use crate::receivers::{Receivers, receiver_in, receivers_of};
use atl_campaign::{BooksEntry, Campaign, HOLDING_LIMIT, Thing};
use atl_phase::{Month, Phase, PhaseResult, book_taken, items_of};
use atl_world::World;
use std::alloc::{AllocError, Global};

/// The sweep: each unit without men leaves its money and items to its receiver, the lowest-numbered
/// unit with men of its faction in its region, and is removed. What the receiver has no room for is
/// lost, or all where there is no receiver. Then factions without units are gone. See
/// docs/RULES.md, "Sweep".
#[derive(Drop, Clone, Copy)]
pub struct SweepPhase;

fn accepted_of(amount: u32, have: u32) -> u32
    ensures { result ≡ min amount (holding_limit - have) }
{
    amount.min(HOLDING_LIMIT.saturating_sub(have))
}

/// Unit `to` gets the money up to its room; the rest is booked as lost, all of it where the unit
/// isn't there. The unit that leaves the money keeps it until it is removed.
#[tactic(auto, unfolding(crate::specs::Sweep::after_passing_money))]
fn pass_money(campaign: &mut Campaign, to: u32, amount: u32)
    requires things { 2 ≤ campaign.old.value.books.things }
    requires room { HasRoom amount (amount_in campaign.old.value.books Lost Money) }
    ensures what { campaign.new.value ≡ after_passing_money campaign.old.value to amount }
    ensures marks { MarksChanges campaign.old campaign.new }
{
    match campaign.unit(to) {
        Some(unit) => {
            let money = unit.holding.money();
            let taken = accepted_of(amount, money);
            campaign.set_money(to, money + taken);
            book_taken(campaign, BooksEntry::Lost, Thing::Money, amount - taken);
        }
        None => book_taken(campaign, BooksEntry::Lost, Thing::Money, amount),
    }
}

#[tactic(auto, unfolding(crate::specs::Sweep::after_passing_item))]
fn pass_item(
    world: &World,
    campaign: &mut Campaign,
    to: u32,
    item: u16,
    amount: u32,
) -> Result<(), AllocError>
    requires steady { IsSteady world.now campaign.old.value }
    requires known { item < length world.now.items }
    requires room { HasRoom amount (amount_in campaign.old.value.books Lost (Item item)) }
    ensures what { OnOk result
        (campaign.new.value ≡ after_passing_item to campaign.old.value (item, amount)) }
    ensures marks { OnOk result (MarksChanges campaign.old campaign.new) }
{
    let number = u32::from(item);
    match campaign.unit(to) {
        Some(unit) => {
            let have = unit.holding.amount(number);
            let taken = accepted_of(amount, have);
            campaign.set_item(to, number, have + taken)?;
            book_taken(
                campaign,
                BooksEntry::Lost,
                Thing::Item(item),
                amount - taken,
            );
        }
        None => book_taken(campaign, BooksEntry::Lost, Thing::Item(item), amount),
    }
    Ok(())
}

fn pass_items(
    world: &World,
    campaign: &mut Campaign,
    to: u32,
    items: &[(u16, u32)],
) -> Result<(), AllocError>
    requires steady { IsSteady world.now campaign.old.value }
    requires known { EachEntry (λ i amount. i < length world.now.items) items.now }
    requires room { HaveRoom (items_bound items.now) campaign.old.value }
    ensures what { OnOk result
        (campaign.new.value ≡ fold (after_passing_item to) campaign.old.value items.now) }
    ensures marks { OnOk result (MarksChanges campaign.old campaign.new) }
{
    for (item, amount) in items.iter() {
        pass_item(world, campaign, to, *item, *amount)?;
    }
    Ok(())
}

/// Removes a unit without men, after its receiver got what it has, up to the receiver's room; the
/// rest is booked as lost. For any other number it does nothing.
#[tactic(auto, unfolding(crate::specs::Sweep::after_sweeping_unit))]
fn sweep_unit(
    alloc: Global,
    world: &World,
    receivers: &Receivers,
    campaign: &mut Campaign,
    number: u32,
) -> Result<(), AllocError>
    requires steady { IsSteady world.now campaign.old.value }
    requires receivers { AreReceivers campaign.old.value receivers.now }
    requires room { HaveRoom (loses_by most_amount) campaign.old.value }
    ensures what { OnOk result
        (campaign.new.value ≡ after_sweeping_unit campaign.old.value number) }
    ensures marks { OnOk result (MarksChanges campaign.old campaign.new) }
{
    let Some(unit) = campaign.unit(number) else {
        return Ok(());
    };
    if unit.holding.men() != 0 {
        return Ok(());
    }
    let money = unit.holding.money();
    let items = items_of(alloc, world, &unit.holding)?;
    let to = receiver_in(receivers, unit.region, unit.faction);
    pass_money(campaign, to, money);
    pass_items(world, campaign, to, &items)?;
    campaign.remove_unit(number);
    Ok(())
}

fn menless_units(alloc: Global, campaign: &Campaign) -> Result<Vec<u32>, AllocError>
    ensures { IfOk result (λ list. list.items ≡ menless_units campaign.now.value) }
{
    let mut list = Vec::new(alloc);
    for (number, unit) in campaign.units() {
        if unit.holding.men() == 0 {
            list.push(number)?;
        }
    }
    Ok(list)
}

/// Sweeps the units of these numbers. The receivers found before stay the right ones throughout.
fn sweep_units(
    alloc: Global,
    world: &World,
    receivers: &Receivers,
    campaign: &mut Campaign,
    numbers: &[u32],
) -> Result<(), AllocError>
    requires steady { IsSteady world.now campaign.old.value }
    requires receivers { AreReceivers campaign.old.value receivers.now }
    requires room { HaveRoom (moved_times (length numbers.now) (loses_by most_amount))
        campaign.old.value }
    ensures what { OnOk result
        (campaign.new.value ≡ fold after_sweeping_unit campaign.old.value numbers.now) }
    ensures marks { OnOk result (MarksChanges campaign.old campaign.new) }
{
    for number in numbers.iter() {
        sweep_unit(alloc, world, receivers, campaign, *number)?;
    }
    Ok(())
}

fn sweep_menless(alloc: Global, world: &World, campaign: &mut Campaign) -> Result<(), AllocError>
    requires steady { IsSteady world.now campaign.old.value }
    requires room { HaveRoom (moved_times (length (menless_units campaign.old.value))
        (loses_by most_amount)) campaign.old.value }
    ensures what { OnOk result (campaign.new.value
        ≡ fold after_sweeping_unit campaign.old.value (menless_units campaign.old.value)) }
    ensures marks { OnOk result (MarksChanges campaign.old campaign.new) }
{
    let numbers = menless_units(alloc, campaign)?;
    if numbers.is_empty() {
        return Ok(());
    }
    let receivers = receivers_of(alloc, campaign)?;
    sweep_units(alloc, world, &receivers, campaign, &numbers)
}

fn sweep_faction(campaign: &mut Campaign, number: u32)
    ensures what { campaign.new.value ≡ after_sweeping_faction campaign.old.value number }
    ensures marks { MarksChanges campaign.old campaign.new }
{
    if campaign.of_faction(number).is_empty() {
        campaign.set_gone(number);
    }
}

fn sweep_factions(campaign: &mut Campaign, numbers: &[u32])
    ensures what { campaign.new.value ≡ fold after_sweeping_faction campaign.old.value numbers.now }
    ensures marks { MarksChanges campaign.old campaign.new }
{
    for number in numbers.iter() {
        sweep_faction(campaign, *number);
    }
}

/// Removes the units without men, which leave what they have to their receivers, and then sets
/// factions without units to gone; reports no event.
impl Phase for SweepPhase {
    ghost meaning = { sweep_meaning };

    ghost leaves = { IsSwept };

    ghost book_bound = { loses_by most_moved };

    ghost keeps = { sweep_keeps };

    fn run(&self, alloc: Global, world: &World, campaign: Campaign, month: Month) -> PhaseResult {
        let mut campaign = campaign;
        sweep_menless(alloc, world, &mut campaign)?;
        let factions = campaign.active()?;
        sweep_factions(&mut campaign, &factions);
        Ok((campaign, month))
    }
}
