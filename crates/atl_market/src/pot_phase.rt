//! Phases in which the units of each region share a pot: their trait, and the one body that shares
//! out and reports. `wants`, `items` and `given` have, by unit, what the unit wants, the item that
//! its order names, and what it gets. AllocError without memory. See docs/RULES.md, "Pots".
ghost use Rattle.std.specs.Prelude.{⊤, ℕ, ◌≡◌, ◌≤◌, IfOk, None, OnOk, fold, map, true};
ghost use Rattle.std.specs.List.{All};
ghost use Rattle.std.specs.FinMap.{FinMap, entries};
ghost use Rattle.std.specs.Result.{result_map_both};
ghost use Rattle.atl_world.specs.Limits.{most_amount};
ghost use Rattle.atl_world.specs.Worlds.{WorldValue};
ghost use Rattle.atl_campaign.specs.Covers.{MarksChanges};
ghost use Rattle.atl_campaign.specs.Campaign.{CampaignValue};
ghost use Rattle.std.specs.Ordering.{nat_cmp};
ghost use Rattle.atl_lines.specs.Orders.{OperandsValue};
ghost use Rattle.atl_phase.specs.PhaseOrders.{task_of};
ghost use Rattle.atl_pots.specs.Pots.{AreWants};
ghost use Rattle.atl_pots.specs.Puts.{with_entry_if_some};
ghost use Rattle.atl_market.specs.PotPhase.{PotMeaning, after_sharing, asks_count, count_in, event_of, events_by, given_by, item_by, item_in, items_by, unit_for, want_by, wants_by};
ghost use Rattle.atl_phase.specs.Bounds.{CanInTurn};

use atl_campaign::{Campaign, Event, EventFault, Outcome, Unit};
use atl_orders::Operands;
use atl_phase::{PhaseOrder, own_unit};
use atl_world::{Numbered, World};
use std::alloc::{AllocError, Global};

/// A phase in which the units of each region share a pot: the faults of its orders, what each unit
/// wants and gets, and what a share changes.
pub(crate) trait PotPhase {
    // The faults, wants and shares of the phase, and what the payment of a share changes.
    ghost meaning: { Self → PotMeaning };

    // What the phase needs of the campaign.
    ghost needs: { Self → WorldValue → CampaignValue → Type 0 };

    // When a unit can be paid its share, given as the pair (unit, share). The map has the item that
    // each unit's order names.
    ghost can_pay: { Self → FinMap nat_cmp ℕ → WorldValue → CampaignValue → ℕ × ℕ → Type 0 };

    // What the operands of the phase's orders must be, by default anything.
    ghost asks: { OperandsValue → Type 0 } = { λ _. ⊤ };

    /// The fault that the phase finds in an order of the unit's own faction, if there is one.
    fn fault(&self, world: &World, unit: &Unit, order: PhaseOrder<'_>) -> Option<EventFault>
        ensures { result ≡ PotMeaning.fault (meaning self.now) world.now unit.now
            (task_of order.entry) };

    /// How much a unit wants by an order in which `fault` finds no fault, and whose operands are as
    /// `asks` says; at most 999,999,999.
    fn want(&self, world: &World, unit: &Unit, order: PhaseOrder<'_>) -> u32
        requires asks { asks (task_of order).order_value.operands }
        requires faultless { PotMeaning.fault (meaning self.now) world.now unit.now
            (task_of order) ≡ None }
        ensures value { result ≡ PotMeaning.want (meaning self.now) world.now unit.now
            (task_of order.entry) }
        ensures bound { result ≤ most_amount };

    /// How much each unit gets, by unit. It is worked out from `items`, the item that each unit's
    /// order names, and `wants`, how much each unit wants (at most 999,999,999), both by unit. The
    /// campaign is as the phase needs it (`needs`). AllocError without memory.
    fn grants(
        &self,
        alloc: Global,
        world: &World,
        campaign: &Campaign,
        items: &Numbered<u16>,
        wants: &Numbered<u32>,
    ) -> Result<Numbered<u32>, AllocError>
        requires needs { needs self.now world.now campaign.now.value }
        requires wants { AreWants wants.now }
        ensures { IfOk result (λ given. given
            ≡ PotMeaning.grants (meaning self.now) items.now world.now campaign.now.value
            wants.now) };

    /// The number in the event of a unit's order, by the unit's share of the pot.
    fn event_number(&self, world: &World, unit: &Unit, share: u32) -> u64
        ensures { result ≡ PotMeaning.event_number (meaning self.now) world.now unit.now share };

    /// Gives a unit, by its number, its share of the pot of its region, or of the pot of its item
    /// there, which `items` has by unit. The share can be paid (`can_pay`). AllocError without
    /// memory; the campaign may then be changed in part.
    fn pay(
        &self,
        world: &World,
        campaign: &mut Campaign,
        items: &Numbered<u16>,
        unit: u32,
        share: u32,
    ) -> Result<(), AllocError>
        requires can { can_pay self.now items.now world.now campaign.old.value (unit, share) }
        ensures what { OnOk result
            (campaign.new.value ≡ PotMeaning.paid (meaning self.now) items.now world.now
            campaign.old.value (unit, share)) }
        ensures marks { OnOk result (MarksChanges campaign.old campaign.new) };
}

pub(crate) fn named_item(order: PhaseOrder<'_>) -> Option<u16>
    ensures { result ≡ item_in (task_of order.entry).order_value.operands }
{
    match &order.order.operands {
        Operands::Item(item) => Some(*item),
        Operands::Goods { item, .. } => Some(*item),
        _ => None,
    }
}

pub(crate) fn named_count(order: PhaseOrder<'_>) -> u32
    requires { asks_count (task_of order).order_value.operands ≡ true }
    ensures { result ≡ count_in (task_of order.entry).order_value.operands }
{
    match &order.order.operands {
        Operands::Number(number) => *number,
        Operands::Goods { amount, .. } => *amount,
        _ => unreachable!(),
    }
}

#[tactic(auto, unfolding(crate::specs::PotPhase::unit_for))]
fn unit_for<'c, P: PotPhase>(
    phase: &P,
    world: &World,
    campaign: &'c Campaign,
    order: PhaseOrder<'_>,
) -> Result<&'c Unit, EventFault>
    ensures { result_map_both (λ unit. unit.now) (λ fault. fault) result
        ≡ unit_for (P.meaning phase.now) world.now campaign.now.value (task_of order.entry) }
{
    let Some(unit) = own_unit(campaign, order) else {
        return Err(EventFault::NotYours);
    };
    match phase.fault(world, unit, order) {
        Some(fault) => Err(fault),
        None => Ok(unit),
    }
}

/// Puts into the maps, under the order's unit, its want and the item that the order names, if any;
/// nothing where the order has a fault. No want is above 999,999,999. Operands are as `asks` says.
#[tactic(auto, using(crate::proofs::WantLaws::one_want))]
fn note_order<P: PotPhase>(
    phase: &P,
    world: &World,
    campaign: &Campaign,
    order: PhaseOrder<'_>,
    wants: &mut Numbered<u32>,
    items: &mut Numbered<u16>,
) -> Result<(), AllocError>
    requires wants { AreWants wants.old }
    requires asks { P.asks (task_of order).order_value.operands }
    ensures wants { OnOk result
        (wants.new ≡ with_entry_if_some wants.old
        (want_by (P.meaning phase.now) world.now campaign.now.value (task_of order.entry))) }
    ensures bound { OnOk result (AreWants wants.new) }
    ensures items { OnOk result
        (items.new ≡ with_entry_if_some items.old
        (item_by (P.meaning phase.now) world.now campaign.now.value (task_of order.entry))) }
{
    let Ok(unit) = unit_for(phase, world, campaign, order) else {
        return Ok(());
    };
    wants.insert(order.unit, phase.want(world, unit, order))?;
    if let Some(item) = named_item(order) {
        items.insert(order.unit, item)?;
    }
    Ok(())
}

/// The wants (at most 999,999,999) and the items that orders name, by unit, of faultless orders.
/// The operands are as `asks` says.
#[tactic(auto, using(crate::proofs::WantLaws::optional_entry_first))]
fn wants_and_items<P: PotPhase>(
    alloc: Global,
    phase: &P,
    world: &World,
    campaign: &Campaign,
    orders: &[PhaseOrder<'_>],
) -> Result<(Numbered<u32>, Numbered<u16>), AllocError>
    requires { All (λ t. P.asks t.order_value.operands) (map task_of orders.now) }
    ensures wants { IfOk result (λ both. both.0
        ≡ wants_by (P.meaning phase.now) world.now campaign.now.value (map task_of orders.now)) }
    ensures bound { IfOk result (λ both. AreWants both.0) }
    ensures items { IfOk result (λ both. both.1
        ≡ items_by (P.meaning phase.now) world.now campaign.now.value (map task_of orders.now)) }
{
    let mut wants = Numbered::new(alloc);
    let mut items = Numbered::new(alloc);
    for order in orders {
        note_order(phase, world, campaign, *order, &mut wants, &mut items)?;
    }
    Ok((wants, items))
}

fn event_of<P: PotPhase>(
    phase: &P,
    world: &World,
    campaign: &Campaign,
    given: &Numbered<u32>,
    order: PhaseOrder<'_>,
) -> Event
    ensures { result ≡ event_of (P.meaning phase.now) world.now campaign.now.value given.now
        (task_of order.entry) }
{
    let outcome = match unit_for(phase, world, campaign, order) {
        Ok(unit) => {
            let share = given.get(order.unit).copied().unwrap_or(0);
            Outcome::Done(phase.event_number(world, unit, share))
        }
        Err(fault) => Outcome::Fault(fault.number()),
    };
    order.event(outcome)
}

/// One event for each order, in the order of `orders`. A unit that isn't in `given` got 0.
fn events_of<P: PotPhase>(
    alloc: Global,
    phase: &P,
    world: &World,
    campaign: &Campaign,
    orders: &[PhaseOrder<'_>],
    given: &Numbered<u32>,
) -> Result<Vec<Event>, AllocError>
    ensures { IfOk result (λ events. events.items
        ≡ map (event_of (P.meaning phase.now) world.now campaign.now.value given.now)
        (map task_of orders.now)) }
{
    let mut events = Vec::new(alloc);
    for order in orders {
        events.push(event_of(phase, world, campaign, given, *order))?;
    }
    Ok(events)
}

/// Pays the units by rising numbers; each can be paid when its turn comes (`can`). AllocError may
/// leave the campaign changed in part.
fn pay_all<P: PotPhase>(
    phase: &P,
    world: &World,
    campaign: &mut Campaign,
    items: &Numbered<u16>,
    given: &Numbered<u32>,
) -> Result<(), AllocError>
    requires can { CanInTurn (P.can_pay phase.now items.now world.now)
        (PotMeaning.paid (P.meaning phase.now) items.now world.now) campaign.old.value
        (entries given.now) }
    ensures what { OnOk result
        (campaign.new.value ≡ fold (PotMeaning.paid (P.meaning phase.now) items.now world.now)
        campaign.old.value (entries given.now)) }
    ensures marks { OnOk result (MarksChanges campaign.old campaign.new) }
{
    for (unit, share) in given.iter() {
        phase.pay(world, campaign, items, unit, *share)?;
    }
    Ok(())
}

/// Shares the pots of all regions among the units by their orders, all at once, and returns an
/// event for each order. Who takes part, what each wants and what there is to share is read from
/// the campaign as it is handed in. Campaign and operands are as the phase needs them (`needs`,
/// `asks`), and the shares can be paid one by one (`can`). AllocError without memory; the campaign
/// may then be changed in part. See docs/RULES.md, "Pots".
#[tactic(auto, unfolding(crate::specs::PotPhase::after_sharing, crate::specs::PotPhase::events_by))]
pub(crate) fn share_out<P: PotPhase>(
    alloc: Global,
    phase: &P,
    world: &World,
    campaign: &mut Campaign,
    orders: &[PhaseOrder<'_>],
) -> Result<Vec<Event>, AllocError>
    requires needs { P.needs phase.now world.now campaign.old.value }
    requires asks { All (λ t. P.asks t.order_value.operands) (map task_of orders.now) }
    requires can { CanInTurn
        (P.can_pay phase.now (items_by (P.meaning phase.now) world.now campaign.old.value
        (map task_of orders.now)) world.now)
        (PotMeaning.paid (P.meaning phase.now)
        (items_by (P.meaning phase.now) world.now campaign.old.value (map task_of orders.now))
        world.now) campaign.old.value
        (entries (given_by (P.meaning phase.now) world.now campaign.old.value
        (map task_of orders.now))) }
    ensures what { OnOk result
        (campaign.new.value ≡ after_sharing (P.meaning phase.now) world.now campaign.old.value
        (map task_of orders.now)) }
    ensures events { IfOk result
        (λ events. events.items
        ≡ events_by (P.meaning phase.now) world.now campaign.old.value (map task_of orders.now)) }
    ensures marks { OnOk result (MarksChanges campaign.old campaign.new) }
{
    let (wants, items) = wants_and_items(alloc, phase, world, campaign, orders)?;
    let given = phase.grants(alloc, world, campaign, &items, &wants)?;
    let events = events_of(alloc, phase, world, campaign, orders, &given)?;
    pay_all(phase, world, campaign, &items, &given)?;
    Ok(events)
}
