//! GUARD 1: a unit begins to guard its region. Before and after each order, `holders` says which
//! faction guards each region. What changes is marked, and no mark is lost. Without memory the
//! campaign may be changed in part. See docs/RULES.md, "Guarding".
ghost use Rattle.std.specs.Prelude.{◌≡◌, IfOk, OnOk};
ghost use Rattle.atl_orders.specs.Bounds.{shape_of};
ghost use Rattle.atl_world.specs.Verbs.{row_of};
ghost use Rattle.atl_world.specs.Worlds.{WorldValue};
ghost use Rattle.atl_campaign.specs.Covers.{MarksChanges};
ghost use Rattle.atl_campaign.specs.Campaign.{CampaignValue};
ghost use Rattle.atl_phase.specs.Month.{MonthValue, with_events};
ghost use Rattle.atl_phase.specs.PhaseOrders.{task_of};
ghost use Rattle.atl_phase.specs.OrderEffects.{faction_effect, one_order, order_result};
ghost use Rattle.atl_instant.specs.Guard.{guard, guard_effect, guard_fault, guard_spec, guard_step, is_guarding};
ghost use Rattle.atl_instant.specs.RegionGuards.{AreRegionGuards};

use crate::region_guards::RegionGuards;
use atl_campaign::{Campaign, Event, EventFault, Outcome, Unit};
use atl_orders::{Operands, Verb};
use atl_phase::{
    Arrangement, Month, Phase, PhaseOrder, PhaseResult, PhaseVerbs, add_events, fault_outcome,
    own_unit,
};
use atl_world::World;
use std::alloc::{AllocError, Global};

/// The phase of GUARD 1: units begin to guard their regions. See docs/RULES.md, "Guarding".
#[derive(Drop, Clone, Copy)]
pub struct GuardPhase;

/// The fault of GUARD 1 for a unit, in any campaign whose guards `holders` has.
fn guard_fault(holders: &RegionGuards, unit: &Unit) -> Option<EventFault>
    ensures { (c : CampaignValue) → AreRegionGuards c holders.now
        → result ≡ guard_fault c unit.now }
{
    if unit.holding.men() == 0 {
        return Some(EventFault::NoMen);
    }
    if holders.has_other_guard(unit.region, unit.faction) {
        return Some(EventFault::Guarded);
    }
    None
}

#[tactic(auto, unfolding(crate::specs::Guard::guard))]
fn guard(
    campaign: &mut Campaign,
    holders: &mut RegionGuards,
    order: PhaseOrder<'_>,
) -> Result<Outcome, AllocError>
    requires held { AreRegionGuards campaign.old.value holders.old }
    ensures what { IfOk result
        (λ outcome. (campaign.new.value, outcome)
        ≡ faction_effect (guard order.entry.unit) campaign.old.value order.entry.faction
        order.entry.unit) }
    ensures held { OnOk result (AreRegionGuards campaign.new.value holders.new) }
    ensures marks { OnOk result (MarksChanges campaign.old campaign.new) }
{
    let Some(unit) = own_unit(campaign, order) else {
        return Ok(fault_outcome(EventFault::NotYours));
    };
    if let Some(fault) = guard_fault(holders, unit) {
        return Ok(fault_outcome(fault));
    }
    holders.set(unit.region, unit.faction)?;
    campaign.set_guard(order.unit, true);
    Ok(Outcome::Done(0))
}

/// Carries out GUARD 1; None for GUARD 0, which is passed over. The operands are of GUARD's form.
fn carry_out(
    campaign: &mut Campaign,
    holders: &mut RegionGuards,
    order: PhaseOrder<'_>,
) -> Result<Option<Outcome>, AllocError>
    requires held { AreRegionGuards campaign.old.value holders.old }
    requires flag { shape_of (task_of order).order_value.operands ≡ (row_of Verb.Guard).shape }
    ensures what { IfOk result
        (λ outcome. (campaign.new.value, outcome)
        ≡ order_result (guard_effect order.entry.unit (task_of order.entry).order_value.operands)
        campaign.old.value order.entry.faction order.entry.unit) }
    ensures held { OnOk result (AreRegionGuards campaign.new.value holders.new) }
    ensures marks { OnOk result (MarksChanges campaign.old campaign.new) }
{
    match &order.order.operands {
        Operands::Flag(true) => Ok(Some(guard(campaign, holders, order)?)),
        Operands::Flag(false) => Ok(None),
        _ => unreachable!(),
    }
}

/// Carries out an order with operands of GUARD's form, and adds its event; GUARD 0 has none. This
/// is what the definition makes with any world, of any month with the events so far.
fn guard_one(
    campaign: &mut Campaign,
    holders: &mut RegionGuards,
    order: PhaseOrder<'_>,
    events: &mut Vec<Event>,
) -> Result<(), AllocError>
    requires held { AreRegionGuards campaign.old.value holders.old }
    requires flag { shape_of (task_of order).order_value.operands ≡ (row_of Verb.Guard).shape }
    ensures step { (w : WorldValue) (m : MonthValue)
        → OnOk result ((campaign.new.value, with_events m events.new.items)
        ≡ one_order guard_step w (campaign.old.value, with_events m events.old.items)
        (task_of order.entry)) }
    ensures held { OnOk result (AreRegionGuards campaign.new.value holders.new) }
    ensures marks { OnOk result (MarksChanges campaign.old campaign.new) }
{
    if let Some(outcome) = carry_out(campaign, holders, order)? {
        events.push(order.event(outcome))?;
    }
    Ok(())
}

/// The phase of GUARD 1 gets all orders of the verb GUARD, and passes over those that are GUARD 0.
impl PhaseVerbs for GuardPhase {
    ghost is_of = { is_guarding };

    fn has(&self, verb: Verb) -> bool {
        matches!(verb, Verb::Guard)
    }
}

/// Makes the map of which faction guards each region, carries out the orders of GUARD one by one by
/// it, and then adds their events.
impl Phase for GuardPhase {
    ghost meaning = { guard_spec.meaning };

    ghost keeps = { guard_spec.keeps };

    fn run(
        &self,
        alloc: Global,
        _world: &World,
        mut campaign: Campaign,
        mut month: Month,
    ) -> PhaseResult {
        let mut holders = RegionGuards::of_campaign(alloc, &campaign)?;
        let orders = month.orders(alloc, self, Arrangement::ByUnit)?;
        let mut events = Vec::new(alloc);
        for order in &orders {
            guard_one(&mut campaign, &mut holders, *order, &mut events)?;
        }
        drop(orders);
        add_events(&mut month, &events)?;
        Ok((campaign, month))
    }
}
