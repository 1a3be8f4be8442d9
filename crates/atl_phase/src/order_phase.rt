//! Phases that carry out their orders one by one, and the loop over the orders. See docs/RULES.md,
//! "Orders of a month".
ghost use Rattle.std.specs.Prelude.{◌≡◌, IfOk, IfSome, OnOk, Some, true};
ghost use Rattle.std.specs.FinMap.{get};
ghost use Rattle.std.specs.Option.{option_copied};
ghost use Rattle.atl_campaign.specs.Covers.{MarksChanges};
ghost use Rattle.atl_orders.specs.Bounds.{IsOrderOf};
ghost use Rattle.atl_phase.specs.Fit.{AreFit};
ghost use Rattle.atl_phase.specs.Meaning.{BookBound, Condition, LeavesWell};
ghost use Rattle.atl_phase.specs.Bounds.{HaveRoom, IsOrderly, RemainingBound, nothing_remaining};
ghost use Rattle.atl_phase.specs.NoWorse.{IsNoWorse};
ghost use Rattle.atl_phase.specs.Unbooked.{moves_nothing};
ghost use Rattle.atl_phase.specs.OrderEffects.{Affects, IsOwnOrder, OrderMeaning, Unaffected, is_of_faction, meaning_by_orders, of_faction, one_order, order_result, others_unaffected};
ghost use Rattle.atl_phase.specs.Month.{with_events};
ghost use Rattle.atl_phase.specs.PhaseOrders.{task_of};

use crate::month::{Month, add_events};
use crate::orders::PhaseVerbs;
use crate::phase::{Phase, PhaseResult};
use crate::phase_order::{Arrangement, PhaseOrder};
use atl_campaign::{Campaign, Event, Outcome, Unit};
use atl_world::World;
use std::alloc::{AllocError, Global};

/// A phase that carries out its orders one by one, each on the campaign that the one before left.
pub trait OrderPhase: PhaseVerbs {
    // What an order does for a unit of the faction that wrote it; None where the phase passes the
    // order over.
    ghost step: { Self → OrderMeaning };

    // What holds of the campaign before each order, and after it.
    ghost holds: { Condition };

    // By how much each amount of the books may still be moved, from a campaign on: by default 0.
    ghost remaining: { RemainingBound } = { nothing_remaining };

    // By how much the whole phase may move each amount of the books, up or down: by default 0.
    ghost book_bound: { BookBound } = { moves_nothing };

    // Which units an order affects; `unaffected` says what stays of the others. By default an order
    // affects the unit that it is for, if that is of the faction that wrote the order.
    ghost affects: { Affects } = { IsOwnOrder };

    // What stays of the units that no order affects. By default they are no worse off.
    ghost unaffected: { Unaffected } = { IsNoWorse };

    /// Carries out an order of the phase's verbs, and returns its outcome, or None where the phase
    /// passes it over. Before it `holds` is true, and the books have room for what may still be
    /// booked (`remaining`). The order has a verb of the phase, and is such as can be read with the
    /// world. An order for a unit that isn't there, or is another faction's, changes nothing, and
    /// is NotYours unless it is passed over. What changes is marked. AllocError without memory; the
    /// campaign may then be changed in part. See docs/RULES.md, "Orders of a month".
    fn carry_out(
        &self,
        alloc: Global,
        world: &World,
        campaign: &mut Campaign,
        month: &Month,
        order: PhaseOrder<'_>,
    ) -> Result<Option<Outcome>, AllocError>
        requires holds { holds world.now campaign.old.value }
        requires room { HaveRoom (remaining campaign.old.value) campaign.old.value }
        requires verb { Self.is_of (task_of order).order_value.verb ≡ true }
        requires fit { IsOrderOf world.now (task_of order).order_value }
        ensures step { IfOk result
            (λ outcome. (campaign.new.value, outcome)
            ≡ order_result (step self.now world.now month.now.aliases (task_of order.entry))
            campaign.old.value order.entry.faction order.entry.unit) }
        ensures marks { OnOk result (MarksChanges campaign.old campaign.new) };

    /// The law of an order that can be read with the world, for a unit of its writer's faction. It
    /// keeps `holds`, the month and the balance, and moves no amount further than `remaining`
    /// falls. Each unit that it doesn't affect is there after it, and changed as `unaffected`
    /// allows, which is reflexive and transitive and keeps the faction. For this `holds` is true
    /// before, and then no `remaining` is above `book_bound`. Does nothing.
    fn is_orderly(&self)
        ensures { IsOrderly (step self.now) holds remaining book_bound affects unaffected };
}

/// Whether a unit is there, and of a given faction.
pub fn is_of_faction(campaign: &Campaign, unit: u32, faction: u32) -> bool
    ensures { result ≡ is_of_faction faction (get campaign.now.value.units unit) }
{
    campaign
        .unit(unit)
        .is_some_and(|found| found.faction == faction)
}

/// The unit that an order is for; None where it isn't there, or is another faction's.
pub fn own_unit<'c>(campaign: &'c Campaign, order: PhaseOrder<'_>) -> Option<&'c Unit>
    ensures own { option_copied result
        ≡ of_faction order.entry.faction (get campaign.now.value.units order.entry.unit) }
    ensures there { IfSome result
        (λ unit. get campaign.now.value.units order.entry.unit ≡ Some unit.now) }
{
    match campaign.unit(order.unit) {
        Some(unit) if unit.faction == order.faction => Some(unit),
        _ => None,
    }
}

/// Carries out an order of the phase that can be read with the world, and adds its event, unless it
/// is passed over. Before it `holds` is true, and the books have room for `remaining`.
fn carry_one<P: OrderPhase>(
    alloc: Global,
    phase: &P,
    world: &World,
    campaign: &mut Campaign,
    month: &Month,
    order: PhaseOrder<'_>,
    events: &mut Vec<Event>,
) -> Result<(), AllocError>
    requires holds { P.holds world.now campaign.old.value }
    requires room { HaveRoom (P.remaining campaign.old.value) campaign.old.value }
    requires verb { P.is_of (task_of order).order_value.verb ≡ true }
    requires fit { IsOrderOf world.now (task_of order).order_value }
    ensures step { OnOk result
        ((campaign.new.value, with_events month.now events.new.items)
        ≡ one_order (P.step phase.now) world.now
        (campaign.old.value, with_events month.now events.old.items) (task_of order.entry)) }
    ensures marks { OnOk result (MarksChanges campaign.old campaign.new) }
{
    if let Some(outcome) = phase.carry_out(alloc, world, campaign, month, order)? {
        events.push(order.event(outcome))?;
    }
    Ok(())
}

/// Carries out the orders of a phase one by one, by unit, line and faction, and adds their events.
/// Before it `holds` is true, the books have room for the phase, and the orders are such as can be
/// read with the world. After it `holds` is still true, and the readings are the same. No amount of
/// the books moved further than `book_bound`, units that no order affects changed as `unaffected`
/// allows, and all changes are marked. AllocError without memory; campaign and month may then be
/// changed in part. See docs/RULES.md, "Orders of a month".
pub fn carry_out_orders<P: OrderPhase>(
    alloc: Global,
    phase: &P,
    world: &World,
    campaign: &mut Campaign,
    month: &mut Month,
) -> Result<(), AllocError>
    requires holds { P.holds world.now campaign.old.value }
    requires room { HaveRoom P.book_bound campaign.old.value }
    requires read { AreFit world.now month.old.readings }
    ensures meaning { OnOk result
        ((campaign.new.value, month.new)
        ≡ meaning_by_orders (P.step phase.now) P.is_of world.now campaign.old.value month.old) }
    ensures leaves { OnOk result
        (LeavesWell P.holds P.book_bound world.now campaign.old.value campaign.new.value) }
    ensures readings { OnOk result (month.new.readings ≡ month.old.readings) }
    ensures keeps { OnOk result
        (others_unaffected P.affects P.unaffected P.is_of world.now month.old campaign.old.value
        campaign.new.value) }
    ensures marks { OnOk result (MarksChanges campaign.old campaign.new) }
{
    phase.is_orderly();
    let orders = month.orders(alloc, phase, Arrangement::ByUnit)?;
    let mut events = Vec::new(alloc);
    for order in &orders {
        carry_one(alloc, phase, world, campaign, month, *order, &mut events)?;
    }
    drop(orders);
    add_events(month, &events)?;
    Ok(())
}

/// A phase that carries out its orders one by one, and does nothing else. What it does for an order
/// (`step`) is the same for each value of its type.
pub trait PlainPhase: OrderPhase {
    // What an order does for a unit of the faction that wrote it; None where the phase passes the
    // order over.
    ghost makes: { OrderMeaning };

    /// The law that each value of the type does for an order what `makes` says. Does nothing.
    fn is_plain(&self)
        ensures { Self.step self.now ≡ makes };
}

impl<P: PlainPhase> Phase for P {
    ghost meaning = { meaning_by_orders P.makes P.is_of };

    ghost needs = { P.holds };

    ghost leaves = { P.holds };

    ghost book_bound = { P.book_bound };

    ghost keeps = { others_unaffected P.affects P.unaffected P.is_of };

    fn run(
        &self,
        alloc: Global,
        world: &World,
        mut campaign: Campaign,
        mut month: Month,
    ) -> PhaseResult {
        self.is_plain();
        carry_out_orders(alloc, self, world, &mut campaign, &mut month)?;
        Ok((campaign, month))
    }
}
