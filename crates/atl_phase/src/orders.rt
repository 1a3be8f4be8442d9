//! The orders that a phase carries out, in their order. See docs/RULES.md, "Orders of a month".
ghost use Rattle.std.specs.Prelude.{◌≡◌, map, IfOk, Bool};
ghost use Rattle.std.specs.List.{All};
ghost use Rattle.atl_world.specs.declared.verb.Verb.{Verb};
ghost use Rattle.atl_phase.specs.PhaseOrders.{OrdersAreInMailings, is_month_long, task_of};
ghost use Rattle.atl_phase.specs.OneOrder.{OneOrderCounts};
ghost use Rattle.atl_phase.specs.OrderIndices.{IsThere, every_verb, task_at, tasks_picked};

use crate::last_lines::is_same_slot;
use crate::order_indices::OrderIndex;
use crate::phase_order::PhaseOrder;
use atl_orders::{Mailing, Slot, Verb};
use std::alloc::{AllocError, Global};

/// The verbs of the orders that a phase carries out.
pub trait PhaseVerbs {
    // Whether a verb is one of those of the phase.
    ghost is_of: { Verb → Bool };

    /// Whether the phase has a verb (`is_of`).
    fn has(&self, verb: Verb) -> bool
        ensures { result ≡ is_of verb };
}

/// The verbs that take the whole month. With these, `Month::orders` gives at most one order for
/// each unit from each mailing, if the mailings can be read with a world: the one that counts.
pub struct MonthLongVerbs;

impl PhaseVerbs for MonthLongVerbs {
    ghost is_of = { is_month_long };

    fn has(&self, verb: Verb) -> bool {
        is_same_slot(Slot::MonthLong, verb.row().slot)
    }
}

/// All verbs, for the orders of every phase.
pub(crate) struct EveryVerb;

impl PhaseVerbs for EveryVerb {
    ghost is_of = { every_verb };

    fn has(&self, _verb: Verb) -> bool {
        true
    }
}

/// The order that an index names; it is there.
fn order_at<'m>(mailings: &'m [Mailing], placed: &OrderIndex) -> PhaseOrder<'m>
    requires { IsThere mailings.now placed.now }
    ensures { task_of result ≡ task_at mailings.now placed.now }
{
    let mailing = &mailings[placed.mailing];
    let entry = &mailing.entries.as_slice()[placed.index];
    PhaseOrder {
        unit: placed.unit,
        line: placed.line,
        faction: placed.faction,
        index: placed.index,
        mailing,
        order: &entry.order,
    }
}

/// The orders that `places` name and that have a verb of the phase, in the order of `places`. Each
/// place names an order that is there.
pub(crate) fn phase_orders_at<'m, P: PhaseVerbs>(
    alloc: Global,
    phase: &P,
    mailings: &'m [Mailing],
    places: &[OrderIndex],
) -> Result<Vec<PhaseOrder<'m>>, AllocError>
    requires { All (IsThere mailings.now) places.now }
    ensures { IfOk result (λ list. map task_of list.items
        ≡ tasks_picked P.is_of mailings.now places.now) }
{
    let mut list = Vec::new(alloc);
    for placed in places {
        let order = order_at(mailings, placed);
        if phase.has(order.order.verb) {
            list.push(order)?;
        }
    }
    Ok(list)
}

/// The law that each order of a phase is in the mailing of its faction, at its index there, for its
/// unit, on its line, and says the same there. Does nothing.
pub fn orders_are_in_mailings()
    ensures { OrdersAreInMailings }
{}

/// The law that no two orders that a phase carries out are of one faction, for one unit and of
/// verbs in one slot. For this the mailings can be read with a world. Does nothing. See
/// docs/RULES.md, "Orders of a month".
pub fn one_order_counts()
    ensures { OneOrderCounts }
{}
