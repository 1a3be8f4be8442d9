//! An order as a phase gets it: its unit, line and faction, and what it says.
ghost use Rattle.std.specs.Prelude.{◌≡◌};
ghost use Rattle.atl_phase.specs.PhaseOrders.{task_of};
ghost use Rattle.atl_phase.specs.OrderEffects.{event_for};

use atl_campaign::{Event, EventVerb, Outcome};
use atl_orders::{Mailing, Order};

/// What the orders of a phase are sorted by first: their units or their factions.
#[derive(Drop, Clone, Copy, PartialEq, Eq)]
pub enum Arrangement {
    /// By unit, then by line, then by faction.
    ByUnit,
    /// By faction, then by line.
    ByFaction,
}

/// An order as a phase gets it: the unit that it is for, its line and faction, and what it says.
#[derive(Drop, Clone, Copy)]
pub struct PhaseOrder<'m> {
    /// The unit that the order is for, from 1 on; 0 for an alias under which no unit was made.
    pub unit: u32,
    pub line: u32,
    pub faction: u32,
    /// The index of the order among those of its mailing, from 0 on.
    pub index: usize,
    /// The mailing that has the order; its text has the name that the order gives, if the order
    /// gives one.
    pub mailing: &'m Mailing,
    pub order: &'m Order,
}

impl<'m> PhaseOrder<'m> {
    /// The event that reports the order with a given outcome.
    pub fn event(self, outcome: Outcome) -> Event
        ensures { result ≡ event_for (task_of self.entry) outcome }
    {
        Event {
            faction: self.faction,
            unit: self.unit,
            line: self.line,
            verb: EventVerb::Order(self.order.verb),
            outcome,
        }
    }
}
