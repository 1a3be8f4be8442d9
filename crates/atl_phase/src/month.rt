//! A month: its mailings, aliases, dice words and events, which phases hand on.
ghost use Rattle.std.specs.Prelude.{◌≡◌, ◌++◌, ◌∷◌, [], IfOk, OnOk, OnErr, map, option_copied, option_map};
ghost use Rattle.std.specs.FinMap.{empty, get};
ghost use Rattle.atl_orders.specs.Mailing.{reading_of};
ghost use Rattle.atl_phase.specs.Month.{HaveOwnFactions, HaveNoOrder, alias_unit, by_faction, with_alias, with_events};
ghost use Rattle.atl_phase.specs.PhaseOrders.{orders_of, task_of, unit_of};

use crate::last_lines::unit_of;
use crate::order_indices::{OrderIndex, order_indices};
use crate::orders::{EveryVerb, PhaseVerbs, phase_orders_at};
use crate::phase_order::{Arrangement, PhaseOrder};
use atl_campaign::Event;
use atl_orders::{Mailing, UnitRef};
use atl_world::{Numbered, let_go};
use std::alloc::{AllocError, Global};
use std::marker::Model;

/// What the phases of a month hand on: the mailings, the unit that FORM made under each alias, the
/// words of the dice, and the events so far. Nothing shows in which order the mailings were given.
pub struct Month {
    // The mailings, sorted by faction, no two of one faction.
    mailings: Vec<Mailing>,
    // The unit that FORM made for each alias, by faction and then by alias.
    aliases: Numbered<Numbered<u32>>,
    words: Vec<u32>,
    // The events so far, in the order in which they came.
    events: Vec<Event>,
    // The indices of the orders that count, by unit, line and faction; None until gathered.
    gathered_indices: Option<Vec<OrderIndex>>,
}

/// Drops all parts of a month by one call (`let_go!`), which the prover meets only once.
impl Drop for Month {
    fn drop(self) {
        let_go!(self: Month { mailings, aliases, words, events, gathered_indices });
    }
}

/// Contracts see a month as a `MonthValue`: the mailings as a map from each faction to its reading,
/// and nothing of the indices that were gathered.
impl Model for Month {
    ghost use Rattle.std.specs.Prelude.{map};
    ghost use Rattle.atl_orders.specs.Mailing.{reading_of};
    ghost use Rattle.atl_phase.specs.Month.{MonthValue, month_code, by_faction};
    ghost use Rattle.atl_phase.specs.OrderIndices.{IsSortedMonth};

    ghost Value = { MonthValue };

    ghost coded = { month_code };

    ghost view = { λ a. record {
      readings = by_faction (map reading_of a.mailings.items);
      aliases = a.aliases;
      words = a.words.items;
      events = a.events.items;
    } };

    ghost invariant = { λ a. IsSortedMonth a.aliases a.mailings.items a.gathered_indices };
}

impl Month {
    /// A month before its first phase, with the given mailings, no two of one faction, and the
    /// given words of the dice. It takes no memory.
    pub fn new(alloc: Global, mut mailings: Vec<Mailing>, words: Vec<u32>) -> Month
        requires { HaveOwnFactions mailings.items }
        ensures { result ≡ record {
          readings = by_faction (map reading_of mailings.items);
          aliases = empty;
          words =
              words.items;
          events = [];
        } }
    {
        mailings.sort_unstable_by_key(|mailing| mailing.faction);
        Month {
            mailings,
            aliases: Numbered::new(alloc),
            words,
            events: Vec::new(alloc),
            gathered_indices: None,
        }
    }

    /// The words of the dice that the month was given.
    pub fn words(&self) -> &[u32]
        ensures { result.now ≡ self.now.words }
    {
        &self.words
    }

    /// The events of the month so far, in the order in which they came.
    pub fn events(&self) -> &[Event]
        ensures { result.now ≡ self.now.events }
    {
        &self.events
    }

    /// The events of the whole month; the rest of the month is dropped.
    pub fn into_events(self) -> Vec<Event>
        ensures { result.items ≡ self.events }
    {
        let Month {
            mailings: _,
            aliases: _,
            words: _,
            events,
            gathered_indices: _,
        } = self;
        events
    }

    /// Adds an event after those so far. Without memory the month stays as it is.
    pub fn add_event(&mut self, event: Event) -> Result<(), AllocError>
        ensures ok { OnOk result
            (self.new ≡ record self.old { events = self.old.events ++ event ∷ [] }) }
        ensures err { OnErr result (self.new ≡ self.old) }
    {
        self.events.push(event)?;
        Ok(())
    }

    /// Notes the unit that a faction's FORM made under an alias, instead of an older one, and drops
    /// what `gather` stored. Without memory the month's value stays the same.
    pub fn set_alias(
        &mut self,
        alloc: Global,
        faction: u32,
        alias: u32,
        unit: u32,
    ) -> Result<(), AllocError>
        ensures ok { OnOk result
            (self.new ≡ record self.old
            { aliases = with_alias self.old.aliases faction alias unit }) }
        ensures err { OnErr result (self.new ≡ self.old) }
    {
        self.gathered_indices = None;
        self.aliases.insert_under(alloc, faction, alias, unit)
    }

    /// Stores in the month where the orders that count are, sorted by unit, line and faction, for
    /// all phases until an alias is set. The month's value stays the same, also without memory.
    pub fn gather(&mut self, alloc: Global) -> Result<(), AllocError>
        ensures { self.new ≡ self.old }
    {
        let arrangement = Arrangement::ByUnit;
        let places = order_indices(
            alloc,
            &EveryVerb,
            arrangement,
            &self.aliases,
            &self.mailings,
        )?;
        self.gathered_indices = Some(places);
        Ok(())
    }

    /// The orders that count and have a verb of the phase, sorted by unit or by faction first, as
    /// `arrangement` says. It takes memory for each of them. If the month's orders aren't gathered,
    /// or not in this arrangement, it takes n log n steps for n orders of the phase. It then takes
    /// memory for each order of the mailings that have one with a verb of the phase. See
    /// docs/RULES.md, "Orders of a month".
    pub fn orders<P: PhaseVerbs>(
        &self,
        alloc: Global,
        phase: &P,
        arrangement: Arrangement,
    ) -> Result<Vec<PhaseOrder<'_>>, AllocError>
        ensures { IfOk result (λ list. map task_of list.items
            ≡ orders_of P.is_of arrangement self.now.aliases self.now.readings) }
    {
        match (arrangement, &self.gathered_indices) {
            (Arrangement::ByUnit, Some(places)) => {
                phase_orders_at(alloc, phase, &self.mailings, places)
            }
            _ => {
                let places = order_indices(
                    alloc,
                    phase,
                    arrangement,
                    &self.aliases,
                    &self.mailings,
                )?;
                phase_orders_at(alloc, phase, &self.mailings, &places)
            }
        }
    }

    /// The mailing of a faction, by binary search; None where it sent none.
    pub fn mailing(&self, faction: u32) -> Option<&Mailing>
        ensures { option_map reading_of (option_copied result) ≡ get self.now.readings faction }
    {
        let mailings = self.mailings.as_slice();
        match mailings.binary_search_by_key(&faction, |mailing| mailing.faction) {
            Ok(index) => Some(&mailings[index]),
            Err(_) => None,
        }
    }

    /// The number of the unit that a faction's order names; 0 for an alias under which no unit was
    /// made.
    pub fn unit(&self, faction: u32, target: UnitRef) -> u32
        ensures { result ≡ unit_of self.now.aliases faction target }
    {
        unit_of(&self.aliases, faction, target)
    }

    /// The number of the unit that a faction's FORM made under an alias; None where there is none.
    pub fn alias(&self, faction: u32, alias: u32) -> Option<u32>
        ensures { result ≡ alias_unit self.now.aliases faction alias }
    {
        unit_under(&self.aliases, faction, alias)
    }
}

/// Adds events to a month, after those that it has. Without memory some of them may be added.
pub fn add_events(month: &mut Month, events: &[Event]) -> Result<(), AllocError>
    ensures { OnOk result (month.new ≡ with_events month.old events.now) }
{
    for event in events {
        month.add_event(*event)?;
    }
    Ok(())
}

pub(crate) fn unit_under(aliases: &Numbered<Numbered<u32>>, faction: u32, alias: u32) -> Option<u32>
    ensures { result ≡ alias_unit aliases.now faction alias }
{
    aliases.get_under(faction, alias).copied()
}

/// The law that mailings of different factions, listed in another order, give the same map of
/// readings. Does nothing.
pub fn mailings_have_no_order()
    ensures { HaveNoOrder }
{}
