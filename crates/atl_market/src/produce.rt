//! PRODUCE: units make items of raw items, or of what the terrain of their region gives. See
//! docs/RULES.md, "Producing".
ghost use Rattle.atl_world.specs.Worlds.{IsWorld};
ghost use Rattle.atl_campaign.specs.Good.{IsSteady};
ghost use Rattle.atl_phase.specs.Meaning.{most_moved};
ghost use Rattle.atl_market.specs.Making.{CanProduce};
ghost use Rattle.atl_market.specs.Produce.{after_production, is_produce, produce_keeps, produce_meaning, produce_moves, produce_pots};
ghost use Rattle.atl_market.specs.AfterPots.{ProducesAtOnce};

use crate::making::{item_of, make, most_makeable, produce_fault};
use crate::outputs::made_amounts;
use crate::pot_phase::{PotPhase, named_item, share_out};
use atl_campaign::{Campaign, EventFault, Unit};
use atl_orders::Verb;
use atl_phase::{Arrangement, Month, Phase, PhaseOrder, PhaseResult, PhaseVerbs, add_events};
use atl_world::{Numbered, World};
use std::alloc::{AllocError, Global};

/// The phase PRODUCE: units make items of raw items, or of what the terrain of their region gives.
/// See docs/RULES.md, "Producing".
#[derive(Drop, Clone, Copy)]
pub struct ProducePhase;

impl PhaseVerbs for ProducePhase {
    ghost is_of = { is_produce };

    fn has(&self, verb: Verb) -> bool {
        matches!(verb, Verb::Produce)
    }
}

/// The fault, want and share of a unit in PRODUCE, by the item that its order names, and what it
/// makes of its share. The event says how many were made.
impl PotPhase for ProducePhase {
    ghost meaning = { λ _. produce_pots };

    ghost needs = { λ _. IsSteady };

    ghost can_pay = { λ _. CanProduce };

    fn fault(&self, world: &World, unit: &Unit, order: PhaseOrder<'_>) -> Option<EventFault> {
        produce_fault(world, &unit.holding, named_item(order))
    }

    fn want(&self, world: &World, unit: &Unit, order: PhaseOrder<'_>) -> u32 {
        most_makeable(world, &unit.holding, named_item(order))
    }

    fn grants(
        &self,
        alloc: Global,
        world: &World,
        campaign: &Campaign,
        items: &Numbered<u16>,
        wants: &Numbered<u32>,
    ) -> Result<Numbered<u32>, AllocError> {
        made_amounts(alloc, world, campaign, items, wants)
    }

    fn event_number(&self, _world: &World, _unit: &Unit, share: u32) -> u64 {
        u64::from(share)
    }

    #[tactic(auto, unfolding(crate::specs::Produce::after_production))]
    fn pay(
        &self,
        world: &World,
        campaign: &mut Campaign,
        items: &Numbered<u16>,
        number: u32,
        share: u32,
    ) -> Result<(), AllocError> {
        let Some(item) = items.get(number) else {
            return Ok(());
        };
        match item_of(world, Some(*item)) {
            Some(found) => make(world, campaign, number, *item, found, share),
            None => Ok(()),
        }
    }
}

/// The law that every `World` is well-formed (`IsWorld`), from which the proofs of PRODUCE, SELL
/// and BUY take it. Does nothing.
pub(crate) fn world_is_well_formed(world: &World)
    ensures { IsWorld world.now }
{
    let _ = world.items();
}

impl Phase for ProducePhase {
    ghost meaning = { produce_meaning };

    ghost book_bound = { produce_moves most_moved };

    ghost keeps = { produce_keeps };

    fn run(
        &self,
        alloc: Global,
        world: &World,
        mut campaign: Campaign,
        mut month: Month,
    ) -> PhaseResult {
        let orders = month.orders(alloc, self, Arrangement::ByUnit)?;
        world_is_well_formed(world);
        let events = share_out(alloc, self, world, &mut campaign, &orders)?;
        drop(orders);
        add_events(&mut month, &events)?;
        Ok((campaign, month))
    }
}

/// The law that all units produce at once, in any campaign, by any orders. What a unit made is
/// added to what it had as the phase began, and the raw items that went into it are taken off.
/// Nothing else of a unit changes, and no region. Does nothing. See docs/RULES.md, "Producing".
pub fn units_produce_all_at_once()
    ensures { ProducesAtOnce }
{}
