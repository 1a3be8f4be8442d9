//! TAX: the units on guard share the money of their region. See docs/RULES.md, "Tax".
ghost use Rattle.atl_world.specs.Worlds.{WorldValue};
ghost use Rattle.atl_campaign.specs.Good.{IsEarly};
ghost use Rattle.atl_phase.specs.NoWorse.{all_no_worse};
ghost use Rattle.atl_market.specs.Tax.{is_tax, money_at, tax_meaning, tax_pots};
ghost use Rattle.atl_market.specs.Payable.{CanTax};
ghost use Rattle.atl_market.specs.AfterPots.{TaxesAtOnce};

use crate::pot_phase::{PotPhase, share_out};
use atl_campaign::{Campaign, EventFault, HOLDING_LIMIT, Unit};
use atl_orders::Verb;
use atl_phase::{Arrangement, Month, Phase, PhaseOrder, PhaseResult, PhaseVerbs, add_events};
use atl_pots::{Pots, pot_shares};
use atl_world::{Numbered, World};
use std::alloc::{AllocError, Global};

/// The phase TAX: the units on guard share the money of their region. See docs/RULES.md, "Tax".
#[derive(Drop, Clone, Copy)]
pub struct TaxPhase;

impl PhaseVerbs for TaxPhase {
    ghost is_of = { is_tax };

    fn has(&self, verb: Verb) -> bool {
        matches!(verb, Verb::Tax)
    }
}

/// The pots of TAX: the money of each region.
#[derive(Drop)]
struct RegionMoney<'a> {
    campaign: &'a Campaign,
}

impl<'a> Pots for RegionMoney<'a> {
    ghost pot_of = { λ pots. money_at pots.campaign.now.value };

    ghost ready = { λ pots. (w : WorldValue) × IsEarly w pots.campaign.now.value };

    fn pot(&self, region: u32) -> u64 {
        match self.campaign.region(region) {
            Some(found) => u64::from(found.money),
            None => 0,
        }
    }
}

/// The fault, want and share of a unit in TAX, and the payment of the share by the unit's region;
/// the event says how much was taken.
impl PotPhase for TaxPhase {
    ghost meaning = { λ _. tax_pots };

    ghost needs = { λ _. IsEarly };

    ghost can_pay = { λ _ _. CanTax };

    fn fault(&self, _world: &World, unit: &Unit, _order: PhaseOrder<'_>) -> Option<EventFault> {
        if unit.holding.men() == 0 {
            return Some(EventFault::NoMen);
        }
        (!unit.holding.guard()).then_some(EventFault::NotGuarding)
    }

    fn want(&self, world: &World, unit: &Unit, _order: PhaseOrder<'_>) -> u32 {
        let room = HOLDING_LIMIT - unit.holding.money();
        (unit.holding.men() * world.rules().tax_per_man).min(room)
    }

    fn grants(
        &self,
        alloc: Global,
        _world: &World,
        campaign: &Campaign,
        _items: &Numbered<u16>,
        wants: &Numbered<u32>,
    ) -> Result<Numbered<u32>, AllocError> {
        pot_shares(alloc, campaign, &RegionMoney { campaign }, wants)
    }

    fn event_number(&self, _world: &World, _unit: &Unit, share: u32) -> u64 {
        u64::from(share)
    }

    #[tactic(auto, unfolding(crate::specs::Tax::after_tax))]
    fn pay(
        &self,
        _world: &World,
        campaign: &mut Campaign,
        _items: &Numbered<u16>,
        number: u32,
        share: u32,
    ) -> Result<(), AllocError> {
        let Some(unit) = campaign.unit(number) else {
            return Ok(());
        };
        let region = unit.region;
        let Some(found) = campaign.region(region) else {
            return Ok(());
        };
        let held = unit.holding.money();
        let left = found.money - share;
        campaign.set_money(number, held + share);
        campaign.set_region_money(region, left);
        Ok(())
    }
}

impl Phase for TaxPhase {
    ghost meaning = { tax_meaning };

    ghost needs = { IsEarly };

    ghost leaves = { IsEarly };

    ghost keeps = { all_no_worse };

    fn run(
        &self,
        alloc: Global,
        world: &World,
        mut campaign: Campaign,
        mut month: Month,
    ) -> PhaseResult {
        let orders = month.orders(alloc, self, Arrangement::ByUnit)?;
        let events = share_out(alloc, self, world, &mut campaign, &orders)?;
        drop(orders);
        add_events(&mut month, &events)?;
        Ok((campaign, month))
    }
}

/// The law that all units take their tax at once, in any campaign, by any orders. Each has its
/// share added to the money that it had as the phase began, and each region loses what its units
/// took. Nothing else of units and regions changes. Does nothing. See docs/RULES.md, "Tax".
pub fn tax_pays_all_at_once()
    ensures { TaxesAtOnce }
{}
