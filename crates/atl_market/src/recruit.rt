//! RECRUIT: peasants of a region join its units, at a price. See docs/RULES.md, "Recruiting".
ghost use Rattle.std.specs.Prelude.{◌≡◌, true};
ghost use Rattle.atl_campaign.specs.Good.{IsEarly};
ghost use Rattle.atl_phase.specs.Meaning.{most_moved};
ghost use Rattle.atl_market.specs.Recruit.{is_recruit, recruit_keeps, recruit_meaning, recruit_moves, recruit_pots, recruits_at};
ghost use Rattle.atl_market.specs.Payable.{CanRecruit};
ghost use Rattle.atl_market.specs.PotPhase.{asks_count};
ghost use Rattle.atl_market.specs.AfterPots.{RecruitsAtOnce};

use crate::pot_phase::{PotPhase, named_count, share_out};
use atl_campaign::{BooksEntry, Campaign, EventFault, MEN_LIMIT, Thing, Unit};
use atl_orders::Verb;
use atl_phase::{
    Arrangement, Month, Phase, PhaseOrder, PhaseResult, PhaseVerbs, add_events, book_taken,
};
use atl_pots::{Pots, pot_shares};
use atl_world::{Numbered, World};
use std::alloc::{AllocError, Global};

/// The phase RECRUIT: peasants of a region join its units, at a price. See docs/RULES.md,
/// "Recruiting".
#[derive(Drop, Clone, Copy)]
pub struct RecruitPhase;

impl PhaseVerbs for RecruitPhase {
    ghost is_of = { is_recruit };

    fn has(&self, verb: Verb) -> bool {
        matches!(verb, Verb::Recruit)
    }
}

/// The pots of RECRUIT: how many peasants of each region can be recruited.
#[derive(Drop)]
struct RecruitPots<'a> {
    world: &'a World,
    campaign: &'a Campaign,
}

/// A region's pot is its peasants divided by `recruit_fraction`, rounded down.
impl<'a> Pots for RecruitPots<'a> {
    ghost pot_of = { λ pots. recruits_at pots.world.now pots.campaign.now.value };

    ghost ready = { λ pots. IsEarly pots.world.now pots.campaign.now.value };

    fn pot(&self, region: u32) -> u64 {
        match self.campaign.region(region) {
            Some(found) => u64::from(found.peasants / self.world.rules().recruit_fraction),
            None => 0,
        }
    }
}

/// The fault, want and share of a unit in RECRUIT, and its recruits coming out of its region's
/// peasants for their price; the event says how many came.
impl PotPhase for RecruitPhase {
    ghost meaning = { λ _. recruit_pots };

    ghost needs = { λ _. IsEarly };

    ghost can_pay = { λ _ _. CanRecruit };

    ghost asks = { λ what. asks_count what ≡ true };

    fn fault(&self, world: &World, unit: &Unit, _order: PhaseOrder<'_>) -> Option<EventFault> {
        (unit.holding.money() < world.rules().recruit_price).then_some(EventFault::NotEnough)
    }

    fn want(&self, world: &World, unit: &Unit, order: PhaseOrder<'_>) -> u32 {
        let payable = unit.holding.money() / world.rules().recruit_price;
        let room = MEN_LIMIT - unit.holding.men();
        named_count(order).min(payable.min(room))
    }

    fn grants(
        &self,
        alloc: Global,
        world: &World,
        campaign: &Campaign,
        _items: &Numbered<u16>,
        wants: &Numbered<u32>,
    ) -> Result<Numbered<u32>, AllocError> {
        pot_shares(alloc, campaign, &RecruitPots { world, campaign }, wants)
    }

    fn event_number(&self, _world: &World, _unit: &Unit, share: u32) -> u64 {
        u64::from(share)
    }

    #[tactic(auto, unfolding(crate::specs::Recruit::after_recruiting))]
    fn pay(
        &self,
        world: &World,
        campaign: &mut Campaign,
        _items: &Numbered<u16>,
        number: u32,
        share: u32,
    ) -> Result<(), AllocError> {
        let Some(unit) = campaign.unit(number) else {
            return Ok(());
        };
        let region = unit.region;
        let Some(found) = campaign.region(region) else {
            return Ok(());
        };
        let cost = share * world.rules().recruit_price;
        let men = unit.holding.men() + share;
        let money = unit.holding.money() - cost;
        let peasants = found.peasants - share;
        campaign.set_men(number, men);
        campaign.set_money(number, money);
        campaign.set_peasants(region, peasants);
        book_taken(campaign, BooksEntry::Recruiting, Thing::Money, cost);
        Ok(())
    }
}

impl Phase for RecruitPhase {
    ghost meaning = { recruit_meaning };

    ghost needs = { IsEarly };

    ghost leaves = { IsEarly };

    ghost book_bound = { recruit_moves most_moved };

    ghost keeps = { recruit_keeps };

    fn run(
        &self,
        alloc: Global,
        world: &World,
        mut campaign: Campaign,
        mut month: Month,
    ) -> PhaseResult {
        let orders = month.orders(alloc, self, Arrangement::ByUnit)?;
        let events = share_out(alloc, self, world, &mut campaign, &orders)?;
        drop(orders);
        add_events(&mut month, &events)?;
        Ok((campaign, month))
    }
}

/// The law that all recruits join at once, in any campaign, by any orders. They are added to the
/// men that their unit had as the phase began, and their price is taken off its money. They are
/// taken off the peasants of its region. Nothing else of units and regions changes. Does nothing.
/// See docs/RULES.md, "Recruiting".
pub fn recruits_join_all_at_once()
    ensures { RecruitsAtOnce }
{}
