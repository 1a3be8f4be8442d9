//! The phases from FORM to PRODUCE as one phase. See docs/RULES.md, "Closing a month".
ghost use Rattle.atl_campaign.specs.Good.{IsEarly};
ghost use Rattle.atl_month.specs.Month.{orders_keep, orders_meaning, orders_bound};

use atl_action::{LearnPhase, MovePhase, SailPhase};
use atl_campaign::Campaign;
use atl_instant::{
    FormPhase, GivePhase, GuardPhase, NamePhase, PlacePhase, QuitPhase, TransferPhase,
};
use atl_market::{BuildPhase, BuyPhase, ProducePhase, RecruitPhase, SellPhase, TaxPhase};
use atl_phase::{Month, Phase, PhaseResult};
use atl_world::World;
use std::alloc::Global;

/// The phases from FORM to PRODUCE, in order, as one phase. WORK is not among them, since units
/// without an order work too. See docs/RULES.md, "Closing a month".
#[derive(Drop, Clone, Copy)]
pub struct OrderPhases;

impl Phase for OrderPhases {
    ghost meaning = { orders_meaning };

    ghost needs = { IsEarly };

    ghost book_bound = { orders_bound };

    ghost keeps = { orders_keep };

    fn run(&self, alloc: Global, world: &World, campaign: Campaign, month: Month) -> PhaseResult {
        let pots = (SellPhase {}, (BuyPhase {}, (TaxPhase, RecruitPhase)));
        let goods = (GivePhase, (TransferPhase, pots));
        let early = (FormPhase, (NamePhase, (PlacePhase, goods)));
        let making = (BuildPhase, (LearnPhase, ProducePhase));
        let later = (GuardPhase, (QuitPhase, (MovePhase, (SailPhase, making))));
        (early, later).run(alloc, world, campaign, month)
    }
}
