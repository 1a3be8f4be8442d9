//! Phases that share pots in the reference calculation: their orders, pots, shares, events and
//! payments.
use super::plain::{PlainCampaign, PlainRegion};
use super::pots::{Claim, Claimed, Pot, UnitShare, given_to, outcome, shared};
use super::trade::PlainTrade;
use super::{produce, recruit, tax, trade, work};
use atl_market::{BuyPhase, ProducePhase, RecruitPhase, SellPhase, TaxPhase};
use atl_orders::{Mailing, Operands, Order, Verb};
use atl_phase::{Arrangement, Month, MonthLongVerbs, PhaseOrder};
use atl_world::{Sequence, World};
use std::alloc::{AllocError, Global};

#[derive(Clone, Copy, Drop)]
pub(crate) enum SharingPhase {
    Trade(PlainTrade),
    Tax,
    Recruit,
    Produce,
    Work,
}

/// `work` is the order that idle units get in WORK.
fn orders<'m>(
    alloc: Global,
    sharing: SharingPhase,
    plain: &PlainCampaign,
    month: &'m Month,
    work: PhaseOrder<'m>,
) -> Result<Vec<PhaseOrder<'m>>, AllocError> {
    let arrangement = Arrangement::ByUnit;
    match sharing {
        SharingPhase::Trade(PlainTrade::Sell) => month.orders(alloc, &SellPhase {}, arrangement),
        SharingPhase::Trade(PlainTrade::Buy) => month.orders(alloc, &BuyPhase {}, arrangement),
        SharingPhase::Tax => month.orders(alloc, &TaxPhase, arrangement),
        SharingPhase::Recruit => month.orders(alloc, &RecruitPhase, arrangement),
        SharingPhase::Produce => month.orders(alloc, &ProducePhase, arrangement),
        SharingPhase::Work => {
            let orders = month.orders(alloc, &MonthLongVerbs, arrangement)?;
            work::tasks(alloc, plain, &orders, work)
        }
    }
}

fn claim(
    sharing: SharingPhase,
    world: &World,
    plain: &PlainCampaign,
    order: PhaseOrder<'_>,
) -> Claim {
    match sharing {
        SharingPhase::Trade(trade) => trade::claim(trade, world, plain, order),
        SharingPhase::Tax => tax::claim(world, plain, order),
        SharingPhase::Recruit => recruit::claim(world, plain, order),
        SharingPhase::Produce => produce::claim(world, plain, order),
        SharingPhase::Work => work::claim(world, plain, order),
    }
}

fn claims<'m>(
    alloc: Global,
    sharing: SharingPhase,
    world: &World,
    plain: &PlainCampaign,
    month: &'m Month,
    work: PhaseOrder<'m>,
) -> Result<Vec<Claimed<'m>>, AllocError> {
    let mut claims = Vec::new(alloc);
    for order in orders(alloc, sharing, plain, month, work)?.iter() {
        claims.push(Claimed {
            order: *order,
            claim: claim(sharing, world, plain, *order),
        })?;
    }
    Ok(claims)
}

fn add_pots(
    sharing: SharingPhase,
    world: &World,
    plain: &PlainCampaign,
    land: PlainRegion,
    pots: &mut Vec<Pot>,
) -> Result<(), AllocError> {
    let pot = match sharing {
        SharingPhase::Trade(trade) => return trade::add_pots(
            trade,
            world,
            plain,
            land.number,
            pots,
        ),
        SharingPhase::Produce => return produce::add_pots(world, land.number, pots),
        SharingPhase::Tax => tax::pot(land),
        SharingPhase::Recruit => recruit::pot(world, land),
        SharingPhase::Work => work::pot(world, land.number),
    };
    pots.push(pot)?;
    Ok(())
}

fn pots(
    alloc: Global,
    sharing: SharingPhase,
    world: &World,
    plain: &PlainCampaign,
) -> Result<Vec<Pot>, AllocError> {
    let mut pots = Vec::new(alloc);
    for land in plain.lands.iter() {
        add_pots(sharing, world, plain, *land, &mut pots)?;
    }
    Ok(pots)
}

fn number_done(
    sharing: SharingPhase,
    world: &World,
    plain: &PlainCampaign,
    given: &[UnitShare],
    unit: u32,
) -> u64 {
    match sharing {
        SharingPhase::Work => work::earned(world, plain, given, unit),
        _ => given_to(given, unit),
    }
}

fn add_events(
    sharing: SharingPhase,
    world: &World,
    plain: &mut PlainCampaign,
    claims: &[Claimed<'_>],
    given: &[UnitShare],
) -> Result<(), AllocError> {
    for claimed in claims {
        let order = claimed.order;
        let done = number_done(sharing, world, plain, given, order.unit);
        let event = order.event(outcome(claimed.claim, done));
        plain.events.push(event)?;
    }
    Ok(())
}

fn pay(
    sharing: SharingPhase,
    world: &World,
    plain: &mut PlainCampaign,
    given: UnitShare,
) -> Result<(), AllocError> {
    match sharing {
        SharingPhase::Trade(trade) => trade::pay(trade, world, plain, given)?,
        SharingPhase::Tax => tax::pay(plain, given),
        SharingPhase::Recruit => recruit::pay(world, plain, given)?,
        SharingPhase::Produce => produce::pay(world, plain, given)?,
        SharingPhase::Work => work::pay(world, plain, given)?,
    }
    Ok(())
}

fn pay_all(
    sharing: SharingPhase,
    world: &World,
    plain: &mut PlainCampaign,
    given: &[UnitShare],
) -> Result<(), AllocError> {
    for one in given {
        pay(sharing, world, plain, *one)?;
    }
    Ok(())
}

pub(crate) fn play(
    alloc: Global,
    sharing: SharingPhase,
    world: &World,
    plain: &mut PlainCampaign,
    month: &Month,
) -> Result<(), AllocError> {
    let mailing = Mailing {
        faction: 0,
        text: Sequence::new(alloc),
        entries: Sequence::new(alloc),
        faults: Sequence::new(alloc),
    };
    let order = Order {
        verb: Verb::Work,
        operands: Operands::Nothing,
    };
    let work = PhaseOrder {
        unit: 0,
        line: 0,
        faction: 0,
        index: 0,
        mailing: &mailing,
        order: &order,
    };
    let claims = claims(alloc, sharing, world, plain, month, work)?;
    let pots = pots(alloc, sharing, world, plain)?;
    let given = shared(alloc, plain, &claims, &pots)?;
    add_events(sharing, world, plain, &claims, &given)?;
    pay_all(sharing, world, plain, &given)
}
