//! RECRUIT in the reference calculation: peasants of a region join units, which pay a price for
//! each.
use super::plain::{PlainCampaign, PlainRegion, PlainUnit};
use super::pots::{Claim, Pot, UnitShare, own_unit};
use atl_campaign::{BooksEntry, EventFault, Thing};
use atl_orders::Operands;
use atl_phase::PhaseOrder;
use atl_world::World;
use std::alloc::AllocError;

const MOST_MEN: u64 = 999_999;

/// The number of the only thing that RECRUIT shares: people.
const PEOPLE: u32 = 0;

fn price(world: &World) -> u64 {
    u64::from(world.rules().recruit_price)
}

fn asked(order: PhaseOrder<'_>) -> u64 {
    match &order.order.operands {
        Operands::Number(men) => u64::from(*men),
        _ => 0,
    }
}

fn want(world: &World, person: PlainUnit, order: PhaseOrder<'_>) -> u64 {
    let payable = person.money.checked_div(price(world)).unwrap_or(0);
    let room = MOST_MEN.saturating_sub(person.men);
    asked(order).min(payable).min(room)
}

pub(crate) fn claim(world: &World, plain: &PlainCampaign, order: PhaseOrder<'_>) -> Claim {
    let Some(person) = own_unit(plain, order) else {
        return Claim::Fault(EventFault::NotYours);
    };
    if person.money < price(world) {
        return Claim::Fault(EventFault::NotEnough);
    }
    Claim::Want(PEOPLE, want(world, person, order))
}

pub(crate) fn pot(world: &World, land: PlainRegion) -> Pot {
    let fraction = u64::from(world.rules().recruit_fraction);
    Pot {
        region: land.number,
        thing: PEOPLE,
        size: land.peasants.checked_div(fraction).unwrap_or(0),
    }
}

pub(crate) fn pay(
    world: &World,
    plain: &mut PlainCampaign,
    given: UnitShare,
) -> Result<(), AllocError> {
    let Some(person) = plain.find_unit(given.unit) else {
        return Ok(());
    };
    let cost = given.amount.wrapping_mul(price(world));
    let money = person.money.wrapping_sub(cost);
    let men = person.men.wrapping_add(given.amount);
    plain.set_men_and_money(given.unit, men, money);
    if let Some(land) = plain.find_region(person.region) {
        let left = land.peasants.wrapping_sub(given.amount);
        plain.set_peasants_and_money(land.number, left, land.money);
    }
    plain.book(BooksEntry::Recruiting, Thing::Money, person.money, money)
}
