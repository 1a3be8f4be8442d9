//! TAX in the reference calculation: units that guard share the money of their region.
use super::plain::{PlainCampaign, PlainRegion};
use super::pots::{Claim, Pot, UnitShare, own_unit};
use atl_campaign::EventFault;
use atl_phase::PhaseOrder;
use atl_world::World;

pub(crate) const MOST_MONEY: u64 = 999_999_999;

/// The number of the only thing that TAX shares: money.
const MONEY: u32 = 0;

pub(crate) fn claim(world: &World, plain: &PlainCampaign, order: PhaseOrder<'_>) -> Claim {
    let Some(person) = own_unit(plain, order) else {
        return Claim::Fault(EventFault::NotYours);
    };
    if person.men == 0 {
        return Claim::Fault(EventFault::NoMen);
    }
    if !person.guard {
        return Claim::Fault(EventFault::NotGuarding);
    }
    let due = person
        .men
        .wrapping_mul(u64::from(world.rules().tax_per_man));
    Claim::Want(MONEY, due.min(MOST_MONEY.saturating_sub(person.money)))
}

pub(crate) fn pot(land: PlainRegion) -> Pot {
    Pot {
        region: land.number,
        thing: MONEY,
        size: land.money,
    }
}

pub(crate) fn pay(plain: &mut PlainCampaign, given: UnitShare) {
    let Some(person) = plain.find_unit(given.unit) else {
        return;
    };
    let money = person.money.wrapping_add(given.amount);
    plain.set_men_and_money(given.unit, person.men, money);
    if let Some(land) = plain.find_region(person.region) {
        let left = land.money.wrapping_sub(given.amount);
        plain.set_peasants_and_money(land.number, land.peasants, left);
    }
}
