//! WORK in the reference calculation: units share the jobs (`places`) of their region.
use super::plain::{PlainCampaign, PlainUnit};
use super::pots::{Claim, Pot, UnitShare, given_to, own_unit};
use super::tax::MOST_MONEY;
use atl_campaign::{BooksEntry, EventFault, Thing};
use atl_orders::Verb;
use atl_phase::PhaseOrder;
use atl_world::World;
use std::alloc::{AllocError, Global};

/// The number of the only thing that WORK shares: jobs.
const PLACES: u32 = 0;

fn wage(world: &World, region: u32) -> u64 {
    match world.terrain_of(region) {
        Some(terrain) => u64::from(terrain.wage),
        None => 0,
    }
}

fn places(world: &World, region: u32) -> u64 {
    match world.terrain_of(region) {
        Some(terrain) => u64::from(terrain.places),
        None => 0,
    }
}

pub(crate) fn claim(world: &World, plain: &PlainCampaign, order: PhaseOrder<'_>) -> Claim {
    let Some(person) = own_unit(plain, order) else {
        return Claim::Fault(EventFault::NotYours);
    };
    if person.men == 0 {
        return Claim::Fault(EventFault::NoMen);
    }
    let room = MOST_MONEY.saturating_sub(person.money);
    let paid = room.checked_div(wage(world, person.region)).unwrap_or(0);
    Claim::Want(PLACES, person.men.min(paid))
}

fn is_idle(person: PlainUnit, orders: &[PhaseOrder<'_>]) -> bool {
    for order in orders {
        if order.unit == person.number && order.faction == person.faction {
            return false;
        }
    }
    person.men != 0
}

fn add_idle<'m>(
    plain: &PlainCampaign,
    orders: &[PhaseOrder<'m>],
    work: PhaseOrder<'m>,
    tasks: &mut Vec<PhaseOrder<'m>>,
) -> Result<(), AllocError> {
    for person in plain.people.iter() {
        if is_idle(*person, orders) {
            tasks.push(PhaseOrder {
                unit: person.number,
                line: 0,
                faction: person.faction,
                index: 0,
                mailing: work.mailing,
                order: work.order,
            })?;
        }
    }
    Ok(())
}

/// The WORK orders among month-long orders, and one more for each idle unit, sorted by unit, line
/// and faction.
pub(crate) fn tasks<'m>(
    alloc: Global,
    plain: &PlainCampaign,
    orders: &[PhaseOrder<'m>],
    work: PhaseOrder<'m>,
) -> Result<Vec<PhaseOrder<'m>>, AllocError> {
    let mut tasks = Vec::new(alloc);
    for order in orders {
        if matches!(order.order.verb, Verb::Work) {
            tasks.push(*order)?;
        }
    }
    add_idle(plain, orders, work, &mut tasks)?;
    tasks.sort_unstable_by_key(|task| {
        [
            task.unit as usize,
            task.line as usize,
            task.faction as usize,
        ]
    });
    Ok(tasks)
}

pub(crate) fn pot(world: &World, region: u32) -> Pot {
    Pot {
        region,
        thing: PLACES,
        size: places(world, region),
    }
}

/// What a unit earns by its jobs: its share times the region's wage; 0 if there is no such unit.
pub(crate) fn earned(world: &World, plain: &PlainCampaign, given: &[UnitShare], unit: u32) -> u64 {
    match plain.find_unit(unit) {
        Some(person) => given_to(given, unit).wrapping_mul(wage(world, person.region)),
        None => 0,
    }
}

pub(crate) fn pay(
    world: &World,
    plain: &mut PlainCampaign,
    given: UnitShare,
) -> Result<(), AllocError> {
    let Some(person) = plain.find_unit(given.unit) else {
        return Ok(());
    };
    let more = given.amount.wrapping_mul(wage(world, person.region));
    let money = person.money.wrapping_add(more);
    plain.set_men_and_money(given.unit, person.men, money);
    plain.book(BooksEntry::Wages, Thing::Money, person.money, money)
}
