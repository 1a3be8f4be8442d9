//! Upkeep in the reference calculation (docs/RULES.md, "Upkeep"); for each unit it looks at all
//! units.
use super::plain::{PlainCampaign, PlainUnit};
use atl_campaign::{BooksEntry, Event, EventVerb, Outcome, Thing};
use atl_world::World;
use std::alloc::{AllocError, Global};

/// Sums over a faction's units in a region: money left after their own upkeep, and money that they
/// are short of.
/// There are sums over all of the units, and sums over those with a lower number than one unit.
#[derive(Clone, Copy, Drop)]
struct UpkeepSums {
    left: u64,
    short: u64,
    left_before: u64,
    short_before: u64,
}

#[derive(Clone, Copy, Drop)]
struct UpkeepTaken {
    person: PlainUnit,
    paid: u64,
    starved: u64,
}

fn left_of(maintenance: u64, person: PlainUnit) -> u64 {
    let due = maintenance.wrapping_mul(person.men);
    person.money.saturating_sub(due)
}

fn short_of(maintenance: u64, person: PlainUnit) -> u64 {
    let due = maintenance.wrapping_mul(person.men);
    due.saturating_sub(person.money)
}

/// `is_before` says that the unit's number is lower than that of the unit for which the sums are.
fn add_to_sums(
    maintenance: u64,
    sums: UpkeepSums,
    person: PlainUnit,
    is_before: bool,
) -> UpkeepSums {
    let (left, short) = (left_of(maintenance, person), short_of(maintenance, person));
    let (left_before, short_before) = if is_before { (left, short) } else { (0, 0) };
    UpkeepSums {
        left: sums.left.wrapping_add(left),
        short: sums.short.wrapping_add(short),
        left_before: sums.left_before.wrapping_add(left_before),
        short_before: sums.short_before.wrapping_add(short_before),
    }
}

fn sums_of(maintenance: u64, plain: &PlainCampaign, one: PlainUnit) -> UpkeepSums {
    let mut sums = UpkeepSums {
        left: 0,
        short: 0,
        left_before: 0,
        short_before: 0,
    };
    for person in plain.people.iter() {
        if person.region == one.region && person.faction == one.faction {
            sums = add_to_sums(maintenance, sums, *person, person.number < one.number);
        }
    }
    sums
}

/// The takers who come before want `before` together.
fn share_in_turn(amount: u64, before: u64, own: u64) -> u64 {
    let with = before.wrapping_add(own);
    amount.min(with).wrapping_sub(amount.min(before))
}

fn taken_from(maintenance: u64, plain: &PlainCampaign, person: PlainUnit) -> UpkeepTaken {
    let sums = sums_of(maintenance, plain, person);
    let amount = sums.left.min(sums.short);
    let left = left_of(maintenance, person);
    let short = short_of(maintenance, person);
    let given = share_in_turn(amount, sums.left_before, left);
    let covered = share_in_turn(amount, sums.short_before, short);
    let missing = short.wrapping_sub(covered);
    let rounded = missing.wrapping_add(maintenance.wrapping_sub(1));
    UpkeepTaken {
        person,
        paid: person.money.wrapping_sub(left).wrapping_add(given),
        starved: rounded.checked_div(maintenance).unwrap_or(0),
    }
}

fn all_taken(
    alloc: Global,
    maintenance: u64,
    plain: &PlainCampaign,
) -> Result<Vec<UpkeepTaken>, AllocError> {
    let mut all = Vec::new(alloc);
    for person in plain.people.iter() {
        all.push(taken_from(maintenance, plain, *person))?;
    }
    Ok(all)
}

fn reduce_days(plain: &mut PlainCampaign, one: UpkeepTaken) {
    let men = one.person.men;
    let left = men.wrapping_sub(one.starved);
    for good in plain.goods.iter_mut() {
        if good.is_skill && good.unit == one.person.number {
            let days = good.amount.wrapping_mul(left);
            good.amount = days.checked_div(men).unwrap_or(0);
        }
    }
}

fn take(plain: &mut PlainCampaign, one: UpkeepTaken) -> Result<(), AllocError> {
    let person = one.person;
    let men = person.men.wrapping_sub(one.starved);
    let money = person.money.wrapping_sub(one.paid);
    reduce_days(plain, one);
    plain.set_men_and_money(person.number, men, money);
    plain.book(BooksEntry::Upkeep, Thing::Money, person.money, money)?;
    plain.book(BooksEntry::Starved, Thing::People, person.men, men)
}

fn take_all(plain: &mut PlainCampaign, all: &[UpkeepTaken]) -> Result<(), AllocError> {
    for one in all {
        take(plain, *one)?;
    }
    Ok(())
}

fn add_events(plain: &mut PlainCampaign, all: &[UpkeepTaken]) -> Result<(), AllocError> {
    for one in all {
        if one.starved != 0 {
            plain.events.push(Event {
                faction: one.person.faction,
                unit: one.person.number,
                line: 0,
                verb: EventVerb::Upkeep,
                outcome: Outcome::Starved(one.starved),
            })?;
        }
    }
    Ok(())
}

pub(crate) fn play(
    alloc: Global,
    world: &World,
    plain: &mut PlainCampaign,
) -> Result<(), AllocError> {
    let maintenance = u64::from(world.rules().maintenance);
    let all = all_taken(alloc, maintenance, plain)?;
    take_all(plain, &all)?;
    add_events(plain, &all)
}
