//! PRODUCE in the reference calculation: units make items out of raw items or of the terrain's
//! output.
use super::plain::{PlainCampaign, PlainGood, PlainUnit};
use super::pots::{Claim, Pot, UnitShare, own_unit};
use super::tax::MOST_MONEY;
use atl_campaign::{BooksEntry, EventFault, Thing};
use atl_orders::Operands;
use atl_phase::PhaseOrder;
use atl_world::{Item, World};
use std::alloc::AllocError;

const MOST_PIECES: u64 = MOST_MONEY;

const MOST_LEVEL: u64 = 5;

/// The factor in the rule of levels: level `n` of a skill takes this times n * (n + 1) days for
/// each man.
const LEVEL_DAYS: u64 = 15;

/// `days` are those of all men together.
fn level(days: u64, men: u64) -> u64 {
    let mut level = 0;
    for next in 1..=MOST_LEVEL {
        let each = LEVEL_DAYS.wrapping_mul(next.wrapping_mul(next.wrapping_add(1)));
        if men != 0 && each.wrapping_mul(men) <= days {
            level = next;
        }
    }
    level
}

fn level_of(plain: &PlainCampaign, person: PlainUnit, item: &Item) -> u64 {
    match item.skill {
        Some(skill) => level(
            plain.amount(person.number, true, u32::from(skill)),
            person.men,
        ),
        None => 0,
    }
}

fn raw_for(plain: &PlainCampaign, person: PlainUnit, item: &Item) -> Option<u64> {
    let raw = item.raw?;
    let held = plain.amount(person.number, false, u32::from(raw));
    held.checked_div(u64::from(item.raw_count))
}

fn item_of(order: PhaseOrder<'_>) -> u32 {
    match &order.order.operands {
        Operands::Item(item) => u32::from(*item),
        _ => 0,
    }
}

fn want(plain: &PlainCampaign, person: PlainUnit, number: u32, item: &Item) -> u64 {
    let skilled = person.men.wrapping_mul(level_of(plain, person, item));
    let room = MOST_PIECES.saturating_sub(plain.amount(person.number, false, number));
    let most = skilled.min(room);
    match raw_for(plain, person, item) {
        Some(enough) => most.min(enough),
        None => most,
    }
}

fn fault(plain: &PlainCampaign, person: PlainUnit, item: &Item) -> Option<EventFault> {
    if person.men == 0 {
        Some(EventFault::NoMen)
    } else if item.skill.is_none() || level_of(plain, person, item) < u64::from(item.level) {
        Some(EventFault::NoSkill)
    } else if raw_for(plain, person, item) == Some(0) {
        Some(EventFault::NoMaterial)
    } else {
        None
    }
}

pub(crate) fn claim(world: &World, plain: &PlainCampaign, order: PhaseOrder<'_>) -> Claim {
    let number = item_of(order);
    let (Some(person), Some(item)) = (own_unit(plain, order), world.items().get(number as usize))
    else {
        return Claim::Fault(EventFault::NotYours);
    };
    match fault(plain, person, item) {
        Some(fault) => Claim::Fault(fault),
        None => Claim::Want(number, want(plain, person, number, item)),
    }
}

fn output(world: &World, region: u32, item: u32) -> u64 {
    let Some(terrain) = world.terrain_of(region) else {
        return 0;
    };
    match terrain.output.as_slice().get(item as usize) {
        Some(amount) => u64::from(*amount),
        None => 0,
    }
}

/// Appends a region's pots in PRODUCE, one for each item: the terrain's output of it, or no bound
/// if it is made of raw items.
pub(crate) fn add_pots(world: &World, region: u32, pots: &mut Vec<Pot>) -> Result<(), AllocError> {
    let mut thing: u32 = 0;
    for item in world.items() {
        let size = match item.raw {
            Some(_) => u64::MAX,
            None => output(world, region, thing),
        };
        pots.push(Pot {
            region,
            thing,
            size,
        })?;
        thing = thing.wrapping_add(1);
    }
    Ok(())
}

fn set_item(
    plain: &mut PlainCampaign,
    unit: u32,
    item: u16,
    amount: u64,
    entry: BooksEntry,
) -> Result<(), AllocError> {
    let thing = u32::from(item);
    let held = plain.amount(unit, false, thing);
    plain.book(entry, Thing::Item(item), held, amount)?;
    plain.set_amount(PlainGood {
        unit,
        is_skill: false,
        thing,
        amount,
    })
}

pub(crate) fn pay(
    world: &World,
    plain: &mut PlainCampaign,
    given: UnitShare,
) -> Result<(), AllocError> {
    let Some(item) = world.items().get(given.thing as usize) else {
        return Ok(());
    };
    if let Some(raw) = item.raw {
        let used = given.amount.wrapping_mul(u64::from(item.raw_count));
        let held = plain.amount(given.unit, false, u32::from(raw));
        set_item(
            plain,
            given.unit,
            raw,
            held.wrapping_sub(used),
            BooksEntry::Used,
        )?;
    }
    let made = u16::try_from(given.thing).unwrap_or(0);
    let held = plain.amount(given.unit, false, given.thing);
    set_item(
        plain,
        given.unit,
        made,
        held.wrapping_add(given.amount),
        BooksEntry::Made,
    )
}
