//! SELL and BUY in the reference calculation: units sell items to the markets of their regions, and
//! buy from them.
use super::plain::{PlainCampaign, PlainGood, PlainUnit, Stock};
use super::pots::{Claim, Pot, UnitShare, own_unit};
use super::tax::MOST_MONEY;
use atl_campaign::{BooksEntry, EventFault, Thing};
use atl_orders::Operands;
use atl_phase::PhaseOrder;
use atl_world::{Market, World};
use std::alloc::AllocError;

const MOST_PIECES: u64 = MOST_MONEY;

#[derive(Clone, Copy, Drop)]
pub(crate) enum PlainTrade {
    Sell,
    Buy,
}

fn asked(order: PhaseOrder<'_>) -> (u64, u16) {
    match &order.order.operands {
        Operands::Goods { amount, item } => (u64::from(*amount), *item),
        _ => (0, 0),
    }
}

fn most_sold(plain: &PlainCampaign, person: PlainUnit, market: &Market) -> u64 {
    let held = plain.amount(person.number, false, u32::from(market.item));
    let room = MOST_MONEY.saturating_sub(person.money);
    held.min(room.checked_div(u64::from(market.pays)).unwrap_or(0))
}

fn most_bought(plain: &PlainCampaign, person: PlainUnit, market: &Market) -> u64 {
    let held = plain.amount(person.number, false, u32::from(market.item));
    let payable = person
        .money
        .checked_div(u64::from(market.price))
        .unwrap_or(0);
    payable.min(MOST_PIECES.saturating_sub(held))
}

fn is_short(trade: PlainTrade, plain: &PlainCampaign, person: PlainUnit, market: &Market) -> bool {
    match trade {
        PlainTrade::Sell => plain.amount(person.number, false, u32::from(market.item)) == 0,
        PlainTrade::Buy => person.money < u64::from(market.price),
    }
}

pub(crate) fn claim(
    trade: PlainTrade,
    world: &World,
    plain: &PlainCampaign,
    order: PhaseOrder<'_>,
) -> Claim {
    let Some(person) = own_unit(plain, order) else {
        return Claim::Fault(EventFault::NotYours);
    };
    let (amount, item) = asked(order);
    let Some(market) = world.market(person.region, item) else {
        return Claim::Fault(EventFault::NoMarket);
    };
    if is_short(trade, plain, person, market) {
        return Claim::Fault(EventFault::NotEnough);
    }
    let most = match trade {
        PlainTrade::Sell => most_sold(plain, person, market),
        PlainTrade::Buy => most_bought(plain, person, market),
    };
    Claim::Want(u32::from(item), amount.min(most))
}

fn pot(trade: PlainTrade, plain: &PlainCampaign, region: u32, market: &Market) -> Pot {
    let thing = u32::from(market.item);
    let stock = plain.stock(region, thing);
    Pot {
        region,
        thing,
        size: match trade {
            PlainTrade::Sell => u64::from(market.limit).saturating_sub(stock),
            PlainTrade::Buy => stock,
        },
    }
}

pub(crate) fn add_pots(
    trade: PlainTrade,
    world: &World,
    plain: &PlainCampaign,
    region: u32,
    pots: &mut Vec<Pot>,
) -> Result<(), AllocError> {
    if let Some(place) = world.region(region) {
        for (_, market) in place.markets.iter() {
            pots.push(pot(trade, plain, region, market))?;
        }
    }
    Ok(())
}

fn moved(trade: PlainTrade, held: u64, stock: u64, pieces: u64) -> (u64, u64) {
    match trade {
        PlainTrade::Sell => (held.wrapping_sub(pieces), stock.wrapping_add(pieces)),
        PlainTrade::Buy => (held.wrapping_add(pieces), stock.wrapping_sub(pieces)),
    }
}

fn money_after(trade: PlainTrade, person: PlainUnit, market: &Market, pieces: u64) -> u64 {
    match trade {
        PlainTrade::Sell => person
            .money
            .wrapping_add(pieces.wrapping_mul(u64::from(market.pays))),
        PlainTrade::Buy => person
            .money
            .wrapping_sub(pieces.wrapping_mul(u64::from(market.price))),
    }
}

fn entry_of(trade: PlainTrade) -> BooksEntry {
    match trade {
        PlainTrade::Sell => BooksEntry::Sold,
        PlainTrade::Buy => BooksEntry::Bought,
    }
}

pub(crate) fn pay(
    trade: PlainTrade,
    world: &World,
    plain: &mut PlainCampaign,
    given: UnitShare,
) -> Result<(), AllocError> {
    let Some(person) = plain.find_unit(given.unit) else {
        return Ok(());
    };
    let item = u16::try_from(given.thing).unwrap_or(0);
    let Some(market) = world.market(person.region, item) else {
        return Ok(());
    };
    let held = plain.amount(given.unit, false, given.thing);
    let stock = plain.stock(person.region, given.thing);
    let (held, stock) = moved(trade, held, stock, given.amount);
    let money = money_after(trade, person, market, given.amount);
    plain.set_men_and_money(given.unit, person.men, money);
    plain.book(entry_of(trade), Thing::Money, person.money, money)?;
    plain.set_amount(PlainGood {
        unit: given.unit,
        is_skill: false,
        thing: given.thing,
        amount: held,
    })?;
    plain.set_stock(Stock {
        region: person.region,
        item: given.thing,
        amount: stock,
    })
}
