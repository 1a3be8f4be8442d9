//! SELL and BUY: units trade items with the markets of their regions. AllocError without memory;
//! the campaign may then be changed in part. See docs/RULES.md, "Selling" and "Buying".
ghost use Rattle.std.specs.Prelude.{◌≡◌, ◌≤◌, IfSome, OnOk, Some, true};
ghost use Rattle.std.specs.FinMap as finmap;
ghost use Rattle.std.specs.Option.{option_copied};
ghost use Rattle.atl_world.specs.Limits.{most_amount};
ghost use Rattle.atl_campaign.specs.Covers.{MarksChanges};
ghost use Rattle.atl_campaign.specs.Good.{IsEarly};
ghost use Rattle.atl_records.specs.declared.records.Unit.{Unit};
ghost use Rattle.atl_phase.specs.Meaning.{most_moved};
ghost use Rattle.atl_market.specs.Trade.{has_too_little, is_trade, limit_of, market_for, most_tradable, trade_entry, trade_fault, trade_keeps, trade_meaning, trade_moves, trade_of, trade_pot, trade_pots, trade_result_of, with_trade_booked};
ghost use Rattle.atl_market.specs.Trading.{CanAfford, CanBookTrade, CanTrade, MarketAllowsShare, IsPriced};
ghost use Rattle.atl_market.specs.PotPhase.{asks_count};
ghost use Rattle.atl_market.specs.AfterPots.{TradesAtOnce};

use crate::pot_phase::{PotPhase, named_count, named_item, share_out};
use crate::produce::world_is_well_formed;
use atl_campaign::{BooksEntry, Campaign, EventFault, HOLDING_LIMIT, Holding, Thing, Unit};
use atl_orders::Verb;
use atl_phase::{Arrangement, Month, Phase, PhaseOrder, PhaseResult, PhaseVerbs, add_events};
use atl_pots::{AskedPots, ItemPots, item_shares};
use atl_world::{Market, Numbered, World};
use std::alloc::{AllocError, Global};

/// The phase SELL or BUY: units sell items to the markets of their regions, or buy from them.
#[derive(Drop, Clone, Copy)]
pub struct TradePhase<const SELLS: bool>;

/// The phase SELL: units sell items to the markets of their regions. See docs/RULES.md, "Selling".
pub type SellPhase = TradePhase<true>;

/// The phase BUY: units buy items from the markets of their regions. See docs/RULES.md, "Buying".
pub type BuyPhase = TradePhase<false>;

/// Whether units sell to the markets of their regions or buy from them.
#[derive(Drop, Clone, Copy)]
pub(crate) enum Trade {
    Sell,
    Buy,
}

/// What a unit and its region's market have after the unit's trade, and the money to book for it.
#[derive(Drop, Clone, Copy)]
pub(crate) struct TradeResult {
    pub money: u32,
    pub amount: u32,
    pub stock: u32,
    /// The money to book: what the unit got by SELL, or, below 0, what it paid by BUY.
    pub booked: i64,
}

impl Trade {
    fn entry(self) -> BooksEntry
        ensures { result ≡ trade_entry self }
    {
        match self {
            Trade::Sell => BooksEntry::Sold,
            Trade::Buy => BooksEntry::Bought,
        }
    }
}

fn market_for<'a>(world: &'a World, unit: &Unit, item: Option<u16>) -> Option<&'a Market>
    ensures value { option_copied result ≡ market_for world.now unit.now item }
    ensures bounds { IfSome result (λ market. IsPriced market.now) }
{
    world.market(unit.region, item?)
}

fn has_too_little(trade: Trade, holding: &Holding, market: &Market) -> bool
    ensures { result ≡ has_too_little trade holding.now market.now }
{
    match trade {
        Trade::Sell => holding.amount(u32::from(market.item)) == 0,
        Trade::Buy => holding.money() < market.price,
    }
}

fn trade_fault(trade: Trade, holding: &Holding, market: Option<&Market>) -> Option<EventFault>
    ensures { result ≡ trade_fault trade holding.now (option_copied market.entry) }
{
    let Some(market) = market else {
        return Some(EventFault::NoMarket);
    };
    has_too_little(trade, holding, market).then_some(EventFault::NotEnough)
}

/// At most 999,999,999. The numbers of the market are within their bounds (`IsPriced`).
fn most_tradable(trade: Trade, holding: &Holding, market: &Market) -> u32
    requires { IsPriced market.now }
    ensures value { result ≡ most_tradable trade holding.now market.now }
    ensures bound { result ≤ most_amount }
{
    let held = holding.amount(u32::from(market.item));
    let money = holding.money();
    match trade {
        Trade::Sell => held.min(HOLDING_LIMIT.saturating_sub(money) / market.pays),
        Trade::Buy => (money / market.price).min(HOLDING_LIMIT.saturating_sub(held)),
    }
}

/// What unit and market have after trading a share. The unit can afford it (`holder`), the market
/// has room for it (SELL) or has it in stock (BUY), and its prices are at least 1 (`priced`).
fn trade_result_of(
    trade: Trade,
    holding: &Holding,
    stock: u32,
    share: u32,
    market: &Market,
) -> TradeResult
    requires holder { CanAfford trade holding.now share (Some market.now) }
    requires pot { MarketAllowsShare trade stock share (Some market.now) }
    requires priced { IsPriced market.now }
    ensures { result ≡ trade_result_of trade holding.now stock share market.now }
{
    let money = holding.money();
    let amount = holding.amount(u32::from(market.item));
    match trade {
        Trade::Sell => {
            let paid = share * market.pays;
            TradeResult {
                money: money + paid,
                amount: amount - share,
                stock: stock + share,
                booked: i64::from(paid),
            }
        }
        Trade::Buy => {
            let paid = share * market.price;
            TradeResult {
                money: money - paid,
                amount: amount + share,
                stock: stock - share,
                booked: -i64::from(paid),
            }
        }
    }
}

/// Sets the money of unit `number`, its amount of `item` and its region's stock of it as a trade
/// (`deal`) leaves them, and books the money under `entry`. The deal can be booked
/// (`CanBookTrade`). Where `region` isn't the unit's, nothing is promised of the campaign.
fn book_trade(
    campaign: &mut Campaign,
    number: u32,
    region: u32,
    item: u32,
    entry: BooksEntry,
    deal: TradeResult,
) -> Result<(), AllocError>
    requires { CanBookTrade campaign.old.value number entry deal }
    ensures what { OnOk result
        ((u : Unit) → finmap.get campaign.old.value.units number ≡ Some u → u.region ≡ region
        → campaign.new.value ≡ with_trade_booked campaign.old.value number u item entry deal) }
    ensures marks { OnOk result (MarksChanges campaign.old campaign.new) }
{
    campaign.set_money(number, deal.money);
    campaign.set_item(number, item, deal.amount)?;
    campaign.set_stock(region, item, deal.stock)?;
    campaign.book(entry, Thing::Money, deal.booked);
    Ok(())
}

fn limit_of(world: &World, item: u32, region: u32) -> u32
    ensures value { result ≡ limit_of world.now item region }
    ensures bound { result ≤ most_amount }
{
    let Some(plan) = world.region(region) else {
        return 0;
    };
    match plan.markets.get(item) {
        Some(market) => market.limit,
        None => 0,
    }
}

/// The pots of SELL or BUY, for each market: the limit less its stock (SELL), or its stock (BUY).
#[derive(Drop)]
struct MarketPots<'a> {
    trade: Trade,
    world: &'a World,
    campaign: &'a Campaign,
    items: &'a Numbered<u16>,
}

/// Each unit asks for the item that its order names.
impl<'a> AskedPots for MarketPots<'a> {
    ghost asked_by = { λ pots. finmap.get pots.items.now };

    fn asked(&self, unit: u32) -> Option<u32> {
        Some(u32::from(*self.items.get(unit)?))
    }
}

/// A region's pot of an item is what its market has room for (SELL) or has in stock (BUY).
impl<'a> ItemPots for MarketPots<'a> {
    ghost pot_of = { λ pots. trade_pot pots.trade pots.world.now pots.campaign.now.value };

    ghost ready = { λ pots. IsEarly pots.world.now pots.campaign.now.value };

    fn pot(&self, item: u32, region: u32) -> u64 {
        let stock = self.campaign.stock(region, item);
        world_is_well_formed(self.world);
        match self.trade {
            Trade::Sell => { u64::from(limit_of(self.world, item, region).saturating_sub(stock)) }
            Trade::Buy => u64::from(stock),
        }
    }
}

/// The fault, want and share of a unit in SELL or BUY, and its goods, money and region's stock
/// after the trade; the event says how many pieces were traded.
impl PotPhase for Trade {
    ghost meaning = { trade_pots };

    ghost needs = { λ _. IsEarly };

    ghost can_pay = { CanTrade };

    ghost asks = { λ what. asks_count what ≡ true };

    fn fault(&self, world: &World, unit: &Unit, order: PhaseOrder<'_>) -> Option<EventFault> {
        trade_fault(
            *self,
            &unit.holding,
            market_for(world, unit, named_item(order)),
        )
    }

    fn want(&self, world: &World, unit: &Unit, order: PhaseOrder<'_>) -> u32 {
        match market_for(world, unit, named_item(order)) {
            Some(market) => named_count(order).min(most_tradable(*self, &unit.holding, market)),
            None => unreachable!(),
        }
    }

    fn grants(
        &self,
        alloc: Global,
        world: &World,
        campaign: &Campaign,
        items: &Numbered<u16>,
        wants: &Numbered<u32>,
    ) -> Result<Numbered<u32>, AllocError> {
        let pots = MarketPots {
            trade: *self,
            world,
            campaign,
            items,
        };
        item_shares(alloc, campaign, &pots, wants)
    }

    fn event_number(&self, _world: &World, _unit: &Unit, share: u32) -> u64 {
        u64::from(share)
    }

    #[tactic(auto, unfolding(crate::specs::Trade::after_trade))]
    fn pay(
        &self,
        world: &World,
        campaign: &mut Campaign,
        items: &Numbered<u16>,
        number: u32,
        share: u32,
    ) -> Result<(), AllocError> {
        let Some(unit) = campaign.unit(number) else {
            return Ok(());
        };
        let Some(market) = market_for(world, unit, items.get(number).copied()) else {
            return Ok(());
        };
        let region = unit.region;
        let item = u32::from(market.item);
        let stock = campaign.stock(region, item);
        let deal = trade_result_of(*self, &unit.holding, stock, share, market);
        book_trade(campaign, number, region, item, self.entry(), deal)
    }
}

fn trade_of(sells: bool) -> Trade
    ensures { result ≡ trade_of sells }
{
    if sells { Trade::Sell } else { Trade::Buy }
}

impl<const SELLS: bool> PhaseVerbs for TradePhase<SELLS> {
    ghost is_of = { is_trade (trade_of SELLS) };

    fn has(&self, verb: Verb) -> bool {
        match trade_of(SELLS) {
            Trade::Sell => matches!(verb, Verb::Sell),
            Trade::Buy => matches!(verb, Verb::Buy),
        }
    }
}

impl<const SELLS: bool> Phase for TradePhase<SELLS> {
    ghost meaning = { trade_meaning (trade_of SELLS) };

    ghost needs = { IsEarly };

    ghost leaves = { IsEarly };

    ghost book_bound = { trade_moves (trade_of SELLS) most_moved };

    ghost keeps = { trade_keeps (trade_of SELLS) };

    fn run(
        &self,
        alloc: Global,
        world: &World,
        mut campaign: Campaign,
        mut month: Month,
    ) -> PhaseResult {
        let orders = month.orders(alloc, self, Arrangement::ByUnit)?;
        world_is_well_formed(world);
        let trade = trade_of(SELLS);
        let events = share_out(alloc, &trade, world, &mut campaign, &orders)?;
        drop(orders);
        add_events(&mut month, &events)?;
        Ok((campaign, month))
    }
}

/// The law that in a world (`IsWorld`) all units sell at once, and all buy at once, in any
/// campaign, by any orders. By SELL a unit gives its share of the item that it had as the phase
/// began and gets the money for it. A region's stock of an item grows by all that its units sold of
/// it. By BUY units get the item for money, and the stock falls. Nothing else changes of units and
/// regions. Does nothing. See docs/RULES.md, "Selling" and "Buying".
pub fn units_trade_all_at_once()
    ensures { TradesAtOnce }
{}
