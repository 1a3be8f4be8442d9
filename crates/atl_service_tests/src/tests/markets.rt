//! Tests of a market over three months: it is stocked, sells to a unit, and buys nothing when full.
use super::closing::MONTH_ONE;
use super::commands::JOIN_OF_AVALON;
use super::script::{CommandSpec, Step, play};
use super::tables::{FORMAT, GOODS, MONEY, MONTH, REGION_MONEY, STOCK, STOCKED};
use atl_test_worlds::WOOD_MARKET;
use std::test::Fail;

/// Avalon's first report, with an empty market.
const NOTHING_IN_STOCK: &str = "Atlantis report, month 0, faction 1 \"Avalon\".
Orders:
None.
Region 1 \"Vale\", plain: 1000 peasants, 500 money.
Exits: none.
Market wood: 0 in stock at 7, 30 wanted at 5.
* Unit 1 \"Unit 1\": 1 men, 1000 money.
";

const BUYS: CommandSpec = CommandSpec::Mail(1, "pw", "#ATLANTIS 1\nUNIT 1\nBUY 3 wood\n");

/// Avalon's report on month 2: of 20 wood in stock 3 are bought for 7 each, and then the market is
/// stocked up to its limit of 30.
const AFTER_BUYING: &str = "Atlantis report, month 2, faction 1 \"Avalon\".
Orders:
Unit 1, line 3, BUY: done 3.
Unit 1, line 0, WORK: done 12.
Region 1 \"Vale\", plain: 1000 peasants, 2500 money.
Exits: none.
Market wood: 30 in stock at 7, 0 wanted at 5.
* Unit 1 \"Unit 1\": 1 men, 983 money, 3 wood.
";

const BOOKS_AFTER_BUYING: &str = "money founding 500
money joining 1000
money income 2000
money wages 24
money upkeep -20
money bought -21
money total 3483
people founding 1000
people joining 1
people total 1001
item \"wood\" stocked 33
item \"wood\" total 33
";

const SELLS: CommandSpec = CommandSpec::Mail(1, "pw", "#ATLANTIS 1\nUNIT 1\nSELL 2 wood\n");

/// Avalon's report on month 3: the market is full and buys nothing.
const AFTER_SELLING: &str = "Atlantis report, month 3, faction 1 \"Avalon\".
Orders:
Unit 1, line 3, SELL: done 0.
Unit 1, line 0, WORK: done 12.
Region 1 \"Vale\", plain: 1000 peasants, 3500 money.
Exits: none.
Market wood: 30 in stock at 7, 0 wanted at 5.
* Unit 1 \"Unit 1\": 1 men, 985 money, 3 wood.
";

static STOCKED_ONCE: [Step; 3] = [
    Step::Joined(JOIN_OF_AVALON, 1, 1),
    Step::Answers(CommandSpec::Report(1, "pw"), NOTHING_IN_STOCK),
    Step::Closed(MONTH_ONE, 1),
];

static AFTER_STOCKING: [(&str, Option<i64>); 3] = [
    (FORMAT, Some(2)),
    (STOCKED, Some(1)),
    (STOCK, Some(20)),
];

static BEFORE_STOCKING: [(&str, Option<i64>); 2] = [(STOCKED, Some(0)), (STOCK, None)];

#[test]
fn a_market_is_stocked(rt: HostRuntime) -> Result<(), Fail> {
    play(&rt, rt.alloc(), WOOD_MARKET, &[], &BEFORE_STOCKING)?;
    play(&rt, rt.alloc(), WOOD_MARKET, &STOCKED_ONCE, &AFTER_STOCKING)
}

static TRADES: [Step; 9] = [
    Step::Joined(JOIN_OF_AVALON, 1, 1),
    Step::Closed(MONTH_ONE, 1),
    Step::Mailed(BUYS, 1, &[]),
    Step::Closed(CommandSpec::Close(2, "gm", &[0]), 2),
    Step::Answers(CommandSpec::Report(1, "pw"), AFTER_BUYING),
    Step::Books(BOOKS_AFTER_BUYING),
    Step::Mailed(SELLS, 1, &[]),
    Step::Closed(CommandSpec::Close(3, "gm", &[0]), 3),
    Step::Answers(CommandSpec::Report(1, "pw"), AFTER_SELLING),
];

static AFTER_TRADES: [(&str, Option<i64>); 6] = [
    (MONTH, Some(3)),
    (MONEY, Some(985)),
    (REGION_MONEY, Some(3500)),
    (GOODS, Some(3)),
    (STOCKED, Some(1)),
    (STOCK, Some(30)),
];

#[test]
fn a_unit_trades(rt: HostRuntime) -> Result<(), Fail> {
    play(&rt, rt.alloc(), WOOD_MARKET, &TRADES, &AFTER_TRADES)
}
