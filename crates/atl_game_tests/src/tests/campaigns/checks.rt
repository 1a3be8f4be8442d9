//! Tests of `check`: rows of a good campaign are accepted, and others get the number of the first
//! rule that they break.
use super::by_hand::{Rows, parts};
use crate::tests::compare::{assert_amount, assert_count, assert_row, assert_shown};
use atl_campaign::Campaign;
use atl_campaign::parts::Parts;
use atl_state::{CheckFault, check, check_as};
use atl_tables::read_world;
use atl_test_worlds::ISLE_WITH_MARKET;
use atl_world::{Format, World};
use std::alloc::Global;
use std::process::Abort;
use std::test::Fail;

const GOOD: Rows = Rows {
    asked: Format::Second,
    format: 2,
    pass: "gm",
    next_unit: 3,
    peasants: 1000,
    region_money: 500,
    gone: 0,
    faction: 2,
    region: 3,
    money: 1000,
    guard: 0,
    days: 0,
    lodge: 0,
    entry: 2,
    reports: 2,
    market: 1,
    item: 0,
    stock: 20,
    times: 1,
    stocked: 16,
    bought: 0,
};

/// The rows of a good campaign in the first format: those of `GOOD`, without a stock.
const OLD: Rows = Rows {
    asked: Format::First,
    format: 1,
    times: 0,
    ..GOOD
};

/// Cases: the rows of `GOOD`, all but the first with one value changed, and the number of the first
/// rule that they break, or 0 if they break none.
static CASES: [(Rows, u64); 15] = [
    (GOOD, 0),
    (Rows { days: 450, ..GOOD }, 0),
    (Rows { format: 3, ..GOOD }, 1),
    (
        Rows {
            peasants: -1,
            ..GOOD
        },
        2,
    ),
    (
        Rows {
            pass: "a b",
            ..GOOD
        },
        3,
    ),
    (Rows { faction: 9, ..GOOD }, 4),
    (
        Rows {
            next_unit: 2,
            ..GOOD
        },
        5,
    ),
    (Rows { days: 451, ..GOOD }, 6),
    (Rows { gone: 1, ..GOOD }, 7),
    (Rows { lodge: 1, ..GOOD }, 8),
    (Rows { region: 2, ..GOOD }, 9),
    (Rows { guard: 1, ..GOOD }, 10),
    (
        Rows {
            money: 1001,
            ..GOOD
        },
        11,
    ),
    (Rows { entry: 99, ..GOOD }, 11),
    (Rows { reports: 1, ..GOOD }, 12),
];

/// Cases of the market's rows and of the books: the rows of `GOOD` or of `OLD`, most with values
/// changed, and the number of the first rule that they break, or 0.
static MARKET_CASES: [(Rows, u64); 14] = [
    (GOOD, 0),
    (
        Rows {
            bought: -7,
            region_money: 493,
            ..GOOD
        },
        0,
    ),
    (OLD, 0),
    (Rows { format: 1, ..GOOD }, 1),
    (Rows { format: 2, ..OLD }, 1),
    (Rows { times: 1, ..OLD }, 1),
    (Rows { stock: 0, ..GOOD }, 2),
    (Rows { stock: 31, ..GOOD }, 2),
    (Rows { times: 2, ..GOOD }, 2),
    (Rows { item: 1, ..GOOD }, 4),
    (Rows { market: 2, ..GOOD }, 4),
    (Rows { stock: 19, ..GOOD }, 11),
    (
        Rows {
            stocked: 17,
            ..GOOD
        },
        11,
    ),
    (
        Rows {
            bought: -7,
            region_money: 493,
            ..OLD
        },
        11,
    ),
];

fn rule_of(checked: Result<Campaign, CheckFault>) -> u64 {
    match checked {
        Ok(_) => 0,
        Err(CheckFault::Damaged(rule)) => u64::from(rule.number()),
        Err(CheckFault::Memory) => 99,
    }
}

fn assert_rules(
    rt: &impl Abort,
    alloc: Global,
    world: &World,
    cases: &[(Rows, u64)],
) -> Result<(), Fail> {
    for (at, (rows, wanted)) in cases.iter().enumerate() {
        let actual = rule_of(check_as(alloc, world, parts(alloc, rows)?, rows.asked));
        assert_row(rt, at, actual, *wanted);
    }
    Ok(())
}

/// Checks rows that keep all rules, and returns their campaign.
pub(crate) fn checked(alloc: Global, world: &World, rows: Parts) -> Result<Campaign, Fail> {
    match check(alloc, world, rows) {
        Ok(campaign) => Ok(campaign),
        Err(_) => Err(Fail::new("the rows are those of a good campaign")),
    }
}

fn assert_island(rt: &impl Abort, campaign: &Campaign) {
    assert_count(rt, campaign.unit_count(), 2);
    assert_count(rt, campaign.faction_count(), 2);
    assert_count(rt, campaign.region_count(), 4);
    assert_count(rt, campaign.in_region(3).len(), 2);
    assert_amount(rt, campaign.stock(1, 0), 20);
    assert_count(rt, campaign.marks(), 0);
}

const STOCK: &str = "[StoredMarket { region: 1, item: 0, stock: 20 }]";

/// The rows have the stock in the second format, and none in the first.
fn assert_rows_come_back(
    rt: &impl Abort,
    alloc: Global,
    world: &World,
    first: &Campaign,
) -> Result<(), Fail> {
    let old = first.parts_as(Format::First)?;
    assert_shown(rt, alloc, "markets", old.markets.as_slice(), "[]")?;
    let rows = first.parts_as(Format::Second)?;
    assert_shown(rt, alloc, "markets", rows.markets.as_slice(), STOCK)?;
    let again = checked(alloc, world, rows)?;
    assert_island(rt, &again);
    Ok(())
}

fn assert_checked(rt: &impl Abort, alloc: Global, world: &World) -> Result<(), Fail> {
    let campaign = checked(alloc, world, parts(alloc, &GOOD)?)?;
    assert_island(rt, &campaign);
    assert_rows_come_back(rt, alloc, world, &campaign)
}

fn assert_judged_rows(rt: &impl Abort, alloc: Global, world: &World) -> Result<(), Fail> {
    assert_rules(rt, alloc, world, &CASES)?;
    assert_rules(rt, alloc, world, &MARKET_CASES)?;
    assert_checked(rt, alloc, world)
}

#[test]
fn the_first_broken_rule_is_reported(rt: HostRuntime) -> Result<(), Fail> {
    let world = read_world(rt.alloc(), ISLE_WITH_MARKET)?;
    assert_judged_rows(&rt, rt.alloc(), &world)
}
