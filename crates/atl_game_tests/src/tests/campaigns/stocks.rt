//! Tests of the stocks of a region's market.
use super::making::joined_by;
use super::shown::{Question, Row, assert_steps};
use super::steps::{RegionChange, Step, UnitChange};
use atl_campaign::Thing;
use atl_test_worlds::WOOD_MARKET;
use std::test::Fail;

/// The question how much wood all units and regions hold.
const ALL_WOOD: Question = Question::Total(Thing::Item(0));

/// The question how much wood region 1 has in stock.
const STOCK: Question = Question::Stock(1, 0);

/// Steps that give unit 1 wood and then set stocks of wood: setting a stock marks this stock alone.
/// Setting the same amount marks nothing, an amount of 0 is not listed, and in a region that isn't
/// there nothing changes.
static WOOD: [Row; 11] = [
    (Step::Unmark, ALL_WOOD, "0", "0"),
    (
        Step::Unit(1, UnitChange::LentItem(0, 3)),
        ALL_WOOD,
        "3",
        "1, units [1], rows [1], goods [1]",
    ),
    (
        Step::Region(1, RegionChange::Stock(0, 25)),
        ALL_WOOD,
        "28",
        "2, units [1], rows [1], goods [1], stock 0 of region 1",
    ),
    (Step::Unmark, STOCK, "25 of 1", "0"),
    (
        Step::Region(1, RegionChange::Stock(0, 30)),
        STOCK,
        "30 of 1",
        "1, stock 0 of region 1",
    ),
    (Step::Unmark, STOCK, "30 of 1", "0"),
    (
        Step::Region(1, RegionChange::Stock(0, 30)),
        STOCK,
        "30 of 1",
        "0",
    ),
    (
        Step::Region(1, RegionChange::Stock(0, 0)),
        STOCK,
        "0 of 0",
        "1, stock 0 of region 1",
    ),
    (Step::Unmark, STOCK, "0 of 0", "0"),
    (
        Step::Region(9, RegionChange::Stock(0, 5)),
        Question::Stock(9, 0),
        "0 nowhere",
        "0",
    ),
    (Step::Nothing, STOCK, "0 of 0", "0"),
];

#[test]
fn stocks_are_counted(rt: HostRuntime) -> Result<(), Fail> {
    let mut campaign = joined_by(rt.alloc(), WOOD_MARKET)?;
    assert_steps(&rt, rt.alloc(), &mut campaign, &WOOD)
}
