//! Tests of a world's markets in both formats, and of whether two worlds differ in their markets
//! alone. The world with one market has one region, and an item, a skill and a kind.
//! tests/program/worlds.py has more worlds that differ.
use super::worlds::{read_in, with_markets};
use crate::tests::compare::{assert_shown, assert_true};
use atl_tables::{are_same_but_for_markets, read_world};
use atl_test_worlds::SMALL_WORLD;
use atl_world::{Format, World};
use std::alloc::Global;
use std::process::Abort;
use std::test::Fail;

fn assert_markets(
    rt: &impl Abort,
    alloc: Global,
    format: Format,
    text: &str,
    wanted: &str,
) -> Result<(), Fail> {
    let world = read_in(alloc, format, text)?;
    let actual = [world.market(1, 0), world.market(1, 1), world.market(2, 0)];
    assert_shown(rt, alloc, "markets", &actual, wanted)
}

/// What `assert_markets` wants if region 1 has a market for item 0, and there is no other market.
const OF_WOOD: &str =
    "[Some(Market { item: 0, price: 7, pays: 5, limit: 30, restock: 20 }), None, None]";

#[test]
fn markets_in_both_formats(rt: HostRuntime) -> Result<(), Fail> {
    let text = with_markets(rt.alloc(), 1)?;
    assert_markets(&rt, rt.alloc(), Format::Second, text.as_str(), OF_WOOD)?;
    assert_markets(
        &rt,
        rt.alloc(),
        Format::First,
        text.as_str(),
        "[None, None, None]",
    )
}

/// `alone` says whether the two worlds are equal but for their markets.
fn assert_difference(
    rt: &impl Abort,
    alloc: Global,
    text: &str,
    world: &World,
    alone: bool,
) -> Result<(), Fail> {
    let other = read_world(alloc, text)?;
    assert_true(rt, are_same_but_for_markets(world, &other) == alone);
    Ok(())
}

#[test]
fn worlds_with_other_markets(rt: HostRuntime) -> Result<(), Fail> {
    let text = with_markets(rt.alloc(), 0)?;
    let world = read_world(rt.alloc(), with_markets(rt.alloc(), 1)?.as_str())?;
    assert_difference(&rt, rt.alloc(), text.as_str(), &world, true)?;
    assert_difference(&rt, rt.alloc(), SMALL_WORLD, &world, false)
}
