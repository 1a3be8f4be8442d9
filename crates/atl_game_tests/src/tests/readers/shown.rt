//! Tests that the small world (one region) and the island (three regions of land, one of sea) are
//! read in full, part by part.
use crate::tests::compare::{assert_count, assert_numbers, assert_shown, assert_text_at};
use atl_tables::read_world;
use atl_test_worlds::{ISLE, SMALL_WORLD};
use atl_world::{RegionPlan, World};
use std::alloc::Global;
use std::process::Abort;
use std::test::Fail;

/// All that a world must hold once read; lists as `Debug` prints them, and regions as `region_text`
/// prints them.
struct Shown {
    rules: &'static str,
    terrains: &'static str,
    items: &'static str,
    skills: &'static str,
    kinds: &'static str,
    land: &'static [u32],
    region_count: usize,
    regions: &'static [(u32, &'static str)],
}

static SMALL_SHOWN: Shown = Shown {
    rules: "[Rules { maintenance: 10, tax_per_man: 10, recruit_price: 50, recruit_fraction: 4, growth: 0, income: 1, \
        start_money: 1000, man_weight: 10, man_carry: 5, observation: None, stealth: None, sailing: None }]",
    terrains: "[Terrain { name: Text { string: \"plain\" }, land: true, wage: 12, places: 100, money_limit: 5000, \
        peasant_limit: 2000, output: Sequence { items: [] } }]",
    items: "[]",
    skills: "[]",
    kinds: "[]",
    land: &[1],
    region_count: 1,
    regions: &[
        (
            1,
            "1 Vale, terrain 0, 1000 peasants, 500 money, [None, None, None, None]",
        ),
        (2, "none"),
    ],
};

static ISLE_SHOWN: Shown = Shown {
    rules: "[Rules { maintenance: 10, tax_per_man: 10, recruit_price: 50, recruit_fraction: 4, growth: 0, income: 1, \
        start_money: 1000, man_weight: 10, man_carry: 5, observation: Some(5), stealth: Some(4), sailing: Some(3) }]",
    terrains: "[Terrain { name: Text { string: \"plain\" }, land: true, wage: 12, places: 100, money_limit: 5000, \
        peasant_limit: 2000, output: Sequence { items: [0, 0] } }, \
        Terrain { name: Text { string: \"forest\" }, land: true, wage: 10, places: 50, money_limit: 2000, \
        peasant_limit: 500, output: Sequence { items: [20, 0] } }, \
        Terrain { name: Text { string: \"ocean\" }, land: false, wage: 1, places: 0, money_limit: 0, \
        peasant_limit: 0, output: Sequence { items: [0, 0] } }]",
    items: "[Item { name: Text { string: \"wood\" }, weight: 5, carry: 0, skill: Some(0), level: 1, raw: None, raw_count: 1 }, \
        Item { name: Text { string: \"cart\" }, weight: 50, carry: 100, skill: Some(1), level: 1, raw: Some(0), raw_count: 5 }]",
    skills: "[Skill { name: Text { string: \"lumberjack\" }, fee: 0 }, \
        Skill { name: Text { string: \"carpentry\" }, fee: 10 }, \
        Skill { name: Text { string: \"shipbuilding\" }, fee: 20 }, \
        Skill { name: Text { string: \"sailing\" }, fee: 10 }, \
        Skill { name: Text { string: \"stealth\" }, fee: 20 }, \
        Skill { name: Text { string: \"observation\" }, fee: 20 }]",
    kinds: "[Kind { name: Text { string: \"boat\" }, ship: true, material: 0, size: 10, skill: 2, level: 1, capacity: 200, \
        crew: 2, helps: None }, \
        Kind { name: Text { string: \"lodge\" }, ship: false, material: 0, size: 20, skill: 1, level: 1, capacity: 0, \
        crew: 0, helps: Some(0) }]",
    land: &[1, 3, 4],
    region_count: 4,
    regions: &[
        (0, "none"),
        (
            1,
            "1 Shore, terrain 0, 1000 peasants, 500 money, [None, None, Some(2), None]",
        ),
        (
            2,
            "2 Sound, terrain 2, 0 peasants, 0 money, [None, None, Some(3), Some(1)]",
        ),
        (
            3,
            "3 Far, terrain 1, 200 peasants, 100 money, [Some(4), None, None, Some(2)]",
        ),
        (
            4,
            "4 Wood, terrain 1, 100 peasants, 50 money, [None, Some(3), None, None]",
        ),
        (5, "none"),
        (99_999, "none"),
        (4_294_967_295, "none"),
    ],
};

fn assert_lists(rt: &impl Abort, alloc: Global, world: &World, wanted: &Shown) -> Result<(), Fail> {
    assert_shown(rt, alloc, "rules", &[*world.rules()], wanted.rules)?;
    assert_shown(rt, alloc, "terrains", world.terrains(), wanted.terrains)?;
    assert_shown(rt, alloc, "items", world.items(), wanted.items)?;
    assert_shown(rt, alloc, "skills", world.skills(), wanted.skills)?;
    assert_shown(rt, alloc, "kinds", world.kinds(), wanted.kinds)
}

fn plan_text(alloc: Global, plan: &RegionPlan) -> Result<String, Fail> {
    let exits = [plan.north, plan.south, plan.east, plan.west];
    Ok(format!(in alloc;
        "{} {}, terrain {}, {} peasants, {} money, {exits:?}",
        plan.number,
        plan.name.as_str(),
        plan.terrain,
        plan.peasants,
        plan.money
    )?)
}

fn region_text(alloc: Global, world: &World, number: u32) -> Result<String, Fail> {
    match world.region(number) {
        Some(plan) => plan_text(alloc, plan),
        None => Ok(String::from_str(alloc, "none")?),
    }
}

fn assert_regions(
    rt: &impl Abort,
    alloc: Global,
    world: &World,
    wanted: &Shown,
) -> Result<(), Fail> {
    assert_numbers(rt, world.land(), wanted.land);
    assert_count(rt, world.regions().len(), wanted.region_count);
    for (number, region) in wanted.regions.iter() {
        assert_text_at(
            rt,
            region,
            region_text(alloc, world, *number)?.as_str(),
            region,
        );
    }
    Ok(())
}

fn assert_world(rt: &impl Abort, alloc: Global, text: &str, wanted: &Shown) -> Result<(), Fail> {
    let world = read_world(alloc, text)?;
    assert_lists(rt, alloc, &world, wanted)?;
    assert_regions(rt, alloc, &world, wanted)
}

#[test]
fn worlds_are_shown(rt: HostRuntime) -> Result<(), Fail> {
    assert_world(&rt, rt.alloc(), SMALL_WORLD, &SMALL_SHOWN)?;
    assert_world(&rt, rt.alloc(), ISLE, &ISLE_SHOWN)
}
