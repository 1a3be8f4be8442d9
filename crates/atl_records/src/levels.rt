//! Levels of skills, and what units weigh and carry. A piece of an item weighs, and carries, up to
//! `most_weight`, and a unit's goods at most `most_u32 * most_weight * most_items`. Items have
//! numbers below `most_items`. See docs/RULES.md, "Levels and loads".
ghost use Rattle.std.specs.Prelude.{◌≡◌, ◌≤◌, ◌*◌, nat_le};
ghost use Rattle.atl_world.specs.Limits.{last_level, most_items, most_weight};
ghost use Rattle.atl_records.specs.Limits.{most_u32};
ghost use Rattle.atl_records.specs.Levels.{days_for, level_in, level_in_any, level_of, weight_of, carry_of, goods_weight, carried_by_goods, load_of, carried_by, measure_of, goods_measure};

use crate::holding::Holding;
use crate::limits::LEVEL_DAYS;
use atl_world::World;
use atl_world::limits::LAST_LEVEL;

/// Whether `days` days of `men` men together are enough for a level, which is at most `LAST_LEVEL`.
fn is_reached(level: u32, days: u32, men: u32) -> bool
    requires { level ≤ last_level }
    ensures { result ≡ nat_le (days_for level men) days }
{
    u64::from(LEVEL_DAYS * level * (level + 1)) * u64::from(men) <= u64::from(days)
}

/// The level of `men` men who have `days` days of study together: the greatest number `n` from 0
/// to 5 with `15 * n * (n + 1) * men` at most the days, and 0 without men. It takes no memory. See
/// docs/RULES.md, "Levels and loads".
#[tactic(auto, unfolding(crate::specs::Levels::level_of))]
pub fn level(days: u32, men: u32) -> u32
    ensures value { result ≡ level_of days men }
    ensures small { result ≤ last_level }
{
    if men == 0 {
        return 0;
    }
    let mut level = LAST_LEVEL;
    while !is_reached(level, days, men) {
        level -= 1;
    }
    level
}

/// The level, from 0 to 5, of a unit's men in a skill, by the days that they have studied it; 0
/// without men. It takes no memory. See docs/RULES.md, "Levels and loads".
pub fn level_in(holding: &Holding, skill: u16) -> u32
    ensures value { result ≡ level_in holding.now skill }
    ensures small { result ≤ last_level }
{
    level(holding.days_of(u32::from(skill)), holding.men())
}

/// The level, from 0 to 5, of a unit's men in a skill; 0 for no skill or men. It takes no memory.
pub fn level_in_any(holding: &Holding, skill: Option<u16>) -> u32
    ensures value { result ≡ level_in_any holding.now skill }
    ensures small { result ≤ last_level }
{
    match skill {
        Some(skill) => level_in(holding, skill),
        None => 0,
    }
}

/// The weight of one piece of an item, 0 if the world has no such item.
fn weight(world: &World, item: u32) -> u32
    ensures value { result ≡ weight_of world.now item }
    ensures small { result ≤ most_weight }
    ensures far { most_items ≤ item → result ≡ 0 }
{
    match world.items().get(item as usize) {
        Some(found) => found.weight,
        None => 0,
    }
}

/// The weight that one piece of an item carries, 0 if the world has no such item.
fn carriage(world: &World, item: u32) -> u32
    ensures value { result ≡ carry_of world.now item }
    ensures small { result ≤ most_weight }
    ensures far { most_items ≤ item → result ≡ 0 }
{
    match world.items().get(item as usize) {
        Some(found) => found.carry,
        None => 0,
    }
}

fn times(amount: u32, each: u32) -> u64
    requires { each ≤ most_weight }
    ensures value { result ≡ amount * each }
    ensures small { result ≤ most_u32 * most_weight }
{
    u64::from(amount) * u64::from(each)
}

/// Which property of goods is summed: their weight, or what they carry.
#[derive(Drop, Clone, Copy)]
enum Measure {
    Weight,
    Carry,
}

/// The weight of one piece of an item, or what it carries, as `of` says; 0 without such an item.
fn item_measure(world: &World, item: u32, of: Measure) -> u32
    ensures value { result ≡ measure_of of world.now item }
    ensures small { result ≤ most_weight }
    ensures far { most_items ≤ item → result ≡ 0 }
{
    match of {
        Measure::Weight => weight(world, item),
        Measure::Carry => carriage(world, item),
    }
}

/// The weight of a unit's goods, or what they carry, as `of` says.
fn goods_measure(world: &World, holding: &Holding, of: Measure) -> u64
    ensures value { result ≡ goods_measure of world.now holding.now }
    ensures small { result ≤ most_u32 * most_weight * most_items }
{
    let mut sum = 0;
    for (item, amount) in holding.items() {
        sum += times(*amount, item_measure(world, item, of));
    }
    sum
}

/// The weight of a unit's goods: the sum of amount times weight over the items that it holds. Money
/// weighs nothing. It takes no memory. See docs/RULES.md, "Levels and loads".
pub fn goods(world: &World, holding: &Holding) -> u64
    ensures value { result ≡ goods_weight world.now holding.now }
    ensures small { result ≤ most_u32 * most_weight * most_items }
{
    goods_measure(world, holding, Measure::Weight)
}

fn carried_by_goods(world: &World, holding: &Holding) -> u64
    ensures value { result ≡ carried_by_goods world.now holding.now }
    ensures small { result ≤ most_u32 * most_weight * most_items }
{
    goods_measure(world, holding, Measure::Carry)
}

/// The load of a unit: the weight of its men and of its goods. Money weighs nothing. It takes no
/// memory. See docs/RULES.md, "Levels and loads".
pub fn load(world: &World, holding: &Holding) -> u64
    ensures { result ≡ load_of world.now holding.now }
{
    u64::from(holding.men()) * u64::from(world.rules().man_weight) + goods(world, holding)
}

/// The weight that a unit can carry: what its men and its goods carry. It takes no memory. See
/// docs/RULES.md, "Levels and loads".
pub fn carry(world: &World, holding: &Holding) -> u64
    ensures { result ≡ carried_by world.now holding.now }
{
    u64::from(holding.men()) * u64::from(world.rules().man_carry) + carried_by_goods(world, holding)
}
