//! How much of an item a unit can make, and making it. `asked` is the number of the item that an
//! order names, if it names one. See docs/RULES.md, "Producing".
ghost use Rattle.std.specs.Prelude.{ℕ, ◌≡◌, ◌≤◌, ◌*◌, IfSome, OnOk, is_some, true};
ghost use Rattle.std.specs.Option.{option_copied};
ghost use Rattle.atl_world.specs.Limits.{most_amount};
ghost use Rattle.atl_campaign.specs.Covers.{MarksChanges};
ghost use Rattle.atl_records.specs.Limits.{holding_limit};
ghost use Rattle.atl_market.specs.Making.{CanMakeOf, CanUse};
ghost use Rattle.atl_market.specs.Produce.{is_unskilled, item_of, is_raw_missing, produce_fault, most_makeable, most_makeable_of, up_to_raw, with_item_made, with_raw_used};

use crate::goods::{make_item, use_item};
use atl_campaign::{Campaign, EventFault, HOLDING_LIMIT, Holding, level_in_any};
use atl_world::{Item, World};
use std::alloc::AllocError;

pub(crate) fn item_of(world: &World, asked: Option<u16>) -> Option<&Item>
    ensures value { option_copied result ≡ item_of world.now asked }
    ensures bounds { IfSome result (λ item. 1 ≤ item.now.raw_count) }
{
    world.item(asked?)
}

fn is_unskilled(holding: &Holding, item: &Item) -> bool
    ensures { result ≡ is_unskilled holding.now item.now }
{
    item.skill.is_none() || level_in_any(holding, item.skill) < item.level
}

fn is_raw_missing(holding: &Holding, count: u32, raw: Option<u16>) -> bool
    requires { 1 ≤ count }
    ensures { result ≡ is_raw_missing holding.now count raw }
{
    match raw {
        Some(raw) => holding.amount(u32::from(raw)) / count == 0,
        None => false,
    }
}

fn up_to_raw(holding: &Holding, count: u32, raw: Option<u16>, most: u32) -> u32
    requires { 1 ≤ count }
    ensures value { result ≡ up_to_raw holding.now count raw most }
    ensures bound { result ≤ most }
{
    match raw {
        Some(raw) => (holding.amount(u32::from(raw)) / count).min(most),
        None => most,
    }
}

/// The first fault of PRODUCE after NotYours, if there is one: NoMen, NoSkill, NoMaterial; without
/// an item of the world NoMen, else NoSkill.
pub(crate) fn produce_fault(
    world: &World,
    holding: &Holding,
    asked: Option<u16>,
) -> Option<EventFault>
    ensures { result ≡ produce_fault holding.now (item_of world.now asked) }
{
    if holding.men() == 0 {
        return Some(EventFault::NoMen);
    }
    let Some(item) = item_of(world, asked) else {
        return Some(EventFault::NoSkill);
    };
    if is_unskilled(holding, item) {
        return Some(EventFault::NoSkill);
    }
    is_raw_missing(holding, item.raw_count, item.raw).then_some(EventFault::NoMaterial)
}

fn most_makeable_of(holding: &Holding, number: u16, item: &Item) -> u32
    requires { 1 ≤ item.now.raw_count }
    ensures value { result ≡ most_makeable_of holding.now number item.now }
    ensures bound { result ≤ most_amount }
{
    let skilled = holding.men() * level_in_any(holding, item.skill);
    let room = HOLDING_LIMIT.saturating_sub(holding.amount(u32::from(number)));
    up_to_raw(holding, item.raw_count, item.raw, skilled.min(room))
}

/// The most (up to 999,999,999) that a unit can make of its order's item, which the world has.
pub(crate) fn most_makeable(world: &World, holding: &Holding, asked: Option<u16>) -> u32
    requires { is_some (item_of world.now asked) ≡ true }
    ensures value { result ≡ most_makeable world.now holding.now asked }
    ensures bound { result ≤ most_amount }
{
    match (asked, item_of(world, asked)) {
        (Some(number), Some(item)) => most_makeable_of(holding, number, item),
        _ => unreachable!(),
    }
}

/// Unit `number` uses up the raw items for `made` pieces of `item`, if any. It can use them
/// (`can`), and they are at most 999,999,999. AllocError may leave the campaign changed in part.
fn use_raw(
    world: &World,
    campaign: &mut Campaign,
    number: u32,
    item: &Item,
    made: u32,
) -> Result<(), AllocError>
    requires can { (r : ℕ) → item.now.raw ≡ Some r
        → CanUse world.now campaign.old.value number r (made * item.now.raw_count) }
    requires fits { (r : ℕ) → item.now.raw ≡ Some r → made * item.now.raw_count ≤ holding_limit }
    ensures what { OnOk result
        (campaign.new.value ≡ with_raw_used campaign.old.value number (made * item.now.raw_count)
        item.now.raw) }
    ensures marks { OnOk result (MarksChanges campaign.old campaign.new) }
{
    match item.raw {
        Some(raw) => use_item(world, campaign, number, raw, made * item.raw_count),
        None => Ok(()),
    }
}

/// Unit `number` makes `made` pieces of the item `found`, of number `item`, and uses up the raw
/// items for them, if any. It can (`CanMakeOf`). AllocError may leave the campaign changed in part.
pub(crate) fn make(
    world: &World,
    campaign: &mut Campaign,
    number: u32,
    item: u16,
    found: &Item,
    made: u32,
) -> Result<(), AllocError>
    requires { CanMakeOf world.now campaign.old.value number made item found.now }
    ensures what { OnOk result
        (campaign.new.value ≡ with_item_made campaign.old.value number made item found.now) }
    ensures marks { OnOk result (MarksChanges campaign.old campaign.new) }
{
    use_raw(world, campaign, number, found, made)?;
    make_item(world, campaign, number, item, made)?;
    Ok(())
}
