//! World texts by the names that scripts give them, and campaigns of these worlds.
ghost use Rattle.std.specs.Prelude.{◌≤◌, IsTrue, IfOk};
ghost use Rattle.atl_campaign.specs.Good.{IsGood};
ghost use Rattle.atl_records.specs.Limits.{most_things};
ghost use Rattle.atl_writing.specs.Arriving.{HasArrival};

use atl_campaign::{Campaign, founded};
use atl_tables::read_world;
use atl_test_worlds::{ISLE, ISLE_WITH_MARKET, ISLE_WITH_MARKETS, SMALL_WORLD};
use atl_world::{Text, World};
use std::alloc::Global;
use std::test::Fail;

/// The world text that scripts call `name`; a name that isn't listed here gives a text that is no
/// world.
pub(crate) fn world_text(name: &str) -> &'static str {
    match name {
        "small" => SMALL_WORLD,
        "isle" => ISLE,
        "isle with market" => ISLE_WITH_MARKET,
        "isle with markets" => ISLE_WITH_MARKETS,
        _ => "a = = b",
    }
}

fn founded_in(alloc: Global, world: &World) -> Result<Campaign, Fail>
    ensures { IfOk result (λ campaign. IsGood world.now campaign.value) }
{
    Ok(founded(alloc, world, b"gm")?)
}

pub(crate) fn founded_by(alloc: Global, text: &str) -> Result<Campaign, Fail> {
    let world = read_world(alloc, text)?;
    founded_in(alloc, &world)
}

fn welcome(alloc: Global, world: &World, campaign: &mut Campaign) -> Result<(), Fail>
    requires { IsGood world.now campaign.old.value }
{
    campaign.join(world, b"Avalon", b"pw", 0)?;
    let report = Text::from_str(alloc, "A report.\n")?;
    campaign.set_report(1, report)?;
    Ok(())
}

fn joined_in(alloc: Global, world: &World) -> Result<Campaign, Fail> {
    let mut campaign = founded_in(alloc, world)?;
    welcome(alloc, world, &mut campaign)?;
    Ok(campaign)
}

pub(crate) fn joined(alloc: Global) -> Result<Campaign, Fail> {
    let world = read_world(alloc, SMALL_WORLD)?;
    joined_in(alloc, &world)
}

/// Whether the books have at most 202 things (money, people and items), as `create` and
/// `write_changes` require.
pub(crate) fn has_few_things(campaign: &Campaign) -> bool
    ensures { IsTrue result → campaign.now.value.books.things ≤ most_things }
{
    campaign.things() <= 202
}

/// Whether a campaign has faction 1, its report and the unit numbered last, and books of money and
/// people, as `write_join` requires.
pub(crate) fn has_arrived(campaign: &Campaign) -> bool
    ensures { IsTrue result → HasArrival campaign.now.value 1 }
{
    campaign.things() >= 2
        && campaign.next_unit() >= 1
        && campaign.faction(1).is_some()
        && campaign.report(1).is_some()
        && campaign.unit(campaign.next_unit() - 1).is_some()
}
