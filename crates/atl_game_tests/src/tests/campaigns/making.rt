//! Makes the campaigns, units and structures that the tests start from. The island is the world
//! `ISLE` of atl_test_worlds.
ghost use Rattle.std.specs.Prelude.{IfOk};
ghost use Rattle.atl_campaign.specs.Good.{IsGood};

use atl_campaign::{Campaign, Holding, LAST_UNIT, MOST_STRUCTURES, Structure, Unit, founded};
use atl_tables::read_world;
use atl_world::{Numbered, Text, World};
use std::alloc::Global;
use std::test::Fail;

/// The number of the island's region Far, a forest by the sea.
pub(crate) const FAR: u32 = 3;

pub(crate) const BOAT: u16 = 0;

pub(crate) const LODGE: u16 = 1;

pub(crate) fn founded_in(alloc: Global, world: &World) -> Result<Campaign, Fail>
    ensures { IfOk result (λ campaign. IsGood world.now campaign.value) }
{
    Ok(founded(alloc, world, b"gm")?)
}

/// The faction Avalon joins, with 1 as the word of the dice; returns its number and its unit's.
pub(crate) fn avalon_joins(world: &World, campaign: &mut Campaign) -> Result<(u32, u32), Fail>
    requires { IsGood world.now campaign.old.value }
{
    Ok(campaign.join(world, b"Avalon", b"pw", 1)?)
}

pub(crate) fn joined_in(alloc: Global, world: &World) -> Result<Campaign, Fail> {
    let mut campaign = founded_in(alloc, world)?;
    avalon_joins(world, &mut campaign)?;
    Ok(campaign)
}

pub(crate) fn founded_by(alloc: Global, text: &str) -> Result<Campaign, Fail> {
    let world = read_world(alloc, text)?;
    founded_in(alloc, &world)
}

pub(crate) fn joined_by(alloc: Global, text: &str) -> Result<Campaign, Fail> {
    let world = read_world(alloc, text)?;
    joined_in(alloc, &world)
}

pub(crate) fn one_man(alloc: Global) -> Result<Holding, Fail> {
    let name = Text::from_str(alloc, "A man")?;
    Ok(Holding::new(name, 1, 0, Numbered::new(alloc), Numbered::new(alloc)))
}

/// Adds a unit of one man of a faction to region Far, in no structure, and returns its number.
pub(crate) fn man_comes(alloc: Global, campaign: &mut Campaign, faction: u32) -> Result<u32, Fail> {
    if campaign.next_unit() > LAST_UNIT || campaign.unit(campaign.next_unit()).is_some() {
        return Err(Fail::new("a free number"));
    }
    let holding = one_man(alloc)?;
    Ok(campaign.begin_unit(Unit {
        faction,
        region: FAR,
        structure: 0,
        holding,
    })?)
}

/// Adds a structure of a kind to region Far, without an owner and with 2 of its size done, and
/// returns its number.
pub(crate) fn structure_begins(
    alloc: Global,
    campaign: &mut Campaign,
    kind: u16,
) -> Result<u32, Fail> {
    if campaign.next_structure() > MOST_STRUCTURES
        || campaign.structure(campaign.next_structure()).is_some()
    {
        return Err(Fail::new("a free number"));
    }
    let name = Text::from_str(alloc, "A structure")?;
    Ok(campaign.begin_structure(Structure {
        kind,
        name,
        region: FAR,
        done: 2,
        owner: 0,
    })?)
}
