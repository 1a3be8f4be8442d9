//! Reads the tables `[[region]]` and looks up the terrains and items that they name. A call that
//! may return a fault may also return `Memory`. `at` is the path of the table, and i its index.
//! There are at most 2^16 terrains. See docs/FORMATS.md, "The world file".
ghost use Rattle.std.specs.Prelude.{◌≡◌, ◌≤◌, ◌<◌, IfOk, codes, length, map, unwrap_or};
ghost use Rattle.toml.specs.View.{table_view};
ghost use Rattle.atl_tables.specs.Drafts.{AreRegionBasics, IsOldRegion, IsRegionDraft};
ghost use Rattle.atl_tables.specs.Faults.{first_fault};
ghost use Rattle.atl_tables.specs.Keys.{path, element_path};
ghost use Rattle.atl_tables.specs.Results.{Gives};
ghost use Rattle.atl_tables.specs.RegionTable.{basics_keys, basics_from, side_keys, sides_from, old_region_keys, old_region_from, as_draft, region_keys, region_from, duplicate_market_items, region_known, region_of};
ghost use Rattle.atl_tables.specs.Titles.{number_of, name_is_known};
ghost use Rattle.atl_world.specs.Limits.{most_numbered};
ghost use Rattle.atl_world.specs.Worlds.{IsRegionPlan};

use crate::elements::FromTable;
use crate::fault::WorldFault;
use crate::has_number::{HasNumber, by_number};
use crate::keys::{self, element_key_path};
use crate::market_table::{MarketDraft, markets};
use crate::terrain_table::TerrainDraft;
use crate::titles::{HasUniqueNames, first_duplicate, number_of};
use crate::world_draft::{Draft, WorldDraft, resolve_all};
use atl_world::limits::{LAST_REGION, MOST_AMOUNT};
use atl_world::{RegionPlan, Sequence, Text, let_go};
use std::alloc::{AllocError, Global};
use toml::Table;

/// A region's number, name, terrain (by name), peasants and money.
pub struct RegionBasics {
    /// The region's number, from 1 to `LAST_REGION`.
    pub number: u32,
    /// The region's name as the file writes it; it keeps the rule of names.
    pub name: Text,
    pub terrain: Text,
    /// The region's peasants at founding, at most `MOST_AMOUNT`.
    pub peasants: u32,
    /// The region's money at founding, at most `MOST_AMOUNT`.
    pub money: u32,
}

impl Drop for RegionBasics {
    fn drop(self) {
        let_go!(self: RegionBasics { number, name, terrain, peasants, money });
    }
}

/// The numbers of a region's neighbours, from 1 to `LAST_REGION`; `None` on a side without one.
#[derive(Drop)]
pub struct Sides {
    pub north: Option<u32>,
    pub south: Option<u32>,
    pub east: Option<u32>,
    pub west: Option<u32>,
}

/// A table `[[region]]` of the first format as read, with its terrain by name.
#[derive(Drop)]
pub struct OldRegion {
    pub basics: RegionBasics,
    pub sides: Sides,
}

/// A table `[[region]]` as read by either format, with its terrain and the items of its markets by
/// name; by the first it has no markets.
pub struct RegionDraft {
    pub basics: RegionBasics,
    pub sides: Sides,
    /// The region's markets, in the order of the file.
    pub markets: Sequence<MarketDraft>,
}

impl Drop for RegionDraft {
    fn drop(self) {
        let_go!(self: RegionDraft { basics, sides, markets });
    }
}

impl FromTable for RegionBasics {
    ghost conditions = { basics_keys };

    ghost record_of = { basics_from };

    ghost is_sound = { AreRegionBasics };

    #[tactic(auto, unfolding(crate::specs::RegionTable::basics_keys, crate::specs::RegionTable::basics_from))]
    fn read(alloc: Global, at: &str, table: &Table) -> Result<RegionBasics, WorldFault> {
        let number = keys::number(alloc, 1, LAST_REGION, "number", at, table)?;
        let name = keys::name(alloc, "name", at, table)?;
        let terrain = keys::text(alloc, "terrain", at, table)?;
        let peasants = keys::number(alloc, 0, MOST_AMOUNT, "peasants", at, table)?;
        let money = keys::number(alloc, 0, MOST_AMOUNT, "money", at, table)?;
        Ok(RegionBasics {
            number,
            name,
            terrain,
            peasants,
            money,
        })
    }
}

#[tactic(auto, unfolding(crate::specs::RegionTable::side_keys, crate::specs::RegionTable::sides_from))]
fn read_sides(alloc: Global, at: &str, table: &Table) -> Result<Sides, WorldFault>
    ensures { Gives (λ s. s) result (first_fault (side_keys at.now (table_view table.now)))
        (sides_from at.now (table_view table.now)) }
{
    let north = keys::optional_number(alloc, 1, LAST_REGION, "north", at, table)?;
    let south = keys::optional_number(alloc, 1, LAST_REGION, "south", at, table)?;
    let east = keys::optional_number(alloc, 1, LAST_REGION, "east", at, table)?;
    let west = keys::optional_number(alloc, 1, LAST_REGION, "west", at, table)?;
    Ok(Sides {
        north,
        south,
        east,
        west,
    })
}

impl FromTable for OldRegion {
    ghost conditions = { old_region_keys };

    ghost record_of = { old_region_from };

    ghost is_sound = { IsOldRegion };

    #[tactic(auto, unfolding(crate::specs::RegionTable::old_region_keys, crate::specs::RegionTable::old_region_from))]
    fn read(alloc: Global, at: &str, table: &Table) -> Result<OldRegion, WorldFault> {
        let basics = RegionBasics::read(alloc, at, table)?;
        let sides = read_sides(alloc, at, table)?;
        Ok(OldRegion { basics, sides })
    }
}

impl FromTable for RegionDraft {
    ghost conditions = { region_keys };

    ghost record_of = { region_from };

    ghost is_sound = { IsRegionDraft };

    #[tactic(auto, unfolding(crate::specs::RegionTable::region_keys, crate::specs::RegionTable::region_from))]
    fn read(alloc: Global, at: &str, table: &Table) -> Result<RegionDraft, WorldFault> {
        let OldRegion { basics, sides } = OldRegion::read(alloc, at, table)?;
        let markets = markets(alloc, at, table)?;
        Ok(RegionDraft {
            basics,
            sides,
            markets,
        })
    }
}

pub(crate) fn without_markets(
    alloc: Global,
    regions: Sequence<OldRegion>,
) -> Result<Sequence<RegionDraft>, AllocError>
    ensures { IfOk result (λ drafts. drafts ≡ map as_draft regions) }
{
    let mut drafts = Sequence::new(alloc);
    for region in regions.into_vec() {
        let OldRegion { basics, sides } = region;
        drafts.push(RegionDraft {
            basics,
            sides,
            markets: Sequence::new(alloc),
        })?;
    }
    Ok(drafts)
}

impl HasUniqueNames for RegionDraft {
    ghost no_duplicates = { duplicate_market_items };

    #[tactic(auto, unfolding(crate::specs::RegionTable::duplicate_market_items))]
    fn no_duplicates_inside(&self, alloc: Global, i: usize) -> Result<(), WorldFault> {
        match first_duplicate(alloc, self.markets.as_slice())? {
            None => Ok(()),
            Some(k) => {
                let markets = element_key_path(alloc, "region", i, "market")?;
                let item = element_key_path(alloc, markets.as_str(), k, "item")?;
                Err(WorldFault::TwoNames(item))
            }
        }
    }
}

/// The number of the first terrain with `name`, ignoring ASCII case, else the fault UnknownName.
fn known_terrain(
    alloc: Global,
    terrains: &[TerrainDraft],
    i: usize,
    name: &Text,
) -> Result<u16, WorldFault>
    requires { length terrains.now ≤ most_numbered }
    ensures value { Gives (λ n. n) result
        (name_is_known (path (element_path (codes "region") i) (codes "terrain"))
        (number_of (λ d. d.name) terrains.now name.now))
        (unwrap_or (number_of (λ d. d.name) terrains.now name.now) 0) }
    ensures below { IfOk result (λ n. n < length terrains.now) }
{
    match number_of(terrains, name) {
        Some(number) => Ok(number),
        None => Err(WorldFault::UnknownName(element_key_path(alloc, "region", i, "terrain")?)),
    }
}

impl Draft for RegionDraft {
    type Record = RegionPlan;

    ghost is_draft = { IsRegionDraft };

    ghost unknown = { region_known };

    ghost record_of = { region_of };

    ghost is_sound = { λ all i x. IsRegionPlan (length all.terrains) (length all.items) x.number
        x };

    #[tactic(auto, unfolding(crate::specs::RegionTable::region_known, crate::specs::RegionTable::region_of))]
    fn resolve(&self, alloc: Global, all: &WorldDraft, i: usize) -> Result<RegionPlan, WorldFault> {
        let terrain = known_terrain(alloc, all.terrains.as_slice(), i, &self.basics.terrain)?;
        let markets = resolve_all(alloc, all, self.markets.as_slice())?;
        let markets = by_number(alloc, markets.into_vec())?;
        let name = self.basics.name.copy(alloc)?;
        Ok(RegionPlan {
            number: self.basics.number,
            name,
            terrain,
            peasants: self.basics.peasants,
            money: self.basics.money,
            north: self.sides.north,
            south: self.sides.south,
            east: self.sides.east,
            west: self.sides.west,
            markets,
        })
    }
}

impl HasNumber for RegionPlan {
    ghost own_number_of = { λ p. p.number };

    fn own_number(&self) -> u32 {
        self.number
    }
}
