//! Reads the tables `[[terrain]]` and looks up their outputs. A call that may return a fault may
//! also return `Memory`. See docs/FORMATS.md, "The world file".
ghost use Rattle.std.specs.Prelude.{length};
ghost use Rattle.atl_tables.specs.Drafts.{IsEconomy, IsTerrainDraft};
ghost use Rattle.atl_tables.specs.KeyByKey.{conditions_of, value_of};
ghost use Rattle.atl_world.specs.Worlds.{IsTerrain};
ghost use Rattle.atl_tables.specs.TerrainTable.{economy_at, terrain_keys, terrain_from, duplicate_output_keys, terrain_known, terrain_of};

use crate::elements::FromTable;
use crate::fault::WorldFault;
use crate::keys::{self, element_key_path};
use crate::output_table::{Output, amounts_of, keys_name_items, no_duplicate_keys, outputs};
use crate::titles::HasUniqueNames;
use crate::world_draft::{Draft, WorldDraft};
use atl_world::limits::{MOST_AMOUNT, MOST_PRICE};
use atl_world::{Sequence, Terrain, Text, Titled, let_go};
use std::alloc::Global;
use toml::Table;

/// The wage and the number of work places in a region of a terrain, and the most money and peasants
/// that the region grows to.
#[derive(Drop)]
pub struct Economy {
    /// Money that a month of work pays a man, from 1 to `MOST_PRICE`.
    pub wage: u32,
    /// How many men find work in a month, at most `MOST_AMOUNT`.
    pub places: u32,
    /// The most money that income brings a region to, at most `MOST_AMOUNT`.
    pub money_limit: u32,
    /// The most peasants that births bring a region to, at most `MOST_AMOUNT`.
    pub peasant_limit: u32,
}

/// A table `[[terrain]]` as read, with its output by names of items.
pub struct TerrainDraft {
    /// The terrain's name as the file writes it; it keeps the rule of names.
    pub name: Text,
    /// Whether the terrain is land, else it is water.
    pub land: bool,
    pub economy: Economy,
    /// What a region gives in a month, in the byte order of the items' names.
    pub output: Sequence<Output>,
}

impl Drop for TerrainDraft {
    fn drop(self) {
        let_go!(self: TerrainDraft { name, land, economy, output });
    }
}

impl FromTable for Economy {
    ghost conditions = { conditions_of economy_at };

    ghost record_of = { value_of economy_at };

    ghost is_sound = { IsEconomy };

    #[tactic(auto, unfolding(crate::specs::TerrainTable::economy_at, crate::specs::Keys::number_at))]
    fn read(alloc: Global, at: &str, table: &Table) -> Result<Economy, WorldFault> {
        let wage = keys::number(alloc, 1, MOST_PRICE, "wage", at, table)?;
        let places = keys::number(alloc, 0, MOST_AMOUNT, "places", at, table)?;
        let money_limit = keys::number(alloc, 0, MOST_AMOUNT, "money_limit", at, table)?;
        let peasant_limit = keys::number(alloc, 0, MOST_AMOUNT, "peasant_limit", at, table)?;
        Ok(Economy {
            wage,
            places,
            money_limit,
            peasant_limit,
        })
    }
}

impl FromTable for TerrainDraft {
    ghost conditions = { terrain_keys };

    ghost record_of = { terrain_from };

    ghost is_sound = { IsTerrainDraft };

    #[tactic(auto, unfolding(crate::specs::TerrainTable::terrain_at))]
    fn read(alloc: Global, at: &str, table: &Table) -> Result<TerrainDraft, WorldFault> {
        let name = keys::name(alloc, "name", at, table)?;
        let land = keys::flag(alloc, "land", at, table)?;
        let economy = Economy::read(alloc, at, table)?;
        let output = outputs(alloc, at, table)?;
        Ok(TerrainDraft {
            name,
            land,
            economy,
            output,
        })
    }
}

impl Titled for TerrainDraft {
    ghost title_of = { λ x. x.name };

    fn title(&self) -> &Text {
        &self.name
    }
}

impl Draft for TerrainDraft {
    type Record = Terrain;

    ghost is_draft = { IsTerrainDraft };

    ghost unknown = { terrain_known };

    ghost record_of = { terrain_of };

    ghost is_sound = { λ all i x. IsTerrain (length all.items) x };

    #[tactic(auto, unfolding(crate::specs::TerrainTable::terrain_known, crate::specs::TerrainTable::terrain_of))]
    fn resolve(&self, alloc: Global, all: &WorldDraft, i: usize) -> Result<Terrain, WorldFault> {
        let outputs = element_key_path(alloc, "terrain", i, "output")?;
        keys_name_items(alloc, all, outputs.as_str(), self.output.as_slice())?;
        let output = amounts_of(alloc, all.items.as_slice(), self.output.as_slice())?;
        let name = self.name.copy(alloc)?;
        Ok(Terrain {
            name,
            land: self.land,
            wage: self.economy.wage,
            places: self.economy.places,
            money_limit: self.economy.money_limit,
            peasant_limit: self.economy.peasant_limit,
            output,
        })
    }
}

impl HasUniqueNames for TerrainDraft {
    ghost no_duplicates = { duplicate_output_keys };

    #[tactic(auto, unfolding(crate::specs::TerrainTable::duplicate_output_keys))]
    fn no_duplicates_inside(&self, alloc: Global, i: usize) -> Result<(), WorldFault> {
        let outputs = element_key_path(alloc, "terrain", i, "output")?;
        no_duplicate_keys(alloc, outputs.as_str(), self.output.as_slice())
    }
}
