//! Reads world files: their tables, key by key, the names in them, and the faults.
#![tactic(auto)]

mod elements;
mod fault;
mod has_number;
mod item_table;
mod keys;
mod kind_table;
mod market_table;
mod neighbours;
mod output_table;
mod reading;
mod region_table;
mod regions;
mod rules_table;
mod same_worlds;
mod skill_table;
mod terrain_table;
mod titles;
mod world_draft;

pub use atl_world::{
    Direction, Format, Item, Kind, Market, RegionPlan, Rules, Sequence, Skill, Terrain, Text,
    World, name_ok, pass_ok, word_ok,
};
pub use fault::WorldFault;
pub use reading::{old_worlds_have_no_markets, read_old_world, read_world};
pub use same_worlds::are_same_but_for_markets;
