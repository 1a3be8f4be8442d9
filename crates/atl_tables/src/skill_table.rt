//! Reads the tables `[[skill]]`. A call that may return a fault may also return `Memory`. See
//! docs/FORMATS.md, "The world file".
ghost use Rattle.atl_world.specs.Worlds.{IsSkill};
ghost use Rattle.atl_tables.specs.SkillTable.{skill_keys, skill_from};

use crate::elements::FromTable;
use crate::fault::WorldFault;
use crate::keys;
use atl_world::limits::MOST_PRICE;
use atl_world::{Skill, Text};
use std::alloc::Global;
use toml::Table;

/// Reads all keys of a table `[[skill]]`, its name and its fee, into the record of the world at
/// once, since a skill refers to no other thing by name.
impl FromTable for Skill {
    ghost conditions = { skill_keys };

    ghost record_of = { skill_from };

    ghost is_sound = { IsSkill };

    #[tactic(auto, unfolding(crate::specs::SkillTable::skill_at))]
    fn read(alloc: Global, at: &str, table: &Table) -> Result<Skill, WorldFault> {
        let name = keys::name(alloc, "name", at, table)?;
        let fee = keys::number(alloc, 0, MOST_PRICE, "fee", at, table)?;
        Ok(Skill { name, fee })
    }
}
