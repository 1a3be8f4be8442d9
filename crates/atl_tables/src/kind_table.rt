//! Reads the tables `[[kind]]` and looks up the items and skills that they name. A call that may
//! return a fault may also return `Memory`. See docs/FORMATS.md, "The world file".
ghost use Rattle.std.specs.Prelude.{length};
ghost use Rattle.atl_tables.specs.Drafts.{AreBuildingNeeds, IsPurpose, IsKindDraft};
ghost use Rattle.atl_tables.specs.KeyByKey.{conditions_of, value_of};
ghost use Rattle.atl_tables.specs.KindTable.{building_needs_at, purpose_at, kind_keys, kind_from, kind_known, kind_of};
ghost use Rattle.atl_world.specs.Worlds.{IsKind};

use crate::elements::FromTable;
use crate::fault::WorldFault;
use crate::keys::{self, element_path};
use crate::titles::{known_number, known_number_or_none};
use crate::world_draft::{Draft, WorldDraft};
use atl_world::limits::{LAST_LEVEL, MOST_AMOUNT, MOST_SIZE};
use atl_world::{Kind, Text, Titled, let_go};
use std::alloc::Global;
use toml::Table;

/// What building a structure takes, with its material and its skill by name.
pub struct BuildingNeeds {
    pub material: Text,
    /// How much material makes the structure complete, from 1 to `MOST_SIZE`.
    pub size: u32,
    pub skill: Text,
    /// The level of the skill that building the structure takes, from 1 to `LAST_LEVEL`.
    pub level: u32,
}

impl Drop for BuildingNeeds {
    fn drop(self) {
        let_go!(self: BuildingNeeds { material, size, skill, level });
    }
}

/// What a structure is good for: its capacity, its crew, and the skill that it helps, by name.
#[derive(Drop)]
pub struct Purpose {
    /// The most weight with which a ship sails, at most `MOST_AMOUNT`; 0 where the file has none.
    pub capacity: u32,
    /// The least sum of men times their level of sailing with which a ship sails, at most
    /// `MOST_SIZE`; 0 where the file has none.
    pub crew: u32,
    /// The name of the skill that units inside the structure study better, where there is one.
    pub helps: Option<Text>,
}

/// A table `[[kind]]` as read, with the material and the skills by name.
pub struct KindDraft {
    /// The kind's name as the file writes it; it keeps the rule of names.
    pub name: Text,
    /// Whether the structure is a ship, else it is a building.
    pub ship: bool,
    pub building: BuildingNeeds,
    pub purpose: Purpose,
}

impl Drop for KindDraft {
    fn drop(self) {
        let_go!(self: KindDraft { name, ship, building, purpose });
    }
}

impl FromTable for BuildingNeeds {
    ghost conditions = { conditions_of building_needs_at };

    ghost record_of = { value_of building_needs_at };

    ghost is_sound = { AreBuildingNeeds };

    #[tactic(auto, unfolding(crate::specs::KindTable::building_needs_at))]
    fn read(alloc: Global, at: &str, table: &Table) -> Result<BuildingNeeds, WorldFault> {
        let material = keys::text(alloc, "material", at, table)?;
        let size = keys::number(alloc, 1, MOST_SIZE, "size", at, table)?;
        let skill = keys::text(alloc, "skill", at, table)?;
        let level = keys::number(alloc, 1, LAST_LEVEL, "level", at, table)?;
        Ok(BuildingNeeds {
            material,
            size,
            skill,
            level,
        })
    }
}

impl FromTable for Purpose {
    ghost conditions = { conditions_of purpose_at };

    ghost record_of = { value_of purpose_at };

    ghost is_sound = { IsPurpose };

    #[tactic(auto, unfolding(crate::specs::KindTable::purpose_at))]
    fn read(alloc: Global, at: &str, table: &Table) -> Result<Purpose, WorldFault> {
        let capacity = keys::number_or(alloc, 0, 0, MOST_AMOUNT, "capacity", at, table)?;
        let crew = keys::number_or(alloc, 0, 0, MOST_SIZE, "crew", at, table)?;
        let helps = keys::optional_text(alloc, "helps", at, table)?;
        Ok(Purpose {
            capacity,
            crew,
            helps,
        })
    }
}

impl FromTable for KindDraft {
    ghost conditions = { kind_keys };

    ghost record_of = { kind_from };

    ghost is_sound = { IsKindDraft };

    #[tactic(auto, unfolding(crate::specs::KindTable::kind_at))]
    fn read(alloc: Global, at: &str, table: &Table) -> Result<KindDraft, WorldFault> {
        let name = keys::name(alloc, "name", at, table)?;
        let ship = keys::flag(alloc, "ship", at, table)?;
        let building = BuildingNeeds::read(alloc, at, table)?;
        let purpose = Purpose::read(alloc, at, table)?;
        Ok(KindDraft {
            name,
            ship,
            building,
            purpose,
        })
    }
}

impl Titled for KindDraft {
    ghost title_of = { λ x. x.name };

    fn title(&self) -> &Text {
        &self.name
    }
}

impl Draft for KindDraft {
    type Record = Kind;

    ghost is_draft = { IsKindDraft };

    ghost unknown = { kind_known };

    ghost record_of = { kind_of };

    ghost is_sound = { λ all i x. IsKind (length all.items) (length all.skills) x };

    #[tactic(auto, unfolding(crate::specs::KindTable::kind_known, crate::specs::KindTable::kind_of))]
    fn resolve(&self, alloc: Global, all: &WorldDraft, i: usize) -> Result<Kind, WorldFault> {
        let element = element_path(alloc, "kind", i)?;
        let at = element.as_str();
        let skills = all.skills.as_slice();
        let building = &self.building;
        let purpose = &self.purpose;
        let material = known_number(
            alloc,
            all.items.as_slice(),
            "material",
            at,
            &building.material,
        )?;
        let skill = known_number(alloc, skills, "skill", at, &building.skill)?;
        let helps = known_number_or_none(alloc, skills, "helps", at, &purpose.helps)?;
        let name = self.name.copy(alloc)?;
        Ok(Kind {
            name,
            ship: self.ship,
            material,
            size: building.size,
            skill,
            level: building.level,
            capacity: purpose.capacity,
            crew: purpose.crew,
            helps,
        })
    }
}
