//! The tables of a world file as read, with names not looked up yet, and their look-up. A call that
//! may return a fault may also return `Memory`. Names are looked up once all tables are in their
//! ranges, and the records are then sound (`is_sound`). See docs/FORMATS.md, "The world file".
ghost use Rattle.std.specs.Prelude.{◌≡◌, ℕ, IfOk, map};
ghost use Rattle.std.specs.List.{All};
ghost use Rattle.atl_tables.specs.Drafts.{IsWorldDraft};
ghost use Rattle.atl_tables.specs.Each.{conditions_on_each};
ghost use Rattle.atl_tables.specs.EachIndex.{EachIndex};
ghost use Rattle.atl_tables.specs.Faults.{Conditions, first_fault};
ghost use Rattle.atl_tables.specs.Results.{Gives};
ghost use Rattle.atl_tables.specs.declared.world_draft.WorldDraft.{WorldDraft};

use crate::fault::WorldFault;
use crate::item_table::ItemDraft;
use crate::kind_table::KindDraft;
use crate::region_table::RegionDraft;
use crate::rules_table::RulesDraft;
use crate::terrain_table::TerrainDraft;
use atl_world::{Sequence, Skill, let_go};
use std::alloc::Global;

/// All tables of a world file as read, with names not looked up yet.
pub struct WorldDraft {
    pub rules: RulesDraft,
    pub terrains: Sequence<TerrainDraft>,
    pub items: Sequence<ItemDraft>,
    pub skills: Sequence<Skill>,
    pub kinds: Sequence<KindDraft>,
    pub regions: Sequence<RegionDraft>,
}

impl WorldDraft {
    /// The skills, which need no look-up, taken out of the tables.
    pub(crate) fn into_skills(self) -> Sequence<Skill>
        ensures { result ≡ self.skills }
    {
        let WorldDraft {
            rules: _,
            terrains: _,
            items: _,
            skills,
            kinds: _,
            regions: _,
        } = self;
        skills
    }
}

impl Drop for WorldDraft {
    fn drop(self) {
        let_go!(self: WorldDraft { rules, terrains, items, skills, kinds, regions });
    }
}

/// A table as read, with names not looked up yet, that becomes a record of the world.
pub(crate) trait Draft: Drop {
    /// The record of the world that the table becomes.
    type Record: Drop;

    // What is true of each table as read: names keep the rule of names, and numbers their ranges.
    ghost is_draft: { Self → Type 0 };
    // The conditions that each name in the i-th table is the name of a thing.
    ghost unknown: { WorldDraft → ℕ → Self → Conditions };

    // The record that the table becomes, if the conditions on its names hold.
    ghost record_of: { WorldDraft → Self → Self.Record };

    // What is true of the record that the i-th table of its array becomes: it is in its ranges, and
    // refers only to things of the world.
    ghost is_sound: { WorldDraft → ℕ → Self.Record → Type 0 };

    /// The record that the i-th table of its array becomes, with the names looked up in `all`, else
    /// the fault UnknownName at the first name that refers to nothing.
    fn resolve(&self, alloc: Global, all: &WorldDraft, i: usize) -> Result<Self::Record, WorldFault>
        requires all { IsWorldDraft all.now }
        requires draft { is_draft self.now }
        ensures value { Gives (λ x. x) result (first_fault (unknown all.now i self.now))
            (record_of all.now self.now) }
        ensures sound { IfOk result (λ x. is_sound all.now i x) };
}

/// The records of all tables of an array, else the fault UnknownName at the first name that refers
/// to nothing.
pub(crate) fn resolve_all<D: Draft>(
    alloc: Global,
    all: &WorldDraft,
    drafts: &[D],
) -> Result<Sequence<D::Record>, WorldFault>
    requires all { IsWorldDraft all.now }
    requires drafts { All D.is_draft drafts.now }
    ensures value { Gives (λ v. v) result (first_fault
        (conditions_on_each (D.unknown all.now) 0 drafts.now))
        (map (D.record_of all.now) drafts.now) }
    ensures sound { IfOk result (λ v. EachIndex (D.is_sound all.now) v) }
{
    let mut records = Sequence::new(alloc);
    for i in 0..drafts.len() {
        let record = drafts[i].resolve(alloc, all, i)?;
        records.push(record)?;
    }
    Ok(records)
}
