//! Reads a world file. A call that may return a fault may also return `Memory`. `document` is the
//! file, and `all` has its tables as read, in their ranges. See docs/FORMATS.md, "The world file".
ghost use Rattle.std.specs.Prelude.{◌≡◌, ◌≤◌, ◌<◌, ◌++◌, length, IfOk};
ghost use Rattle.std.specs.List.{All};
ghost use Rattle.toml.specs.View.{table_view};
ghost use Rattle.atl_tables.specs.Drafts.{IsRegionDraft, AreOptionalTables, IsWorldDraft, ThingNamesDiffer};
ghost use Rattle.atl_tables.specs.Faults.{first_fault, Reads};
ghost use Rattle.atl_tables.specs.Results.{Gives};
ghost use Rattle.atl_world.specs.Limits.{most_regions};
ghost use Rattle.atl_tables.specs.OldWorlds.{OldWorldsHaveNoMarkets};
ghost use Rattle.atl_tables.specs.Parts.{AreWorldPartsOf, world_parts_of};
ghost use Rattle.atl_world.specs.Worlds.{IsWorld, is_land, land_of, world_of_parts};
ghost use Rattle.atl_world.specs.Sums.{numbers_where};
ghost use Rattle.atl_tables.specs.World.{optional_tables_of, regions_in, tables_of, world_of_tables, optional_conditions, regions_conditions, keys_conditions, titles_differ, names_differ, names_are_known, neighbours_are_mutual, is_some_land, table_conditions, document_conditions, world_of_text, world_of, old_world_of};

use crate::elements::{read_array, read_optional_array};
use crate::fault::WorldFault;
use crate::has_number::by_number;
use crate::item_table::ItemDraft;
use crate::kind_table::KindDraft;
use crate::neighbours::mutual_neighbours;
use crate::region_table::{OldRegion, RegionDraft, without_markets};
use crate::regions::no_duplicate_numbers;
use crate::rules_table::{resolve_rules, rules};
use crate::terrain_table::TerrainDraft;
use crate::titles::{no_duplicate_names, no_duplicates_inside};
use crate::world_draft::{WorldDraft, resolve_all};
use atl_world::limits::{MOST_ITEMS, MOST_KINDS, MOST_REGIONS, MOST_SKILLS, MOST_TERRAINS};
use atl_world::{Format, Item, Kind, Numbered, RegionPlan, Rules, Sequence, Skill, Terrain, World};
use std::alloc::{AllocError, Global};
use toml::Table;

/// The parts of a world except its skills, with names looked up, and regions in the file's order.
#[derive(Drop)]
pub struct WorldParts {
    pub rules: Rules,
    pub terrains: Sequence<Terrain>,
    pub items: Sequence<Item>,
    pub kinds: Sequence<Kind>,
    pub regions: Sequence<RegionPlan>,
}

/// The tables of items, skills and kinds as read, each of which a world file may leave out.
#[derive(Drop)]
pub struct OptionalTables {
    pub items: Sequence<ItemDraft>,
    pub skills: Sequence<Skill>,
    pub kinds: Sequence<KindDraft>,
}

#[tactic(auto, unfolding(crate::specs::World::optional_conditions, crate::specs::World::optional_tables_of))]
fn read_optional_tables(alloc: Global, document: &Table) -> Result<OptionalTables, WorldFault>
    ensures value { Gives (λ t. t) result
        (first_fault (optional_conditions (table_view document.now)))
        (optional_tables_of (table_view document.now)) }
    ensures sound { IfOk result AreOptionalTables }
{
    let items = read_optional_array::<ItemDraft>(alloc, MOST_ITEMS, "item", "item", document)?;
    let skills = read_optional_array::<Skill>(alloc, MOST_SKILLS, "skill", "skill", document)?;
    let kinds = read_optional_array::<KindDraft>(alloc, MOST_KINDS, "kind", "kind", document)?;
    Ok(OptionalTables {
        items,
        skills,
        kinds,
    })
}

/// The regions of the document as read, in the first format without markets, or the first fault.
#[tactic(auto, unfolding(crate::specs::World::regions_conditions, crate::specs::World::regions_in))]
fn read_regions(
    alloc: Global,
    format: Format,
    document: &Table,
) -> Result<Sequence<RegionDraft>, WorldFault>
    ensures value { Gives (λ v. v) result
        (first_fault (regions_conditions format (table_view document.now)))
        (regions_in format (table_view document.now)) }
    ensures sound { IfOk result (λ v. All IsRegionDraft v) }
    ensures most { IfOk result (λ v. length v ≤ most_regions) }
{
    match format {
        Format::First => {
            let regions = read_array::<OldRegion>(alloc, MOST_REGIONS, "region", document)?;
            Ok(without_markets(alloc, regions)?)
        }
        Format::Second => read_array::<RegionDraft>(alloc, MOST_REGIONS, "region", document),
    }
}

/// All tables of the document in a format, as read, else the first fault of a key or an array.
#[tactic(auto, unfolding(crate::specs::World::keys_conditions, crate::specs::World::tables_of))]
fn tables(alloc: Global, format: Format, document: &Table) -> Result<WorldDraft, WorldFault>
    ensures value { Gives (λ t. t) result
        (first_fault (keys_conditions format (table_view document.now)))
        (tables_of format (table_view document.now)) }
    ensures sound { IfOk result IsWorldDraft }
{
    let rules = rules(alloc, document)?;
    let terrains = read_array::<TerrainDraft>(alloc, MOST_TERRAINS, "terrain", document)?;
    let optional_tables = read_optional_tables(alloc, document)?;
    let regions = read_regions(alloc, format, document)?;
    Ok(WorldDraft {
        rules,
        terrains,
        items: optional_tables.items,
        skills: optional_tables.skills,
        kinds: optional_tables.kinds,
        regions,
    })
}

#[tactic(auto, unfolding(crate::specs::World::titles_differ))]
fn titles_differ(alloc: Global, all: &WorldDraft) -> Result<(), WorldFault>
    ensures { Gives (λ u. u) result (first_fault (titles_differ all.now)) (tt {0}) }
{
    no_duplicate_names(alloc, "terrain", "name", all.terrains.as_slice())?;
    no_duplicate_names(alloc, "item", "name", all.items.as_slice())?;
    no_duplicate_names(alloc, "skill", "name", all.skills.as_slice())?;
    no_duplicate_names(alloc, "kind", "name", all.kinds.as_slice())
}

#[tactic(auto, unfolding(crate::specs::World::names_differ))]
fn names_differ(alloc: Global, all: &WorldDraft) -> Result<(), WorldFault>
    ensures { Gives (λ u. u) result (first_fault (names_differ all.now)) (tt {0}) }
{
    titles_differ(alloc, all)?;
    no_duplicate_numbers(alloc, all.regions.as_slice())?;
    no_duplicates_inside(alloc, all.terrains.as_slice())?;
    no_duplicates_inside(alloc, all.regions.as_slice())
}

/// The parts of the world, with names looked up, else the fault UnknownName at the first name that
/// refers to nothing.
#[tactic(auto, unfolding(crate::specs::World::names_are_known))]
fn resolve(alloc: Global, all: &WorldDraft) -> Result<WorldParts, WorldFault>
    requires { IsWorldDraft all.now }
    ensures value { Gives (λ p. p) result (first_fault (names_are_known all.now))
        (world_parts_of all.now) }
    ensures sound { IfOk result (AreWorldPartsOf all.now) }
{
    let rules = resolve_rules(alloc, all)?;
    let terrains = resolve_all(alloc, all, all.terrains.as_slice())?;
    let items = resolve_all(alloc, all, all.items.as_slice())?;
    let kinds = resolve_all(alloc, all, all.kinds.as_slice())?;
    let regions = resolve_all(alloc, all, all.regions.as_slice())?;
    Ok(WorldParts {
        rules,
        terrains,
        items,
        kinds,
        regions,
    })
}

/// Whether a region's terrain is land; false if it isn't among `terrains`.
fn is_land(terrains: &[Terrain], plan: &RegionPlan) -> bool
    ensures { result ≡ is_land terrains.now plan.now }
{
    match terrains.get(plan.terrain as usize) {
        Some(terrain) => terrain.land,
        None => false,
    }
}

fn land_numbers(
    alloc: Global,
    terrains: &[Terrain],
    regions: &Numbered<RegionPlan>,
) -> Result<Sequence<u32>, AllocError>
    ensures { IfOk result (λ numbers. numbers ≡ numbers_where (is_land terrains.now) regions.now) }
{
    let mut numbers = Sequence::new(alloc);
    for (number, plan) in regions.iter() {
        if is_land(terrains, plan) {
            numbers.push(number)?;
        }
    }
    Ok(numbers)
}

/// The world that has all this, which must be one (`IsWorld`) if some region is land; else NoLand.
fn world_with_land(
    alloc: Global,
    rules: Rules,
    terrains: Sequence<Terrain>,
    items: Sequence<Item>,
    skills: Sequence<Skill>,
    kinds: Sequence<Kind>,
    regions: Numbered<RegionPlan>,
) -> Result<World, WorldFault>
    requires world { 0 < length
        (land_of (world_of_parts rules terrains items skills kinds regions))
        → IsWorld (world_of_parts rules terrains items skills kinds regions) }
    ensures { Gives (λ w. w) result
        (first_fault (is_some_land
        (land_of (world_of_parts rules terrains items skills kinds regions))))
        (world_of_parts rules terrains items skills kinds regions) }
{
    let land = land_numbers(alloc, terrains.as_slice(), &regions)?;
    if land.len() == 0 {
        return Err(WorldFault::NoLand);
    }
    Ok(World::from_parts(rules, terrains, items, skills, kinds, regions, land))
}

/// The world of the tables `all`, whose `parts` have the names looked up; else the fault
/// BadNeighbour or NoLand. Names of things of one sort must differ (`ThingNamesDiffer`).
#[tactic(auto, unfolding(crate::specs::World::neighbours_are_mutual))]
fn make_world(alloc: Global, all: WorldDraft, parts: WorldParts) -> Result<World, WorldFault>
    requires all { IsWorldDraft all }
    requires names { ThingNamesDiffer all }
    requires parts { parts ≡ world_parts_of all }
    requires sound { AreWorldPartsOf all parts }
    ensures { Gives (λ w. w) result
        (first_fault (neighbours_are_mutual all ++ is_some_land (land_of (world_of_tables all))))
        (world_of_tables all) }
{
    let WorldParts {
        rules,
        terrains,
        items,
        kinds,
        regions,
    } = parts;
    let regions = by_number(alloc, regions.into_vec())?;
    mutual_neighbours(alloc, &regions, all.regions.as_slice())?;
    let skills = all.into_skills();
    world_with_land(alloc, rules, terrains, items, skills, kinds, regions)
}

/// The world of the tables `all`, else the first fault of names, numbers, neighbours or land.
fn from_tables(alloc: Global, all: WorldDraft) -> Result<World, WorldFault>
    requires { IsWorldDraft all }
    ensures { Gives (λ w. w) result (first_fault (table_conditions all)) (world_of_tables all) }
{
    names_differ(alloc, &all)?;
    let parts = resolve(alloc, &all)?;
    make_world(alloc, all, parts)
}

#[tactic(auto, unfolding(crate::specs::World::document_conditions))]
fn from_document(alloc: Global, format: Format, document: &Table) -> Result<World, WorldFault>
    ensures { Gives (λ w. w) result (first_fault
        (document_conditions format (table_view document.now)))
        (world_of_tables (tables_of format (table_view document.now))) }
{
    let all = tables(alloc, format, document)?;
    from_tables(alloc, all)
}

/// The world of a text in a format, else its first fault.
#[tactic(auto, unfolding(crate::specs::World::world_of_text))]
fn read(alloc: Global, format: Format, text: &str) -> Result<World, WorldFault>
    ensures { Reads (λ w. w) result (world_of_text format text.now) }
{
    match toml::table_from_str(alloc, text) {
        Ok(document) => from_document(alloc, format, &document),
        Err(error) => {
            if error.is_memory() {
                return Err(WorldFault::Memory);
            }
            Err(WorldFault::NotToml)
        }
    }
}

/// The world that a text describes in the second format, or its first fault. The order of faults is
/// that of docs/FORMATS.md, "Faults of a world file". `Memory` is answered only if memory ran out,
/// and says nothing of the text.
pub fn read_world(alloc: Global, text: &str) -> Result<World, WorldFault>
    ensures definition { Reads (λ w. w) result (world_of text.now) }
{
    read(alloc, Format::Second, text)
}

/// The world that a text describes in the first format, which ignores markets, or its first fault.
pub fn read_old_world(alloc: Global, text: &str) -> Result<World, WorldFault>
    ensures definition { Reads (λ w. w) result (old_world_of text.now) }
{
    read(alloc, Format::First, text)
}

/// A law: a world of the first format has no markets, whatever its text has of them. Does nothing.
pub fn old_worlds_have_no_markets()
    ensures { OldWorldsHaveNoMarkets }
{}
