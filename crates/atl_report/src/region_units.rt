//! Lists the units of a region: by hiding level (the observation level from which other factions
//! see a unit), a faction's own, and those that a faction sees. AllocError without memory.
ghost use Rattle.std.specs.Prelude.{◌≡◌, ℕ, IfOk, OnOk, filter, map};
ghost use Rattle.std.specs.FinMap.{get, entries};
ghost use Rattle.atl_world.specs.Every.{Every};
ghost use Rattle.atl_lists.specs.Lists.{list_of};
ghost use Rattle.atl_report.specs.Gathering.{with_numbers, numbers_seen};
ghost use Rattle.atl_report.specs.Sites.{AreLevels};
ghost use Rattle.atl_sight.specs.Watching.{is_seen_there, own_units_in};

use crate::sites::add_listed;
use atl_campaign::Campaign;
use atl_sight::watch::{Watch, hiding_level};
use atl_world::{Numbered, Sequence, World};
use std::alloc::{AllocError, Global};

/// The numbers of a region's units, sorted, by hiding level. A level without units may have no
/// list.
pub type Levels = Numbered<Sequence<u32>>;

pub(crate) fn levels_in(
    alloc: Global,
    world: &World,
    campaign: &Campaign,
    region: u32,
) -> Result<Levels, AllocError>
    ensures { IfOk result (AreLevels world.now campaign.now.value region) }
{
    let mut levels = Numbered::new(alloc);
    for number in campaign.in_region(region) {
        if let Some(unit) = campaign.unit(*number) {
            add_listed(alloc, &mut levels, hiding_level(world, unit), *number)?;
        }
    }
    Ok(levels)
}

pub(crate) fn levels_of(
    alloc: Global,
    world: &World,
    campaign: &Campaign,
) -> Result<Numbered<Levels>, AllocError>
    ensures { IfOk result (λ levels. Every (AreLevels world.now campaign.now.value) levels) }
{
    let mut levels = Numbered::new(alloc);
    for (region, _) in campaign.regions() {
        levels.insert(region, levels_in(alloc, world, campaign, region)?)?;
    }
    Ok(levels)
}

/// The numbers of a faction's units, with men or not, by region, in each region sorted.
pub(crate) fn own_by_region(
    alloc: Global,
    campaign: &Campaign,
    faction: u32,
) -> Result<Numbered<Sequence<u32>>, AllocError>
    ensures { IfOk result (λ own. (region : ℕ) → list_of own region
        ≡ own_units_in campaign.now.value faction region) }
{
    let mut own = Numbered::new(alloc);
    for number in campaign.of_faction(faction) {
        if let Some(unit) = campaign.unit(*number) {
            add_listed(alloc, &mut own, unit.region, *number)?;
        }
    }
    Ok(own)
}

/// Adds numbers to a set; after an AllocError some of them are added.
fn add_numbers(seen: &mut Numbered<()>, numbers: &[u32]) -> Result<(), AllocError>
    ensures { OnOk result (seen.new ≡ with_numbers seen.old numbers.now) }
{
    for number in numbers {
        seen.insert(*number, ())?;
    }
    Ok(())
}

/// The numbers of `own`, and of the lists in `levels` whose level is at most `observation`. It goes
/// over the units that are seen and no others, so a view costs no more than it shows.
pub(crate) fn numbers_seen(
    alloc: Global,
    own: &[u32],
    levels: &Levels,
    observation: u32,
) -> Result<Numbered<()>, AllocError>
    ensures { IfOk result (λ seen. seen ≡ numbers_seen own.now levels.now observation) }
{
    let mut seen = Numbered::new(alloc);
    add_numbers(&mut seen, own)?;
    for (level, numbers) in levels.iter() {
        if level <= observation {
            add_numbers(&mut seen, numbers.as_slice())?;
        }
    }
    Ok(seen)
}

/// The numbers of the units that the watching faction sees in the watched region; `own` must have
/// those of its own there. `levels` must have right lists, by hiding level, of the regions that it
/// has; if the watched region isn't among them, its lists are made here.
pub(crate) fn units_seen(
    alloc: Global,
    world: &World,
    campaign: &Campaign,
    levels: &Numbered<Levels>,
    own: &[u32],
    watch: Watch,
) -> Result<Numbered<()>, AllocError>
    requires levels { Every (AreLevels world.now campaign.now.value) levels.now }
    requires own { own.now ≡ own_units_in campaign.now.value watch.faction watch.region }
    ensures { IfOk result (λ seen. entries seen ≡ map (λ e. (e.0, tt))
        (filter (λ e. is_seen_there world.now watch (get campaign.now.value.units e.0))
        (entries campaign.now.value.units))) }
{
    match levels.get(watch.region) {
        Some(levels) => numbers_seen(alloc, own, levels, watch.observation),
        None => {
            let levels = levels_in(alloc, world, campaign, watch.region)?;
            numbers_seen(alloc, own, &levels, watch.observation)
        }
    }
}
