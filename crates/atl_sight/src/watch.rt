//! Which regions a faction sees, and which units there. Where the world names no skill of stealth
//! or of observation, all levels in it are 0. See docs/RULES.md, "Sight".
ghost use Rattle.std.specs.Prelude.{◌≡◌, Some, nat_le};
ghost use Rattle.std.specs.Option.{option_copied};
ghost use Rattle.atl_campaign.specs.Good.{guards};
ghost use Rattle.atl_records.specs.Levels.{level_in_any};
ghost use Rattle.atl_sight.specs.Watching.{is_watching, own_units_in, best_observation, watch_over, hiding_level, is_seen, is_seen_there};

use atl_campaign::{Campaign, Unit, level_in_any};
use atl_world::World;

/// A faction in a region, with the best observation level of its units there, 0 if it has none.
#[derive(Drop, Clone, Copy)]
pub struct Watch {
    pub faction: u32,
    pub region: u32,
    pub observation: u32,
}

/// Whether a unit is a given faction's and has men, so that the faction sees its region.
pub fn is_watching(unit: &Unit, faction: u32) -> bool
    ensures { result ≡ is_watching faction (Some unit.now) }
{
    unit.faction == faction && unit.holding.men() > 0
}

/// Whether a unit guards: it has the guard flag set, and men.
pub(crate) fn is_guard(unit: &Unit) -> bool
    ensures { result ≡ guards unit.now }
{
    unit.holding.guard() && unit.holding.men() > 0
}

/// The best observation level of the units with these numbers; 0 without a unit.
fn best_observation(world: &World, campaign: &Campaign, numbers: &[u32]) -> u32
    ensures { result ≡ best_observation world.now campaign.now.value numbers.now }
{
    let mut best = 0u32;
    for number in numbers {
        if let Some(unit) = campaign.unit(*number) {
            best = best.max(level_in_any(&unit.holding, world.rules().observation));
        }
    }
    best
}

/// A faction's watch in a region, with the best observation level of the faction's units there, 0
/// if it has none. `own` must have the numbers of these units, in ascending order.
pub fn watch_over(
    world: &World,
    campaign: &Campaign,
    faction: u32,
    region: u32,
    own: &[u32],
) -> Watch
    requires { own.now ≡ own_units_in campaign.now.value faction region }
    ensures { result ≡ watch_over world.now campaign.now.value faction region }
{
    Watch {
        faction,
        region,
        observation: best_observation(world, campaign, own),
    }
}

/// The observation level from which other factions see a unit: 0 if it guards, else its stealth
/// level.
pub fn hiding_level(world: &World, unit: &Unit) -> u32
    ensures { result ≡ hiding_level world.now unit.now }
{
    if is_guard(unit) {
        0
    } else {
        level_in_any(&unit.holding, world.rules().stealth)
    }
}

fn is_identified(world: &World, watch: Watch, unit: &Unit) -> bool
    ensures { result ≡ nat_le (level_in_any unit.now.holding world.now.rules.stealth)
        watch.observation }
{
    level_in_any(&unit.holding, world.rules().stealth) <= watch.observation
}

fn is_seen(world: &World, watch: Watch, unit: &Unit) -> bool
    ensures { result ≡ is_seen world.now watch unit.now }
{
    unit.faction == watch.faction || is_guard(unit) || is_identified(world, watch, unit)
}

/// Whether a unit exists, is in the watched region, and is seen.
pub fn is_seen_there(world: &World, watch: Watch, unit: Option<&Unit>) -> bool
    ensures { result ≡ is_seen_there world.now watch (option_copied unit.entry) }
{
    match unit {
        Some(unit) => unit.region == watch.region && is_seen(world, watch, unit),
        None => false,
    }
}
