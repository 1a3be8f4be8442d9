//! Checks that neighbours are mutual. A call that may return a fault may also return `Memory`. See
//! docs/FORMATS.md, "The world file".
ghost use Rattle.std.specs.Prelude.{◌≡◌, codes, OnOk, option_and_then};
ghost use Rattle.std.specs.FinMap.{get};
ghost use Rattle.std.specs.List.{All};
ghost use Rattle.atl_tables.specs.Each.{conditions_on_each};
ghost use Rattle.atl_tables.specs.Faults.{first_fault};
ghost use Rattle.atl_tables.specs.Results.{Gives};
ghost use Rattle.atl_tables.specs.Keys.{path, element_path};
ghost use Rattle.atl_tables.specs.Neighbours.{equals_number, neighbour_fault, neighbours_at};
ghost use Rattle.atl_world.specs.Worlds.{neighbour_to, LeadsBack, HasMutualNeighbours};

use crate::fault::WorldFault;
use crate::keys::element_key_path;
use crate::region_table::RegionDraft;
use atl_world::Direction::{self, East, North, South, West};
use atl_world::{Numbered, RegionPlan};
use std::alloc::Global;

/// The number of the neighbour of region `number` on a side; None if it has none or isn't there.
fn region_next_to(regions: &Numbered<RegionPlan>, number: u32, side: Direction) -> Option<u32>
    ensures { result ≡ option_and_then (neighbour_to side) (get regions.now number) }
{
    match regions.get(number) {
        None => None,
        Some(plan) => plan.neighbour_to(side),
    }
}

fn equals_number(number: u32, other: Option<u32>) -> bool
    ensures { result ≡ equals_number number other }
{
    match other {
        None => false,
        Some(other) => other == number,
    }
}

/// Checks the side `key` of the i-th region, of number `number`: the neighbour `other`, if there is
/// one, is among the `regions` and has this region on its side `opposite`, else BadNeighbour.
fn check_neighbour(
    alloc: Global,
    i: usize,
    key: &str,
    regions: &Numbered<RegionPlan>,
    opposite: Direction,
    number: u32,
    other: Option<u32>,
) -> Result<(), WorldFault>
    ensures value { Gives (λ u. u) result
        (neighbour_fault (path (element_path (codes "region") i) key.now) regions.now opposite
        number other) (tt {0}) }
    ensures back { OnOk result (LeadsBack regions.now (neighbour_to opposite) number other) }
{
    match other {
        None => Ok(()),
        Some(other) => {
            if equals_number(number, region_next_to(regions, other, opposite)) {
                return Ok(());
            }
            Err(WorldFault::BadNeighbour(element_key_path(alloc, "region", i, key)?))
        }
    }
}

/// Checks the four sides of the i-th region, `draft`, else gives BadNeighbour at the first bad one.
#[tactic(auto, unfolding(crate::specs::Neighbours::neighbours_at))]
fn neighbours_of(
    alloc: Global,
    regions: &Numbered<RegionPlan>,
    i: usize,
    draft: &RegionDraft,
) -> Result<(), WorldFault>
    ensures value { Gives (λ u. u) result (first_fault (neighbours_at regions.now i draft.now))
        (tt {0}) }
    ensures back { OnOk result
        (HasMutualNeighbours regions.now draft.now.basics.number draft.now.sides.north
        draft.now.sides.south draft.now.sides.east draft.now.sides.west) }
{
    let number = draft.basics.number;
    let sides = &draft.sides;
    check_neighbour(alloc, i, "north", regions, South, number, sides.north)?;
    check_neighbour(alloc, i, "south", regions, North, number, sides.south)?;
    check_neighbour(alloc, i, "east", regions, West, number, sides.east)?;
    check_neighbour(alloc, i, "west", regions, East, number, sides.west)
}

/// Checks that each neighbour of a region is among `regions` and has that region on its opposite
/// side, else gives the fault BadNeighbour at the first side where this fails. `drafts` are in the
/// order of the file, the sides of each in the order north, south, east, west.
pub(crate) fn mutual_neighbours(
    alloc: Global,
    regions: &Numbered<RegionPlan>,
    drafts: &[RegionDraft],
) -> Result<(), WorldFault>
    ensures value { Gives (λ u. u) result
        (first_fault (conditions_on_each (neighbours_at regions.now) 0 drafts.now)) (tt {0}) }
    ensures back { OnOk result
        (All (λ d. HasMutualNeighbours regions.now d.basics.number d.sides.north d.sides.south
        d.sides.east d.sides.west) drafts.now) }
{
    for i in 0..drafts.len() {
        neighbours_of(alloc, regions, i, &drafts[i])?;
    }
    Ok(())
}
