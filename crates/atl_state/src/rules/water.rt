//! Rule 9: units on water are inside ships, and structures on water are complete ships. A region
//! that the world doesn't have counts as water.
ghost use Rattle.std.specs.Prelude.{◌≡◌, false, true, ◌↔◌, IsTrue};
ghost use Rattle.atl_world.specs.Every.{Every};
ghost use Rattle.atl_campaign.specs.Good.{AreAfloat, IsAboard, is_ship};
ghost use Rattle.atl_world.specs.ByNumber.{is_land_at, size_of};

use atl_campaign::Campaign;
use atl_records::{Structure, Unit};
use atl_world::World;

fn is_aboard(world: &World, campaign: &Campaign, unit: &Unit) -> bool
    ensures { IsTrue result ↔ (IsAboard world.now campaign.now.value unit.now) }
{
    match campaign.structure(unit.structure) {
        Some(structure) => world.is_ship(structure.kind),
        None => false,
    }
}

fn are_units_afloat(world: &World, campaign: &Campaign) -> bool
    ensures { IsTrue result ↔
        (Every (λ n u. is_land_at world.now u.region ≡ false
        → IsAboard world.now campaign.now.value u) campaign.now.value.units) }
{
    campaign.units().all(|(_, unit)| world.is_land_at(unit.region)
        || is_aboard(world, campaign, unit))
}

fn is_complete_ship(world: &World, structure: &Structure) -> bool
    ensures { IsTrue result ↔
        ((is_ship world.now structure.now ≡ true)
        × (structure.now.done ≡ size_of world.now structure.now.kind)) }
{
    world.is_ship(structure.kind) && structure.done == world.size_of(structure.kind)
}

fn are_ships_afloat(world: &World, campaign: &Campaign) -> bool
    ensures { IsTrue result ↔
        (Every (λ n s. is_land_at world.now s.region ≡ false
        → (is_ship world.now s ≡ true) × (s.done ≡ size_of world.now s.kind))
        campaign.now.value.structures) }
{
    campaign.structures().all(|(_, structure)| world.is_land_at(structure.region)
        || is_complete_ship(world, structure))
}

pub(crate) fn are_afloat(world: &World, campaign: &Campaign) -> bool
    ensures { IsTrue result ↔ (AreAfloat world.now campaign.now.value) }
{
    are_units_afloat(world, campaign) && are_ships_afloat(world, campaign)
}
