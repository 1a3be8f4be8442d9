//! Rule 8: the owners of structures. See docs/RULES.md, "Owners".
ghost use Rattle.std.specs.Prelude.{◌≡◌, ◌≢◌, Some, ◌↔◌, IsTrue};
ghost use Rattle.std.specs.FinMap as map;
ghost use Rattle.atl_records.specs.declared.records.Structure as builds;
ghost use Rattle.atl_state.specs.Deciding.{HasOwnerInside};
ghost use Rattle.atl_world.specs.Every.{Every};
ghost use Rattle.atl_campaign.specs.Good.{AreOwned};

use atl_campaign::Campaign;
use atl_records::{Structure, Unit};

/// The owner 0, for nobody, passes.
fn is_owner_inside(campaign: &Campaign, number: u32, structure: &Structure) -> bool
    ensures { IsTrue result ↔ (HasOwnerInside campaign.now.value number structure.now) }
{
    if structure.owner == 0 {
        return true;
    }
    match campaign.unit(structure.owner) {
        Some(owner) => owner.structure == number,
        None => false,
    }
}

fn are_owners_inside(campaign: &Campaign) -> bool
    ensures { IsTrue result ↔
        (Every (HasOwnerInside campaign.now.value) campaign.now.value.structures) }
{
    campaign.structures().all(|(number, structure)| is_owner_inside(campaign, number, structure))
}

/// Whether the structure that the unit is inside has an owner; one that isn't there passes.
fn is_with_owner(campaign: &Campaign, unit: &Unit) -> bool
    ensures { IsTrue result ↔
        ((s : builds.Structure) → map.get campaign.now.value.structures unit.now.structure ≡ Some s
        → s.owner ≢ 0) }
{
    match campaign.structure(unit.structure) {
        Some(structure) => structure.owner != 0,
        None => true,
    }
}

/// Whether each structure that has a unit inside has an owner.
fn are_with_owners(campaign: &Campaign) -> bool
    ensures { IsTrue result ↔
        (Every (λ m u. (s : builds.Structure)
        → map.get campaign.now.value.structures u.structure ≡ Some s → s.owner ≢ 0)
        campaign.now.value.units) }
{
    campaign
        .units()
        .all(|(_, unit)| is_with_owner(campaign, unit))
}

pub(crate) fn are_owned(campaign: &Campaign) -> bool
    ensures { IsTrue result ↔ (AreOwned campaign.now.value) }
{
    are_owners_inside(campaign) && are_with_owners(campaign)
}
