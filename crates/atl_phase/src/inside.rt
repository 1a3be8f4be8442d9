//! The region and the structure that a unit is in. See docs/RULES.md, "Place".
ghost use Rattle.std.specs.Prelude.{◌≡◌};
ghost use Rattle.atl_phase.specs.Inside.{structure_of_unit, region_of};

use atl_campaign::Campaign;

/// The number of the structure that a unit is inside; 0 where it is in none, or isn't there.
pub fn structure_of(campaign: &Campaign, unit: u32) -> u32
    ensures { result ≡ structure_of_unit campaign.now.value unit }
{
    campaign.unit(unit).map_or(0, |found| found.structure)
}

/// The number of the region that a unit is in; 0 where there is no such unit. It takes no memory.
pub fn region_of(campaign: &Campaign, unit: u32) -> u32
    ensures { result ≡ region_of campaign.now.value unit }
{
    campaign.unit(unit).map_or(0, |found| found.region)
}
