//! How much of a thing all units hold together, and how much all regions hold, with their stocks.
//! There have to be at most 1,000,000 of each, and a total is at most their count times 2^32 - 1.
ghost use Rattle.std.specs.Prelude.{◌≡◌, ◌≤◌, ◌*◌, length};
ghost use Rattle.std.specs.FinMap as map;
ghost use Rattle.atl_world.specs.Sums.{sum_over};
ghost use Rattle.atl_records.specs.Limits.{most_u32};
ghost use Rattle.atl_records.specs.Amounts.{region_amount, unit_amount};

use crate::regions::Regions;
use crate::units::Units;
use atl_records::{Thing, region_amount, unit_amount};

pub(crate) fn units_total(units: &Units, thing: Thing) -> u64
    requires { length (map.entries units.now.values) ≤ 1000000 }
    ensures value { result ≡ sum_over (λ u. unit_amount thing u.holding) units.now.values }
    ensures fits { result ≤ length (map.entries units.now.values) * most_u32 }
{
    let mut sum = 0u64;
    for (_, unit) in units.iter() {
        let amount = unit_amount(thing, &unit.holding);
        sum += u64::from(amount);
    }
    sum
}

pub(crate) fn regions_total(regions: &Regions, thing: Thing) -> u64
    requires { length (map.entries regions.now.values) ≤ 1000000 }
    ensures value { result ≡ sum_over (λ r. region_amount thing r) regions.now.values }
    ensures fits { result ≤ length (map.entries regions.now.values) * most_u32 }
{
    let mut sum = 0u64;
    for (_, region) in regions.iter() {
        let amount = region_amount(thing, region);
        sum += u64::from(amount);
    }
    sum
}
