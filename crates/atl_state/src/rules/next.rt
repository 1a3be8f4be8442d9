//! Rule 5: the numbers that factions, structures and units get next.
ghost use Rattle.std.specs.Prelude.{◌≡◌, ◌≤◌, ◌<◌, ◌+◌, ℕ, None, ◌↔◌, IsTrue};
ghost use Rattle.std.specs.FinMap as map;
ghost use Rattle.atl_world.specs.Every.{EachEntry};
ghost use Rattle.atl_campaign.specs.Good.{AreNumbered, IsNumbered};

use atl_campaign::Campaign;
use atl_world::Entries;

fn are_between<V>(mut entries: Entries<'_, V>, least: u32, next: u32) -> bool
    ensures { IsTrue result ↔ (EachEntry (λ n v. (least ≤ n) × (n < next)) entries.entry) }
{
    entries.all(|(number, _)| least <= number && number < next)
}

fn is_next_above(next: u32, count: usize) -> bool
    ensures { IsTrue result ↔ (next ≡ count + 1) }
{
    1 <= next && (next - 1) as usize == count
}

/// The numbers are distinct: if all are from 1 to below the next one, and as many, none is missing.
fn are_factions_numbered(campaign: &Campaign) -> bool
    ensures { IsTrue result ↔
        (IsNumbered campaign.now.value.factions campaign.now.value.next_faction) }
{
    let next = campaign.next_faction();
    are_between(campaign.factions(), 1, next) && is_next_above(next, campaign.faction_count())
}

fn are_structures_numbered(campaign: &Campaign) -> bool
    ensures { IsTrue result ↔
        (IsNumbered campaign.now.value.structures campaign.now.value.next_structure) }
{
    let next = campaign.next_structure();
    are_between(campaign.structures(), 1, next) && is_next_above(next, campaign.structure_count())
}

/// Gaps between the numbers are allowed.
fn are_units_before(campaign: &Campaign) -> bool
    ensures { IsTrue result ↔
        ((n : ℕ) → campaign.now.value.next_unit ≤ n → map.get campaign.now.value.units n ≡ None) }
{
    let next = campaign.next_unit();
    campaign.units().all(|(number, _)| number < next)
}

pub(crate) fn are_numbered(campaign: &Campaign) -> bool
    ensures { IsTrue result ↔ (AreNumbered campaign.now.value) }
{
    are_factions_numbered(campaign)
        && are_structures_numbered(campaign)
        && are_units_before(campaign)
}
