//! Rule 10: at most one faction guards a region. It is checked region by region, which needs the
//! region of each unit to be there (rule 4). A region's holder, if any, is the faction guarding it.
ghost use Rattle.std.specs.Prelude.{◌≡◌, None, ◌↔◌, IsTrue};
ghost use Rattle.atl_state.specs.Deciding.{agree, guard_of, one_holder};
ghost use Rattle.atl_world.specs.Every.{Every, HasValue};
ghost use Rattle.atl_campaign.specs.Good.{AreOfOneFaction, guards};
ghost use Rattle.atl_campaign.specs.Campaign.{numbers_in_region};

use atl_campaign::Campaign;

fn guard_of(campaign: &Campaign, number: u32) -> Option<u32>
    ensures { result ≡ guard_of campaign.now.value number }
{
    match campaign.unit(number) {
        Some(unit) if unit.holding.guard() && unit.holding.men() > 0 => Some(unit.faction),
        _ => None,
    }
}

/// None, where no unit guards, agrees with any.
fn agree(one: Option<u32>, other: Option<u32>) -> bool
    ensures { result ≡ agree one other }
{
    match (one, other) {
        (Some(one), Some(other)) => one == other,
        _ => true,
    }
}

fn has_one_holder(campaign: &Campaign, region: u32) -> bool
    ensures { result ≡ one_holder (guard_of campaign.now.value) None
        (numbers_in_region region campaign.now.value.units) }
{
    let mut holder = None;
    for number in campaign.in_region(region) {
        let guard = guard_of(campaign, *number);
        if !agree(guard, holder) {
            return false;
        }
        holder = holder.or(guard);
    }
    true
}

pub(crate) fn are_guarded(campaign: &Campaign) -> bool
    requires { Every (λ n u. HasValue campaign.now.value.regions u.region)
        campaign.now.value.units }
    ensures { IsTrue result ↔ (AreOfOneFaction guards campaign.now.value) }
{
    campaign
        .regions()
        .all(|(region, _)| has_one_holder(campaign, region))
}
