//! Sets the number of men of a unit together with its days of study.
ghost use Rattle.std.specs.Prelude.{◌≡◌, ◌≤◌, OnOk};
ghost use Rattle.atl_records.specs.Limits.{men_limit};
ghost use Rattle.atl_phase.specs.Holdings.{ChangesHolding, with_days};

use atl_campaign::Campaign;
use std::alloc::AllocError;

/// Sets the men of a unit to `men`, at most MEN_LIMIT, and its days of each skill in `days` to the
/// number beside the skill's; of two pairs of one skill the later counts. The days are over all
/// men. It marks all that it changes, and no items. Where the unit isn't there nothing changes.
/// AllocError without memory; the campaign may then be changed in part.
pub fn set_people(
    campaign: &mut Campaign,
    unit: u32,
    men: u32,
    days: &[(u32, u32)],
) -> Result<(), AllocError>
    requires { men ≤ men_limit }
    ensures what { OnOk result
        (ChangesHolding campaign.old campaign.new unit
        (λ h. record h { men = men; days = with_days h.days days.now })) }
    ensures items { OnOk result (campaign.new.marks.items ≡ campaign.old.marks.items) }
{
    campaign.set_men(unit, men);
    for (skill, of_skill) in days.iter() {
        campaign.set_days(unit, *skill, *of_skill)?;
    }
    Ok(())
}
