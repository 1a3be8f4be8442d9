//! Rule 6: a unit has at least 1 day of each skill that is listed of it, and at most 450 for each
//! of its men. See docs/RULES.md, "Levels and loads".
ghost use Rattle.std.specs.Prelude.{◌≤◌, ◌*◌, ◌↔◌, IsTrue};
ghost use Rattle.atl_world.specs.Every.{Every};
ghost use Rattle.atl_campaign.specs.Good.{AreDays};
ghost use Rattle.atl_records.specs.Limits.{most_days};

use atl_campaign::Campaign;
use atl_records::{Holding, MOST_DAYS};

fn has_days(holding: &Holding) -> bool
    ensures { IsTrue result ↔
        (Every (λ s days. (1 ≤ days) × (days ≤ most_days * holding.now.men)) holding.now.days) }
{
    let most = MOST_DAYS * holding.men();
    holding.days().all(|(_, days)| 1 <= *days && *days <= most)
}

pub(crate) fn are_days(campaign: &Campaign) -> bool
    ensures { IsTrue result ↔ (AreDays campaign.now.value) }
{
    campaign.units().all(|(_, unit)| has_days(&unit.holding))
}
