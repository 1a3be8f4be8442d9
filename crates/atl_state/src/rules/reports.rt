//! The part of rule 12 that every faction has a report.
ghost use Rattle.std.specs.Prelude.{◌↔◌, IsTrue};
ghost use Rattle.atl_world.specs.Every.{HasValue};
ghost use Rattle.atl_campaign.specs.Good.{AreReported};

use atl_campaign::Campaign;

fn has_report(campaign: &Campaign, number: u32) -> bool
    ensures { IsTrue result ↔ (HasValue campaign.now.value.reports number) }
{
    campaign.report(number).is_some()
}

pub(crate) fn are_reported(campaign: &Campaign) -> bool
    ensures { IsTrue result ↔ (AreReported campaign.now.value) }
{
    campaign
        .factions()
        .all(|(number, _)| has_report(campaign, number))
}
