//! Rule 7: a faction is gone exactly when it has no unit.
ghost use Rattle.std.specs.Prelude.{◌≡◌, true, [], ◌↔◌, IsTrue};
ghost use Rattle.atl_campaign.specs.Good.{GoneHaveNone, UnitlessAreGone};
ghost use Rattle.atl_campaign.specs.Campaign.{numbers_of_faction};

use atl_campaign::Campaign;
use atl_records::Faction;

fn is_gone_iff_unitless(campaign: &Campaign, number: u32, faction: &Faction) -> bool
    ensures { IsTrue result ↔
        ((faction.now.gone ≡ true → numbers_of_faction number campaign.now.value.units ≡ [])
        × (numbers_of_faction number campaign.now.value.units ≡ [] → faction.now.gone ≡ true)) }
{
    faction.gone == campaign.of_faction(number).is_empty()
}

pub(crate) fn are_gone_iff_unitless(campaign: &Campaign) -> bool
    ensures { IsTrue result ↔ (GoneHaveNone campaign.now.value × UnitlessAreGone
        campaign.now.value) }
{
    campaign.factions().all(|(number, faction)| is_gone_iff_unitless(campaign, number, faction))
}
