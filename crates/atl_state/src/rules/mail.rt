//! The part of rule 12 on mail: it is of factions that aren't gone, and of the right length and
//! header.
ghost use Rattle.std.specs.Prelude.{◌↔◌, IsTrue};
ghost use Rattle.atl_words.specs.Header.{IsMailingOf};
ghost use Rattle.atl_campaign.specs.Good.{IsActive, HasValidMail};

use atl_campaign::Campaign;
use atl_orders::is_mailing_of;
use atl_world::Sequence;

fn is_active(campaign: &Campaign, number: u32) -> bool
    ensures { IsTrue result ↔ (IsActive campaign.now.value number) }
{
    match campaign.faction(number) {
        Some(faction) => !faction.gone,
        None => false,
    }
}

fn is_mailing_of_active(campaign: &Campaign, number: u32, text: &Sequence<u8>) -> bool
    ensures { IsTrue result ↔ (IsMailingOf number text.now × IsActive campaign.now.value number) }
{
    is_mailing_of(number, text.as_slice()) && is_active(campaign, number)
}

pub(crate) fn are_mailings(campaign: &Campaign) -> bool
    ensures { IsTrue result ↔ (HasValidMail campaign.now.value) }
{
    campaign.mail().all(|(number, text)| is_mailing_of_active(campaign, number, text))
}
