//! Rule 1: there is one campaign row, of id 1 and a given format, and in the first no `market` row.
ghost use Rattle.std.specs.Prelude.{◌≡◌};
ghost use Rattle.atl_campaign.specs.RowRules.{is_one_campaign_row, are_of_format};

use atl_campaign::is_from;
use atl_campaign::parts::{Parts, StoredCampaignRow, StoredMarket};
use atl_world::Format;

pub(crate) fn is_one_campaign_row(format: Format, rows: &[StoredCampaignRow]) -> bool
    ensures { result ≡ is_one_campaign_row format rows.now }
{
    if rows.len() != 1 {
        return false;
    }
    let head = &rows[0];
    let number = u32::from(format.number());
    is_from(1, 1, head.id) && is_from(number, number, head.format)
}

pub(crate) fn are_of_format(format: Format, rows: &[StoredMarket]) -> bool
    ensures { result ≡ are_of_format format rows.now }
{
    match format {
        Format::First => rows.len() == 0,
        Format::Second => true,
    }
}
