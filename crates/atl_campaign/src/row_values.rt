//! Writes, reads and judges single values of rows: numbers, flags, and the campaign row.
ghost use Rattle.std.specs.Prelude.{◌≡◌, length};
ghost use Rattle.atl_campaign.specs.FromRows.{campaign_row_of};
ghost use Rattle.atl_rows.specs.RowValues.{as_u32, as_u16, flag, is_from, is_set};

use atl_rows::parts::{Parts, StoredCampaignRow};

/// A number of a row as one of 32 bits; a negative or larger one is read as the largest.
pub fn as_u32(number: i64) -> u32
    ensures { result ≡ as_u32 number }
{
    match u32::try_from(number) {
        Ok(small) => small,
        Err(_) => u32::MAX,
    }
}

/// A number of a row as one of 16 bits; a negative or larger one is read as the largest.
pub fn as_u16(number: i64) -> u16
    ensures { result ≡ as_u16 number }
{
    match u16::try_from(number) {
        Ok(small) => small,
        Err(_) => u16::MAX,
    }
}

/// Whether a flag of a row is set: any number but 0.
pub fn is_set(number: i64) -> bool
    ensures { result ≡ is_set number }
{
    number != 0
}

pub(crate) fn flag(set: bool) -> i64
    ensures { result ≡ flag set }
{
    if set { 1 } else { 0 }
}

/// Whether a number of a row is from `low` to `high`.
pub fn is_from(low: u32, high: u32, number: i64) -> bool
    ensures { result ≡ is_from low high number }
{
    i64::from(low) <= number && number <= i64::from(high)
}

/// The campaign row of parts that have exactly one.
pub fn campaign_row_of(parts: &Parts) -> &StoredCampaignRow
    requires { length parts.now.campaign ≡ 1 }
    ensures { result.now ≡ campaign_row_of parts.now }
{
    &parts.campaign.as_slice()[0]
}
