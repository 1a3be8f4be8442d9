//! The comparison of an amount of the books with its bound.
ghost use Rattle.std.specs.Prelude.{◌≡◌};
ghost use Rattle.atl_campaign.specs.RowRules.{is_within};

pub(super) fn is_within(bound: u128, number: i64) -> bool
    ensures { result ≡ is_within bound number }
{
    u128::from(number.unsigned_abs()) <= bound
}
