//! Calls each law of the crates under test once and asserts nothing: a law does nothing, and its
//! clause is proved.
use atl_campaign::good_campaigns_are_early;

#[test]
fn states_that_good_campaigns_are_early() {
    good_campaigns_are_early();
}
