//! Calls each law of the crates under test once and asserts nothing: a law does nothing, and its
//! clause is proved.
use atl_orders::{readings_keep_bounds, rules_are_the_reading};
use atl_tables::old_worlds_have_no_markets;

#[test]
fn states_laws_of_both_readers() {
    rules_are_the_reading();
    readings_keep_bounds();
    old_worlds_have_no_markets();
}
