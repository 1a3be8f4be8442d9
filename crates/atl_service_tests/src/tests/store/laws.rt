//! Calls each law of the crate under test once and asserts nothing: a law does nothing, and its
//! clause is proved.
use atl_store::one_database_holds_one_campaign;

#[test]
fn states_that_one_database_holds_one_campaign() {
    one_database_holds_one_campaign();
}
