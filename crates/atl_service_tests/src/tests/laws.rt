//! Calls the law of stored mailings once and asserts nothing: a law does nothing, and its clause is
//! proved.
use atl_service::only_the_last_mail_counts;

#[test]
fn states_that_only_the_last_mail_counts() {
    only_the_last_mail_counts();
}
