//! Assertions for these tests, one for each type: an `assert_eq!` costs much to prove, so each is
//! written once.
use std::process::Abort;

pub(crate) fn assert_number(rt: &impl Abort, actual: i64, wanted: i64) {
    assert_eq!(rt; actual, wanted);
}

pub(crate) fn assert_count(rt: &impl Abort, actual: usize, wanted: usize) {
    assert_eq!(rt; actual, wanted);
}

pub(crate) fn assert_amount(rt: &impl Abort, actual: Option<i64>, wanted: Option<i64>) {
    assert_eq!(rt; actual, wanted);
}

pub(crate) fn assert_text(rt: &impl Abort, actual: &str, wanted: &str) {
    assert_eq!(rt; actual, wanted);
}

/// None means that a fault has no number.
pub(crate) fn assert_fault_number(rt: &impl Abort, actual: Option<u8>, wanted: Option<u8>) {
    assert_eq!(rt; actual, wanted);
}

/// The message of a failure names the case: `place`, a text.
pub(crate) fn assert_text_at(rt: &impl Abort, place: &str, actual: &str, wanted: &str) {
    assert_eq!(rt; actual, wanted, "at {place}");
}
