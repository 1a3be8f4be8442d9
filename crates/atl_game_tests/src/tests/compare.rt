//! Assertions for these tests, one for each type: an `assert_eq!` costs much to prove, so each is
//! written once. The message of a failure names the case that is tested: the index of its row, or
//! `place`, a text.
use std::alloc::Global;
use std::fmt::Debug;
use std::process::Abort;
use std::test::Fail;

pub(crate) fn assert_number(rt: &impl Abort, actual: i64, wanted: i64) {
    assert_eq!(rt; actual, wanted);
}

pub(crate) fn assert_amount(rt: &impl Abort, actual: u32, wanted: u32) {
    assert_eq!(rt; actual, wanted);
}

pub(crate) fn assert_row(rt: &impl Abort, row: usize, actual: u64, wanted: u64) {
    assert_eq!(rt; actual, wanted, "at {row}");
}

pub(crate) fn assert_count(rt: &impl Abort, actual: usize, wanted: usize) {
    assert_eq!(rt; actual, wanted);
}

/// None means that a fault has no number.
pub(crate) fn assert_fault_number(rt: &impl Abort, actual: Option<u8>, wanted: Option<u8>) {
    assert_eq!(rt; actual, wanted);
}

pub(crate) fn assert_text(rt: &impl Abort, actual: &str, wanted: &str) {
    assert_eq!(rt; actual, wanted);
}

pub(crate) fn assert_row_text(rt: &impl Abort, row: usize, actual: &str, wanted: &str) {
    assert_eq!(rt; actual, wanted, "at {row}");
}

pub(crate) fn assert_text_at(rt: &impl Abort, place: &str, actual: &str, wanted: &str) {
    assert_eq!(rt; actual, wanted, "at {place}");
}

pub(crate) fn assert_numbers(rt: &impl Abort, actual: &[u32], wanted: &[u32]) {
    assert_eq!(rt; actual, wanted);
}

pub(crate) fn assert_row_numbers(rt: &impl Abort, row: usize, actual: &[u32], wanted: &[u32]) {
    assert_eq!(rt; actual, wanted, "at {row}");
}

/// Asserts that `Debug` prints a list as `wanted`.
pub(crate) fn assert_shown<T: Debug>(
    rt: &impl Abort,
    alloc: Global,
    place: &str,
    found: &[T],
    wanted: &str,
) -> Result<(), Fail> {
    let actual = format!(in alloc; "{found:?}")?;
    assert_text_at(rt, place, actual.as_str(), wanted);
    Ok(())
}

pub(crate) fn assert_true(rt: &impl Abort, actual: bool) {
    assert!(rt; actual);
}
