//! For all tests of months: the text of a pair of numbers.
use std::alloc::{AllocError, Global};

/// Appends a pair of numbers to a text, as `first second;`.
pub(crate) fn write_pair(
    alloc: Global,
    first: u64,
    second: u64,
    actual: &mut String,
) -> Result<(), AllocError> {
    actual.push_str(&format!(in alloc; "{first} {second};")?)
}
