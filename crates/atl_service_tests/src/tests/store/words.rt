//! Turns answers into the words that scripts compare.
use std::alloc::Global;
use std::fmt::Display;
use std::test::Fail;

pub(crate) fn done(alloc: Global) -> Result<String, Fail> {
    Ok(String::from_str(alloc, "Done")?)
}

pub(crate) fn yes_or_no(alloc: Global, is_so: bool) -> Result<String, Fail> {
    let word = if is_so { "yes" } else { "no" };
    Ok(String::from_str(alloc, word)?)
}

pub(crate) fn text_of<D: Display + Drop>(alloc: Global, value: D) -> Result<String, Fail> {
    Ok(format!(in alloc; "{value}")?)
}

/// The outcome of a call as an answer: `Done`, or the text of its fault.
pub(crate) fn done_or_fault<E: Display + Drop>(
    alloc: Global,
    outcome: Result<(), E>,
) -> Result<String, Fail> {
    match outcome {
        Ok(()) => done(alloc),
        Err(fault) => text_of(alloc, fault),
    }
}
