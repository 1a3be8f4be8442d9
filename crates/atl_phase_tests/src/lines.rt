//! Appends a line for a number or a text that changed.
use std::alloc::{AllocError, Global};

/// Appends a line with the new value of a number, unless the number is unchanged. The line has the
/// text `of`, as `unit 3`, the text `what`, as `money`, and the number `after`.
pub(crate) fn append_number(
    alloc: Global,
    of: &str,
    what: &str,
    before: i64,
    after: i64,
    output: &mut String,
) -> Result<(), AllocError> {
    if before == after {
        return Ok(());
    }
    let line = format!(in alloc; "{of} {what} {after}\n")?;
    output.push_str(line.as_str())
}

/// Appends a line with the new value of a text, unless the text is unchanged. The line has the text
/// `of`, as `unit 3`, the text `what`, as `name`, and the text `after`.
pub(crate) fn append_text(
    alloc: Global,
    of: &str,
    what: &str,
    before: &str,
    after: &str,
    output: &mut String,
) -> Result<(), AllocError> {
    if before == after {
        return Ok(());
    }
    let line = format!(in alloc; "{of} {what} {after}\n")?;
    output.push_str(line.as_str())
}
