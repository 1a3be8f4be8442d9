//! The numbers of teaching and study: men for each teacher, and days for each month. See
//! docs/RULES.md, "Learning".

/// How many men one man teaches in a month at most.
pub(crate) const PUPILS_PER_TEACHER: u32 = 10;

/// The days that each man gains by a month of study.
pub const MONTH_DAYS: u64 = 30;

/// The days that each man who is taught gains in a month, on top of those of study.
pub const TAUGHT_DAYS: u64 = 30;

/// The days that each man gains in a month inside a structure that helps the skill, on top of those
/// of study.
pub const HELPED_DAYS: u64 = 10;
