//! TEACH: which men of the units that study are taught in a month. See docs/RULES.md, "Learning".
#![tactic(auto)]

mod limits;
mod teach;

pub use limits::{HELPED_DAYS, MONTH_DAYS, TAUGHT_DAYS};
pub use teach::{nobody_is_taught_twice, taught_at, teach_all};
