//! Travel and learning: units walk, ships sail, and people teach and study.
#![tactic(auto)]

mod learn;
mod learners;
mod sail;
mod study;
mod walk;

pub use atl_teaching::nobody_is_taught_twice;
pub use learn::{LearnPhase, units_study_as_begun};
pub use learners::units_learn_by_orders;
pub use sail::SailPhase;
pub use walk::MovePhase;
