//! How much each gets of what is shared: of a pot among several wants, and of what the units of a
//! faction in a region spare for upkeep. See docs/RULES.md, "Shares" and "Upkeep".
#![tactic(auto)]

mod accounts;
pub mod shares;
mod upkeep_sharing;

pub use shares::share;
pub use upkeep_sharing::{UpkeepInput, UpkeepResult, each_unit_can_spare, upkeep_payments};
