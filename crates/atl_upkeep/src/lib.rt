//! The three phases that need no order: upkeep, the season, and the sweep. See docs/RULES.md,
//! "Upkeep", "Season" and "Sweep".
#![tactic(auto)]

mod limits;
mod receivers;
mod restock;
mod season;
mod sweep;
mod upkeep;

pub use season::SeasonPhase;
pub use sweep::SweepPhase;
pub use upkeep::UpkeepPhase;
