//! What a faction is shown: which regions and units it sees, what of a unit, and which events, with
//! their text.
#![tactic(auto)]

mod events;
mod units;
pub mod views;
pub mod watch;

pub use events::write_orders;
pub use units::{shown_name, unit_view};
pub use views::{ItemView, MarketView, RegionView, Side, SkillView, StructureView, UnitView, View};
