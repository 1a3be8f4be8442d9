//! What a faction sees of a campaign, the text of its report, and the text of the books.
#![tactic(auto)]

pub mod books;
mod region_units;
pub mod report;
pub mod sight;
pub mod sites;

pub use atl_sight::{
    ItemView, MarketView, RegionView, Side, SkillView, StructureView, UnitView, View,
};
pub use books::books_text;
pub use report::{only_what_is_seen_is_reported, others_events_are_not_reported, report_text};
pub use sight::{view, view_over};
pub use sites::{RegionLists, lists_of};
