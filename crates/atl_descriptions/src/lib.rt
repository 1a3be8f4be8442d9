//! One description for each table of a campaign: the form of each column, and the texts of its
//! statements. See docs/FORMATS.md, "Tables".
#![tactic(auto)]

pub mod record;
pub mod records;
pub mod table;

pub use record::{Record, Written};
