//! The rows of a campaign's tables, as a file holds them. See docs/FORMATS.md, "Tables".
#![tactic(auto)]

pub mod parts;

pub use parts::Parts;
