//! Containers of a campaign: a map by number whose values keep their slots, and a sorted list of
//! numbers that grows at both ends.
#![tactic(auto)]

pub mod arena;
mod gap_vec;
mod index;
mod numbers;

pub use arena::{Arena, SlotEntries};
pub use numbers::Numbers;
