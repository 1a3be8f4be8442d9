//! The lists of a campaign's units, one for each region, each faction and each structure.
#![tactic(auto)]

pub mod lists;

pub use lists::{ListKeys, UnitLists, list_keys_of, numbers_under};
