//! The record of each table, one module each.

pub mod books;
pub mod campaign;
pub mod faction;
pub mod has;
pub mod mail;
pub mod market;
pub mod region;
pub mod report;
pub mod structure;
pub mod unit;
