//! The SQL of each table of a campaign: how the table is made and known again in a schema, and how
//! its rows are put, deleted and read. See docs/FORMATS.md, "Tables".
#![tactic(auto)]

pub mod fault;
pub mod rows;
pub mod schema;
mod statement;
pub mod tables;
