//! The form of each column of a table: what a value of SQL is read as.
#![tactic(auto)]

pub mod fields;
pub mod form;
pub mod numbers;
pub mod texts;

pub use fields::{Fields, value_at};
pub use form::Form;
