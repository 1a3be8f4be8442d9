//! The rows of the tables: how they are put, deleted and read. See docs/FORMATS.md, "Tables".

pub mod campaign;
pub mod has;
pub mod market;
mod shown;
pub(crate) mod stored;
mod written;

pub use stored::{RowWithId, Stored, parse_rows};
pub use written::{put, take_out, take_out_number};
