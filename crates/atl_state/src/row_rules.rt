//! The rules that are checked on rows: 1 to 3, before a campaign is made of them, and after it the
//! part of 4 on rows of the table `market`. See docs/FORMATS.md, "Rules of the tables".
mod head;
mod keys;
mod markets;
mod names;
mod numbers;
mod ranges;

pub(crate) use head::{are_of_format, is_one_campaign_row};
pub use keys::are_distinct;
pub(crate) use markets::are_of_markets;
pub(crate) use names::rows_named;
pub(crate) use ranges::rows_in_range;
