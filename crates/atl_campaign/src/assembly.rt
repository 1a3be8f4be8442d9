//! Builds from rows what a campaign holds: units, their lists, maps by number, and books.
mod books;
mod goods;
mod maps;
mod records;
mod units;

pub(crate) use books::books_of;
pub(crate) use maps::{CampaignMaps, campaign_maps_of};
pub(crate) use records::{moved_name, pass_of, take_rows};
pub(crate) use units::{lists_of, roster_of};
