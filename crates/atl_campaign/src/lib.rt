//! A campaign: factions, units, regions, structures, mail, reports and books; and its rows.
#![tactic(auto)]

mod assembly;
pub mod campaign;
mod early;
mod regions;
mod row_values;
mod rows;
mod totals;
mod unit_rows;
mod units;

pub use atl_containers::SlotEntries;
pub use atl_records::{
    Books, BooksEntry, ENTRY_COUNT, Event, EventFault, EventVerb, FIRST_ITEM, Faction,
    HOLDING_LIMIT, Holding, JoinFault, LAST_MONTH, LAST_UNIT, MEN_LIMIT, MOST_DAYS,
    MOST_STRUCTURES, MOST_UNITS, Outcome, Region, Structure, Thing, Unit, carry, goods, level,
    level_in, level_in_any, load,
};
pub use atl_rows::{Parts, parts};
pub use campaign::{Campaign, assemble, founded};
pub use early::good_campaigns_are_early;
pub use row_values::{as_u16, as_u32, campaign_row_of, is_from, is_set};
pub use unit_rows::unit_in_range;
