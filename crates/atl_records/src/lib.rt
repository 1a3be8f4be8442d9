//! What a campaign consists of: factions, regions, units and structures, what units hold, the
//! books, and the events of a month.
#![tactic(auto)]

mod amounts;
mod books;
mod event;
mod holding;
mod levels;
mod limits;
mod records;

pub use amounts::{region_amount, unit_amount};
pub use books::{Books, BooksEntry, Thing, amount_number};
pub use event::{Event, EventFault, EventVerb, Outcome};
pub use holding::{Holding, amount_under, put_amount};
pub use levels::{carry, goods, level, level_in, level_in_any, load};
pub use limits::{
    ENTRY_COUNT, FIRST_ENTRY_COUNT, FIRST_ITEM, HOLDING_LIMIT, LAST_MONTH, LAST_UNIT, MEN_LIMIT,
    MOST_DAYS, MOST_IN_JOINING, MOST_IN_MONTH, MOST_STRUCTURES, MOST_UNITS,
};
pub use records::{Faction, JoinFault, Region, Structure, Unit};
