//! Judges the rows of a campaign by the rules of the tables, and gives the campaign that they say.
#![tactic(auto)]

mod checking;
mod row_rules;
mod rules;

pub use atl_campaign::{
    Books, BooksEntry, Campaign, ENTRY_COUNT, Event, EventFault, EventVerb, FIRST_ITEM, Faction,
    HOLDING_LIMIT, Holding, JoinFault, LAST_MONTH, LAST_UNIT, MEN_LIMIT, MOST_DAYS,
    MOST_STRUCTURES, MOST_UNITS, Outcome, Parts, Region, SlotEntries, Structure, Thing, Unit,
    campaign, carry, founded, good_campaigns_are_early, goods, level, level_in, level_in_any, load,
    parts,
};
pub use checking::{CheckFault, Rule, check, check_as};
pub use row_rules::are_distinct;
