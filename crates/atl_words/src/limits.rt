//! The limits of mailings. See docs/RULES.md, "Limits".
use atl_world::limits::MOST_AMOUNT;

/// The most bytes that a mailing may have.
pub const MOST_BYTES: usize = 65_536;

/// The largest number in an order: of a unit, structure, faction, men, money or pieces of an item.
pub const MOST_NUMBER: u32 = MOST_AMOUNT;

/// The largest alias; the smallest is 1.
pub const LAST_ALIAS: u32 = 9_999;

/// The largest number of a faction; the smallest is 1.
pub const LAST_FACTION: u32 = 9_999;
