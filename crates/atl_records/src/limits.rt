//! The limits of a campaign. See docs/RULES.md, "Limits".

use crate::books::BooksEntry;
use atl_world::limits::MOST_AMOUNT;

/// The most units at one time.
pub const MOST_UNITS: usize = 100_000;

/// The largest number that a unit can have; the smallest is 1.
pub const LAST_UNIT: u32 = 999_999_999;

/// The most structures ever begun; they are numbered from 1 up to this one.
pub const MOST_STRUCTURES: u32 = 10_000;

/// How many entries there are, which is how many the books have in the second format: 16.
pub const ENTRY_COUNT: usize = BooksEntry::ALL.len();

/// How many entries the books have in the first format: all but the three of markets.
pub const FIRST_ENTRY_COUNT: usize = 13;

/// The number of the world's first item among the things of the books; money has 0, people have 1.
pub const FIRST_ITEM: usize = 2;

/// The number of the last month that can be closed; the first is 1.
/// A campaign without a closed month is at 0.
pub const LAST_MONTH: u32 = 9_999;

/// The most men in a unit.
pub const MEN_LIMIT: u32 = 999_999;

/// The most money, or pieces of one item, in a unit.
pub const HOLDING_LIMIT: u32 = MOST_AMOUNT;

/// A bound on how much a month changes an amount of the books, up or down.
pub const MOST_IN_MONTH: u128 = 200_000_000_000_000;

/// A bound on how much the joining of a faction changes an amount of the books.
pub const MOST_IN_JOINING: u128 = 1_000_000_000;

/// The factor of the level formula: level `n` takes `n * (n + 1)` times this many days of each man.
pub(crate) const LEVEL_DAYS: u32 = 15;

/// The most days of study of one skill for each man of a unit.
pub const MOST_DAYS: u32 = 450;
