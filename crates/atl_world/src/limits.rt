//! The limits of worlds. See docs/RULES.md, "Limits", and docs/FORMATS.md, "The world file".

pub const MOST_TERRAINS: usize = 20;

pub const MOST_ITEMS: usize = 200;

pub const MOST_SKILLS: usize = 100;

pub const MOST_KINDS: usize = 100;

pub const MOST_REGIONS: usize = 10_000;

/// The most markets of a region.
pub const MOST_MARKETS: usize = 200;

/// The highest number of a region; the lowest is 1.
pub const LAST_REGION: u32 = 99_999;

/// The largest amount of money, of one item or of peasants, number of work places, and capacity of
/// a ship.
pub const MOST_AMOUNT: u32 = 999_999_999;

/// The most bytes of a name or of a pass text.
pub const MOST_NAME_BYTES: usize = 40;

/// The most money of one man or peasant a month: maintenance and tax of a man, income of a peasant.
pub const MOST_PER_HEAD: u32 = 1_000;

/// The largest price of a recruit or an item, wage of a month, and fee of a month of study.
pub const MOST_PRICE: u32 = 1_000_000;

/// The largest `recruit_fraction`: of this many peasants one can be recruited in a month.
pub const MOST_FRACTION: u32 = 1_000;

/// The most births in a month, in percent of the peasants.
pub const MOST_GROWTH: u32 = 100;

/// The largest weight of a man or an item, and the largest weight that a man or an item can carry.
pub const MOST_WEIGHT: u32 = 10_000;

/// The highest level of a skill; the lowest that is learned is 1.
pub const LAST_LEVEL: u32 = 5;

/// The most raw items that one item is made of.
pub const MOST_RAW_COUNT: u32 = 1_000;

/// The largest size of a structure, in material, and the largest crew, in men times levels.
pub const MOST_SIZE: u32 = 999_999;
