//! The records of a campaign: factions, units, regions and structures.
use crate::holding::{Holding, amount_under};
use atl_world::{Numbered, Text, let_go};
use std::error::Error;
use std::fmt;

/// A player's faction. Its names and pass text obey docs/RULES.md, "Names and pass texts".
pub struct Faction {
    /// The faction's number, from 1 to atl_lines' LAST_FACTION, in the order of joining.
    pub number: u32,
    /// The name that the faction joined under; no other faction ever joins under it.
    pub joined_as: Text,
    /// The faction's name, as reports show it.
    pub name: Text,
    /// The pass text that the faction's player sends with each command.
    pub pass: Text,
    /// Whether the faction is gone: it has no unit left, and never comes back.
    pub gone: bool,
}

impl Drop for Faction {
    fn drop(self) {
        let_go!(self: Faction { number, joined_as, name, pass, gone });
    }
}

/// People of one faction in one region, who share what they hold.
pub struct Unit {
    /// The number of the unit's faction.
    pub faction: u32,
    /// The number of the region where the unit is.
    pub region: u32,
    /// The number of the structure that the unit is inside, or 0 where it is inside none.
    pub structure: u32,
    /// What the unit holds: its name, men, money, guard flag, items and days of study.
    pub holding: Holding,
}

impl Drop for Unit {
    fn drop(self) {
        let_go!(self: Unit { faction, region, structure, holding });
    }
}

/// What a region holds besides its units: peasants, money, and the stocks of its markets.
pub struct Region {
    /// The people in the region that are of no faction, from 0 to atl_world's MOST_AMOUNT.
    pub peasants: u32,
    /// The money in the region that no unit has, from 0 to atl_world's MOST_AMOUNT.
    pub money: u32,
    /// The stocks of the region's markets: how many pieces of each item, where they are not 0, up
    /// to the limit of the item's market.
    pub stocks: Numbered<u32>,
}

impl Drop for Region {
    fn drop(self) {
        let_go!(self: Region { peasants, money, stocks });
    }
}

impl Region {
    ghost use Rattle.std.specs.Prelude.{◌≡◌};
    ghost use Rattle.atl_records.specs.Holdings.{amount_of};

    /// How many pieces of an item the region has in stock, 0 where none are listed.
    pub fn stock(&self, item: u32) -> u32
        ensures { result ≡ amount_of self.now.stocks item }
    {
        amount_under(&self.stocks, item)
    }
}

/// A building or a ship. See docs/RULES.md, "Owners".
#[derive(Drop)]
pub struct Structure {
    /// The index of the structure's kind in the list of the world's kinds.
    pub kind: u16,
    /// The structure's name, as reports show it.
    pub name: Text,
    /// The number of the region where the structure is.
    pub region: u32,
    /// How much is built, from 1 to the size of the kind; at that size the structure is complete.
    pub done: u32,
    /// The number of the unit inside that owns the structure, or 0 where no unit is inside.
    pub owner: u32,
}

/// Why a faction does not join. The campaign, with its dirty set, is then unchanged.
/// See docs/RULES.md, "Joining".
#[derive(Drop, Clone, Copy, Debug, PartialEq, Eq)]
pub enum JoinFault {
    /// Another faction joined under this name.
    NameTaken,
    /// The last faction has joined, there are MOST_UNITS units, or the last unit number is used.
    Full,
    /// There is no memory for the faction or its unit.
    Memory,
}

/// Prints the fault's name.
impl fmt::Display for JoinFault {
    fn fmt<W: fmt::Write>(&self, f: &mut fmt::Formatter<W>) -> fmt::Result {
        write!(f, "{self:?}")
    }
}

impl Error for JoinFault {}
