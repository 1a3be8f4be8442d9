//! The rows of a campaign's tables, whoever wrote them: 64-bit numbers, texts and bytes. They may
//! break any range or rule; what is said of a number or a row holds of rows that keep the rules.
//! Limits without a crate's name are atl_records'. See docs/FORMATS.md, "Rules of the tables".

use atl_world::{Sequence, Text, let_go};

/// The rows of a campaign's tables, in any order. See docs/FORMATS.md, "Tables".
#[derive(Debug)]
pub struct Parts {
    /// The campaign row, of which there is one.
    pub campaign: Sequence<StoredCampaignRow>,
    /// A row for each faction that ever joined.
    pub factions: Sequence<StoredFaction>,
    /// A row for each region of the world.
    pub regions: Sequence<StoredRegion>,
    /// A row for each unit.
    pub units: Sequence<StoredUnit>,
    /// A row for each item that a unit holds, and for each skill of which it has days.
    pub has: Sequence<StoredHas>,
    /// A row for each structure.
    pub structures: Sequence<StoredStructure>,
    /// A row for each faction that sent mail for the month to come.
    pub mail: Sequence<StoredMail>,
    /// A row for each faction's report.
    pub reports: Sequence<StoredReport>,
    /// A row for each amount of the books that is not 0.
    pub books: Sequence<StoredBooks>,
    /// A row for each market whose stock is not 0; none in the first format.
    pub markets: Sequence<StoredMarket>,
}

impl Drop for Parts {
    fn drop(self) {
        let_go!(self: Parts { campaign, factions, regions, units, has, structures, mail, reports, books, markets });
    }
}

/// The campaign row without its world text: id, format, month, next numbers, moderator's pass text.
#[derive(Debug)]
pub struct StoredCampaignRow {
    /// The id of the campaign row, always 1.
    pub id: i64,
    /// The number of the tables' format.
    pub format: i64,
    /// The month last closed, from 0 to LAST_MONTH.
    pub month: i64,
    /// The number of the faction that joins next, from 1; one more than the last number where no
    /// more can join.
    pub next_faction: i64,
    /// The number of the unit that comes next, from 1 to one more than LAST_UNIT.
    pub next_unit: i64,
    /// The number of the structure that is begun next, from 1 to one more than MOST_STRUCTURES.
    pub next_structure: i64,
    /// The moderator's pass text.
    pub pass: Sequence<u8>,
}

impl Drop for StoredCampaignRow {
    fn drop(self) {
        let_go!(self: StoredCampaignRow { id, format, month, next_faction, next_unit, next_structure, pass });
    }
}

/// A row of the table `faction`: a faction's number, names and pass text, and whether it is gone.
#[derive(Debug)]
pub struct StoredFaction {
    /// The faction's number, from 1 to atl_lines' LAST_FACTION.
    pub number: i64,
    /// The name that the faction joined under; no other faction joined under the same name.
    pub joined_as: Sequence<u8>,
    /// The name that the faction shows.
    pub name: Sequence<u8>,
    pub pass: Sequence<u8>,
    /// 1 where the faction has no unit left, else 0.
    pub gone: i64,
}

impl Drop for StoredFaction {
    fn drop(self) {
        let_go!(self: StoredFaction { number, joined_as, name, pass, gone });
    }
}

/// A row of the table `region`: number, peasants and money. Stocks are rows of the table `market`.
#[derive(Debug, Drop)]
pub struct StoredRegion {
    /// The number that the world gives the region.
    pub number: i64,
    /// How many peasants the region has, from 0 to atl_world's MOST_AMOUNT.
    pub peasants: i64,
    /// The money of the region, from 0 to atl_world's MOST_AMOUNT.
    pub money: i64,
}

/// A row of the table `unit`: a unit's number, faction, name, region, structure, men, money and
/// guard flag. Its items and days of study are rows of the table `has`.
#[derive(Debug, Drop)]
pub struct StoredUnit {
    /// The unit's number, from 1 to LAST_UNIT.
    pub number: i64,
    /// The number of the unit's faction.
    pub faction: i64,
    pub name: Sequence<u8>,
    pub region: i64,
    /// The number of the structure that the unit is inside, or 0 where it is inside none.
    pub structure: i64,
    /// How many men the unit has, from 1 to MEN_LIMIT.
    pub men: i64,
    /// The unit's money, from 0 to HOLDING_LIMIT.
    pub money: i64,
    /// 1 where the guard flag is set, else 0.
    pub guard: i64,
}

/// A row of the table `structure`: a structure's number, kind, name, region, owner, and how much of
/// it is done.
#[derive(Debug)]
pub struct StoredStructure {
    /// The structure's number, from 1 to MOST_STRUCTURES.
    pub number: i64,
    /// The index of the structure's kind in the world's list of kinds, from 0.
    pub kind: i64,
    pub name: Sequence<u8>,
    pub region: i64,
    /// How much of the structure is built, from 1 to the size of its kind.
    pub done: i64,
    /// The number of the unit inside that owns it, or 0 where no unit is inside.
    pub owner: i64,
}

impl Drop for StoredStructure {
    fn drop(self) {
        let_go!(self: StoredStructure { number, kind, name, region, done, owner });
    }
}

/// A row of the table `mail`: a faction's mail for the month to come.
#[derive(Debug)]
pub struct StoredMail {
    /// The number of the faction that sent the mail.
    pub faction: i64,
    /// The mailing byte for byte as it was sent. See docs/FORMATS.md, "Mailings".
    pub text: Sequence<u8>,
}

impl Drop for StoredMail {
    fn drop(self) {
        let_go!(self: StoredMail { faction, text });
    }
}

/// A row of the table `report`: a faction's last report.
#[derive(Debug)]
pub struct StoredReport {
    pub faction: i64,
    /// The report as the faction reads it. See docs/FORMATS.md, "Reports".
    pub text: Text,
}

impl Drop for StoredReport {
    fn drop(self) {
        let_go!(self: StoredReport { faction, text });
    }
}

/// A row of the table `has`: what a unit has of an item or a skill.
#[derive(Debug, Drop)]
pub struct StoredHas {
    pub unit: i64,
    /// Whether the row is of an item (0) or of a skill (1).
    pub sort: i64,
    /// The index of the item, or of the skill, in the world's list of them, from 0.
    pub thing: i64,
    /// How many pieces of the item, from 1 to HOLDING_LIMIT, or the days of the skill over all men.
    /// Of days there are at least 1 and at most MOST_DAYS for each man.
    pub amount: i64,
}

/// A row of the table `books`: what is booked of a thing under an entry.
#[derive(Debug, Drop)]
pub struct StoredBooks {
    /// The entry's number, from 1 to ENTRY_COUNT, or to FIRST_ENTRY_COUNT in the first format.
    /// See docs/RULES.md, "Books".
    pub entry: i64,
    /// The thing's number: 0 of money, 1 of people, FIRST_ITEM and more of the items.
    pub thing: i64,
    /// What came in less what went, not 0: money, men and peasants, or pieces of the item.
    pub amount: i64,
}

/// A row of the table `market`: the stock of an item in a region.
#[derive(Debug, Drop)]
pub struct StoredMarket {
    pub region: i64,
    /// The index of the item in the world's list of them, from 0.
    pub item: i64,
    /// How many pieces are in stock, from 1 to the market's limit.
    pub stock: i64,
}
