//! The campaign: the calls that read it, lend a unit's holding, or store mail and reports. What is
//! said of ranges, and of which numbers there are, holds of good campaigns. A unit's goods are its
//! items and days of study; its holding is these with its name, men, money and guard flag.
ghost use Rattle.std.specs.Prelude.{◌≡◌, ◌<◌, ◌≤◌, IfOk, OnOk, OnErr};
ghost use Rattle.std.specs.Option.{option_copied};
ghost use Rattle.std.specs.FinMap as map;
ghost use Rattle.atl_campaign.specs.Campaign.{active, numbers_in_region, numbers_of_faction, numbers_inside, with_mail, with_report};
ghost use Rattle.atl_records.specs.Books.{amount_in, thing_index, AreBooks};
ghost use Rattle.atl_records.specs.Limits.{possible_things};
ghost use Rattle.atl_campaign.specs.Stocks.{stock_of};
ghost use Rattle.atl_campaign.specs.Totals.{total, IsCountable};
ghost use Rattle.atl_campaign.specs.Marking.{mark_mail, mark_report};
ghost use Rattle.atl_campaign.specs.Marks.{AreOfThings};

mod assembling;
mod blank;
mod coming;
mod founding;
mod joining;
mod marking;
mod placing;
mod setting;

use crate::regions::Regions;
use crate::totals::{regions_total, units_total};
use crate::units::Units;
pub use assembling::assemble;
use atl_containers::SlotEntries;
use atl_lists::{UnitLists, numbers_under};
use atl_records::{Books, BooksEntry, Faction, Holding, Region, Structure, Thing, Unit};
use atl_world::{Entries, MarkedMap, Marks, Sequence, Text, let_go};
pub use founding::founded;
use std::alloc::{AllocError, Global};
use std::marker::Model;

/// A whole campaign, with a mark on each row that changed since it was last written.
pub struct Campaign {
    alloc: Global,
    month: u32,
    pass: Text,
    next_faction: u32,
    next_unit: u32,
    next_structure: u32,
    factions: MarkedMap<Faction>,
    regions: Regions,
    units: Units,
    structures: MarkedMap<Structure>,
    mail: MarkedMap<Sequence<u8>>,
    reports: MarkedMap<Text>,
    books: Books,
    // The numbers of the amounts of the books that changed, with room for each.
    amounts_marked: Marks,
    // Whether the campaign row is marked: the month or a next number changed.
    row_marked: bool,
    lists: UnitLists,
}

impl Drop for Campaign {
    fn drop(self) {
        let_go!(self: Campaign {
            alloc, month, pass, next_faction, next_unit, next_structure, factions, regions, units, structures, mail, reports,
            books, amounts_marked, row_marked, lists
        });
    }
}

/// Clauses see a campaign as its value and its marks. The lists have just its units, by region,
/// faction and structure. Only amounts of the books' things are marked, with room for each of them.
impl Model for Campaign {
    ghost use Rattle.atl_campaign.specs.Campaign.{MarkedCampaign, marked_code};
    ghost use Rattle.atl_campaign.specs.KeptLists.{AreListsAndMarksKept};
    ghost use Rattle.atl_campaign.specs.Marking.{marks_of_parts};

    ghost Value = { MarkedCampaign };

    ghost coded = { marked_code };

    ghost view = { λ a. record {
      value = record {
        month = a.month;
        pass = a.pass;
        next_faction = a.next_faction;
        next_unit = a.next_unit;
        next_structure = a.next_structure;
        factions = a.factions.values;
        regions = a.regions.values;
        units = a.units.values;
        structures = a.structures.values;
        mail = a.mail.values;
        reports = a.reports.values;
        books = a.books;
      };
      marks = marks_of_parts a.factions.marks a.regions a.units a.structures.marks a.mail.marks
          a.reports.marks a.amounts_marked.numbers a.row_marked;
    } };

    ghost invariant = { λ a. AreListsAndMarksKept a.units.values a.lists a.books.things
        a.amounts_marked };
}

impl Campaign {
    ghost use Rattle.atl_campaign.specs.Lending.{LendsHolding};
    ghost use Rattle.std.specs.Borrow.{sem};
    ghost use Rattle.std.specs.Option.{option_copied_mut};
    ghost use Rattle.std.specs.Prelude.{option_map};

    /// The month last closed, from 0 to LAST_MONTH.
    pub fn month(&self) -> u32
        ensures { result ≡ self.now.value.month }
    {
        self.month
    }

    /// The moderator's pass text.
    pub fn pass(&self) -> &Text
        ensures { result.now ≡ self.now.value.pass }
    {
        &self.pass
    }

    /// The number of the faction that joins next, from 1 to one more than atl_words' LAST_FACTION.
    pub fn next_faction(&self) -> u32
        ensures { result ≡ self.now.value.next_faction }
    {
        self.next_faction
    }

    /// The number of the unit that comes next, from 1 to one more than LAST_UNIT.
    pub fn next_unit(&self) -> u32
        ensures { result ≡ self.now.value.next_unit }
    {
        self.next_unit
    }

    /// The number of the structure that is begun next, from 1 to one more than MOST_STRUCTURES.
    pub fn next_structure(&self) -> u32
        ensures { result ≡ self.now.value.next_structure }
    {
        self.next_structure
    }

    /// The faction of this number, also one that is gone; None where none joined under it.
    pub fn faction(&self, number: u32) -> Option<&Faction>
        ensures { option_copied result ≡ map.get self.now.value.factions number }
    {
        self.factions.get(number)
    }

    /// All factions that ever joined with their numbers, in rising order.
    pub fn factions(&self) -> Entries<'_, Faction>
        ensures { result ≡ map.entries self.now.value.factions }
    {
        self.factions.iter()
    }

    /// The numbers of the factions that aren't gone, in rising order. AllocError without memory.
    pub fn active(&self) -> Result<Vec<u32>, AllocError>
        ensures { IfOk result (λ numbers. numbers.items ≡ active self.now.value) }
    {
        let mut numbers = Vec::new(self.alloc);
        for (number, faction) in self.factions() {
            if !faction.gone {
                numbers.push(number)?;
            }
        }
        Ok(numbers)
    }

    /// How many factions ever joined.
    pub fn faction_count(&self) -> usize
        ensures { result ≡ map.len self.now.value.factions }
    {
        self.factions.len()
    }

    /// The region of this number; None where there is none.
    pub fn region(&self, number: u32) -> Option<&Region>
        ensures { option_copied result ≡ map.get self.now.value.regions number }
    {
        self.regions.get(number)
    }

    /// The regions with their numbers, in rising order.
    pub fn regions(&self) -> Entries<'_, Region>
        ensures { result ≡ map.entries self.now.value.regions }
    {
        self.regions.iter()
    }

    /// How many regions there are, in a good campaign as many as the world has.
    pub fn region_count(&self) -> usize
        ensures { result ≡ map.len self.now.value.regions }
    {
        self.regions.len()
    }

    /// How many pieces of an item a region has in stock; 0 where it lists none or isn't there.
    pub fn stock(&self, region: u32, item: u32) -> u32
        ensures { result ≡ stock_of self.now.value region item }
    {
        self.regions.stock(region, item)
    }

    /// The unit of this number; None where none has it yet, or it was removed.
    pub fn unit(&self, number: u32) -> Option<&Unit>
        ensures { option_copied result ≡ map.get self.now.value.units number }
    {
        self.units.get(number)
    }

    /// The units with their numbers, in rising order.
    pub fn units(&self) -> SlotEntries<'_, Unit>
        ensures { result ≡ map.entries self.now.value.units }
    {
        self.units.iter()
    }

    /// How many units there are, in a good campaign at most MOST_UNITS.
    pub fn unit_count(&self) -> usize
        ensures { result ≡ map.len self.now.value.units }
    {
        self.units.len()
    }

    /// The structure of this number; None where none was begun under it.
    pub fn structure(&self, number: u32) -> Option<&Structure>
        ensures { option_copied result ≡ map.get self.now.value.structures number }
    {
        self.structures.get(number)
    }

    /// The structures with their numbers, in rising order.
    pub fn structures(&self) -> Entries<'_, Structure>
        ensures { result ≡ map.entries self.now.value.structures }
    {
        self.structures.iter()
    }

    /// How many structures were ever begun, in a good campaign at most MOST_STRUCTURES.
    pub fn structure_count(&self) -> usize
        ensures { result ≡ map.len self.now.value.structures }
    {
        self.structures.len()
    }

    /// A faction's mail for the month to come, byte for byte as it was sent; None if it sent none.
    pub fn mail_of(&self, faction: u32) -> Option<&Sequence<u8>>
        ensures { option_copied result ≡ map.get self.now.value.mail faction }
    {
        self.mail.get(faction)
    }

    /// The mail for the month to come with the factions' numbers, in rising order.
    pub fn mail(&self) -> Entries<'_, Sequence<u8>>
        ensures { result ≡ map.entries self.now.value.mail }
    {
        self.mail.iter()
    }

    /// The stored report of a faction; None where none is stored.
    pub fn report(&self, faction: u32) -> Option<&Text>
        ensures { option_copied result ≡ map.get self.now.value.reports faction }
    {
        self.reports.get(faction)
    }

    /// The stored reports with the factions' numbers, in rising order.
    pub fn reports(&self) -> Entries<'_, Text>
        ensures { result ≡ map.entries self.now.value.reports }
    {
        self.reports.iter()
    }

    /// How many things the books have amounts of, at most 65,538: in a good campaign money, people,
    /// and the items of the world. No amount of another thing is listed or marked, and no listed
    /// amount is 0.
    pub fn things(&self) -> usize
        ensures count { result ≡ self.now.value.books.things }
        ensures few { result ≤ possible_things }
        ensures books { AreBooks result self.now.value.books }
        ensures marks { AreOfThings result self.now.marks.books }
    {
        self.books.len()
    }

    pub fn books(&self) -> &Books
        ensures { result.now ≡ self.now.value.books }
    {
        &self.books
    }

    /// The amount booked of a thing under an entry: what came in less what went. It counts money,
    /// men and peasants, or pieces of an item. The thing has to be one of the books' things.
    pub fn booked(&self, entry: BooksEntry, thing: Thing) -> i64
        requires { thing_index thing < self.now.value.books.things }
        ensures { result ≡ amount_in self.now.value.books entry thing }
    {
        self.books.amount(entry, thing)
    }

    pub(crate) fn alloc(&self) -> Global {
        self.alloc
    }

    /// The numbers of the units in a region, in rising order; none where there is no such region.
    pub fn in_region(&self, region: u32) -> &[u32]
        ensures { result.now ≡ numbers_in_region region self.now.value.units }
    {
        numbers_under(&self.lists.by_region, region)
    }

    /// The numbers of the units of a faction, in rising order; none where there is no such faction,
    /// or it is gone.
    pub fn of_faction(&self, faction: u32) -> &[u32]
        ensures { result.now ≡ numbers_of_faction faction self.now.value.units }
    {
        numbers_under(&self.lists.by_faction, faction)
    }

    /// The numbers of the units inside a structure, in rising order; none for 0, which is no
    /// structure.
    pub fn inside(&self, structure: u32) -> &[u32]
        ensures { result.now ≡ numbers_inside structure self.now.value.units }
    {
        numbers_under(&self.lists.by_structure, structure)
    }

    /// Lends a unit's holding, and marks the unit, its row and all its goods. A write through the
    /// loan changes that holding alone. None, and no mark, where no unit has the number. It takes
    /// no memory.
    pub fn unit_mut(&mut self, number: u32) -> Option<&mut Holding>
        ensures* writes_back { sem 𝓛 (LendsHolding self.entry number result) }
        ensures value { option_copied_mut result
            ≡ option_map (λ u. u.holding) (map.get self.old.value.units number) }
    {
        match self.units.get_mut(number) {
            Some(unit) => Some(&mut unit.holding),
            None => None,
        }
    }

    /// Stores a faction's mail for the month to come instead of an older one, and marks it.
    /// AllocError without memory, and then the campaign and its marks stay as they are.
    pub fn set_mail(&mut self, faction: u32, text: Sequence<u8>) -> Result<(), AllocError>
        ensures ok { OnOk result (self.new.value ≡ with_mail self.old.value faction text) }
        ensures err { OnErr result (self.new ≡ self.old) }
        ensures marks { OnOk result (self.new.marks ≡ mark_mail self.old faction) }
    {
        self.mail.put(faction, text)?;
        Ok(())
    }

    /// Stores a faction's report instead of an older one, and marks it. AllocError without memory,
    /// and then the campaign and its marks stay as they are.
    pub fn set_report(&mut self, faction: u32, report: Text) -> Result<(), AllocError>
        ensures ok { OnOk result (self.new.value ≡ with_report self.old.value faction report) }
        ensures err { OnErr result (self.new ≡ self.old) }
        ensures marks { OnOk result (self.new.marks ≡ mark_report self.old faction) }
    {
        self.reports.put(faction, report)?;
        Ok(())
    }

    /// How much there is of a thing in all units and regions, with their stocks. It counts money,
    /// men and peasants, or pieces of an item. There have to be at most 1,000,000 units and regions
    /// together. It takes no memory.
    #[tactic(auto, unfolding(crate::specs::Totals::total))]
    pub fn total(&self, thing: Thing) -> u64
        requires { IsCountable self.now.value }
        ensures { result ≡ total self.now.value thing }
    {
        units_total(&self.units, thing) + regions_total(&self.regions, thing)
    }
}
