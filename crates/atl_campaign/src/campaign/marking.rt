//! Reads and clears the marks of a campaign: what is to be written. A unit's goods are its items
//! and days of study. No call here takes memory.
ghost use Rattle.std.specs.Prelude.{◌≡◌, ◌<◌};
ghost use Rattle.std.specs.FinMap as map;
ghost use Rattle.std.specs.FinSet as set;
ghost use Rattle.atl_world.specs.Tracking.{IsAscendingListOf};
ghost use Rattle.atl_records.specs.Books.{thing_index, amount_number};
ghost use Rattle.atl_campaign.specs.Marks.{AreStocksWithin, AreUnitPartsWithin, no_marks, marks_in};

use super::Campaign;
use atl_records::{BooksEntry, Thing, amount_number};
use atl_world::{Entries, MarkedNumbers, Numbered};

impl Campaign {
    /// How much is marked as to be written: factions, rows of regions, structures, mail, reports,
    /// amounts of the books and the campaign row count one each. So do each unit of which anything
    /// is marked (`units` has all these) and each region of which a stock is (`markets` has these).
    pub fn marks(&self) -> usize
        ensures value { result ≡ marks_in self.now.marks }
        ensures units { AreUnitPartsWithin self.now.marks.units self.now.marks.rows
            self.now.marks.goods
            self.now.marks.items self.now.marks.skills }
        ensures stocks { AreStocksWithin self.now.marks.markets self.now.marks.stocks
            self.now.marks.stock_items }
    {
        let row = if self.row_marked { 1 } else { 0 };
        let named = self.factions.marked_count()
            + self.mail.marked_count()
            + self.reports.marked_count();
        let placed = self.regions.marked_count()
            + self.units.marked_count()
            + self.structures.marked_count();
        named + placed + self.amounts_marked.len() + row
    }

    /// The numbers of the marked factions, in rising order.
    pub fn marked_factions(&self) -> MarkedNumbers<'_>
        ensures { IsAscendingListOf self.now.marks.factions result }
    {
        self.factions.marked_numbers()
    }

    /// The numbers of the regions whose rows are marked, in rising order.
    pub fn marked_regions(&self) -> MarkedNumbers<'_>
        ensures { IsAscendingListOf self.now.marks.regions result }
    {
        self.regions.marked_rows()
    }

    /// The numbers of the regions all of whose stocks are marked, in rising order.
    pub fn marked_stocks(&self) -> MarkedNumbers<'_>
        ensures { IsAscendingListOf self.now.marks.stocks result }
    {
        self.regions.marked_stocks()
    }

    /// The stocks that are marked one by one: the items' numbers by the region's number, in rising
    /// order.
    pub fn marked_stock_items(&self) -> Entries<'_, Numbered<()>>
        ensures { result ≡ map.entries self.now.marks.stock_items }
    {
        self.regions.marked_stock_items()
    }

    /// The numbers of the units of which something is marked, in rising order. Units that were
    /// removed since the last write are among them.
    pub fn marked_units(&self) -> MarkedNumbers<'_>
        ensures { IsAscendingListOf self.now.marks.units result }
    {
        self.units.marked_numbers()
    }

    /// The numbers of the units whose rows are marked, in rising order. Units that were removed
    /// since the last write are among them.
    pub fn marked_rows(&self) -> MarkedNumbers<'_>
        ensures { IsAscendingListOf self.now.marks.rows result }
    {
        self.units.marked_rows()
    }

    /// The numbers of the units all of whose goods are marked, in rising order. Units that were
    /// removed since the last write are among them.
    pub fn marked_goods(&self) -> MarkedNumbers<'_>
        ensures { IsAscendingListOf self.now.marks.goods result }
    {
        self.units.marked_goods()
    }

    /// The items that are marked one by one: their numbers by the unit's number, in rising order.
    /// Those of a unit stay among them when it is removed.
    pub fn marked_items(&self) -> Entries<'_, Numbered<()>>
        ensures { result ≡ map.entries self.now.marks.items }
    {
        self.units.marked_items()
    }

    /// The skills that are marked one by one: their numbers by the unit's number, in rising order.
    /// Those of a unit stay among them when it is removed.
    pub fn marked_skills(&self) -> Entries<'_, Numbered<()>>
        ensures { result ≡ map.entries self.now.marks.skills }
    {
        self.units.marked_skills()
    }

    /// The numbers of the marked structures, in rising order.
    pub fn marked_structures(&self) -> MarkedNumbers<'_>
        ensures { IsAscendingListOf self.now.marks.structures result }
    {
        self.structures.marked_numbers()
    }

    /// The numbers of the factions whose mail is marked, in rising order. Factions whose mail was
    /// removed since the last write are among them.
    pub fn marked_mail(&self) -> MarkedNumbers<'_>
        ensures { IsAscendingListOf self.now.marks.mail result }
    {
        self.mail.marked_numbers()
    }

    /// The numbers of the factions whose report is marked, in rising order.
    pub fn marked_reports(&self) -> MarkedNumbers<'_>
        ensures { IsAscendingListOf self.now.marks.reports result }
    {
        self.reports.marked_numbers()
    }

    /// Whether the amount of a thing under an entry of the books is marked. The thing has to be one
    /// of the books' things.
    pub fn is_amount_marked(&self, entry: BooksEntry, thing: Thing) -> bool
        requires { thing_index thing < self.now.value.books.things }
        ensures { result ≡ set.contains self.now.marks.books (amount_number entry thing) }
    {
        self.amounts_marked.contains(amount_number(entry, thing))
    }

    /// Whether the campaign row is marked: the month or a next number was set since the last write.
    pub fn is_row_marked(&self) -> bool
        ensures { result ≡ self.now.marks.row }
    {
        self.row_marked
    }

    /// Clears all marks, and changes nothing else.
    pub fn unmark(&mut self)
        ensures { self.new ≡ record self.old { marks = no_marks } }
    {
        self.factions.unmark();
        self.regions.unmark();
        self.units.unmark();
        self.structures.unmark();
        self.mail.unmark();
        self.reports.unmark();
        self.amounts_marked.clear();
        self.row_marked = false;
    }
}
