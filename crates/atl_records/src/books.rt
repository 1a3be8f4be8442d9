//! The books: signed amounts by entry and thing. See docs/RULES.md, "Books".
ghost use Rattle.std.specs.Prelude.{◌≡◌, ◌<◌, ◌≤◌, ◌+◌, ◌+ℤ◌, IfOk};
ghost use Rattle.std.specs.Int.{w64};
ghost use Rattle.std.specs.Int.RustNames.{FitsSigned};
ghost use Rattle.atl_records.specs.Limits.{entry_count, possible_things};
ghost use Rattle.atl_records.specs.Books.{AreBooks, entry_index, entry_numbered, thing_index, thing_at, sum_of, amount_in, booked, after_booking, no_amounts, amount_number, with_amount};

use crate::limits::{ENTRY_COUNT, FIRST_ITEM};
use atl_world::variants;
use std::alloc::{AllocError, Global};
use std::marker::Model;

/// An entry of the books: why an amount of a thing came in or went.
/// A move between holders has no entry. See docs/RULES.md, "Books".
#[derive(Drop, Clone, Copy, PartialEq, Eq)]
pub enum BooksEntry {
    /// The money and the peasants that the regions begin with.
    Founding = 1,
    /// The money and the man that a faction begins with.
    Joining = 2,
    /// The money that comes to the regions in each season.
    Income = 3,
    /// The money that units earn by work.
    Wages = 4,
    /// The money that is paid for recruits.
    Recruiting = 5,
    /// The money that is paid for study.
    Study = 6,
    /// The money that is paid for the upkeep of men.
    Upkeep = 7,
    /// The money and the items of units that are removed, where nobody receives them.
    Lost = 8,
    /// The peasants that are born.
    Births = 9,
    /// The men that starve.
    Starved = 10,
    /// The men of a faction that quits.
    Left = 11,
    /// The items that are produced.
    Made = 12,
    /// The items that are used for building and producing.
    Used = 13,
    /// The money that is paid to markets for what units buy.
    Bought = 14,
    /// The money that markets pay for what units sell.
    Sold = 15,
    /// The items that come into the stocks of markets.
    Stocked = 16,
}

/// What amounts are booked of: money, people, or an item.
#[derive(Drop, Clone, Copy, PartialEq, Eq)]
pub enum Thing {
    Money,
    /// Peasants and men.
    People,
    /// The pieces of an item, by its index in the list of the world's items.
    Item(u16),
}

impl BooksEntry {
    /// All entries, in the order of their numbers.
    pub const ALL: [BooksEntry; 16] = variants!(
        BooksEntry: Founding Joining Income Wages Recruiting Study Upkeep Lost Births Starved Left
        Made Used Bought Sold Stocked
    );

    /// The entry's number, from 1 to 16.
    pub fn number(self) -> u32
        ensures value { result ≡ entry_index self + 1 }
        ensures small { result ≤ entry_count }
    {
        self as u32
    }

    /// The entry with a given number from 1 to 16; None for any other number.
    pub fn of_number(number: u32) -> Option<BooksEntry>
        ensures { result ≡ entry_numbered number }
    {
        BooksEntry::ALL
            .iter()
            .copied()
            .find(|entry| entry.number() == number)
    }

    fn column(self) -> usize
        ensures index { result ≡ entry_index self }
        ensures small { result < entry_count }
    {
        self.number() as usize - 1
    }
}

impl Thing {
    /// A thing's number, below 65,538: 0 for money, 1 for people, 2 + i for the item with index i.
    pub fn number(self) -> u32
        ensures value { result ≡ thing_index self }
        ensures small { result < possible_things }
    {
        match self {
            Thing::Money => 0,
            Thing::People => 1,
            Thing::Item(item) => FIRST_ITEM as u32 + u32::from(item),
        }
    }

    /// The thing with a number below 65,538: 0 is money, 1 people, and 2 + i the item with index i.
    pub fn of_number(number: usize) -> Thing
        requires { number < possible_things }
        ensures { result ≡ thing_at number }
    {
        match number {
            0 => Thing::Money,
            1 => Thing::People,
            _ => Thing::Item((number - FIRST_ITEM) as u16),
        }
    }

    fn row_index(self) -> usize
        ensures index { result ≡ thing_index self }
        ensures small { result < possible_things }
    {
        self.number() as usize
    }
}

/// The number of an account (an entry with a thing) in the dirty set of the books: 16 times the
/// thing's number, plus the entry's number, less 1.
pub fn amount_number(entry: BooksEntry, thing: Thing) -> u32
    ensures { result ≡ amount_number entry thing }
{
    ENTRY_COUNT as u32 * thing.number() + entry.number() - 1
}

fn row_sum(row: &[i64; ENTRY_COUNT]) -> i128
    ensures { result ≡ sum_of row.now }
{
    let mut sum = 0i128;
    for amount in row {
        sum += i128::from(*amount);
    }
    sum
}

/// The books: what came in so far of each thing under each entry, less what went. The sum of a
/// thing's entries is what all units and regions hold. See docs/RULES.md, "Books".
#[derive(Drop)]
pub struct Books {
    // A row for each thing, at its number, with an amount for each entry.
    rows: Vec<[i64; ENTRY_COUNT]>,
}

/// Contracts see the books as a `BooksValue`: how many things, and the amounts that are not 0.
impl Model for Books {
    ghost use Rattle.atl_records.specs.Books.{BooksValue, books_code};

    ghost Value = { BooksValue };

    ghost coded = { books_code };

    ghost use Rattle.atl_records.specs.Grids.{as_books, IsGrid};

    ghost view = { λ a. as_books a.rows.items };

    ghost invariant = { λ a. IsGrid a.rows.items };
}

impl Books {
    /// Books of as many things as `things`, with all amounts 0. Things are money, people, and at
    /// most one item for each number of 16 bits. AllocError without memory.
    pub fn new(alloc: Global, things: usize) -> Result<Books, AllocError>
        requires { things ≤ possible_things }
        ensures { IfOk result (λ made. made ≡ no_amounts things) }
    {
        let mut rows = Vec::new(alloc);
        for _made in 0..things {
            rows.push([0; ENTRY_COUNT])?;
        }
        Ok(Books { rows })
    }

    /// Books of no things. It takes no memory.
    pub fn blank(alloc: Global) -> Books
        ensures { result ≡ no_amounts 0 }
    {
        Books {
            rows: Vec::new(alloc),
        }
    }

    /// How many things the books have amounts of, at most 65,538: money, people, and the items of
    /// the world. They list amounts of these alone, and none that is 0 (`AreBooks`).
    pub fn len(&self) -> usize
        ensures value { result ≡ self.now.things }
        ensures few { result ≤ possible_things }
        ensures books { AreBooks result self.now }
    {
        self.rows.len()
    }

    /// What came in of a thing under an entry so far, less what went: money, men and peasants, or
    /// pieces of an item. The books must have the thing.
    pub fn amount(&self, entry: BooksEntry, thing: Thing) -> i64
        requires { thing_index thing < self.now.things }
        ensures { result ≡ amount_in self.now entry thing }
    {
        self.rows[thing.row_index()][entry.column()]
    }

    /// Sets the amount of a thing under an entry, also to 0, which isn't listed. The books must
    /// have the thing. It takes no memory.
    pub fn put(&mut self, entry: BooksEntry, thing: Thing, amount: i64)
        requires { thing_index thing < self.old.things }
        ensures { self.new ≡ with_amount self.old entry thing amount }
    {
        let row = thing.row_index();
        let column = entry.column();
        self.rows[row][column] = amount;
    }

    /// The sum of a thing's amounts over all entries. The books must have the thing.
    pub fn sum(&self, thing: Thing) -> i128
        requires { thing_index thing < self.now.things }
        ensures { result ≡ booked self.now thing }
    {
        row_sum(&self.rows[thing.row_index()])
    }

    /// Adds `amount`, of either sign, to what the books have of a thing under an entry. The books
    /// must have the thing, and the sum must fit 64 bits. It takes no memory.
    pub fn book(&mut self, entry: BooksEntry, thing: Thing, amount: i64)
        requires there { thing_index thing < self.old.things }
        requires fits { FitsSigned w64 (amount_in self.old entry thing +ℤ amount) }
        ensures { self.new ≡ after_booking self.old entry thing amount }
    {
        let booked = self.amount(entry, thing) + amount;
        self.put(entry, thing, booked);
    }
}
