//! Writes the books, one row for each entry and thing whose amount is not 0. Each call is a step of
//! a transaction on the ten tables and a clean disk; an error is the database's.
ghost use Rattle.std.specs.Prelude.{◌<◌, ◌≤◌, map};
ghost use Rattle.std.specs.List.{range_with_len};
ghost use Rattle.atl_records.specs.Limits.{most_things};
ghost use Rattle.atl_records.specs.Books.{AreBooks, entry_index, thing_index};
ghost use Rattle.atl_descriptions.specs.Tables.{books_table};
ghost use Rattle.atl_writing.specs.GroupedRows.{amount_lines, entries_lines, things_lines};
ghost use Rattle.atl_writing.specs.OwnStatements.{OfAmount, OfChange};
ghost use Rattle.atl_sql.specs.Shown.{books_row};
ghost use Rattle.atl_sql.specs.Writes.{Writes, WritesRow, WritesRows};
ghost use Rattle.atl_sql.specs.Inside.{DoesInside, HasTables};
ghost use Rattle.atl_writing.specs.Arriving.{WritesAmount};
ghost use Rattle.atl_writing.specs.Rewriting.{RewritesAmounts, RewritesBooks, equals_number, is_among};

use atl_campaign::{BooksEntry, Campaign, Thing};
use atl_rows::parts::StoredBooks;
use atl_sql::rows::{put, take_out};
use sqlite::{Alter, Error, Transaction, params};

/// Puts the row of an amount, also of 0. Entry and thing are given by the numbers in the row.
fn put_booked<S: Alter>(
    tx: &mut Transaction<'_, S>,
    entry: u32,
    thing: u32,
    amount: i64,
) -> Result<(), Error>
    ensures { WritesRow S.Store books_table 2 (books_row entry thing amount) result tx.old.conn
        tx.new.conn }
{
    put::<StoredBooks, S>(tx, params![entry, thing, amount])
}

/// Puts the amount's row, or no row if the amount is 0. The thing has to be one of the books'.
fn put_amount<S: Alter>(
    tx: &mut Transaction<'_, S>,
    campaign: &Campaign,
    entry: BooksEntry,
    thing: Thing,
) -> Result<(), Error>
    requires { thing_index thing < campaign.now.value.books.things }
    ensures { WritesRows S.Store books_table 2 (amount_lines campaign.now.value entry thing) result
        tx.old.conn tx.new.conn }
{
    let amount = campaign.booked(entry, thing);
    if amount == 0 {
        return Ok(());
    }
    put_booked(tx, entry.number(), thing.number(), amount)
}

/// Puts the row of an amount of the books, or deletes the row if the amount is 0. The thing has to
/// be one of the books'.
pub fn write_amount<S: Alter>(
    tx: &mut Transaction<'_, S>,
    campaign: &Campaign,
    entry: BooksEntry,
    thing: Thing,
) -> Result<(), Error>
    requires { thing_index thing < campaign.now.value.books.things }
    ensures { Writes S.Store (OfAmount campaign.now.value entry thing)
        (DoesInside HasTables (WritesAmount campaign.now.value entry thing)) result tx.old.conn
        tx.new.conn }
{
    let amount = campaign.booked(entry, thing);
    if amount == 0 {
        return take_out::<StoredBooks, S>(tx, params![entry.number(), thing.number()]);
    }
    put_booked(tx, entry.number(), thing.number(), amount)
}

/// Puts a thing's amounts, but none of 0, under these entries. The thing has to be of the books.
fn put_entries<S: Alter>(
    tx: &mut Transaction<'_, S>,
    campaign: &Campaign,
    thing: Thing,
    entries: &[BooksEntry],
) -> Result<(), Error>
    requires { thing_index thing < campaign.now.value.books.things }
    ensures { WritesRows S.Store books_table 2 (entries_lines campaign.now.value thing entries.now)
        result tx.old.conn tx.new.conn }
{
    for entry in entries {
        put_amount(tx, campaign, *entry, thing)?;
    }
    Ok(())
}

/// Puts the rows of all amounts of the books that are not 0, one thing after another. The books
/// list only such amounts, and only of their own things (`AreBooks`). They may have no more things
/// than a world can have.
pub(crate) fn put_all_books<S: Alter>(
    tx: &mut Transaction<'_, S>,
    campaign: &Campaign,
) -> Result<(), Error>
    requires { campaign.now.value.books.things ≤ most_things }
    ensures rows { WritesRows S.Store books_table 2
        (things_lines campaign.now.value (range_with_len 0 campaign.now.value.books.things))
        result tx.old.conn tx.new.conn }
    ensures books { AreBooks campaign.now.value.books.things campaign.now.value.books }
{
    for number in 0..campaign.things() {
        put_entries(tx, campaign, Thing::of_number(number), &BooksEntry::ALL)?;
    }
    Ok(())
}

/// Writes the amount only if it is marked. The thing has to be one of the books'.
fn rewrite_amount<S: Alter>(
    tx: &mut Transaction<'_, S>,
    campaign: &Campaign,
    entry: BooksEntry,
    thing: Thing,
) -> Result<(), Error>
    requires { thing_index thing < campaign.now.value.books.things }
    ensures { Writes S.Store (OfChange campaign.now.value)
        (DoesInside HasTables (RewritesAmounts campaign.now (equals_number (entry_index entry))
        (equals_number (thing_index thing)))) result tx.old.conn tx.new.conn }
{
    if campaign.is_amount_marked(entry, thing) {
        return write_amount(tx, campaign, entry, thing);
    }
    Ok(())
}

/// Writes a thing's marked amounts under these entries. The thing has to be of the books.
fn rewrite_entries<S: Alter>(
    tx: &mut Transaction<'_, S>,
    campaign: &Campaign,
    thing: Thing,
    entries: &[BooksEntry],
) -> Result<(), Error>
    requires { thing_index thing < campaign.now.value.books.things }
    ensures { Writes S.Store (OfChange campaign.now.value)
        (DoesInside HasTables (RewritesAmounts campaign.now (is_among (map entry_index entries.now))
        (equals_number (thing_index thing)))) result tx.old.conn tx.new.conn }
{
    for entry in entries.iter() {
        rewrite_amount(tx, campaign, *entry, thing)?;
    }
    Ok(())
}

/// Puts the rows of all marked amounts of the books, and deletes the rows of those that are 0. The
/// books may have no more things than a world can have.
pub(crate) fn rewrite_books<S: Alter>(
    tx: &mut Transaction<'_, S>,
    campaign: &Campaign,
) -> Result<(), Error>
    requires { campaign.now.value.books.things ≤ most_things }
    ensures { Writes S.Store (OfChange campaign.now.value)
        (DoesInside HasTables (RewritesBooks campaign.now)) result tx.old.conn tx.new.conn }
{
    for number in 0..campaign.things() {
        rewrite_entries(tx, campaign, Thing::of_number(number), &BooksEntry::ALL)?;
    }
    Ok(())
}
