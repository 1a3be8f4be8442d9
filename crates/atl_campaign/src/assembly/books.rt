//! Builds the books from their rows. The number of an entry or a thing that doesn't fit 32 bits is
//! read as the largest. An amount of 0 isn't listed. Without memory the answer is AllocError.
ghost use Rattle.std.specs.Prelude.{◌≡◌, ◌≤◌, IfOk};
ghost use Rattle.atl_records.specs.Limits.{possible_things};
ghost use Rattle.atl_campaign.specs.FromRows.{with_books_row, with_books_rows};
ghost use Rattle.atl_records.specs.Books.{no_amounts};

use crate::row_values::as_u32;
use atl_records::{Books, BooksEntry, Thing};
use atl_rows::parts::StoredBooks;
use std::alloc::{AllocError, Global};

/// A row whose entry or thing the books don't have is left out.
fn put_row(books: &mut Books, row: &StoredBooks)
    ensures { books.new ≡ with_books_row books.old row.now }
{
    let Some(entry) = BooksEntry::of_number(as_u32(row.entry)) else {
        return;
    };
    let thing = as_u32(row.thing) as usize;
    if thing < books.len() {
        books.put(entry, Thing::of_number(thing), row.amount);
    }
}

/// The books of this many things, at most 65,538, that are read from rows. A row whose entry or
/// thing these books don't have is left out, and of rows for one amount the last counts.
pub(crate) fn books_of(
    alloc: Global,
    things: usize,
    rows: &[StoredBooks],
) -> Result<Books, AllocError>
    requires { things ≤ possible_things }
    ensures { IfOk result (λ books. books ≡ with_books_rows rows.now (no_amounts things)) }
{
    let mut books = Books::new(alloc, things)?;
    for row in rows {
        put_row(&mut books, row);
    }
    Ok(books)
}
