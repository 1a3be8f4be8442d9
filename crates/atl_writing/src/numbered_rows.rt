//! The six tables whose key is a number, such as `faction`: the rows that a campaign has in them,
//! and how these are put and deleted. Each write is a step of a transaction on the ten tables and a
//! clean disk; an error is the database's.
ghost use Rattle.std.specs.Prelude.{◌≡◌, ◌↔◌, ℕ, [], ◌∷◌, take};
ghost use Rattle.std.specs.Ordering.{nat_cmp};
ghost use Rattle.std.specs.Option.{option_copied};
ghost use Rattle.std.specs.FinMap.{FinMap, entries, get};
ghost use Rattle.std.specs.FinSet.{FinSet};
ghost use Rattle.sqlite.specs.Order.{Row as SqlRow};
ghost use Rattle.atl_sql.specs.Shown.{int};
ghost use Rattle.atl_descriptions.specs.Tables.{Part, IsNumberedPart, table_of, unit_table};
ghost use Rattle.atl_writing.specs.Rows.{RowsOf, rows_in_order, rows_for, row_of_unit};
ghost use Rattle.atl_writing.specs.Marked.{begins_marked, is_marked};
ghost use Rattle.atl_sql.specs.Writes.{WritesRow, WritesRows, TakesOut};
ghost use Rattle.atl_world.specs.Tracking.{IsAscendingListOf};
ghost use Rattle.atl_campaign.specs.Marks.{Marks};
ghost use Rattle.atl_campaign.specs.Campaign.{CampaignValue};

mod faction;
mod mail;
mod region;
mod report;
mod structure;
mod unit;

use atl_campaign::{Campaign, SlotEntries, Unit};
use atl_world::{Entries, MarkedNumbers};
pub(crate) use mail::put_mail;
use sqlite::{Alter, Error, Transaction};

/// A type, such as `Faction`, each of whose values has a number and one row in a table, with the
/// number as its key.
pub trait NumberedRow: Sized {
    // The part of a campaign that has a row for each value of the type.
    ghost part: { Part };

    // The key of each row of the part is a number of its own.
    ghost is_numbered: { IsNumberedPart part };

    // The row of a value under its number, as SQL shows it.
    ghost line: { ℕ → Self → SqlRow };

    // The row of a value begins with its number.
    ghost numbered: { (n : ℕ) (v : Self) → take 1 (line n v) ≡ int n ∷ [] };

    // The values of the type that a campaign has, by number.
    ghost values: { CampaignValue → FinMap nat_cmp Self };

    // The numbers whose rows the marks of a campaign mark.
    ghost marks: { Marks → FinSet nat_cmp };

    // The rows of the part are those of all values of the type that the campaign has.
    ghost are_rows: { (own : SqlRow) (c : CampaignValue) (r : SqlRow) → rows_for own c part r ↔
        RowsOf line (values c) r };

    // A row of the part is marked exactly if its number is.
    ghost are_marked: { (m : Marks) (r : SqlRow) → is_marked m part r ≡ begins_marked (marks m) r };

    /// The value with this number in a campaign, such as a faction; None if there is none.
    fn find_value(campaign: &Campaign, number: u32) -> Option<&Self>
        ensures { option_copied result ≡ get (values campaign.now.value) number };

    /// The numbers whose rows are marked in a campaign, also where no value has the number any
    /// more, in rising order.
    fn marked_numbers(campaign: &Campaign) -> MarkedNumbers<'_>
        ensures { IsAscendingListOf (marks campaign.now.marks) result };

    /// Inserts the value's row under its number, or changes the row that has the number.
    fn put<S: Alter>(&self, tx: &mut Transaction<'_, S>, number: u32) -> Result<(), Error>
        ensures { WritesRow S.Store (table_of part) 1 (line number self.now) result tx.old.conn
            tx.new.conn };

    /// Deletes the row with this number, if there is one.
    fn take_out<S: Alter>(tx: &mut Transaction<'_, S>, number: u32) -> Result<(), Error>
        ensures { TakesOut S.Store (table_of part) 1 (int number ∷ []) result tx.old.conn
            tx.new.conn };
}

/// A type with numbered rows (`NumberedRow`) whose values a campaign holds in a map, by number.
pub(crate) trait Mapped: NumberedRow {
    /// All values of the type that a campaign has, in rising order of their numbers.
    fn all(campaign: &Campaign) -> Entries<'_, Self>
        ensures { result ≡ entries (Self.values campaign.now.value) };
}

/// Inserts the row of each of these numbered values into the values' table, or changes the row that
/// has its number.
pub fn put_each<V: NumberedRow + Drop, S: Alter>(
    tx: &mut Transaction<'_, S>,
    values: Entries<'_, V>,
) -> Result<(), Error>
    ensures { WritesRows S.Store (table_of V.NumberedRow.part) 1
        (rows_in_order V.NumberedRow.line values.entry) result tx.old.conn tx.new.conn }
{
    for (number, value) in values {
        value.put(tx, number)?;
    }
    Ok(())
}

/// Inserts the row of each of these units into `unit`, or changes the row that has its number.
pub(crate) fn put_units<S: Alter>(
    tx: &mut Transaction<'_, S>,
    units: SlotEntries<'_, Unit>,
) -> Result<(), Error>
    ensures { WritesRows S.Store unit_table 1 (rows_in_order row_of_unit units.entry) result
        tx.old.conn
        tx.new.conn }
{
    for (number, unit) in units {
        unit.put(tx, number)?;
    }
    Ok(())
}
