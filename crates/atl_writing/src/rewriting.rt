//! Writes the rows of marked numbers, in tables with one row for each number, as of factions or
//! units: the row is put, or deleted if nothing has the number any more. Each call is a step of a
//! transaction on the ten tables and a clean disk; an error is the database's.
ghost use Rattle.atl_descriptions.specs.Tables.{table_of};
ghost use Rattle.atl_writing.specs.OwnStatements.{OfChange};
ghost use Rattle.atl_sql.specs.Writes.{Writes};
ghost use Rattle.atl_sql.specs.Inside.{DoesInside, HasTables};
ghost use Rattle.atl_writing.specs.Rewriting.{RewritesNumber, RewritesMarked};

use crate::numbered_rows::NumberedRow;
use atl_campaign::Campaign;
use sqlite::{Alter, Error, Transaction};

/// Puts the number's row, or deletes it if nothing has the number; marks aren't looked at.
fn rewrite<V: NumberedRow + Drop, S: Alter>(
    tx: &mut Transaction<'_, S>,
    campaign: &Campaign,
    number: u32,
) -> Result<(), Error>
    ensures { Writes S.Store (OfChange campaign.now.value)
        (DoesInside HasTables (RewritesNumber (table_of V.NumberedRow.part) V.NumberedRow.line
        (V.NumberedRow.values campaign.now.value) number)) result tx.old.conn tx.new.conn }
{
    match V::find_value(campaign, number) {
        Some(value) => value.put(tx, number),
        None => V::take_out(tx, number),
    }
}

/// For each marked number puts the row of the value that the campaign has under it, or deletes the
/// number's row if there is none.
pub(crate) fn rewrite_marked<V: NumberedRow + Drop, S: Alter>(
    tx: &mut Transaction<'_, S>,
    campaign: &Campaign,
) -> Result<(), Error>
    ensures { Writes S.Store (OfChange campaign.now.value)
        (DoesInside HasTables (RewritesMarked (table_of V.NumberedRow.part) V.NumberedRow.line
        (V.NumberedRow.values campaign.now.value) (V.NumberedRow.marks campaign.now.marks))) result
        tx.old.conn tx.new.conn }
{
    for number in V::marked_numbers(campaign) {
        rewrite::<V, S>(tx, campaign, number)?;
    }
    Ok(())
}
