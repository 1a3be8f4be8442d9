//! Rewrites all rows of a unit's goods (items and skills) or of a region's stocks: deletes them and
//! puts them again. Each write is a step of a transaction on the ten tables and a clean disk; an
//! error is the database's.
ghost use Rattle.std.specs.Prelude.{◌≡◌, ℕ, suc, List, [], ◌∷◌};
ghost use Rattle.std.specs.Ordering.{nat_cmp};
ghost use Rattle.std.specs.FinSet.{FinSet};
ghost use Rattle.sqlite.specs.Order.{Row as SqlRow};
ghost use Rattle.atl_descriptions.specs.Tables.{Part, IsGroupedPart, key_width_of, table_of};
ghost use Rattle.atl_writing.specs.Rows.{rows_for};
ghost use Rattle.atl_sql.specs.Shown.{int};
ghost use Rattle.atl_writing.specs.GroupedRows.{AreGroups};
ghost use Rattle.atl_writing.specs.OwnStatements.{OfChange};
ghost use Rattle.atl_sql.specs.Writes.{Writes, WritesRows, TakesOut};
ghost use Rattle.atl_sql.specs.Inside.{DoesInside, HasTables};
ghost use Rattle.atl_writing.specs.Rewriting.{RewritesGroup, RewritesGroups};
ghost use Rattle.atl_world.specs.Tracking.{IsAscendingListOf};
ghost use Rattle.atl_campaign.specs.Marks.{Marks};
ghost use Rattle.atl_campaign.specs.Campaign.{CampaignValue};

use crate::numbered_rows::NumberedRow;
use atl_campaign::Campaign;
use atl_world::MarkedNumbers;
use sqlite::{Alter, Error, Transaction};

/// A unit or a region: it has its own row and, in another table, rows whose key begins with its
/// number, for its goods, or for its stocks.
pub(crate) trait Grouped: NumberedRow {
    // The part whose table has the rows.
    ghost part: { Part };

    // The rows of the part come in groups, one for each number.
    ghost is_grouped: { IsGroupedPart part };

    // How many columns of the key come after the number.
    ghost more: { ℕ };

    // The part's key is the number and `more` columns.
    ghost is_key: { key_width_of part ≡ suc more };

    // The rows that a unit or region of this number has in the table, as a list.
    ghost lines: { ℕ → Self → List SqlRow };

    // The set of rows that the table has to have for a campaign.
    ghost wanted: { CampaignValue → SqlRow → Type 0 };

    // The numbers of the units, or regions, whose rows of the table are all marked.
    ghost marks: { Marks → FinSet nat_cmp };

    // Each wanted row is a row of the part.
    ghost are_rows: { (own : SqlRow) (c : CampaignValue) (r : SqlRow) → wanted c r → rows_for own c
        part r };

    /// The numbers of the units whose goods, or of the regions whose stocks, are all marked, in
    /// rising order.
    fn marked_groups(campaign: &Campaign) -> MarkedNumbers<'_>
        ensures { IsAscendingListOf (marks campaign.now.marks) result };

    /// Inserts the rows of the goods of this unit, or of the stocks of this region, which has this
    /// number, or changes the rows with the same keys.
    fn put_rows<S: Alter>(&self, tx: &mut Transaction<'_, S>, number: u32) -> Result<(), Error>
        ensures { WritesRows S.Store (table_of part) (suc more) (lines number self.now) result
            tx.old.conn tx.new.conn };

    /// Deletes all rows of goods, or of stocks, whose key begins with the number.
    fn drop_rows<S: Alter>(tx: &mut Transaction<'_, S>, number: u32) -> Result<(), Error>
        ensures { TakesOut S.Store (table_of part) 1 (int number ∷ []) result tx.old.conn
            tx.new.conn };
}

/// Deletes the rows of this number, and puts those of the unit or region that has it, if there is
/// one. `lines` has to make exactly the rows that are wanted (`AreGroups`).
fn rewrite_group<V: Grouped + Drop, S: Alter>(
    tx: &mut Transaction<'_, S>,
    campaign: &Campaign,
    number: u32,
) -> Result<(), Error>
    requires { AreGroups V.Grouped.lines (suc V.Grouped.more)
        (V.NumberedRow.values campaign.now.value) (V.Grouped.wanted campaign.now.value) }
    ensures { Writes S.Store (OfChange campaign.now.value)
        (DoesInside HasTables (RewritesGroup (table_of V.Grouped.part)
        (V.Grouped.wanted campaign.now.value) number)) result tx.old.conn tx.new.conn }
{
    V::drop_rows(tx, number)?;
    match V::find_value(campaign, number) {
        Some(value) => value.put_rows(tx, number),
        None => Ok(()),
    }
}

/// Rewrites the rows of all marked numbers: deletes those whose key begins with such a number, and
/// puts those of the units or regions that have such numbers. `lines` has to make exactly the rows
/// that are wanted (`AreGroups`).
pub(crate) fn rewrite_marked_groups<V: Grouped + Drop, S: Alter>(
    tx: &mut Transaction<'_, S>,
    campaign: &Campaign,
) -> Result<(), Error>
    requires { AreGroups V.Grouped.lines (suc V.Grouped.more)
        (V.NumberedRow.values campaign.now.value) (V.Grouped.wanted campaign.now.value) }
    ensures { Writes S.Store (OfChange campaign.now.value)
        (DoesInside HasTables (RewritesGroups (table_of V.Grouped.part)
        (V.Grouped.wanted campaign.now.value) (V.Grouped.marks campaign.now.marks))) result
        tx.old.conn tx.new.conn }
{
    for number in V::marked_groups(campaign) {
        rewrite_group::<V, S>(tx, campaign, number)?;
    }
    Ok(())
}
