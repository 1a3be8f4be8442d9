//! Writes the marked single amounts of units and regions, row by row, in steps of a transaction on
//! the ten tables and a clean disk; an error is the database's.
ghost use Rattle.std.specs.Prelude.{◌≡◌, ℕ, Bool};
ghost use Rattle.std.specs.FinMap.{entries};
ghost use Rattle.sqlite.specs.Order.{Row as SqlRow};
ghost use Rattle.sqlite.specs.Table.{Table};
ghost use Rattle.atl_campaign.specs.Campaign.{CampaignValue};
ghost use Rattle.atl_campaign.specs.Marks.{Marks, MarkedThings};
ghost use Rattle.atl_writing.specs.OwnStatements.{OfChange};
ghost use Rattle.atl_sql.specs.Writes.{Writes};
ghost use Rattle.atl_sql.specs.Inside.{DoesInside, HasTables};
ghost use Rattle.atl_writing.specs.Marked.{has_thing};
ghost use Rattle.atl_writing.specs.Rewriting.{FindsByNumbers, Rewrites, is_owner_and_thing, is_owner_and_listed};

use atl_campaign::Campaign;
use atl_world::{Entries, Numbered};
use sqlite::{Alter, Error, Transaction};

/// Amounts of one kind, each under the numbers of an owner and a thing, such as a unit's items or a
/// region's stocks. Each amount has a row if it is not 0, and can be marked by itself.
pub(crate) trait SingleAmounts: Copy {
    // The table that has the amounts' rows.
    ghost table: { Table };

    // The set of rows that the table has to have for a campaign.
    ghost wanted: { CampaignValue → SqlRow → Type 0 };

    // Whether a row is of this kind, and the test holds of its owner and its thing.
    ghost finds: { Self → (ℕ → ℕ → Bool) → SqlRow → Bool };

    // The single amounts that are marked, by the numbers of owner and thing.
    ghost marks: { Self → Marks → MarkedThings };

    /// For each owner with marked single amounts, in rising order, the numbers of their things.
    fn marked_singles(self, campaign: &Campaign) -> Entries<'_, Numbered<()>>
        ensures { result ≡ entries (marks self campaign.now.marks) };

    /// Puts the row of the amount that the campaign has of the thing `number` of this owner, or
    /// deletes the row if the amount is 0.
    fn rewrite_single<S: Alter>(
        self,
        tx: &mut Transaction<'_, S>,
        campaign: &Campaign,
        owner: u32,
        number: u32,
    ) -> Result<(), Error>
        ensures { Writes S.Store (OfChange campaign.now.value)
            (DoesInside HasTables (Rewrites table (finds self (is_owner_and_thing owner number))
            (wanted campaign.now.value))) result tx.old.conn tx.new.conn };
}

/// Writes the amounts that this owner has of the things `numbers`, whether they are marked or not.
/// `finds` has to choose rows by the numbers of owner and thing (`FindsByNumbers`).
fn rewrite_amounts_of_owner<A: SingleAmounts, S: Alter>(
    tx: &mut Transaction<'_, S>,
    campaign: &Campaign,
    amounts: A,
    owner: u32,
    numbers: &Numbered<()>,
) -> Result<(), Error>
    requires { FindsByNumbers (A.SingleAmounts.finds amounts) }
    ensures { Writes S.Store (OfChange campaign.now.value)
        (DoesInside HasTables (Rewrites A.SingleAmounts.table
        (A.SingleAmounts.finds amounts (is_owner_and_listed owner numbers.now))
        (A.SingleAmounts.wanted campaign.now.value))) result tx.old.conn tx.new.conn }
{
    for (number, _mark) in numbers.iter() {
        amounts.rewrite_single(tx, campaign, owner, number)?;
    }
    Ok(())
}

/// Puts the rows of the marked single amounts of a kind, and deletes the rows of those that are 0.
/// `finds` has to choose rows by the numbers of owner and thing (`FindsByNumbers`).
pub(crate) fn rewrite_singles<A: SingleAmounts, S: Alter>(
    tx: &mut Transaction<'_, S>,
    campaign: &Campaign,
    amounts: A,
) -> Result<(), Error>
    requires { FindsByNumbers (A.SingleAmounts.finds amounts) }
    ensures { Writes S.Store (OfChange campaign.now.value)
        (DoesInside HasTables (Rewrites A.SingleAmounts.table
        (A.SingleAmounts.finds amounts
        (has_thing (A.SingleAmounts.marks amounts campaign.now.marks)))
        (A.SingleAmounts.wanted campaign.now.value))) result tx.old.conn tx.new.conn }
{
    for (owner, numbers) in amounts.marked_singles(campaign) {
        rewrite_amounts_of_owner(tx, campaign, amounts, owner, numbers)?;
    }
    Ok(())
}
