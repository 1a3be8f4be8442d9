//! Writes what is marked of a campaign, in one transaction: the campaign row, then the other parts.
ghost use Rattle.std.specs.Prelude.{◌≡◌, ◌≤◌, false};
ghost use Rattle.atl_records.specs.Limits.{most_things};
ghost use Rattle.atl_writing.specs.Changing.{WritesChanges};
ghost use Rattle.atl_writing.specs.OwnStatements.{OfChange};
ghost use Rattle.atl_sql.specs.Writes.{Writes, Transacts};
ghost use Rattle.atl_sql.specs.Inside.{DoesInside, HasTables};

use crate::campaign_row::rewrite_campaign_row;
use crate::write_parts::{OtherParts, WrittenPart};
use atl_campaign::Campaign;
use sqlite::{Alter, Connection, Error, Transaction};

/// Writes all that is marked, if the table `campaign` has one row, of the second format. It is a
/// step of a transaction on the ten tables and a clean disk; an error is the database's. The books
/// may have no more things than a world can have.
fn rewrite_parts<S: Alter>(tx: &mut Transaction<'_, S>, campaign: &Campaign) -> Result<(), Error>
    requires { campaign.now.value.books.things ≤ most_things }
    ensures { Writes S.Store (OfChange campaign.now.value)
        (DoesInside HasTables (WritesChanges campaign.now)) result tx.old.conn tx.new.conn }
{
    rewrite_campaign_row(tx, campaign)?;
    OtherParts::rewrite(tx, campaign)
}

/// Makes the rows with marked keys those of the campaign, in one transaction: one that it lacks is
/// deleted. All other rows, and the world text, stay. `conn` has to be in no transaction, with
/// the ten tables and one row in the table `campaign`, of the second format. The books may have no
/// more things than a world can have. After an error the tables are as at the last commit, if the
/// connection is still open. All this is promised on a clean disk (docs/PROVED.md, "Premises").
pub fn write_marked<S: Alter>(conn: &mut Connection<S>, campaign: &Campaign) -> Result<(), Error>
    requires idle { conn.old.in_transaction ≡ false }
    requires things { campaign.now.value.books.things ≤ most_things }
    ensures { Transacts S.Store (OfChange campaign.now.value) HasTables (WritesChanges campaign.now)
        result conn.old conn.new }
{
    let mut tx = conn.transaction();
    rewrite_parts(&mut tx, campaign)?;
    tx.commit()
}
