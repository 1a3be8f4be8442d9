//! Makes the ten tables, where there was no table, and writes a whole campaign and its world text.
ghost use Rattle.std.specs.Prelude.{◌≡◌, ◌≤◌, false};
ghost use Rattle.atl_records.specs.Limits.{most_things};
ghost use Rattle.atl_writing.specs.OwnStatements.{OfFounding};
ghost use Rattle.atl_sql.specs.Writes.{Writes, Transacts};
ghost use Rattle.atl_sql.specs.Inside.{DoesInside, IsBlank};
ghost use Rattle.atl_writing.specs.Filling.{WritesFounding};

use crate::campaign_row::put_campaign_row;
use crate::write_parts::{OtherParts, WrittenPart};
use atl_campaign::Campaign;
use atl_sql::tables::create_tables;
use sqlite::{Alter, Connection, Error, Transaction};

/// Makes the ten tables and writes the world text and all rows of the campaign, if the database has
/// no table, index, view or trigger: a step of a transaction on a clean disk; an error is the
/// database's. The books may have no more things than a world can have.
fn put_founding<S: Alter>(
    tx: &mut Transaction<'_, S>,
    text: &str,
    campaign: &Campaign,
) -> Result<(), Error>
    requires { campaign.now.value.books.things ≤ most_things }
    ensures { Writes S.Store (OfFounding text.now campaign.now.value)
        (DoesInside IsBlank (WritesFounding text.now campaign.now.value)) result tx.old.conn
        tx.new.conn }
{
    create_tables(tx)?;
    put_campaign_row(tx, campaign, text)?;
    OtherParts::fill(tx, campaign)
}

/// Makes the ten tables and writes all rows of a campaign, with the world text `text`, in one
/// transaction. `conn` has to be in no transaction, and its database without table, index, view and
/// trigger. The books may have no more things than a world can have. After an error the tables are
/// as at the last commit, if the connection is still open. All this is promised on a clean disk
/// (docs/PROVED.md, "Premises").
pub fn write_founding<S: Alter>(
    conn: &mut Connection<S>,
    text: &str,
    campaign: &Campaign,
) -> Result<(), Error>
    requires idle { conn.old.in_transaction ≡ false }
    requires things { campaign.now.value.books.things ≤ most_things }
    ensures { Transacts S.Store (OfFounding text.now campaign.now.value) IsBlank
        (WritesFounding text.now campaign.now.value) result conn.old conn.new }
{
    let mut tx = conn.transaction();
    put_founding(&mut tx, text, campaign)?;
    tx.commit()
}
