//! Writes what an upgrade changes, in one transaction: the table `market`, and the campaign row.
ghost use Rattle.std.specs.Prelude.{◌≡◌, false};
ghost use Rattle.atl_sql.specs.Inside.{DoesInside};
ghost use Rattle.atl_writing.specs.OwnStatements.{OfUpgrade};
ghost use Rattle.atl_writing.specs.UpgradeSteps.{IsFirstFormat, WritesUpgrade};
ghost use Rattle.atl_sql.specs.Writes.{Writes, Transacts};

use crate::campaign_row::upgrade_campaign_row;
use atl_campaign::Campaign;
use atl_sql::tables::create_market;
use sqlite::{Alter, Connection, Error, Transaction};

/// Makes the table `market` and gives the campaign row the second format and the world text `text`,
/// if the database is of the first format and its tables hold `campaign`, without stocks. It is a
/// step of a transaction on a clean disk; an error is the database's.
fn put_upgrade<S: Alter>(
    tx: &mut Transaction<'_, S>,
    text: &str,
    campaign: &Campaign,
) -> Result<(), Error>
    ensures { Writes S.Store (OfUpgrade text.now campaign.now.value)
        (DoesInside IsFirstFormat (WritesUpgrade text.now campaign.now.value)) result tx.old.conn
        tx.new.conn }
{
    create_market(tx)?;
    upgrade_campaign_row(tx, campaign, text)
}

/// Makes the table `market`, and gives the campaign row the second format and the world text
/// `text`, in one transaction. `conn` has to be in no transaction, its database of the first format
/// (`IsFirstFormat`), and `campaign` what its tables hold, without stocks. After an error the
/// tables are as at the last commit, if the connection is still open. All this is promised on a
/// clean disk (docs/PROVED.md, "Premises"). See docs/FORMATS.md, "Upgrading a file".
pub fn write_upgrade<S: Alter>(
    conn: &mut Connection<S>,
    text: &str,
    campaign: &Campaign,
) -> Result<(), Error>
    requires { conn.old.in_transaction ≡ false }
    ensures { Transacts S.Store (OfUpgrade text.now campaign.now.value) IsFirstFormat
        (WritesUpgrade text.now campaign.now.value) result conn.old conn.new }
{
    let mut tx = conn.transaction();
    put_upgrade(&mut tx, text, campaign)?;
    tx.commit()
}
