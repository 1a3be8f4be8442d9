//! Writes the row of a mailing.
ghost use Rattle.std.specs.Prelude.{◌≡◌, false};
ghost use Rattle.atl_writing.specs.OwnStatements.{OfMail};
ghost use Rattle.atl_sql.specs.Writes.{Transacts};
ghost use Rattle.atl_sql.specs.Inside.{HasTables};
ghost use Rattle.atl_writing.specs.Arriving.{WritesMail};

use crate::numbered_rows::put_mail;
use sqlite::{Alter, Connection, Error};

/// Puts a faction's mailing into the table `mail`, in place of the faction's row, if there is one,
/// in one transaction. `conn` has to be in no transaction, and to have the ten tables. After an
/// error the tables are as at the last commit, if the connection is still open. All this is
/// promised on a clean disk (docs/PROVED.md, "Premises").
pub fn write_mailing<S: Alter>(
    conn: &mut Connection<S>,
    faction: u32,
    text: &[u8],
) -> Result<(), Error>
    requires { conn.old.in_transaction ≡ false }
    ensures { Transacts S.Store (OfMail faction text.now) HasTables (WritesMail faction text.now)
        result conn.old conn.new }
{
    let mut tx = conn.transaction();
    put_mail(&mut tx, faction, text)?;
    tx.commit()
}
