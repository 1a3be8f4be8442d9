//! Tests, after the reads, that the schema is that of a format and that the connection is open.
ghost use Rattle.std.specs.Prelude.{◌≡◌, false, OnOk, IfErr};
ghost use Rattle.sqlite.specs.Held.{state};
ghost use Rattle.sqlite.specs.State.{HasCleanDisk};
ghost use Rattle.atl_store.specs.Gathering.{IsCommitted, FailsToConfirm, IsConfirmed};
ghost use Rattle.atl_store.specs.Loading.{AfterReads};

use crate::fault::LoadFault;
use atl_sql::schema::has_tables_of;
use atl_world::Format;
use sqlite::{Alter, Connection};

/// Ok says that the schema begins with the tables of the format, the trees list and obey it, and
/// the connection is open. A disk that failed as a read was rolled back has shut it, which only a
/// statement shows, so the short table of the books is read. The fault is Store for another schema,
/// or that of this SELECT's refusal. All this, and that the tables stay while the connection is
/// open, is promised on a clean disk. Before, `conn` is in no transaction and all is committed.
pub(crate) fn confirm<S: Alter>(conn: &mut Connection<S>, format: Format) -> Result<(), LoadFault>
    requires idle { conn.old.in_transaction ≡ false }
    requires settled { IsCommitted (state S.Store conn.old) }
    ensures ok { HasCleanDisk (state S.Store conn.new)
        → OnOk result (IsConfirmed format (state S.Store conn.old) (state S.Store conn.new)) }
    ensures fails { HasCleanDisk (state S.Store conn.new)
        → IfErr result (FailsToConfirm S.Store conn.old format) }
    ensures leaves { AfterReads S.Store conn.old conn.new }
{
    if !has_tables_of(conn.schema(), format) {
        return Err(LoadFault::Store);
    }
    conn.query_all(
        "SELECT entry, thing, amount, rowid FROM books ORDER BY entry, thing",
        &[],
    )?;
    Ok(())
}
