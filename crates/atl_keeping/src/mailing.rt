//! Writes a mailing into the table `mail`. See docs/RULES.md, "Mail".
ghost use Rattle.std.specs.Prelude.{◌≡◌, false, List, ℕ, IfErr, OnOk, OnErr};
ghost use Rattle.sqlite.specs.Held.{state};
ghost use Rattle.sqlite.specs.State.{HasCleanDisk};
ghost use Rattle.atl_campaign.specs.Campaign.{CampaignValue, with_mail};
ghost use Rattle.atl_sql.specs.Causes.{IsFaultOfError};
ghost use Rattle.atl_keeping.specs.Faults.{write_fault};
ghost use Rattle.atl_writing.specs.OwnStatements.{OfMail};
ghost use Rattle.atl_sql.specs.Inside.{HasTables, LeavesOff};
ghost use Rattle.atl_writing.specs.Arriving.{WritesMail};
ghost use Rattle.atl_keeping.specs.Keeps.{Keeps, LeavesAfterFault, IsLater, LeavesOthersAlone};

use crate::fault::WriteFault;
use atl_writing::write_mailing;
use sqlite::{Alter, Connection};

/// Writes a faction's mail, in place of an older one, into a database that holds a campaign, in one
/// transaction; `conn` has to be in none before, and is in none after. With Ok the database holds
/// the campaign with this mail, and no other row is touched. Memory: the database says that it has
/// none. Store: it gives another error. After a fault the database holds the campaign before while
/// the connection is open, and a crash leaves the one before or the one after. All of this is
/// promised on a clean disk (docs/PROVED.md, "Premises"). See docs/FORMATS.md, "Tables".
pub fn write_mail<S: Alter>(
    conn: &mut Connection<S>,
    faction: u32,
    text: &[u8],
) -> Result<(), WriteFault>
    requires { conn.old.in_transaction ≡ false }
    ensures ok { HasCleanDisk (state S.Store conn.new)
        → OnOk result ((world : List ℕ) (before : CampaignValue)
        → Keeps (state S.Store conn.old) world before
        → Keeps (state S.Store conn.new) world (with_mail before faction text.now)) }
    ensures err { HasCleanDisk (state S.Store conn.new)
        → OnErr result ((world : List ℕ) (before : CampaignValue)
        → Keeps (state S.Store conn.old) world before
        → LeavesAfterFault (state S.Store conn.old).faults (state S.Store conn.new) world before
        (with_mail before faction text.now)) }
    ensures own { HasCleanDisk (state S.Store conn.new)
        → OnOk result (HasTables (state S.Store conn.old).now
        → WritesMail faction text.now (state S.Store conn.old).now (state S.Store conn.new).now) }
    ensures left { HasCleanDisk (state S.Store conn.new)
        → OnErr result (LeavesOff (state S.Store conn.old) (state S.Store conn.new)) }
    ensures reports_error { HasCleanDisk (state S.Store conn.new)
        → IfErr result (IsFaultOfError S.Store (OfMail faction text.now) write_fault conn.old
        conn.new) }
    ensures later { IsLater (state S.Store conn.old) (state S.Store conn.new) }
    ensures others { HasCleanDisk (state S.Store conn.new)
        → LeavesOthersAlone (state S.Store conn.old) (state S.Store conn.new) }
    ensures idle { conn.new.in_transaction ≡ false }
{
    write_mailing(conn, faction, text)?;
    Ok(())
}
