//! Writes what is marked of a campaign into its tables. See docs/FORMATS.md, "Tables".
ghost use Rattle.std.specs.Prelude.{◌≡◌, ◌≤◌, false, List, ℕ, IfErr, OnOk, OnErr};
ghost use Rattle.sqlite.specs.Held.{state};
ghost use Rattle.sqlite.specs.State.{HasCleanDisk};
ghost use Rattle.atl_campaign.specs.Covers.{Covers};
ghost use Rattle.atl_records.specs.Limits.{most_things};
ghost use Rattle.atl_campaign.specs.Marks.{no_marks};
ghost use Rattle.atl_campaign.specs.Campaign.{CampaignValue};
ghost use Rattle.atl_sql.specs.Causes.{IsFaultOfError};
ghost use Rattle.atl_writing.specs.Changing.{WritesChanges, HoldsUnmarked};
ghost use Rattle.atl_keeping.specs.Faults.{write_fault};
ghost use Rattle.atl_writing.specs.OwnStatements.{OfChange};
ghost use Rattle.atl_sql.specs.Inside.{HasTables, LeavesOff};
ghost use Rattle.atl_keeping.specs.Keeps.{Keeps, LeavesAfterFault, IsLater, MayLeaveCampaign, LeavesOthersAlone};

use crate::fault::WriteFault;
use atl_campaign::Campaign;
use atl_writing::write_marked;
use sqlite::{Alter, Connection};

/// Writes what is marked of a campaign, in one transaction, into a database that holds the rest of
/// it (`HoldsUnmarked`), such as one with a campaign that differs only in what is marked
/// (`Covers`). Whatever it has under marked keys, the campaign's rows are put and all others there
/// are deleted; no other row is touched. With Ok the database holds the campaign, and nothing of it
/// is marked. `conn` has to be in no transaction, and is in none after; the books may have no more
/// things than a world can have. Memory: the database says that it has none. Store: it gives
/// another error. After a fault the tables are as at the last commit while the connection is open,
/// a crash leaves what it could have left before or the campaign, and the marks stay. All but the
/// marks is promised on a clean disk (docs/PROVED.md, "Premises"). See docs/FORMATS.md, "Tables".
pub fn write_changes<S: Alter>(
    conn: &mut Connection<S>,
    campaign: &mut Campaign,
) -> Result<(), WriteFault>
    requires idle { conn.old.in_transaction ≡ false }
    requires things { campaign.old.value.books.things ≤ most_things }
    ensures ok { HasCleanDisk (state S.Store conn.new)
        → OnOk result ((text : List ℕ) (before : CampaignValue)
        → Keeps (state S.Store conn.old) text before
        → Covers campaign.old.marks before campaign.old.value
        → Keeps (state S.Store conn.new) text campaign.old.value) }
    ensures err { HasCleanDisk (state S.Store conn.new)
        → OnErr result ((text : List ℕ) (before : CampaignValue)
        → Keeps (state S.Store conn.old) text before
        → Covers campaign.old.marks before campaign.old.value
        → LeavesAfterFault (state S.Store conn.old).faults (state S.Store conn.new) text before
        campaign.old.value) }
    ensures marked { HasCleanDisk (state S.Store conn.new)
        → OnOk result (HasTables (state S.Store conn.old).now
        → WritesChanges campaign.old (state S.Store conn.old).now (state S.Store conn.new).now) }
    ensures unmarked { HasCleanDisk (state S.Store conn.new)
        → OnOk result ((text : List ℕ) → HasTables (state S.Store conn.old).now
        → HoldsUnmarked (state S.Store conn.old).now.trees text campaign.old
        → Keeps (state S.Store conn.new) text campaign.old.value) }
    ensures crash { HasCleanDisk (state S.Store conn.new)
        → OnErr result ((text : List ℕ) → HasTables (state S.Store conn.old).now
        → HoldsUnmarked (state S.Store conn.old).now.trees text campaign.old
        → MayLeaveCampaign (state S.Store conn.old) text campaign.old.value
        (state S.Store conn.new)) }
    ensures left { HasCleanDisk (state S.Store conn.new)
        → OnErr result (LeavesOff (state S.Store conn.old) (state S.Store conn.new)) }
    ensures reports_error { HasCleanDisk (state S.Store conn.new)
        → IfErr result (IsFaultOfError S.Store (OfChange campaign.old.value) write_fault conn.old
        conn.new) }
    ensures done { OnOk result (campaign.new ≡ record campaign.old { marks = no_marks }) }
    ensures undone { OnErr result (campaign.new ≡ campaign.old) }
    ensures later { IsLater (state S.Store conn.old) (state S.Store conn.new) }
    ensures others { HasCleanDisk (state S.Store conn.new)
        → LeavesOthersAlone (state S.Store conn.old) (state S.Store conn.new) }
    ensures idle { conn.new.in_transaction ≡ false }
{
    write_marked(conn, campaign)?;
    campaign.unmark();
    Ok(())
}
