//! Opens a database again after a crash, to show what a crash leaves; no command needs it.
ghost use Rattle.std.specs.Prelude.{List, ℕ, ◌⊎◌, IfOk};
ghost use Rattle.sqlite.specs.Held.{state};
ghost use Rattle.sqlite.specs.State.{HasCleanDisk};
ghost use Rattle.atl_campaign.specs.Campaign.{CampaignValue};
ghost use Rattle.atl_keeping.specs.Keeps.{HoldsCampaign, Keeps, LeavesAfterFault};
ghost use Rattle.atl_store.specs.Reopening.{Reopens};

use crate::fault::StoreFault;
use sqlite::{Alter, Connection};
use sqlite_trees::store::Reopen;
use std::alloc::Global;

/// Ends the connection as a crash does, and opens again what this leaves of its database. On a
/// clean disk (docs/PROVED.md, "Premises") a campaign that the connection held is held again; if a
/// write was stopped by a fault, it is the campaign before or the one after. Memory: memory ran
/// out. Store: there is another error. No clause says when a fault comes, or what it leaves.
pub fn reopen_connection<S: Alter + Reopen + Drop>(
    alloc: Global,
    conn: Connection<S>,
) -> Result<Connection<S>, StoreFault>
    ensures found { IfOk result (Reopens S.Store conn) }
    ensures kept { IfOk result
        (λ again. (text : List ℕ) (c : CampaignValue) → HoldsCampaign S.Store conn text c
        → HoldsCampaign S.Store again text c) }
    ensures stopped { IfOk result
        (λ again. HasCleanDisk (state S.Store again)
        → (faults : ℕ) (text : List ℕ) (before after : CampaignValue)
        → LeavesAfterFault faults (state S.Store conn) text before after
        → Keeps (state S.Store again) text before ⊎ Keeps (state S.Store again) text after) }
{
    let mut store = conn.into_store();
    match store.crash_and_reopen() {
        Ok(()) => {}
        Err(error) => return Err(StoreFault::from(error)),
    }
    match Connection::over(alloc, store) {
        Ok(conn) => Ok(conn),
        Err((error, _)) => Err(StoreFault::from(error)),
    }
}
