//! Loads a campaign from its tables. See docs/FORMATS.md, "Opening a file".
ghost use Rattle.std.specs.Prelude.{◌≡◌, false, IfOk, IfErr};
ghost use Rattle.sqlite.specs.Held.{state};
ghost use Rattle.sqlite.specs.State.{HasCleanDisk};
ghost use Rattle.atl_store.specs.Gathering.{IsCommitted, GathersAll, IsLoaded};
ghost use Rattle.atl_store.specs.Loading.{AfterReads, Loads, LoadsIn, RefusesToLoad, RefusesToLoadIn, LeavesAlone};

mod confirmed;
mod gathered;
mod others;
mod own;

use crate::fault::{LoadFault, StoreFault};
use atl_campaign::Campaign;
use atl_campaign::parts::Parts;
use atl_state::{Rule, check_as};
use atl_world::{Format, World};
use confirmed::confirm;
use others::{parts_with, read_others};
use own::read_own;
use sqlite::{Alter, Connection};
use std::alloc::Global;

/// Reads the rows of all tables of the format, and the world. A value of another type than its
/// column, in another table than `campaign`, gives Damaged by the second rule, `Ranges`. All is
/// committed before, `conn` is in no transaction, and the answer is promised on a clean disk.
fn gather<S: Alter>(
    alloc: Global,
    conn: &mut Connection<S>,
    format: Format,
) -> Result<(World, Parts), LoadFault>
    requires idle { conn.old.in_transaction ≡ false }
    requires settled { IsCommitted (state S.Store conn.old) }
    ensures ok { HasCleanDisk (state S.Store conn.new)
        → IfOk result (λ both. GathersAll format S.Store conn.old both.0 both.1) }
    ensures err { HasCleanDisk (state S.Store conn.new)
        → IfErr result (RefusesToLoadIn format S.Store conn.old) }
    ensures leaves { AfterReads S.Store conn.old conn.new }
{
    let (own, world) = read_own(alloc, conn, format)?;
    let Some(others) = read_others(alloc, conn, format)? else {
        return Err(LoadFault::Damaged(Rule::Ranges));
    };
    let parts = parts_with(alloc, own.into_campaign_row(), others)?;
    Ok((world, parts))
}

/// Reads all rows, confirms the schema, and checks the rows by the rules. All is committed before,
/// and `conn` is in no transaction. What is read, and the fault, are promised on a clean disk.
fn load_idle<S: Alter>(
    alloc: Global,
    conn: &mut Connection<S>,
    format: Format,
) -> Result<(World, Campaign), LoadFault>
    requires idle { conn.old.in_transaction ≡ false }
    requires settled { IsCommitted (state S.Store conn.old) }
    ensures ok { IfOk result (λ both. IsLoaded format S.Store conn.old conn.new both.0 both.1) }
    ensures err { HasCleanDisk (state S.Store conn.new)
        → IfErr result (RefusesToLoadIn format S.Store conn.old) }
    ensures leaves { AfterReads S.Store conn.old conn.new }
{
    let (world, parts) = gather(alloc, conn, format)?;
    confirm(conn, format)?;
    let campaign = check_as(alloc, &world, parts, format)?;
    Ok((world, campaign))
}

/// Loads the campaign from tables of this format; it is good, and nothing of it is marked. All else
/// is promised on a clean disk. Nothing is changed while `conn` is open. The faults come as those
/// of `load`, but with OtherFormat for one campaign row of the other format.
pub(crate) fn load_as<S: Alter>(
    alloc: Global,
    conn: &mut Connection<S>,
    format: Format,
) -> Result<(World, Campaign), LoadFault>
    ensures ok { IfOk result (λ both. LoadsIn format S.Store conn.old conn.new both.0 both.1) }
    ensures err { HasCleanDisk (state S.Store conn.new)
        → IfErr result (RefusesToLoadIn format S.Store conn.old) }
    ensures alone { LeavesAlone S.Store conn.old conn.new }
{
    if !conn.is_autocommit() {
        return Err(LoadFault::Store);
    }
    load_idle(alloc, conn, format)
}

/// Loads the campaign that the tables hold, with its world; nothing of it is marked, and it is
/// good. Whatever is answered, nothing is changed while the connection is open; only a disk failure
/// shuts it. NotACampaign: the SELECT of the campaign row is refused, and not for memory, the disk,
/// a closed connection, size or too many steps. OldFormat: the table `campaign` has one row, whose
/// format is the first, whatever else it says. Damaged: the rows break this rule of the tables, and
/// none before it; a value of another type in the campaign row breaks the first, one in another
/// table the second. Store: the connection is in a transaction, or this SELECT is refused for one
/// of those causes but memory. Where the first rule is kept, Store also comes if a later SELECT is
/// refused for any cause but memory, or the disk fails. If all values have their types, it comes,
/// before Damaged, where the tables or indexes are not made as `create` makes them, two rows of the
/// table `has`, `books` or `market` have one rowid, or there is a view or a trigger. Memory: memory
/// runs out. All but that the campaign is good and unmarked is promised on a clean disk
/// (docs/PROVED.md, "Premises"). See docs/FORMATS.md, "Rules of the tables".
pub fn load<S: Alter>(
    alloc: Global,
    conn: &mut Connection<S>,
) -> Result<(World, Campaign), StoreFault>
    ensures ok { IfOk result (λ both. Loads S.Store conn.old conn.new both.0 both.1) }
    ensures err { HasCleanDisk (state S.Store conn.new)
        → IfErr result (RefusesToLoad S.Store conn.old) }
    ensures alone { LeavesAlone S.Store conn.old conn.new }
{
    let both = load_as(alloc, conn, Format::Second)?;
    Ok(both)
}
