//! Upgrades a file of the first format to the second. See docs/RULES.md, "Upgrading".
ghost use Rattle.std.specs.Prelude.{◌≡◌, false, IfOk, IfErr, OnOk};
ghost use Rattle.sqlite.specs.Held.{state};
ghost use Rattle.sqlite.specs.State.{HasCleanDisk};
ghost use Rattle.atl_keeping.specs.Keeps.{IsLater};
ghost use Rattle.atl_store.specs.Loading.{LeavesAlone};
ghost use Rattle.atl_store.specs.Upgrading.{FailsCheck, IsReadyToUpgrade, RefusesToUpgrade, Upgrades};

use crate::fault::UpgradeFault;
use crate::loading::load_as;
use atl_campaign::Campaign;
use atl_sql::schema::is_first_format_only;
use atl_tables::{are_same_but_for_markets, read_world};
use atl_world::{Format, World};
use atl_writing::write_upgrade;
use sqlite::{Alter, Connection};
use std::alloc::Global;

/// Loads the campaign in the first format, and reads the new world, which differs in markets alone.
/// Which fault comes, and that nothing is changed while `conn` is open, holds on a clean disk.
fn world_and_campaign<S: Alter>(
    alloc: Global,
    conn: &mut Connection<S>,
    new_world: &str,
) -> Result<(World, Campaign), UpgradeFault>
    ensures ok { IfOk result
        (λ both. IsReadyToUpgrade S.Store new_world.now conn.old conn.new both.0 both.1) }
    ensures err { HasCleanDisk (state S.Store conn.new)
        → IfErr result (FailsCheck S.Store new_world.now conn.old conn.new) }
    ensures alone { LeavesAlone S.Store conn.old conn.new }
    ensures idle { OnOk result (conn.new.in_transaction ≡ false) }
{
    if !conn.is_autocommit() {
        return Err(UpgradeFault::Store);
    }
    let (old_world, campaign) = load_as(alloc, conn, Format::First)?;
    let world = read_world(alloc, new_world)?;
    if !are_same_but_for_markets(&world, &old_world) {
        return Err(UpgradeFault::Differs);
    }
    Ok((world, campaign))
}

/// Makes a file of the first format one of the second, with this world text, in one transaction.
/// The table of markets is made, without a row, and the campaign row gets the format and the text.
/// With Ok the tables held a campaign in the first format, with a text of the same world without
/// markets, and the connection, in no transaction, holds it with the new text. It is good, and
/// nothing is in stock or marked; the answer is it and the world of the text. NotACampaign, Damaged
/// and Store are returned as by `load`, by the rules of the first format. NotOld: `campaign` has
/// one row, whose format is the second, whatever else it says. Once a campaign is loaded, World:
/// the new text is no world. Differs: its world differs from the old text's in more than markets.
/// Store also comes after these checks: there are more tables or indexes than those of the first
/// format, or the transaction gives an error that is not lack of memory. Memory: memory ran out.
/// After a fault the tables are as they were while the connection is open, and a crash leaves what
/// it left before or, where the transaction was begun, the upgraded campaign. What the tables hold
/// or held, which fault comes, and what a crash leaves, is promised on a clean disk
/// (docs/PROVED.md, "Premises"). See docs/FORMATS.md, "Upgrading a file".
pub fn upgrade<S: Alter>(
    alloc: Global,
    conn: &mut Connection<S>,
    new_world: &str,
) -> Result<(World, Campaign), UpgradeFault>
    ensures ok { IfOk result
        (λ both. Upgrades S.Store new_world.now conn.old conn.new both.0 both.1) }
    ensures err { IfErr result (RefusesToUpgrade S.Store new_world.now conn.old conn.new) }
    ensures later { IsLater (state S.Store conn.old) (state S.Store conn.new) }
{
    let (world, campaign) = world_and_campaign(alloc, conn, new_world)?;
    if !is_first_format_only(conn.schema()) {
        return Err(UpgradeFault::Store);
    }
    write_upgrade(conn, new_world, &campaign)?;
    Ok((world, campaign))
}
