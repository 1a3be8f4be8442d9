//! Makes a service of a campaign in a database: `found`, `open` and `upgrade`.
ghost use Rattle.std.specs.Prelude.{IfOk, IfErr, IfSome};
ghost use Rattle.atl_campaign.specs.Totals.{Balances};
ghost use Rattle.atl_service.specs.Found.{Founds, RefusesFounding};
ghost use Rattle.atl_service.specs.Opened.{ComesBack, Opens, RefusesOpening};
ghost use Rattle.atl_service.specs.Upgraded.{UpgradesTo, RefusesUpgrade};

use crate::cause::{Cause, Refused};
use crate::founding::world_and_campaign;
use atl_commands::Service;
use atl_store::{create, load};
use sqlite::{Alter, Connection};
use std::alloc::Global;

/// Founds a campaign by a world text and the moderator's pass text, in a database without tables.
/// Its books balance. The cause of a refusal is the first check that fails: World, BadPassText,
/// NotEmpty, Store; or Memory at any of them. NotEmpty: there is a table `campaign`. Store: there
/// is another table, an index or a view, the connection is in a transaction, or the write failed,
/// on a clean disk by a call's error other than out of memory. After World, BadPassText and
/// NotEmpty nothing is changed, nor after Memory if the text is no world or the pass text breaks
/// its rule. After Store and Memory, if the disk is clean, the tables are as they were while the
/// connection is open. A crash then leaves what it left before or the founded campaign. See
/// docs/RULES.md, "Founding", and docs/FORMATS.md, "Faults of a world file" and "Tables".
pub fn found<S: Alter>(
    alloc: Global,
    mut conn: Connection<S>,
    world_text: &str,
    pass: &[u8],
) -> Result<Service<S>, Refused<S>>
    ensures ok { IfOk result (Founds S.Store conn world_text.now pass.now) }
    ensures balances { IfOk result (λ s. IfSome s.campaign Balances) }
    ensures err { IfErr result
        (λ r. RefusesFounding S.Store conn world_text.now pass.now r.why r.conn) }
{
    let (world, mut campaign) = match world_and_campaign(alloc, world_text, pass) {
        Ok(both) => both,
        Err(why) => return Err(Refused { why, conn }),
    };
    match create(&mut conn, world_text, &mut campaign) {
        Ok(()) => Ok(Service::opened(alloc, conn, world, campaign)),
        Err(fault) => Err(Refused {
            why: Cause::from(fault),
            conn,
        }),
    }
}

/// Opens the campaign that the tables hold, a good one whose books balance, with its world. On a
/// clean disk campaign and world are as they were stored, and the tables are unchanged, also, while
/// the connection is open, after a refusal. What a cause says is certain on a clean disk alone.
/// NotACampaign: there is no table `campaign`, or it lacks a column. OldFormat: the table
/// `campaign` has one row, whose format is the first, whatever else it says; `upgrade` is for such
/// tables. Damaged: this is the first rule that the rows of the tables break. Store: the connection
/// is in a transaction, the tables are not made as those of a campaign, or the database failed for
/// another cause than memory. Memory: it ran out. See docs/FORMATS.md, "Rules of the tables".
pub fn open<S: Alter>(alloc: Global, mut conn: Connection<S>) -> Result<Service<S>, Refused<S>>
    ensures ok { IfOk result (Opens S.Store conn) }
    ensures back { IfOk result (ComesBack S.Store conn) }
    ensures balances { IfOk result (λ s. IfSome s.campaign Balances) }
    ensures err { IfErr result (λ r. RefusesOpening S.Store conn r.why r.conn) }
{
    if !conn.is_autocommit() {
        return Err(Refused {
            why: Cause::Store,
            conn,
        });
    }
    match load(alloc, &mut conn) {
        Ok((world, campaign)) => Ok(Service::opened(alloc, conn, world, campaign)),
        Err(fault) => Err(Refused {
            why: Cause::from(fault),
            conn,
        }),
    }
}

/// Upgrades a campaign's tables from the first format to the second, with a new world, and opens
/// the campaign. The new world may differ from the old one only in markets. The campaign is as it
/// was; it is good, nothing is in stock, and its books balance. The cause of a refusal is the first
/// check that fails. A refusal returns the connection; if the disk is clean, the tables are as they
/// were while the connection is open, and a crash leaves what it left before or the upgraded
/// campaign. What a cause says, and that the campaign is as it was, is certain on a clean disk
/// alone. NotACampaign: there is no table `campaign`, or it lacks a column. NotOld: the table
/// `campaign` has one row, whose format is the second, whatever else it says. Damaged: this is the
/// first rule of the first format that the rows break. World: the new world text has this fault.
/// Differs: the worlds differ in more than markets. Store: the connection is in a transaction, the
/// tables are not exactly those of the first format, or the database failed for another cause than
/// memory. Memory: it ran out. See docs/FORMATS.md, "Upgrading a file".
pub fn upgrade<S: Alter>(
    alloc: Global,
    mut conn: Connection<S>,
    new_world: &str,
) -> Result<Service<S>, Refused<S>>
    ensures ok { IfOk result (UpgradesTo S.Store conn new_world.now) }
    ensures balances { IfOk result (λ s. IfSome s.campaign Balances) }
    ensures err { IfErr result (λ r. RefusesUpgrade S.Store conn new_world.now r.why r.conn) }
{
    match atl_store::upgrade(alloc, &mut conn, new_world) {
        Ok((world, campaign)) => Ok(Service::opened(alloc, conn, world, campaign)),
        Err(fault) => Err(Refused {
            why: Cause::from(fault),
            conn,
        }),
    }
}
