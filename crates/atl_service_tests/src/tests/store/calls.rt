//! The calls of the store as steps of a script, each with its answer: `Done`, or the fault. Each
//! call is made at one place alone, since each place takes a proof of its own.
use super::campaigns::{founded_by, has_arrived, has_few_things, joined};
use super::words::{done, done_or_fault, text_of};
use atl_campaign::Campaign;
use atl_store::{UpgradeFault, create, load, upgrade, write_changes, write_join, write_mail};
use atl_test_files::old_file;
use sqlite::{Alter, Connection};
use std::alloc::Global;
use std::test::Fail;

pub(crate) fn create_answer<S: Alter>(
    alloc: Global,
    conn: &mut Connection<S>,
    world: &str,
) -> Result<String, Fail> {
    let mut campaign = founded_by(alloc, world)?;
    if !has_few_things(&campaign) {
        return Err(Fail::new("the books of a small world"));
    }
    done_or_fault(alloc, create(conn, world, &mut campaign))
}

/// Founds the campaign of a world text, and makes a file of the first format with it; the answer is
/// `Done`.
pub(crate) fn create_old_answer<S: Alter>(
    alloc: Global,
    conn: &mut Connection<S>,
    world: &str,
) -> Result<String, Fail> {
    let campaign = founded_by(alloc, world)?;
    old_file(conn, world, &campaign)?;
    done(alloc)
}

pub(crate) fn join_answer<S: Alter>(
    alloc: Global,
    conn: &mut Connection<S>,
) -> Result<String, Fail> {
    let campaign = joined(alloc)?;
    if !has_arrived(&campaign) || !conn.is_autocommit() {
        return Err(Fail::new("Avalon is there, and no transaction"));
    }
    done_or_fault(alloc, write_join(conn, &campaign, 1))
}

pub(crate) fn mail_answer<S: Alter>(
    alloc: Global,
    conn: &mut Connection<S>,
) -> Result<String, Fail> {
    if !conn.is_autocommit() {
        return Err(Fail::new("a transaction is open"));
    }
    done_or_fault(alloc, write_mail(conn, 1, b"#ATLANTIS 1"))
}

pub(crate) fn write_answer<S: Alter>(
    alloc: Global,
    conn: &mut Connection<S>,
    campaign: &mut Campaign,
) -> Result<String, Fail> {
    if !has_few_things(campaign) || !conn.is_autocommit() {
        return Err(Fail::new("a small world, and no transaction"));
    }
    done_or_fault(alloc, write_changes(conn, campaign))
}

/// Loads the campaign by `load`, and gives the answer; if it is `Done`, `campaign` is replaced by
/// the loaded one.
pub(crate) fn load_answer<S: Alter>(
    alloc: Global,
    conn: &mut Connection<S>,
    campaign: &mut Campaign,
) -> Result<String, Fail> {
    match load(alloc, conn) {
        Ok((_world, found)) => {
            *campaign = found;
            done(alloc)
        }
        Err(fault) => text_of(alloc, fault),
    }
}

/// Upgrades a file by `upgrade` to a world text, and gives the answer; if it is `Done`, `campaign`
/// is replaced by the upgraded one. For a text that is no world the answer is `World`, without its
/// fault.
pub(crate) fn upgrade_answer<S: Alter>(
    alloc: Global,
    conn: &mut Connection<S>,
    world: &str,
    campaign: &mut Campaign,
) -> Result<String, Fail> {
    match upgrade(alloc, conn, world) {
        Ok((_world, found)) => {
            *campaign = found;
            done(alloc)
        }
        Err(UpgradeFault::World(_)) => text_of(alloc, "World"),
        Err(fault) => text_of(alloc, fault),
    }
}
