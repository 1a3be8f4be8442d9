//! Reads mailings, and makes the month that the phases of a case work on.
ghost use Rattle.std.specs.Prelude.{◌≡◌, All, IfOk, map};
ghost use Rattle.atl_orders.specs.Mailing.{IsReadWith};
ghost use Rattle.atl_phase.specs.Month.{HaveOwnFactions};
ghost use Rattle.atl_phase.specs.Fit.{AreFit};

use crate::failed::Failed;
use atl_orders::{Mailing, read_mailing};
use atl_phase::Month;
use atl_state::are_distinct;
use atl_world::World;
use std::alloc::{AllocError, Global};

fn mailings_of(alloc: Global, world: &World, texts: &[String]) -> Result<Vec<Mailing>, Failed>
    ensures { IfOk result (λ mailings. All (IsReadWith world.now) mailings.items) }
{
    let mut mailings = Vec::new(alloc);
    for text in texts {
        match read_mailing(alloc, world, text.as_bytes()) {
            Ok(mailing) => mailings.push(mailing)?,
            Err(_) => return Err(Failed("a text is no mailing")),
        }
    }
    Ok(mailings)
}

fn factions_of(alloc: Global, mailings: &[Mailing]) -> Result<Vec<u32>, AllocError>
    ensures { IfOk result (λ factions. factions.items ≡ map (λ m. m.faction) mailings.now) }
{
    let mut factions = Vec::new(alloc);
    for mailing in mailings {
        factions.push(mailing.faction)?;
    }
    Ok(factions)
}

/// The mailings that `texts` are read as, in the same order; a refused text, and two mailings of
/// one faction, are a failure.
pub(crate) fn read_mailings(
    alloc: Global,
    world: &World,
    texts: &[String],
) -> Result<Vec<Mailing>, Failed>
    ensures read { IfOk result (λ mailings. All (IsReadWith world.now) mailings.items) }
    ensures own { IfOk result (λ mailings. HaveOwnFactions mailings.items) }
{
    let mailings = mailings_of(alloc, world, texts)?;
    let factions = factions_of(alloc, &mailings)?;
    if !are_distinct(alloc, &factions)? {
        return Err(Failed("two mailings are of one faction"));
    }
    Ok(mailings)
}

/// The month that has these mailings and words of the dice, before any phase.
pub(crate) fn month_of(
    alloc: Global,
    world: &World,
    mailings: Vec<Mailing>,
    words: &[u32],
) -> Result<Month, AllocError>
    requires read { All (IsReadWith world.now) mailings.items }
    requires own { HaveOwnFactions mailings.items }
    ensures { IfOk result (λ m. AreFit world.now m.readings) }
{
    let words = Vec::from_slice(alloc, words)?;
    Ok(Month::new(alloc, mailings, words))
}
