//! Makes the worlds of these tests, and months of mailings that are given as texts.
ghost use Rattle.std.specs.Prelude.{◌≡◌, All, IfOk, map};
ghost use Rattle.atl_orders.specs.Mailing.{IsReadWith};
ghost use Rattle.atl_phase.specs.Month.{HaveOwnFactions};
ghost use Rattle.atl_phase.specs.Fit.{AreFit};

use atl_orders::{Mailing, read_mailing};
use atl_phase::Month;
use atl_state::are_distinct;
use atl_tables::read_world;
use atl_test_worlds::{SMALL_WORLD, WOOD_AND_SAILING};
use atl_world::World;
use std::alloc::{AllocError, Global};
use std::test::Fail;

pub(crate) fn world(alloc: Global) -> Result<World, Fail> {
    Ok(read_world(alloc, WOOD_AND_SAILING)?)
}

pub(crate) fn small_world(alloc: Global) -> Result<World, Fail> {
    Ok(read_world(alloc, SMALL_WORLD)?)
}

fn mailings_of(alloc: Global, world: &World, texts: &[&str]) -> Result<Vec<Mailing>, Fail>
    ensures { IfOk result (λ mailings. All (IsReadWith world.now) mailings.items) }
{
    let mut mailings = Vec::new(alloc);
    for text in texts {
        mailings.push(read_mailing(alloc, world, text.as_bytes())?)?;
    }
    Ok(mailings)
}

fn factions_of(alloc: Global, mailings: &[Mailing]) -> Result<Vec<u32>, AllocError>
    ensures { IfOk result (λ factions. factions.items ≡ map (λ m. m.faction) mailings.now) }
{
    let mut factions = Vec::new(alloc);
    for mailing in mailings {
        factions.push(mailing.faction)?;
    }
    Ok(factions)
}

/// The mailings that are read from some texts; a refused text, or two texts of one faction, are a
/// failure.
pub(crate) fn own_mailings(
    alloc: Global,
    world: &World,
    texts: &[&str],
) -> Result<Vec<Mailing>, Fail>
    ensures read { IfOk result (λ mailings. All (IsReadWith world.now) mailings.items) }
    ensures own { IfOk result (λ mailings. HaveOwnFactions mailings.items) }
{
    let mailings = mailings_of(alloc, world, texts)?;
    let factions = factions_of(alloc, &mailings)?;
    if !are_distinct(alloc, &factions)? {
        return Err(Fail::new("each mailing is of a faction of its own"));
    }
    Ok(mailings)
}

/// The month with a mailing for each of the texts, and with 7 and 9 as the words of the dice.
pub(crate) fn month(alloc: Global, world: &World, texts: &[&str]) -> Result<Month, Fail>
    ensures { IfOk result (λ month. AreFit world.now month.readings) }
{
    let mailings = own_mailings(alloc, world, texts)?;
    let words = Vec::from_slice(alloc, &[7, 9])?;
    Ok(Month::new(alloc, mailings, words))
}
