//! Shares pots in the reference calculation; for each pot it looks at all units.
use super::plain::{PlainCampaign, PlainUnit};
use super::shares::share;
use atl_campaign::{EventFault, Outcome};
use atl_phase::PhaseOrder;
use std::alloc::{AllocError, Global};

/// A pot of a region: how much there is to share (`size`), and of what (`thing`: an item, or 0 in
/// phases that share one thing alone).
#[derive(Clone, Copy, Drop)]
pub(crate) struct Pot {
    pub region: u32,
    pub thing: u32,
    pub size: u64,
}

/// What an order asks for: a thing's number and how much of it the unit wants, or the order's
/// fault.
#[derive(Clone, Copy, Drop)]
pub(crate) enum Claim {
    Fault(EventFault),
    Want(u32, u64),
}

#[derive(Clone, Copy, Drop)]
pub(crate) struct Claimed<'m> {
    pub order: PhaseOrder<'m>,
    pub claim: Claim,
}

#[derive(Clone, Copy, Drop)]
pub(crate) struct UnitShare {
    pub unit: u32,
    pub thing: u32,
    pub amount: u64,
}

/// The unit of an order, if it is of the order's faction; None if not, or if there is no such unit.
pub(crate) fn own_unit(plain: &PlainCampaign, order: PhaseOrder<'_>) -> Option<PlainUnit> {
    let person = plain.find_unit(order.unit)?;
    if person.faction == order.faction {
        Some(person)
    } else {
        None
    }
}

/// The unit's last order that asks for the thing counts.
fn want_of(claims: &[Claimed<'_>], unit: u32, thing: u32) -> Option<u64> {
    let mut wanted = None;
    for claimed in claims {
        if let Claim::Want(of, want) = claimed.claim
            && claimed.order.unit == unit
            && of == thing
        {
            wanted = Some(want);
        }
    }
    wanted
}

fn note_taker(
    claims: &[Claimed<'_>],
    pot: Pot,
    person: PlainUnit,
    takers: &mut Vec<u32>,
    wants: &mut Vec<u64>,
) -> Result<(), AllocError> {
    if person.region == pot.region
        && let Some(want) = want_of(claims, person.number, pot.thing)
    {
        takers.push(person.number)?;
        wants.push(want)?;
    }
    Ok(())
}

fn add_shares(
    alloc: Global,
    plain: &PlainCampaign,
    claims: &[Claimed<'_>],
    pot: Pot,
    given: &mut Vec<UnitShare>,
) -> Result<(), AllocError> {
    let mut takers = Vec::new(alloc);
    let mut wants = Vec::new(alloc);
    for person in plain.people.iter() {
        note_taker(claims, pot, *person, &mut takers, &mut wants)?;
    }
    add_given(pot, &takers, &share(alloc, pot.size, &wants)?, given)
}

fn add_given(
    pot: Pot,
    takers: &[u32],
    shares: &[u64],
    given: &mut Vec<UnitShare>,
) -> Result<(), AllocError> {
    for (unit, amount) in takers.iter().zip(shares.iter()) {
        given.push(UnitShare {
            unit: *unit,
            thing: pot.thing,
            amount: *amount,
        })?;
    }
    Ok(())
}

pub(crate) fn shared(
    alloc: Global,
    plain: &PlainCampaign,
    claims: &[Claimed<'_>],
    pots: &[Pot],
) -> Result<Vec<UnitShare>, AllocError> {
    let mut given = Vec::new(alloc);
    for pot in pots {
        add_shares(alloc, plain, claims, *pot, &mut given)?;
    }
    Ok(given)
}

/// How much a unit gets by its first share in a list; 0 if it has none.
pub(crate) fn given_to(given: &[UnitShare], unit: u32) -> u64 {
    for one in given {
        if one.unit == unit {
            return one.amount;
        }
    }
    0
}

pub(crate) fn outcome(claim: Claim, done: u64) -> Outcome {
    match claim {
        Claim::Fault(fault) => Outcome::Fault(fault.number()),
        Claim::Want(_, _) => Outcome::Done(done),
    }
}
