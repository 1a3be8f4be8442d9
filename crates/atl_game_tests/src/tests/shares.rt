//! Tests of how `share` splits a single pot, worked out by hand (docs/RULES.md, "Shares").
ghost use Rattle.std.specs.Prelude.{◌≤◌, All, IsTrue};

use atl_market::share;
use std::alloc::Global;
use std::process::Abort;
use std::test::Fail;

/// Cases: a pot, what each of several takers wants of it, and what each has to get.
static SHARED: [(u64, &[u64], &[u64]); 8] = [
    (100, &[50, 60, 70], &[27, 34, 39]),
    (100, &[110, 70], &[61, 39]),
    (0, &[3, 4], &[0, 0]),
    (5, &[0, 0], &[0, 0]),
    (7, &[], &[]),
    (7, &[3, 4], &[3, 4]),
    (1, &[1, 1, 1], &[0, 0, 1]),
    (
        999_999_999,
        &[999_999_999, 999_999_999],
        &[499_999_999, 500_000_000],
    ),
];

pub(crate) fn assert_shares(rt: &impl Abort, pot: u64, actual: &[u64], wanted: &[u64]) {
    assert_eq!(rt; actual, wanted, "of {pot}");
}

/// Whether no want is more than 999,999,999.
pub(crate) fn are_small(wants: &[u64]) -> bool
    ensures { IsTrue result → All (λ want. want ≤ 999999999) wants.now }
{
    wants.iter().all(|want| *want <= 999_999_999)
}

fn assert_split(
    rt: &impl Abort,
    alloc: Global,
    pot: u64,
    wants: &[u64],
    wanted: &[u64],
) -> Result<(), Fail> {
    if pot > 999_999_999 || !are_small(wants) {
        return Err(Fail::new("a pot and wants that are small enough"));
    }
    let given = share(alloc, pot, wants)?;
    assert_shares(rt, pot, given.as_slice(), wanted);
    Ok(())
}

fn assert_splits(rt: &impl Abort, alloc: Global) -> Result<(), Fail> {
    for (pot, wants, wanted) in SHARED.iter() {
        assert_split(rt, alloc, *pot, wants, wanted)?;
    }
    Ok(())
}

#[test]
fn a_pot_is_shared(rt: HostRuntime) -> Result<(), Fail> {
    assert_splits(&rt, rt.alloc())
}

fn given_to_crowd(alloc: Global, wants: &[u64]) -> Result<u64, Fail> {
    if !are_small(wants) {
        return Err(Fail::new("wants that are small enough"));
    }
    let mut sum: u64 = 0;
    for given in share(alloc, 999_999_999, wants)?.iter() {
        sum = sum.wrapping_add(*given);
    }
    Ok(sum)
}

#[test]
fn a_crowd_gets_the_whole_pot(rt: HostRuntime) -> Result<(), Fail> {
    let wants = [999_999_999u64].repeat(rt.alloc(), 100_000)?;
    let given = given_to_crowd(rt.alloc(), wants.as_slice())?;
    assert_eq!(rt; given, 999_999_999);
    Ok(())
}
