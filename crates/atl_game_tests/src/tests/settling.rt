//! Tests of how much money upkeep takes from each unit, and how many men starve. The results are
//! worked out by hand (docs/RULES.md, "Upkeep").
ghost use Rattle.std.specs.Prelude.{All, IfOk};
ghost use Rattle.atl_shares.specs.UpkeepSharing.{AreInOrder, IsUpkeepInput};

use super::compare::assert_row_text;
use super::row_text::write_pair;
use atl_month::{UpkeepInput, upkeep_payments};
use std::alloc::{AllocError, Global};
use std::test::Fail;

/// What the upkeep of a man costs a month, in each case of `SETTLED`.
const MAINTENANCE: u32 = 10;

/// Cases: region, faction, men and money of each unit, and what upkeep has to take from each: the
/// money that it pays, and how many of its men starve.
static SETTLED: [(&[(u8, u8, u16, u16)], &str); 11] = [
    (&[], ""),
    (&[(1, 1, 3, 25), (1, 1, 1, 18)], "25 0;15 0;"),
    (&[(1, 1, 3, 25)], "25 1;"),
    // A unit without men pays for others too, on both sides of it.
    (&[(1, 1, 0, 7), (1, 1, 1, 0), (1, 1, 0, 9)], "7 0;0 0;3 0;"),
    // Units that are short are covered in order, and units with money left give in order.
    (
        &[(1, 1, 1, 0), (1, 1, 1, 0), (1, 1, 0, 15)],
        "0 0;0 1;15 0;",
    ),
    (&[(1, 1, 0, 8), (1, 1, 0, 8), (1, 1, 1, 0)], "8 0;2 0;0 0;"),
    (&[(1, 1, 5, 0)], "0 5;"),
    (&[(1, 1, 2, 9)], "9 2;"),
    // Nobody pays for another faction, or for another region.
    (&[(1, 1, 1, 0), (1, 2, 0, 50)], "0 1;0 0;"),
    (&[(1, 1, 1, 0), (2, 1, 0, 50)], "0 1;0 0;"),
    (
        &[(1, 1, 3, 25), (1, 2, 2, 9), (1, 1, 1, 18)],
        "25 0;9 2;15 0;",
    ),
];

fn upkeep_inputs_of(
    alloc: Global,
    units: &[(u8, u8, u16, u16)],
) -> Result<Vec<UpkeepInput>, AllocError>
    ensures each { IfOk result (λ purses. All IsUpkeepInput purses.items) }
    ensures order { IfOk result (λ purses. AreInOrder purses.items) }
{
    let mut purses = Vec::new(alloc);
    let mut last: u32 = 0;
    for (region, faction, men, money) in units {
        let Some(unit) = last.checked_add(1) else {
            return Ok(purses);
        };
        last = unit;
        purses.push(UpkeepInput {
            unit,
            region: u32::from(*region),
            faction: u32::from(*faction),
            men: u32::from(*men),
            money: u32::from(*money),
        })?;
    }
    Ok(purses)
}

fn units_text(alloc: Global, units: &[(u8, u8, u16, u16)]) -> Result<String, Fail> {
    let purses = upkeep_inputs_of(alloc, units)?;
    let mut output = String::new(alloc);
    for unit in upkeep_payments(alloc, MAINTENANCE, &purses)?.iter() {
        write_pair(
            alloc,
            u64::from(unit.paid),
            u64::from(unit.starved),
            &mut output,
        )?;
    }
    Ok(output)
}

#[test]
fn upkeep_is_shared(rt: HostRuntime) -> Result<(), Fail> {
    for (row, (units, wanted)) in SETTLED.iter().enumerate() {
        assert_row_text(&rt, row, units_text(rt.alloc(), units)?.as_str(), wanted);
    }
    Ok(())
}
