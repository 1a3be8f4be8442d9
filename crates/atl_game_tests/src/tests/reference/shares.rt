//! Splits a pot in the reference calculation, by prefix sums (docs/RULES.md, "Shares").
use std::alloc::{AllocError, Global};

fn sum_of(wants: &[u64]) -> u128 {
    let mut total: u128 = 0;
    for want in wants {
        total = total.wrapping_add(u128::from(*want));
    }
    total
}

/// The pot is less than `total`, the sum of all wants.
fn given_to_first(pot: u64, wants: &[u64], count: usize, total: u128) -> u128 {
    let wanted = sum_of(wants.get(..count).unwrap_or(wants));
    let due = u128::from(pot).wrapping_mul(wanted);
    due.checked_div(total).unwrap_or(0)
}

fn share_at(pot: u64, wants: &[u64], place: usize, total: u128) -> u64 {
    let with = given_to_first(pot, wants, place.wrapping_add(1), total);
    let before = given_to_first(pot, wants, place, total);
    u64::try_from(with.wrapping_sub(before)).unwrap_or(0)
}

pub(crate) fn share(alloc: Global, pot: u64, wants: &[u64]) -> Result<Vec<u64>, AllocError> {
    let total = sum_of(wants);
    let mut given = Vec::new(alloc);
    for (place, want) in wants.iter().enumerate() {
        if total <= u128::from(pot) {
            given.push(*want)?;
        } else {
            given.push(share_at(pot, wants, place, total))?;
        }
    }
    Ok(given)
}
