//! The shares of a pot among wants. Where a call takes a pot and wants, each of them is at most
//! 999,999,999. See docs/RULES.md, "Shares".
ghost use Rattle.std.specs.Prelude.{◌≡◌, ◌≤◌, ◌<◌, ◌*◌, ℕ, length, sum, min, slice_index, All, IfOk};
ghost use Rattle.atl_world.specs.Limits.{most_amount};
ghost use Rattle.atl_shares.specs.Share.{IsNearPart, SplittingKeepsOthers, shares};

use std::alloc::{AllocError, Global};

fn sum_of(wants: &[u64]) -> u128
    requires { All (λ want. want ≤ most_amount) wants.now }
    ensures value { result ≡ sum wants.now }
    ensures bound { result ≤ most_amount * length wants.now }
{
    let mut total: u128 = 0;
    for want in wants {
        total += u128::from(*want);
    }
    total
}

/// Where the pot is short, each share takes one division, with a running remainder.
fn proportional_shares(alloc: Global, pot: u64, wants: &[u64]) -> Result<Vec<u64>, AllocError>
    requires pot { pot ≤ most_amount }
    requires wants { All (λ want. want ≤ most_amount) wants.now }
    ensures { IfOk result (λ given. given.items ≡ shares pot wants.now) }
{
    let pot = u128::from(pot);
    let total = sum_of(wants);
    if total <= pot {
        return Vec::from_slice(alloc, wants);
    }
    let mut given = Vec::new(alloc);
    let mut left: u128 = 0;
    for want in wants {
        let due = pot * u128::from(*want) + left;
        given.push((due / total) as u64)?;
        left = due % total;
    }
    Ok(given)
}

/// What each want gets of a pot, in the order of the wants: the whole want where the pot is enough
/// for all, else its share. A share is never more than the want. All shares together are the lesser
/// of the pot and of all wants. Where the pot is short, a share differs by less than one from the
/// pot times its want divided by all wants. AllocError without memory. See docs/RULES.md, "Shares".
#[tactic(auto, using(crate::proofs::ShareLaws::share_at_most, crate::proofs::ShareLaws::share_is_near, crate::proofs::ShareLaws::all_is_given))]
pub fn share(alloc: Global, pot: u64, wants: &[u64]) -> Result<Vec<u64>, AllocError>
    requires pot { pot ≤ most_amount }
    requires wants { All (λ want. want ≤ most_amount) wants.now }
    ensures definition { IfOk result (λ given. given.items ≡ shares pot wants.now) }
    ensures at_most { IfOk result
        (λ given. (i : ℕ) → slice_index given.items i ≤ slice_index wants.now i) }
    ensures all_given { IfOk result (λ given. sum given.items ≡ min pot (sum wants.now)) }
    ensures near { IfOk result
        (λ given. pot < sum wants.now → (i : ℕ)
        → IsNearPart pot (sum wants.now) (slice_index wants.now i) (slice_index given.items i)) }
{
    proportional_shares(alloc, pot, wants)
}

/// The law that splitting a want into several that follow one another changes no other share, and
/// that together they get what the one want got. Does nothing. See docs/RULES.md, "Shares".
pub fn splitting_keeps_others()
    ensures { SplittingKeepsOthers }
{}
