//! An iterator over the marked numbers of a `Marks`, in ascending order.
ghost use Rattle.std.specs.Slice.Iter.{iter_rest};
ghost use Rattle.std.specs.Iterator.{YieldsFirstBy};

use std::cmp::Ordering;
use std::marker::Model;
use std::slice::Iter;

/// An iterator over the marked numbers of a `Marks` that are left to come, in ascending order.
#[derive(Drop)]
pub struct MarkedNumbers<'a> {
    // What is left of the first list of the `Marks`: of the numbers except for the recent ones.
    pub(crate) numbers: Iter<'a, u32>,
    // What is left of its second list: of the recent numbers, not merged into the first one yet.
    pub(crate) recent: Iter<'a, u32>,
}

/// Contracts see the iterator as the list of the numbers left to come, in ascending order.
impl<'a> Model for MarkedNumbers<'a> {
    ghost use Rattle.std.specs.Prelude.{List, ℕ, true};
    ghost use Rattle.std.specs.Ordering.{nat_cmp};
    ghost use Rattle.std.specs.Set.{sorted_merge};
    ghost use Rattle.std.specs.Slice.Iter.{iter_rest};

    ghost Value = { List ℕ };

    ghost view = { λ a. sorted_merge nat_cmp true (iter_rest a.numbers) (iter_rest a.recent) };
}

/// Gives the least of the numbers left to come; one that is in both lists comes once.
impl<'a> Iterator for MarkedNumbers<'a> {
    type Item = u32;

    ghost use Rattle.std.specs.Iterator.{YieldsFirstBy, item_count};

    ghost next_gives = { YieldsFirstBy (λ n. n) (λ s. s) };

    ghost remaining = { item_count (λ s. s) };

    fn next(&mut self) -> Option<u32> {
        let Some(number) = self.numbers.as_slice().first() else {
            return next_of(&mut self.recent);
        };
        let Some(recent) = self.recent.as_slice().first() else {
            return next_of(&mut self.numbers);
        };
        match number.cmp(recent) {
            Ordering::Less => next_of(&mut self.numbers),
            Ordering::Equal => {
                let _ = next_of(&mut self.recent);
                next_of(&mut self.numbers)
            }
            Ordering::Greater => next_of(&mut self.recent),
        }
    }
}

/// Takes the first number out of the iterator, `None` if none is left.
fn next_of(numbers: &mut Iter<'_, u32>) -> Option<u32>
    ensures { YieldsFirstBy (λ n. n) iter_rest numbers.old result numbers.new }
{
    match numbers.next() {
        Some(number) => Some(*number),
        None => None,
    }
}
