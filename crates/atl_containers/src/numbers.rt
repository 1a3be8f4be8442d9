//! A sorted list of numbers, as that of the units in a region.
ghost use Rattle.std.specs.Prelude.{◌≡◌, ◌≤◌, OnOk, OnErr, [], length};
ghost use Rattle.atl_containers.specs.Ordered.{IsSorted, put_number, take_number, first_not_below};

use crate::gap_vec::GapVec;
use std::alloc::{AllocError, Global};
use std::marker::Model;

/// A sorted list of numbers, in a vector with free room at both ends.
#[derive(Drop)]
pub struct Numbers {
    items: GapVec<u32>,
}

/// Clauses see the numbers as a list, which is sorted.
impl Model for Numbers {
    ghost use Rattle.std.specs.Prelude.{List, ℕ};
    ghost use Rattle.atl_containers.specs.Ordered.{IsSorted};

    ghost Value = { List ℕ };

    ghost view = { λ a. a.items };

    ghost invariant = { λ a. IsSorted a.items };
}

/// The index of the first of sorted numbers that is not below `number`; their count if all are.
fn first_not_below(items: &[u32], number: u32) -> usize
    requires { IsSorted items.now }
    ensures position { result ≡ first_not_below number items.now }
    ensures small { result ≤ length items.now }
{
    items.partition_point(|item| *item < number)
}

impl Numbers {
    /// An empty list. It takes no memory.
    pub fn new(alloc: Global) -> Numbers
        ensures { result ≡ [] }
    {
        Numbers {
            items: GapVec::new(alloc),
        }
    }

    /// Inserts a number before the first one that is not below it, or at the end if there is none.
    /// Without memory nothing changes.
    #[tactic(auto, unfolding(crate::specs::Ordered::put_number))]
    pub fn put(&mut self, number: u32) -> Result<(), AllocError>
        ensures ok { OnOk result (self.new ≡ put_number number self.old) }
        ensures err { OnErr result (self.new ≡ self.old) }
    {
        let position = first_not_below(self.as_slice(), number);
        self.items.insert(position, number)?;
        Ok(())
    }

    /// Removes the first number that is not below `number`: `number` itself, if the list has it;
    /// none if all are below it. It takes no memory.
    #[tactic(auto, unfolding(crate::specs::Ordered::take_number))]
    pub fn take(&mut self, number: u32)
        ensures { self.new ≡ take_number number self.old }
    {
        let position = first_not_below(self.as_slice(), number);
        if position < self.items.len() {
            self.items.remove(position);
        }
    }

    /// The numbers, in rising order.
    pub fn as_slice(&self) -> &[u32]
        ensures { result.now ≡ self.now }
    {
        self.items.as_slice()
    }
}
