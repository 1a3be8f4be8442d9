//! A map by number whose values are in slots that are used again.
ghost use Rattle.std.specs.Prelude.{◌≡◌, ◌<◌, ◌^◌, IfOk, OnOk, OnErr, None, option_copied};
ghost use Rattle.std.specs.FinMap as map;

use crate::index::{Index, IndexEntry};
use slab::Slab;
use std::alloc::{AllocError, Global};
use std::marker::Model;
use std::slice::Iter;

/// A map from numbers to values, where each value keeps one slot until it is removed. The slot
/// that was last freed is the first to be used again.
pub struct Arena<V> {
    index: Index,
    slots: Slab<V>,
}

impl<V: Drop> Drop for Arena<V> {
    fn drop(self) {
        let Arena { index: _, slots: _ } = self;
    }
}

/// Clauses see an arena as a map from numbers to values. Each number leads to a slot of its own
/// that is in use, and no other slot is.
impl<V> Model for Arena<V> {
    ghost use Rattle.std.specs.Ordering.{nat_cmp};
    ghost use Rattle.std.specs.Coded.{coded_ℕ};
    ghost use Rattle.std.specs.FinMap as map;
    ghost use Rattle.atl_containers.specs.Slots.{values_of, IsArena};

    ghost Value = { map.FinMap nat_cmp V };

    ghost coded = { map.code coded_ℕ V.code };

    ghost view = { λ a. values_of a.index a.slots };

    ghost invariant = { λ a. IsArena a.index a.slots };
}

impl<V: Drop> Arena<V> {
    ghost use Rattle.std.specs.Option.{option_copied_mut};
    ghost use Rattle.std.specs.Borrow.{sem};
    ghost use Rattle.atl_containers.specs.SlotLending.{LendsSlot};

    /// An empty map. It takes no memory.
    pub fn new(alloc: Global) -> Self
        ensures { result ≡ map.empty }
    {
        Self {
            index: Index::new(alloc),
            slots: Slab::new(alloc),
        }
    }

    /// An empty map with room for this many values. AllocError without memory.
    pub fn with_room(alloc: Global, room: usize) -> Result<Self, AllocError>
        ensures { IfOk result (λ arena. arena ≡ map.empty) }
    {
        let index = Index::with_room(alloc, room)?;
        let slots = Slab::with_capacity(alloc, room)?;
        Ok(Self { index, slots })
    }

    /// The value under a number; None where there is none.
    pub fn get(&self, number: u32) -> Option<&V>
        ensures { option_copied result ≡ map.get self.now number }
    {
        match self.index.get(number) {
            Some(slot) => self.slots.get(slot),
            None => None,
        }
    }

    /// Lends the value under a number, to be changed; None where there is none. It takes no memory.
    pub fn get_mut(&mut self, number: u32) -> Option<&mut V>
        ensures* writes_back { sem 𝓛 (LendsSlot V.row self.entry number result) }
        ensures value { option_copied_mut result ≡ map.get self.old number }
    {
        let slot = match self.index.get(number) {
            Some(slot) => slot,
            None => return None,
        };
        match self.slots.get_mut(slot) {
            Some(value) => Some(value),
            None => None,
        }
    }

    /// Puts a value under a number that has none. Without memory for it nothing changes.
    pub fn insert(&mut self, number: u32, value: V) -> Result<(), AllocError>
        requires { map.get self.old number ≡ None }
        ensures ok { OnOk result (self.new ≡ map.insert self.old number value) }
        ensures err { OnErr result (self.new ≡ self.old) }
    {
        let slot = self.slots.insert(value)?;
        match self.index.insert(number, slot) {
            Ok(()) => Ok(()),
            Err(error) => {
                self.slots.remove(slot);
                Err(error)
            }
        }
    }

    /// Puts a value under a number, in place of the one that is there, if any. Without memory for
    /// it nothing changes.
    pub fn put(&mut self, number: u32, value: V) -> Result<(), AllocError>
        ensures ok { OnOk result (self.new ≡ map.insert self.old number value) }
        ensures err { OnErr result (self.new ≡ self.old) }
    {
        if self.get(number).is_none() {
            return self.insert(number, value);
        }
        if let Some(old) = self.get_mut(number) {
            *old = value;
        }
        Ok(())
    }

    /// Removes the value under a number, and says whether there was one. Its slot is then free. It
    /// takes no memory.
    pub fn remove(&mut self, number: u32) -> bool
        ensures there { result ≡ map.contains_key self.old number }
        ensures taken { self.new ≡ map.remove self.old number }
    {
        match self.index.remove(number) {
            Some(slot) => {
                self.slots.remove(slot);
                true
            }
            None => false,
        }
    }

    /// How many numbers have a value: fewer than 2^63, so one more can be counted.
    pub fn len(&self) -> usize
        ensures value { result ≡ map.len self.now }
        ensures small { result < 2 ^ 63 }
    {
        self.index.len()
    }

    /// The numbers with their values, in rising order.
    pub fn iter(&self) -> SlotEntries<'_, V>
        ensures { result ≡ map.entries self.now }
    {
        SlotEntries {
            entries: self.index.iter(),
            slots: &self.slots,
        }
    }
}

/// An iterator over the numbers of an `Arena` with their values, in rising order of the numbers.
#[derive(Drop)]
pub struct SlotEntries<'a, V> {
    entries: Iter<'a, IndexEntry>,
    slots: &'a Slab<V>,
}

/// Clauses see the numbers and values that are still to come, as a list. Their slots are in use.
impl<'a, V> Model for SlotEntries<'a, V> {
    ghost use Rattle.std.specs.Prelude.{List, ℕ};
    ghost use Rattle.std.specs.Slice.Iter.{iter_rest};
    ghost use Rattle.atl_containers.specs.Index.{slots_of};
    ghost use Rattle.atl_containers.specs.Slots.{slot_entries, AreInUse};

    ghost Value = { List (ℕ × V) };

    ghost view = { λ a. slot_entries (slots_of (iter_rest a.entries)) a.slots.now };

    ghost invariant = { λ a. AreInUse (slots_of (iter_rest a.entries)) a.slots.now };
}

/// Yields each number with the value in its slot, in rising order of the numbers.
impl<'a, V> Iterator for SlotEntries<'a, V> {
    type Item = (u32, &'a V);

    ghost use Rattle.std.specs.Iterator.{YieldsFirstBy, item_count};

    ghost next_gives = { YieldsFirstBy (λ p. (p.0, p.1.now)) (λ s. s) };

    ghost remaining = { item_count (λ s. s) };

    fn next(&mut self) -> Option<(u32, &'a V)> {
        match self.entries.next() {
            Some(entry) => match self.slots.get(entry.slot) {
                Some(value) => Some((entry.number, value)),
                None => None,
            },
            None => None,
        }
    }
}
