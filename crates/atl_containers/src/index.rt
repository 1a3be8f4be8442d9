//! The index of an `Arena`: leads from each number to the slot of its value, in a sorted vector.
ghost use Rattle.std.specs.Prelude.{◌≡◌, ◌<◌, ◌^◌, true, length, IfOk, IfErr, IfSome, OnOk, OnErr, None};
ghost use Rattle.std.specs.Ordering.{nat_cmp};
ghost use Rattle.std.specs.List.Sorted.{IsStrictlySortedBy};
ghost use Rattle.std.specs.Slice.Iter.{iter_rest};
ghost use Rattle.std.specs.FinMap as map;
ghost use Rattle.atl_world.specs.SortedNumbers.{IsAt, BelongsAt};
ghost use Rattle.atl_containers.specs.Index.{index_numbers, slots_of};

use crate::gap_vec::GapVec;
use std::alloc::{AllocError, Global};
use std::marker::Model;
use std::slice::Iter;

/// An entry of an index: a number, and the slot of the arena where its value is.
#[derive(Drop, Clone, Copy)]
pub(crate) struct IndexEntry {
    pub number: u32,
    pub slot: usize,
}

/// A map from numbers to slots, as a vector of entries in the order of their numbers.
#[derive(Drop)]
pub struct Index {
    // The entries, sorted by number; no number is there twice.
    entries: GapVec<IndexEntry>,
}

/// Clauses see an index as a map from numbers to slots. The entries' numbers rise strictly.
impl Model for Index {
    ghost use Rattle.std.specs.Prelude.{ℕ};
    ghost use Rattle.std.specs.Ordering.{nat_cmp};
    ghost use Rattle.std.specs.List.Sorted.{IsStrictlySortedBy};
    ghost use Rattle.std.specs.Coded.{coded_ℕ};
    ghost use Rattle.std.specs.FinMap as map;
    ghost use Rattle.atl_containers.specs.Index.{index_numbers, slots_of};

    ghost Value = { map.FinMap nat_cmp ℕ };

    ghost coded = { map.code coded_ℕ coded_ℕ };

    ghost view = { λ a. map.from_entries (slots_of a.entries) };

    ghost invariant = { λ a. IsStrictlySortedBy nat_cmp (index_numbers a.entries) };
}

impl Index {
    /// An empty index. It takes no memory.
    pub fn new(alloc: Global) -> Index
        ensures { result ≡ map.empty }
    {
        Index {
            entries: GapVec::new(alloc),
        }
    }

    /// An empty index with room for this many numbers. AllocError without memory.
    pub fn with_room(alloc: Global, room: usize) -> Result<Index, AllocError>
        ensures { IfOk result (λ index. index ≡ map.empty) }
    {
        Ok(Index {
            entries: GapVec::with_room(alloc, room)?,
        })
    }

    /// The slot that a number leads to; None where it leads to none.
    pub fn get(&self, number: u32) -> Option<usize>
        ensures { result ≡ map.get self.now number }
    {
        let entries = self.entries.as_slice();
        match position_of(entries, number) {
            Ok(position) => Some(entries[position].slot),
            Err(_) => None,
        }
    }

    /// Adds a number that isn't there yet, with its slot. Without memory for it nothing changes.
    pub fn insert(&mut self, number: u32, slot: usize) -> Result<(), AllocError>
        requires { map.get self.old number ≡ None }
        ensures ok { OnOk result (self.new ≡ map.insert self.old number slot) }
        ensures err { OnErr result (self.new ≡ self.old) }
    {
        match position_of(self.entries.as_slice(), number) {
            Ok(_) => unreachable!(),
            Err(position) => self.entries.insert(position, IndexEntry { number, slot })?,
        }
        Ok(())
    }

    /// Removes a number; returns the slot that it led to, None if it led to none. Takes no memory.
    pub fn remove(&mut self, number: u32) -> Option<usize>
        ensures slot { result ≡ map.get self.old number }
        ensures taken { self.new ≡ map.remove self.old number }
    {
        let entries = self.entries.as_slice();
        match position_of(entries, number) {
            Ok(position) => {
                let slot = entries[position].slot;
                self.entries.remove(position);
                Some(slot)
            }
            Err(_) => None,
        }
    }

    /// How many numbers lead to a slot: fewer than 2^63, so one more can be counted.
    pub fn len(&self) -> usize
        ensures value { result ≡ map.len self.now }
        ensures small { result < 2 ^ 63 }
    {
        self.entries.len()
    }

    /// The numbers with their slots, in rising order.
    pub fn iter(&self) -> Iter<'_, IndexEntry>
        ensures { slots_of (iter_rest result) ≡ map.entries self.now }
    {
        self.entries.as_slice().iter()
    }
}

/// The index of the entry with the number, if it is the number less the first entry's; else None.
fn guess_position(entries: &[IndexEntry], number: u32) -> Option<usize>
    ensures { IfSome result (λ position. IsAt (index_numbers entries.now) number position) }
{
    let first = entries.first()?;
    let position = number.checked_sub(first.number)? as usize;
    match entries.get(position) {
        Some(found) if found.number == number => Some(position),
        _ => None,
    }
}

/// If true, the number is above all sorted entries, and belongs at the end. True without entries.
fn is_above(entries: &[IndexEntry], number: u32) -> bool
    requires { IsStrictlySortedBy nat_cmp (index_numbers entries.now) }
    ensures { result ≡ true → BelongsAt (index_numbers entries.now) number (length entries.now) }
{
    match entries.last() {
        Some(last) => last.number < number,
        None => true,
    }
}

/// Where sorted entries have the number (Ok), or where it belongs if they don't (Err).
fn position_of(entries: &[IndexEntry], number: u32) -> Result<usize, usize>
    requires { IsStrictlySortedBy nat_cmp (index_numbers entries.now) }
    ensures found { IfOk result (λ position. IsAt (index_numbers entries.now) number position) }
    ensures missing { IfErr result (λ position. BelongsAt (index_numbers entries.now) number
        position) }
{
    if let Some(position) = guess_position(entries, number) {
        return Ok(position);
    }
    if is_above(entries, number) {
        return Err(entries.len());
    }
    entries.binary_search_by_key(&number, |entry| entry.number)
}
