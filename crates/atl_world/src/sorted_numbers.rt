//! A sorted list of numbers without duplicates, with room for more.
ghost use Rattle.std.specs.Prelude.{◌≡◌, ℕ, true, ◌+◌, ◌-◌, ◌<◌, ◌≤◌, [], ◌∷◌, ◌++◌, ◌↔◌, IsTrue, IfOk, IfErr, OnOk, length, take, slice_index, vec_capacity};
ghost use Rattle.std.specs.List.{insert};
ghost use Rattle.std.specs.List.Sorted.{IsStrictlySortedBy};
ghost use Rattle.std.specs.Ordering.{nat_cmp};
ghost use Rattle.std.specs.Set.{sorted_merge};
ghost use Rattle.std.specs.FinSet as set;
ghost use Rattle.atl_world.specs.Limits.{number_count};
ghost use Rattle.atl_world.specs.SortedNumbers.{IsAt, BelongsAt, AreApart};
ghost use Rattle.atl_world.specs.Tracking.{IsAscendingListOf};

use std::alloc::{AllocError, Global};
use std::marker::Model;

/// A sorted list of numbers without duplicates, with room for more. To add a number takes time in
/// how many numbers of the list are above it.
#[derive(Drop)]
pub struct SortedNumbers {
    numbers: Vec<u32>,
}

/// Contracts see the list as the set of its numbers with its room: how many numbers it can hold
/// without taking memory.
impl Model for SortedNumbers {
    ghost use Rattle.std.specs.Prelude.{vec_capacity};
    ghost use Rattle.std.specs.List.Sorted.{IsStrictlySortedBy};
    ghost use Rattle.std.specs.Ordering.{nat_cmp};
    ghost use Rattle.std.specs.FinSet as set;
    ghost use Rattle.atl_world.specs.RoomySets.{RoomySet, roomy_set_code};

    ghost Value = { RoomySet };

    ghost coded = { roomy_set_code };

    ghost view = { λ a. record {
      numbers = set.from_list a.numbers.items;
      room = vec_capacity a.numbers;
    } };

    ghost invariant = { λ a. IsStrictlySortedBy nat_cmp a.numbers.items };
}

impl SortedNumbers {
    /// The empty list, without room. It takes no memory.
    pub fn new(alloc: Global) -> SortedNumbers
        ensures { result ≡ record { numbers = set.empty; room = 0 } }
    {
        SortedNumbers {
            numbers: Vec::new(alloc),
        }
    }

    /// The empty list, with room for `room` numbers. AllocError comes without memory.
    pub fn with_room(alloc: Global, room: usize) -> Result<SortedNumbers, AllocError>
        ensures { IfOk result (λ made. made ≡ record { numbers = set.empty; room = room }) }
    {
        Ok(SortedNumbers {
            numbers: Vec::with_capacity(alloc, room)?,
        })
    }

    /// Makes room for `more` further numbers; without memory for it the numbers stay the same, and
    /// the room is no less.
    pub fn make_room(&mut self, more: usize) -> Result<(), AllocError>
        ensures numbers { self.new.numbers ≡ self.old.numbers }
        ensures room { OnOk result (set.len self.old.numbers + more ≤ self.new.room) }
        ensures kept { self.old.room ≤ self.new.room }
    {
        self.numbers.reserve(more)
    }

    /// Adds a number, for which there is room. If the list has the number already, nothing changes.
    /// It takes no memory.
    pub fn add(&mut self, number: u32)
        requires { set.len (set.insert self.old.numbers number) ≤ self.old.room }
        ensures { self.new ≡ record self.old { numbers = set.insert self.old.numbers number } }
    {
        match index_of(&self.numbers, number) {
            Ok(_) => {}
            Err(index) => put_at(&mut self.numbers, index, number),
        }
    }

    /// Moves all numbers of another list into this one, which has none of them, and room for all.
    /// It takes no memory, and time in how many numbers are above the least one moved.
    pub fn merge_from(&mut self, others: &mut SortedNumbers)
        requires apart { AreApart self.old.numbers others.old.numbers }
        requires room { set.len self.old.numbers + set.len others.old.numbers ≤ self.old.room }
        ensures numbers { self.new
            ≡ record self.old { numbers = set.union self.old.numbers others.old.numbers } }
        ensures others { others.new ≡ record others.old { numbers = set.empty } }
    {
        merge_into(&mut self.numbers, &others.numbers);
        others.numbers.clear();
    }

    /// Takes out a number, if it is there. It takes no memory.
    pub fn take(&mut self, number: u32)
        ensures { self.new ≡ record self.old { numbers = set.remove self.old.numbers number } }
    {
        match index_of(&self.numbers, number) {
            Ok(index) => {
                self.numbers.remove(index);
            }
            Err(_) => {}
        }
    }

    /// Takes out all numbers. It takes no memory.
    pub fn clear(&mut self)
        ensures { self.new ≡ record self.old { numbers = set.empty } }
    {
        self.numbers.clear();
    }

    pub fn contains(&self, number: u32) -> bool
        ensures { result ≡ set.contains self.now.numbers number }
    {
        match index_of(&self.numbers, number) {
            Ok(_) => true,
            Err(_) => false,
        }
    }

    /// How many numbers the list has. Each of them is below 2^32 (`low`).
    pub fn len(&self) -> usize
        ensures value { result ≡ set.len self.now.numbers }
        ensures low { (n : ℕ) → set.contains self.now.numbers n ≡ true → n < number_count }
    {
        match self.numbers.last() {
            Some(last) => length_of_bounded(&self.numbers, *last),
            None => 0,
        }
    }

    /// How many numbers the list can hold without taking memory.
    pub fn room(&self) -> usize
        ensures { result ≡ self.now.room }
    {
        self.numbers.capacity()
    }

    /// The numbers of the list, in ascending order.
    pub fn as_slice(&self) -> &[u32]
        ensures { IsAscendingListOf self.now.numbers result.now }
    {
        &self.numbers
    }
}

/// Ok with the index of a number that a sorted list has, else Err with the index where it belongs.
fn index_of(numbers: &[u32], number: u32) -> Result<usize, usize>
    requires { IsStrictlySortedBy nat_cmp numbers.now }
    ensures found { IfOk result (λ index. IsAt numbers.now number index) }
    ensures missing { IfErr result (λ index. BelongsAt numbers.now number index) }
{
    // Most numbers come in ascending order, so each belongs after the last one.
    match numbers.last() {
        Some(last) if *last < number => Err(numbers.len()),
        _ => numbers.binary_search(&number),
    }
}

/// Puts a number in at an index; those from there on move on by one. There is room for it.
fn put_at(numbers: &mut Vec<u32>, index: usize, number: u32)
    requires within { index ≤ length numbers.old.items }
    requires room { length numbers.old.items < vec_capacity numbers.old }
    ensures items { numbers.new.items ≡ insert numbers.old.items index number }
    ensures room { vec_capacity numbers.new ≡ vec_capacity numbers.old }
{
    let _ = numbers.insert(index, number);
}

/// The length of a slice. Any `last` is below 2^32 (`small`), which `SortedNumbers::len` needs.
fn length_of_bounded(numbers: &[u32], last: u32) -> usize
    ensures value { result ≡ length numbers.now }
    ensures small { last < number_count }
{
    numbers.len()
}

fn put_last(numbers: &mut Vec<u32>, number: u32)
    requires { length numbers.old.items < vec_capacity numbers.old }
    ensures items { numbers.new.items ≡ numbers.old.items ++ number ∷ [] }
    ensures room { vec_capacity numbers.new ≡ vec_capacity numbers.old }
{
    let end = numbers.len();
    put_at(numbers, end, number);
}

fn append(numbers: &mut Vec<u32>, others: &[u32])
    requires { length numbers.old.items + length others.now ≤ vec_capacity numbers.old }
    ensures items { numbers.new.items ≡ numbers.old.items ++ others.now }
    ensures room { vec_capacity numbers.new ≡ vec_capacity numbers.old }
{
    for number in others {
        put_last(numbers, *number);
    }
}

/// Whether the last of the first `count` numbers is above `other`; false if `count` is 0.
fn is_last_above(numbers: &[u32], count: usize, other: u32) -> bool
    requires { count ≤ length numbers.now }
    ensures { IsTrue result ↔ ((0 < count) × (other < slice_index numbers.now (count - 1))) }
{
    count > 0 && numbers[count - 1] > other
}

/// Merges `others` into the first `own` numbers of the slice, after which it has a place for each
/// of the others. Both are sorted and have no number in common. The largest number is put in place
/// first, so each is moved at most once.
fn merge(numbers: &mut [u32], own: usize, others: &[u32])
    requires size { length numbers.old ≡ own + length others.now }
    requires ascending { IsStrictlySortedBy nat_cmp (take own numbers.old) }
    requires others { IsStrictlySortedBy nat_cmp others.now }
    requires apart { AreApart (set.from_list (take own numbers.old)) (set.from_list others.now) }
    ensures { numbers.new ≡ sorted_merge nat_cmp true (take own numbers.old) others.now }
{
    let mut own = own;
    let mut left = others.len();
    while left > 0 {
        let other = others[left - 1];
        if is_last_above(numbers, own, other) {
            numbers[own + left - 1] = numbers[own - 1];
            own -= 1;
        } else {
            numbers[own + left - 1] = other;
            left -= 1;
        }
    }
}

/// Merges sorted numbers into a sorted vector, which has room for both, and none of the others.
fn merge_into(numbers: &mut Vec<u32>, others: &[u32])
    requires room { length numbers.old.items + length others.now ≤ vec_capacity numbers.old }
    requires ascending { IsStrictlySortedBy nat_cmp numbers.old.items }
    requires others { IsStrictlySortedBy nat_cmp others.now }
    requires apart { AreApart (set.from_list numbers.old.items) (set.from_list others.now) }
    ensures items { numbers.new.items ≡ sorted_merge nat_cmp true numbers.old.items others.now }
    ensures room { vec_capacity numbers.new ≡ vec_capacity numbers.old }
{
    let own = numbers.len();
    append(numbers, others);
    merge(numbers, own, others);
}
