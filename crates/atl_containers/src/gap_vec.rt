//! A vector with free room at both ends: to insert or remove mostly moves the nearer side only.
ghost use Rattle.std.specs.Prelude.{◌≡◌, ◌+◌, ◌-◌, ◌<◌, ◌≤◌, ◌^◌, OnOk, OnErr, IfOk, [], length, drop};
ghost use Rattle.std.specs.List.{insert, remove};

use std::alloc::{AllocError, Global};
use std::marker::Model;

/// A list in a vector whose first `free` elements are unused, at most half of all. To insert or
/// remove an element moves those on its nearer side, and now and then all, for more or less room.
#[derive(Drop)]
pub(crate) struct GapVec<T> {
    items: Vec<T>,
    free: usize,
}

/// Clauses see the list alone, without the unused elements, which are at most half of all.
impl<T> Model for GapVec<T> {
    ghost use Rattle.std.specs.Prelude.{List, ◌+◌, ◌≤◌, length, drop};

    ghost Value = { List T };

    ghost view = { λ a. drop a.free a.items.items };

    ghost invariant = { λ a. a.free + a.free ≤ length a.items.items };
}

/// Adds elements in front, half as many as there are, rounded down, and one; returns how many.
/// There has to be an element. Without memory nothing changes.
fn make_room<T: Copy + Drop>(items: &mut Vec<T>) -> Result<usize, AllocError>
    requires { 0 < length items.old.items }
    ensures some { IfOk result (λ free. 0 < free) }
    ensures half { IfOk result (λ free. free + free ≤ length items.new.items) }
    ensures part { IfOk result (λ free. drop free items.new.items ≡ items.old.items) }
    ensures err { OnErr result (items.new.items ≡ items.old.items) }
{
    let count = items.len();
    let free = count / 2 + 1;
    items.resize(count + free, items[0])?;
    items.copy_within(..count, free);
    Ok(free)
}

/// Inserts an element into the list at `position`, at most its length. One of the `free` unused
/// elements, of which there has to be one, is taken for it.
fn put_before<T: Copy + Drop>(items: &mut Vec<T>, free: usize, position: usize, thing: T)
    requires some { 0 < free }
    requires within { free + position ≤ length items.old.items }
    ensures part { drop (free - 1) items.new.items
        ≡ insert (drop free items.old.items) position thing }
    ensures len { length items.new.items ≡ length items.old.items }
{
    let first = free - 1;
    items.copy_within(free..free + position, first);
    items[first + position] = thing;
}

/// Inserts at `position`, at most the list's length. The first `free` elements are unused, at most
/// half of all; returns how many are then, again at most half. Without memory nothing changes.
fn insert_at<T: Copy + Drop>(
    items: &mut Vec<T>,
    free: usize,
    position: usize,
    thing: T,
) -> Result<usize, AllocError>
    requires within { free + position ≤ length items.old.items }
    requires half { free + free ≤ length items.old.items }
    ensures part { IfOk result
        (λ left. drop left items.new.items ≡ insert (drop free items.old.items) position thing) }
    ensures half { IfOk result (λ left. left + left ≤ length items.new.items) }
    ensures err { OnErr result (items.new.items ≡ items.old.items) }
{
    if items.len() - free - position <= position {
        items.insert(free + position, thing)?;
        return Ok(free);
    }
    let free = if free == 0 { make_room(items)? } else { free };
    put_before(items, free, position, thing);
    Ok(free - 1)
}

/// Removes the element at `position`, an index of the list. Returns how many are unused then.
fn remove_at<T: Copy + Drop>(items: &mut Vec<T>, free: usize, position: usize) -> usize
    requires { free + position < length items.old.items }
    ensures part { drop result items.new.items ≡ remove (drop free items.old.items) position }
    ensures within { result ≤ length items.new.items }
{
    let hole = free + position;
    if position < items.len() - hole {
        items.copy_within(free..hole, free + 1);
        return free + 1;
    }
    items.remove(hole);
    free
}

/// Removes the unused elements if they are more than the list's own; returns how many are left.
fn compact<T: Copy + Drop>(items: &mut Vec<T>, free: usize) -> usize
    requires { free ≤ length items.old.items }
    ensures part { drop result items.new.items ≡ drop free items.old.items }
    ensures half { result + result ≤ length items.new.items }
{
    let count = items.len() - free;
    if free <= count {
        return free;
    }
    items.copy_within(free.., 0);
    items.truncate(count);
    0
}

impl<T: Copy + Drop> GapVec<T> {
    /// An empty vector. It takes no memory.
    pub fn new(alloc: Global) -> Self
        ensures { result ≡ [] }
    {
        Self {
            items: Vec::new(alloc),
            free: 0,
        }
    }

    /// An empty vector with room for this many elements. AllocError without memory.
    pub fn with_room(alloc: Global, room: usize) -> Result<Self, AllocError>
        ensures { IfOk result (λ shelf. shelf ≡ []) }
    {
        Ok(Self {
            items: Vec::with_capacity(alloc, room)?,
            free: 0,
        })
    }

    /// Inserts an element at an index, at most the length. Without memory nothing changes.
    pub fn insert(&mut self, position: usize, thing: T) -> Result<(), AllocError>
        requires { position ≤ length self.old }
        ensures ok { OnOk result (self.new ≡ insert self.old position thing) }
        ensures err { OnErr result (self.new ≡ self.old) }
    {
        self.free = insert_at(&mut self.items, self.free, position, thing)?;
        Ok(())
    }

    /// Removes the element at an index, which is below the length. It takes no memory.
    pub fn remove(&mut self, position: usize)
        requires { position < length self.old }
        ensures { self.new ≡ remove self.old position }
    {
        let free = remove_at(&mut self.items, self.free, position);
        self.free = compact(&mut self.items, free);
    }

    /// How many elements the list has, without the unused ones: fewer than 2^63.
    pub fn len(&self) -> usize
        ensures value { result ≡ length self.now }
        ensures small { result < 2 ^ 63 }
    {
        self.items.len() - self.free
    }

    /// The elements of the list in their order, without the unused ones.
    pub fn as_slice(&self) -> &[T]
        ensures { result.now ≡ self.now }
    {
        &self.items[self.free..]
    }
}
