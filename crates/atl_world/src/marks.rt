//! A set of marked numbers, with room to mark more without taking memory.
ghost use Rattle.std.specs.Prelude.{◌≡◌, true, ◌+◌, ◌<◌, ◌≤◌, IfOk, OnOk};
ghost use Rattle.std.specs.FinMap as map;
ghost use Rattle.std.specs.FinSet as set;
ghost use Rattle.atl_world.specs.Limits.{number_count};
ghost use Rattle.atl_world.specs.RoomySets.{valued_or_marked, HasRoomForMarks};
ghost use Rattle.atl_world.specs.Tracking.{marked_with, IsAscendingListOf};

use crate::let_go;
use crate::marked_numbers::MarkedNumbers;
use crate::numbered::Numbered;
use crate::sorted_numbers::SortedNumbers;
use std::alloc::{AllocError, Global};
use std::marker::Model;

/// How many numbers a `Marks` holds at most in its second list, of those that were marked last and
/// aren't merged into the first list yet.
const RECENT_LIMIT: usize = 512;

/// A set of marked numbers, with room for more. To mark a number for which there is room takes no
/// memory, and to clear the set takes time in the number of marks.
pub struct Marks {
    // The marked numbers except for the recent ones.
    numbers: SortedNumbers,
    // The numbers that were marked last, at most `RECENT_LIMIT`: to add one takes little time.
    recent: SortedNumbers,
}

impl Drop for Marks {
    fn drop(self) {
        let_go!(self: Marks { numbers, recent });
    }
}

/// Contracts see the marks as the set of the marked numbers with its room: how many numbers it can
/// hold without taking memory.
impl Model for Marks {
    ghost use Rattle.std.specs.FinSet as set;
    ghost use Rattle.atl_world.specs.RoomySets.{RoomySet, roomy_set_code};
    ghost use Rattle.atl_world.specs.SortedNumbers.{AreMarks};

    ghost Value = { RoomySet };

    ghost coded = { roomy_set_code };

    ghost view = { λ a. record {
      numbers = set.union a.numbers.numbers a.recent.numbers;
      room = a.numbers.room;
    } };

    ghost invariant = { λ a. AreMarks a.numbers a.recent };
}

impl Marks {
    /// The empty set, without room. It takes no memory.
    pub fn new(alloc: Global) -> Marks
        ensures { result ≡ record { numbers = set.empty; room = 0 } }
    {
        Marks {
            numbers: SortedNumbers::new(alloc),
            recent: SortedNumbers::new(alloc),
        }
    }

    /// The empty set, with room for `room` numbers. AllocError comes without memory.
    pub fn with_room(alloc: Global, room: usize) -> Result<Marks, AllocError>
        ensures { IfOk result (λ marks. marks ≡ record { numbers = set.empty; room = room }) }
    {
        let recent = SortedNumbers::with_room(alloc, room.min(RECENT_LIMIT))?;
        let numbers = SortedNumbers::with_room(alloc, room)?;
        Ok(Marks { numbers, recent })
    }

    /// Makes room for `more` further numbers; without memory for it the numbers stay the same, and
    /// the room is no less.
    pub fn make_room(&mut self, more: usize) -> Result<(), AllocError>
        ensures numbers { self.new.numbers ≡ self.old.numbers }
        ensures room { OnOk result (set.len self.old.numbers + more ≤ self.new.room) }
        ensures kept { self.old.room ≤ self.new.room }
    {
        let recent = self.recent.len();
        let Some(all) = recent.checked_add(more) else {
            return Err(AllocError);
        };
        self.recent
            .make_room(RECENT_LIMIT.saturating_sub(recent).min(more))?;
        self.numbers.make_room(all)
    }

    /// Marks a number, for which there is room. It takes no memory.
    pub fn add(&mut self, number: u32)
        requires { set.len (set.insert self.old.numbers number) ≤ self.old.room }
        ensures { self.new ≡ record self.old { numbers = set.insert self.old.numbers number } }
    {
        if self.contains(number) {
            return;
        }
        if has_recent_room(&self.recent) {
            self.recent.add(number);
        } else {
            self.numbers.merge_from(&mut self.recent);
            self.numbers.add(number);
        }
    }

    /// Marks a number if the map `values` has a value under it; there is room for the old marks and
    /// a mark on each value (`HasRoomForMarks`). It takes no memory.
    pub fn mark_present<V: Drop>(&mut self, values: &Numbered<V>, number: u32)
        requires { HasRoomForMarks values.now self.old }
        ensures { self.new ≡ record self.old
            { numbers = marked_with self.old.numbers number (map.get values.now number) } }
    {
        match values.get(number) {
            Some(_) => self.add(number),
            None => {}
        }
    }

    /// Marks each number under which the map `values` has a value; there is room for the old marks
    /// and these (`HasRoomForMarks`). It takes no memory.
    pub fn mark_all<V: Drop>(&mut self, values: &Numbered<V>)
        requires { HasRoomForMarks values.now self.old }
        ensures { self.new ≡ record self.old {
          numbers = valued_or_marked values.now
              self.old.numbers;
        } }
    {
        for (number, _) in values.iter() {
            self.add(number);
        }
    }

    /// Clears the mark of a number. It takes no memory.
    pub fn take(&mut self, number: u32)
        ensures { self.new ≡ record self.old { numbers = set.remove self.old.numbers number } }
    {
        self.numbers.take(number);
        self.recent.take(number);
    }

    /// Clears all marks. It takes no memory.
    pub fn clear(&mut self)
        ensures { self.new ≡ record self.old { numbers = set.empty } }
    {
        self.numbers.clear();
        self.recent.clear();
    }

    pub fn contains(&self, number: u32) -> bool
        ensures { result ≡ set.contains self.now.numbers number }
    {
        self.numbers.contains(number) || self.recent.contains(number)
    }

    /// How many numbers are marked, at most 2^32.
    pub fn len(&self) -> usize
        ensures value { result ≡ set.len self.now.numbers }
        ensures small { result ≤ number_count }
    {
        self.numbers.len() + self.recent.len()
    }

    /// The marked numbers, in ascending order. It takes no memory.
    pub fn iter(&self) -> MarkedNumbers<'_>
        ensures { IsAscendingListOf self.now.numbers result }
    {
        MarkedNumbers {
            numbers: self.numbers.as_slice().iter(),
            recent: self.recent.as_slice().iter(),
        }
    }
}

/// If true, the list has room for one number more. False from `RECENT_LIMIT` numbers on.
fn has_recent_room(recent: &SortedNumbers) -> bool
    ensures { result ≡ true → set.len recent.now.numbers < recent.now.room }
{
    recent.len() < recent.room().min(RECENT_LIMIT)
}
