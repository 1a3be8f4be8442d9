//! A map from numbers to values that marks each number whose value changed.
ghost use Rattle.std.specs.Prelude.{◌≡◌, ◌≤◌, IfOk, OnOk, OnErr, option_copied, None};
ghost use Rattle.std.specs.FinMap as map;
ghost use Rattle.std.specs.FinSet as set;
ghost use Rattle.atl_world.specs.Limits.{number_count};
ghost use Rattle.atl_world.specs.Tracking.{marked_with, with_value, without_value, without_values, without_new_value, IsAscendingListOf};

use crate::let_go;
use crate::marked_numbers::MarkedNumbers;
use crate::marks::Marks;
use crate::numbered::{Entries, Numbered};
use std::alloc::{AllocError, Global};
use std::marker::Model;

/// A map from numbers to values that marks each number whose value changes. A value changes if it
/// is put in, lent to be changed, or taken out; the marks stay until they are cleared.
pub struct MarkedMap<V> {
    values: Numbered<V>,
    // The marked numbers, with room for one mark on each value.
    marks: Marks,
}

impl<V: Drop> Drop for MarkedMap<V> {
    fn drop(self) {
        let_go!(self: MarkedMap { values, marks });
    }
}

/// Contracts see the map as its values by number with the set of the marked numbers. There is
/// always room for a mark on each value.
impl<V> Model for MarkedMap<V> {
    ghost use Rattle.atl_world.specs.MarkedMaps.{MarkedMapValue, marked_map_code};
    ghost use Rattle.atl_world.specs.RoomySets.{HasRoomForMarks};

    ghost Value = { MarkedMapValue V };

    ghost coded = { marked_map_code V.code };

    ghost view = { λ a. record { values = a.values; marks = a.marks.numbers } };

    ghost invariant = { λ a. HasRoomForMarks a.values a.marks };
}

impl<V: Drop> MarkedMap<V> {
    ghost use Rattle.std.specs.Option.{option_copied_mut};
    ghost use Rattle.std.specs.Borrow.{sem};
    ghost use Rattle.atl_world.specs.Tracking.{WritesBackMarked};

    /// The empty map, with nothing marked. It takes no memory.
    pub fn new(alloc: Global) -> Self
        ensures { result ≡ record { values = map.empty; marks = set.empty } }
    {
        Self {
            values: Numbered::new(alloc),
            marks: Marks::new(alloc),
        }
    }

    /// The value under a number, `None` if there is none. It marks nothing.
    pub fn get(&self, number: u32) -> Option<&V>
        ensures { option_copied result ≡ map.get self.now.values number }
    {
        self.values.get(number)
    }

    /// Marks a number that has a value, and lends the value to be changed; `None` without one, and
    /// nothing changes. It takes no memory.
    pub fn get_mut(&mut self, number: u32) -> Option<&mut V>
        ensures* writes_back { sem 𝓛 (WritesBackMarked V.row self.entry number result) }
        ensures value { option_copied_mut result ≡ map.get self.old.values number }
    {
        self.marks.mark_present(&self.values, number);
        match self.values.get_mut(number) {
            Some(value) => Some(value),
            None => None,
        }
    }

    /// Puts a value under a number that has none, and marks the number; without memory it changes
    /// nothing.
    pub fn insert(&mut self, number: u32, value: V) -> Result<(), AllocError>
        requires { map.get self.old.values number ≡ None }
        ensures ok { OnOk result (self.new ≡ with_value self.old number value) }
        ensures err { OnErr result (self.new ≡ self.old) }
    {
        self.values.insert(number, value)?;
        match self.marks.make_room(self.values.len()) {
            Ok(()) => {
                self.marks.add(number);
                Ok(())
            }
            Err(error) => {
                self.values.remove(number);
                Err(error)
            }
        }
    }

    /// Puts a value under a number, in place of any that is there, and marks the number; without
    /// memory it changes nothing.
    pub fn put(&mut self, number: u32, value: V) -> Result<(), AllocError>
        ensures ok { OnOk result (self.new ≡ with_value self.old number value) }
        ensures err { OnErr result (self.new ≡ self.old) }
    {
        if self.values.get(number).is_none() {
            return self.insert(number, value);
        }
        if let Some(index) = self.get_mut(number) {
            *index = value;
        }
        Ok(())
    }

    /// Takes out the value under a number, if any, and marks the number then. It takes no memory.
    pub fn remove(&mut self, number: u32)
        ensures { self.new ≡ without_value self.old number }
    {
        self.marks.mark_present(&self.values, number);
        self.values.remove(number);
    }

    /// Undoes an insert: takes out the value, if there is one, and clears the number's mark. If
    /// `was_marked`, that is, the number was marked before the insert, it clears no mark, and marks
    /// the number if it had a value. It takes no memory.
    pub fn take_out(&mut self, number: u32, was_marked: bool)
        ensures { self.new ≡ without_new_value self.old number was_marked }
    {
        if was_marked {
            self.remove(number);
        } else {
            self.values.remove(number);
            self.marks.take(number);
        }
    }

    /// The map of these values, none marked, with room to mark each; AllocError without memory.
    pub fn from_values(alloc: Global, values: Numbered<V>) -> Result<Self, AllocError>
        ensures { IfOk result (λ made. made ≡ record { values = values; marks = set.empty }) }
    {
        let marks = Marks::with_room(alloc, values.len())?;
        Ok(Self { values, marks })
    }

    /// Marks a number, if it has a value. It takes no memory.
    pub fn mark(&mut self, number: u32)
        ensures { self.new ≡ record self.old
            { marks = marked_with self.old.marks number (map.get self.old.values number) } }
    {
        self.marks.mark_present(&self.values, number);
    }

    /// Clears all marks. It takes no memory.
    pub fn unmark(&mut self)
        ensures { self.new ≡ record self.old { marks = set.empty } }
    {
        self.marks.clear();
    }

    /// Takes out all values, and marks their numbers. It takes no memory.
    pub fn clear(&mut self)
        ensures { self.new ≡ without_values self.old }
    {
        self.marks.mark_all(&self.values);
        self.values.clear();
    }

    /// All values by their numbers, whether marked or not.
    pub fn values(&self) -> &Numbered<V>
        ensures { result.now ≡ self.now.values }
    {
        &self.values
    }

    pub fn len(&self) -> usize
        ensures { result ≡ map.len self.now.values }
    {
        self.values.len()
    }

    /// The numbers of the map with their values, in ascending order of the numbers.
    pub fn iter(&self) -> Entries<'_, V>
        ensures { result ≡ map.entries self.now.values }
    {
        self.values.iter()
    }

    pub fn is_marked(&self, number: u32) -> bool
        ensures { result ≡ set.contains self.now.marks number }
    {
        self.marks.contains(number)
    }

    /// The marked numbers, in ascending order. It takes no memory.
    pub fn marked_numbers(&self) -> MarkedNumbers<'_>
        ensures { IsAscendingListOf self.now.marks result }
    {
        self.marks.iter()
    }

    /// How many numbers are marked, at most 2^32.
    pub fn marked_count(&self) -> usize
        ensures value { result ≡ set.len self.now.marks }
        ensures small { result ≤ number_count }
    {
        self.marks.len()
    }
}
