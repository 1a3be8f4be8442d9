//! A map from numbers to values, sorted by number.
ghost use Rattle.std.specs.Prelude.{◌≡◌, ℕ, IfOk, OnOk, OnErr, IsOk, option_copied, None, Some, is_some, length};
ghost use Rattle.std.specs.Ordering.{nat_cmp};
ghost use Rattle.std.specs.FinMap as map;
ghost use Rattle.std.specs.Coded.{coded_ℕ};

use std::alloc::{AllocError, Global};
use std::collections::{BTreeMap, btree_map};
use std::marker::Model;

/// A map from numbers to values, sorted by number.
#[derive(Drop)]
pub struct Numbered<V> {
    entries: BTreeMap<u32, V>,
}

/// Contracts see a `Numbered` as a finite map from numbers to values.
impl<V> Model for Numbered<V> {
    ghost Value = { map.FinMap nat_cmp V };

    ghost coded = { map.code coded_ℕ V.code };

    ghost view = { λ a. map.from_entries a.entries.entries };
}

impl<V: Drop> Numbered<V> {
    ghost use Rattle.std.specs.Option.{option_copied_mut};
    ghost use Rattle.std.specs.Borrow.{sem};
    ghost use Rattle.atl_world.specs.Lending.{WritesBackAt};

    /// The empty map. It takes no memory.
    pub fn new(alloc: Global) -> Self
        ensures { result ≡ map.empty }
    {
        Self {
            entries: BTreeMap::new(alloc),
        }
    }

    /// The value under a number, `None` if there is none.
    pub fn get(&self, number: u32) -> Option<&V>
        ensures { option_copied result ≡ map.get self.now number }
    {
        self.entries.get(&number)
    }

    /// The value under a number, lent to be changed, `None` if there is none.
    pub fn get_mut(&mut self, number: u32) -> Option<&mut V>
        ensures* writes_back { sem 𝓛 (WritesBackAt V.row self.entry number result) }
        ensures value { option_copied_mut result ≡ map.get self.old number }
    {
        self.entries.get_mut(&number)
    }

    /// Puts a value under a number, in place of any that is there; without memory nothing changes.
    pub fn insert(&mut self, number: u32, value: V) -> Result<(), AllocError>
        ensures ok { OnOk result (self.new ≡ map.insert self.old number value) }
        ensures err { OnErr result (self.new ≡ self.old) }
    {
        self.entries.insert(number, value)?;
        Ok(())
    }

    /// Takes out the value under a number, if there is one. It takes no memory.
    pub fn remove(&mut self, number: u32)
        ensures { self.new ≡ map.remove self.old number }
    {
        self.entries.remove(&number);
    }

    /// Takes out all values. It takes no memory.
    pub fn clear(&mut self)
        ensures { self.new ≡ map.empty }
    {
        self.entries.clear();
    }

    pub fn len(&self) -> usize
        ensures { result ≡ map.len self.now }
    {
        self.entries.len()
    }

    /// The numbers of the map with their values, in ascending order of the numbers.
    pub fn iter(&self) -> Entries<'_, V>
        ensures { result ≡ map.entries self.now }
    {
        Entries {
            inner: self.entries.iter(),
        }
    }
}

impl<V: Drop> Numbered<Numbered<V>> {
    ghost use Rattle.atl_world.specs.Groups.{group_of};

    /// The value under a number in the inner map under the number `group`, `None` if there is none.
    pub fn get_under(&self, group: u32, number: u32) -> Option<&V>
        ensures { option_copied result ≡ map.get (group_of self.now group) number }
    {
        match self.get(group) {
            Some(values) => values.get(number),
            None => None,
        }
    }

    /// Puts a value under a number in the inner map under the number `group`, in place of any that
    /// is there, and adds the inner map if it is missing. Without memory it changes nothing.
    pub fn insert_under(
        &mut self,
        alloc: Global,
        group: u32,
        number: u32,
        value: V,
    ) -> Result<(), AllocError>
        ensures ok { OnOk result
            (self.new ≡ map.insert self.old group
            (map.insert (group_of self.old group) number value)) }
        ensures err { OnErr result (self.new ≡ self.old) }
    {
        match self.get_mut(group) {
            Some(values) => values.insert(number, value),
            None => {
                let mut values = Numbered::new(alloc);
                values.insert(number, value)?;
                self.insert(group, values)
            }
        }
    }
}

/// An iterator over the numbers of a `Numbered` with their values, in ascending order.
#[derive(Drop)]
pub struct Entries<'a, V> {
    inner: btree_map::Iter<'a, u32, V>,
}

/// Contracts see the iterator as the list of the numbers and values that are left to come.
impl<'a, V> Model for Entries<'a, V> {
    ghost use Rattle.std.specs.Prelude.{List, ℕ};

    ghost Value = { List (ℕ × V) };

    ghost view = { λ a. a.inner };
}

impl<'a, V> Iterator for Entries<'a, V> {
    type Item = (u32, &'a V);

    ghost use Rattle.std.specs.Iterator.{YieldsFirstBy, item_count};

    ghost next_gives = { YieldsFirstBy (λ p. (p.0, p.1.now)) (λ s. s) };

    ghost remaining = { item_count (λ s. s) };

    fn next(&mut self) -> Option<(u32, &'a V)> {
        match self.inner.next() {
            Some((number, value)) => Some((*number, value)),
            None => None,
        }
    }
}
