//! A vector of values that contracts see as a list.
ghost use Rattle.std.specs.Prelude.{◌≡◌, ◌++◌, ◌∷◌, [], IfOk, OnOk, OnErr, length};

use std::alloc::{AllocError, Global};
use std::marker::Model;

/// A vector of values that contracts see as a list.
#[derive(Drop, Debug)]
pub struct Sequence<T> {
    items: Vec<T>,
}

impl<T> Model for Sequence<T> {
    ghost use Rattle.std.specs.Prelude.{List};
    ghost use Rattle.std.specs.Coded.{coded_list};

    ghost Value = { List T };

    ghost coded = { coded_list T.code };

    ghost view = { λ a. a.items.items };
}

impl<T: Drop> Sequence<T> {
    /// The empty list, which takes no memory.
    pub fn new(alloc: Global) -> Self
        ensures { result ≡ [] }
    {
        Self {
            items: Vec::new(alloc),
        }
    }

    /// Makes a `Sequence` of a vector, without a copy.
    pub fn from_vec(items: Vec<T>) -> Self
        ensures { result ≡ items.items }
    {
        Self { items }
    }

    /// Makes a vector of the list, without a copy.
    pub fn into_vec(self) -> Vec<T>
        ensures { result.items ≡ self }
    {
        self.items
    }

    /// A list with copies of the values of a slice. AllocError comes without memory.
    pub fn from_slice(alloc: Global, values: &[T]) -> Result<Self, AllocError>
    where
        T: Copy,
        ensures { IfOk result (λ made. made ≡ values.now) }
    {
        Ok(Self {
            items: Vec::from_slice(alloc, values)?,
        })
    }

    /// Puts a value at the end of the list, which stays as it is if there is no memory for it.
    pub fn push(&mut self, value: T) -> Result<(), AllocError>
        ensures ok { OnOk result (self.new ≡ self.old ++ value ∷ []) }
        ensures err { OnErr result (self.new ≡ self.old) }
    {
        self.items.push(value)?;
        Ok(())
    }

    pub fn len(&self) -> usize
        ensures { result ≡ length self.now }
    {
        self.items.len()
    }

    pub fn as_slice(&self) -> &[T]
        ensures { result.now ≡ self.now }
    {
        &self.items
    }
}
