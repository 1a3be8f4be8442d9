//! Reads arrays of tables of the world file, element by element. A call that may return a fault may
//! also return `Memory`. Where a call takes no `array`, `key` is the array's path, as `item`.
//! See docs/FORMATS.md, "The world file". What is read is in its ranges (`is_sound`).
ghost use Rattle.std.specs.Prelude.{◌≡◌, ◌≤◌, ◌∷◌, ℕ, List, IfOk, Result, length};
ghost use Rattle.std.specs.List.{All};
ghost use Rattle.toml.specs.Data.{Members, as_array};
ghost use Rattle.toml.specs.View.{view, table_view, array_view};
ghost use Rattle.atl_tables.specs.Faults.{Conditions, first_fault};
ghost use Rattle.atl_tables.specs.Results.{Gives};
ghost use Rattle.atl_tables.specs.Keys.{element_path, array_of_size, array_at, optional_array_at};
ghost use Rattle.atl_tables.specs.Arrays.{element_table, element_conditions, elements_conditions, elements_of, list_conditions, list_of};

use crate::fault::WorldFault;
use crate::keys::{array_of_size, element_path, member};
use atl_world::{Sequence, Text};
use std::alloc::Global;
use toml::value::Array;
use toml::{Table, Value};

/// A value that is read from a table: an element of an array of tables, or a part of one table.
pub(crate) trait FromTable: Drop {
    // The conditions on the keys of a table at a path.
    ghost conditions: { List ℕ → Members → Conditions };

    // The value that a table at a path gives, if the conditions on its keys hold.
    ghost record_of: { List ℕ → Members → Self };
    // What is true of each value as read: names keep the rule of names, and numbers their ranges.
    ghost is_sound: { Self → Type 0 };

    /// The value of the table at the path `at`, else the first fault of its keys.
    fn read(alloc: Global, at: &str, table: &Table) -> Result<Self, WorldFault>
        ensures value { Gives (λ x. x) result
            (first_fault (conditions at.now (table_view table.now)))
            (record_of at.now (table_view table.now)) }
        ensures sound { IfOk result is_sound };
}

/// The element at index i as read, else WrongType if it is no table, or its first fault.
fn one_element<E: FromTable>(
    alloc: Global,
    key: &str,
    i: usize,
    value: &Value,
) -> Result<E, WorldFault>
    ensures value { Gives (λ x. x) result
        (first_fault (element_conditions E.conditions (element_path key.now i) (view value.now)))
        (E.record_of (element_path key.now i)
        (element_table (element_path key.now i) (view value.now))) }
    ensures sound { IfOk result E.is_sound }
{
    let element = element_path(alloc, key, i)?;
    let at = element.as_str();
    match value.as_table() {
        None => Err(WorldFault::WrongType(element)),
        Some(table) => E::read(alloc, at, table),
    }
}

/// The elements of the array `values` as read, in order, else the first fault of one.
fn elements<E: FromTable>(alloc: Global, key: &str, values: &Array) -> Result<Vec<E>, WorldFault>
    ensures value { Gives (λ v. v.items) result
        (first_fault (elements_conditions E.conditions key.now 0 (array_view values.now)))
        (elements_of E.record_of key.now 0 (array_view values.now)) }
    ensures sound { IfOk result (λ v. All E.is_sound v.items) }
    ensures count { IfOk result (λ v. length v.items ≡ length values.now.items) }
{
    let mut read = Vec::new(alloc);
    for i in 0..values.len() {
        let one = one_element::<E>(alloc, key, i, &values[i])?;
        read.push(one)?;
    }
    Ok(read)
}

/// The `least` to `most` elements of the array that a value is, as read, else the fault WrongType
/// or OutOfRange at the path `array`, or the first fault of an element.
#[tactic(auto, unfolding(crate::specs::Arrays::list_conditions, crate::specs::Arrays::list_of))]
pub(crate) fn array_elements<E: FromTable>(
    alloc: Global,
    least: usize,
    most: usize,
    array: &str,
    value: &Value,
) -> Result<Sequence<E>, WorldFault>
    ensures value { Gives (λ v. v) result
        (first_fault (list_conditions E.conditions array.now
        (array_of_size array.now least most (as_array (view value.now)))))
        (list_of E.record_of array.now
        (array_of_size array.now least most (as_array (view value.now)))) }
    ensures sound { IfOk result (λ v. All E.is_sound v) }
    ensures most { IfOk result (λ v. length v ≤ most) }
{
    let values = array_of_size(alloc, least, most, array, value)?;
    Ok(Sequence::from_vec(elements(alloc, array, values)?))
}

/// The 1 to `most` elements of the array under a key of the document, else the fault Missing,
/// WrongType or OutOfRange of the array, or the first fault of an element.
#[tactic(auto, unfolding(crate::specs::Arrays::list_conditions, crate::specs::Arrays::list_of, crate::specs::Keys::array_at))]
pub(crate) fn read_array<E: FromTable>(
    alloc: Global,
    most: usize,
    key: &str,
    document: &Table,
) -> Result<Sequence<E>, WorldFault>
    ensures value { Gives (λ v. v) result
        (first_fault (list_conditions E.conditions key.now
        (array_at most key.now (table_view document.now))))
        (list_of E.record_of key.now (array_at most key.now (table_view document.now))) }
    ensures sound { IfOk result (λ v. All E.is_sound v) }
    ensures most { IfOk result (λ v. length v ≤ most) }
{
    match member(document, key) {
        None => Err(WorldFault::Missing(Text::from_str(alloc, key)?)),
        Some(value) => array_elements(alloc, 1, most, key, value),
    }
}

/// The at most `most` elements of the array under a key of a table, none if the key is missing. An
/// error is the fault WrongType or OutOfRange of the array, whose path is `array`, or the first
/// fault of an element.
#[tactic(auto, unfolding(crate::specs::Arrays::list_conditions, crate::specs::Arrays::list_of, crate::specs::Keys::optional_array_at))]
pub(crate) fn read_optional_array<E: FromTable>(
    alloc: Global,
    most: usize,
    array: &str,
    key: &str,
    table: &Table,
) -> Result<Sequence<E>, WorldFault>
    ensures value { Gives (λ v. v) result
        (first_fault (list_conditions E.conditions array.now
        (optional_array_at most array.now key.now (table_view table.now))))
        (list_of E.record_of array.now
        (optional_array_at most array.now key.now (table_view table.now))) }
    ensures sound { IfOk result (λ v. All E.is_sound v) }
    ensures most { IfOk result (λ v. length v ≤ most) }
{
    match member(table, key) {
        None => Ok(Sequence::new(alloc)),
        Some(value) => array_elements(alloc, 0, most, array, value),
    }
}
