//! Reads the value under a key of a table, or gives a fault with the path of the key: Missing, if
//! the key has to be there; WrongType; or OutOfRange, if a number or an array's length isn't from
//! `least` to `most`, or a name breaks its rule. `Memory` is possible everywhere. `at` is the path
//! of the table; of an array, `key` is its path. See docs/FORMATS.md, "The world file".
ghost use Rattle.std.specs.Prelude.{◌≡◌, ◌≤◌, ℤ, List, option_map, IfOk, IfSome, true, length, string_bytes};
ghost use Rattle.toml.specs.Data.{get_member, as_integer, as_str, as_array};
ghost use Rattle.toml.specs.View.{view, table_view, array_view};
ghost use Rattle.atl_tables.specs.Faults.{Reads};
ghost use Rattle.atl_world.specs.Names.{name_ok};
ghost use Rattle.atl_tables.specs.Keys.{path, element_path, number_within, integer_in_range, value_or_wrong_type, number_at, name_at, text_at, flag_at, number_or_at, optional_number_at, optional_text_at, table_at, count_of, array_of_size};

use crate::fault::WorldFault;
use atl_world::{Text, name_ok};
use std::alloc::{AllocError, Global};
use toml::value::Array;
use toml::{Table, Value};

pub(crate) fn path(alloc: Global, at: &str, key: &str) -> Result<Text, AllocError>
    ensures { IfOk result (λ text. text ≡ path at.now key.now) }
{
    Ok(Text::from_string(format!(in alloc; "{at}.{key}")?))
}

pub(crate) fn element_path(alloc: Global, key: &str, i: usize) -> Result<Text, AllocError>
    ensures { IfOk result (λ text. text ≡ element_path key.now i) }
{
    Ok(Text::from_string(format!(in alloc; "{key}[{i}]")?))
}

/// The path of a key of the i-th element of the array at the path `array`, as `region[0].number`.
pub(crate) fn element_key_path(
    alloc: Global,
    array: &str,
    i: usize,
    key: &str,
) -> Result<Text, AllocError>
    ensures { IfOk result (λ text. text ≡ path (element_path array.now i) key.now) }
{
    let element = element_path(alloc, array, i)?;
    path(alloc, element.as_str(), key)
}

pub(crate) fn member<'a>(table: &'a Table, key: &str) -> Option<&'a Value>
    ensures { option_map (λ v. view v.now) result ≡ get_member key.now (table_view table.now) }
{
    table.get(key)
}

fn number_within(least: u32, most: u32, number: i64) -> Option<u32>
    ensures value { result ≡ number_within least most number }
    ensures least { IfSome result (λ n. least ≤ n) }
    ensures most { IfSome result (λ n. n ≤ most) }
{
    if number < 0 || number > i64::from(u32::MAX) {
        return None;
    }
    let number = number as u32;
    if least <= number && number <= most {
        Some(number)
    } else {
        None
    }
}

pub(crate) fn integer_in_range(
    alloc: Global,
    least: u32,
    most: u32,
    key: &str,
    at: &str,
    value: &Value,
) -> Result<u32, WorldFault>
    ensures value { Reads (λ n. n) result
        (integer_in_range (path at.now key.now) least most (as_integer (view value.now))) }
    ensures least { IfOk result (λ n. least ≤ n) }
    ensures most { IfOk result (λ n. n ≤ most) }
{
    match value.as_integer() {
        None => Err(WorldFault::WrongType(path(alloc, at, key)?)),
        Some(number) => match number_within(least, most, number) {
            None => Err(WorldFault::OutOfRange(path(alloc, at, key)?)),
            Some(number) => Ok(number),
        },
    }
}

#[tactic(auto, unfolding(crate::specs::Keys::number_at))]
pub(crate) fn number(
    alloc: Global,
    least: u32,
    most: u32,
    key: &str,
    at: &str,
    table: &Table,
) -> Result<u32, WorldFault>
    ensures value { Reads (λ n. n) result
        (number_at least most key.now at.now (table_view table.now)) }
    ensures least { IfOk result (λ n. least ≤ n) }
    ensures most { IfOk result (λ n. n ≤ most) }
{
    match member(table, key) {
        None => Err(WorldFault::Missing(path(alloc, at, key)?)),
        Some(value) => integer_in_range(alloc, least, most, key, at, value),
    }
}

#[tactic(auto, unfolding(crate::specs::Keys::number_or_at))]
pub(crate) fn number_or(
    alloc: Global,
    default: u32,
    least: u32,
    most: u32,
    key: &str,
    at: &str,
    table: &Table,
) -> Result<u32, WorldFault>
    requires least { least ≤ default }
    requires most { default ≤ most }
    ensures value { Reads (λ n. n) result
        (number_or_at default least most key.now at.now (table_view table.now)) }
    ensures least { IfOk result (λ n. least ≤ n) }
    ensures most { IfOk result (λ n. n ≤ most) }
{
    match member(table, key) {
        None => Ok(default),
        Some(value) => integer_in_range(alloc, least, most, key, at, value),
    }
}

#[tactic(auto, unfolding(crate::specs::Keys::optional_number_at))]
pub(crate) fn optional_number(
    alloc: Global,
    least: u32,
    most: u32,
    key: &str,
    at: &str,
    table: &Table,
) -> Result<Option<u32>, WorldFault>
    ensures { Reads (λ o. o) result
        (optional_number_at least most key.now at.now (table_view table.now)) }
{
    match member(table, key) {
        None => Ok(None),
        Some(value) => {
            let number = integer_in_range(alloc, least, most, key, at, value)?;
            Ok(Some(number))
        }
    }
}

#[tactic(auto, unfolding(crate::specs::Keys::name_at))]
pub(crate) fn name(alloc: Global, key: &str, at: &str, table: &Table) -> Result<Text, WorldFault>
    ensures value { Reads (λ t. t) result (name_at key.now at.now (table_view table.now)) }
    ensures good { IfOk result (λ t. name_ok t ≡ true) }
{
    match member(table, key) {
        None => Err(WorldFault::Missing(path(alloc, at, key)?)),
        Some(value) => match value.as_str() {
            None => Err(WorldFault::WrongType(path(alloc, at, key)?)),
            Some(text) => {
                if !name_ok(text.as_bytes()) {
                    return Err(WorldFault::OutOfRange(path(alloc, at, key)?));
                }
                Ok(Text::from_str(alloc, text)?)
            }
        },
    }
}

fn text_value(alloc: Global, key: &str, at: &str, value: &Value) -> Result<Text, WorldFault>
    ensures { Reads (λ t. t) result
        (value_or_wrong_type (path at.now key.now) (as_str (view value.now))) }
{
    match value.as_str() {
        None => Err(WorldFault::WrongType(path(alloc, at, key)?)),
        Some(text) => Ok(Text::from_str(alloc, text)?),
    }
}

#[tactic(auto, unfolding(crate::specs::Keys::text_at))]
pub(crate) fn text(alloc: Global, key: &str, at: &str, table: &Table) -> Result<Text, WorldFault>
    ensures { Reads (λ t. t) result (text_at key.now at.now (table_view table.now)) }
{
    match member(table, key) {
        None => Err(WorldFault::Missing(path(alloc, at, key)?)),
        Some(value) => text_value(alloc, key, at, value),
    }
}

#[tactic(auto, unfolding(crate::specs::Keys::optional_text_at))]
pub(crate) fn optional_text(
    alloc: Global,
    key: &str,
    at: &str,
    table: &Table,
) -> Result<Option<Text>, WorldFault>
    ensures { Reads (λ o. o) result (optional_text_at key.now at.now (table_view table.now)) }
{
    match member(table, key) {
        None => Ok(None),
        Some(value) => {
            let text = text_value(alloc, key, at, value)?;
            Ok(Some(text))
        }
    }
}

#[tactic(auto, unfolding(crate::specs::Keys::flag_at))]
pub(crate) fn flag(alloc: Global, key: &str, at: &str, table: &Table) -> Result<bool, WorldFault>
    ensures { Reads (λ b. b) result (flag_at key.now at.now (table_view table.now)) }
{
    match member(table, key) {
        None => Err(WorldFault::Missing(path(alloc, at, key)?)),
        Some(value) => match value.as_bool() {
            None => Err(WorldFault::WrongType(path(alloc, at, key)?)),
            Some(flag) => Ok(flag),
        },
    }
}

#[tactic(auto, unfolding(crate::specs::Keys::table_at))]
pub(crate) fn table<'a>(
    alloc: Global,
    key: &str,
    document: &'a Table,
) -> Result<&'a Table, WorldFault>
    ensures { Reads (λ t. table_view t.now) result (table_at key.now (table_view document.now)) }
{
    match member(document, key) {
        None => Err(WorldFault::Missing(Text::from_str(alloc, key)?)),
        Some(value) => match value.as_table() {
            None => Err(WorldFault::WrongType(Text::from_str(alloc, key)?)),
            Some(table) => Ok(table),
        },
    }
}

fn count(array: &Array) -> usize
    ensures value { result ≡ count_of (array_view array.now) }
    ensures length { result ≡ length array.now.items }
{
    array.len()
}

pub(crate) fn array_of_size<'a>(
    alloc: Global,
    least: usize,
    most: usize,
    key: &str,
    value: &'a Value,
) -> Result<&'a Array, WorldFault>
    ensures value { Reads (λ a. array_view a.now) result
        (array_of_size key.now least most (as_array (view value.now))) }
    ensures most { IfOk result (λ a. length a.now.items ≤ most) }
{
    match value.as_array() {
        None => Err(WorldFault::WrongType(Text::from_str(alloc, key)?)),
        Some(array) => {
            let count = count(array);
            if least <= count && count <= most {
                Ok(array)
            } else {
                Err(WorldFault::OutOfRange(Text::from_str(alloc, key)?))
            }
        }
    }
}
