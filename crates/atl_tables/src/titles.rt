//! Names that must be unique, and the numbers of elements by name. A call that may return a fault
//! may also return `Memory`. `at` is the path of a table, and a title is the name of an element.
//! Where elements are numbered, there are at most 2^16. See docs/FORMATS.md, "The world file".
ghost use Rattle.std.specs.Prelude.{◌≡◌, ◌≤◌, ◌<◌, ℕ, List, length, not, ◌||◌, IfOk, OnOk, OnErr, IfSome, Some, None, unwrap_or, option_and_then, option_map};
ghost use Rattle.std.specs.BTreeSet.{IsUnchanged};
ghost use Rattle.atl_tables.specs.Each.{conditions_on_each};
ghost use Rattle.atl_tables.specs.Faults.{Conditions, first_fault};
ghost use Rattle.atl_tables.specs.Results.{Gives};
ghost use Rattle.atl_tables.specs.Keys.{path, element_path};
ghost use Rattle.atl_world.specs.Limits.{most_numbered};
ghost use Rattle.atl_tables.specs.Titles.{no_duplicates, number_of, name_is_known, optional_name_is_known};
ghost use Rattle.atl_world.specs.Names.{same_name};
ghost use Rattle.atl_tables.specs.SeenNames.{has_name};
ghost use Rattle.atl_tables.specs.declared.fault.WorldFault.TheVariants.{TwoNames};

use crate::fault::WorldFault;
use crate::keys::{element_key_path, path};
use atl_world::{Text, Titled};
use std::alloc::{AllocError, Global};
use std::collections::BTreeSet;

pub(crate) fn same_name(name: &Text, other: &Text) -> bool
    ensures { result ≡ same_name name.now other.now }
{
    name.as_bytes().eq_ignore_ascii_case(other.as_bytes())
}

/// Adds a name to the set `seen`, and returns whether it is new there, ignoring ASCII case. Without
/// memory nothing is added.
pub(crate) fn add_name(
    alloc: Global,
    seen: &mut BTreeSet<String>,
    name: &Text,
) -> Result<bool, AllocError>
    ensures new { IfOk result (λ new. new ≡ not (has_name seen.old name.now)) }
    ensures seen { OnOk result
        ((other : List ℕ) → has_name seen.new other
        ≡ (has_name seen.old other || same_name name.now other)) }
    ensures err { OnErr result (IsUnchanged seen.old seen.new) }
{
    let lowered = name.as_str().to_ascii_lowercase(alloc)?;
    let new = seen.insert(lowered)?;
    Ok(new)
}

/// The index of the first element whose title equals one before it, ignoring ASCII case, if any.
pub(crate) fn first_duplicate<T: Titled>(
    alloc: Global,
    items: &[T],
) -> Result<Option<usize>, AllocError>
    ensures { IfOk result (λ found. (array key : List ℕ)
        → first_fault (no_duplicates T.title_of array key items.now)
        ≡ option_map (λ i. TwoNames (path (element_path array i) key)) found) }
{
    let mut seen = BTreeSet::new(alloc);
    for (i, item) in items.iter().enumerate() {
        if !add_name(alloc, &mut seen, item.title())? {
            return Ok(Some(i));
        }
    }
    Ok(None)
}

/// Checks that no two elements of the array at the path `array` have equal titles, ignoring ASCII
/// case, else gives the fault TwoNames at the key `key` of the first that equals one before it.
pub(crate) fn no_duplicate_names<T: Titled>(
    alloc: Global,
    array: &str,
    key: &str,
    items: &[T],
) -> Result<(), WorldFault>
    ensures { Gives (λ u. u) result (first_fault
        (no_duplicates T.title_of array.now key.now items.now))
        (tt {0}) }
{
    match first_duplicate(alloc, items)? {
        None => Ok(()),
        Some(i) => Err(WorldFault::TwoNames(element_key_path(alloc, array, i, key)?)),
    }
}

/// A table that holds names no two of which may be equal: a terrain the keys of its output, a
/// region the items of its markets.
pub(crate) trait HasUniqueNames: Drop {
    // The conditions that no two names in the i-th table of its array are equal.
    ghost no_duplicates: { ℕ → Self → Conditions };

    /// Checks the i-th table of its array, else gives the fault TwoNames at the first of its names
    /// that equals one before it.
    fn no_duplicates_inside(&self, alloc: Global, i: usize) -> Result<(), WorldFault>
        ensures { Gives (λ u. u) result (first_fault (no_duplicates i self.now)) (tt {0}) };
}

/// Checks each table of an array for equal names, else gives the first fault of its tables.
pub(crate) fn no_duplicates_inside<T: HasUniqueNames>(
    alloc: Global,
    holders: &[T],
) -> Result<(), WorldFault>
    ensures { Gives (λ u. u) result (first_fault (conditions_on_each T.no_duplicates 0 holders.now))
        (tt {0}) }
{
    for i in 0..holders.len() {
        holders[i].no_duplicates_inside(alloc, i)?;
    }
    Ok(())
}

/// The number (its index) of the first element with `name`, ignoring ASCII case; `None` without it.
#[tactic(auto, unfolding(crate::specs::Titles::number_of))]
pub(crate) fn number_of<T: Titled>(items: &[T], name: &Text) -> Option<u16>
    requires { length items.now ≤ most_numbered }
    ensures value { result ≡ number_of T.title_of items.now name.now }
    ensures below { IfSome result (λ n. n < length items.now) }
{
    for i in 0..items.len() {
        if same_name(items[i].title(), name) {
            return Some(i as u16);
        }
    }
    None
}

/// The number (the index) of the first element with `name`, which is under a key, ignoring ASCII
/// case, else the fault UnknownName at the key's path.
pub(crate) fn known_number<T: Titled>(
    alloc: Global,
    items: &[T],
    key: &str,
    at: &str,
    name: &Text,
) -> Result<u16, WorldFault>
    requires { length items.now ≤ most_numbered }
    ensures value { Gives (λ n. n) result
        (name_is_known (path at.now key.now) (number_of T.title_of items.now name.now))
        (unwrap_or (number_of T.title_of items.now name.now) 0) }
    ensures number { IfOk result (λ n. number_of T.title_of items.now name.now ≡ Some n) }
    ensures below { IfOk result (λ n. n < length items.now) }
{
    match number_of(items, name) {
        Some(number) => Ok(number),
        None => Err(WorldFault::UnknownName(path(alloc, at, key)?)),
    }
}

/// The number (the index) of the first element with `name`, which is under a key, ignoring ASCII
/// case; `None` without a name. An error is the fault UnknownName at the key's path.
pub(crate) fn known_number_or_none<T: Titled>(
    alloc: Global,
    items: &[T],
    key: &str,
    at: &str,
    name: &Option<Text>,
) -> Result<Option<u16>, WorldFault>
    requires { length items.now ≤ most_numbered }
    ensures value { Gives (λ n. n) result
        (optional_name_is_known (path at.now key.now) (number_of T.title_of items.now) name.now)
        (option_and_then (number_of T.title_of items.now) name.now) }
    ensures below { IfOk result (λ o. IfSome o (λ n. n < length items.now)) }
{
    match name {
        None => Ok(None),
        Some(name) => {
            let number = known_number(alloc, items, key, at, name)?;
            Ok(Some(number))
        }
    }
}
