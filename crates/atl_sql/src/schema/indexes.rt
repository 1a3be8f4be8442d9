//! Compares the indexes of a schema with those of the campaign's unique keys, and tests all others.
ghost use Rattle.std.specs.Prelude.{◌≡◌, ◌==◌, ◌≤◌, true, Some, length, slice_get, take, ◌↔◌, IsTrue};
ghost use Rattle.std.specs.List.{AllByRecursion, list_any};
ghost use Rattle.sqlite_value.specs.Keys.{plain};
ghost use Rattle.atl_descriptions.specs.Described.{index_of};
ghost use Rattle.atl_descriptions.specs.Tables.{all_tables, all_indexes, table_of, IsHarmless, AreIndexes};

use crate::schema::keys::is_plain;
use crate::tables::described_tables;
use atl_descriptions::Record;
use atl_descriptions::table::Table as Description;
use atl_rows::parts::{StoredBooks, StoredFaction, StoredHas, StoredMarket};
use sqlite_schema::schema::Index;

/// Whether `found` is just this unique index, all columns ascending by their bytes. `tree` is its
/// tree, and `table` that of its table. A column goes by its index in a stored row; 0 is the rowid.
fn is_index(found: &Index, name: &[u8], tree: u32, table: u32, columns: &[usize]) -> bool
    ensures { IsTrue result ↔
        (found.now ≡ record {
          name = name.now;
          tree = tree;
          table = table;
          columns = columns.now;
          order = plain;
          is_unique = true;
        }) }
{
    found.name.as_slice() == name
        && found.tree == tree
        && found.table == table
        && found.columns.as_slice() == columns
        && is_plain(&found.order)
        && found.is_unique
}

fn is_index_of<R: Record>(found: &Index) -> bool
    ensures { IsTrue result ↔ (index_of (table_of R.part) ≡ Some found.now) }
{
    let made = R::table();
    match made.unique {
        Some(key) => is_index(
            found,
            key.index.as_bytes(),
            key.tree,
            made.tree,
            key.columns,
        ),
        None => false,
    }
}

/// Whether `found` is the index at this position among the four of the campaign's unique keys.
fn is_key_index(found: &Index, position: usize) -> bool
    ensures { IsTrue result ↔ (slice_get all_indexes position ≡ Some found.now) }
{
    match position {
        0 => is_index_of::<StoredFaction>(found),
        1 => is_index_of::<StoredHas>(found),
        2 => is_index_of::<StoredBooks>(found),
        3 => is_index_of::<StoredMarket>(found),
        _ => false,
    }
}

fn are_first_indexes(indexes: &[Index], count: usize) -> bool
    requires { count ≤ length indexes.now }
    ensures { IsTrue result ↔ (take count indexes.now ≡ take count all_indexes) }
{
    for position in 0..count {
        if !is_key_index(&indexes[position], position) {
            return false;
        }
    }
    true
}

fn is_among(tree: u32, tables: &[Description]) -> bool
    ensures { result ≡ list_any (λ t. tree == t.tree) tables.now }
{
    tables.iter().any(|table| tree == table.tree)
}

fn is_campaign_tree(tree: u32, count: usize) -> bool
    requires { count ≤ length all_tables }
    ensures { result ≡ list_any (λ t. tree == t.tree) (take count all_tables) }
{
    is_among(tree, &described_tables()[..count])
}

fn is_harmless(found: &Index, count: usize) -> bool
    requires { count ≤ length all_tables }
    ensures { IsTrue result ↔ (IsHarmless count found.now) }
{
    !found.is_unique || !is_campaign_tree(found.table, count)
}

fn are_harmless(indexes: &[Index], count: usize) -> bool
    requires { count ≤ length all_tables }
    ensures { IsTrue result ↔ (AllByRecursion (IsHarmless count) indexes.now) }
{
    for index in indexes {
        if !is_harmless(index, count) {
            return false;
        }
    }
    true
}

pub(crate) fn are_indexes(indexes: &[Index], tables: usize, keys: usize) -> bool
    requires tables { tables ≤ length all_tables }
    requires keys { keys ≤ length all_indexes }
    ensures { IsTrue result ↔ (AreIndexes tables keys indexes.now) }
{
    indexes.len() >= keys
        && are_first_indexes(indexes, keys)
        && are_harmless(&indexes[keys..], tables)
}
