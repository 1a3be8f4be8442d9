//! Compares the keys of a table of a schema, `found`, with those of a campaign's table, `made`: the
//! row's number, or several columns. The sort order `plain` has all columns ascending.
ghost use Rattle.std.specs.Prelude.{◌≡◌, [], ◌∷◌, map, ◌↔◌, IsTrue};
ghost use Rattle.sqlite_value.specs.Keys.{plain};
ghost use Rattle.atl_descriptions.specs.Described.{unique_columns};

use atl_descriptions::table::{Table as Description, UniqueKey};
use sqlite_items::Items;
use sqlite_schema::schema::Table;
use sqlite_value::keys::Order;

fn has_no_unique(found: &Table) -> bool
    ensures { IsTrue result ↔ ((found.now.uniques ≡ []) × (found.now.orders ≡ [])) }
{
    found.uniques.is_empty() && found.orders.is_empty()
}

/// Whether a sort order has all columns ascending, compared by their bytes.
pub(crate) fn is_plain(order: &Order) -> bool
    ensures { IsTrue result ↔ (order.now ≡ plain) }
{
    order.digits == 0
}

fn is_one_key(keys: &[Items<usize>], positions: &[usize]) -> bool
    ensures { IsTrue result ↔ (keys.now ≡ positions.now ∷ []) }
{
    match keys {
        [key] => key.as_slice() == positions,
        _ => false,
    }
}

fn is_one_order(orders: &[Order]) -> bool
    ensures { IsTrue result ↔ (orders.now ≡ plain ∷ []) }
{
    match orders {
        [order] => is_plain(order),
        _ => false,
    }
}

fn is_unique(found: &Table, positions: &[usize]) -> bool
    ensures { IsTrue result ↔
        ((found.now.uniques ≡ positions.now ∷ []) × (found.now.orders ≡ plain ∷ [])) }
{
    is_one_key(found.uniques.as_slice(), positions) && is_one_order(found.orders.as_slice())
}

fn has_unique(found: &Table, unique: Option<UniqueKey>) -> bool
    ensures { IsTrue result ↔
        ((found.now.uniques ≡ unique_columns unique)
        × (found.now.orders ≡ map (λ _. plain) (unique_columns unique))) }
{
    match unique {
        Some(key) => is_unique(found, key.columns),
        None => has_no_unique(found),
    }
}

pub(crate) fn has_keys(found: &Table, made: &Description) -> bool
    ensures { IsTrue result ↔
        ((found.now.key ≡ made.now.number) × (found.now.primary ≡ made.now.primary.now)
        × (found.now.uniques ≡ unique_columns made.now.unique)
        × (found.now.orders ≡ map (λ _. plain) (unique_columns made.now.unique))) }
{
    found.key == made.number
        && found.primary.as_slice() == made.primary
        && has_unique(found, made.unique)
}
