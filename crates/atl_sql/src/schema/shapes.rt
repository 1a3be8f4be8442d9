//! Compares a table of a schema with the description of a campaign's table: its tree, name,
//! columns, keys and check.
ghost use Rattle.std.specs.Prelude.{◌≡◌, [], false, ◌↔◌, IsTrue};
ghost use Rattle.atl_descriptions.specs.Described.{checks_of, unique_columns};
ghost use Rattle.atl_descriptions.specs.Sets.{table};
ghost use Rattle.atl_descriptions.specs.Tables.{table_of};

use crate::schema::checks::checks_id_is_one;
use crate::schema::keys::has_keys;
use atl_columns::Fields;
use atl_descriptions::Record;
use atl_descriptions::table::Table as Description;
use sqlite_schema::code::Terms;
use sqlite_schema::schema::{Column, Stamps, Table};

/// Whether no column has a default that reads the time (a stamp).
fn is_unstamped(stamps: &Stamps) -> bool
    ensures { IsTrue result ↔ (stamps.now ≡ record { places = []; terms = []; formats = [] }) }
{
    stamps.places.is_empty() && stamps.terms.roots.is_empty() && stamps.formats.is_empty()
}

/// Whether the table has no foreign key, no stamps, no column whose default is no literal
/// (`computed`), and no AUTOINCREMENT (`is_counted`).
fn has_nothing_more(found: &Table) -> bool
    ensures { IsTrue result ↔
        (found.now ≡ record found.now {
          references = [];
          computed = [];
          stamps = record { places = []; terms = []; formats = [] };
          is_counted = false;
        }) }
{
    found.references.is_empty()
        && found.computed.is_empty()
        && is_unstamped(&found.stamps)
        && !found.is_counted
}

/// Whether the only check is `id = 1`, of a table with a single row, or else there is none.
fn has_check(checks: &Terms, is_single: bool) -> bool
    ensures { IsTrue result ↔ (checks.now ≡ checks_of is_single) }
{
    if is_single {
        checks_id_is_one(checks)
    } else {
        checks.roots.is_empty()
    }
}

/// Whether `found` is the table that `made` describes, whatever its columns are.
fn is_described(found: &Table, made: &Description) -> bool
    ensures { IsTrue result ↔
        (found.now ≡ table made.now.tree made.now.name.now found.now.columns made.now.number
        made.now.primary.now (unique_columns made.now.unique) (checks_of made.now.is_single)) }
{
    found.tree == made.tree
        && found.name.as_slice() == made.name.as_bytes()
        && has_keys(found, made)
        && has_check(&found.checks, made.is_single)
        && has_nothing_more(found)
}

fn has_columns<R: Record>(columns: &[Column]) -> bool
    ensures { IsTrue result ↔ (columns.now ≡ (table_of R.part).columns) }
{
    R::Fields::are_columns(columns, R::table().names)
}

pub(crate) fn is_table_of<R: Record>(found: &Table) -> bool
    ensures { IsTrue result ↔ (found.now ≡ table_of R.part) }
{
    is_described(found, &R::table()) && has_columns::<R>(found.columns.as_slice())
}
