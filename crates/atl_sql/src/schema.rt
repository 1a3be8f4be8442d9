//! Tests whether a schema begins with the tables of a campaign. See docs/FORMATS.md, "Tables".
ghost use Rattle.std.specs.Prelude.{◌≡◌, ◌≤◌, [], length, ◌↔◌, IsTrue};
ghost use Rattle.std.specs.List.{AllByRecursion};
ghost use Rattle.atl_descriptions.specs.Tables.{IsFirstFormatOnly, all_tables, all_indexes, AreTables, Begins, HasAll, HasTablesOf};

mod checks;
mod indexes;
mod keys;
pub(crate) mod shapes;

use crate::tables::{FIRST_INDEXES, FIRST_TABLES, INDEXES, TABLES, are_first_tables};
use atl_world::Format;
use indexes::are_indexes;
use sqlite_schema::schema::{Schema, Table};

fn has_no_foreign_key(found: &Table) -> bool
    ensures { IsTrue result ↔ (found.now.references ≡ []) }
{
    found.references.is_empty()
}

fn have_no_foreign_key(tables: &[Table]) -> bool
    ensures { IsTrue result ↔ (AllByRecursion (λ t. t.references ≡ []) tables.now) }
{
    for table in tables {
        if !has_no_foreign_key(table) {
            return false;
        }
    }
    true
}

fn are_tables(tables: &[Table], count: usize) -> bool
    requires { count ≤ length all_tables }
    ensures { IsTrue result ↔ (AreTables count tables.now) }
{
    tables.len() >= count
        && are_first_tables(tables, count)
        && have_no_foreign_key(&tables[count..])
}

fn begins(schema: &Schema, tables: usize, keys: usize) -> bool
    requires tables { tables ≤ length all_tables }
    requires keys { keys ≤ length all_indexes }
    ensures { IsTrue result ↔ (Begins tables keys schema.now) }
{
    if !are_tables(schema.tables.as_slice(), tables) {
        return false;
    }
    if !are_indexes(schema.indexes.as_slice(), tables, keys) {
        return false;
    }
    schema.views.is_empty()
}

/// Whether the schema begins with a format's tables and their indexes, and has no view, no trigger,
/// and nothing that the database keeps as it is. After them only tables without a foreign key may
/// follow, and indexes that make nothing unique in the first ones.
pub fn has_tables_of(schema: &Schema, format: Format) -> bool
    ensures { IsTrue result ↔ (HasTablesOf format schema.now) }
{
    match format {
        Format::First => begins(schema, FIRST_TABLES, FIRST_INDEXES),
        Format::Second => has_all_tables(schema),
    }
}

/// Whether the schema is exactly the tables and indexes of the first format, and has nothing else.
pub fn is_first_format_only(schema: &Schema) -> bool
    ensures { IsTrue result ↔ (IsFirstFormatOnly schema.now) }
{
    schema.tables.len() == FIRST_TABLES
        && schema.indexes.len() == FIRST_INDEXES
        && has_tables_of(schema, Format::First)
}

/// Whether the schema begins with the ten tables of a campaign and their indexes, and has no view,
/// no trigger, and nothing that the database keeps as it is. After them only tables without a
/// foreign key may follow, and indexes that make nothing unique in the ten. The schema that
/// `create` of atl_store makes is such a one. See docs/FORMATS.md, "Tables".
pub fn has_all_tables(schema: &Schema) -> bool
    ensures { IsTrue result ↔ (HasAll schema.now) }
{
    begins(schema, TABLES, INDEXES)
}
