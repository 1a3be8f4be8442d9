//! Makes the tables of a campaign, and tests a schema for them. See docs/FORMATS.md, "Tables".
ghost use Rattle.std.specs.Prelude.{◌≡◌, ◌≤◌, [], length, map, slice_get, take, ◌↔◌, IsTrue};
ghost use Rattle.atl_descriptions.specs.Tables.{Markets, all_parts, all_tables, all_trees, creation_of};
ghost use Rattle.atl_descriptions.specs.Statements.{OneStatement, Creations};
ghost use Rattle.atl_sql.specs.Writes.{Writes, RunsStatement};
ghost use Rattle.atl_sql.specs.Inside.{DoesInside, IsBlank};
ghost use Rattle.atl_sql.specs.Making.{AreEmpty};

use crate::schema::shapes::is_table_of;
use crate::statement::run;
use atl_descriptions::Record;
use atl_descriptions::records::campaign::StoredCampaign;
use atl_descriptions::table::Table as Description;
use atl_rows::parts::{
    StoredBooks, StoredFaction, StoredHas, StoredMail, StoredMarket, StoredRegion, StoredReport,
    StoredStructure, StoredUnit,
};
use sqlite::{Alter, Error, Transaction};
use sqlite_schema::schema::Table;

pub(crate) const TABLES: usize = 10;

/// How many indexes the unique keys of the ten tables have.
pub(crate) const INDEXES: usize = 4;

/// How many tables the first format has.
pub(crate) const FIRST_TABLES: usize = 9;

/// How many indexes the unique keys of the first format's tables have.
pub(crate) const FIRST_INDEXES: usize = 3;

/// The ten tables of a campaign, in the order in which they are made.
pub(crate) fn described_tables() -> [Description; 10]
    ensures texts { map (λ t. t.create.now) result ≡ map creation_of all_parts }
    ensures trees { map (λ t. t.tree) result ≡ all_trees }
{
    [
        StoredCampaign::table(),
        StoredFaction::table(),
        StoredRegion::table(),
        StoredUnit::table(),
        StoredHas::table(),
        StoredStructure::table(),
        StoredMail::table(),
        StoredReport::table(),
        StoredBooks::table(),
        StoredMarket::table(),
    ]
}

// ---- whether a table of a schema is one of these

fn is_table(found: &Table, position: usize) -> bool
    ensures { IsTrue result ↔ (slice_get all_tables position ≡ Some found.now) }
{
    match position {
        0 => is_table_of::<StoredCampaign>(found),
        1 => is_table_of::<StoredFaction>(found),
        2 => is_table_of::<StoredRegion>(found),
        3 => is_table_of::<StoredUnit>(found),
        4 => is_table_of::<StoredHas>(found),
        5 => is_table_of::<StoredStructure>(found),
        6 => is_table_of::<StoredMail>(found),
        7 => is_table_of::<StoredReport>(found),
        8 => is_table_of::<StoredBooks>(found),
        9 => is_table_of::<StoredMarket>(found),
        _ => false,
    }
}

pub(crate) fn are_first_tables(tables: &[Table], count: usize) -> bool
    requires { count ≤ length tables.now }
    ensures { IsTrue result ↔ (take count tables.now ≡ take count all_tables) }
{
    for position in 0..count {
        if !is_table(&tables[position], position) {
            return false;
        }
    }
    true
}

// ---- the tables are made

/// Makes the ten tables, by these descriptions, in a database that has nothing (`IsBlank`).
fn create_each<S: Alter>(tx: &mut Transaction<'_, S>, tables: &[Description]) -> Result<(), Error>
    requires { map (λ t. t.create.now) tables.now ≡ map creation_of all_parts }
    ensures { Writes S.Store Creations (DoesInside IsBlank AreEmpty) result tx.old.conn
        tx.new.conn }
{
    for table in tables {
        run(tx, table.create, &[])?;
    }
    Ok(())
}

/// On a clean disk: makes the ten tables, each without a row, if the database has no table, index,
/// view or trigger (`IsBlank`); Err has the error of a statement.
pub fn create_tables<S: Alter>(tx: &mut Transaction<'_, S>) -> Result<(), Error>
    ensures { Writes S.Store Creations (DoesInside IsBlank AreEmpty) result tx.old.conn
        tx.new.conn }
{
    create_each(tx, &described_tables())
}

/// Runs the CREATE TABLE text of `market`, which the first format lacks. On a clean disk Ok means
/// that it has run, and Err has its error.
pub fn create_market<S: Alter>(tx: &mut Transaction<'_, S>) -> Result<(), Error>
    ensures { Writes S.Store (OneStatement (creation_of Markets) [])
        (RunsStatement (creation_of Markets) []) result tx.old.conn tx.new.conn }
{
    run(tx, StoredMarket::table().create, &[])
}
