//! Reads all rows of a table with a SELECT, each as its record. What a read gives and leaves holds
//! on a clean disk, for a connection that was in no transaction.
ghost use Rattle.std.specs.Prelude.{◌≡◌, ◌≢◌, ◌++◌, [], ◌∷◌, List, None, map, length, false, true, IfOk, IfErr, IfSome};
ghost use Rattle.sqlite.specs.Given.{IsPlain};
ghost use Rattle.sqlite.specs.Listing.{understood};
ghost use Rattle.sqlite.specs.Order.{Row as SqlRow};
ghost use Rattle.sqlite.specs.declared.types.Value.TheVariants.{Int};
ghost use Rattle.atl_columns.specs.Forms.{Form, Number, IsTyped};
ghost use Rattle.atl_sql.specs.Reading.{AddsRow, Asks, GivesTable, ReadsRows, Streams};
ghost use Rattle.atl_descriptions.specs.PartSelects.{select_of_part};
ghost use Rattle.atl_sql.specs.Stored.{first_columns, AreTyped};
ghost use Rattle.atl_descriptions.specs.Tables.{Part, HasTablesOf};
ghost use Rattle.atl_sql.specs.declared.fault.ReadFault.TheVariants.{Memory, OtherType};

use crate::fault::ReadFault;
use crate::schema::has_tables_of;
use atl_columns::{Form, numbers as forms, value_at};
use atl_descriptions::Record;
use atl_world::Format;
use sqlite::{Alter, Connection, Row};
use std::alloc::{AllocError, Global};

/// A row of a table as the table's SELECT shows it, whoever wrote it: a record, or a record with
/// its row's rowid.
pub trait Stored: Drop + Sized {
    // The forms of the columns, and the row as SQL shows it.
    ghost forms: { List Form };

    ghost shown: { Self → SqlRow };

    // The part of a campaign that the table is of.
    ghost part: { Part };

    /// Reads the first values of a row, one for each form; None if one isn't of its column's form.
    fn from_row(alloc: Global, row: &Row) -> Result<Option<Self>, AllocError>
        ensures ok { IfOk result
            (λ read. IfSome read (λ stored. shown stored ≡ first_columns (length forms) row.now)) }
        ensures typed { IfOk result (λ read. IfSome read (λ _. IsTyped forms row.now)) }
        ensures other { IfOk result (λ read. read ≡ None → ¬ IsTyped forms row.now) };

    /// The earliest format that has the table, and the text of the SELECT that shows all its rows.
    fn select_of() -> (Format, &'static str)
        ensures since { result.0 ≡ (select_of_part part).since }
        ensures select { result.1.now ≡ (select_of_part part).select };

    /// Reads what the table's SELECT shows; under the tables of a campaign this is each row of the
    /// table, in the order of its key. Rows of the tables `has`, `books` and `market` come with
    /// rowids. `conn` is in no transaction. Nothing is committed. `ReadFault` has the faults. All
    /// this is promised on a clean disk (docs/PROVED.md, "Premises").
    final fn read<S: Alter>(alloc: Global, conn: &mut Connection<S>) -> Result<Vec<Self>, ReadFault>
        requires { conn.old.in_transaction ≡ false }
        ensures select { ReadsRows S.Store (select_of_part part).select conn.old forms shown result
            conn.new }
        ensures table { GivesTable S.Store (select_of_part part).since
            (select_of_part part).in_table shown result conn.old conn.new }
    {
        let (since, select) = Self::select_of();
        read_all(alloc, conn, since, select)
    }

    // There are as many forms as columns that are shown.
    ghost columns: { length forms ≡ length (select_of_part part).names };
}

/// A row of a table without an INTEGER PRIMARY KEY, with the rowid that the database gave it.
#[derive(Drop)]
pub struct RowWithId<T> {
    pub row: T,
    /// The row's rowid, which no other row of the table should have.
    pub rowid: i64,
}

/// Reads the record of a row that shows its rowid after its columns; None if a value is of another
/// form than its column, or if the rowid is no number.
pub(crate) fn read_with_id<T: Record>(
    alloc: Global,
    row: &Row,
) -> Result<Option<RowWithId<T>>, AllocError>
    ensures ok { IfOk result (λ read. IfSome read
        (λ placed. T.Fields.encode (T.Record.to_fields placed.row) ++ Int placed.rowid ∷ []
        ≡ first_columns (length (T.Fields.forms ++ Number ∷ [])) row.now)) }
    ensures typed { IfOk result (λ read. IfSome read (λ _. IsTyped (T.Fields.forms ++ Number ∷ []) row.now)) }
    ensures other { IfOk result (λ read. read ≡ None → ¬ IsTyped (T.Fields.forms ++ Number ∷ []) row.now) }
{
    let Some(record) = T::read_columns(alloc, row)? else {
        return Ok(None);
    };
    let place = T::table().names.len();
    match forms::Number::decode(alloc, value_at(row, place))? {
        Some(rowid) => Ok(Some(RowWithId { row: record, rowid })),
        None => Ok(None),
    }
}

pub(crate) fn select_of<T: Record>() -> (Format, &'static str)
    ensures since { result.0 ≡ (select_of_part T.Record.part).since }
    ensures select { result.1.now ≡ (select_of_part T.Record.part).select }
{
    let table = T::table();
    (table.since, table.select)
}

/// Parses all rows that a SELECT showed. The fault is OtherType for a value that isn't of its
/// column's form, or Memory.
pub fn parse_rows<T: Stored>(alloc: Global, rows: &[Row]) -> Result<Vec<T>, ReadFault>
    ensures ok { IfOk result
        (λ all. map T.shown all.items ≡ map (first_columns (length T.forms)) rows.now) }
    ensures typed { IfOk result (λ _. AreTyped T.forms rows.now) }
    ensures other { IfErr result (λ fault. fault ≡ OtherType → ¬ AreTyped T.forms rows.now) }
    ensures which { IfErr result (λ fault. fault ≢ OtherType → fault ≡ Memory) }
{
    let mut all = Vec::with_capacity(alloc, rows.len())?;
    for row in rows {
        match T::from_row(alloc, row)? {
            Some(stored) => all.push(stored)?,
            None => return Err(ReadFault::OtherType),
        }
    }
    Ok(all)
}

/// Gives the rows that a SELECT shows, or the fault of its refusal. The SELECT is asked in a
/// transaction of its own, which is rolled back: so nothing is committed, whatever the schema is.
pub(crate) fn select<S: Alter>(conn: &mut Connection<S>, sql: &str) -> Result<Vec<Row>, ReadFault>
    requires { conn.old.in_transaction ≡ false }
    ensures { Asks S.Store sql.now conn.old result conn.new }
{
    let mut tx = conn.transaction();
    let rows = tx.query_all(sql, &[])?;
    tx.rollback();
    Ok(rows)
}

/// If true, `all` has one element more, parsed from this row. False if it can't be parsed or kept.
fn push_row<T: Stored>(alloc: Global, all: &mut Vec<T>, row: &Row) -> bool
    ensures { result ≡ true → AddsRow T.forms T.shown all.old.items row.now all.new.items }
{
    match T::from_row(alloc, row) {
        Ok(Some(stored)) => all.push(stored).is_ok(),
        _ => false,
    }
}

/// Each row that the query `sql` shows is parsed as it comes; None if one couldn't be parsed or
/// kept. `sql` has no RETURNING and doesn't read the time (`IsPlain`).
fn stream<T: Stored, S: Alter>(
    alloc: Global,
    conn: &mut Connection<S>,
    sql: &str,
) -> Result<Option<Vec<T>>, ReadFault>
    requires idle { conn.old.in_transaction ≡ false }
    requires plain { IsPlain (understood conn.old.schema sql.now) }
    ensures { Streams S.Store sql.now conn.old T.Stored.forms T.Stored.shown result conn.new }
{
    let mut all = Vec::new(alloc);
    let mut rows = conn.query(sql, &[])?;
    'rows: for _ in 0..u64::MAX {
        let Some(row) = rows.next()? else {
            return Ok(Some(all));
        };
        if !push_row(alloc, &mut all, row) {
            return Ok(None);
        }
    }
    Ok(None)
}

/// Gives all rows that the SELECT `sql` shows, parsed after all of them have come.
fn read_inside<T: Stored, S: Alter>(
    alloc: Global,
    conn: &mut Connection<S>,
    sql: &str,
) -> Result<Vec<T>, ReadFault>
    requires { conn.old.in_transaction ≡ false }
    ensures { ReadsRows S.Store sql.now conn.old T.Stored.forms T.Stored.shown result conn.new }
{
    let rows = select(conn, sql)?;
    parse_rows(alloc, rows.as_slice())
}

/// Gives all rows that a SELECT shows, each parsed as it comes if the tables are those of the
/// format `since`: then it must have no RETURNING and not read the time (`IsPlain`). Otherwise, or
/// if one couldn't be parsed or kept, all are parsed after they have come, so that the first fault
/// is reported.
pub(crate) fn read_all<T: Stored, S: Alter>(
    alloc: Global,
    conn: &mut Connection<S>,
    since: Format,
    sql: &str,
) -> Result<Vec<T>, ReadFault>
    requires idle { conn.old.in_transaction ≡ false }
    requires plain { HasTablesOf since conn.old.schema
        → IsPlain (understood conn.old.schema sql.now) }
    ensures { ReadsRows S.Store sql.now conn.old T.Stored.forms T.Stored.shown result conn.new }
{
    if !has_tables_of(conn.schema(), since) {
        return read_inside(alloc, conn, sql);
    }
    match stream(alloc, conn, sql)? {
        Some(all) => Ok(all),
        None => read_inside(alloc, conn, sql),
    }
}
