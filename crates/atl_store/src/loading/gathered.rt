//! Reads all rows of several tables, and tests that the rowids of a table differ. A read needs a
//! connection in no transaction, with all committed; what it gives is promised on a clean disk.
ghost use Rattle.std.specs.Prelude.{◌≡◌, ◌++◌, ℕ, false, [], ◌∷◌, List, map, refl, Ok, Err, if◌then◌else◌, IfOk, IfErr, ◌↔◌, IsTrue};
ghost use Rattle.std.proofs.Common.{ap, ◌∙◌};
ghost use Rattle.std.proofs.lemmas.List.{map-append};
ghost use Rattle.sqlite.specs.Held.{state};
ghost use Rattle.sqlite.specs.Order.{Row as SqlRow};
ghost use Rattle.atl_store.specs.declared.fault.LoadFault.TheVariants.{Store};
ghost use Rattle.atl_world.specs.declared.format.Format.TheVariants.{First};
ghost use Rattle.atl_store.specs.Gathering.{IsCommitted, ReadRows, AreAllRows, AreNone, AreOfFormat, ReadsSome, FailsWithout, HaveDistinctRowids, rows_or_none, second_format_parts, selects_by};
ghost use Rattle.atl_store.specs.Loading.{other_parts};
ghost use Rattle.atl_descriptions.specs.PartSelects.{select_of_part};
ghost use Rattle.atl_columns.specs.Forms.{Form};
ghost use Rattle.atl_descriptions.specs.Tables.{Part};

use crate::fault::{LoadFault, ReadFault};
use atl_sql::rows::{RowWithId, Stored};
use atl_state::are_distinct;
use atl_world::{Format, Sequence};
use sqlite::{Alter, Connection};
use std::alloc::{AllocError, Global};

/// The rows of one table, or of several, which are read whole, one table after another. All tables
/// are read before a value of another type is reported, so another fault comes first.
pub(crate) trait AllRows: Drop + Sized {
    // The parts that the tables are of.
    ghost parts: { List Part };

    // The SELECTs that are asked, each with the forms of its columns.
    ghost selects: { List (List ℕ × List Form) };

    // What was read, as SQL shows it.
    ghost rows: { Self → ReadRows };

    /// Reads all rows of the tables; None if a value is of another type than its column.
    fn read_all<S: Alter>(
        alloc: Global,
        conn: &mut Connection<S>,
    ) -> Result<Option<Self>, LoadFault>
        requires idle { conn.old.in_transaction ≡ false }
        requires settled { IsCommitted (state S.Store conn.old) }
        ensures { ReadsSome S.Store conn.old selects
            (λ all. AreAllRows (state S.Store conn.old).now (rows all)) result conn.new };

    /// Gives no rows of any of the tables, as for tables that a format doesn't have.
    fn without_rows(alloc: Global) -> Self
        ensures { AreNone (rows result) };

    // What was read is of the parts `parts`, in their order.
    ghost of_parts: { (all : Self) → map (λ read. read.0) (rows all) ≡ parts };
}

fn rows_or_none<T: Drop>(rows: Result<Vec<T>, ReadFault>) -> Result<Option<Vec<T>>, LoadFault>
    ensures { result ≡ rows_or_none rows }
{
    match rows {
        Ok(rows) => Ok(Some(rows)),
        Err(ReadFault::OtherType) => Ok(None),
        Err(ReadFault::Memory) => Err(LoadFault::Memory),
        Err(ReadFault::Store | ReadFault::Refused) => Err(LoadFault::Store),
    }
}

impl<A: Stored> AllRows for Vec<A> {
    ghost parts = { A.Stored.part ∷ [] };

    ghost selects = { ((select_of_part A.Stored.part).select, A.Stored.forms) ∷ [] };

    ghost rows = { λ all. (A.Stored.part, map A.Stored.shown all.items) ∷ [] };

    ghost of_parts = { λ all. refl };

    fn read_all<S: Alter>(
        alloc: Global,
        conn: &mut Connection<S>,
    ) -> Result<Option<Vec<A>>, LoadFault> {
        rows_or_none(A::read(alloc, conn))
    }

    fn without_rows(alloc: Global) -> Vec<A> {
        Vec::new(alloc)
    }
}

/// Reads all rows of the tables of `X`, and then of those of `Y`.
impl<X: AllRows, Y: AllRows> AllRows for (X, Y) {
    ghost parts = { X.AllRows.parts ++ Y.AllRows.parts };

    ghost selects = { X.AllRows.selects ++ Y.AllRows.selects };

    ghost rows = { λ both. X.AllRows.rows both.0 ++ Y.AllRows.rows both.1 };

    ghost of_parts = { λ both. map-append (λ (read : Part × List SqlRow). read.0)
        (X.AllRows.rows both.0) (Y.AllRows.rows both.1) ∙ ap
        (λ parts. parts ++ map (λ read. read.0) (Y.AllRows.rows both.1)) (X.AllRows.of_parts both.0)
        ∙ ap (λ parts. X.AllRows.parts ++ parts) (Y.AllRows.of_parts both.1) };

    fn read_all<S: Alter>(
        alloc: Global,
        conn: &mut Connection<S>,
    ) -> Result<Option<(X, Y)>, LoadFault> {
        let some = X::read_all(alloc, conn)?;
        let others = Y::read_all(alloc, conn)?;
        Ok(some.zip(others))
    }

    fn without_rows(alloc: Global) -> (X, Y) {
        (X::without_rows(alloc), Y::without_rows(alloc))
    }
}

/// Reads all rows of the tables `X` and, in the second format, of `Y`, which the first lacks; None
/// if a value is of another type than its column.
pub(crate) fn read_by<X: AllRows, Y: AllRows, S: Alter>(
    alloc: Global,
    conn: &mut Connection<S>,
    format: Format,
) -> Result<Option<(X, Y)>, LoadFault>
    requires idle { conn.old.in_transaction ≡ false }
    requires settled { IsCommitted (state S.Store conn.old) }
    requires some { X.AllRows.parts ≡ other_parts First }
    requires others { Y.AllRows.parts ≡ second_format_parts }
    ensures { ReadsSome S.Store conn.old (selects_by format X.AllRows.selects Y.AllRows.selects)
        (λ both. AreOfFormat format (state S.Store conn.old).now
        (X.AllRows.rows both.0 ++ Y.AllRows.rows both.1)) result conn.new }
{
    match format {
        Format::First => {
            let some = X::read_all(alloc, conn)?;
            Ok(some.zip(Some(Y::without_rows(alloc))))
        }
        Format::Second => <(X, Y)>::read_all(alloc, conn),
    }
}

fn rowids_of<T>(alloc: Global, placed: &[RowWithId<T>]) -> Result<Vec<i64>, AllocError>
    ensures { IfOk result (λ rowids. rowids.items ≡ map (λ s. s.rowid) placed.now) }
{
    let mut rowids = Vec::with_capacity(alloc, placed.len())?;
    for row in placed {
        rowids.push(row.rowid)?;
    }
    Ok(rowids)
}

/// Whether no two of the rows have the same rowid. If two have, the database isn't a sound one.
fn have_distinct_rowids<T>(alloc: Global, placed: &[RowWithId<T>]) -> Result<bool, AllocError>
    ensures { IfOk result (λ yes. IsTrue yes ↔ (HaveDistinctRowids placed.now)) }
{
    let rowids = rowids_of(alloc, placed)?;
    are_distinct(alloc, &rowids)
}

fn without_ids<T: Drop>(alloc: Global, placed: Vec<RowWithId<T>>) -> Result<Sequence<T>, AllocError>
    ensures { IfOk result (λ rows. rows ≡ map (λ s. s.row) placed.items) }
{
    let mut rows = Vec::with_capacity(alloc, placed.len())?;
    for RowWithId { row, rowid: _ } in placed {
        rows.push(row)?;
    }
    Ok(Sequence::from_vec(rows))
}

fn check_apart(are_apart: bool) -> Result<(), LoadFault>
    ensures { result ≡ (if are_apart then Ok tt else Err Store) }
{
    if are_apart {
        Ok(())
    } else {
        Err(LoadFault::Store)
    }
}

/// The rows without their rowids. The fault is Store if two have the same rowid, or Memory.
pub(crate) fn rows_after_check<T: Drop>(
    alloc: Global,
    placed: Vec<RowWithId<T>>,
) -> Result<Sequence<T>, LoadFault>
    ensures ok { IfOk result
        (λ rows. (rows ≡ map (λ s. s.row) placed.items) × HaveDistinctRowids placed.items) }
    ensures fails { IfErr result (FailsWithout (HaveDistinctRowids placed.items)) }
{
    check_apart(have_distinct_rowids(alloc, &placed)?)?;
    let rows = without_ids(alloc, placed)?;
    Ok(rows)
}
