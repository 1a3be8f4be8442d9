//! How a row of a record's table is put, and deleted by its key, if there are a campaign's tables
//! (`HasTables`) and a clean disk. Other rows and tables stay. Err has the statement's error.
ghost use Rattle.std.specs.Prelude.{◌≡◌, [], ◌∷◌, true};
ghost use Rattle.sqlite.specs.Values.{bound};
ghost use Rattle.atl_descriptions.specs.Tables.{IsNumberedPart, key_width_of, table_of};
ghost use Rattle.atl_sql.specs.Shown.{int};
ghost use Rattle.atl_sql.specs.Written.{can_be_written, is_key_of};
ghost use Rattle.atl_sql.specs.Writes.{TakesOut, WritesRow};

use crate::statement::run;
use atl_descriptions::Written;
use sqlite::types::ValueRef;
use sqlite::{Alter, Error, Transaction, params};

/// Inserts a row into the table of the records `T`, or changes the row with its key. The row has
/// numbers from 0 as its key, and then values of its columns' types (`can_be_written`).
pub fn put<T: Written, S: Alter>(
    tx: &mut Transaction<'_, S>,
    row: &[ValueRef<'_>],
) -> Result<(), Error>
    requires { can_be_written (table_of T.Record.part).columns (key_width_of T.Record.part)
        (bound row.now) ≡ true }
    ensures { WritesRow S.Store (table_of T.Record.part) (key_width_of T.Record.part)
        (bound row.now) result tx.old.conn tx.new.conn }
{
    run(tx, T::statements().upsert, row)
}

/// Deletes the row with this key, if there is one, from the table of the records `T`. The key is
/// one number from 0 for each column of the table's key.
pub fn take_out<T: Written, S: Alter>(
    tx: &mut Transaction<'_, S>,
    key: &[ValueRef<'_>],
) -> Result<(), Error>
    requires { is_key_of (key_width_of T.Record.part) (bound key.now) ≡ true }
    ensures { TakesOut S.Store (table_of T.Record.part) (key_width_of T.Record.part)
        (bound key.now) result tx.old.conn tx.new.conn }
{
    run(tx, T::statements().delete, key)
}

/// Deletes the row with this number, if there is one, from the table of the records `T`, whose key
/// is the row's number (`IsNumberedPart`).
pub fn take_out_number<T: Written, S: Alter>(
    tx: &mut Transaction<'_, S>,
    number: u32,
) -> Result<(), Error>
    requires { IsNumberedPart T.Record.part }
    ensures { TakesOut S.Store (table_of T.Record.part) 1 (int number ∷ []) result tx.old.conn
        tx.new.conn }
{
    run(tx, T::statements().delete, params![number])
}
