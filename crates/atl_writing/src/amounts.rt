//! Writes the amounts of one owner, row by row: a unit's goods, or a region's stocks. Each call is
//! a step of a transaction on the ten tables and a clean disk; an error is the database's.
ghost use Rattle.std.specs.Prelude.{ℕ};
ghost use Rattle.sqlite.specs.Order.{Row as SqlRow};
ghost use Rattle.sqlite.specs.Table.{Table};
ghost use Rattle.atl_writing.specs.GroupedRows.{thing_rows, amount_rows};
ghost use Rattle.atl_sql.specs.Writes.{WritesRow, WritesRows};

use atl_world::Entries;
use sqlite::{Alter, Error, Transaction};

/// An owner, a unit or a region, whose amounts of things are written as rows of one table. Each
/// amount that is not 0 has a row.
pub(crate) trait AmountWriter: Copy {
    // The table that has the amounts' rows.
    ghost table: { Table };

    // How many columns the table's key has.
    ghost key: { ℕ };

    // The row of an amount of a thing that the owner has.
    ghost line: { Self → ℕ → ℕ → SqlRow };

    /// Inserts the row of an amount of a thing, or changes the row with the same key.
    fn put<S: Alter>(
        self,
        tx: &mut Transaction<'_, S>,
        thing: u32,
        amount: u32,
    ) -> Result<(), Error>
        ensures { WritesRow S.Store table key (line self thing amount) result tx.old.conn
            tx.new.conn };
}

/// Puts the row of an amount that isn't 0, and does nothing for 0.
fn put_nonzero<O: AmountWriter, S: Alter>(
    tx: &mut Transaction<'_, S>,
    owner: O,
    thing: u32,
    amount: u32,
) -> Result<(), Error>
    ensures { WritesRows S.Store O.table O.key (thing_rows (O.line owner) thing amount) result
        tx.old.conn tx.new.conn }
{
    if amount == 0 {
        return Ok(());
    }
    owner.put(tx, thing, amount)
}

/// Puts the rows of all amounts of an owner that are not 0: `amounts` has them by thing.
pub(crate) fn put_amounts<O: AmountWriter, S: Alter>(
    tx: &mut Transaction<'_, S>,
    owner: O,
    amounts: Entries<'_, u32>,
) -> Result<(), Error>
    ensures { WritesRows S.Store O.table O.key (amount_rows (O.line owner) amounts.entry) result
        tx.old.conn tx.new.conn }
{
    for (thing, amount) in amounts {
        put_nonzero(tx, owner, thing, *amount)?;
    }
    Ok(())
}
