//! Runs one statement inside a transaction. On a clean disk Err has its error. All writes of this
//! crate go here.
ghost use Rattle.sqlite.specs.Values.{bound};
ghost use Rattle.atl_descriptions.specs.Statements.{OneStatement};
ghost use Rattle.atl_sql.specs.Writes.{Writes, RunsStatement};

use sqlite::types::ValueRef;
use sqlite::{Alter, Error, Transaction};

pub(crate) fn run<S: Alter>(
    tx: &mut Transaction<'_, S>,
    sql: &str,
    params: &[ValueRef<'_>],
) -> Result<(), Error>
    ensures { Writes S.Store (OneStatement sql.now (bound params.now))
        (RunsStatement sql.now (bound params.now)) result tx.old.conn tx.new.conn }
{
    tx.execute(sql, params)?;
    Ok(())
}
