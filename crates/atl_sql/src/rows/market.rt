//! The table `market`: how all rows of a region are deleted, if there are a campaign's tables
//! (`HasTables`) and a clean disk. Err has the statement's error.
ghost use Rattle.std.specs.Prelude.{[], ◌∷◌};
ghost use Rattle.atl_descriptions.specs.Tables.{market_table};
ghost use Rattle.atl_sql.specs.Shown.{int};
ghost use Rattle.atl_sql.specs.Writes.{TakesOut};

use crate::statement::run;
use sqlite::{Alter, Error, Transaction, params};

/// Deletes all rows of this region from the table `market`.
pub fn drop_stocks<S: Alter>(tx: &mut Transaction<'_, S>, region: u32) -> Result<(), Error>
    ensures { TakesOut S.Store market_table 1 (int region ∷ []) result tx.old.conn tx.new.conn }
{
    run(tx, "DELETE FROM market WHERE region = ?1", params![region])
}
