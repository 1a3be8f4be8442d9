//! The table `has`: the number of each kind of goods, and how all rows of a unit are deleted, if
//! there are a campaign's tables (`HasTables`) and a clean disk. Err has the statement's error.
ghost use Rattle.std.specs.Prelude.{◌≡◌, [], ◌∷◌};
ghost use Rattle.atl_descriptions.specs.Tables.{has_table};
ghost use Rattle.atl_sql.specs.Shown.{int};
ghost use Rattle.atl_sql.specs.Written.{sort_number};
ghost use Rattle.atl_sql.specs.Writes.{TakesOut};

use crate::statement::run;
use sqlite::{Alter, Error, Transaction, params};

/// What a row of the table `has` is about: an item, with an amount, or a skill, with days.
#[derive(Clone, Copy, PartialEq, Eq)]
pub enum ThingKind {
    Item,
    Skill,
}

impl ThingKind {
    /// The kind's number in the column `sort`: 0 for an item, 1 for a skill.
    pub fn number(self) -> u32
        ensures { result ≡ sort_number self }
    {
        match self {
            ThingKind::Item => 0,
            ThingKind::Skill => 1,
        }
    }
}

/// Deletes all rows of this unit from the table `has`.
pub fn drop_goods<S: Alter>(tx: &mut Transaction<'_, S>, unit: u32) -> Result<(), Error>
    ensures { TakesOut S.Store has_table 1 (int unit ∷ []) result tx.old.conn tx.new.conn }
{
    run(tx, "DELETE FROM has WHERE unit = ?1", params![unit])
}
