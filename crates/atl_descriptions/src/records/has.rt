//! The table `has`: items and days of study of units, a row for each item or skill of a unit.
ghost use Rattle.std.specs.Prelude.{refl};
ghost use Rattle.std.proofs.Common.{lit<};
ghost use Rattle.atl_descriptions.specs.Tables.{Goods};

use crate::record::{Record, Written};
use crate::table;
use crate::table::{Statements, Table, UniqueKey};
use atl_columns::numbers::Number;
use atl_rows::parts::StoredHas;
use atl_world::Format;

const HAS: (Table, Statements) = table!(First 5 "has"
    keys 6 { 1 "unit" "INTEGER", 2 "sort" "INTEGER", 3 "thing" "INTEGER" }
    columns { 4 "amount" "INTEGER" });

impl Record for StoredHas {
    type Fields = (Number, (Number, (Number, (Number, ()))));

    ghost part = { Goods };

    ghost of_fields = { λ (unit, (sort, (thing, (amount, end)))). record { unit = unit; sort = sort; thing = thing; amount = amount } };

    ghost to_fields = { λ r. (r.unit, (r.sort, (r.thing, (r.amount, tt)))) };

    ghost is_narrow = { lit< tt };

    ghost has_columns = { refl };

    ghost is_wide = { refl };

    ghost again = { λ x. refl };

    fn table() -> Table {
        HAS.0
    }

    fn of_fields(
        (unit, (sort, (thing, (amount, ())))): (i64, (i64, (i64, (i64, ())))),
    ) -> StoredHas {
        StoredHas {
            unit,
            sort,
            thing,
            amount,
        }
    }
}

impl Written for StoredHas {
    ghost is_written = { tt };

    fn statements() -> Statements {
        HAS.1
    }
}
