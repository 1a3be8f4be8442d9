//! The table `region`: a row for each region.
ghost use Rattle.std.specs.Prelude.{refl};
ghost use Rattle.std.proofs.Common.{lit<};
ghost use Rattle.atl_descriptions.specs.Tables.{Regions};

use crate::record::{Record, Written};
use crate::table;
use crate::table::{Statements, Table};
use atl_columns::numbers::Number;
use atl_rows::parts::StoredRegion;
use atl_world::Format;

const REGION: (Table, Statements) = table!(First 3 "region"
    number { 1 "number" }
    columns { 2 "peasants" "INTEGER", 3 "money" "INTEGER" });

impl Record for StoredRegion {
    type Fields = (Number, (Number, (Number, ())));

    ghost part = { Regions };

    ghost of_fields = { λ (number, (peasants, (money, end))). record { number = number; peasants = peasants; money = money } };

    ghost to_fields = { λ r. (r.number, (r.peasants, (r.money, tt))) };

    ghost is_narrow = { lit< tt };

    ghost has_columns = { refl };

    ghost is_wide = { refl };

    ghost again = { λ x. refl };

    fn table() -> Table {
        REGION.0
    }

    fn of_fields((number, (peasants, (money, ()))): (i64, (i64, (i64, ())))) -> StoredRegion {
        StoredRegion {
            number,
            peasants,
            money,
        }
    }
}

impl Written for StoredRegion {
    ghost is_written = { tt };

    fn statements() -> Statements {
        REGION.1
    }
}
