//! The table `unit`: a row for each unit.
ghost use Rattle.std.specs.Prelude.{refl};
ghost use Rattle.std.proofs.Common.{lit<};
ghost use Rattle.atl_rows.specs.UnitColumns.{unit_fields, unit_of_fields};
ghost use Rattle.atl_descriptions.specs.Tables.{Units};

use crate::record::{Record, Written};
use crate::table;
use crate::table::{Statements, Table};
use atl_columns::Fields;
use atl_columns::numbers::Number;
use atl_columns::texts::TextBytes;
use atl_rows::parts::StoredUnit;
use atl_world::Format;

const UNIT: (Table, Statements) = table!(First 4 "unit"
    number { 1 "number" }
    columns { 2 "faction" "INTEGER", 3 "name" "TEXT", 4 "region" "INTEGER", 5 "structure" "INTEGER", 6 "men" "INTEGER", 7 "money" "INTEGER", 8 "guard" "INTEGER" });

type UnitFields = (
    Number,
    (
        Number,
        (
            TextBytes,
            (Number, (Number, (Number, (Number, (Number, ()))))),
        ),
    ),
);

impl Record for StoredUnit {
    type Fields = UnitFields;

    ghost part = { Units };

    ghost of_fields = { unit_of_fields };

    ghost to_fields = { unit_fields };

    ghost is_narrow = { lit< tt };

    ghost has_columns = { refl };

    ghost is_wide = { refl };

    ghost again = { λ x. refl };

    fn table() -> Table {
        UNIT.0
    }

    fn of_fields(fields: <UnitFields as Fields>::Value) -> StoredUnit {
        let (number, (faction, (name, (region, (structure, (men, (money, (guard, ())))))))) =
            fields;
        StoredUnit {
            number,
            faction,
            name,
            region,
            structure,
            men,
            money,
            guard,
        }
    }
}

impl Written for StoredUnit {
    ghost is_written = { tt };

    fn statements() -> Statements {
        UNIT.1
    }
}
