//! The table `structure`: a row for each structure.
ghost use Rattle.std.specs.Prelude.{refl};
ghost use Rattle.std.proofs.Common.{lit<};
ghost use Rattle.atl_descriptions.specs.Tables.{Structures};

use crate::record::{Record, Written};
use crate::table;
use crate::table::{Statements, Table};
use atl_columns::numbers::Number;
use atl_columns::texts::TextBytes;
use atl_rows::parts::StoredStructure;
use atl_world::{Format, Sequence};

const STRUCTURE: (Table, Statements) = table!(First 7 "structure"
    number { 1 "number" }
    columns { 2 "kind" "INTEGER", 3 "name" "TEXT", 4 "region" "INTEGER", 5 "done" "INTEGER", 6 "owner" "INTEGER" });

impl Record for StoredStructure {
    type Fields = (
        Number,
        (Number, (TextBytes, (Number, (Number, (Number, ()))))),
    );

    ghost part = { Structures };

    ghost of_fields = { λ (number, (kind, (name, (region, (done, (owner, end)))))). record { number = number; kind = kind; name = name; region = region; done = done; owner = owner } };

    ghost to_fields = { λ r. (r.number, (r.kind, (r.name, (r.region, (r.done, (r.owner, tt)))))) };

    ghost is_narrow = { lit< tt };

    ghost has_columns = { refl };

    ghost is_wide = { refl };

    ghost again = { λ x. refl };

    fn table() -> Table {
        STRUCTURE.0
    }

    fn of_fields(
        (number, (kind, (name, (region, (done, (owner, ())))))): (
            i64,
            (i64, (Sequence<u8>, (i64, (i64, (i64, ()))))),
        ),
    ) -> StoredStructure {
        StoredStructure {
            number,
            kind,
            name,
            region,
            done,
            owner,
        }
    }
}

impl Written for StoredStructure {
    ghost is_written = { tt };

    fn statements() -> Statements {
        STRUCTURE.1
    }
}
