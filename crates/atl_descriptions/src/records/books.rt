//! The table `books`: a row for each entry and thing whose amount isn't 0.
ghost use Rattle.std.specs.Prelude.{refl};
ghost use Rattle.std.proofs.Common.{lit<};
ghost use Rattle.atl_descriptions.specs.Tables.{Books};

use crate::record::{Record, Written};
use crate::table;
use crate::table::{Statements, Table, UniqueKey};
use atl_columns::numbers::Number;
use atl_rows::parts::StoredBooks;
use atl_world::Format;

const BOOKS: (Table, Statements) = table!(First 10 "books"
    keys 11 { 1 "entry" "INTEGER", 2 "thing" "INTEGER" }
    columns { 3 "amount" "INTEGER" });

impl Record for StoredBooks {
    type Fields = (Number, (Number, (Number, ())));

    ghost part = { Books };

    ghost of_fields = { λ (entry, (thing, (amount, end))). record { entry = entry; thing = thing; amount = amount } };

    ghost to_fields = { λ r. (r.entry, (r.thing, (r.amount, tt))) };

    ghost is_narrow = { lit< tt };

    ghost has_columns = { refl };

    ghost is_wide = { refl };

    ghost again = { λ x. refl };

    fn table() -> Table {
        BOOKS.0
    }

    fn of_fields((entry, (thing, (amount, ()))): (i64, (i64, (i64, ())))) -> StoredBooks {
        StoredBooks {
            entry,
            thing,
            amount,
        }
    }
}

impl Written for StoredBooks {
    ghost is_written = { tt };

    fn statements() -> Statements {
        BOOKS.1
    }
}
