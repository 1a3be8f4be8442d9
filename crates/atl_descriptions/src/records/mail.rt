//! The table `mail`: a row for each faction that sent a mailing.
ghost use Rattle.std.specs.Prelude.{refl};
ghost use Rattle.std.proofs.Common.{lit<};
ghost use Rattle.atl_descriptions.specs.Tables.{Mail};

use crate::record::{Record, Written};
use crate::table;
use crate::table::{Statements, Table};
use atl_columns::numbers::Number;
use atl_columns::texts::Bytes;
use atl_rows::parts::StoredMail;
use atl_world::{Format, Sequence};

const MAIL: (Table, Statements) = table!(First 8 "mail"
    number { 1 "faction" }
    columns { 2 "text" "BLOB" });

impl Record for StoredMail {
    type Fields = (Number, (Bytes, ()));

    ghost part = { Mail };

    ghost of_fields = { λ (faction, (text, end)). record { faction = faction; text = text } };

    ghost to_fields = { λ r. (r.faction, (r.text, tt)) };

    ghost is_narrow = { lit< tt };

    ghost has_columns = { refl };

    ghost is_wide = { refl };

    ghost again = { λ x. refl };

    fn table() -> Table {
        MAIL.0
    }

    fn of_fields((faction, (text, ())): (i64, (Sequence<u8>, ()))) -> StoredMail {
        StoredMail { faction, text }
    }
}

impl Written for StoredMail {
    ghost is_written = { tt };

    fn statements() -> Statements {
        MAIL.1
    }
}
