//! The table `report`: a row for each faction that has a report.
ghost use Rattle.std.specs.Prelude.{refl};
ghost use Rattle.std.proofs.Common.{lit<};
ghost use Rattle.atl_descriptions.specs.Tables.{Reports};

use crate::record::{Record, Written};
use crate::table;
use crate::table::{Statements, Table};
use atl_columns::numbers::Number;
use atl_columns::texts::Utf8Text;
use atl_rows::parts::StoredReport;
use atl_world::{Format, Text};

const REPORT: (Table, Statements) = table!(First 9 "report"
    number { 1 "faction" }
    columns { 2 "text" "TEXT" });

impl Record for StoredReport {
    type Fields = (Number, (Utf8Text, ()));

    ghost part = { Reports };

    ghost of_fields = { λ (faction, (text, end)). record { faction = faction; text = text } };

    ghost to_fields = { λ r. (r.faction, (r.text, tt)) };

    ghost is_narrow = { lit< tt };

    ghost has_columns = { refl };

    ghost is_wide = { refl };

    ghost again = { λ x. refl };

    fn table() -> Table {
        REPORT.0
    }

    fn of_fields((faction, (text, ())): (i64, (Text, ()))) -> StoredReport {
        StoredReport { faction, text }
    }
}

impl Written for StoredReport {
    ghost is_written = { tt };

    fn statements() -> Statements {
        REPORT.1
    }
}
