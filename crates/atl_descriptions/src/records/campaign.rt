//! The table `campaign` of one row, the campaign row. Its texts are written out, since the table
//! has a check.
ghost use Rattle.std.specs.Prelude.{◌≡◌, refl};
ghost use Rattle.std.proofs.Common.{lit<};
ghost use Rattle.atl_descriptions.specs.Tables.{Own};

use crate::record::Record;
use crate::table::Table;
use atl_columns::numbers::Number;
use atl_columns::texts::{TextBytes, Utf8Text};
use atl_rows::parts::StoredCampaignRow;
use atl_world::{Format, Sequence, Text};

const CAMPAIGN: Table = Table {
    tree: 0,
    name: "campaign",
    names: &[
        "id",
        "format",
        "month",
        "next_faction",
        "next_unit",
        "next_structure",
        "pass",
        "world",
    ],
    number: Some(0),
    primary: &[0],
    unique: None,
    is_single: true,
    create: "CREATE TABLE campaign (id INTEGER NOT NULL PRIMARY KEY CHECK (id = 1), format INTEGER NOT NULL, month INTEGER NOT NULL, next_faction INTEGER NOT NULL, next_unit INTEGER NOT NULL, next_structure INTEGER NOT NULL, pass TEXT NOT NULL, world TEXT NOT NULL) STRICT",
    since: Format::First,
    select: "SELECT id, format, month, next_faction, next_unit, next_structure, pass, world FROM campaign ORDER BY id",
};

/// A row of the table `campaign`, whoever wrote it, with its world text.
pub struct StoredCampaign {
    /// All columns of the row but the world text.
    pub head: StoredCampaignRow,
    /// Any text; in a row that the program wrote, the world text, byte for byte as handed in.
    pub world: Text,
}

impl Drop for StoredCampaign {
    fn drop(self) {
        let StoredCampaign { head: _, world: _ } = self;
    }
}

impl StoredCampaign {
    /// All columns of the row but the world text, which is dropped.
    pub fn into_campaign_row(self) -> StoredCampaignRow
        ensures { result ≡ self.head }
    {
        let StoredCampaign { head, world: _ } = self;
        head
    }
}

impl Record for StoredCampaign {
    type Fields = (
        Number,
        (
            Number,
            (
                Number,
                (Number, (Number, (Number, (TextBytes, (Utf8Text, ()))))),
            ),
        ),
    );

    ghost part = { Own };

    ghost of_fields = { λ (id, (format, (month, (next_faction, (next_unit, (next_structure, (pass, (world, end)))))))). record { head = record { id = id; format = format; month = month; next_faction = next_faction; next_unit = next_unit; next_structure = next_structure; pass = pass }; world = world } };

    ghost to_fields = { λ r. (r.head.id, (r.head.format, (r.head.month, (r.head.next_faction, (r.head.next_unit, (r.head.next_structure, (r.head.pass, (r.world, tt)))))))) };

    ghost is_narrow = { lit< tt };

    ghost has_columns = { refl };

    ghost is_wide = { refl };

    ghost again = { λ x. refl };

    fn table() -> Table {
        CAMPAIGN
    }

    fn of_fields(
        (
            id,
            (format, (month, (next_faction, (next_unit, (next_structure, (pass, (world, ()))))))),
        ): (
            i64,
            (i64, (i64, (i64, (i64, (i64, (Sequence<u8>, (Text, ()))))))),
        ),
    ) -> StoredCampaign {
        let head = StoredCampaignRow {
            id,
            format,
            month,
            next_faction,
            next_unit,
            next_structure,
            pass,
        };
        StoredCampaign { head, world }
    }
}
