//! The table `faction`: a row for each faction, gone or not. Its texts are written out, since no
//! two factions join under one name.
ghost use Rattle.std.specs.Prelude.{refl};
ghost use Rattle.std.proofs.Common.{lit<};
ghost use Rattle.atl_descriptions.specs.Tables.{Factions};

use crate::record::{Record, Written};
use crate::table::{Statements, Table, UniqueKey};
use atl_columns::numbers::Number;
use atl_columns::texts::TextBytes;
use atl_rows::parts::StoredFaction;
use atl_world::{Format, Sequence};

const FACTION: (Table, Statements) = (
    Table {
        tree: 1,
        name: "faction",
        names: &["number", "joined_as", "name", "pass", "gone"],
        number: Some(0),
        primary: &[0],
        unique: Some(UniqueKey {
            columns: &[2],
            index: "sqlite_autoindex_faction_1",
            tree: 2,
        }),
        is_single: false,
        create: "CREATE TABLE faction (number INTEGER NOT NULL PRIMARY KEY, joined_as TEXT NOT NULL UNIQUE, name TEXT NOT NULL, pass TEXT NOT NULL, gone INTEGER NOT NULL) STRICT",
        since: Format::First,
        select: "SELECT number, joined_as, name, pass, gone FROM faction ORDER BY number",
    },
    Statements {
        upsert: "INSERT INTO faction (number, joined_as, name, pass, gone) VALUES (?1, ?2, ?3, ?4, ?5) ON CONFLICT (number) DO UPDATE SET joined_as = ?2, name = ?3, pass = ?4, gone = ?5",
        delete: "DELETE FROM faction WHERE number = ?1",
    },
);

impl Record for StoredFaction {
    type Fields = (Number, (TextBytes, (TextBytes, (TextBytes, (Number, ())))));

    ghost part = { Factions };

    ghost of_fields = { λ (number, (joined_as, (name, (pass, (gone, end))))). record { number = number; joined_as = joined_as; name = name; pass = pass; gone = gone } };

    ghost to_fields = { λ r. (r.number, (r.joined_as, (r.name, (r.pass, (r.gone, tt))))) };

    ghost is_narrow = { lit< tt };

    ghost has_columns = { refl };

    ghost is_wide = { refl };

    ghost again = { λ x. refl };

    fn table() -> Table {
        FACTION.0
    }

    fn of_fields(
        (number, (joined_as, (name, (pass, (gone, ()))))): (
            i64,
            (Sequence<u8>, (Sequence<u8>, (Sequence<u8>, (i64, ())))),
        ),
    ) -> StoredFaction {
        StoredFaction {
            number,
            joined_as,
            name,
            pass,
            gone,
        }
    }
}

impl Written for StoredFaction {
    ghost is_written = { tt };

    fn statements() -> Statements {
        FACTION.1
    }
}
