//! Makes files of the first format for tests: its nine tables (docs/FORMATS.md, "Upgrading a file")
//! with a campaign's rows.
#![tactic(auto)]

mod rows;

use crate::rows::put_all;
use atl_campaign::Campaign;
use atl_world::Format;
use sqlite::{Alter, Connection, Error};

/// The SQL statements that make the nine tables of the first format.
const FIRST_TABLES: &str =
    "CREATE TABLE campaign (id INTEGER NOT NULL PRIMARY KEY CHECK (id = 1), format INTEGER NOT NULL, month INTEGER NOT NULL, next_faction INTEGER NOT NULL, next_unit INTEGER NOT NULL, next_structure INTEGER NOT NULL, pass TEXT NOT NULL, world TEXT NOT NULL) STRICT;
CREATE TABLE faction (number INTEGER NOT NULL PRIMARY KEY, joined_as TEXT NOT NULL UNIQUE, name TEXT NOT NULL, pass TEXT NOT NULL, gone INTEGER NOT NULL) STRICT;
CREATE TABLE region (number INTEGER NOT NULL PRIMARY KEY, peasants INTEGER NOT NULL, money INTEGER NOT NULL) STRICT;
CREATE TABLE unit (number INTEGER NOT NULL PRIMARY KEY, faction INTEGER NOT NULL, name TEXT NOT NULL, region INTEGER NOT NULL, structure INTEGER NOT NULL, men INTEGER NOT NULL, money INTEGER NOT NULL, guard INTEGER NOT NULL) STRICT;
CREATE TABLE has (unit INTEGER NOT NULL, sort INTEGER NOT NULL, thing INTEGER NOT NULL, amount INTEGER NOT NULL, PRIMARY KEY (unit, sort, thing)) STRICT;
CREATE TABLE structure (number INTEGER NOT NULL PRIMARY KEY, kind INTEGER NOT NULL, name TEXT NOT NULL, region INTEGER NOT NULL, done INTEGER NOT NULL, owner INTEGER NOT NULL) STRICT;
CREATE TABLE mail (faction INTEGER NOT NULL PRIMARY KEY, text BLOB NOT NULL) STRICT;
CREATE TABLE report (faction INTEGER NOT NULL PRIMARY KEY, text TEXT NOT NULL) STRICT;
CREATE TABLE books (entry INTEGER NOT NULL, thing INTEGER NOT NULL, amount INTEGER NOT NULL, PRIMARY KEY (entry, thing)) STRICT";

/// Makes the tables of the first format in a database without them, with a world text and a
/// campaign's rows, in one transaction. Stocks are left out. If a statement fails, the transaction
/// may be left open.
pub fn old_file<S: Alter>(
    conn: &mut Connection<S>,
    world: &str,
    campaign: &Campaign,
) -> Result<(), Error> {
    let parts = campaign.parts_as(Format::First)?;
    conn.execute_batch("BEGIN")?;
    conn.execute_batch(FIRST_TABLES)?;
    put_all(conn, world, &parts)?;
    conn.execute_batch("COMMIT")
}
