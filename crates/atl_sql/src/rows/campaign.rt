//! The table `campaign`, whose one row is the campaign row: how it is read, and how put, if there
//! are a campaign's tables (`HasTables`) and a clean disk. Err of a put has the statement's error.
ghost use Rattle.std.specs.Prelude.{◌≡◌, false};
ghost use Rattle.atl_descriptions.specs.Tables.{campaign_table};
ghost use Rattle.atl_sql.specs.Written.{head_shown};
ghost use Rattle.atl_sql.specs.PutsCampaignRow.{PutsCampaignRow, UpgradesCampaignRow};
ghost use Rattle.atl_sql.specs.Shown.{campaign_row_values};
ghost use Rattle.atl_descriptions.specs.Statements.{campaign_upsert, selection, upgrading_upsert, OneStatement};
ghost use Rattle.atl_sql.specs.Writes.{Writes};
ghost use Rattle.atl_sql.specs.Inside.{DoesInside, HasTables};
ghost use Rattle.atl_sql.specs.Reading.{Asks};

use crate::fault::ReadFault;
use crate::rows::stored::select;
use crate::statement::run;
use atl_descriptions::Record;
pub use atl_descriptions::records::campaign::StoredCampaign;
use sqlite::{Alter, Connection, Error, Row, Transaction, params};

/// The month, the next numbers and the pass text: the campaign row without its id (1), its format
/// (2) and its world text.
#[derive(Clone, Copy)]
pub struct CampaignRow<'a> {
    /// The month last closed, 0 before the first.
    pub month: u32,
    pub next_faction: u32,
    pub next_unit: u32,
    pub next_structure: u32,
    pub pass: &'a str,
}

/// Inserts the campaign row with this world text if the table is empty. If its only row is of the
/// second format, this row gets the values `row`, but keeps its world text (`PutsCampaignRow`).
pub fn put_campaign<S: Alter>(
    tx: &mut Transaction<'_, S>,
    row: &CampaignRow<'_>,
    world: &str,
) -> Result<(), Error>
    ensures { Writes S.Store
        (OneStatement campaign_upsert (campaign_row_values (head_shown row.now) world.now))
        (DoesInside HasTables (PutsCampaignRow (head_shown row.now) world.now)) result tx.old.conn
        tx.new.conn }
{
    run(
        tx,
        "INSERT INTO campaign (id, format, month, next_faction, next_unit, next_structure, pass, world) VALUES (1, 2, ?1, ?2, ?3, ?4, ?5, ?6) ON CONFLICT (id) DO UPDATE SET month = ?1, next_faction = ?2, next_unit = ?3, next_structure = ?4, pass = ?5",
        params![
            row.month,
            row.next_faction,
            row.next_unit,
            row.next_structure,
            row.pass,
            world
        ],
    )
}

/// If the only campaign row is of the first format and has the values `row`, gives it the format 2
/// and this world text (`UpgradesCampaignRow`). The statement inserts the row if there is none.
pub fn put_upgraded<S: Alter>(
    tx: &mut Transaction<'_, S>,
    row: &CampaignRow<'_>,
    world: &str,
) -> Result<(), Error>
    ensures { Writes S.Store
        (OneStatement upgrading_upsert (campaign_row_values (head_shown row.now) world.now))
        (DoesInside HasTables (UpgradesCampaignRow (head_shown row.now) world.now)) result
        tx.old.conn
        tx.new.conn }
{
    run(
        tx,
        "INSERT INTO campaign (id, format, month, next_faction, next_unit, next_structure, pass, world) VALUES (1, 2, ?1, ?2, ?3, ?4, ?5, ?6) ON CONFLICT (id) DO UPDATE SET format = 2, world = ?6",
        params![
            row.month,
            row.next_faction,
            row.next_unit,
            row.next_structure,
            row.pass,
            world
        ],
    )
}

/// Reads the rows of the table `campaign` as SQL shows them, whatever their values are. `conn` is
/// in no transaction. Nothing is committed. A fault is Memory, Store or Refused, never OtherType.
/// All this is promised on a clean disk (docs/PROVED.md, "Premises").
pub fn select_campaign<S: Alter>(conn: &mut Connection<S>) -> Result<Vec<Row>, ReadFault>
    requires { conn.old.in_transaction ≡ false }
    ensures { Asks S.Store (selection campaign_table 1) conn.old result conn.new }
{
    select(conn, StoredCampaign::table().select)
}
