//! Writes the campaign row: in a founding, a join, a change, and an upgrade; and tests the id and
//! the format of one. Each write is a step of a transaction on the ten tables and a clean disk; an
//! error is the database's.
ghost use Rattle.std.specs.Prelude.{◌≡◌, pos, ◌↔◌, IsTrue};
ghost use Rattle.atl_world.specs.Formats.{format_number};
ghost use Rattle.atl_writing.specs.Rows.{campaign_row_of};
ghost use Rattle.atl_sql.specs.PutsCampaignRow.{PutsCampaignRow, UpgradesCampaignRow};
ghost use Rattle.atl_writing.specs.Rewriting.{RewritesCampaignRow};
ghost use Rattle.atl_sql.specs.Shown.{campaign_row_values};
ghost use Rattle.atl_sql.specs.Written.{head_shown};
ghost use Rattle.atl_descriptions.specs.Statements.{campaign_upsert, upgrading_upsert, OneStatement};
ghost use Rattle.atl_writing.specs.OwnStatements.{OfChange};
ghost use Rattle.atl_sql.specs.Writes.{Writes};
ghost use Rattle.atl_sql.specs.Inside.{DoesInside, HasTables};

use atl_campaign::Campaign;
use atl_rows::parts::StoredCampaignRow;
use atl_sql::rows::campaign::{CampaignRow, put_campaign, put_upgraded};
use atl_world::Format;
use sqlite::{Alter, Error, Transaction};

/// What the campaign row of the campaign says, but for its id, its format and its world text.
fn own_row(campaign: &Campaign) -> CampaignRow<'_>
    ensures { head_shown result ≡ campaign_row_of campaign.now.value }
{
    CampaignRow {
        month: campaign.month(),
        next_faction: campaign.next_faction(),
        next_unit: campaign.next_unit(),
        next_structure: campaign.next_structure(),
        pass: campaign.pass().as_str(),
    }
}

/// Without a campaign row, inserts it, in the second format, with this world text. A row of the
/// second format, if it is the only one, becomes the campaign's; its own world text stays.
pub fn put_campaign_row<S: Alter>(
    tx: &mut Transaction<'_, S>,
    campaign: &Campaign,
    world: &str,
) -> Result<(), Error>
    ensures { Writes S.Store
        (OneStatement campaign_upsert (campaign_row_values (campaign_row_of campaign.now.value)
        world.now))
        (DoesInside HasTables (PutsCampaignRow (campaign_row_of campaign.now.value) world.now))
        result
        tx.old.conn tx.new.conn }
{
    let row = own_row(campaign);
    put_campaign(tx, &row, world)
}

/// Gives the campaign row the second format and this world text. It has to be the only row, and
/// that of `campaign` in the first format, with any world text.
pub(crate) fn upgrade_campaign_row<S: Alter>(
    tx: &mut Transaction<'_, S>,
    campaign: &Campaign,
    world: &str,
) -> Result<(), Error>
    ensures { Writes S.Store
        (OneStatement upgrading_upsert (campaign_row_values (campaign_row_of campaign.now.value)
        world.now))
        (DoesInside HasTables (UpgradesCampaignRow (campaign_row_of campaign.now.value) world.now))
        result tx.old.conn tx.new.conn }
{
    let row = own_row(campaign);
    put_upgraded(tx, &row, world)
}

/// Puts the campaign row if it is marked. One row, of the second format, has to be there; its world
/// text stays.
pub(crate) fn rewrite_campaign_row<S: Alter>(
    tx: &mut Transaction<'_, S>,
    campaign: &Campaign,
) -> Result<(), Error>
    ensures { Writes S.Store (OfChange campaign.now.value)
        (DoesInside HasTables (RewritesCampaignRow campaign.now)) result tx.old.conn tx.new.conn }
{
    if campaign.is_row_marked() {
        return put_campaign_row(tx, campaign, "");
    }
    Ok(())
}

/// Whether a campaign row has the id 1, as each campaign row has to, and the number of `format`.
pub fn has_id_and_format(head: &StoredCampaignRow, format: Format) -> bool
    ensures { IsTrue result ↔
        ((head.now.id ≡ pos 1) × (head.now.format ≡ pos (format_number format))) }
{
    head.id == 1 && head.format == i64::from(format.number())
}
