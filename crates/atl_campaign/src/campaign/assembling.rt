//! Builds a campaign from rows that keep the rules on the campaign row, ranges and names.
ghost use Rattle.std.specs.Prelude.{◌≡◌, IfOk, OnOk, length, true};
ghost use Rattle.atl_world.specs.Worlds.{IsWorld};
ghost use Rattle.atl_campaign.specs.FromRows.{campaign_of};
ghost use Rattle.atl_campaign.specs.Marks.{no_marks};
ghost use Rattle.atl_campaign.specs.RowRules.{are_named, first_tables_in_range};
ghost use Rattle.atl_campaign.specs.Taking.{without_moved};

use super::Campaign;
use crate::assembly::{
    CampaignMaps, books_of, campaign_maps_of, lists_of, pass_of, roster_of, take_rows,
};
use crate::row_values::{as_u32, campaign_row_of};
use atl_records::{ENTRY_COUNT, FIRST_ITEM};
use atl_rows::parts::Parts;
use atl_world::{Marks, World};
use std::alloc::{AllocError, Global};

/// The campaign of the world that is read from rows, with nothing marked. There has to be one
/// campaign row. Names and pass texts have to keep their rules, and rows of the tables `faction`,
/// `region`, `unit` and `has` have to be in their ranges. The rows of units, mail and reports are
/// taken, since names and texts are moved; all other rows stay. AllocError without memory: nothing
/// is said of the rows then. The world keeps the rules of worlds (`world`), as each does.
#[tactic(auto, unfolding(crate::specs::FromRows::campaign_of))]
pub fn assemble(alloc: Global, world: &World, parts: &mut Parts) -> Result<Campaign, AllocError>
    requires one { length parts.old.campaign ≡ 1 }
    requires named { are_named parts.old ≡ true }
    requires people { first_tables_in_range parts.old ≡ true }
    ensures what { IfOk result (λ c. c.value ≡ campaign_of world.now parts.old) }
    ensures marks { IfOk result (λ c. c.marks ≡ no_marks) }
    ensures rest { OnOk result (parts.new ≡ without_moved parts.old) }
    ensures world { IsWorld world.now }
{
    let things = FIRST_ITEM + world.items().len();
    let pass = pass_of(alloc, &campaign_row_of(parts).pass)?;
    let rows = take_rows(alloc, &mut parts.units);
    let has = parts.has.as_slice();
    let units = roster_of(alloc, rows, has)?;
    let lists = lists_of(alloc, &units)?;
    let books = books_of(alloc, things, parts.books.as_slice())?;
    let amounts_marked = Marks::with_room(alloc, ENTRY_COUNT * things)?;
    let CampaignMaps {
        factions,
        regions,
        structures,
        mail,
        reports,
    } = campaign_maps_of(alloc, parts)?;
    let head = campaign_row_of(parts);
    Ok(Campaign {
        alloc,
        month: as_u32(head.month),
        pass,
        row_marked: false,
        factions,
        next_faction: as_u32(head.next_faction),
        regions,
        units,
        next_unit: as_u32(head.next_unit),
        structures,
        next_structure: as_u32(head.next_structure),
        mail,
        reports,
        books,
        amounts_marked,
        lists,
    })
}
