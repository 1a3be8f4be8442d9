//! Puts the rows of items, days of study and stocks into their units and regions. Of rows for one
//! amount the last counts, and a number that doesn't fit 32 bits is read as the largest. The rows
//! of items and days have to be in their ranges. A row of a unit or region that isn't there is left
//! out. Where memory runs out, the answer is AllocError, and nothing is said of units and regions.
ghost use Rattle.std.specs.Prelude.{◌≡◌, OnOk, true};
ghost use Rattle.std.specs.List.{list_all};
ghost use Rattle.atl_world.specs.Sums.{with_changed_value};
ghost use Rattle.atl_campaign.specs.Assembling.{with_has_row, with_market_row, with_rows_added};
ghost use Rattle.atl_campaign.specs.FromRows.{as_u32};
ghost use Rattle.atl_campaign.specs.RowRules.{has_in_range};

use crate::row_values::as_u32;
use crate::rows::{ITEM_SORT, SKILL_SORT};
use atl_containers::Arena;
use atl_records::{Region, Unit};
use atl_rows::parts::{StoredHas, StoredMarket};
use atl_world::Numbered;
use std::alloc::AllocError;

fn put_thing(units: &mut Arena<Unit>, row: &StoredHas) -> Result<(), AllocError>
    requires { has_in_range row.now ≡ true }
    ensures { OnOk result (units.new
        ≡ with_changed_value (with_has_row row.now) units.old (as_u32 row.now.unit)) }
{
    let Some(unit) = units.get_mut(as_u32(row.unit)) else {
        return Ok(());
    };
    let (thing, amount) = (as_u32(row.thing), as_u32(row.amount));
    match as_u32(row.sort) {
        ITEM_SORT => unit.holding.put_item(thing, amount),
        SKILL_SORT => unit.holding.put_days(thing, amount),
        _ => Ok(()),
    }
}

pub(super) fn put_things(units: &mut Arena<Unit>, rows: &[StoredHas]) -> Result<(), AllocError>
    requires { list_all has_in_range rows.now ≡ true }
    ensures { OnOk result (units.new
        ≡ with_rows_added (λ r. as_u32 r.unit) with_has_row rows.now units.old) }
{
    for row in rows {
        put_thing(units, row)?;
    }
    Ok(())
}

fn put_stock(regions: &mut Numbered<Region>, row: &StoredMarket) -> Result<(), AllocError>
    ensures { OnOk result (regions.new
        ≡ with_changed_value (with_market_row row.now) regions.old (as_u32 row.now.region)) }
{
    match regions.get_mut(as_u32(row.region)) {
        Some(region) => region.stocks.insert(as_u32(row.item), as_u32(row.stock)),
        None => Ok(()),
    }
}

pub(super) fn put_stocks(
    regions: &mut Numbered<Region>,
    rows: &[StoredMarket],
) -> Result<(), AllocError>
    ensures { OnOk result (regions.new
        ≡ with_rows_added (λ r. as_u32 r.region) with_market_row rows.now regions.old) }
{
    for row in rows {
        put_stock(regions, row)?;
    }
    Ok(())
}
