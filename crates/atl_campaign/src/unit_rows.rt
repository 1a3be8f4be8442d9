//! The row of `unit`: how a unit is written in it and read from it, and its ranges. Items and days
//! of study are rows of the table `has`. See docs/FORMATS.md, "Tables" and "Rules of the tables".
ghost use Rattle.std.specs.Prelude.{◌≡◌, IfOk, true};
ghost use Rattle.atl_world.specs.Names.{name_ok};
ghost use Rattle.atl_campaign.specs.Assembling.{bare_unit};
ghost use Rattle.atl_campaign.specs.UnitRows.{unit_in_range, unit_row};

use crate::assembly::moved_name;
use crate::row_values::{as_u32, flag, is_from, is_set};
use crate::rows::bytes_of;
use atl_records::{HOLDING_LIMIT, Holding, LAST_UNIT, MEN_LIMIT, Unit};
use atl_rows::parts::StoredUnit;
use atl_world::{Numbered, Sequence};
use std::alloc::{AllocError, Global};
use std::mem;

pub(crate) fn unit_row(alloc: Global, number: u32, unit: &Unit) -> Result<StoredUnit, AllocError>
    ensures { IfOk result (λ row. row ≡ unit_row number unit.now) }
{
    let name = bytes_of(alloc, unit.holding.name())?;
    Ok(StoredUnit {
        number: i64::from(number),
        faction: i64::from(unit.faction),
        name,
        region: i64::from(unit.region),
        structure: i64::from(unit.structure),
        men: i64::from(unit.holding.men()),
        money: i64::from(unit.holding.money()),
        guard: flag(unit.holding.guard()),
    })
}

/// The name is moved, not copied. A number that doesn't fit 32 bits is read as the largest.
pub(crate) fn bare_unit(alloc: Global, mut row: StoredUnit) -> Unit
    requires named { name_ok row.name ≡ true }
    requires range { unit_in_range row ≡ true }
    ensures { result ≡ bare_unit row }
{
    let name = moved_name(mem::replace(&mut row.name, Sequence::new(alloc)));
    let items = Numbered::new(alloc);
    let days = Numbered::new(alloc);
    let mut holding = Holding::new(name, as_u32(row.men), as_u32(row.money), items, days);
    holding.set_guard(is_set(row.guard));
    Unit {
        faction: as_u32(row.faction),
        region: as_u32(row.region),
        structure: as_u32(row.structure),
        holding,
    }
}

/// Whether the numbers and the flag of a row are in their ranges, as rule 2 asks.
pub fn unit_in_range(row: &StoredUnit) -> bool
    ensures { result ≡ unit_in_range row.now }
{
    is_from(1, LAST_UNIT, row.number)
        && is_from(1, MEN_LIMIT, row.men)
        && is_from(0, HOLDING_LIMIT, row.money)
        && is_from(0, 1, row.guard)
}
