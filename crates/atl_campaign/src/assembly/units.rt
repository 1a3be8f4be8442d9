//! Builds the units from their rows, and the lists of units. Of rows with one number the last
//! counts. `has` are rows of the table `has`: items and days of study. The rows of units and of
//! `has` have to be in their ranges, and the names of units to keep their rule. Where memory runs
//! out, the answer is AllocError.
ghost use Rattle.std.specs.Prelude.{◌≡◌, IfOk, true};
ghost use Rattle.std.specs.List.{list_all};
ghost use Rattle.atl_world.specs.Names.{name_ok};
ghost use Rattle.atl_lists.specs.Lists.{AreUnitLists};
ghost use Rattle.atl_campaign.specs.Assembling.{bare_unit};
ghost use Rattle.atl_campaign.specs.FromRows.{as_u32, by_number, unit_of};
ghost use Rattle.atl_campaign.specs.Roster.{unmarked_units};
ghost use Rattle.atl_campaign.specs.RowRules.{unit_in_range, has_in_range};

use super::goods::put_things;
use crate::row_values::as_u32;
use crate::unit_rows::bare_unit;
use crate::units::Units;
use atl_containers::Arena;
use atl_lists::{UnitLists, list_keys_of};
use atl_records::Unit;
use atl_rows::parts::{StoredHas, StoredUnit};
use atl_world::Sequence;
use std::alloc::{AllocError, Global};

fn bare_units(alloc: Global, rows: Sequence<StoredUnit>) -> Result<Arena<Unit>, AllocError>
    requires named { list_all (λ r. name_ok r.name) rows ≡ true }
    requires range { list_all unit_in_range rows ≡ true }
    ensures { IfOk result (λ units. units ≡ by_number (λ r. as_u32 r.number) bare_unit rows) }
{
    let mut units = Arena::with_room(alloc, rows.len())?;
    for row in rows.into_vec() {
        let number = as_u32(row.number);
        units.put(number, bare_unit(alloc, row))?;
    }
    Ok(units)
}

pub(crate) fn units_of(
    alloc: Global,
    rows: Sequence<StoredUnit>,
    has: &[StoredHas],
) -> Result<Arena<Unit>, AllocError>
    requires named { list_all (λ r. name_ok r.name) rows ≡ true }
    requires range { list_all unit_in_range rows ≡ true }
    requires amounts { list_all has_in_range has.now ≡ true }
    ensures { IfOk result (λ units. units
        ≡ by_number (λ r. as_u32 r.number) (unit_of has.now) rows) }
{
    let mut units = bare_units(alloc, rows)?;
    put_things(&mut units, has)?;
    Ok(units)
}

pub(crate) fn roster_of(
    alloc: Global,
    rows: Sequence<StoredUnit>,
    has: &[StoredHas],
) -> Result<Units, AllocError>
    requires named { list_all (λ r. name_ok r.name) rows ≡ true }
    requires range { list_all unit_in_range rows ≡ true }
    requires amounts { list_all has_in_range has.now ≡ true }
    ensures { IfOk result (λ units. units
        ≡ unmarked_units (by_number (λ r. as_u32 r.number) (unit_of has.now) rows)) }
{
    let units = units_of(alloc, rows, has)?;
    Units::unmarked_from(alloc, units)
}

pub(crate) fn lists_of(alloc: Global, units: &Units) -> Result<UnitLists, AllocError>
    ensures { IfOk result (λ lists. AreUnitLists units.now.values lists) }
{
    let mut lists = UnitLists::new(alloc);
    for (number, unit) in units.iter() {
        lists.add(alloc, number, list_keys_of(unit))?;
    }
    Ok(lists)
}
