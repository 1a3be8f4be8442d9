//! Checks that no two regions have the same number. A call that may return a fault may also return
//! `Memory`. See docs/FORMATS.md, "The world file".
ghost use Rattle.atl_tables.specs.Faults.{first_fault};
ghost use Rattle.atl_tables.specs.Results.{Gives};
ghost use Rattle.atl_tables.specs.Regions.{duplicate_numbers};

use crate::fault::WorldFault;
use crate::keys::element_key_path;
use crate::region_table::RegionDraft;
use atl_world::Numbered;
use std::alloc::Global;

/// Checks that no two regions have the same number, else gives the fault TwoNames at the first that
/// has the number of one before it.
pub(crate) fn no_duplicate_numbers(alloc: Global, drafts: &[RegionDraft]) -> Result<(), WorldFault>
    ensures { Gives (λ u. u) result (first_fault (duplicate_numbers drafts.now)) (tt {0}) }
{
    let mut seen: Numbered<()> = Numbered::new(alloc);
    for i in 0..drafts.len() {
        let number = drafts[i].basics.number;
        if let Some(()) = seen.get(number) {
            let path = element_key_path(alloc, "region", i, "number")?;
            return Err(WorldFault::TwoNames(path));
        }
        seen.insert(number, ())?;
    }
    Ok(())
}
