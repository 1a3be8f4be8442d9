//! Adds units and structures to a campaign under new numbers. A unit's goods are its items and days
//! of study. A call that answers AllocError ran out of memory, and has changed nothing.
ghost use Rattle.std.specs.Prelude.{◌≡◌, ◌≤◌, IfOk, OnOk, OnErr, None};
ghost use Rattle.std.specs.FinMap as map;
ghost use Rattle.atl_records.specs.Limits.{last_unit, most_structures};
ghost use Rattle.atl_campaign.specs.Marking.{mark_unit_added, mark_unit_begun, mark_structure_begun};
ghost use Rattle.atl_campaign.specs.Campaign.{with_unit, with_unit_begun, with_structure_begun};

use super::Campaign;
use atl_lists::list_keys_of;
use atl_records::{Structure, Unit};
use std::alloc::AllocError;

impl Campaign {
    /// Adds a unit under a number that no unit has, and marks it, its row and all its goods. The
    /// next unit number stays as it is.
    fn add_unit(&mut self, number: u32, unit: Unit) -> Result<(), AllocError>
        requires { map.get self.old.value.units number ≡ None }
        ensures ok { OnOk result
            (self.new ≡ record {
              value = with_unit self.old.value number unit;
              marks =
                  mark_unit_added self.old number;
            }) }
        ensures err { OnErr result (self.new ≡ self.old) }
    {
        let listing = list_keys_of(&unit);
        self.lists.add(self.alloc, number, listing)?;
        match self.units.insert(number, unit) {
            Ok(()) => Ok(()),
            Err(e) => {
                self.lists.remove(number, listing);
                Err(e)
            }
        }
    }

    /// Adds a unit under the next unit number, which no unit may have yet, and which has to be at
    /// most LAST_UNIT. Returns that number; the next unit number rises by one. The unit, its row,
    /// its goods and the campaign row are marked. AllocError without memory, and then nothing
    /// changes. See docs/RULES.md, "Limits".
    pub fn begin_unit(&mut self, unit: Unit) -> Result<u32, AllocError>
        requires fresh { map.get self.old.value.units self.old.value.next_unit ≡ None }
        requires room { self.old.value.next_unit ≤ last_unit }
        ensures ok { OnOk result (self.new.value ≡ with_unit_begun self.old.value unit) }
        ensures number { IfOk result (λ number. number ≡ self.old.value.next_unit) }
        ensures err { OnErr result (self.new ≡ self.old) }
        ensures marks { OnOk result (self.new.marks ≡ mark_unit_begun self.old) }
    {
        let number = self.next_unit;
        self.add_unit(number, unit)?;
        self.next_unit = number + 1;
        self.row_marked = true;
        Ok(number)
    }

    /// Adds a structure under the next structure number, which no structure may have yet, and which
    /// has to be at most MOST_STRUCTURES. Returns that number; the next structure number rises by
    /// one. The structure and the campaign row are marked. AllocError without memory, and then
    /// nothing changes. See docs/RULES.md, "Limits".
    pub fn begin_structure(&mut self, structure: Structure) -> Result<u32, AllocError>
        requires fresh { map.get self.old.value.structures self.old.value.next_structure ≡ None }
        requires room { self.old.value.next_structure ≤ most_structures }
        ensures ok { OnOk result (self.new.value ≡ with_structure_begun self.old.value structure) }
        ensures number { IfOk result (λ number. number ≡ self.old.value.next_structure) }
        ensures err { OnErr result (self.new ≡ self.old) }
        ensures marks { OnOk result (self.new.marks ≡ mark_structure_begun self.old) }
    {
        let number = self.next_structure;
        self.structures.insert(number, structure)?;
        self.next_structure = number + 1;
        self.row_marked = true;
        Ok(number)
    }
}
