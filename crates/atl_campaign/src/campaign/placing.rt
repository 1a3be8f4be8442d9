//! Moves and removes units, and finds the next owners of the structures that they leave and enter.
//! See docs/RULES.md, "Owners". The next owner is the lowest-numbered other unit inside, or 0 for
//! nobody. A unit's goods are its items and days of study. After AllocError nothing has changed.
//! Moving or removing a unit that isn't there changes nothing.
ghost use Rattle.std.specs.Prelude.{◌≡◌, OnOk, OnErr};
ghost use Rattle.std.specs.FinMap as map;
ghost use Rattle.atl_campaign.specs.Marking.{handed_marked, put_marked, place_marked, taken_marked, gone_marked};
ghost use Rattle.atl_campaign.specs.Owners.{first_other, heir, owner_after, is_owned_by, with_place, without_unit};

use super::Campaign;
use atl_lists::{ListKeys, list_keys_of};
use std::alloc::AllocError;

/// The first of the numbers that isn't `leaving`; 0 where there is no other.
fn first_other(numbers: &[u32], leaving: u32) -> u32
    ensures { result ≡ first_other numbers.now leaving }
{
    for number in numbers.iter() {
        if *number != leaving {
            return *number;
        }
    }
    0
}

impl Campaign {
    /// The owner of a structure once a unit has left it; 0 where there is no such structure. If the
    /// unit didn't own it, the owner stays; else it is the lowest-numbered other unit inside, or 0
    /// where there is none. It takes no memory. See docs/RULES.md, "Owners".
    pub fn owner_after(&self, structure: u32, leaving: u32) -> u32
        ensures { result ≡ owner_after self.now.value structure leaving }
    {
        match self.structures.get(structure) {
            Some(found) if found.owner != leaving => found.owner,
            Some(_) => self.heir(structure, leaving),
            None => 0,
        }
    }

    fn heir(&self, structure: u32, leaving: u32) -> u32
        ensures { result ≡ heir self.now.value structure leaving }
    {
        first_other(self.inside(structure), leaving)
    }

    /// Whether the unit owns the structure; 0 is nobody. False where there is no such structure.
    fn is_owned_by(&self, structure: u32, unit: u32) -> bool
        ensures { result ≡ is_owned_by (map.get self.now.value.structures structure) unit }
    {
        match self.structures.get(structure) {
            Some(found) => found.owner == unit,
            None => false,
        }
    }

    /// Gives a structure that `from` owns to `to`, and marks it; else does nothing. 0 is nobody.
    fn hand_over(&mut self, structure: u32, from: u32, to: u32)
        ensures { self.new ≡ handed_marked self.old structure from to }
    {
        if self.is_owned_by(structure, from) {
            self.set_owner(structure, to);
        }
    }

    /// Puts a unit in a region and structure (0: none), and marks it and its row. No owner changes.
    fn put(&mut self, number: u32, region: u32, structure: u32) -> Result<(), AllocError>
        ensures ok { OnOk result (self.new ≡ put_marked self.old number region structure) }
        ensures err { OnErr result (self.new ≡ self.old) }
    {
        let from = match self.units.get(number) {
            Some(unit) => list_keys_of(unit),
            None => return Ok(()),
        };
        let to = ListKeys {
            region,
            structure,
            ..from
        };
        self.lists.relist(self.alloc, number, from, to)?;
        self.units.set_place(number, region, structure);
        Ok(())
    }

    /// Puts a unit in a region, and inside a structure, or inside none for 0. A structure that it
    /// owned and leaves gets its next owner; one without an owner that it enters becomes the
    /// unit's. The unit and its row are marked, and each structure that got another owner. Where
    /// there is no such unit nothing changes. AllocError without memory, and then nothing changes
    /// either. See docs/RULES.md, "Owners".
    pub fn place(&mut self, number: u32, region: u32, structure: u32) -> Result<(), AllocError>
        ensures ok { OnOk result
            (self.new.value ≡ with_place self.old.value number region structure) }
        ensures err { OnErr result (self.new ≡ self.old) }
        ensures marks { OnOk result
            (self.new.marks ≡ (place_marked self.old number region structure).marks) }
    {
        let left = match self.units.get(number) {
            Some(unit) => unit.structure,
            None => return Ok(()),
        };
        let heir = self.heir(left, number);
        self.put(number, region, structure)?;
        if left != structure {
            self.hand_over(left, number, heir);
            self.hand_over(structure, 0, number);
        }
        Ok(())
    }

    /// Removes a unit, and marks it, its row and all its goods. No owner changes.
    fn take_unit(&mut self, number: u32)
        ensures { self.new ≡ taken_marked self.old number }
    {
        let listing = match self.units.get(number) {
            Some(unit) => list_keys_of(unit),
            None => return,
        };
        self.lists.remove(number, listing);
        self.units.remove(number);
    }

    /// Removes a unit with all that it holds. Where it owned the structure that it was inside, the
    /// structure gets its next owner, and is marked. The unit, its row and all its goods are
    /// marked. Where there is no such unit nothing changes. It takes no memory. See docs/RULES.md,
    /// "Owners".
    pub fn remove_unit(&mut self, number: u32)
        ensures what { self.new.value ≡ without_unit self.old.value number }
        ensures marks { self.new.marks ≡ (gone_marked self.old number).marks }
    {
        let left = match self.units.get(number) {
            Some(unit) => unit.structure,
            None => return,
        };
        let heir = self.heir(left, number);
        self.take_unit(number);
        self.hand_over(left, number, heir);
    }
}
