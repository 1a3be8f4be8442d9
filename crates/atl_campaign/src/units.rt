//! The units of a campaign by number, with dirty marks on their rows, all goods (items and days of
//! study), and single items and skills; `marks` has each unit with any of these. A call that
//! changes or removes a unit does nothing where no unit has the number given. `get` answers None
//! there. To set a name, men, money or the guard flag marks the unit and its row; `insert`, under a
//! number that no unit has, and `remove` also mark all its goods. If a unit lists an item with 0
//! pieces, the item is marked whatever it is set to. Where memory runs out, the answer is
//! AllocError, and after `insert` nothing has changed. An item or skill set to 0 isn't listed.
ghost use Rattle.std.specs.Prelude.{◌≡◌, ◌≤◌, ◌⊎◌, IfOk, OnOk, OnErr, option_copied, None};
ghost use Rattle.std.specs.FinMap as map;
ghost use Rattle.std.specs.FinSet as set;
ghost use Rattle.atl_world.specs.Tracking.{IsAscendingListOf};
ghost use Rattle.atl_records.specs.Limits.{holding_limit, men_limit, most_map_entries};
ghost use Rattle.atl_records.specs.Holdings.{with_amount_of};
ghost use Rattle.atl_campaign.specs.Marks.{AreUnitPartsWithin};
ghost use Rattle.atl_campaign.specs.Roster.{no_units, unmarked_units, with_unit_at, with_unit_row, with_item_at, with_skill_at, without_unit_at, item_marked_at, skill_marked_at};

use atl_containers::{Arena, SlotEntries};
use atl_records::Unit;
use atl_world::{Entries, MarkedNumbers, Marks, Numbered, Text, let_go};
use std::alloc::{AllocError, Global};
use std::marker::Model;

/// The units of a campaign by number, with dirty marks on units, rows, goods, and single items and
/// skills. A unit of which any of these is marked is marked itself.
pub(crate) struct Units {
    units: Arena<Unit>,
    // The numbers of the units of which something is marked, with room for every unit.
    marks: Marks,
    // The numbers of the units whose rows are marked, with room for every unit.
    rows: Marks,
    // The numbers of the units all of whose goods are marked, with room for every unit.
    goods: Marks,
    // The items that are marked one by one: their numbers, by the unit's number.
    items: Numbered<Numbered<()>>,
    // The skills that are marked one by one: their numbers, by the unit's number.
    skills: Numbered<Numbered<()>>,
}

impl Drop for Units {
    fn drop(self) {
        let_go!(self: Units { units, marks, rows, goods, items, skills });
    }
}

/// Clauses see the units by number with their marks. A unit whose row, goods, or single items or
/// skills are marked is marked itself. There is room to mark each unit, its row and its goods.
impl Model for Units {
    ghost use Rattle.atl_campaign.specs.Roster.{Roster, roster_code};
    ghost use Rattle.atl_campaign.specs.UnitRoom.{AreUnits};

    ghost Value = { Roster };

    ghost coded = { roster_code };

    ghost view = { λ a. record {
      values = a.units;
      marks = a.marks.numbers;
      rows = a.rows.numbers;
      goods = a.goods.numbers;
      items = a.items;
      skills = a.skills;
    } };

    ghost invariant = { λ a. AreUnits a.units a.marks a.rows a.goods a.items a.skills };
}

impl Units {
    ghost use Rattle.std.specs.Option.{option_copied_mut};
    ghost use Rattle.std.specs.Borrow.{sem};
    ghost use Rattle.atl_campaign.specs.UnitMarks.{LendsUnit, LendsRow};

    pub(crate) fn new(alloc: Global) -> Units
        ensures { result ≡ no_units }
    {
        Units {
            units: Arena::new(alloc),
            marks: Marks::new(alloc),
            rows: Marks::new(alloc),
            goods: Marks::new(alloc),
            items: Numbered::new(alloc),
            skills: Numbered::new(alloc),
        }
    }

    pub(crate) fn unmarked_from(alloc: Global, values: Arena<Unit>) -> Result<Units, AllocError>
        ensures { IfOk result (λ units. units ≡ unmarked_units values) }
    {
        let marks = Marks::with_room(alloc, values.len())?;
        let rows = Marks::with_room(alloc, values.len())?;
        let goods = Marks::with_room(alloc, values.len())?;
        Ok(Units {
            units: values,
            marks,
            rows,
            goods,
            items: Numbered::new(alloc),
            skills: Numbered::new(alloc),
        })
    }

    pub(crate) fn get(&self, number: u32) -> Option<&Unit>
        ensures { option_copied result ≡ map.get self.now.values number }
    {
        self.units.get(number)
    }

    /// The units with their numbers, in rising order.
    pub(crate) fn iter(&self) -> SlotEntries<'_, Unit>
        ensures { result ≡ map.entries self.now.values }
    {
        self.units.iter()
    }

    pub(crate) fn len(&self) -> usize
        ensures { result ≡ map.len self.now.values }
    {
        self.units.len()
    }

    /// Counts each unit of which anything is marked, also if it was removed since: 2^32 at most.
    pub(crate) fn marked_count(&self) -> usize
        ensures value { result ≡ set.len self.now.marks }
        ensures small { result ≤ most_map_entries }
        ensures within { AreUnitPartsWithin self.now.marks self.now.rows self.now.goods
            self.now.items
            self.now.skills }
    {
        self.marks.len()
    }

    pub(crate) fn marked_numbers(&self) -> MarkedNumbers<'_>
        ensures { IsAscendingListOf self.now.marks result }
    {
        self.marks.iter()
    }

    pub(crate) fn marked_rows(&self) -> MarkedNumbers<'_>
        ensures { IsAscendingListOf self.now.rows result }
    {
        self.rows.iter()
    }

    pub(crate) fn marked_goods(&self) -> MarkedNumbers<'_>
        ensures { IsAscendingListOf self.now.goods result }
    {
        self.goods.iter()
    }

    pub(crate) fn marked_items(&self) -> Entries<'_, Numbered<()>>
        ensures { result ≡ map.entries self.now.items }
    {
        self.items.iter()
    }

    pub(crate) fn marked_skills(&self) -> Entries<'_, Numbered<()>>
        ensures { result ≡ map.entries self.now.skills }
    {
        self.skills.iter()
    }

    /// Lends a unit, if there is one, and marks it, its row and all its goods. It takes no memory.
    pub(crate) fn get_mut(&mut self, number: u32) -> Option<&mut Unit>
        ensures* writes_back { sem 𝓛 (LendsUnit self.entry number result) }
        ensures value { option_copied_mut result ≡ map.get self.old.values number }
    {
        match self.units.get(number) {
            Some(_) => {}
            None => return None,
        }
        self.marks.add(number);
        self.rows.add(number);
        self.goods.add(number);
        match self.units.get_mut(number) {
            Some(unit) => Some(unit),
            None => None,
        }
    }

    /// Lends a unit, if there is one, and marks it and its row, none of its goods.
    fn row_mut(&mut self, number: u32) -> Option<&mut Unit>
        ensures* writes_back { sem 𝓛 (LendsRow self.entry number result) }
        ensures value { option_copied_mut result ≡ map.get self.old.values number }
    {
        match self.units.get(number) {
            Some(_) => {}
            None => return None,
        }
        self.marks.add(number);
        self.rows.add(number);
        match self.units.get_mut(number) {
            Some(unit) => Some(unit),
            None => None,
        }
    }

    pub(crate) fn set_name(&mut self, number: u32, name: Text)
        ensures { self.new ≡ with_unit_row
            (λ u. record u { holding = record u.holding { name = name } }) self.old number }
    {
        if let Some(unit) = self.row_mut(number) {
            unit.holding.set_name(name);
        }
    }

    pub(crate) fn set_men(&mut self, number: u32, men: u32)
        requires { men ≤ men_limit }
        ensures { self.new ≡ with_unit_row
            (λ u. record u { holding = record u.holding { men = men } }) self.old number }
    {
        if let Some(unit) = self.row_mut(number) {
            unit.holding.set_men(men);
        }
    }

    pub(crate) fn set_money(&mut self, number: u32, money: u32)
        requires { money ≤ holding_limit }
        ensures { self.new ≡ with_unit_row
            (λ u. record u { holding = record u.holding { money = money } }) self.old number }
    {
        if let Some(unit) = self.row_mut(number) {
            unit.holding.set_money(money);
        }
    }

    pub(crate) fn set_guard(&mut self, number: u32, guard: bool)
        ensures { self.new ≡ with_unit_row
            (λ u. record u { holding = record u.holding { guard = guard } }) self.old number }
    {
        if let Some(unit) = self.row_mut(number) {
            unit.holding.set_guard(guard);
        }
    }

    /// Puts a unit in a region and structure (0: none), and marks it and its row. No owner changes.
    pub(crate) fn set_place(&mut self, number: u32, region: u32, structure: u32)
        ensures { self.new ≡ with_unit_row
            (λ u. record u { region = region; structure = structure }) self.old number }
    {
        if let Some(unit) = self.row_mut(number) {
            unit.region = region;
            unit.structure = structure;
        }
    }

    /// Sets how many pieces of an item a unit has, at most 999,999,999. If it had more or fewer,
    /// the unit and that item are marked, and never its row. Without memory the units are as they
    /// were, but those marks may be set.
    pub(crate) fn set_item(
        &mut self,
        alloc: Global,
        number: u32,
        item: u32,
        amount: u32,
    ) -> Result<(), AllocError>
        requires { amount ≤ holding_limit }
        ensures ok { OnOk result
            (self.new ≡ with_item_at
            (λ u. record u {
              holding = record u.holding
                  { items = with_amount_of u.holding.items item amount };
            }) self.old number item amount) }
        ensures err { OnErr result
            ((self.new ≡ self.old) ⊎ (self.new ≡ item_marked_at self.old number item amount)) }
    {
        let Some(unit) = self.units.get_mut(number) else {
            return Ok(());
        };
        if unit.holding.has_amount(item, amount) {
            return Ok(());
        }
        self.items.insert_under(alloc, number, item, ())?;
        self.marks.add(number);
        unit.holding.set_amount(item, amount)
    }

    /// Sets a unit's days of a skill over all men, and marks the unit and that skill, not its row.
    /// Without memory the units are as they were, but those marks may be set.
    pub(crate) fn set_days(
        &mut self,
        alloc: Global,
        number: u32,
        skill: u32,
        days: u32,
    ) -> Result<(), AllocError>
        ensures ok { OnOk result
            (self.new ≡ with_skill_at
            (λ u. record u {
              holding = record u.holding
                  { days = with_amount_of u.holding.days skill days };
            }) self.old number skill) }
        ensures err { OnErr result
            ((self.new ≡ self.old) ⊎ (self.new ≡ skill_marked_at self.old number skill)) }
    {
        let Some(unit) = self.units.get_mut(number) else {
            return Ok(());
        };
        self.skills.insert_under(alloc, number, skill, ())?;
        self.marks.add(number);
        unit.holding.set_days(skill, days)
    }

    pub(crate) fn insert(&mut self, number: u32, unit: Unit) -> Result<(), AllocError>
        requires { map.get self.old.values number ≡ None }
        ensures ok { OnOk result (self.new ≡ with_unit_at self.old number unit) }
        ensures err { OnErr result (self.new ≡ self.old) }
    {
        let room = self.units.len() + 1;
        self.marks.make_room(room)?;
        self.rows.make_room(room)?;
        self.goods.make_room(room)?;
        self.units.insert(number, unit)?;
        self.marks.add(number);
        self.rows.add(number);
        self.goods.add(number);
        Ok(())
    }

    pub(crate) fn remove(&mut self, number: u32)
        ensures { self.new ≡ without_unit_at self.old number }
    {
        if self.units.remove(number) {
            self.marks.add(number);
            self.rows.add(number);
            self.goods.add(number);
        }
    }

    pub(crate) fn unmark(&mut self)
        ensures { self.new ≡ unmarked_units self.old.values }
    {
        self.marks.clear();
        self.rows.clear();
        self.goods.clear();
        self.items.clear();
        self.skills.clear();
    }
}
