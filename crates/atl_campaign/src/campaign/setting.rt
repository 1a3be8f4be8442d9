//! Calls that set one value of a campaign. Where no faction, region, unit or structure has the
//! number given, nothing changes. Only `set_stock`, `set_item` and `set_days` take memory. A unit's
//! goods are its items and days of study. With a unit's row or one of its goods the unit is marked
//! too. With a stock its region is marked as one with a marked stock. If a unit lists an item with
//! 0 pieces, the item is marked whatever it is set to. Items and days of 0 aren't listed.
ghost use Rattle.std.specs.Prelude.{◌≡◌, ◌≤◌, ◌<◌, ◌⊎◌, ◌+ℤ◌, IsOk, OnErr, OnOk};
ghost use Rattle.std.specs.Int.{w64};
ghost use Rattle.std.specs.Int.RustNames.{FitsSigned};
ghost use Rattle.atl_records.specs.Books.{amount_in, thing_index};
ghost use Rattle.atl_records.specs.Limits.{holding_limit, men_limit};
ghost use Rattle.atl_campaign.specs.Marking.{MarksStock, mark_campaign_row, mark_faction, mark_peasants, mark_region_money, mark_structure, mark_unit_row, mark_item, mark_skill, item_marked, skill_marked, mark_amount, mark_all_mail};
ghost use Rattle.atl_campaign.specs.Campaign.{with_month, with_faction_name, with_gone, with_peasants, with_region_money, with_stock, with_unit_name, with_men, with_money, with_item, with_skill, with_guard, with_done, with_structure_name, with_structure_region, with_owner, with_booking, without_mail};

use super::Campaign;
use atl_records::{BooksEntry, Thing, amount_number};
use atl_world::Text;
use std::alloc::AllocError;

impl Campaign {
    /// Sets the month last closed, in a good campaign 0 to LAST_MONTH, and marks the campaign row.
    pub fn set_month(&mut self, month: u32)
        ensures what { self.new.value ≡ with_month self.old.value month }
        ensures marks { self.new.marks ≡ mark_campaign_row self.old }
    {
        self.month = month;
        self.row_marked = true;
    }

    /// Sets the name of a faction, not the one that it joined under, and marks the faction.
    pub fn set_faction_name(&mut self, number: u32, name: Text)
        ensures what { self.new.value ≡ with_faction_name self.old.value number name }
        ensures marks { self.new.marks ≡ mark_faction self.old number }
    {
        if let Some(faction) = self.factions.get_mut(number) {
            faction.name = name;
        }
    }

    /// Sets the flag `gone` of a faction, and marks the faction.
    pub fn set_gone(&mut self, number: u32)
        ensures what { self.new.value ≡ with_gone self.old.value number }
        ensures marks { self.new.marks ≡ mark_faction self.old number }
    {
        if let Some(faction) = self.factions.get_mut(number) {
            faction.gone = true;
        }
    }

    /// Sets how many peasants a region has. If it had others, its row is marked, and none of its
    /// stocks. In a good campaign there are 0 to atl_world's MOST_AMOUNT.
    pub fn set_peasants(&mut self, region: u32, peasants: u32)
        ensures what { self.new.value ≡ with_peasants self.old.value region peasants }
        ensures marks { self.new.marks ≡ mark_peasants self.old region peasants }
    {
        self.regions.set_peasants(region, peasants);
    }

    /// Sets how much money a region has. If it had another amount, its row is marked, and none of
    /// its stocks. In a good campaign it is 0 to atl_world's MOST_AMOUNT.
    pub fn set_region_money(&mut self, region: u32, money: u32)
        ensures what { self.new.value ≡ with_region_money self.old.value region money }
        ensures marks { self.new.marks ≡ mark_region_money self.old region money }
    {
        self.regions.set_money(region, money);
    }

    /// Sets how many pieces of an item a region has in stock. In a good campaign it is at most the
    /// limit of its market there. If there were more or fewer, that stock is marked alone, or all
    /// stocks of the region where there is no memory for that mark, and not the region's row. An
    /// item of which there is 0 isn't listed, which needs no memory. AllocError without memory, and
    /// then the campaign is as it was, but for that mark.
    pub fn set_stock(&mut self, region: u32, item: u32, amount: u32) -> Result<(), AllocError>
        ensures ok { OnOk result (self.new.value ≡ with_stock self.old.value region item amount) }
        ensures err { OnErr result (self.new.value ≡ self.old.value) }
        ensures none { amount ≡ 0 → IsOk result }
        ensures marks { MarksStock self.old region item amount self.new.marks }
    {
        self.regions.mark_stock(self.alloc, region, item, amount);
        self.regions.put_stock(region, item, amount)
    }

    /// Sets the name of a unit, and marks its row, none of its goods.
    pub fn set_unit_name(&mut self, unit: u32, name: Text)
        ensures what { self.new.value ≡ with_unit_name self.old.value unit name }
        ensures marks { self.new.marks ≡ mark_unit_row self.old unit }
    {
        self.units.set_name(unit, name);
    }

    /// Sets how many men a unit has, at most MEN_LIMIT, and marks its row, none of its goods. Its
    /// days of study stay as they are.
    pub fn set_men(&mut self, unit: u32, men: u32)
        requires { men ≤ men_limit }
        ensures what { self.new.value ≡ with_men self.old.value unit men }
        ensures marks { self.new.marks ≡ mark_unit_row self.old unit }
    {
        self.units.set_men(unit, men);
    }

    /// Sets a unit's money, at most HOLDING_LIMIT, and marks its row, none of its goods.
    pub fn set_money(&mut self, unit: u32, money: u32)
        requires { money ≤ holding_limit }
        ensures what { self.new.value ≡ with_money self.old.value unit money }
        ensures marks { self.new.marks ≡ mark_unit_row self.old unit }
    {
        self.units.set_money(unit, money);
    }

    /// Sets how many pieces of an item a unit has, at most HOLDING_LIMIT. If it had more or fewer,
    /// that item is marked, and not the unit's row or another of its goods. AllocError without
    /// memory, and then the campaign is as it was, but that mark may be set.
    pub fn set_item(&mut self, unit: u32, item: u32, amount: u32) -> Result<(), AllocError>
        requires { amount ≤ holding_limit }
        ensures ok { OnOk result (self.new.value ≡ with_item self.old.value unit item amount) }
        ensures err { OnErr result
            ((self.new ≡ self.old) ⊎ (self.new ≡ item_marked self.old unit item amount)) }
        ensures marks { OnOk result (self.new.marks ≡ mark_item self.old unit item amount) }
    {
        self.units.set_item(self.alloc, unit, item, amount)
    }

    /// Sets a unit's days of study of a skill over all men, and marks that skill, not the unit's
    /// row or another of its goods. AllocError without memory, and then the campaign is as it was,
    /// but that mark may be set.
    pub fn set_days(&mut self, unit: u32, skill: u32, days: u32) -> Result<(), AllocError>
        ensures ok { OnOk result (self.new.value ≡ with_skill self.old.value unit skill days) }
        ensures err { OnErr result
            ((self.new ≡ self.old) ⊎ (self.new ≡ skill_marked self.old unit skill)) }
        ensures marks { OnOk result (self.new.marks ≡ mark_skill self.old unit skill) }
    {
        self.units.set_days(self.alloc, unit, skill, days)
    }

    /// Sets or clears a unit's guard flag, and marks its row, none of its goods.
    pub fn set_guard(&mut self, unit: u32, guard: bool)
        ensures what { self.new.value ≡ with_guard self.old.value unit guard }
        ensures marks { self.new.marks ≡ mark_unit_row self.old unit }
    {
        self.units.set_guard(unit, guard);
    }

    /// Sets how much of a structure is done, and marks the structure. In a good campaign it is 1 to
    /// the size of its kind.
    pub fn set_done(&mut self, structure: u32, done: u32)
        ensures what { self.new.value ≡ with_done self.old.value structure done }
        ensures marks { self.new.marks ≡ mark_structure self.old structure }
    {
        if let Some(found) = self.structures.get_mut(structure) {
            found.done = done;
        }
    }

    /// Sets a structure's name, and marks the structure.
    pub fn set_structure_name(&mut self, structure: u32, name: Text)
        ensures what { self.new.value ≡ with_structure_name self.old.value structure name }
        ensures marks { self.new.marks ≡ mark_structure self.old structure }
    {
        if let Some(found) = self.structures.get_mut(structure) {
            found.name = name;
        }
    }

    /// Sets a structure's region, and marks the structure. The units inside stay where they are.
    pub fn set_structure_region(&mut self, structure: u32, region: u32)
        ensures what { self.new.value ≡ with_structure_region self.old.value structure region }
        ensures marks { self.new.marks ≡ mark_structure self.old structure }
    {
        if let Some(found) = self.structures.get_mut(structure) {
            found.region = region;
        }
    }

    /// Sets a structure's owner, a unit's number or 0 for nobody, and marks the structure.
    pub fn set_owner(&mut self, structure: u32, owner: u32)
        ensures what { self.new.value ≡ with_owner self.old.value structure owner }
        ensures marks { self.new.marks ≡ mark_structure self.old structure }
    {
        if let Some(found) = self.structures.get_mut(structure) {
            found.owner = owner;
        }
    }

    /// Adds an amount to what is booked of a thing under an entry, and marks that amount. It counts
    /// money, men and peasants, or pieces of an item, and may be negative. The thing has to be one
    /// of the books' things. The sum has to fit i64; 0 isn't listed. See docs/RULES.md, "Books".
    pub fn book(&mut self, entry: BooksEntry, thing: Thing, amount: i64)
        requires there { thing_index thing < self.old.value.books.things }
        requires fits { FitsSigned w64 (amount_in self.old.value.books entry thing +ℤ amount) }
        ensures what { self.new.value ≡ with_booking self.old.value entry thing amount }
        ensures marks { self.new.marks ≡ mark_amount self.old entry thing }
    {
        self.books.book(entry, thing, amount);
        self.amounts_marked.add(amount_number(entry, thing));
    }

    /// Removes all mail, and marks the mail of each faction that had some.
    pub fn clear_mail(&mut self)
        ensures what { self.new.value ≡ without_mail self.old.value }
        ensures marks { self.new.marks ≡ mark_all_mail self.old }
    {
        self.mail.clear();
    }
}
