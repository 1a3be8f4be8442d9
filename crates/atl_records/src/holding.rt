//! The holding of a unit: name, men, money, guard flag, items and days.
ghost use Rattle.std.specs.Prelude.{◌≡◌, ◌≤◌, ℕ, OnOk, OnErr, IsOk, false};
ghost use Rattle.std.specs.FinMap as map;
ghost use Rattle.atl_records.specs.Limits.{men_limit, holding_limit};
ghost use Rattle.atl_records.specs.Holdings.{amount_of, has_amount, with_amount_of, AreAmounts};

use atl_world::{Entries, Numbered, Text, let_go};
use std::alloc::AllocError;
use std::marker::Model;

/// A unit's name, men, money, guard flag, items and days of study. It has at most MEN_LIMIT men,
/// and at most HOLDING_LIMIT of money and pieces of each item. Days of study are those of all men
/// together. See docs/RULES.md, "Limits" and "Levels and loads".
pub struct Holding {
    name: Text,
    men: u32,
    money: u32,
    guard: bool,
    // How many pieces of each item are held, where they are not 0.
    items: Numbered<u32>,
    // The days of each skill over all men, where they are not 0, or a stored row lists them with 0.
    days: Numbered<u32>,
}

impl Drop for Holding {
    fn drop(self) {
        let_go!(self: Holding { name, men, money, guard, items, days });
    }
}

impl Model for Holding {
    ghost use Rattle.std.specs.Prelude.{◌≤◌};
    ghost use Rattle.atl_records.specs.Holdings.{HoldingValue, holding_code, IsHolding};

    ghost Value = { HoldingValue };

    ghost coded = { holding_code };

    ghost view = { λ a. record {
      name = a.name;
      men = a.men;
      money = a.money;
      guard = a.guard;
      items = a.items;
      days = a.days;
    } };

    ghost invariant = { λ a. IsHolding (record {
      name = a.name;
      men = a.men;
      money = a.money;
      guard = a.guard;
      items = a.items;
      days = a.days;
    }) };
}

/// The amount that a map has under a number (pieces of an item, days of a skill), 0 without one.
pub fn amount_under(amounts: &Numbered<u32>, number: u32) -> u32
    ensures { result ≡ amount_of amounts.now number }
{
    match amounts.get(number) {
        Some(amount) => *amount,
        None => 0,
    }
}

/// Sets the amount that a map has under a number (pieces of an item, days of a skill). An amount of
/// 0 takes the number out, which takes no memory. AllocError without memory; then nothing changes.
pub fn put_amount(amounts: &mut Numbered<u32>, number: u32, amount: u32) -> Result<(), AllocError>
    ensures ok { OnOk result (amounts.new ≡ with_amount_of amounts.old number amount) }
    ensures err { OnErr result (amounts.new ≡ amounts.old) }
    ensures none { amount ≡ 0 → IsOk result }
{
    if amount == 0 {
        amounts.remove(number);
        return Ok(());
    }
    amounts.insert(number, amount)
}

impl Holding {
    /// A holding of at most MEN_LIMIT men, at most HOLDING_LIMIT of money, and from 1 to
    /// HOLDING_LIMIT pieces of each listed item. The days of each skill are over all men; the guard
    /// flag is clear. The call takes no memory.
    pub fn new(
        name: Text,
        men: u32,
        money: u32,
        items: Numbered<u32>,
        days: Numbered<u32>,
    ) -> Holding
        requires few { men ≤ men_limit }
        requires fits { money ≤ holding_limit }
        requires items { AreAmounts items }
        ensures { result ≡ record
            { name = name; men = men; money = money; guard = false; items = items; days = days } }
    {
        Holding {
            name,
            men,
            money,
            guard: false,
            items,
            days,
        }
    }

    pub fn name(&self) -> &Text
        ensures { result.now ≡ self.now.name }
    {
        &self.name
    }

    /// How many men the unit has, from 0 to MEN_LIMIT.
    pub fn men(&self) -> u32
        ensures value { result ≡ self.now.men }
        ensures fits { self.now.men ≤ men_limit }
    {
        self.men
    }

    /// How much money the unit has, from 0 to HOLDING_LIMIT.
    pub fn money(&self) -> u32
        ensures value { result ≡ self.now.money }
        ensures fits { self.now.money ≤ holding_limit }
    {
        self.money
    }

    /// Whether the unit's guard flag is set. A unit guards only if it has men too.
    pub fn guard(&self) -> bool
        ensures { result ≡ self.now.guard }
    {
        self.guard
    }

    /// How many pieces of an item the unit holds, from 0 to HOLDING_LIMIT.
    pub fn amount(&self, item: u32) -> u32
        ensures { result ≡ amount_of self.now.items item }
    {
        amount_under(&self.items, item)
    }

    /// Whether the unit holds exactly `amount` pieces of an item.
    pub fn has_amount(&self, item: u32, amount: u32) -> bool
        ensures { result ≡ has_amount self.now.items item amount }
    {
        match self.items.get(item) {
            Some(listed) => amount != 0 && *listed == amount,
            None => amount == 0,
        }
    }

    /// How many pieces the unit holds of each item, where they are not 0, sorted by item number.
    pub fn items(&self) -> Entries<'_, u32>
        ensures { result ≡ map.entries self.now.items }
    {
        self.items.iter()
    }

    /// The days of study over all men of the unit in each skill in which it has some, sorted by
    /// skill number. Days of 0 that a stored row has (`put_days`) are among them.
    pub fn days(&self) -> Entries<'_, u32>
        ensures { result ≡ map.entries self.now.days }
    {
        self.days.iter()
    }

    /// The days of study of a skill over all men of the unit, 0 where none are listed.
    pub fn days_of(&self, skill: u32) -> u32
        ensures { result ≡ amount_of self.now.days skill }
    {
        amount_under(&self.days, skill)
    }

    /// Sets the unit's name. It takes no memory.
    pub fn set_name(&mut self, name: Text)
        ensures { self.new ≡ record self.old { name = name } }
    {
        self.name = name;
    }

    /// Sets how many men the unit has, at most MEN_LIMIT, and leaves its days of study as they are.
    /// It takes no memory.
    pub fn set_men(&mut self, men: u32)
        requires { men ≤ men_limit }
        ensures { self.new ≡ record self.old { men = men } }
    {
        self.men = men;
    }

    /// Sets how many pieces of an item are held, at most HOLDING_LIMIT. An amount of 0 takes the
    /// item off the list, which takes no memory. AllocError without memory; then nothing changes.
    pub fn set_amount(&mut self, item: u32, amount: u32) -> Result<(), AllocError>
        requires { amount ≤ holding_limit }
        ensures ok { OnOk result
            (self.new ≡ record self.old { items = with_amount_of self.old.items item amount }) }
        ensures err { OnErr result (self.new ≡ self.old) }
        ensures none { amount ≡ 0 → IsOk result }
    {
        put_amount(&mut self.items, item, amount)
    }

    /// Sets the days of study of a skill over all men. Days of 0 take the skill off the list, which
    /// takes no memory. AllocError without memory, and then nothing changes.
    pub fn set_days(&mut self, skill: u32, days: u32) -> Result<(), AllocError>
        ensures ok { OnOk result
            (self.new ≡ record self.old { days = with_amount_of self.old.days skill days }) }
        ensures err { OnErr result (self.new ≡ self.old) }
        ensures none { days ≡ 0 → IsOk result }
    {
        put_amount(&mut self.days, skill, days)
    }

    /// Sets how many pieces of an item are held, from 1 to HOLDING_LIMIT, as a stored row says.
    /// AllocError without memory, and then nothing changes.
    pub fn put_item(&mut self, item: u32, amount: u32) -> Result<(), AllocError>
        requires { (1 ≤ amount) × (amount ≤ holding_limit) }
        ensures ok { OnOk result
            (self.new ≡ record self.old { items = map.insert self.old.items item amount }) }
        ensures err { OnErr result (self.new ≡ self.old) }
    {
        self.items.insert(item, amount)
    }

    /// Sets the days of a skill over all men, as a stored row says; days of 0 are listed too.
    /// AllocError without memory, and then nothing changes.
    pub fn put_days(&mut self, skill: u32, days: u32) -> Result<(), AllocError>
        ensures ok { OnOk result
            (self.new ≡ record self.old { days = map.insert self.old.days skill days }) }
        ensures err { OnErr result (self.new ≡ self.old) }
    {
        self.days.insert(skill, days)
    }

    /// Sets how much money the unit has, at most HOLDING_LIMIT. It takes no memory.
    pub fn set_money(&mut self, money: u32)
        requires { money ≤ holding_limit }
        ensures { self.new ≡ record self.old { money = money } }
    {
        self.money = money;
    }

    /// Sets or clears the unit's guard flag. It takes no memory.
    pub fn set_guard(&mut self, guard: bool)
        ensures { self.new ≡ record self.old { guard = guard } }
    {
        self.guard = guard;
    }

    /// Replaces the days of study in all skills by new ones, over all men. It takes no memory.
    pub fn set_all_days(&mut self, days: Numbered<u32>)
        ensures { self.new ≡ record self.old { days = days } }
    {
        self.days = days;
    }
}
