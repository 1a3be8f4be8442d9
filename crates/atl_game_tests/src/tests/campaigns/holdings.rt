//! Tests of `Holding` (what a unit has): each call that sets a value, and the reads after it.
use super::making::one_man;
use crate::tests::compare::{assert_amount, assert_row_text};
use atl_campaign::Holding;
use atl_world::{Entries, Text};
use std::alloc::Global;
use std::process::Abort;
use std::test::Fail;

#[derive(Drop, Clone, Copy)]
enum Set {
    Nothing,
    Name(&'static str),
    Men(u32),
    Money(u32),
    Guard(bool),
    Amount(u32, u32),
    Days(u32, u32),
}

/// Calls made in turn on the holding of one man, and the holding after each as `text_of` prints it.
static CALLS: [(Set, &str); 15] = [
    (
        Set::Nothing,
        "A man: 1 men, 0 money, guard: false, items [], days []",
    ),
    (
        Set::Name("Guards"),
        "Guards: 1 men, 0 money, guard: false, items [], days []",
    ),
    (
        Set::Men(999_999),
        "Guards: 999999 men, 0 money, guard: false, items [], days []",
    ),
    (
        Set::Money(999_999_999),
        "Guards: 999999 men, 999999999 money, guard: false, items [], days []",
    ),
    (
        Set::Guard(true),
        "Guards: 999999 men, 999999999 money, guard: true, items [], days []",
    ),
    (
        Set::Guard(false),
        "Guards: 999999 men, 999999999 money, guard: false, items [], days []",
    ),
    (
        Set::Amount(7, 999_999_999),
        "Guards: 999999 men, 999999999 money, guard: false, items [7, 999999999], days []",
    ),
    (
        Set::Amount(2, 3),
        "Guards: 999999 men, 999999999 money, guard: false, items [2, 3, 7, 999999999], days []",
    ),
    (
        Set::Days(5, 450),
        "Guards: 999999 men, 999999999 money, guard: false, items [2, 3, 7, 999999999], days [5, 450]",
    ),
    (
        Set::Days(1, 30),
        "Guards: 999999 men, 999999999 money, guard: false, items [2, 3, 7, 999999999], days [1, 30, 5, 450]",
    ),
    // One thing is lowered, and one taken away; of what was never there nothing is taken.
    (
        Set::Amount(7, 1),
        "Guards: 999999 men, 999999999 money, guard: false, items [2, 3, 7, 1], days [1, 30, 5, 450]",
    ),
    (
        Set::Amount(2, 0),
        "Guards: 999999 men, 999999999 money, guard: false, items [7, 1], days [1, 30, 5, 450]",
    ),
    (
        Set::Amount(9, 0),
        "Guards: 999999 men, 999999999 money, guard: false, items [7, 1], days [1, 30, 5, 450]",
    ),
    (
        Set::Days(5, 0),
        "Guards: 999999 men, 999999999 money, guard: false, items [7, 1], days [1, 30]",
    ),
    (
        Set::Days(9, 0),
        "Guards: 999999 men, 999999999 money, guard: false, items [7, 1], days [1, 30]",
    ),
];

fn sets(alloc: Global, holding: &mut Holding, part: Set) -> Result<(), Fail> {
    match part {
        Set::Nothing => (),
        Set::Name(name) => holding.set_name(Text::from_str(alloc, name)?),
        Set::Men(men) if men <= 999_999 => holding.set_men(men),
        Set::Money(money) if money <= 999_999_999 => holding.set_money(money),
        Set::Guard(guard) => holding.set_guard(guard),
        Set::Amount(item, amount) if amount <= 999_999_999 => {
            holding.set_amount(item, amount)?;
        }
        Set::Days(skill, days) => holding.set_days(skill, days)?,
        _ => return Err(Fail::new("past a limit")),
    }
    Ok(())
}

fn listed(alloc: Global, goods: Entries<'_, u32>) -> Result<Vec<u32>, Fail> {
    let mut numbers = Vec::new(alloc);
    for (number, amount) in goods {
        numbers.push(number)?;
        numbers.push(*amount)?;
    }
    Ok(numbers)
}

fn text_of(alloc: Global, holding: &Holding) -> Result<String, Fail> {
    let (name, guard) = (holding.name().as_str(), holding.guard());
    let (men, money) = (holding.men(), holding.money());
    let items = listed(alloc, holding.items())?;
    let days = listed(alloc, holding.days())?;
    let (items, days) = (items.as_slice(), days.as_slice());
    Ok(format!(in alloc;
        "{name}: {men} men, {money} money, guard: {guard}, items {items:?}, days {days:?}"
    )?)
}

fn set_all(rt: &impl Abort, alloc: Global, holding: &mut Holding) -> Result<(), Fail> {
    for (row, (part, wanted)) in CALLS.iter().enumerate() {
        sets(alloc, holding, *part)?;
        assert_row_text(rt, row, text_of(alloc, holding)?.as_str(), wanted);
    }
    Ok(())
}

fn assert_amounts(rt: &impl Abort, holding: &Holding) {
    assert_amount(rt, holding.amount(7), 1);
    assert_amount(rt, holding.amount(2), 0);
    assert_amount(rt, holding.amount(9), 0);
    assert_amount(rt, holding.days_of(5), 0);
    assert_amount(rt, holding.days_of(1), 30);
}

#[test]
fn setting_parts_of_a_holding(rt: HostRuntime) -> Result<(), Fail> {
    let mut holding = one_man(rt.alloc())?;
    set_all(&rt, rt.alloc(), &mut holding)?;
    assert_amounts(&rt, &holding);
    Ok(())
}
