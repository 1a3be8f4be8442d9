//! Steps that change the campaign in memory, a function for each.
use atl_campaign::{BooksEntry, Campaign, HOLDING_LIMIT, Holding, Structure, Thing};
use atl_world::Text;
use std::alloc::Global;
use std::test::Fail;

/// The up to three numbers of a text, separated by blanks; a missing one is 0.
pub(crate) fn numbers(text: &str) -> Result<[u32; 3], Fail> {
    let mut all = [0; 3];
    let mut words = text.split_whitespace();
    for number in all.iter_mut() {
        if let Some(word) = words.next() {
            *number = word.parse::<u32>()?;
        }
    }
    Ok(all)
}

/// `money 1 8` sets unit 1's money to 8, `item 1 2 5` its item 2 to 5, and `days 1 4 90` its days
/// of skill 4 to 90.
fn set_amount(
    campaign: &mut Campaign,
    what: &str,
    [unit, first, second]: [u32; 3],
) -> Result<(), Fail> {
    if first > HOLDING_LIMIT || second > HOLDING_LIMIT {
        return Err(Fail::new("an amount that fits"));
    }
    match what {
        "money" => campaign.set_money(unit, first),
        "item" => campaign.set_item(unit, first, second)?,
        "days" => campaign.set_days(unit, first, second)?,
        _ => return Err(Fail::new("what is set")),
    }
    Ok(())
}

/// Sets a number of the campaign, as `text` says: `peasants 1 77` sets the peasants of region 1 to
/// 77.
pub(crate) fn set(campaign: &mut Campaign, text: &str) -> Result<(), Fail> {
    let (what, rest) = text.split_once(' ').ok_or("what is set")?;
    let [of, first, second] = numbers(rest)?;
    match what {
        "month" => campaign.set_month(of),
        "peasants" => campaign.set_peasants(of, first),
        "stock" => campaign.set_stock(of, first, second)?,
        _ => set_amount(campaign, what, [of, first, second])?,
    }
    Ok(())
}

fn set_lent(holding: &mut Holding, what: &str, first: u32, second: u32) -> Result<(), Fail> {
    if first > HOLDING_LIMIT {
        return Err(Fail::new("an amount that fits"));
    }
    match what {
        "nothing" => {}
        "money" => holding.set_money(first),
        "days" => holding.set_days(first, second)?,
        "guard" => holding.set_guard(first == 1),
        _ => return Err(Fail::new("what is set of a unit that is lent")),
    }
    Ok(())
}

/// Changes a unit through its holding, which the campaign lends and marks whole: `days 3 1 30` sets
/// unit 3's days of skill 1 to 30.
pub(crate) fn lend(campaign: &mut Campaign, text: &str) -> Result<(), Fail> {
    let (what, rest) = text.split_once(' ').ok_or("what is lent")?;
    let [unit, first, second] = numbers(rest)?;
    let Some(holding) = campaign.unit_mut(unit) else {
        return Err(Fail::new("a unit"));
    };
    set_lent(holding, what, first, second)
}

pub(crate) fn remove(campaign: &mut Campaign, text: &str) -> Result<(), Fail> {
    campaign.remove_unit(text.parse::<u32>()?);
    Ok(())
}

pub(crate) fn rename(alloc: Global, campaign: &mut Campaign, name: &str) -> Result<(), Fail> {
    campaign.set_faction_name(1, Text::from_str(alloc, name)?);
    Ok(())
}

pub(crate) fn report(alloc: Global, campaign: &mut Campaign, line: &str) -> Result<(), Fail> {
    let text = Text::from_string(format!(in alloc; "{line}\n")?);
    campaign.set_report(1, text)?;
    Ok(())
}

/// Begins a structure of the first kind, with this name, in region 1: 2 of it are built, and unit 1
/// owns it.
pub(crate) fn begin(alloc: Global, campaign: &mut Campaign, name: &str) -> Result<(), Fail> {
    let name = Text::from_str(alloc, name)?;
    if campaign.next_structure() != 1 || campaign.structure(1).is_some() {
        return Err(Fail::new("a free number"));
    }
    let _number = campaign.begin_structure(Structure {
        kind: 0,
        name,
        region: 1,
        done: 2,
        owner: 1,
    })?;
    Ok(())
}

pub(crate) fn book(campaign: &mut Campaign, text: &str) -> Result<(), Fail> {
    let amount = text.parse::<i64>()?;
    if campaign.things() < 2 {
        return Err(Fail::new("money"));
    }
    let booked = campaign.booked(BooksEntry::Income, Thing::Money);
    if booked.checked_add(amount).is_none() {
        return Err(Fail::new("an amount that fits"));
    }
    campaign.book(BooksEntry::Income, Thing::Money, amount);
    Ok(())
}
