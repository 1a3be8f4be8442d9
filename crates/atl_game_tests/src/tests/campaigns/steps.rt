//! Steps: calls that change a campaign, as values, which the rows of a test's table of cases name.
use super::making::{man_comes, structure_begins};
use atl_campaign::{Campaign, Holding};
use atl_world::{Sequence, Text};
use std::alloc::Global;
use std::test::Fail;

/// A call on a campaign. The number next to a change is that of the faction, region, unit or
/// structure changed.
#[derive(Drop, Clone, Copy)]
pub(crate) enum Step {
    Nothing,
    Unmark,
    Month(u32),
    ClearMail,
    Faction(u32, FactionChange),
    Region(u32, RegionChange),
    Unit(u32, UnitChange),
    Structure(u32, StructureChange),
    /// A unit of one man of a faction is added in region Far; the second number is the one it must
    /// get.
    Comes(u32, u32),
    /// A structure of a kind is begun in region Far, without an owner; the second number is the one
    /// it must get.
    Begins(u16, u32),
}

#[derive(Drop, Clone, Copy)]
pub(crate) enum FactionChange {
    Name(&'static str),
    Gone,
    Mail(&'static str),
    Report(&'static str),
}

#[derive(Drop, Clone, Copy)]
pub(crate) enum RegionChange {
    Peasants(u32),
    Money(u32),
    Stock(u32, u32),
}

#[derive(Drop, Clone, Copy)]
pub(crate) enum UnitChange {
    Name(&'static str),
    Men(u32),
    Money(u32),
    Guard(bool),
    Item(u32, u32),
    Days(u32, u32),
    /// Money, set through the holding that is lent.
    LentMoney(u32),
    /// An item and its amount, set through the holding that is lent.
    LentItem(u32, u32),
    Place(u32, u32),
    Remove,
}

#[derive(Drop, Clone, Copy)]
pub(crate) enum StructureChange {
    Name(&'static str),
    Region(u32),
    Done(u32),
    Owner(u32),
}

fn change_faction(
    alloc: Global,
    campaign: &mut Campaign,
    faction: u32,
    change: FactionChange,
) -> Result<(), Fail> {
    match change {
        FactionChange::Name(name) => campaign.set_faction_name(
            faction,
            Text::from_str(alloc, name)?,
        ),
        FactionChange::Gone => campaign.set_gone(faction),
        FactionChange::Mail(text) => {
            campaign.set_mail(faction, Sequence::from_slice(alloc, text.as_bytes())?)?;
        }
        FactionChange::Report(text) => campaign.set_report(faction, Text::from_str(alloc, text)?)?,
    }
    Ok(())
}

fn change_region(campaign: &mut Campaign, region: u32, change: RegionChange) -> Result<(), Fail> {
    match change {
        RegionChange::Peasants(peasants) => campaign.set_peasants(region, peasants),
        RegionChange::Money(money) => campaign.set_region_money(region, money),
        RegionChange::Stock(item, amount) => campaign.set_stock(region, item, amount)?,
    }
    Ok(())
}

fn changes_lent(lent: Option<&mut Holding>, change: UnitChange) -> Result<(), Fail> {
    let Some(holding) = lent else {
        return Ok(());
    };
    match change {
        UnitChange::LentMoney(money) if money <= 999_999_999 => holding.set_money(money),
        UnitChange::LentItem(item, amount) if amount <= 999_999_999 => {
            holding.set_amount(item, amount)?;
        }
        _ => return Err(Fail::new("past a limit")),
    }
    Ok(())
}

fn change_unit(
    alloc: Global,
    campaign: &mut Campaign,
    unit: u32,
    change: UnitChange,
) -> Result<(), Fail> {
    match change {
        UnitChange::Name(name) => campaign.set_unit_name(unit, Text::from_str(alloc, name)?),
        UnitChange::Men(men) if men <= 999_999 => campaign.set_men(unit, men),
        UnitChange::Money(money) if money <= 999_999_999 => campaign.set_money(unit, money),
        UnitChange::Guard(guard) => campaign.set_guard(unit, guard),
        UnitChange::Item(item, amount) if amount <= 999_999_999 => {
            campaign.set_item(unit, item, amount)?;
        }
        UnitChange::Days(skill, days) => campaign.set_days(unit, skill, days)?,
        UnitChange::Place(region, structure) => campaign.place(unit, region, structure)?,
        UnitChange::Remove => campaign.remove_unit(unit),
        _ => changes_lent(campaign.unit_mut(unit), change)?,
    }
    Ok(())
}

fn change_structure(
    alloc: Global,
    campaign: &mut Campaign,
    structure: u32,
    change: StructureChange,
) -> Result<(), Fail> {
    match change {
        StructureChange::Name(name) => {
            campaign.set_structure_name(structure, Text::from_str(alloc, name)?);
        }
        StructureChange::Region(region) => campaign.set_structure_region(structure, region),
        StructureChange::Done(done) => campaign.set_done(structure, done),
        StructureChange::Owner(owner) => campaign.set_owner(structure, owner),
    }
    Ok(())
}

fn got_number(actual: u32, number: u32) -> Result<(), Fail> {
    if actual == number {
        Ok(())
    } else {
        Err(Fail::new("another number"))
    }
}

pub(crate) fn make_step(alloc: Global, campaign: &mut Campaign, step: Step) -> Result<(), Fail> {
    match step {
        Step::Nothing => (),
        Step::Unmark => campaign.unmark(),
        Step::Month(month) => campaign.set_month(month),
        Step::ClearMail => campaign.clear_mail(),
        Step::Faction(faction, change) => change_faction(alloc, campaign, faction, change)?,
        Step::Region(region, change) => change_region(campaign, region, change)?,
        Step::Unit(unit, change) => change_unit(alloc, campaign, unit, change)?,
        Step::Structure(structure, change) => {
            change_structure(alloc, campaign, structure, change)?;
        }
        Step::Comes(faction, number) => got_number(man_comes(alloc, campaign, faction)?, number)?,
        Step::Begins(kind, number) => got_number(structure_begins(alloc, campaign, kind)?, number)?,
    }
    Ok(())
}

pub(crate) fn make_steps(
    alloc: Global,
    campaign: &mut Campaign,
    steps: &[Step],
) -> Result<(), Fail> {
    for step in steps.iter() {
        make_step(alloc, campaign, *step)?;
    }
    Ok(())
}
