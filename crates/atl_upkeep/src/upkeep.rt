//! The phase of upkeep: units pay, and men who aren't paid for starve. AllocError without memory;
//! campaign and month may then be changed in part. See docs/RULES.md, "Upkeep".
ghost use Rattle.std.specs.Prelude.{◌≡◌, ◌≤◌, ◌++◌, All, IfOk, OnOk, Some, filter, map};
ghost use Rattle.atl_world.specs.Worlds.{WorldValue};
ghost use Rattle.atl_campaign.specs.Covers.{MarksChanges};
ghost use Rattle.atl_phase.specs.Holdings.{MarksNoGoods, MarksNoItems};
ghost use Rattle.atl_phase.specs.Meaning.{most_moved};
ghost use Rattle.atl_phase.specs.Bounds.{CanInTurn};
ghost use Rattle.atl_shares.specs.UpkeepSharing.{IsUpkeepInput};
ghost use Rattle.atl_upkeep.specs.UpkeepTaken.{CanPayUpkeep, IsAfterUpkeep, staying_list};
ghost use Rattle.atl_upkeep.specs.Upkeep.{starved_event, starves, takes_up_to, upkeep, upkeep_at, upkeep_inputs_of, upkeep_keeps, upkeep_meaning};

use atl_campaign::{BooksEntry, Campaign, Event, EventVerb, Holding, Outcome, Thing};
use atl_phase::{Month, Phase, PhaseResult, book_taken, set_people};
use atl_shares::{UpkeepInput, UpkeepResult, upkeep_payments};
use atl_world::World;
use std::alloc::{AllocError, Global};

/// The upkeep of all units: those of one faction in one region pay for each other, and men who
/// aren't paid for starve. See docs/RULES.md, "Upkeep".
#[derive(Drop, Clone, Copy)]
pub struct UpkeepPhase;

/// What upkeep reads of each unit, with men and money within the limits of a unit.
fn upkeep_inputs_of(alloc: Global, campaign: &Campaign) -> Result<Vec<UpkeepInput>, AllocError>
    ensures list { IfOk result (λ list. list.items ≡ upkeep_inputs_of campaign.now.value) }
    ensures each { IfOk result (λ list. All IsUpkeepInput list.items) }
{
    let mut inputs = Vec::new(alloc);
    for (number, unit) in campaign.units() {
        inputs.push(UpkeepInput {
            unit: number,
            region: unit.region,
            faction: unit.faction,
            men: unit.holding.men(),
            money: unit.holding.money(),
        })?;
    }
    Ok(inputs)
}

/// The days of each skill that stay with `left` of the holding's men, rounded down.
fn days_with(alloc: Global, left: u32, holding: &Holding) -> Result<Vec<(u32, u32)>, AllocError>
    requires some { 1 ≤ holding.now.men }
    requires fewer { left ≤ holding.now.men }
    ensures { IfOk result (λ list. list.items
        ≡ staying_list left holding.now.men holding.now.days) }
{
    let men = u64::from(holding.men());
    let mut list = Vec::new(alloc);
    for (skill, days) in holding.days() {
        list.push((skill, (u64::from(*days) * u64::from(left) / men) as u32))?;
    }
    Ok(list)
}

/// The upkeep of a unit some of whose men starve; books nothing, and marks no items.
fn starve(
    alloc: Global,
    campaign: &mut Campaign,
    upkeep_result: &UpkeepResult,
) -> Result<(), AllocError>
    requires can { (w : WorldValue) × CanPayUpkeep w campaign.old.value upkeep_result.now }
    requires some { 1 ≤ upkeep_result.now.starved }
    ensures what { OnOk result (IsAfterUpkeep campaign.old.value upkeep_result.now
        campaign.new.value) }
    ensures marks { OnOk result (MarksChanges campaign.old campaign.new) }
    ensures items { OnOk result (MarksNoItems campaign.old.marks campaign.new.marks) }
{
    let Some(unit) = campaign.unit(upkeep_result.unit) else {
        return Ok(());
    };
    let left = unit.holding.men() - upkeep_result.starved;
    let money = unit.holding.money() - upkeep_result.paid;
    let days = days_with(alloc, left, &unit.holding)?;
    campaign.set_money(upkeep_result.unit, money);
    set_people(campaign, upkeep_result.unit, left, &days)
}

/// Takes from the unit the money paid, and the men who starve with their part of the days; books
/// nothing, and marks no items, nor days where nobody starves.
fn take_upkeep(
    alloc: Global,
    campaign: &mut Campaign,
    upkeep_result: &UpkeepResult,
) -> Result<(), AllocError>
    requires { (w : WorldValue) × CanPayUpkeep w campaign.old.value upkeep_result.now }
    ensures what { OnOk result (IsAfterUpkeep campaign.old.value upkeep_result.now
        campaign.new.value) }
    ensures marks { OnOk result (MarksChanges campaign.old campaign.new) }
    ensures items { OnOk result (MarksNoItems campaign.old.marks campaign.new.marks) }
    ensures goods { OnOk result
        (upkeep_result.now.starved ≡ 0 → MarksNoGoods campaign.old.marks campaign.new.marks) }
{
    if upkeep_result.starved != 0 {
        return starve(alloc, campaign, upkeep_result);
    }
    if upkeep_result.paid == 0 {
        return Ok(());
    }
    if let Some(unit) = campaign.unit(upkeep_result.unit) {
        let left = unit.holding.money() - upkeep_result.paid;
        campaign.set_money(upkeep_result.unit, left);
    }
    Ok(())
}

/// The upkeep of one unit, with its booking; marks no items, nor days where nobody starves.
fn charge_upkeep(
    alloc: Global,
    campaign: &mut Campaign,
    upkeep_result: &UpkeepResult,
) -> Result<(), AllocError>
    requires { (w : WorldValue) × CanPayUpkeep w campaign.old.value upkeep_result.now }
    ensures what { OnOk result (campaign.new.value ≡ upkeep_at campaign.old.value
        upkeep_result.now) }
    ensures marks { OnOk result (MarksChanges campaign.old campaign.new) }
    ensures items { OnOk result (MarksNoItems campaign.old.marks campaign.new.marks) }
    ensures goods { OnOk result
        (upkeep_result.now.starved ≡ 0 → MarksNoGoods campaign.old.marks campaign.new.marks) }
{
    take_upkeep(alloc, campaign, upkeep_result)?;
    book_taken(
        campaign,
        BooksEntry::Upkeep,
        Thing::Money,
        upkeep_result.paid,
    );
    book_taken(
        campaign,
        BooksEntry::Starved,
        Thing::People,
        upkeep_result.starved,
    );
    Ok(())
}

fn charge_all(
    alloc: Global,
    campaign: &mut Campaign,
    list: &[UpkeepResult],
) -> Result<(), AllocError>
    requires { (w : WorldValue) × CanInTurn (CanPayUpkeep w) upkeep_at campaign.old.value list.now }
    ensures what { OnOk result (campaign.new.value ≡ upkeep campaign.old.value list.now) }
    ensures marks { OnOk result (MarksChanges campaign.old campaign.new) }
{
    for upkeep_result in list {
        charge_upkeep(alloc, campaign, upkeep_result)?;
    }
    Ok(())
}

fn report_starved(month: &mut Month, list: &[UpkeepResult]) -> Result<(), AllocError>
    ensures { OnOk result (month.new
        ≡ record month.old {
          events = month.old.events
              ++ map starved_event (filter starves list.now);
        }) }
{
    for upkeep_result in list {
        if upkeep_result.starved != 0 {
            month.add_event(Event {
                faction: upkeep_result.faction,
                unit: upkeep_result.unit,
                line: 0,
                verb: EventVerb::Upkeep,
                outcome: Outcome::Starved(u64::from(upkeep_result.starved)),
            })?;
        }
    }
    Ok(())
}

/// Takes the upkeep of all units, and then adds an event Starved for each unit whose men starve.
impl Phase for UpkeepPhase {
    ghost meaning = { upkeep_meaning };

    ghost book_bound = { takes_up_to most_moved };

    ghost keeps = { upkeep_keeps };

    fn run(&self, alloc: Global, world: &World, campaign: Campaign, month: Month) -> PhaseResult {
        let (mut campaign, mut month) = (campaign, month);
        let inputs = upkeep_inputs_of(alloc, &campaign)?;
        let list = upkeep_payments(alloc, world.rules().maintenance, &inputs)?;
        charge_all(alloc, &mut campaign, &list)?;
        report_starved(&mut month, &list)?;
        Ok((campaign, month))
    }
}
