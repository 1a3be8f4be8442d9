//! FORM: units form new units. What changes is marked, and no mark is lost. Without memory campaign
//! and month may be changed in part. See docs/RULES.md, "Form".
ghost use Rattle.std.specs.Prelude.{◌≡◌, ◌≤◌, IfOk, None, OnOk, map as each};
ghost use Rattle.std.specs.FinMap as map;
ghost use Rattle.atl_world.specs.Worlds.{WorldValue};
ghost use Rattle.atl_orders.specs.Bounds.{shape_of};
ghost use Rattle.atl_world.specs.Verbs.{row_of};
ghost use Rattle.atl_campaign.specs.Covers.{MarksChanges};
ghost use Rattle.atl_campaign.specs.Good.{IsEarly};
ghost use Rattle.atl_records.specs.Limits.{last_unit};
ghost use Rattle.atl_phase.specs.Fit.{AreFit};
ghost use Rattle.atl_phase.specs.PhaseOrders.{orders_of, task_of};
ghost use Rattle.atl_phase.specs.declared.phase_order.Arrangement.TheVariants.{ByFaction};
ghost use Rattle.atl_instant.specs.Form.{alias_of, aliases_after, form_by, form_fault, form_keeps, form_meaning, is_forming, is_unit_limit, new_unit, with_formed_unit};
ghost use Rattle.atl_instant.specs.Forming.{form_by_copy, forming_of};

use atl_campaign::{
    Campaign, Event, EventFault, EventVerb, Holding, LAST_UNIT, MOST_UNITS, Outcome, Unit,
};
use atl_orders::{Operands, Verb};
use atl_phase::{
    Arrangement, Month, Phase, PhaseOrder, PhaseResult, PhaseVerbs, fault_outcome, is_of_faction,
    region_of, structure_of,
};
use atl_world::{Numbered, Text, World};
use std::alloc::{AllocError, Global};

/// The phase of FORM: units form new units of their faction, in their region and structure, without
/// men, money or items. See docs/RULES.md, "Form".
#[derive(Drop, Clone, Copy)]
pub struct FormPhase;

fn is_unit_limit(campaign: &Campaign) -> bool
    ensures { result ≡ is_unit_limit campaign.now.value }
{
    campaign.unit_count() >= MOST_UNITS || campaign.next_unit() > LAST_UNIT
}

fn form_fault(campaign: &Campaign, faction: u32, unit: u32) -> Option<EventFault>
    ensures { result ≡ form_fault campaign.now.value faction unit }
{
    if !is_of_faction(campaign, unit, faction) {
        return Some(EventFault::NotYours);
    }
    is_unit_limit(campaign).then_some(EventFault::UnitLimit)
}

fn new_unit(
    alloc: Global,
    number: u32,
    faction: u32,
    region: u32,
    structure: u32,
) -> Result<Unit, AllocError>
    ensures { IfOk result (λ unit. unit ≡ new_unit number faction region structure) }
{
    let name = Text::from_string(format!(in alloc; "Unit {number}")?);
    Ok(Unit {
        faction,
        region,
        structure,
        holding: Holding::new(name, 0, 0, Numbered::new(alloc), Numbered::new(alloc)),
    })
}

/// Adds a unit of this faction in region and structure of unit `parent`, both 0 if it isn't there,
/// and returns its number, the next one. Before it no unit has this number, at most LAST_UNIT.
fn add_formed_unit(
    alloc: Global,
    campaign: &mut Campaign,
    faction: u32,
    parent: u32,
) -> Result<u32, AllocError>
    requires free { map.get campaign.old.value.units campaign.old.value.next_unit ≡ None }
    requires room { campaign.old.value.next_unit ≤ last_unit }
    ensures what { OnOk result
        (campaign.new.value ≡ with_formed_unit campaign.old.value faction parent) }
    ensures number { IfOk result (λ number. number ≡ campaign.old.value.next_unit) }
    ensures marks { OnOk result (MarksChanges campaign.old campaign.new) }
{
    let number = campaign.next_unit();
    let region = region_of(campaign, parent);
    let structure = structure_of(campaign, parent);
    let unit = new_unit(alloc, number, faction, region, structure)?;
    campaign.begin_unit(unit)
}

/// The alias that an order with operands of FORM's form gives.
fn alias_of(order: PhaseOrder<'_>) -> u32
    requires { shape_of (task_of order).order_value.operands ≡ (row_of Verb.Form).shape }
    ensures { result ≡ alias_of (task_of order.entry).order_value.operands }
{
    match &order.order.operands {
        Operands::Alias(alias) => *alias,
        _ => unreachable!(),
    }
}

/// A copy of an order of FORM, made before the orders are carried out, since the month that has the
/// orders gets new aliases then.
#[derive(Drop, Clone, Copy)]
pub(crate) struct Forming {
    unit: u32,
    line: u32,
    faction: u32,
    verb: Verb,
    alias: u32,
}

/// The copy of an order with operands of FORM's form.
fn forming_of(order: PhaseOrder<'_>) -> Forming
    requires { shape_of (task_of order).order_value.operands ≡ (row_of Verb.Form).shape }
    ensures { result ≡ forming_of (task_of order.entry) }
{
    Forming {
        unit: order.unit,
        line: order.line,
        faction: order.faction,
        verb: order.order.verb,
        alias: alias_of(order),
    }
}

/// Copies of all orders of FORM that count, by faction and line. They can be read with some world.
fn formings(alloc: Global, month: &Month) -> Result<Vec<Forming>, AllocError>
    requires { (w : WorldValue) × AreFit w month.now.readings }
    ensures { IfOk result (λ list. list.items
        ≡ each forming_of (orders_of is_forming ByFaction month.now.aliases month.now.readings)) }
{
    let orders = month.orders(alloc, &FormPhase, Arrangement::ByFaction)?;
    let mut list = Vec::new(alloc);
    for order in &orders {
        list.push(forming_of(*order))?;
    }
    Ok(list)
}

/// Carries out an order, and gives the new unit its alias. With a fault nothing changes. Before it
/// no unit has the next number.
fn form(
    alloc: Global,
    campaign: &mut Campaign,
    month: &mut Month,
    order: Forming,
) -> Result<Outcome, AllocError>
    requires free { map.get campaign.old.value.units campaign.old.value.next_unit ≡ None }
    ensures value { IfOk result
        (λ outcome. (campaign.new.value, outcome)
        ≡ form_by campaign.old.value order.faction order.unit) }
    ensures aliases { IfOk result
        (λ outcome. month.new ≡ record month.old
        { aliases = aliases_after month.old.aliases order.faction order.alias outcome }) }
    ensures marks { OnOk result (MarksChanges campaign.old campaign.new) }
{
    match form_fault(campaign, order.faction, order.unit) {
        Some(fault) => Ok(fault_outcome(fault)),
        None => {
            let number = add_formed_unit(alloc, campaign, order.faction, order.unit)?;
            month.set_alias(alloc, order.faction, order.alias, number)?;
            Ok(Outcome::Done(u64::from(number)))
        }
    }
}

/// Carries out an order (`form`), and adds its event. Before it no unit has the next number.
fn form_one(
    alloc: Global,
    campaign: &mut Campaign,
    month: &mut Month,
    order: Forming,
) -> Result<(), AllocError>
    requires free { map.get campaign.old.value.units campaign.old.value.next_unit ≡ None }
    ensures step { OnOk result
        ((campaign.new.value, month.new) ≡ form_by_copy (campaign.old.value, month.old) order) }
    ensures marks { OnOk result (MarksChanges campaign.old campaign.new) }
{
    let outcome = form(alloc, campaign, month, order)?;
    month.add_event(Event {
        faction: order.faction,
        unit: order.unit,
        line: order.line,
        verb: EventVerb::Order(order.verb),
        outcome,
    })
}

impl PhaseVerbs for FormPhase {
    ghost is_of = { is_forming };

    fn has(&self, verb: Verb) -> bool {
        matches!(verb, Verb::Form)
    }
}

/// Carries out the orders of FORM one by one, by faction and line, and then gathers the orders that
/// the later phases pick theirs from.
impl Phase for FormPhase {
    ghost meaning = { form_meaning };

    ghost needs = { IsEarly };

    ghost leaves = { IsEarly };

    ghost keeps = { form_keeps };

    fn run(
        &self,
        alloc: Global,
        _world: &World,
        mut campaign: Campaign,
        mut month: Month,
    ) -> PhaseResult {
        let orders = formings(alloc, &month)?;
        for order in &orders {
            form_one(alloc, &mut campaign, &mut month, *order)?;
        }
        month.gather(alloc)?;
        Ok((campaign, month))
    }
}
