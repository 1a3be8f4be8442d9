//! TEACH: people teach units that are learning. `learning` has by unit the skill that it learns,
//! `taught` how many of its men were taught so far. An `order` that is carried out, or whose list
//! is read, has the form of TEACH. See docs/RULES.md, "Learning".
ghost use Rattle.std.specs.Prelude.{◌≡◌, ◌≤◌, ◌+◌, IfOk, OnOk, filter, nat_eq};
ghost use Rattle.std.specs.List.{IsDistinct};
ghost use Rattle.atl_world.specs.Worlds.{WorldValue};
ghost use Rattle.atl_orders.specs.Bounds.{shape_of};
ghost use Rattle.atl_world.specs.Verbs.{row_of};
ghost use Rattle.atl_records.specs.Holdings.{amount_of};
ghost use Rattle.atl_records.specs.Limits.{men_limit};
ghost use Rattle.atl_teaching.specs.Teach.{NobodyIsTaughtTwice, after_lessons, first_mentions, is_below, is_pupil, is_teaching, lesson, level_at, listed_units, men_at, pupils_of, teach, teach_fault, untaught_men};
ghost use Rattle.atl_phase.specs.Fit.{AreFit};
ghost use Rattle.atl_phase.specs.PhaseOrders.{task_of};
ghost use Rattle.atl_records.specs.declared.event.Outcome.TheVariants.{Done};

use crate::limits::PUPILS_PER_TEACHER;
use atl_campaign::{Campaign, Event, EventFault, Outcome, level};
use atl_orders::{Operands, UnitRef, Verb};
use atl_phase::{
    Arrangement, Month, PhaseOrder, PhaseVerbs, add_events, fault_outcome, is_of_faction, region_of,
};
use atl_world::Numbered;
use std::alloc::{AllocError, Global};

/// The verb TEACH, whose orders the phase of TEACH and STUDY carries out first.
struct TeachVerbs;

impl PhaseVerbs for TeachVerbs {
    ghost is_of = { is_teaching };

    fn has(&self, verb: Verb) -> bool {
        matches!(verb, Verb::Teach)
    }
}

/// The units that an order of TEACH lists.
fn listed_units<'m>(order: PhaseOrder<'m>) -> &'m [UnitRef]
    requires { shape_of (task_of order).order_value.operands ≡ (row_of Verb.Teach).shape }
    ensures { result.now ≡ listed_units (task_of order.entry).order_value.operands }
{
    match &order.order.operands {
        Operands::Units(refs) => refs.as_slice(),
        _ => unreachable!(),
    }
}

fn level_at(campaign: &Campaign, unit: u32, skill: u32) -> u32
    ensures { result ≡ level_at campaign.now.value unit skill }
{
    match campaign.unit(unit) {
        Some(found) => level(found.holding.days_of(skill), found.holding.men()),
        None => 0,
    }
}

fn is_pupil(campaign: &Campaign, learning: &Numbered<u32>, region: u32, unit: u32) -> bool
    ensures { result ≡ is_pupil campaign.now.value learning.now region unit }
{
    learning.get(unit).is_some() && region_of(campaign, unit) == region
}

fn is_below(campaign: &Campaign, learning: &Numbered<u32>, teacher: u32, unit: u32) -> bool
    ensures { result ≡ is_below campaign.now.value learning.now teacher unit }
{
    matches!(learning.get(unit), Some(skill)
        if level_at(campaign, unit, *skill) < level_at(campaign, teacher, *skill))
}

/// The units that an order of TEACH lists and that are learning in the teacher's region, in the
/// order of the list, each as often as it is listed.
fn pupils_of(
    alloc: Global,
    campaign: &Campaign,
    month: &Month,
    learning: &Numbered<u32>,
    order: PhaseOrder<'_>,
) -> Result<Vec<u32>, AllocError>
    requires { shape_of (task_of order).order_value.operands ≡ (row_of Verb.Teach).shape }
    ensures { IfOk result (λ list.
        list.items ≡ pupils_of campaign.now.value month.now.aliases learning.now
        (task_of order.entry)) }
{
    let region = region_of(campaign, order.unit);
    let mut list = Vec::new(alloc);
    for target in listed_units(order) {
        let unit = month.unit(order.faction, *target);
        if is_pupil(campaign, learning, region, unit) {
            list.push(unit)?;
        }
    }
    Ok(list)
}

/// Those of the pupils whose level in what they learn is lower than the teacher's, in order.
fn pupils_below(
    alloc: Global,
    campaign: &Campaign,
    learning: &Numbered<u32>,
    teacher: u32,
    pupils: &[u32],
) -> Result<Vec<u32>, AllocError>
    ensures { IfOk result (λ list.
        list.items ≡ filter (is_below campaign.now.value learning.now teacher) pupils.now) }
{
    let mut list = Vec::new(alloc);
    for unit in pupils {
        if is_below(campaign, learning, teacher, *unit) {
            list.push(*unit)?;
        }
    }
    Ok(list)
}

/// The numbers, each only where it is first listed. It takes n log n steps for n numbers.
fn first_mentions(alloc: Global, numbers: &[u32]) -> Result<Vec<u32>, AllocError>
    ensures { IfOk result (λ list. list.items ≡ first_mentions numbers.now) }
{
    let mut seen = Numbered::new(alloc);
    let mut list = Vec::new(alloc);
    for number in numbers {
        if seen.get(*number).is_none() {
            seen.insert(*number, *number)?;
            list.push(*number)?;
        }
    }
    Ok(list)
}

/// How many men of a unit were taught so far in this month; 0 where the unit isn't in the map.
pub fn taught_at(taught: &Numbered<u32>, unit: u32) -> u32
    ensures { result ≡ amount_of taught.now unit }
{
    taught.get(unit).copied().unwrap_or(0)
}

fn men_at(campaign: &Campaign, unit: u32) -> u32
    ensures value { result ≡ men_at campaign.now.value unit }
    ensures few { result ≤ men_limit }
{
    match campaign.unit(unit) {
        Some(found) => found.holding.men(),
        None => 0,
    }
}

/// The men of a unit who weren't taught yet in this month; 0 where the unit isn't there. With those
/// who were taught their number fits 32 bits.
fn untaught_men(campaign: &Campaign, taught: &Numbered<u32>, unit: u32) -> u32
    ensures value { result ≡ untaught_men campaign.now.value (amount_of taught.now) unit }
    ensures room { amount_of taught.now unit + result ≤ 4294967295 }
{
    men_at(campaign, unit).saturating_sub(taught_at(taught, unit))
}

/// Gives a lesson for `places` men to units that are each listed once, and returns how many men it
/// taught. Each unit gets the places that those before it leave, up to its untaught men.
fn teach_men(
    campaign: &Campaign,
    taught: &mut Numbered<u32>,
    places: u32,
    units: &[u32],
) -> Result<u32, AllocError>
    requires { IsDistinct nat_eq units.now }
    ensures { IfOk result (λ men.
        (amount_of taught.new, Done men)
        ≡ lesson campaign.now.value (amount_of taught.old) places units.now) }
{
    let mut left = places;
    for unit in units {
        let given = left.min(untaught_men(campaign, taught, *unit));
        let men = taught_at(taught, *unit) + given;
        taught.insert(*unit, men)?;
        left -= given;
    }
    Ok(places - left)
}

/// Gives a lesson for `places` men to units, each only where it is first listed. The outcome is
/// Done with how many men it taught.
fn give_lesson(
    alloc: Global,
    campaign: &Campaign,
    taught: &mut Numbered<u32>,
    places: u32,
    units: &[u32],
) -> Result<Outcome, AllocError>
    ensures { IfOk result (λ outcome.
        (amount_of taught.new, outcome)
        ≡ lesson campaign.now.value (amount_of taught.old) places (first_mentions units.now)) }
{
    let each = first_mentions(alloc, units)?;
    let men = teach_men(campaign, taught, places, &each)?;
    Ok(Outcome::Done(u64::from(men)))
}

/// Why the unit of an order can't teach; None where it can. Of its `pupils` those in `below` have a
/// lower level than the unit.
fn teach_fault(
    campaign: &Campaign,
    order: PhaseOrder<'_>,
    pupils: &[u32],
    below: &[u32],
) -> Option<EventFault>
    ensures { result ≡ teach_fault campaign.now.value (task_of order.entry) pupils.now below.now }
{
    if !is_of_faction(campaign, order.unit, order.faction) {
        Some(EventFault::NotYours)
    } else if men_at(campaign, order.unit) == 0 {
        Some(EventFault::NoMen)
    } else if pupils.is_empty() {
        Some(EventFault::NotLearning)
    } else if below.is_empty() {
        Some(EventFault::CannotTeach)
    } else {
        None
    }
}

/// Carries out an order of TEACH, and returns its outcome. With a fault nobody is taught by it.
#[tactic(auto, unfolding(crate::specs::Teach::teach))]
fn teach(
    alloc: Global,
    campaign: &Campaign,
    month: &Month,
    learning: &Numbered<u32>,
    taught: &mut Numbered<u32>,
    order: PhaseOrder<'_>,
) -> Result<Outcome, AllocError>
    requires { shape_of (task_of order).order_value.operands ≡ (row_of Verb.Teach).shape }
    ensures { IfOk result (λ outcome.
        (amount_of taught.new, outcome)
        ≡ teach campaign.now.value month.now.aliases learning.now (amount_of taught.old)
        (task_of order.entry)) }
{
    let pupils = pupils_of(alloc, campaign, month, learning, order)?;
    let below = pupils_below(alloc, campaign, learning, order.unit, &pupils)?;
    if let Some(fault) = teach_fault(campaign, order, &pupils, &below) {
        return Ok(fault_outcome(fault));
    }
    let places = PUPILS_PER_TEACHER * men_at(campaign, order.unit);
    give_lesson(alloc, campaign, taught, places, &below)
}

/// Carries out all orders of TEACH, which are such as can be read with some world, and adds their
/// events to the month, which else stays as it is. Returns how many men of each unit were taught.
/// AllocError without memory; the month may then have some of the events.
pub fn teach_all(
    alloc: Global,
    campaign: &Campaign,
    month: &mut Month,
    learning: &Numbered<u32>,
) -> Result<Numbered<u32>, AllocError>
    requires { (w : WorldValue) × AreFit w month.old.readings }
    ensures meaning { IfOk result (λ taught.
        (amount_of taught, month.new) ≡ after_lessons campaign.now.value learning.now month.old) }
    ensures readings { OnOk result (month.new.readings ≡ month.old.readings) }
    ensures aliases { OnOk result (month.new.aliases ≡ month.old.aliases) }
{
    let orders = month.orders(alloc, &TeachVerbs, Arrangement::ByUnit)?;
    let mut taught = Numbered::new(alloc);
    let mut events = Vec::new(alloc);
    for order in &orders {
        let outcome = teach(alloc, campaign, month, learning, &mut taught, *order)?;
        events.push(order.event(outcome))?;
    }
    drop(orders);
    add_events(month, &events)?;
    Ok(taught)
}

/// A law: of no unit more men are taught in a month than it has, whoever teaches it. Does nothing.
pub fn nobody_is_taught_twice()
    ensures { NobodyIsTaughtTwice }
{}
