//! TRANSFER: men move from one unit to another. See docs/RULES.md, "Transferring". What changes is
//! marked, and no mark is lost. Without memory the campaign may be changed in part. Such an order
//! for a unit that isn't there, or is another faction's, is NotYours and changes nothing. Days are
//! in their limits if of each skill that a unit lists it has from 1 day to 450 for each man.
ghost use Rattle.std.specs.Prelude.{◌≡◌, ◌≢◌, ◌≤◌, ◌+◌, ◌*◌, IfOk, OnOk, Some, true};
ghost use Rattle.std.specs.FinMap as map;
ghost use Rattle.std.specs.Option.{option_copied};
ghost use Rattle.atl_campaign.specs.Covers.{MarksChanges};
ghost use Rattle.atl_world.specs.Every.{Every};
ghost use Rattle.atl_campaign.specs.Good.{AreDays, IsEarly};
ghost use Rattle.atl_records.specs.Limits.{men_limit, most_days};
ghost use Rattle.atl_records.specs.declared.records.Unit.{Unit};
ghost use Rattle.atl_phase.specs.OrderEffects.{faction_effect};
ghost use Rattle.atl_instant.specs.SkillDays.{left_list, raised_list};
ghost use Rattle.atl_instant.specs.Transfer.{DaysGoWithMen, after_transfer, days_going, is_transferring, transfer, transfer_fault, transfer_step};

use atl_campaign::{Campaign, EventFault, Holding, MEN_LIMIT, Outcome, Unit};
use atl_orders::{Operands, Verb};
use atl_phase::{
    Month, OrderPhase, PhaseOrder, PhaseVerbs, PlainPhase, fault_outcome, own_unit, set_people,
};
use atl_world::World;
use std::alloc::{AllocError, Global};

/// The phase of TRANSFER: men go to other units of their faction and region, with their part of the
/// days of study. See docs/RULES.md, "Transferring".
#[derive(Drop, Clone, Copy)]
pub struct TransferPhase;

/// The days of a skill that go with `going` of `men` men who have `days` together, rounded down: at
/// most `days`. There is at least one man.
fn days_going(going: u32, men: u32, days: u32) -> u32
    requires some { 1 ≤ men }
    requires fewer { going ≤ men }
    ensures value { result ≡ days_going going men days }
    ensures small { result ≤ days }
{
    (u64::from(days) * u64::from(going) / u64::from(men)) as u32
}

/// Each skill of a unit, with the days that stay as `going` of its men go. It has as many men, and
/// its days are in their limits.
fn days_left(alloc: Global, going: u32, holding: &Holding) -> Result<Vec<(u32, u32)>, AllocError>
    requires fewer { going ≤ holding.now.men }
    requires days { Every (λ s days. (1 ≤ days) × (days ≤ most_days * holding.now.men))
        holding.now.days }
    ensures { IfOk result (λ list. list.items ≡ left_list going holding.now.men holding.now.days) }
{
    let men = holding.men();
    let mut list = Vec::new(alloc);
    for (skill, days) in holding.days() {
        list.push((skill, *days - days_going(going, men, *days)))?;
    }
    Ok(list)
}

/// Each skill of the sender, with the days that the receiver then has of it; no others. The sender
/// has the men, the receiver has room for them, and both have their days in the limits.
fn days_raised(
    alloc: Global,
    going: u32,
    sender: &Holding,
    receiver: &Holding,
) -> Result<Vec<(u32, u32)>, AllocError>
    requires fewer { going ≤ sender.now.men }
    requires sent { Every (λ s days. (1 ≤ days) × (days ≤ most_days * sender.now.men))
        sender.now.days }
    requires room { receiver.now.men + going ≤ men_limit }
    requires had { Every (λ s days. (1 ≤ days) × (days ≤ most_days * receiver.now.men))
        receiver.now.days }
    ensures { IfOk result (λ list. list.items
        ≡ raised_list going sender.now.men sender.now.days receiver.now.days) }
{
    let men = sender.men();
    let mut list = Vec::new(alloc);
    for (skill, days) in sender.days() {
        let coming = days_going(going, men, *days);
        list.push((skill, receiver.days_of(skill) + coming))?;
    }
    Ok(list)
}

/// Moves men with their part of the days to another unit, which has room for them; the sender has
/// as many. Nothing changes where one of the two isn't there. All days are in their limits.
fn send(
    alloc: Global,
    campaign: &mut Campaign,
    from: u32,
    to: u32,
    going: u32,
) -> Result<(), AllocError>
    requires days { AreDays campaign.old.value }
    requires apart { to ≢ from }
    requires enough { (u : Unit) → map.get campaign.old.value.units from ≡ Some u
        → going ≤ u.holding.men }
    requires room { (v : Unit) → map.get campaign.old.value.units to ≡ Some v
        → v.holding.men + going ≤ men_limit }
    ensures what { OnOk result
        (campaign.new.value ≡ after_transfer campaign.old.value from to going
        (map.get campaign.old.value.units from) (map.get campaign.old.value.units to)) }
    ensures marks { OnOk result (MarksChanges campaign.old campaign.new) }
{
    let (Some(sender), Some(receiver)) = (campaign.unit(from), campaign.unit(to)) else {
        return Ok(());
    };
    let left = days_left(alloc, going, &sender.holding)?;
    let raised = days_raised(alloc, going, &sender.holding, &receiver.holding)?;
    let staying = sender.holding.men() - going;
    let more = receiver.holding.men() + going;
    set_people(campaign, from, staying, &left)?;
    set_people(campaign, to, more, &raised)
}

fn transfer_fault(
    going: u32,
    itself: bool,
    sender: &Unit,
    receiver: Option<&Unit>,
) -> Option<EventFault>
    ensures { result ≡ transfer_fault going itself sender.now (option_copied receiver.entry) }
{
    let Some(receiver) = receiver else {
        return Some(EventFault::NotHere);
    };
    if receiver.region != sender.region {
        return Some(EventFault::NotHere);
    }
    if receiver.faction != sender.faction {
        return Some(EventFault::NotYours);
    }
    if sender.holding.men() < going {
        return Some(EventFault::NotEnough);
    }
    let total = u64::from(receiver.holding.men()) + u64::from(going);
    (!itself && total > u64::from(MEN_LIMIT)).then_some(EventFault::NoRoom)
}

/// Carries out an order that sends men to unit `to`. All days are in their limits.
#[tactic(auto, unfolding(crate::specs::Transfer::transfer))]
fn transfer(
    alloc: Global,
    campaign: &mut Campaign,
    order: PhaseOrder<'_>,
    to: u32,
    going: u32,
) -> Result<Outcome, AllocError>
    requires days { AreDays campaign.old.value }
    ensures what { IfOk result
        (λ outcome. (campaign.new.value, outcome)
        ≡ faction_effect (transfer order.entry.unit to going) campaign.old.value order.entry.faction
        order.entry.unit) }
    ensures marks { OnOk result (MarksChanges campaign.old campaign.new) }
{
    let Some(sender) = own_unit(campaign, order) else {
        return Ok(fault_outcome(EventFault::NotYours));
    };
    let receiver = campaign.unit(to);
    if let Some(fault) = transfer_fault(going, to == order.unit, sender, receiver) {
        return Ok(fault_outcome(fault));
    }
    if to != order.unit {
        send(alloc, campaign, order.unit, to, going)?;
    }
    Ok(Outcome::Done(u64::from(going)))
}

impl PhaseVerbs for TransferPhase {
    ghost is_of = { is_transferring };

    fn has(&self, verb: Verb) -> bool {
        matches!(verb, Verb::Transfer)
    }
}

/// Moves men with their days of study by TRANSFER.
impl OrderPhase for TransferPhase {
    ghost step = { λ _. transfer_step };

    ghost holds = { IsEarly };

    fn carry_out(
        &self,
        alloc: Global,
        _: &World,
        campaign: &mut Campaign,
        month: &Month,
        order: PhaseOrder<'_>,
    ) -> Result<Option<Outcome>, AllocError> {
        match &order.order.operands {
            Operands::UnitAndNumber { to, number } => {
                let receiver = month.unit(order.faction, *to);
                Ok(Some(transfer(alloc, campaign, order, receiver, *number)?))
            }
            _ => unreachable!(),
        }
    }

    fn is_orderly(&self) {}
}

impl PlainPhase for TransferPhase {
    ghost makes = { transfer_step };

    fn is_plain(&self) {}
}

/// The law that the days of each skill that go with men leave the sender and come to the receiver.
/// Does nothing.
pub fn days_go_with_men()
    ensures { DaysGoWithMen }
{}
