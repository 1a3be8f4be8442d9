//! GIVE and PAY: a unit gives items or money to another. See docs/RULES.md, "Giving". What changes
//! is marked, and no mark is lost. Without memory the campaign may be changed in part. Such an
//! order for a unit that isn't there, or is another faction's, is NotYours and changes nothing.
ghost use Rattle.std.specs.Prelude.{◌≡◌, ◌≢◌, ◌≤◌, ◌+◌, IfOk, OnOk, Some, true};
ghost use Rattle.std.specs.FinMap as map;
ghost use Rattle.std.specs.Option.{option_copied};
ghost use Rattle.atl_campaign.specs.Covers.{MarksChanges};
ghost use Rattle.atl_world.specs.Every.{Every};
ghost use Rattle.atl_campaign.specs.Good.{IsEarly};
ghost use Rattle.atl_records.specs.Holdings.{IsHolding};
ghost use Rattle.atl_records.specs.declared.records.Unit.{Unit};
ghost use Rattle.atl_records.specs.Limits.{holding_limit};
ghost use Rattle.atl_phase.specs.Holdings.{ChangesHolding};
ghost use Rattle.atl_phase.specs.OrderEffects.{faction_effect};
ghost use Rattle.atl_instant.specs.Give.{after_gift, give, give_fault, give_step, held_of, is_giving, with_held_of};

use atl_campaign::{Campaign, EventFault, HOLDING_LIMIT, Holding, Outcome, Unit};
use atl_orders::{Operands, Verb};
use atl_phase::{Month, OrderPhase, PhaseOrder, PhaseVerbs, PlainPhase, fault_outcome, own_unit};
use atl_world::World;
use std::alloc::{AllocError, Global};

/// The phase of GIVE and PAY: units give items and money to units of their region, each the whole
/// amount or nothing. See docs/RULES.md, "Giving".
#[derive(Drop, Clone, Copy)]
pub struct GivePhase;

/// What a unit gives: money, or an item by its number.
#[derive(Drop, Clone, Copy)]
pub(crate) enum Gift {
    Money,
    Item(u16),
}

fn held_of(gift: Gift, holding: &Holding) -> u32
    ensures { result ≡ held_of gift holding.now }
{
    match gift {
        Gift::Money => holding.money(),
        Gift::Item(item) => holding.amount(u32::from(item)),
    }
}

fn give_fault(
    gift: Gift,
    amount: u32,
    itself: bool,
    giver: &Unit,
    receiver: Option<&Unit>,
) -> Option<EventFault>
    ensures { result ≡ give_fault gift amount itself giver.now (option_copied receiver.entry) }
{
    let Some(receiver) = receiver else {
        return Some(EventFault::NotHere);
    };
    if receiver.region != giver.region {
        return Some(EventFault::NotHere);
    }
    if held_of(gift, &giver.holding) < amount {
        return Some(EventFault::NotEnough);
    }
    let total = u64::from(held_of(gift, &receiver.holding)) + u64::from(amount);
    (!itself && total > u64::from(HOLDING_LIMIT)).then_some(EventFault::NoRoom)
}

/// Sets what unit `number`, if it is there, has of the gift to `amount`, at most HOLDING_LIMIT.
fn set_held(campaign: &mut Campaign, number: u32, gift: Gift, amount: u32) -> Result<(), AllocError>
    requires { amount ≤ holding_limit }
    ensures { OnOk result (ChangesHolding campaign.old campaign.new number
        (λ h. with_held_of gift h amount)) }
{
    match gift {
        Gift::Money => {
            campaign.set_money(number, amount);
            Ok(())
        }
        Gift::Item(item) => campaign.set_item(number, u32::from(item), amount),
    }
}

/// Moves the amount from one unit to another, which has room for it; the giver has as much. Nothing
/// changes where one of the two isn't there. Before, all that units hold is in its limits.
fn hand_over(
    campaign: &mut Campaign,
    from: u32,
    to: u32,
    gift: Gift,
    amount: u32,
) -> Result<(), AllocError>
    requires limits { Every (λ n u. IsHolding u.holding) campaign.old.value.units }
    requires apart { to ≢ from }
    requires enough { (u : Unit) → map.get campaign.old.value.units from ≡ Some u
        → amount ≤ held_of gift u.holding }
    requires room { (v : Unit) → map.get campaign.old.value.units to ≡ Some v
        → held_of gift v.holding + amount ≤ holding_limit }
    ensures what { OnOk result
        (campaign.new.value ≡ after_gift campaign.old.value from to gift amount
        (map.get campaign.old.value.units from) (map.get campaign.old.value.units to)) }
    ensures marks { OnOk result (MarksChanges campaign.old campaign.new) }
{
    let (Some(giver), Some(receiver)) = (campaign.unit(from), campaign.unit(to)) else {
        return Ok(());
    };
    let left = held_of(gift, &giver.holding) - amount;
    let more = held_of(gift, &receiver.holding) + amount;
    set_held(campaign, from, gift, left)?;
    set_held(campaign, to, gift, more)
}

/// Carries out an order that gives the amount to unit `to`. All that units hold is in its limits.
#[tactic(auto, unfolding(crate::specs::Give::give))]
fn give(
    campaign: &mut Campaign,
    order: PhaseOrder<'_>,
    to: u32,
    gift: Gift,
    amount: u32,
) -> Result<Outcome, AllocError>
    requires limits { Every (λ n u. IsHolding u.holding) campaign.old.value.units }
    ensures what { IfOk result
        (λ outcome. (campaign.new.value, outcome)
        ≡ faction_effect (give order.entry.unit to gift amount) campaign.old.value
        order.entry.faction order.entry.unit) }
    ensures marks { OnOk result (MarksChanges campaign.old campaign.new) }
{
    let Some(giver) = own_unit(campaign, order) else {
        return Ok(fault_outcome(EventFault::NotYours));
    };
    let receiver = campaign.unit(to);
    if let Some(fault) = give_fault(gift, amount, to == order.unit, giver, receiver) {
        return Ok(fault_outcome(fault));
    }
    if to != order.unit {
        hand_over(campaign, order.unit, to, gift, amount)?;
    }
    Ok(Outcome::Done(u64::from(amount)))
}

impl PhaseVerbs for GivePhase {
    ghost is_of = { is_giving };

    fn has(&self, verb: Verb) -> bool {
        matches!(verb, Verb::Give | Verb::Pay)
    }
}

/// Gives an item by GIVE, or money by PAY.
impl OrderPhase for GivePhase {
    ghost step = { λ _. give_step };

    ghost holds = { IsEarly };

    fn carry_out(
        &self,
        _: Global,
        _: &World,
        campaign: &mut Campaign,
        month: &Month,
        order: PhaseOrder<'_>,
    ) -> Result<Option<Outcome>, AllocError> {
        match &order.order.operands {
            Operands::UnitAndGoods { to, amount, item } => {
                let receiver = month.unit(order.faction, *to);
                Ok(Some(give(campaign, order, receiver, Gift::Item(*item), *amount)?))
            }
            Operands::UnitAndNumber { to, number } => {
                let receiver = month.unit(order.faction, *to);
                Ok(Some(give(campaign, order, receiver, Gift::Money, *number)?))
            }
            _ => unreachable!(),
        }
    }

    fn is_orderly(&self) {}
}

impl PlainPhase for GivePhase {
    ghost makes = { give_step };

    fn is_plain(&self) {}
}
