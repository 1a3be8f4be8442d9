//! LEAVE, ENTER and PROMOTE: units leave structures, enter them, and hand them over to other units.
//! See docs/RULES.md, "Place". What changes is marked, and no mark is lost. Such an order for a
//! unit that isn't there, or is another faction's, is NotYours and changes nothing. Without memory
//! the campaign may be changed in part.
ghost use Rattle.std.specs.Prelude.{◌≡◌, IfOk, OnOk};
ghost use Rattle.std.specs.FinMap as map;
ghost use Rattle.atl_campaign.specs.Covers.{MarksChanges};
ghost use Rattle.atl_campaign.specs.Good.{IsEarly};
ghost use Rattle.atl_campaign.specs.Owners.{is_owned_by};
ghost use Rattle.atl_phase.specs.OrderEffects.{faction_effect};
ghost use Rattle.atl_instant.specs.Place.{enter, is_structure_in, is_placing, leave, leave_fault, place_step, promote, promote_fault};

use atl_campaign::{Campaign, EventFault, Outcome, Unit};
use atl_orders::{Operands, Verb};
use atl_phase::{
    Month, OrderPhase, PhaseOrder, PhaseVerbs, PlainPhase, fault_outcome, own_unit, structure_of,
};
use atl_world::World;
use std::alloc::{AllocError, Global};

/// The phase of LEAVE, ENTER and PROMOTE: units leave structures, enter others of their region, and
/// hand them over to other units. See docs/RULES.md, "Place".
#[derive(Drop, Clone, Copy)]
pub struct PlacePhase;

fn is_in(campaign: &Campaign, structure: u32, region: u32) -> bool
    ensures { result ≡ is_structure_in region (map.get campaign.now.value.structures structure) }
{
    let found = campaign.structure(structure);
    found.is_some_and(|found| found.region == region)
}

fn is_owned_by(campaign: &Campaign, structure: u32, unit: u32) -> bool
    ensures { result ≡ is_owned_by (map.get campaign.now.value.structures structure) unit }
{
    let found = campaign.structure(structure);
    found.is_some_and(|found| found.owner == unit)
}

fn leave_fault(world: &World, unit: &Unit) -> Option<EventFault>
    ensures { result ≡ leave_fault world.now unit.now }
{
    if unit.structure == 0 {
        return Some(EventFault::NotInside);
    }
    (!world.is_land_at(unit.region)).then_some(EventFault::AtSea)
}

#[tactic(auto, unfolding(crate::specs::Place::leave))]
fn leave(
    world: &World,
    campaign: &mut Campaign,
    order: PhaseOrder<'_>,
) -> Result<Outcome, AllocError>
    ensures what { IfOk result
        (λ outcome. (campaign.new.value, outcome)
        ≡ faction_effect (leave world.now order.entry.unit) campaign.old.value order.entry.faction
        order.entry.unit) }
    ensures marks { OnOk result (MarksChanges campaign.old campaign.new) }
{
    let Some(unit) = own_unit(campaign, order) else {
        return Ok(fault_outcome(EventFault::NotYours));
    };
    if let Some(fault) = leave_fault(world, unit) {
        return Ok(fault_outcome(fault));
    }
    let region = unit.region;
    campaign.place(order.unit, region, 0)?;
    Ok(Outcome::Done(0))
}

#[tactic(auto, unfolding(crate::specs::Place::enter))]
fn enter(
    campaign: &mut Campaign,
    order: PhaseOrder<'_>,
    structure: u32,
) -> Result<Outcome, AllocError>
    ensures what { IfOk result
        (λ outcome. (campaign.new.value, outcome)
        ≡ faction_effect (enter order.entry.unit structure) campaign.old.value order.entry.faction
        order.entry.unit) }
    ensures marks { OnOk result (MarksChanges campaign.old campaign.new) }
{
    let Some(unit) = own_unit(campaign, order) else {
        return Ok(fault_outcome(EventFault::NotYours));
    };
    if !is_in(campaign, structure, unit.region) {
        return Ok(fault_outcome(EventFault::NotHere));
    }
    if unit.structure != structure {
        let region = unit.region;
        campaign.place(order.unit, region, structure)?;
    }
    Ok(Outcome::Done(0))
}

fn promote_fault(campaign: &Campaign, number: u32, to: u32, unit: &Unit) -> Option<EventFault>
    ensures { result ≡ promote_fault campaign.now.value number to unit.now }
{
    if unit.structure == 0 {
        return Some(EventFault::NotInside);
    }
    if !is_owned_by(campaign, unit.structure, number) {
        return Some(EventFault::NotOwner);
    }
    (structure_of(campaign, to) != unit.structure).then_some(EventFault::NotHere)
}

#[tactic(auto, unfolding(crate::specs::Place::promote))]
fn promote(campaign: &mut Campaign, order: PhaseOrder<'_>, to: u32) -> Outcome
    ensures what { (campaign.new.value, result)
        ≡ faction_effect (promote order.entry.unit to) campaign.old.value order.entry.faction
        order.entry.unit }
    ensures marks { MarksChanges campaign.old campaign.new }
{
    let Some(unit) = own_unit(campaign, order) else {
        return fault_outcome(EventFault::NotYours);
    };
    if let Some(fault) = promote_fault(campaign, order.unit, to, unit) {
        return fault_outcome(fault);
    }
    let inside = unit.structure;
    campaign.set_owner(inside, to);
    Outcome::Done(0)
}

impl PhaseVerbs for PlacePhase {
    ghost is_of = { is_placing };

    fn has(&self, verb: Verb) -> bool {
        matches!(verb, Verb::Leave | Verb::Enter | Verb::Promote)
    }
}

/// Carries out LEAVE, ENTER or PROMOTE by the form of the operands: none, a number, or a unit.
impl OrderPhase for PlacePhase {
    ghost step = { λ _. place_step };

    ghost holds = { IsEarly };

    fn carry_out(
        &self,
        _alloc: Global,
        world: &World,
        campaign: &mut Campaign,
        month: &Month,
        order: PhaseOrder<'_>,
    ) -> Result<Option<Outcome>, AllocError> {
        match &order.order.operands {
            Operands::Nothing => Ok(Some(leave(world, campaign, order)?)),
            Operands::Number(structure) => Ok(Some(enter(campaign, order, *structure)?)),
            Operands::Unit(to) => {
                let owner = month.unit(order.faction, *to);
                Ok(Some(promote(campaign, order, owner)))
            }
            _ => unreachable!(),
        }
    }

    fn is_orderly(&self) {}
}

impl PlainPhase for PlacePhase {
    ghost makes = { place_step };

    fn is_plain(&self) {}
}
