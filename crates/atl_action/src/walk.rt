//! MOVE: units go to a neighbouring region over land. See docs/RULES.md, "Walking".
ghost use Rattle.std.specs.Prelude.{◌≡◌, IfOk, OnOk};
ghost use Rattle.atl_campaign.specs.Covers.{MarksChanges};
ghost use Rattle.atl_campaign.specs.Good.{IsSteady};
ghost use Rattle.atl_phase.specs.OrderEffects.{faction_effect};
ghost use Rattle.atl_action.specs.Walk.{is_land_there, is_walking, walk, walk_fault, walk_step, with_unit_moved};

use atl_campaign::{Campaign, EventFault, Outcome, Unit, carry, goods};
use atl_orders::{Direction, Operands, Verb};
use atl_phase::{Month, OrderPhase, PhaseOrder, PhaseVerbs, PlainPhase, fault_outcome, own_unit};
use atl_world::World;
use std::alloc::{AllocError, Global};

/// The phase of MOVE: units walk to neighbouring regions with land. See docs/RULES.md, "Walking".
#[derive(Drop, Clone, Copy)]
pub struct MovePhase;

fn is_land_there(world: &World, to: Option<u32>) -> bool
    ensures { result ≡ is_land_there world.now to }
{
    matches!(to, Some(region) if world.is_land_at(region))
}

fn walk_fault(world: &World, unit: &Unit, to: Option<u32>) -> Option<EventFault>
    ensures { result ≡ walk_fault world.now unit.now to }
{
    if unit.holding.men() == 0 {
        Some(EventFault::NoMen)
    } else if !world.is_land_at(unit.region) {
        Some(EventFault::AtSea)
    } else if !is_land_there(world, to) {
        Some(EventFault::NoWay)
    } else if goods(world, &unit.holding) > carry(world, &unit.holding) {
        Some(EventFault::TooHeavy)
    } else {
        None
    }
}

/// Puts a unit into a region, and inside a structure there, or inside none for 0, and clears its
/// guard flag. A structure that it owned and leaves gets its next owner, and it owns one that it
/// enters and nobody owns. Where there is no such unit, nothing changes.
pub(crate) fn put_unit(
    campaign: &mut Campaign,
    unit: u32,
    to: u32,
    structure: u32,
) -> Result<(), AllocError>
    ensures what { OnOk result
        (campaign.new.value ≡ with_unit_moved structure to campaign.old.value unit) }
    ensures marks { OnOk result (MarksChanges campaign.old campaign.new) }
{
    campaign.place(unit, to, structure)?;
    campaign.set_guard(unit, false);
    Ok(())
}

/// Carries out a MOVE: NotYours where its unit isn't there or isn't of the faction that wrote it.
#[tactic(auto, unfolding(crate::specs::Walk::walk))]
fn walk(
    world: &World,
    campaign: &mut Campaign,
    order: PhaseOrder<'_>,
    direction: Direction,
) -> Result<Outcome, AllocError>
    ensures what { IfOk result
        (λ outcome. (campaign.new.value, outcome)
        ≡ faction_effect (walk world.now order.entry.unit direction) campaign.old.value
        order.entry.faction order.entry.unit) }
    ensures marks { OnOk result (MarksChanges campaign.old campaign.new) }
{
    let Some(unit) = own_unit(campaign, order) else {
        return Ok(fault_outcome(EventFault::NotYours));
    };
    let to = world.neighbour(unit.region, direction);
    if let Some(fault) = walk_fault(world, unit, to) {
        return Ok(fault_outcome(fault));
    }
    put_unit(campaign, order.unit, to.unwrap_or(0), 0)?;
    Ok(Outcome::Done(0))
}

impl PhaseVerbs for MovePhase {
    ghost is_of = { is_walking };

    fn has(&self, verb: Verb) -> bool {
        matches!(verb, Verb::Move)
    }
}

/// Walks a unit in a direction by MOVE.
impl OrderPhase for MovePhase {
    ghost step = { λ _. walk_step };

    ghost holds = { IsSteady };

    fn carry_out(
        &self,
        _: Global,
        world: &World,
        campaign: &mut Campaign,
        _: &Month,
        order: PhaseOrder<'_>,
    ) -> Result<Option<Outcome>, AllocError> {
        match &order.order.operands {
            Operands::Direction(direction) => Ok(Some(walk(world, campaign, order, *direction)?)),
            _ => unreachable!(),
        }
    }

    fn is_orderly(&self) {}
}

impl PlainPhase for MovePhase {
    ghost makes = { walk_step };

    fn is_plain(&self) {}
}
