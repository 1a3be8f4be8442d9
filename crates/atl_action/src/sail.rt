//! SAIL: ships go to a neighbouring region with all units inside. See docs/RULES.md, "Sailing".
ghost use Rattle.std.specs.Prelude.{◌≡◌, IfOk, OnOk, option_copied};
ghost use Rattle.std.specs.FinMap as map;
ghost use Rattle.atl_campaign.specs.Covers.{MarksChanges};
ghost use Rattle.atl_campaign.specs.Good.{IsSteady};
ghost use Rattle.atl_records.specs.Levels.{load_of};
ghost use Rattle.atl_campaign.specs.Owners.{is_owned_by};
ghost use Rattle.atl_phase.specs.OrderEffects.{faction_effect};
ghost use Rattle.atl_action.specs.Sail.{IsAtMostMoved, after_sailing, capacity, affects_nobody, crew_needed, crew_of, is_complete_ship, is_sailing, is_way, sail, sail_fault, sail_keeps, sail_spec, sail_step, sum_inside};

use crate::walk::put_unit;
use atl_campaign::{Campaign, EventFault, Holding, Outcome, Structure, Unit, level_in_any, load};
use atl_orders::{Direction, Operands, Verb};
use atl_phase::{
    Month, OrderPhase, Phase, PhaseOrder, PhaseResult, PhaseVerbs, carry_out_orders, fault_outcome,
    own_unit,
};
use atl_world::World;
use std::alloc::{AllocError, Global};

/// The phase of SAIL: ships go to neighbouring regions with all units inside.
/// See docs/RULES.md, "Sailing".
#[derive(Drop, Clone, Copy)]
pub struct SailPhase;

fn is_complete_ship(world: &World, structure: Option<&Structure>) -> bool
    ensures { result ≡ is_complete_ship world.now (option_copied structure.entry) }
{
    matches!(structure, Some(ship)
        if world.is_ship(ship.kind) && ship.done == world.size_of(ship.kind))
}

/// The crew that a ship needs, and the load that it can take; both 0 where the structure or its
/// kind isn't there.
fn crew_and_capacity(world: &World, structure: Option<&Structure>) -> (u32, u32)
    ensures crew { result.0 ≡ crew_needed world.now (option_copied structure.entry) }
    ensures capacity { result.1 ≡ capacity world.now (option_copied structure.entry) }
{
    if let Some(ship) = structure
        && let Some(kind) = world.kind(ship.kind)
    {
        (kind.crew, kind.capacity)
    } else {
        (0, 0)
    }
}

fn is_owned_by(structure: Option<&Structure>, unit: u32) -> bool
    ensures { result ≡ is_owned_by (option_copied structure.entry) unit }
{
    matches!(structure, Some(found) if found.owner == unit)
}

/// Men times their level in sailing; 0 where the world names no such skill.
fn crew_of(world: &World, holding: &Holding) -> u64
    ensures { result ≡ crew_of world.now holding.now }
{
    u64::from(holding.men()) * u64::from(level_in_any(holding, world.rules().sailing))
}

/// What all units inside a structure are worth as a crew, and their load; both 0 for structure 0.
fn crew_and_load(world: &World, campaign: &Campaign, structure: u32) -> (u128, u128)
    ensures crew { result.0 ≡ sum_inside (crew_of world.now) campaign.now.value structure }
    ensures load { result.1 ≡ sum_inside (load_of world.now) campaign.now.value structure }
{
    let mut crew = 0;
    let mut weight = 0;
    for number in campaign.inside(structure) {
        if let Some(unit) = campaign.unit(*number) {
            crew += u128::from(crew_of(world, &unit.holding));
            weight += u128::from(load(world, &unit.holding));
        }
    }
    (crew, weight)
}

fn is_way(world: &World, from: u32, to: Option<u32>) -> bool
    ensures { result ≡ is_way world.now from to }
{
    matches!(to, Some(region) if world.region(region).is_some()
        && !(world.is_land_at(from) && world.is_land_at(region)))
}

fn sail_fault(
    world: &World,
    campaign: &Campaign,
    number: u32,
    unit: &Unit,
    to: Option<u32>,
) -> Option<EventFault>
    ensures { result ≡ sail_fault world.now campaign.now.value number unit.now
        (map.get campaign.now.value.structures unit.now.structure) to }
{
    let ship = campaign.structure(unit.structure);
    if unit.holding.men() == 0 {
        Some(EventFault::NoMen)
    } else if unit.structure == 0 {
        Some(EventFault::NotInside)
    } else if !is_owned_by(ship, number) {
        Some(EventFault::NotOwner)
    } else if !is_complete_ship(world, ship) {
        Some(EventFault::NotComplete)
    } else if !is_way(world, unit.region, to) {
        Some(EventFault::NoWay)
    } else {
        let (needed, capacity) = crew_and_capacity(world, ship);
        let (crew, weight) = crew_and_load(world, campaign, unit.structure);
        if crew < u128::from(needed) {
            Some(EventFault::NoCrew)
        } else if weight > u128::from(capacity) {
            Some(EventFault::TooHeavy)
        } else {
            None
        }
    }
}

/// Puts a ship and all units inside into region `to`, and clears the guard flags of these units.
fn move_ship(alloc: Global, campaign: &mut Campaign, ship: u32, to: u32) -> Result<(), AllocError>
    ensures what { OnOk result (campaign.new.value ≡ after_sailing campaign.old.value ship to) }
    ensures marks { OnOk result (MarksChanges campaign.old campaign.new) }
{
    let inside = campaign.inside(ship).to_vec(alloc)?;
    for unit in &inside {
        put_unit(campaign, *unit, to, ship)?;
    }
    campaign.set_structure_region(ship, to);
    Ok(())
}

/// Carries out a SAIL: NotYours where its unit isn't there or isn't of the faction that wrote it.
#[tactic(auto, unfolding(crate::specs::Sail::sail))]
fn sail(
    alloc: Global,
    world: &World,
    campaign: &mut Campaign,
    order: PhaseOrder<'_>,
    direction: Direction,
) -> Result<Outcome, AllocError>
    ensures what { IfOk result
        (λ outcome. (campaign.new.value, outcome)
        ≡ faction_effect (sail world.now order.entry.unit direction) campaign.old.value
        order.entry.faction order.entry.unit) }
    ensures marks { OnOk result (MarksChanges campaign.old campaign.new) }
{
    let Some(unit) = own_unit(campaign, order) else {
        return Ok(fault_outcome(EventFault::NotYours));
    };
    let to = world.neighbour(unit.region, direction);
    if let Some(fault) = sail_fault(world, campaign, order.unit, unit, to) {
        return Ok(fault_outcome(fault));
    }
    let ship = unit.structure;
    move_ship(alloc, campaign, ship, to.unwrap_or(0))?;
    Ok(Outcome::Done(0))
}

impl PhaseVerbs for SailPhase {
    ghost is_of = { is_sailing };

    fn has(&self, verb: Verb) -> bool {
        matches!(verb, Verb::Sail)
    }
}

/// Sails a ship in a direction by SAIL. Each unit inside goes along, whoever gave the order, and
/// loses its guard flag alone.
impl OrderPhase for SailPhase {
    ghost step = { λ _. sail_step };

    ghost holds = { IsSteady };

    ghost affects = { affects_nobody };

    ghost unaffected = { IsAtMostMoved };

    fn carry_out(
        &self,
        alloc: Global,
        world: &World,
        campaign: &mut Campaign,
        _: &Month,
        order: PhaseOrder<'_>,
    ) -> Result<Option<Outcome>, AllocError> {
        match &order.order.operands {
            Operands::Direction(direction) => Ok(Some(sail(
                alloc, world, campaign, order, *direction,
            )?)),
            _ => unreachable!(),
        }
    }

    fn is_orderly(&self) {}
}

/// Carries out the orders of SAIL (`carry_out_orders`), and does nothing else. SAIL isn't a
/// `PlainPhase`, since the phase keeps more than its steps say one by one.
impl Phase for SailPhase {
    ghost meaning = { sail_spec.meaning };

    ghost keeps = { sail_keeps };

    fn run(
        &self,
        alloc: Global,
        world: &World,
        mut campaign: Campaign,
        mut month: Month,
    ) -> PhaseResult {
        carry_out_orders(alloc, self, world, &mut campaign, &mut month)?;
        Ok((campaign, month))
    }
}
