//! BUILD: units begin structures, and continue those that they are inside. See docs/RULES.md,
//! "Building". Orders need `CanBuild` and room in the books (`HaveRoom`). AllocError without
//! memory; the campaign may then be changed in part.
ghost use Rattle.std.specs.Prelude.{◌≡◌, ◌≤◌, ◌<◌, ◌++◌, IfOk, None, OnOk, Some, true};
ghost use Rattle.std.specs.FinMap as map;
ghost use Rattle.std.specs.Fmt.{decimal};
ghost use Rattle.std.specs.List.{slice_get};
ghost use Rattle.std.specs.Option.{option_copied};
ghost use Rattle.atl_campaign.specs.Covers.{MarksChanges};
ghost use Rattle.atl_campaign.specs.Good.{IsNumbered};
ghost use Rattle.atl_records.specs.Limits.{last_unit, most_structures};
ghost use Rattle.atl_records.specs.declared.records.Unit.{Unit};
ghost use Rattle.atl_phase.specs.Bounds.{HaveRoom};
ghost use Rattle.atl_phase.specs.OrderEffects.{faction_effect};
ghost use Rattle.atl_market.specs.Build.{after_start, begin, begin_fault, build_moves, build_spec, build_step, go_on, inside_fault, is_building, is_structure_limit, name_prefix, outside_fault, size_added};
ghost use Rattle.atl_market.specs.Bounds.{CanBuild, build_remaining};
ghost use Rattle.atl_market.specs.Making.{CanUse};

use crate::goods::use_item;
use atl_campaign::{
    Campaign, EventFault, Holding, MOST_STRUCTURES, Outcome, Structure, Unit, level_in,
};
use atl_orders::{Operands, Verb};
use atl_phase::{
    Month, OrderPhase, Phase, PhaseOrder, PhaseResult, PhaseVerbs, carry_out_orders, fault_outcome,
    own_unit,
};
use atl_world::{Kind, Text, World};
use std::alloc::{AllocError, Global};

/// The phase BUILD: units begin structures, and continue those that they are inside. See
/// docs/RULES.md, "Building".
#[derive(Drop, Clone, Copy)]
pub struct BuildPhase;

fn kind_of(world: &World, number: u16) -> Option<&Kind>
    ensures { option_copied result ≡ slice_get world.now.kinds number }
{
    world.kinds().get(usize::from(number))
}

fn size_added(kind: &Kind, holding: &Holding, done: u32) -> u32
    ensures { result ≡ size_added kind.now holding.now done }
{
    let work = holding.men() * level_in(holding, kind.skill);
    let material = holding.amount(u32::from(kind.material));
    work.min(material).min(kind.size.saturating_sub(done))
}

/// The structures are numbered from 1 without a gap, so the next number says how many there are.
fn is_structure_limit(campaign: &Campaign) -> bool
    requires { IsNumbered campaign.now.value.structures campaign.now.value.next_structure }
    ensures { result ≡ is_structure_limit campaign.now.value }
{
    campaign.next_structure() > MOST_STRUCTURES
}

/// The first fault of `BUILD kind` after NotYours, if any. The structures' numbers have no gap.
fn begin_fault(world: &World, campaign: &Campaign, unit: &Unit, kind: &Kind) -> Option<EventFault>
    requires { IsNumbered campaign.now.value.structures campaign.now.value.next_structure }
    ensures { result ≡ begin_fault world.now campaign.now.value unit.now kind.now }
{
    if unit.holding.men() == 0 {
        Some(EventFault::NoMen)
    } else if !world.is_land_at(unit.region) {
        Some(EventFault::AtSea)
    } else if level_in(&unit.holding, kind.skill) < kind.level {
        Some(EventFault::NoSkill)
    } else if unit.holding.amount(u32::from(kind.material)) == 0 {
        Some(EventFault::NoMaterial)
    } else if is_structure_limit(campaign) {
        Some(EventFault::StructureLimit)
    } else {
        None
    }
}

fn outside_fault(unit: &Unit) -> EventFault
    ensures { Some result ≡ outside_fault unit.now }
{
    if unit.holding.men() == 0 {
        EventFault::NoMen
    } else {
        EventFault::NotInside
    }
}

fn inside_fault(unit: &Unit, structure: &Structure, kind: &Kind) -> Option<EventFault>
    ensures { result ≡ inside_fault unit.now structure.now kind.now }
{
    if unit.holding.men() == 0 {
        Some(EventFault::NoMen)
    } else if kind.size <= structure.done {
        Some(EventFault::Complete)
    } else if level_in(&unit.holding, kind.skill) < kind.level {
        Some(EventFault::NoSkill)
    } else if unit.holding.amount(u32::from(kind.material)) == 0 {
        Some(EventFault::NoMaterial)
    } else {
        None
    }
}

fn name_of(alloc: Global, kind: &Kind, number: u32) -> Result<Text, AllocError>
    requires { number ≤ last_unit }
    ensures { IfOk result (λ name. name ≡ name_prefix kind.now ++ decimal number) }
{
    let letters = if kind.ship {
        format!(in alloc; "Ship {number}")?
    } else {
        format!(in alloc; "Building {number}")?
    };
    Ok(Text::from_string(letters))
}

/// Unit `unit` uses `size` of the material of `kind`, which has the number `number`, begins a
/// structure with it in `region`, and enters it. The unit can use so much (`uses`), the next number
/// of structures is free (`fresh`), and it is at most 10,000 (`room`).
fn start_structure(
    alloc: Global,
    world: &World,
    campaign: &mut Campaign,
    unit: u32,
    number: u16,
    kind: &Kind,
    region: u32,
    size: u32,
) -> Result<(), AllocError>
    requires uses { CanUse world.now campaign.old.value unit kind.now.material size }
    requires fresh { map.get campaign.old.value.structures campaign.old.value.next_structure
        ≡ None }
    requires room { campaign.old.value.next_structure ≤ most_structures }
    ensures what { OnOk result
        (campaign.new.value ≡ after_start campaign.old.value unit number kind.now region size) }
    ensures marks { OnOk result (MarksChanges campaign.old campaign.new) }
{
    use_item(world, campaign, unit, kind.material, size)?;
    let name = name_of(alloc, kind, campaign.next_structure())?;
    let next = campaign.begin_structure(Structure {
        kind: number,
        name,
        region,
        done: size,
        owner: 0,
    })?;
    campaign.place(unit, region, next)?;
    Ok(())
}

/// Carries out an order `BUILD kind`; `number` is the kind's. A fault changes nothing.
#[tactic(auto, unfolding(crate::specs::Build::begin))]
fn begin(
    alloc: Global,
    world: &World,
    campaign: &mut Campaign,
    order: PhaseOrder<'_>,
    number: u16,
    kind: &Kind,
) -> Result<Outcome, AllocError>
    requires kind { slice_get world.now.kinds number ≡ Some kind.now }
    requires can { CanBuild world.now campaign.old.value }
    requires room { HaveRoom (build_remaining campaign.old.value) campaign.old.value }
    ensures what { IfOk result
        (λ outcome. (campaign.new.value, outcome)
        ≡ faction_effect (begin world.now order.entry.unit number kind.now) campaign.old.value
        order.entry.faction order.entry.unit) }
    ensures marks { OnOk result (MarksChanges campaign.old campaign.new) }
{
    let Some(unit) = own_unit(campaign, order) else {
        return Ok(fault_outcome(EventFault::NotYours));
    };
    if let Some(fault) = begin_fault(world, campaign, unit, kind) {
        return Ok(fault_outcome(fault));
    }
    let size = size_added(kind, &unit.holding, 0);
    let region = unit.region;
    start_structure(
        alloc, world, campaign, order.unit, number, kind, region, size,
    )?;
    Ok(Outcome::Done(u64::from(size)))
}

/// Carries out an order BUILD without a kind. A fault changes nothing.
#[tactic(auto, unfolding(crate::specs::Build::go_on))]
fn go_on(
    world: &World,
    campaign: &mut Campaign,
    order: PhaseOrder<'_>,
) -> Result<Outcome, AllocError>
    requires can { CanBuild world.now campaign.old.value }
    requires room { HaveRoom (build_remaining campaign.old.value) campaign.old.value }
    ensures what { IfOk result
        (λ outcome. (campaign.new.value, outcome)
        ≡ faction_effect (go_on world.now order.entry.unit) campaign.old.value order.entry.faction
        order.entry.unit) }
    ensures marks { OnOk result (MarksChanges campaign.old campaign.new) }
{
    let Some(unit) = own_unit(campaign, order) else {
        return Ok(fault_outcome(EventFault::NotYours));
    };
    let place = unit.structure;
    let Some(structure) = campaign.structure(place) else {
        return Ok(fault_outcome(outside_fault(unit)));
    };
    let Some(kind) = kind_of(world, structure.kind) else {
        return Ok(fault_outcome(outside_fault(unit)));
    };
    if let Some(fault) = inside_fault(unit, structure, kind) {
        return Ok(fault_outcome(fault));
    }
    let size = size_added(kind, &unit.holding, structure.done);
    let done = structure.done + size;
    use_item(world, campaign, order.unit, kind.material, size)?;
    campaign.set_done(place, done);
    Ok(Outcome::Done(u64::from(size)))
}

impl PhaseVerbs for BuildPhase {
    ghost is_of = { is_building };

    fn has(&self, verb: Verb) -> bool {
        matches!(verb, Verb::Build)
    }
}

/// Begins a structure by `BUILD kind`, or continues one by BUILD.
impl OrderPhase for BuildPhase {
    ghost step = { λ _. build_step };

    ghost holds = { CanBuild };

    ghost remaining = { build_remaining };

    ghost book_bound = { build_moves };

    fn carry_out(
        &self,
        alloc: Global,
        world: &World,
        campaign: &mut Campaign,
        _: &Month,
        order: PhaseOrder<'_>,
    ) -> Result<Option<Outcome>, AllocError> {
        match &order.order.operands {
            Operands::Kind(Some(number)) => match kind_of(world, *number) {
                Some(kind) => Ok(Some(begin(alloc, world, campaign, order, *number, kind)?)),
                None => unreachable!(),
            },
            Operands::Kind(None) => Ok(Some(go_on(world, campaign, order)?)),
            _ => unreachable!(),
        }
    }

    fn is_orderly(&self) {}
}

impl Phase for BuildPhase {
    ghost meaning = { build_spec.meaning };

    ghost book_bound = { build_moves };

    ghost keeps = { build_spec.keeps };

    fn run(
        &self,
        alloc: Global,
        world: &World,
        mut campaign: Campaign,
        mut month: Month,
    ) -> PhaseResult {
        // The contract of `kinds` gives the rules of kinds, which `CanBuild` needs.
        let _kinds = world.kinds();
        carry_out_orders(alloc, self, world, &mut campaign, &mut month)?;
        Ok((campaign, month))
    }
}
