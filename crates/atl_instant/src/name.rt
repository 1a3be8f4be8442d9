//! NAME and GUARD 0: units give names, and stop guarding. See docs/RULES.md, "Name". What changes
//! is marked, and no mark is lost. Such an order for a unit that isn't there, or is another
//! faction's, is NotYours and changes nothing. `inside` is the structure that `unit` is inside.
//! Without memory the answer is AllocError.
ghost use Rattle.std.specs.Prelude.{◌≡◌, IfOk, IsTrue, OnOk};
ghost use Rattle.std.specs.FinMap as map;
ghost use Rattle.atl_world.specs.Names.{name_ok};
ghost use Rattle.atl_lines.specs.Orders.{name_in};
ghost use Rattle.atl_campaign.specs.Covers.{MarksChanges};
ghost use Rattle.atl_campaign.specs.Good.{IsEarly};
ghost use Rattle.atl_phase.specs.OrderEffects.{faction_effect};
ghost use Rattle.atl_instant.specs.Name.{is_naming, is_structure_of_kind, leave_guard, name_affects, name_result, name_step, naming, structure_fault, structure_name_result};

use atl_campaign::{Campaign, EventFault, Outcome, Structure};
use atl_orders::{Mailing, NameKind, Operands, Span, Verb};
use atl_phase::{Month, OrderPhase, PhaseOrder, PhaseVerbs, PlainPhase, fault_outcome, own_unit};
use atl_world::{Text, World};
use std::alloc::{AllocError, Global};

/// The phase of NAME and GUARD 0: units name themselves, their factions and structures, and stop
/// guarding. See docs/RULES.md, "Name".
#[derive(Drop, Clone, Copy)]
pub struct NamePhase;

/// The name at a place of the mailing's text; it keeps the name rule.
fn name_of(alloc: Global, mailing: &Mailing, span: Span) -> Result<Text, AllocError>
    requires { IsTrue (name_ok (name_in mailing.now.text span)) }
    ensures { IfOk result (λ name. name ≡ name_in mailing.now.text span) }
{
    let bytes = mailing.name(alloc, span)?;
    let letters = String::from_utf8(bytes.into_vec()).unwrap();
    Ok(Text::from_string(letters))
}

fn is_of_kind(world: &World, ship: bool, structure: &Structure) -> bool
    ensures { result ≡ is_structure_of_kind world.now ship structure.now }
{
    let kind = world.kinds().get(usize::from(structure.kind));
    kind.is_some_and(|kind| kind.ship) == ship
}

fn structure_fault(
    world: &World,
    campaign: &Campaign,
    unit: u32,
    inside: u32,
    ship: bool,
) -> Option<EventFault>
    ensures { result ≡ structure_fault world.now unit ship
        (map.get campaign.now.value.structures inside) }
{
    match campaign.structure(inside) {
        Some(structure) if !is_of_kind(world, ship, structure) => Some(EventFault::NotInside),
        Some(structure) if structure.owner != unit => Some(EventFault::NotOwner),
        Some(_) => None,
        None => Some(EventFault::NotInside),
    }
}

/// Gives a name to the ship (where `ship` is true) or the building `inside`, unless there is a
/// fault.
fn name_structure(
    world: &World,
    campaign: &mut Campaign,
    unit: u32,
    inside: u32,
    ship: bool,
    name: Text,
) -> Outcome
    ensures value { (campaign.new.value, result)
        ≡ structure_name_result world.now campaign.old.value unit inside ship name }
    ensures marks { MarksChanges campaign.old campaign.new }
{
    match structure_fault(world, campaign, unit, inside, ship) {
        Some(fault) => fault_outcome(fault),
        None => {
            campaign.set_structure_name(inside, name);
            Outcome::Done(0)
        }
    }
}

fn leave_guard(campaign: &mut Campaign, order: PhaseOrder<'_>) -> Outcome
    ensures what { (campaign.new.value, result)
        ≡ faction_effect (leave_guard order.entry.unit) campaign.old.value order.entry.faction
        order.entry.unit }
    ensures marks { MarksChanges campaign.old campaign.new }
{
    if own_unit(campaign, order).is_none() {
        return fault_outcome(EventFault::NotYours);
    }
    campaign.set_guard(order.unit, false);
    Outcome::Done(0)
}

fn name(
    world: &World,
    campaign: &mut Campaign,
    unit: u32,
    faction: u32,
    inside: u32,
    what: NameKind,
    name: Text,
) -> Outcome
    ensures value { (campaign.new.value, result)
        ≡ name_result world.now campaign.old.value unit faction inside what name }
    ensures marks { MarksChanges campaign.old campaign.new }
{
    match what {
        NameKind::Unit => campaign.set_unit_name(unit, name),
        NameKind::Faction => campaign.set_faction_name(faction, name),
        NameKind::Building => return name_structure(world, campaign, unit, inside, false, name),
        NameKind::Ship => return name_structure(world, campaign, unit, inside, true, name),
    }
    Outcome::Done(0)
}

/// Carries out NAME with the name at `span` of the mailing's text, which keeps the name rule.
fn give_name(
    alloc: Global,
    world: &World,
    campaign: &mut Campaign,
    order: PhaseOrder<'_>,
    what: NameKind,
    span: Span,
) -> Result<Outcome, AllocError>
    requires fit { IsTrue (name_ok (name_in order.mailing.now.text span)) }
    ensures value { IfOk result
        (λ outcome. (campaign.new.value, outcome)
        ≡ faction_effect (naming world.now order.entry.unit what
        (name_in order.entry.mailing.now.text span)) campaign.old.value order.entry.faction
        order.entry.unit) }
    ensures marks { OnOk result (MarksChanges campaign.old campaign.new) }
{
    let Some(unit) = own_unit(campaign, order) else {
        return Ok(fault_outcome(EventFault::NotYours));
    };
    let (faction, inside) = (unit.faction, unit.structure);
    let given = name_of(alloc, order.mailing, span)?;
    Ok(name(world, campaign, order.unit, faction, inside, what, given))
}

/// The phase of NAME and GUARD 0 gets all orders of the verbs NAME and GUARD, and passes over those
/// that are GUARD 1.
impl PhaseVerbs for NamePhase {
    ghost is_of = { is_naming };

    fn has(&self, verb: Verb) -> bool {
        matches!(verb, Verb::Name | Verb::Guard)
    }
}

/// Gives a name by NAME, or clears the guard flag by GUARD 0. GUARD 1 is passed over.
impl OrderPhase for NamePhase {
    ghost step = { λ _. name_step };

    ghost holds = { IsEarly };

    ghost affects = { name_affects };

    fn carry_out(
        &self,
        alloc: Global,
        world: &World,
        campaign: &mut Campaign,
        _month: &Month,
        order: PhaseOrder<'_>,
    ) -> Result<Option<Outcome>, AllocError> {
        match &order.order.operands {
            Operands::Name {
                what: kind,
                name: span,
            } => Ok(Some(give_name(alloc, world, campaign, order, *kind, *span)?)),
            Operands::Flag(false) => Ok(Some(leave_guard(campaign, order))),
            Operands::Flag(true) => Ok(None),
            _ => unreachable!(),
        }
    }

    fn is_orderly(&self) {}
}

impl PlainPhase for NamePhase {
    ghost makes = { name_step };

    fn is_plain(&self) {}
}
