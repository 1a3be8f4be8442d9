//! STUDY, which follows TEACH: units pay the fee and gain days of a skill. See docs/RULES.md,
//! "Learning".
ghost use Rattle.std.specs.Prelude.{◌≡◌, ◌≤◌, ◌*◌, ◌<◌, IfOk, OnOk, Some, option_copied};
ghost use Rattle.std.specs.FinMap as map;
ghost use Rattle.atl_campaign.specs.Covers.{MarksChanges};
ghost use Rattle.atl_records.specs.declared.books.BooksEntry.TheVariants.{Study};
ghost use Rattle.atl_records.specs.declared.books.Thing.TheVariants.{Money};
ghost use Rattle.atl_records.specs.declared.records.Unit.{Unit};
ghost use Rattle.atl_campaign.specs.Good.{IsSteady};
ghost use Rattle.atl_records.specs.Holdings.{amount_of};
ghost use Rattle.atl_records.specs.Limits.{men_limit};
ghost use Rattle.atl_phase.specs.Holdings.{ChangesHolding};
ghost use Rattle.atl_phase.specs.Bounds.{HaveRoom};
ghost use Rattle.atl_phase.specs.OrderEffects.{faction_effect};
ghost use Rattle.atl_phase.specs.NoWorse.{IsUnchanged};
ghost use Rattle.atl_teaching.specs.Learners.{is_studying};
ghost use Rattle.atl_action.specs.Study.{after_study, days_after, is_helpful, study, study_fault, study_moves, study_step, with_study};
ghost use Rattle.atl_action.specs.Bounds.{study_remaining};

use crate::learners::cost_of;
use atl_campaign::{
    BooksEntry, Campaign, EventFault, Holding, MOST_DAYS, Outcome, Structure, Thing, Unit,
};
use atl_orders::{Operands, Verb};
use atl_phase::{Month, OrderPhase, PhaseOrder, PhaseVerbs, book_taken, fault_outcome, own_unit};
use atl_teaching::{HELPED_DAYS, MONTH_DAYS, TAUGHT_DAYS, taught_at};
use atl_world::{Numbered, World};
use std::alloc::{AllocError, Global};

/// All orders of STUDY of a month, as a phase of their own that follows TEACH.
#[derive(Drop)]
pub(crate) struct StudyPhase {
    /// How many men of each unit were taught before in this month, by the units' numbers.
    pub(crate) taught: Numbered<u32>,
}

fn is_helpful(world: &World, skill: u16, structure: Option<&Structure>) -> bool
    ensures { result ≡ is_helpful world.now skill (option_copied structure.entry) }
{
    if let Some(building) = structure
        && let Some(kind) = world.kind(building.kind)
        && let Some(helped) = kind.helps
    {
        building.done == kind.size && helped == skill
    } else {
        false
    }
}

/// The days of a skill after a month of study, over all men together, as are the `old` ones; at
/// most 450 for each man. There are at most 999,999 men, of whom `taught` were taught; `helped` is
/// whether their structure helps the skill.
fn days_after(men: u32, old: u32, taught: u32, helped: bool) -> u32
    requires { men ≤ men_limit }
    ensures { result ≡ days_after men old taught helped }
{
    let men = u64::from(men);
    let help = if helped { HELPED_DAYS * men } else { 0 };
    let days = u64::from(old) + MONTH_DAYS * men + TAUGHT_DAYS * u64::from(taught) + help;
    days.min(u64::from(MOST_DAYS) * men) as u32
}

fn study_fault(holding: &Holding, cost: u64) -> Option<EventFault>
    ensures { result ≡ study_fault holding.now cost }
{
    if holding.men() == 0 {
        Some(EventFault::NoMen)
    } else if u64::from(holding.money()) < cost {
        Some(EventFault::NoFee)
    } else {
        None
    }
}

/// Takes the cost from the unit's money, which is enough, and sets its days of the skill. Where the
/// unit isn't there, nothing changes.
fn pay_and_set_days(
    campaign: &mut Campaign,
    unit: u32,
    skill: u16,
    cost: u32,
    days: u32,
) -> Result<(), AllocError>
    requires { (u : Unit) → map.get campaign.old.value.units unit ≡ Some u
        → cost ≤ u.holding.money }
    ensures { OnOk result (ChangesHolding campaign.old campaign.new unit
        (λ h. with_study h skill cost days)) }
{
    let Some(learner) = campaign.unit(unit) else {
        return Ok(());
    };
    let money = learner.holding.money() - cost;
    campaign.set_money(unit, money);
    campaign.set_days(unit, u32::from(skill), days)
}

/// Takes the cost, books minus as much under study, and sets the unit's days of the skill. The unit
/// must be there and have that much money. The campaign is steady, and its books have room for the
/// money of all units under study.
fn put_study(
    world: &World,
    campaign: &mut Campaign,
    unit: u32,
    skill: u16,
    cost: u32,
    days: u32,
) -> Result<(), AllocError>
    requires steady { IsSteady world.now campaign.old.value }
    requires room { HaveRoom (study_remaining campaign.old.value) campaign.old.value }
    requires payable { (u : Unit) × (map.get campaign.old.value.units unit ≡ Some u)
        × (cost ≤ u.holding.money) }
    ensures what { OnOk result
        ((u : Unit) → map.get campaign.old.value.units unit ≡ Some u
        → campaign.new.value ≡ after_study campaign.old.value unit u skill cost days) }
    ensures marks { OnOk result (MarksChanges campaign.old campaign.new) }
{
    pay_and_set_days(campaign, unit, skill, cost, days)?;
    book_taken(campaign, BooksEntry::Study, Thing::Money, cost);
    Ok(())
}

/// Carries out an order to study a skill; `taught` is how many men of its unit were taught. The
/// campaign is steady, and its books have room for the money of all units under study. NotYours
/// where the unit isn't there or isn't of the faction that wrote the order.
#[tactic(auto, unfolding(crate::specs::Study::study))]
fn study(
    world: &World,
    campaign: &mut Campaign,
    taught: u32,
    order: PhaseOrder<'_>,
    skill: u16,
) -> Result<Outcome, AllocError>
    requires steady { IsSteady world.now campaign.old.value }
    requires room { HaveRoom (study_remaining campaign.old.value) campaign.old.value }
    ensures what { IfOk result
        (λ outcome. (campaign.new.value, outcome)
        ≡ faction_effect (study world.now taught order.entry.unit skill) campaign.old.value
        order.entry.faction order.entry.unit) }
    ensures marks { OnOk result (MarksChanges campaign.old campaign.new) }
{
    let Some(unit) = own_unit(campaign, order) else {
        return Ok(fault_outcome(EventFault::NotYours));
    };
    let men = unit.holding.men();
    let cost = cost_of(world, skill, men);
    if let Some(fault) = study_fault(&unit.holding, cost) {
        return Ok(fault_outcome(fault));
    }
    let old = unit.holding.days_of(u32::from(skill));
    let helped = is_helpful(world, skill, campaign.structure(unit.structure));
    let days = days_after(men, old, taught, helped);
    put_study(world, campaign, order.unit, skill, cost as u32, days)?;
    Ok(Outcome::Done(u64::from(days - old)))
}

impl PhaseVerbs for StudyPhase {
    ghost is_of = { is_studying };

    fn has(&self, verb: Verb) -> bool {
        matches!(verb, Verb::Study)
    }
}

/// Takes the fee and adds the days of a skill by STUDY. What a step does depends on how many men
/// were taught, which the phase's value holds.
impl OrderPhase for StudyPhase {
    ghost step = { λ s. study_step (amount_of s.taught) };

    ghost holds = { IsSteady };

    ghost remaining = { study_remaining };

    ghost book_bound = { study_moves };

    ghost unaffected = { IsUnchanged };

    fn carry_out(
        &self,
        _: Global,
        world: &World,
        campaign: &mut Campaign,
        _: &Month,
        order: PhaseOrder<'_>,
    ) -> Result<Option<Outcome>, AllocError> {
        match &order.order.operands {
            Operands::Skill(skill) => {
                let taught = taught_at(&self.taught, order.unit);
                Ok(Some(study(world, campaign, taught, order, *skill)?))
            }
            _ => unreachable!(),
        }
    }

    fn is_orderly(&self) {}
}
