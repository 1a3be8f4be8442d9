//! Finds the units that are learning, each with its skill, as the phase of TEACH and STUDY begins.
//! See docs/RULES.md, "Learning".
ghost use Rattle.std.specs.Prelude.{◌≡◌, ◌*◌, IfOk, OnOk, Some};
ghost use Rattle.atl_orders.specs.Bounds.{shape_of};
ghost use Rattle.atl_world.specs.Verbs.{row_of};
ghost use Rattle.atl_phase.specs.Fit.{AreFit};
ghost use Rattle.atl_phase.specs.PhaseOrders.{task_of};
ghost use Rattle.atl_teaching.specs.Learners.{UnitsLearnByOrders, can_learn, is_studying, learners, skill_of, with_learner};
ghost use Rattle.atl_world.specs.ByNumber.{fee_of};

use atl_campaign::{Campaign, Holding};
use atl_orders::{Operands, Verb};
use atl_phase::{Arrangement, Month, PhaseOrder, PhaseVerbs, own_unit};
use atl_world::{Numbered, World};
use std::alloc::{AllocError, Global};

/// The verb STUDY, whose orders say which units are learning.
pub(crate) struct StudyVerbs;

impl PhaseVerbs for StudyVerbs {
    ghost is_of = { is_studying };

    fn has(&self, verb: Verb) -> bool {
        matches!(verb, Verb::Study)
    }
}

/// The skill that an order names, whose operands have the shape that STUDY takes.
fn skill_of(order: PhaseOrder<'_>) -> u16
    requires { shape_of (task_of order).order_value.operands ≡ (row_of Verb.Study).shape }
    ensures { skill_of (task_of order.entry).order_value.operands ≡ Some result }
{
    match &order.order.operands {
        Operands::Skill(skill) => *skill,
        _ => unreachable!(),
    }
}

pub(crate) fn cost_of(world: &World, skill: u16, men: u32) -> u64
    ensures { result ≡ fee_of world.now skill * men }
{
    u64::from(world.fee_of(skill)) * u64::from(men)
}

fn can_learn(world: &World, skill: u16, holding: &Holding) -> bool
    ensures { result ≡ can_learn world.now skill holding.now }
{
    let men = holding.men();
    0 < men && cost_of(world, skill, men) <= u64::from(holding.money())
}

/// Puts the skill of an order, whose operands have the shape that STUDY takes, under its unit, if
/// that is there, of the faction that wrote the order, and can learn. Else nothing changes.
fn add_learner(
    world: &World,
    campaign: &Campaign,
    order: PhaseOrder<'_>,
    learning: &mut Numbered<u32>,
) -> Result<(), AllocError>
    requires { shape_of (task_of order).order_value.operands ≡ (row_of Verb.Study).shape }
    ensures { OnOk result (learning.new
        ≡ with_learner world.now campaign.now.value learning.old (task_of order.entry)) }
{
    let skill = skill_of(order);
    if let Some(unit) = own_unit(campaign, order)
        && can_learn(world, skill, &unit.holding)
    {
        learning.insert(order.unit, u32::from(skill))?;
    }
    Ok(())
}

/// The number of the skill that each learning unit is learning, by the units' numbers. The orders
/// are such as can be read with the world. AllocError without memory.
pub(crate) fn learners(
    alloc: Global,
    world: &World,
    campaign: &Campaign,
    month: &Month,
) -> Result<Numbered<u32>, AllocError>
    requires { AreFit world.now month.now.readings }
    ensures { IfOk result (λ learning. learning ≡ learners world.now campaign.now.value month.now) }
{
    let orders = month.orders(alloc, &StudyVerbs, Arrangement::ByUnit)?;
    let mut learning = Numbered::new(alloc);
    for order in &orders {
        add_learner(world, campaign, *order, &mut learning)?;
    }
    Ok(learning)
}

/// The law that exactly those units learn that have men and the fee for all of them, and for which
/// an order of STUDY of their own faction counts. Each learns the skill of such an order. Does
/// nothing. See docs/RULES.md, "Learning".
pub fn units_learn_by_orders()
    ensures { UnitsLearnByOrders }
{}
