//! WORK: units share the work places of their region's terrain, and each place pays the wage. See
//! docs/RULES.md, "Work". AllocError without memory; the campaign may then be changed in part.
ghost use Rattle.std.specs.Prelude.{⊤, ℕ, ◌≡◌, ◌<◌, ◌++◌, is_some, map, IfOk, OnOk};
ghost use Rattle.std.specs.FinMap.{get};
ghost use Rattle.std.specs.FinSet as set;
ghost use Rattle.std.specs.List.Sorted.{IsPermutation, IsSortedByKey};
ghost use Rattle.std.specs.Cmp.Lexicographic.{slice_cmp};
ghost use Rattle.std.specs.Ordering.{nat_cmp};
ghost use Rattle.atl_campaign.specs.Good.{IsSteady};
ghost use Rattle.atl_phase.specs.Meaning.{most_moved};
ghost use Rattle.atl_phase.specs.NoWorse.{all_no_worse};
ghost use Rattle.atl_world.specs.ByNumber.{terrain_of};
ghost use Rattle.atl_market.specs.Work.{places_at, wages_for, work_meaning, work_moves, work_orders, work_pots, written_work};
ghost use Rattle.atl_lines.specs.declared.order.Operands.TheVariants.{Nothing};
ghost use Rattle.atl_world.specs.declared.verb.Verb.TheVariants.{Work};
ghost use Rattle.atl_phase.specs.PhaseOrders.{key_of, task_of};
ghost use Rattle.atl_phase.specs.declared.phase_order.Arrangement.TheVariants.{ByUnit};
ghost use Rattle.atl_market.specs.Idle.{all_idle_orders, own_writers, with_writer};
ghost use Rattle.atl_market.specs.AfterPots.{WorksAtOnce};
ghost use Rattle.atl_market.specs.Payable.{CanWork};

use crate::pot_phase::{PotPhase, share_out};
use atl_campaign::{BooksEntry, Campaign, EventFault, HOLDING_LIMIT, Thing, Unit};
use atl_orders::{Mailing, Operands, Order, Verb};
use atl_phase::{
    Arrangement, Month, MonthLongVerbs, Phase, PhaseOrder, PhaseResult, add_events, is_of_faction,
};
use atl_pots::{Pots, pot_shares};
use atl_world::{Marks, Numbered, Sequence, World};
use std::alloc::{AllocError, Global};

/// The phase WORK: units with an order, or with men and without a month-long order, share the work
/// places of their region's terrain for wages. See docs/RULES.md, "Work".
#[derive(Drop, Clone, Copy)]
pub struct WorkPhase;

fn add_writer(campaign: &Campaign, unit: u32, faction: u32, writers: &mut Marks)
    requires { set.len writers.old.numbers < writers.old.room }
    ensures { writers.new ≡ record writers.old
        { numbers = with_writer campaign.now.value unit faction writers.old.numbers } }
{
    if is_of_faction(campaign, unit, faction) {
        writers.add(unit);
    }
}

/// The units for which their own faction wrote one of `orders`.
fn own_writers(
    alloc: Global,
    campaign: &Campaign,
    orders: &[PhaseOrder<'_>],
) -> Result<Marks, AllocError>
    ensures { IfOk result (λ writers. (unit : ℕ) → set.contains writers.numbers unit
        ≡ is_some (get (own_writers campaign.now.value (map task_of orders.now)) unit)) }
{
    let mut writers = Marks::with_room(alloc, orders.len())?;
    for order in orders {
        add_writer(campaign, order.unit, order.faction, &mut writers);
    }
    Ok(writers)
}

fn written_work<'m>(
    alloc: Global,
    orders: &[PhaseOrder<'m>],
) -> Result<Vec<PhaseOrder<'m>>, AllocError>
    ensures { IfOk result (λ list. map task_of list.items ≡ written_work (map task_of orders.now)) }
{
    let mut list = Vec::new(alloc);
    for order in orders {
        if matches!(order.order.verb, Verb::Work) {
            list.push(*order)?;
        }
    }
    Ok(list)
}

/// Appends an order of WORK for each unit with men for which its own faction wrote none of
/// `orders`. Each of them refers to the mailing `mailing` and the order `work`.
fn add_idle_orders<'m>(
    alloc: Global,
    campaign: &Campaign,
    orders: &[PhaseOrder<'m>],
    mailing: &'m Mailing,
    work: &'m Order,
    list: &mut Vec<PhaseOrder<'m>>,
) -> Result<(), AllocError>
    requires { work.now ≡ record { verb = Work; operands = Nothing } }
    ensures { OnOk result (map task_of list.new.items
        ≡ map task_of list.old.items ++ all_idle_orders campaign.now.value
        (map task_of orders.now)) }
{
    let writers = own_writers(alloc, campaign, orders)?;
    for (number, unit) in campaign.units() {
        if unit.holding.men() > 0 && !writers.contains(number) {
            list.push(PhaseOrder {
                unit: number,
                line: 0,
                faction: unit.faction,
                index: 0,
                mailing,
                order: work,
            })?;
        }
    }
    Ok(())
}

fn sort_by_unit(list: &mut Vec<PhaseOrder<'_>>)
    ensures moved { IsPermutation list.old.items list.new.items }
    ensures sorted { IsSortedByKey (λ o. key_of ByUnit (task_of o)) (slice_cmp nat_cmp)
        list.new.items }
{
    list.sort_unstable_by_key(
        |written|
            ensures { result ≡ key_of ByUnit (task_of written.now) }
        {
            [
                written.unit as usize,
                written.line as usize,
                written.faction as usize,
                written.index,
            ]
        },
    );
}

/// All orders, by unit, line and faction; those that no mailing has refer to `mailing` and `work`.
fn work_orders<'m>(
    alloc: Global,
    campaign: &Campaign,
    month: &'m Month,
    mailing: &'m Mailing,
    work: &'m Order,
) -> Result<Vec<PhaseOrder<'m>>, AllocError>
    requires { work.now ≡ record { verb = Work; operands = Nothing } }
    ensures { IfOk result (λ list. map task_of list.items
        ≡ work_orders campaign.now.value month.now) }
{
    let orders = month.orders(alloc, &MonthLongVerbs, Arrangement::ByUnit)?;
    let mut list = written_work(alloc, &orders)?;
    add_idle_orders(alloc, campaign, &orders, mailing, work, &mut list)?;
    sort_by_unit(&mut list);
    Ok(list)
}

/// An empty mailing of faction 0, for the orders that no mailing holds.
fn no_mailing(alloc: Global) -> Mailing {
    Mailing {
        faction: 0,
        text: Sequence::new(alloc),
        entries: Sequence::new(alloc),
        faults: Sequence::new(alloc),
    }
}

/// The pots of WORK: how many work places each region's terrain has.
#[derive(Drop)]
struct WorkPlaces<'a> {
    world: &'a World,
}

impl<'a> Pots for WorkPlaces<'a> {
    ghost pot_of = { λ pots. places_at pots.world.now };

    ghost ready = { λ _. ⊤ };

    fn pot(&self, region: u32) -> u64 {
        match self.world.terrain_of(region) {
            Some(terrain) => u64::from(terrain.places),
            None => 0,
        }
    }
}

fn wages_for(world: &World, region: u32, places: u32) -> u64
    ensures { result ≡ wages_for world.now region places }
{
    match world.terrain_of(region) {
        Some(terrain) => u64::from(places) * u64::from(terrain.wage),
        None => 0,
    }
}

/// The fault, want and share of a unit in WORK, and the wages that its work places pay it; the
/// event says how much money was paid.
impl PotPhase for WorkPhase {
    ghost meaning = { λ _. work_pots };

    ghost needs = { λ _. IsSteady };

    ghost can_pay = { λ _ _. CanWork };

    fn fault(&self, _world: &World, unit: &Unit, _order: PhaseOrder<'_>) -> Option<EventFault> {
        (unit.holding.men() == 0).then_some(EventFault::NoMen)
    }

    fn want(&self, world: &World, unit: &Unit, _order: PhaseOrder<'_>) -> u32 {
        match world.terrain_of(unit.region) {
            Some(terrain) => {
                let room = HOLDING_LIMIT - unit.holding.money();
                unit.holding.men().min(room / terrain.wage)
            }
            None => 0,
        }
    }

    fn grants(
        &self,
        alloc: Global,
        world: &World,
        campaign: &Campaign,
        _items: &Numbered<u16>,
        wants: &Numbered<u32>,
    ) -> Result<Numbered<u32>, AllocError> {
        pot_shares(alloc, campaign, &WorkPlaces { world }, wants)
    }

    fn event_number(&self, world: &World, unit: &Unit, share: u32) -> u64 {
        wages_for(world, unit.region, share)
    }

    #[tactic(auto, unfolding(crate::specs::Work::after_work))]
    fn pay(
        &self,
        world: &World,
        campaign: &mut Campaign,
        _items: &Numbered<u16>,
        number: u32,
        share: u32,
    ) -> Result<(), AllocError> {
        let Some(unit) = campaign.unit(number) else {
            return Ok(());
        };
        let held = unit.holding.money();
        let money = wages_for(world, unit.region, share) as u32;
        campaign.set_money(number, held + money);
        campaign.book(BooksEntry::Wages, Thing::Money, i64::from(money));
        Ok(())
    }
}

/// Carries out the orders of WORK, and the work of units with men without a month-long order, all
/// at once, with an event for each.
impl Phase for WorkPhase {
    ghost meaning = { work_meaning };

    ghost book_bound = { work_moves most_moved };

    ghost keeps = { all_no_worse };

    fn run(
        &self,
        alloc: Global,
        world: &World,
        mut campaign: Campaign,
        mut month: Month,
    ) -> PhaseResult {
        let mailing = no_mailing(alloc);
        let work = Order {
            verb: Verb::Work,
            operands: Operands::Nothing,
        };
        let orders = work_orders(alloc, &campaign, &month, &mailing, &work)?;
        let events = share_out(alloc, self, world, &mut campaign, &orders)?;
        drop(orders);
        add_events(&mut month, &events)?;
        Ok((campaign, month))
    }
}

/// The law that all units are paid their wages at once, in any campaign, by any orders, each by
/// what it held and where it was as the phase began. Nothing else of a unit changes, nor of a
/// region. Does nothing. See docs/RULES.md, "Work".
pub fn work_pays_all_at_once()
    ensures { WorksAtOnce }
{}
