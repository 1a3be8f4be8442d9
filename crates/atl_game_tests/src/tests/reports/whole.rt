//! A test of a whole report, in the small world after one faction, Avalon, has joined.
ghost use Rattle.std.specs.Prelude.{IfOk};
ghost use Rattle.atl_campaign.specs.Good.{IsGood};

use crate::tests::compare::assert_text;
use atl_campaign::{Campaign, Event, EventVerb, Outcome, founded};
use atl_orders::{FaultyLine, LineFault, Verb};
use atl_report::{report_text, view};
use atl_tables::read_world;
use atl_test_worlds::SMALL_WORLD;
use atl_world::World;
use std::alloc::Global;
use std::process::Abort;
use std::test::Fail;

static FAULTS: [FaultyLine; 1] = [FaultyLine {
    line: 5,
    fault: LineFault::UnknownOrder,
}];

/// An event of faction 1, and one of faction 2, which the report of faction 1 leaves out.
static EVENTS: [Event; 2] = [
    Event {
        faction: 1,
        unit: 1,
        line: 6,
        verb: EventVerb::Order(Verb::Work),
        outcome: Outcome::Done(12),
    },
    Event {
        faction: 2,
        unit: 2,
        line: 4,
        verb: EventVerb::Order(Verb::Tax),
        outcome: Outcome::Fault(5),
    },
];

/// The wanted report of faction 1 just after it has joined, with `FAULTS` and its own event.
const WHOLE: &str = "Atlantis report, month 0, faction 1 \"Avalon\".
Orders:
Line 5: 2 UnknownOrder.
Unit 1, line 6, WORK: done 12.
Region 1 \"Vale\", plain: 1000 peasants, 500 money.
Exits: none.
* Unit 1 \"Unit 1\": 1 men, 1000 money.
";

fn founded_in(alloc: Global, world: &World) -> Result<Campaign, Fail>
    ensures { IfOk result (λ campaign. IsGood world.now campaign.value) }
{
    Ok(founded(alloc, world, b"gm")?)
}

fn avalon_joins(world: &World, campaign: &mut Campaign) -> Result<(u32, u32), Fail>
    requires { IsGood world.now campaign.old.value }
{
    Ok(campaign.join(world, b"Avalon", b"pw", 0)?)
}

fn assert_report(
    rt: &impl Abort,
    alloc: Global,
    world: &World,
    campaign: &Campaign,
) -> Result<(), Fail> {
    let seen = view(alloc, world, campaign, 1)?;
    let text = report_text(alloc, world, &seen, &FAULTS, &EVENTS)?;
    assert_text(rt, text.as_str(), WHOLE);
    Ok(())
}

fn join_and_read(rt: &impl Abort, alloc: Global, world: &World) -> Result<(), Fail> {
    let mut campaign = founded_in(alloc, world)?;
    avalon_joins(world, &mut campaign)?;
    assert_report(rt, alloc, world, &campaign)
}

#[test]
fn orders_and_regions(rt: HostRuntime) -> Result<(), Fail> {
    let world = read_world(rt.alloc(), SMALL_WORLD)?;
    join_and_read(&rt, rt.alloc(), &world)
}
