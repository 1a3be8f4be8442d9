//! Tests of the lines on orders in a report: faulty lines and events. The faction sees no region.
use crate::tests::compare::assert_text;
use atl_campaign::{Event, EventFault, EventVerb, JoinFault, Outcome};
use atl_orders::{FaultyLine, LineFault, Verb};
use atl_report::{View, report_text};
use atl_tables::read_world;
use atl_test_worlds::SMALL_WORLD;
use atl_world::{Sequence, Text, World};
use std::alloc::Global;
use std::process::Abort;
use std::test::Fail;

/// The faulty lines and the events of a month, and the wanted report of faction 1 on them.
struct Case {
    faults: &'static [FaultyLine],
    events: &'static [Event],
    wanted: &'static str,
}

const UNKNOWN_ORDER: FaultyLine = FaultyLine {
    line: 5,
    fault: LineFault::UnknownOrder,
};

const BAD_NAME: FaultyLine = FaultyLine {
    line: 65,
    fault: LineFault::BadName,
};

const WORKED: Event = Event {
    faction: 1,
    unit: 1,
    line: 6,
    verb: EventVerb::Order(Verb::Work),
    outcome: Outcome::Done(12),
};

/// An event of a QUIT that was not carried out: fault 11, which is WrongNumber.
const QUIT: Event = Event {
    faction: 1,
    unit: 1,
    line: 3,
    verb: EventVerb::Order(Verb::Quit),
    outcome: Outcome::Fault(11),
};

const STARVED: Event = Event {
    faction: 1,
    unit: 2,
    line: 0,
    verb: EventVerb::Upkeep,
    outcome: Outcome::Starved(3),
};

/// An event of upkeep that no month has: done, with a number beyond 32 bits.
const UPKEEP: Event = Event {
    faction: 1,
    unit: 2,
    line: 0,
    verb: EventVerb::Upkeep,
    outcome: Outcome::Done(4_294_967_300),
};

/// An event of a GIVE for an alias that no unit has: for unit 0, with fault 1, which is NotYours.
const GIVE_OF_NO_UNIT: Event = Event {
    faction: 1,
    unit: 0,
    line: 4,
    verb: EventVerb::Order(Verb::Give),
    outcome: Outcome::Fault(1),
};

/// An event with the fault 99, a number that no fault has.
const NAMELESS: Event = Event {
    faction: 1,
    unit: 1,
    line: 2,
    verb: EventVerb::Order(Verb::Give),
    outcome: Outcome::Fault(99),
};

/// An event of faction 2, which the report of faction 1 leaves out.
const OF_ANOTHER: Event = Event {
    faction: 2,
    unit: 7,
    line: 9,
    verb: EventVerb::Order(Verb::Tax),
    outcome: Outcome::Done(50),
};

static CASES: [Case; 9] = [
    Case {
        faults: &[],
        events: &[],
        wanted: "Atlantis report, month 3, faction 1 \"Avalon\".
Orders:
None.
",
    },
    Case {
        faults: &[UNKNOWN_ORDER],
        events: &[WORKED],
        wanted: "Atlantis report, month 3, faction 1 \"Avalon\".
Orders:
Line 5: 2 UnknownOrder.
Unit 1, line 6, WORK: done 12.
",
    },
    Case {
        faults: &[],
        events: &[QUIT],
        wanted: "Atlantis report, month 3, faction 1 \"Avalon\".
Orders:
Unit 1, line 3, QUIT: fault 11 WrongNumber.
",
    },
    Case {
        faults: &[],
        events: &[STARVED],
        wanted: "Atlantis report, month 3, faction 1 \"Avalon\".
Orders:
Unit 2: 3 starved.
",
    },
    Case {
        faults: &[],
        events: &[OF_ANOTHER, OF_ANOTHER],
        wanted: "Atlantis report, month 3, faction 1 \"Avalon\".
Orders:
None.
",
    },
    Case {
        faults: &[UNKNOWN_ORDER, BAD_NAME],
        events: &[OF_ANOTHER],
        wanted: "Atlantis report, month 3, faction 1 \"Avalon\".
Orders:
Line 5: 2 UnknownOrder.
Line 65: 11 BadName.
",
    },
    Case {
        faults: &[],
        events: &[GIVE_OF_NO_UNIT],
        wanted: "Atlantis report, month 3, faction 1 \"Avalon\".
Orders:
Unit 0, line 4, GIVE: fault 1 NotYours.
",
    },
    Case {
        faults: &[],
        events: &[NAMELESS],
        wanted: "Atlantis report, month 3, faction 1 \"Avalon\".
Orders:
Unit 1, line 2, GIVE: fault 99 .
",
    },
    Case {
        faults: &[BAD_NAME],
        events: &[OF_ANOTHER, WORKED, OF_ANOTHER, QUIT, UPKEEP, STARVED],
        wanted: "Atlantis report, month 3, faction 1 \"Avalon\".
Orders:
Line 65: 11 BadName.
Unit 1, line 6, WORK: done 12.
Unit 1, line 3, QUIT: fault 11 WrongNumber.
Unit 2, line 0, UPKEEP: done 4294967300.
Unit 2: 3 starved.
",
    },
];

fn empty_view(alloc: Global) -> Result<View, Fail> {
    Ok(View {
        month: 3,
        faction: 1,
        name: Text::from_str(alloc, "Avalon")?,
        regions: Sequence::new(alloc),
    })
}

fn assert_case(
    rt: &impl Abort,
    alloc: Global,
    world: &World,
    view: &View,
    case: &Case,
) -> Result<(), Fail> {
    let text = report_text(alloc, world, view, case.faults, case.events)?;
    assert_text(rt, text.as_str(), case.wanted);
    Ok(())
}

fn assert_cases(rt: &impl Abort, alloc: Global, world: &World) -> Result<(), Fail> {
    let view = empty_view(alloc)?;
    for case in CASES.iter() {
        assert_case(rt, alloc, world, &view, case)?;
    }
    Ok(())
}

#[test]
fn faults_and_events(rt: HostRuntime) -> Result<(), Fail> {
    let world = read_world(rt.alloc(), SMALL_WORLD)?;
    assert_cases(&rt, rt.alloc(), &world)
}

/// The fault of an order is printed as its number and name, and the fault of a join as its name
/// alone.
#[test]
fn printed_faults(rt: HostRuntime) -> Result<(), Fail> {
    let of_order = format!(in rt.alloc(); "{}", EventFault::NoWay)?;
    let of_joining = format!(in rt.alloc(); "{}", JoinFault::NameTaken)?;
    assert_text(&rt, of_order.as_str(), "17 NoWay");
    assert_text(&rt, of_joining.as_str(), "NameTaken");
    Ok(())
}
