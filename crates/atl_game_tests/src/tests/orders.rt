//! Tests of which orders of a month each phase gets and in which order, and of a month's aliases
//! and events.
use super::compare::assert_row_text;
use super::months::{month, world};
use super::phases::{Studying, Working};
use atl_campaign::{Event, EventVerb, Outcome};
use atl_instant::{FormPhase, GivePhase};
use atl_market::RecruitPhase;
use atl_orders::Verb;
use atl_phase::{Arrangement, Month, MonthLongVerbs, PhaseVerbs};
use atl_world::World;
use std::alloc::Global;
use std::process::Abort;
use std::test::Fail;

fn write_orders<P: PhaseVerbs>(
    alloc: Global,
    month: &Month,
    phase: &P,
    arrangement: Arrangement,
    output: &mut String,
) -> Result<(), Fail> {
    for order in month.orders(alloc, phase, arrangement)?.iter() {
        let line = format!(in alloc;
            "{} {} {} {};",
            order.unit,
            order.line,
            order.faction,
            order.order.verb.keyword()
        )?;
        output.push_str(&line)?;
    }
    output.push_str("|")?;
    Ok(())
}

fn orders_text(alloc: Global, month: &Month) -> Result<String, Fail> {
    let mut output = String::new(alloc);
    write_orders(
        alloc,
        month,
        &FormPhase,
        Arrangement::ByFaction,
        &mut output,
    )?;
    write_orders(alloc, month, &GivePhase, Arrangement::ByUnit, &mut output)?;
    write_orders(
        alloc,
        month,
        &RecruitPhase,
        Arrangement::ByUnit,
        &mut output,
    )?;
    write_orders(alloc, month, &Studying, Arrangement::ByUnit, &mut output)?;
    write_orders(alloc, month, &Working, Arrangement::ByUnit, &mut output)?;
    Ok(output)
}

/// Mailings, and the orders that each of five phases gets of them, as `orders_text` prints them.
static ORDERS_OF_PHASES: [(&[&str], &str); 9] = [
    (&[], "|||||"),
    // Of a unit's month-long orders the last counts, whatever its verb.
    (
        &["#ATLANTIS 1\nUNIT 1\nWORK\nSTUDY sailing"],
        "|||1 4 1 STUDY;||",
    ),
    (
        &["#ATLANTIS 1\nUNIT 1\nSTUDY sailing\nUNIT 2\nWORK\nUNIT 1\nMOVE north"],
        "||||2 5 1 WORK;|",
    ),
    // Of a unit's RECRUIT orders only the last counts, and each GIVE counts.
    (
        &["#ATLANTIS 1\nUNIT 1\nRECRUIT 2\nGIVE 2 1 wood\nRECRUIT 3\nGIVE 2 1 wood\nPAY 2 1"],
        "|1 4 1 GIVE;1 6 1 GIVE;1 7 1 PAY;|1 5 1 RECRUIT;|||",
    ),
    // Orders for aliases that have no unit are for unit 0.
    (
        &["#ATLANTIS 1\nUNIT 4\nFORM 1\nWORK\nEND\nFORM 2\nSTUDY sailing"],
        "4 3 1 FORM;4 6 1 FORM;|||0 7 1 STUDY;||",
    ),
    // Orders are sorted by unit, then by line, then by faction.
    (
        &[
            "#ATLANTIS 3\nUNIT 2\nPAY 1 1\nUNIT 1\nPAY 2 1",
            "#ATLANTIS 1\nUNIT 2\nPAY 1 1\n\nPAY 3 1",
        ],
        "|1 5 3 PAY;2 3 1 PAY;2 3 3 PAY;2 5 1 PAY;||||",
    ),
    (
        &[
            "#ATLANTIS 1\nUNIT 2\nPAY 1 1\n\nPAY 3 1",
            "#ATLANTIS 3\nUNIT 2\nPAY 1 1\nUNIT 1\nPAY 2 1",
        ],
        "|1 5 3 PAY;2 3 1 PAY;2 3 3 PAY;2 5 1 PAY;||||",
    ),
    // FORM orders are sorted by faction, then by line.
    (
        &[
            "#ATLANTIS 2\nUNIT 1\nFORM 1\nEND",
            "#ATLANTIS 1\nUNIT 9\nFORM 7\nEND\nUNIT 8\nFORM 1\nEND",
        ],
        "9 3 1 FORM;8 6 1 FORM;1 3 2 FORM;|||||",
    ),
    // If two factions give a unit month-long orders, the last of each counts.
    (
        &[
            "#ATLANTIS 2\nUNIT 1\nWORK",
            "#ATLANTIS 1\nUNIT 1\nWORK\nWORK",
        ],
        "||||1 3 2 WORK;1 4 1 WORK;|",
    ),
];

fn assert_row_orders(
    rt: &impl Abort,
    alloc: Global,
    world: &World,
    row: usize,
    texts: &[&str],
    wanted: &str,
) -> Result<(), Fail> {
    let month = month(alloc, world, texts)?;
    let output = orders_text(alloc, &month)?;
    assert_row_text(rt, row, output.as_str(), wanted);
    Ok(())
}

fn assert_all_orders(rt: &impl Abort, alloc: Global, world: &World) -> Result<(), Fail> {
    for (row, (texts, wanted)) in ORDERS_OF_PHASES.iter().enumerate() {
        assert_row_orders(rt, alloc, world, row, texts, wanted)?;
    }
    Ok(())
}

#[test]
fn orders_of_phases(rt: HostRuntime) -> Result<(), Fail> {
    let world = world(rt.alloc())?;
    assert_all_orders(&rt, rt.alloc(), &world)
}

/// FORM 1 of faction 1 made unit 7, and FORM 2 of faction 2 made unit 6.
fn formed(alloc: Global, world: &World) -> Result<Month, Fail> {
    let first = "#ATLANTIS 1\nUNIT 4\nFORM 1\nWORK\nEND\nFORM 2\nWORK";
    let second = "#ATLANTIS 2\nUNIT 5\nFORM 1\nSTUDY sailing\nEND\nFORM 2\nWORK";
    let mut month = month(alloc, world, &[second, first])?;
    month.set_alias(alloc, 1, 1, 7)?;
    month.set_alias(alloc, 2, 2, 6)?;
    Ok(month)
}

fn assert_month_long_orders(
    rt: &impl Abort,
    alloc: Global,
    world: &World,
    texts: &[&str],
    wanted: &str,
) -> Result<(), Fail> {
    let month = month(alloc, world, texts)?;
    let mut output = String::new(alloc);
    write_orders(
        alloc,
        &month,
        &MonthLongVerbs,
        Arrangement::ByUnit,
        &mut output,
    )?;
    assert_row_text(rt, 0, output.as_str(), wanted);
    Ok(())
}

#[test]
fn month_long_orders(rt: HostRuntime) -> Result<(), Fail> {
    let world = world(rt.alloc())?;
    let first =
        "#ATLANTIS 1\nUNIT 2\nWORK\nTAX\nMOVE north\nUNIT 1\nSTUDY sailing\nBUILD\nGIVE 2 1 wood";
    let second =
        "#ATLANTIS 2\nUNIT 2\nSAIL east\nUNIT 3\nTEACH 1\nUNIT 4\nPRODUCE wood\nUNIT 5\nTAX";
    assert_month_long_orders(
        &rt,
        rt.alloc(),
        &world,
        &[second, first],
        "1 8 1 BUILD;2 3 2 SAIL;2 5 1 MOVE;3 5 2 TEACH;4 7 2 PRODUCE;|",
    )
}

fn assert_aliases(rt: &impl Abort, month: &Month) {
    assert!(rt; month.alias(1, 1) == Some(7));
    assert!(rt; month.alias(1, 2).is_none());
    assert!(rt; month.alias(2, 2) == Some(6));
    assert!(rt; month.alias(3, 1).is_none());
}

fn assert_formed(rt: &impl Abort, alloc: Global, month: &Month) -> Result<(), Fail> {
    assert_aliases(rt, month);
    let output = orders_text(alloc, month)?;
    assert_row_text(
        rt,
        0,
        output.as_str(),
        "4 3 1 FORM;4 6 1 FORM;5 3 2 FORM;5 6 2 FORM;|||0 4 2 STUDY;|0 7 1 WORK;6 7 2 WORK;7 4 1 WORK;|",
    );
    Ok(())
}

#[test]
fn aliases_of_factions(rt: HostRuntime) -> Result<(), Fail> {
    let world = world(rt.alloc())?;
    let month = formed(rt.alloc(), &world)?;
    assert_formed(&rt, rt.alloc(), &month)
}

const EVENT: Event = Event {
    faction: 1,
    unit: 4,
    line: 3,
    verb: EventVerb::Order(Verb::Form),
    outcome: Outcome::Done(7),
};

fn assert_verb(rt: &impl Abort, output: Option<Verb>, wanted: Option<Verb>) {
    assert!(rt; output == wanted);
}

fn verb_at(month: &Month, faction: u32, place: usize) -> Option<Verb> {
    let entry = month.mailing(faction)?.entries.as_slice().get(place)?;
    Some(entry.order.verb)
}

fn assert_orders(rt: &impl Abort, month: &Month) {
    assert_verb(rt, verb_at(month, 1, 1), Some(Verb::Work));
    assert_verb(rt, verb_at(month, 2, 1), Some(Verb::Study));
    assert_verb(rt, verb_at(month, 2, 4), None);
    assert_verb(rt, verb_at(month, 3, 0), None);
    assert!(rt;
        month
            .mailing(2)
            .map(|mailing| mailing.entries.as_slice().len())
            == Some(4)
    );
    assert!(rt; month.mailing(3).is_none());
}

fn assert_events(rt: &impl Abort, mut month: Month) -> Result<(), Fail> {
    assert!(rt; month.events().is_empty());
    month.add_event(EVENT)?;
    assert!(rt; month.events() == [EVENT].as_slice());
    assert!(rt; month.words() == [7, 9].as_slice());
    let events = month.into_events();
    assert!(rt; events.len() == 1);
    Ok(())
}

#[test]
fn orders_and_events(rt: HostRuntime) -> Result<(), Fail> {
    let world = world(rt.alloc())?;
    let month = formed(rt.alloc(), &world)?;
    assert_orders(&rt, &month);
    assert_events(&rt, month)
}
