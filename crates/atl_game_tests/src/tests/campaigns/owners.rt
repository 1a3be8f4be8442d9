//! Tests of where units are, and of who owns the structures that they enter and leave. The island
//! is the world `ISLE` of atl_test_worlds.
use super::making::{BOAT, LODGE, founded_by};
use super::steps::{Step, StructureChange, UnitChange, make_step, make_steps};
use crate::tests::compare::{assert_row, assert_row_numbers};
use atl_campaign::Campaign;
use atl_test_worlds::ISLE;
use std::alloc::Global;
use std::process::Abort;
use std::test::Fail;

/// A step, and what is wanted after it: the owners of both structures, the units inside each
/// structure, in region 3 and of faction 1, and how many parts the step marked.
struct Case {
    step: Step,
    owners: (u32, u32),
    inside: (&'static [u32], &'static [u32]),
    region: &'static [u32],
    faction: &'static [u32],
    marks: usize,
}

/// Cases of owners, made in turn, as units enter and leave structures or are removed. At first
/// units 1 and 3 of faction 1, and unit 2 of faction 2, are in region 3, with a boat 1 and a lodge
/// 2 without owners.
static CASES: [Case; 13] = [
    // Who enters an ownerless structure owns it.
    Case {
        step: Step::Unit(2, UnitChange::Place(3, 1)),
        owners: (2, 0),
        inside: (&[2], &[]),
        region: &[1, 2, 3],
        faction: &[1, 3],
        marks: 2,
    },
    Case {
        step: Step::Unit(1, UnitChange::Place(3, 1)),
        owners: (2, 0),
        inside: (&[1, 2], &[]),
        region: &[1, 2, 3],
        faction: &[1, 3],
        marks: 1,
    },
    Case {
        step: Step::Unit(3, UnitChange::Place(3, 1)),
        owners: (2, 0),
        inside: (&[1, 2, 3], &[]),
        region: &[1, 2, 3],
        faction: &[1, 3],
        marks: 1,
    },
    // The owner leaves for the other structure: the lowest-numbered unit inside is next.
    Case {
        step: Step::Unit(2, UnitChange::Place(3, 2)),
        owners: (1, 2),
        inside: (&[1, 3], &[2]),
        region: &[1, 2, 3],
        faction: &[1, 3],
        marks: 3,
    },
    Case {
        step: Step::Unit(3, UnitChange::Place(3, 1)),
        owners: (1, 2),
        inside: (&[1, 3], &[2]),
        region: &[1, 2, 3],
        faction: &[1, 3],
        marks: 1,
    },
    // The owner leaves for another region.
    Case {
        step: Step::Unit(1, UnitChange::Place(4, 0)),
        owners: (3, 2),
        inside: (&[3], &[2]),
        region: &[2, 3],
        faction: &[1, 3],
        marks: 2,
    },
    Case {
        step: Step::Unit(9, UnitChange::Place(3, 1)),
        owners: (3, 2),
        inside: (&[3], &[2]),
        region: &[2, 3],
        faction: &[1, 3],
        marks: 0,
    },
    // The last unit inside is removed.
    Case {
        step: Step::Unit(3, UnitChange::Remove),
        owners: (0, 2),
        inside: (&[], &[2]),
        region: &[2],
        faction: &[1],
        marks: 2,
    },
    Case {
        step: Step::Unit(3, UnitChange::Remove),
        owners: (0, 2),
        inside: (&[], &[2]),
        region: &[2],
        faction: &[1],
        marks: 0,
    },
    Case {
        step: Step::Unit(1, UnitChange::Place(3, 2)),
        owners: (0, 2),
        inside: (&[], &[1, 2]),
        region: &[1, 2],
        faction: &[1],
        marks: 1,
    },
    // The owner is removed, and another unit is inside.
    Case {
        step: Step::Unit(2, UnitChange::Remove),
        owners: (0, 1),
        inside: (&[], &[1]),
        region: &[1],
        faction: &[1],
        marks: 2,
    },
    Case {
        step: Step::Unit(1, UnitChange::Place(3, 0)),
        owners: (0, 0),
        inside: (&[], &[]),
        region: &[1],
        faction: &[1],
        marks: 2,
    },
    Case {
        step: Step::Unit(1, UnitChange::Remove),
        owners: (0, 0),
        inside: (&[], &[]),
        region: &[],
        faction: &[],
        marks: 1,
    },
];

fn owner(campaign: &Campaign, structure: u32) -> u64 {
    match campaign.structure(structure) {
        Some(found) => u64::from(found.owner),
        None => 99,
    }
}

fn assert_owners(rt: &impl Abort, row: usize, campaign: &Campaign, case: &Case) {
    assert_row(rt, row, owner(campaign, 1), u64::from(case.owners.0));
    assert_row(rt, row, owner(campaign, 2), u64::from(case.owners.1));
    assert_row(rt, row, campaign.marks() as u64, case.marks as u64);
}

fn assert_lists(rt: &impl Abort, row: usize, campaign: &Campaign, case: &Case) {
    assert_row_numbers(rt, row, campaign.inside(1), case.inside.0);
    assert_row_numbers(rt, row, campaign.inside(2), case.inside.1);
    assert_row_numbers(rt, row, campaign.in_region(3), case.region);
    assert_row_numbers(rt, row, campaign.of_faction(1), case.faction);
}

fn assert_case(
    rt: &impl Abort,
    alloc: Global,
    campaign: &mut Campaign,
    row: usize,
    case: &Case,
) -> Result<(), Fail> {
    campaign.unmark();
    make_step(alloc, campaign, case.step)?;
    assert_owners(rt, row, campaign, case);
    assert_lists(rt, row, campaign, case);
    Ok(())
}

fn cases_hold(
    rt: &impl Abort,
    alloc: Global,
    campaign: &mut Campaign,
    cases: &[Case],
) -> Result<(), Fail> {
    for (row, case) in cases.iter().enumerate() {
        assert_case(rt, alloc, campaign, row, case)?;
    }
    Ok(())
}

/// Steps that add units 1 and 3 of faction 1, unit 2 of faction 2, a boat and a lodge to region 3.
static ARRIVALS: [Step; 5] = [
    Step::Comes(1, 1),
    Step::Comes(2, 2),
    Step::Comes(1, 3),
    Step::Begins(BOAT, 1),
    Step::Begins(LODGE, 2),
];

fn peopled(alloc: Global) -> Result<Campaign, Fail> {
    let mut campaign = founded_by(alloc, ISLE)?;
    make_steps(alloc, &mut campaign, &ARRIVALS)?;
    Ok(campaign)
}

/// Tests who owns a structure as units enter it, leave it and are removed. A unit that enters an
/// ownerless structure owns it. When the owner leaves or is removed, the lowest-numbered unit
/// inside is next. Each unit is listed where it is.
#[test]
fn placing_and_removing(rt: HostRuntime) -> Result<(), Fail> {
    let mut campaign = peopled(rt.alloc())?;
    cases_hold(&rt, rt.alloc(), &mut campaign, &CASES)
}

/// Steps that move all three units into the boat. Unit 2 enters first, and so owns it.
static ENTERING: [Step; 3] = [
    Step::Unit(2, UnitChange::Place(3, 1)),
    Step::Unit(1, UnitChange::Place(3, 1)),
    Step::Unit(3, UnitChange::Place(3, 1)),
];

/// Cases of `owner_after`: a structure, a unit that leaves it, and who owns it then (0: nobody).
/// Unit 2 owns the boat, and units 1 and 3 are inside.
static OWNERS_AFTER: [(u32, u32, u32); 5] = [(1, 2, 1), (1, 1, 2), (1, 3, 2), (2, 1, 0), (9, 1, 0)];

fn assert_next_owners(rt: &impl Abort, campaign: &Campaign) {
    for (row, (structure, leaving, wanted)) in OWNERS_AFTER.iter().enumerate() {
        let actual = campaign.owner_after(*structure, *leaving);
        assert_row(rt, row, u64::from(actual), u64::from(*wanted));
    }
}

/// Cases of a boat that is moved to region 2 with the units inside: its owner stays.
static SAILING: [Case; 4] = [
    Case {
        step: Step::Structure(1, StructureChange::Region(2)),
        owners: (2, 0),
        inside: (&[1, 2, 3], &[]),
        region: &[1, 2, 3],
        faction: &[1, 3],
        marks: 1,
    },
    Case {
        step: Step::Unit(1, UnitChange::Place(2, 1)),
        owners: (2, 0),
        inside: (&[1, 2, 3], &[]),
        region: &[2, 3],
        faction: &[1, 3],
        marks: 1,
    },
    Case {
        step: Step::Unit(2, UnitChange::Place(2, 1)),
        owners: (2, 0),
        inside: (&[1, 2, 3], &[]),
        region: &[3],
        faction: &[1, 3],
        marks: 1,
    },
    Case {
        step: Step::Unit(3, UnitChange::Place(2, 1)),
        owners: (2, 0),
        inside: (&[1, 2, 3], &[]),
        region: &[],
        faction: &[1, 3],
        marks: 1,
    },
];

fn sail_all(rt: &impl Abort, alloc: Global, campaign: &mut Campaign) -> Result<(), Fail> {
    make_steps(alloc, campaign, &ENTERING)?;
    assert_next_owners(rt, campaign);
    cases_hold(rt, alloc, campaign, &SAILING)?;
    assert_row_numbers(rt, 0, campaign.in_region(2), &[1, 2, 3]);
    Ok(())
}

/// Tests that `owner_after` gives who would own a structure if a unit left it, and that a boat that
/// is moved keeps its owner.
#[test]
fn going_inside_a_structure(rt: HostRuntime) -> Result<(), Fail> {
    let mut campaign = peopled(rt.alloc())?;
    sail_all(&rt, rt.alloc(), &mut campaign)
}
