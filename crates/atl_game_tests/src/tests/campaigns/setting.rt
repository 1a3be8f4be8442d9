//! Tests of the calls that set one part of a campaign: what each sets, and that it marks that part
//! alone.
use super::making::{FAR, LODGE, joined_by};
use super::shown::{Question, Row, assert_unmarked_steps};
use super::steps::{FactionChange, RegionChange, Step, StructureChange, UnitChange, make_step};
use atl_campaign::Campaign;
use atl_test_worlds::ISLE;
use std::alloc::Global;
use std::process::Abort;
use std::test::Fail;

/// Calls that set one part each, and what each marks. Avalon has joined, and a lodge is begun.
static CALLS: [Row; 20] = [
    (Step::Month(12), Question::Month, "12", "1, the campaign"),
    (
        Step::Faction(1, FactionChange::Name("Bree")),
        Question::Faction(1),
        "Bree, joined as Avalon pw, gone: false",
        "1, factions [1]",
    ),
    (
        Step::Faction(1, FactionChange::Gone),
        Question::Faction(1),
        "Bree, joined as Avalon pw, gone: true",
        "1, factions [1]",
    ),
    (
        Step::Faction(1, FactionChange::Mail("#ATLANTIS 1")),
        Question::Mail(1),
        "#ATLANTIS 1 of 1",
        "1, mail [1]",
    ),
    // The mail of each faction that had some is marked, once.
    (
        Step::ClearMail,
        Question::Mail(1),
        "none of 0",
        "1, mail [1]",
    ),
    (Step::ClearMail, Question::Mail(1), "none of 0", "0"),
    (
        Step::Faction(1, FactionChange::Report("A report.\n")),
        Question::Report(1),
        "A report.\n of 1",
        "1, reports [1]",
    ),
    (
        Step::Region(FAR, RegionChange::Peasants(77)),
        Question::Region(FAR),
        "77 peasants, 100 money",
        "1, regions [3]",
    ),
    (
        Step::Region(FAR, RegionChange::Money(88)),
        Question::Region(FAR),
        "77 peasants, 88 money",
        "1, regions [3]",
    ),
    (
        Step::Region(FAR, RegionChange::Peasants(77)),
        Question::Region(FAR),
        "77 peasants, 88 money",
        "0",
    ),
    (
        Step::Region(FAR, RegionChange::Money(88)),
        Question::Region(FAR),
        "77 peasants, 88 money",
        "0",
    ),
    (
        Step::Unit(1, UnitChange::Name("Bill")),
        Question::Unit(1),
        "Bill: 1 men, 1000 money, guard: false, [1, 3, 0]",
        "1, units [1], rows [1]",
    ),
    (
        Step::Unit(1, UnitChange::Men(999_999)),
        Question::Unit(1),
        "Bill: 999999 men, 1000 money, guard: false, [1, 3, 0]",
        "1, units [1], rows [1]",
    ),
    (
        Step::Unit(1, UnitChange::Money(999_999_999)),
        Question::Unit(1),
        "Bill: 999999 men, 999999999 money, guard: false, [1, 3, 0]",
        "1, units [1], rows [1]",
    ),
    (
        Step::Unit(1, UnitChange::Guard(true)),
        Question::Unit(1),
        "Bill: 999999 men, 999999999 money, guard: true, [1, 3, 0]",
        "1, units [1], rows [1]",
    ),
    (
        Step::Unit(1, UnitChange::Guard(false)),
        Question::Unit(1),
        "Bill: 999999 men, 999999999 money, guard: false, [1, 3, 0]",
        "1, units [1], rows [1]",
    ),
    (
        Step::Structure(1, StructureChange::Done(20)),
        Question::Structure(1),
        "A structure: kind 1, region 3, 20 done, owner 0",
        "1, structures [1]",
    ),
    (
        Step::Structure(1, StructureChange::Name("Hut")),
        Question::Structure(1),
        "Hut: kind 1, region 3, 20 done, owner 0",
        "1, structures [1]",
    ),
    (
        Step::Structure(1, StructureChange::Region(4)),
        Question::Structure(1),
        "Hut: kind 1, region 4, 20 done, owner 0",
        "1, structures [1]",
    ),
    (
        Step::Structure(1, StructureChange::Owner(1)),
        Question::Structure(1),
        "Hut: kind 1, region 4, 20 done, owner 1",
        "1, structures [1]",
    ),
];

/// Calls that change nothing and mark nothing, since nothing has their number 9.
static NOBODY: [Row; 12] = [
    (
        Step::Faction(9, FactionChange::Name("Bree")),
        Question::Faction(9),
        "none",
        "0",
    ),
    (
        Step::Faction(9, FactionChange::Gone),
        Question::Faction(9),
        "none",
        "0",
    ),
    (
        Step::Region(9, RegionChange::Peasants(1)),
        Question::Region(9),
        "none",
        "0",
    ),
    (
        Step::Region(9, RegionChange::Money(1)),
        Question::Region(9),
        "none",
        "0",
    ),
    (
        Step::Unit(9, UnitChange::Name("Bill")),
        Question::Unit(9),
        "none",
        "0",
    ),
    (
        Step::Unit(9, UnitChange::Men(1)),
        Question::Unit(9),
        "none",
        "0",
    ),
    (
        Step::Unit(9, UnitChange::Money(1)),
        Question::Unit(9),
        "none",
        "0",
    ),
    (
        Step::Unit(9, UnitChange::Guard(true)),
        Question::Unit(9),
        "none",
        "0",
    ),
    (
        Step::Structure(9, StructureChange::Done(1)),
        Question::Structure(9),
        "none",
        "0",
    ),
    (
        Step::Structure(9, StructureChange::Name("Hut")),
        Question::Structure(9),
        "none",
        "0",
    ),
    (
        Step::Structure(9, StructureChange::Region(1)),
        Question::Structure(9),
        "none",
        "0",
    ),
    (
        Step::Structure(9, StructureChange::Owner(1)),
        Question::Structure(9),
        "none",
        "0",
    ),
];

fn set_all(rt: &impl Abort, alloc: Global, campaign: &mut Campaign) -> Result<(), Fail> {
    make_step(alloc, campaign, Step::Begins(LODGE, 1))?;
    assert_unmarked_steps(rt, alloc, campaign, &CALLS)?;
    assert_unmarked_steps(rt, alloc, campaign, &NOBODY)
}

#[test]
fn each_call_sets_one_part(rt: HostRuntime) -> Result<(), Fail> {
    let mut campaign = joined_by(rt.alloc(), ISLE)?;
    set_all(&rt, rt.alloc(), &mut campaign)
}
