//! Tests of which parts are marked when a faction joins, when a unit or structure is added, and
//! when a unit is lent to be changed, or removed.
use super::making::{BOAT, avalon_joins, founded_in};
use super::shown::{Question, Row, assert_steps};
use super::steps::{RegionChange, Step, UnitChange};
use crate::tests::compare::{assert_amount, assert_count};
use atl_tables::read_world;
use atl_test_worlds::ISLE;
use atl_world::World;
use std::alloc::Global;
use std::process::Abort;
use std::test::Fail;

/// Calls that add a unit, begin a structure, lend a unit's holding (`unit_mut`), set money of a
/// unit and of a region, and remove a unit; and what is marked after each. The faction Avalon has
/// just joined.
static CALLS: [Row; 14] = [
    // The faction, its unit, its money and its man in the books, and the campaign's row.
    (
        Step::Nothing,
        Question::Counts,
        "[1, 4, 1, 0], next [2, 1]",
        "5, factions [1], units [1], rows [1], goods [1], the campaign, joining money, joining people",
    ),
    (
        Step::Unmark,
        Question::Counts,
        "[1, 4, 1, 0], next [2, 1]",
        "0",
    ),
    (
        Step::Comes(1, 2),
        Question::Counts,
        "[1, 4, 2, 0], next [3, 1]",
        "2, units [2], rows [2], goods [2], the campaign",
    ),
    (
        Step::Unmark,
        Question::Counts,
        "[1, 4, 2, 0], next [3, 1]",
        "0",
    ),
    (
        Step::Begins(BOAT, 1),
        Question::Counts,
        "[1, 4, 2, 1], next [3, 2]",
        "2, structures [1], the campaign",
    ),
    (
        Step::Unmark,
        Question::Unit(1),
        "Unit 1: 1 men, 1000 money, guard: false, [1, 3, 0]",
        "0",
    ),
    // A unit that is lent is marked, once; one that is not there is neither lent nor marked.
    (
        Step::Unit(1, UnitChange::LentMoney(7)),
        Question::Unit(1),
        "Unit 1: 1 men, 7 money, guard: false, [1, 3, 0]",
        "1, units [1], rows [1], goods [1]",
    ),
    (
        Step::Unit(1, UnitChange::LentMoney(7)),
        Question::Unit(1),
        "Unit 1: 1 men, 7 money, guard: false, [1, 3, 0]",
        "1, units [1], rows [1], goods [1]",
    ),
    (
        Step::Unit(9, UnitChange::LentMoney(7)),
        Question::Unit(9),
        "none",
        "1, units [1], rows [1], goods [1]",
    ),
    (Step::Unmark, Question::Units, "[1, 2]", "0"),
    // What a unit that is gone had is marked until all marks go.
    (
        Step::Unit(1, UnitChange::Money(5)),
        Question::Unit(1),
        "Unit 1: 1 men, 5 money, guard: false, [1, 3, 0]",
        "1, units [1], rows [1]",
    ),
    (
        Step::Region(3, RegionChange::Money(7)),
        Question::Region(3),
        "200 peasants, 7 money",
        "2, regions [3], units [1], rows [1]",
    ),
    (
        Step::Unit(1, UnitChange::Remove),
        Question::Units,
        "[2]",
        "2, regions [3], units [1], rows [1], goods [1]",
    ),
    (Step::Unmark, Question::Unit(1), "none", "0"),
];

fn assert_coming_and_going(rt: &impl Abort, alloc: Global, world: &World) -> Result<(), Fail> {
    let mut campaign = founded_in(alloc, world)?;
    assert_count(rt, campaign.marks(), 0);
    let (faction, unit) = avalon_joins(world, &mut campaign)?;
    assert_amount(rt, faction, 1);
    assert_amount(rt, unit, 1);
    assert_steps(rt, alloc, &mut campaign, &CALLS)
}

#[test]
fn coming_and_going_is_marked(rt: HostRuntime) -> Result<(), Fail> {
    let world = read_world(rt.alloc(), ISLE)?;
    assert_coming_and_going(&rt, rt.alloc(), &world)
}
