//! Tests of units removed and added in turn: who is there, what is marked, and the campaign's rows.
use super::checks::checked;
use super::making::{FAR, joined_in};
use super::shown::{Question, Row, assert_steps};
use super::steps::{FactionChange, RegionChange, Step, UnitChange, make_steps};
use crate::tests::compare::assert_count;
use atl_campaign::Campaign;
use atl_tables::read_world;
use atl_test_worlds::ISLE;
use atl_world::World;
use std::alloc::Global;
use std::process::Abort;
use std::test::Fail;

/// Steps that add and remove units in turn. Avalon gets its report and three men, who leave the
/// peasants; then ten times a unit goes and another comes.
static UNITS_IN_TURN: [Step; 25] = [
    Step::Faction(1, FactionChange::Report("A report.\n")),
    Step::Comes(1, 2),
    Step::Comes(1, 3),
    Step::Comes(1, 4),
    Step::Region(FAR, RegionChange::Peasants(197)),
    Step::Unit(3, UnitChange::Remove),
    Step::Comes(1, 5),
    Step::Unit(2, UnitChange::Remove),
    Step::Comes(1, 6),
    Step::Unit(5, UnitChange::Remove),
    Step::Comes(1, 7),
    Step::Unit(4, UnitChange::Remove),
    Step::Comes(1, 8),
    Step::Unit(8, UnitChange::Remove),
    Step::Comes(1, 9),
    Step::Unit(6, UnitChange::Remove),
    Step::Comes(1, 10),
    Step::Unit(10, UnitChange::Remove),
    Step::Comes(1, 11),
    Step::Unit(7, UnitChange::Remove),
    Step::Comes(1, 12),
    Step::Unit(11, UnitChange::Remove),
    Step::Comes(1, 13),
    Step::Unit(9, UnitChange::Remove),
    Step::Comes(1, 14),
];

/// Steps that show the marks: units that came and units that went are marked. After the marks are
/// cleared, only what changes from then on is marked.
static MARKS: [Row; 6] = [
    (
        Step::Nothing,
        Question::Units,
        "[1, 12, 13, 14]",
        "20, factions [1], regions [3], units [1, 2, 3, 4, 5, 6, 7, 8, 9, 10, 11, 12, 13, 14], \
            rows [1, 2, 3, 4, 5, 6, 7, 8, 9, 10, 11, 12, 13, 14], goods [1, 2, 3, 4, 5, 6, 7, 8, 9, 10, 11, 12, 13, 14], \
            reports [1], the campaign, joining money, joining people",
    ),
    (Step::Unmark, Question::Units, "[1, 12, 13, 14]", "0"),
    (
        Step::Unit(13, UnitChange::Remove),
        Question::Units,
        "[1, 12, 14]",
        "1, units [13], rows [13], goods [13]",
    ),
    (
        Step::Comes(1, 15),
        Question::Units,
        "[1, 12, 14, 15]",
        "3, units [13, 15], rows [13, 15], goods [13, 15], the campaign",
    ),
    (
        Step::Unit(12, UnitChange::Money(0)),
        Question::Units,
        "[1, 12, 14, 15]",
        "4, units [12, 13, 15], rows [12, 13, 15], goods [13, 15], the campaign",
    ),
    (Step::Unmark, Question::Units, "[1, 12, 14, 15]", "0"),
];

/// What `check` has to make of the campaign's rows after `MARKS`: a campaign with the same units,
/// and without a mark.
static MADE_AGAIN: [Row; 1] = [(Step::Nothing, Question::Units, "[1, 12, 14, 15]", "0")];

fn assert_made_again(
    rt: &impl Abort,
    alloc: Global,
    world: &World,
    first: &Campaign,
) -> Result<(), Fail> {
    let mut again = checked(alloc, world, first.parts()?)?;
    assert_count(rt, again.in_region(FAR).len(), 4);
    assert_steps(rt, alloc, &mut again, &MADE_AGAIN)
}

fn assert_units_in_turn(rt: &impl Abort, alloc: Global, world: &World) -> Result<(), Fail> {
    let mut campaign = joined_in(alloc, world)?;
    make_steps(alloc, &mut campaign, &UNITS_IN_TURN)?;
    assert_steps(rt, alloc, &mut campaign, &MARKS)?;
    assert_made_again(rt, alloc, world, &campaign)
}

#[test]
fn units_go_and_come(rt: HostRuntime) -> Result<(), Fail> {
    let world = read_world(rt.alloc(), ISLE)?;
    assert_units_in_turn(&rt, rt.alloc(), &world)
}
