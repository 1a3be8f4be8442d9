//! Tests of setting single items and skills of units: each is marked by itself.
use super::making::joined_by;
use super::shown::{Question, Row, assert_steps};
use super::steps::{Step, UnitChange};
use atl_test_worlds::ISLE;
use std::test::Fail;

/// The question how much unit 1 has of item 7, and its days of skill 3.
const GOODS: Question = Question::Goods(1, 7, 3);

/// Steps that set single items and skills, and what is marked after each. A unit counts as one
/// part, however many of its items and skills are marked. An item that becomes 0 is marked too; one
/// that is set to what the unit has of it already isn't, nor is one of a unit that isn't there.
static ONE_BY_ONE: [Row; 13] = [
    (Step::Unmark, GOODS, "0, 0 days", "0"),
    (
        Step::Unit(1, UnitChange::Days(3, 30)),
        GOODS,
        "0, 30 days",
        "1, units [1], skill 3 of unit 1",
    ),
    (
        Step::Unit(1, UnitChange::Days(3, 60)),
        GOODS,
        "0, 60 days",
        "1, units [1], skill 3 of unit 1",
    ),
    (Step::Unmark, GOODS, "0, 60 days", "0"),
    (
        Step::Unit(1, UnitChange::Item(7, 4)),
        GOODS,
        "4, 60 days",
        "1, units [1], item 7 of unit 1",
    ),
    (
        Step::Unit(1, UnitChange::Item(2, 1)),
        GOODS,
        "4, 60 days",
        "1, units [1], item 2 of unit 1, item 7 of unit 1",
    ),
    (Step::Unmark, GOODS, "4, 60 days", "0"),
    (
        Step::Unit(1, UnitChange::Item(7, 4)),
        GOODS,
        "4, 60 days",
        "0",
    ),
    (
        Step::Unit(1, UnitChange::Item(7, 0)),
        GOODS,
        "0, 60 days",
        "1, units [1], item 7 of unit 1",
    ),
    (Step::Unmark, GOODS, "0, 60 days", "0"),
    (
        Step::Unit(1, UnitChange::Item(7, 0)),
        GOODS,
        "0, 60 days",
        "0",
    ),
    (
        Step::Unit(9, UnitChange::Item(7, 4)),
        Question::Goods(9, 7, 3),
        "none",
        "0",
    ),
    (
        Step::Unit(9, UnitChange::Days(3, 30)),
        Question::Goods(9, 7, 3),
        "none",
        "0",
    ),
];

/// The wanted marks after an item and a skill of unit 1 were set, and `unit_mut` then lent its
/// holding or the unit was removed.
const WHOLE: &str = "1, units [1], rows [1], goods [1], item 7 of unit 1, skill 3 of unit 1";

/// Steps that set an item and a skill of unit 1, and then change its money through `unit_mut`,
/// which lends its holding, or remove it. Lending or removing the unit marks it as a whole besides.
/// A skill is marked even if it is set to the days that the unit has.
static AS_A_WHOLE: [Row; 8] = [
    (
        Step::Unit(1, UnitChange::Item(7, 4)),
        GOODS,
        "4, 60 days",
        "1, units [1], item 7 of unit 1",
    ),
    (
        Step::Unit(1, UnitChange::Days(3, 30)),
        GOODS,
        "4, 30 days",
        "1, units [1], item 7 of unit 1, skill 3 of unit 1",
    ),
    (
        Step::Unit(1, UnitChange::LentMoney(7)),
        GOODS,
        "4, 30 days",
        WHOLE,
    ),
    (Step::Unmark, GOODS, "4, 30 days", "0"),
    (
        Step::Unit(1, UnitChange::Item(7, 5)),
        GOODS,
        "5, 30 days",
        "1, units [1], item 7 of unit 1",
    ),
    (
        Step::Unit(1, UnitChange::Days(3, 30)),
        GOODS,
        "5, 30 days",
        "1, units [1], item 7 of unit 1, skill 3 of unit 1",
    ),
    (Step::Unit(1, UnitChange::Remove), GOODS, "none", WHOLE),
    (Step::Unmark, GOODS, "none", "0"),
];

/// Tests that an item or skill that is set is marked by itself, and that a unit is marked whole
/// once `unit_mut` lends its holding or it is removed.
#[test]
fn goods_are_marked(rt: HostRuntime) -> Result<(), Fail> {
    let mut campaign = joined_by(rt.alloc(), ISLE)?;
    assert_steps(&rt, rt.alloc(), &mut campaign, &ONE_BY_ONE)?;
    assert_steps(&rt, rt.alloc(), &mut campaign, &AS_A_WHOLE)
}
