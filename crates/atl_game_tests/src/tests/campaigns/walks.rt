//! Tests of the walks over all factions, regions, units and structures of a campaign, and of its
//! totals.
use super::making::{LODGE, joined_by};
use super::shown::{Question, Row, assert_steps};
use super::steps::{Step, UnitChange, make_steps};
use crate::tests::compare::{assert_amount, assert_count, assert_text};
use atl_campaign::{Campaign, Thing};
use atl_test_worlds::ISLE;
use std::alloc::Global;
use std::process::Abort;
use std::test::Fail;

fn assert_faction_walk(rt: &impl Abort, campaign: &Campaign) -> Result<(), Fail> {
    assert_count(rt, campaign.factions().count(), 1);
    let (number, faction) = campaign.factions().next().ok_or("a faction")?;
    assert_amount(rt, number, 1);
    assert_text(rt, faction.pass.as_str(), "pw");
    Ok(())
}

fn assert_region_walk(rt: &impl Abort, campaign: &Campaign) -> Result<(), Fail> {
    assert_count(rt, campaign.regions().count(), 4);
    let (number, region) = campaign.regions().next().ok_or("a region")?;
    assert_amount(rt, number, 1);
    assert_amount(rt, region.peasants, 1000);
    Ok(())
}

fn assert_structure_walk(rt: &impl Abort, campaign: &Campaign) -> Result<(), Fail> {
    assert_count(rt, campaign.structures().count(), 1);
    let (number, structure) = campaign.structures().next().ok_or("a structure")?;
    assert_amount(rt, number, 1);
    assert_amount(rt, structure.kind.into(), LODGE.into());
    Ok(())
}

/// Steps that begin a lodge, give unit 1 12 wood, and clear the marks.
static MAKING: [Step; 3] = [
    Step::Begins(LODGE, 1),
    Step::Unit(1, UnitChange::LentItem(0, 12)),
    Step::Unmark,
];

/// What is asked after `MAKING`: the only unit, and the totals of money, people and items over the
/// four regions and this unit.
static TOTALS: [Row; 6] = [
    (Step::Nothing, Question::Units, "[1]", "0"),
    (
        Step::Nothing,
        Question::Unit(1),
        "Unit 1: 1 men, 1000 money, guard: false, [1, 3, 0]",
        "0",
    ),
    // 500 and 100 and 50 of the regions, and 1,000 of the unit.
    (Step::Nothing, Question::Total(Thing::Money), "1650", "0"),
    // 1,000 and 200 and 100 peasants, and one man.
    (Step::Nothing, Question::Total(Thing::People), "1301", "0"),
    (Step::Nothing, Question::Total(Thing::Item(0)), "12", "0"),
    (Step::Nothing, Question::Total(Thing::Item(1)), "0", "0"),
];

fn assert_walks(rt: &impl Abort, alloc: Global, campaign: &mut Campaign) -> Result<(), Fail> {
    make_steps(alloc, campaign, &MAKING)?;
    assert_faction_walk(rt, campaign)?;
    assert_region_walk(rt, campaign)?;
    assert_structure_walk(rt, campaign)?;
    assert_steps(rt, alloc, campaign, &TOTALS)
}

#[test]
fn walking_over_a_campaign(rt: HostRuntime) -> Result<(), Fail> {
    let mut campaign = joined_by(rt.alloc(), ISLE)?;
    assert_walks(&rt, rt.alloc(), &mut campaign)
}
