//! Tests that seven phases and `share` give the results of a plain reference calculation
//! (`reference`). The phases are SELL, BUY, TAX, RECRUIT, PRODUCE, WORK and upkeep, played on a
//! campaign of 300 units (`crowd`).
ghost use Rattle.atl_campaign.specs.Good.{IsGood};
ghost use Rattle.atl_phase.specs.Fit.{AreFit};

use super::crowd::{crowd, crowd_month, crowd_world};
use super::reference::plain::PlainCampaign;
use super::reference::sharing::SharingPhase;
use super::reference::trade::PlainTrade;
use super::reference::{shares, sharing, upkeep};
use super::shares::{are_small, assert_shares};
use atl_campaign::Campaign;
use atl_market::{BuyPhase, ProducePhase, RecruitPhase, SellPhase, TaxPhase, WorkPhase, share};
use atl_month::UpkeepPhase;
use atl_phase::{Month, Phase};
use atl_world::World;
use std::alloc::{AllocError, Global};
use std::process::Abort;
use std::test::Fail;

fn assert_equal_lists<T: PartialEq>(rt: &impl Abort, what: &str, actual: &[T], wanted: &[T]) {
    assert!(rt; actual.len() == wanted.len(), "so many {what}");
    for (place, (actual, wanted)) in actual.iter().zip(wanted.iter()).enumerate() {
        assert!(rt; actual == wanted, "{what}, at {place}");
    }
}

fn assert_amounts(
    rt: &impl Abort,
    alloc: Global,
    actual: &PlainCampaign,
    wanted: &PlainCampaign,
) -> Result<(), AllocError> {
    assert_equal_lists(
        rt,
        "goods",
        &actual.sorted_goods(alloc)?,
        &wanted.sorted_goods(alloc)?,
    );
    assert_equal_lists(
        rt,
        "stocks",
        &actual.sorted_stocks(alloc)?,
        &wanted.sorted_stocks(alloc)?,
    );
    assert_equal_lists(
        rt,
        "books",
        &actual.sorted_books(alloc)?,
        &wanted.sorted_books(alloc)?,
    );
    Ok(())
}

fn assert_campaign(
    rt: &impl Abort,
    alloc: Global,
    campaign: &Campaign,
    month: &Month,
    wanted: &PlainCampaign,
) -> Result<(), AllocError> {
    let actual = PlainCampaign::from_campaign(alloc, campaign)?;
    assert_equal_lists(rt, "units", &actual.people, &wanted.people);
    assert_equal_lists(rt, "regions", &actual.lands, &wanted.lands);
    assert_equal_lists(rt, "events", month.events(), &wanted.events);
    assert_amounts(rt, alloc, &actual, wanted)
}

/// A phase that is compared with the reference: one that shares pots, or upkeep.
#[derive(Clone, Copy, Drop)]
enum ComparedPhase {
    SharingPhase(SharingPhase),
    Upkeep,
}

static COMPARED_PHASES: [ComparedPhase; 7] = [
    ComparedPhase::SharingPhase(SharingPhase::Trade(PlainTrade::Sell)),
    ComparedPhase::SharingPhase(SharingPhase::Trade(PlainTrade::Buy)),
    ComparedPhase::SharingPhase(SharingPhase::Tax),
    ComparedPhase::SharingPhase(SharingPhase::Recruit),
    ComparedPhase::SharingPhase(SharingPhase::Produce),
    ComparedPhase::SharingPhase(SharingPhase::Work),
    ComparedPhase::Upkeep,
];

fn run_sell(
    alloc: Global,
    world: &World,
    campaign: Campaign,
    month: Month,
) -> Result<(Campaign, Month), AllocError>
    requires good { IsGood world.now campaign.value }
    requires read { AreFit world.now month.readings }
{
    SellPhase {}.run(alloc, world, campaign, month)
}

fn run_buy(
    alloc: Global,
    world: &World,
    campaign: Campaign,
    month: Month,
) -> Result<(Campaign, Month), AllocError>
    requires good { IsGood world.now campaign.value }
    requires read { AreFit world.now month.readings }
{
    BuyPhase {}.run(alloc, world, campaign, month)
}

fn run_tax(
    alloc: Global,
    world: &World,
    campaign: Campaign,
    month: Month,
) -> Result<(Campaign, Month), AllocError>
    requires good { IsGood world.now campaign.value }
    requires read { AreFit world.now month.readings }
{
    TaxPhase.run(alloc, world, campaign, month)
}

fn run_recruit(
    alloc: Global,
    world: &World,
    campaign: Campaign,
    month: Month,
) -> Result<(Campaign, Month), AllocError>
    requires good { IsGood world.now campaign.value }
    requires read { AreFit world.now month.readings }
{
    RecruitPhase.run(alloc, world, campaign, month)
}

fn run_produce(
    alloc: Global,
    world: &World,
    campaign: Campaign,
    month: Month,
) -> Result<(Campaign, Month), AllocError>
    requires good { IsGood world.now campaign.value }
    requires read { AreFit world.now month.readings }
{
    ProducePhase.run(alloc, world, campaign, month)
}

fn run_work(
    alloc: Global,
    world: &World,
    campaign: Campaign,
    month: Month,
) -> Result<(Campaign, Month), AllocError>
    requires good { IsGood world.now campaign.value }
    requires read { AreFit world.now month.readings }
{
    WorkPhase.run(alloc, world, campaign, month)
}

fn run_upkeep(
    alloc: Global,
    world: &World,
    campaign: Campaign,
    month: Month,
) -> Result<(Campaign, Month), AllocError>
    requires good { IsGood world.now campaign.value }
    requires read { AreFit world.now month.readings }
{
    UpkeepPhase.run(alloc, world, campaign, month)
}

fn run_sharing(
    alloc: Global,
    world: &World,
    sharing: SharingPhase,
    campaign: Campaign,
    month: Month,
) -> Result<(Campaign, Month), AllocError>
    requires good { IsGood world.now campaign.value }
    requires read { AreFit world.now month.readings }
{
    match sharing {
        SharingPhase::Trade(PlainTrade::Sell) => run_sell(alloc, world, campaign, month),
        SharingPhase::Trade(PlainTrade::Buy) => run_buy(alloc, world, campaign, month),
        SharingPhase::Tax => run_tax(alloc, world, campaign, month),
        SharingPhase::Recruit => run_recruit(alloc, world, campaign, month),
        SharingPhase::Produce => run_produce(alloc, world, campaign, month),
        SharingPhase::Work => run_work(alloc, world, campaign, month),
    }
}

fn run_phase(
    alloc: Global,
    world: &World,
    played: ComparedPhase,
    campaign: Campaign,
    month: Month,
) -> Result<(Campaign, Month), AllocError>
    requires good { IsGood world.now campaign.value }
    requires read { AreFit world.now month.readings }
{
    match played {
        ComparedPhase::SharingPhase(sharing) => run_sharing(alloc, world, sharing, campaign, month),
        ComparedPhase::Upkeep => run_upkeep(alloc, world, campaign, month),
    }
}

fn calculate_phase(
    alloc: Global,
    world: &World,
    played: ComparedPhase,
    plain: &mut PlainCampaign,
    month: &Month,
) -> Result<(), AllocError> {
    match played {
        ComparedPhase::SharingPhase(sharing) => sharing::play(alloc, sharing, world, plain, month),
        ComparedPhase::Upkeep => upkeep::play(alloc, world, plain),
    }
}

fn calculated_campaign(
    alloc: Global,
    world: &World,
    played: ComparedPhase,
    campaign: &Campaign,
    month: &Month,
) -> Result<PlainCampaign, AllocError> {
    let mut plain = PlainCampaign::from_campaign(alloc, campaign)?;
    calculate_phase(alloc, world, played, &mut plain, month)?;
    Ok(plain)
}

fn assert_agreement(
    rt: &impl Abort,
    alloc: Global,
    world: &World,
    played: ComparedPhase,
) -> Result<(), Fail> {
    let campaign = crowd(alloc, world)?;
    let month = crowd_month(alloc, world)?;
    let wanted = calculated_campaign(alloc, world, played, &campaign, &month)?;
    let (campaign, month) = run_phase(alloc, world, played, campaign, month)?;
    assert_campaign(rt, alloc, &campaign, &month, &wanted)?;
    Ok(())
}

fn assert_all_agree(rt: &impl Abort, alloc: Global, world: &World) -> Result<(), Fail> {
    for played in COMPARED_PHASES.iter() {
        assert_agreement(rt, alloc, world, *played)?;
    }
    Ok(())
}

#[test]
fn phases_agree(rt: HostRuntime) -> Result<(), Fail> {
    let world = crowd_world(rt.alloc())?;
    assert_all_agree(&rt, rt.alloc(), &world)
}

/// Lists of wants among which a test shares every pot from 0 to `MOST_SHARED`. The largest pot is
/// more than all wants of any list together.
static WANTS: [&[u64]; 6] = [
    &[50, 60, 70],
    &[1, 1, 1, 1, 1, 1, 1],
    &[0, 99, 0, 1],
    &[13, 8, 5, 3, 2, 1, 1],
    &[97, 89, 83],
    &[0, 0],
];

const MOST_SHARED: u64 = 300;

fn assert_pot(rt: &impl Abort, alloc: Global, pot: u64, wants: &[u64]) -> Result<(), Fail> {
    if pot > MOST_SHARED || !are_small(wants) {
        return Err(Fail::new("a pot and wants that are small enough"));
    }
    let actual = share(alloc, pot, wants)?;
    let wanted = shares::share(alloc, pot, wants)?;
    assert_shares(rt, pot, &actual, &wanted);
    Ok(())
}

fn assert_pots(rt: &impl Abort, alloc: Global, wants: &[u64]) -> Result<(), Fail> {
    for pot in 0..=MOST_SHARED {
        assert_pot(rt, alloc, pot, wants)?;
    }
    Ok(())
}

#[test]
fn shares_agree(rt: HostRuntime) -> Result<(), Fail> {
    for wants in WANTS.iter() {
        assert_pots(&rt, rt.alloc(), wants)?;
    }
    Ok(())
}
