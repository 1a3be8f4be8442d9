//! Plays the phases that a case asks for, on its campaign and its month.
ghost use Rattle.std.specs.Prelude.{All};
ghost use Rattle.atl_orders.specs.Mailing.{IsReadWith};
ghost use Rattle.atl_campaign.specs.Good.{IsEarly};
ghost use Rattle.atl_phase.specs.Month.{HaveOwnFactions};
ghost use Rattle.atl_phase.specs.Fit.{AreFit};
ghost use Rattle.atl_phase_tests.specs.Roomy.{IsRoomy};

use crate::failed::Failed;
use crate::months::month_of;
use crate::settings::{Setting, campaign_of, good_campaign};
use atl_campaign::{Campaign, Event, LAST_MONTH};
use atl_market::WorkPhase;
use atl_month::{OrderPhases, SeasonPhase, SweepPhase, UpkeepPhase, close_month};
use atl_orders::Mailing;
use atl_phase::{Month, Phase};
use atl_world::World;
use std::alloc::{AllocError, Global};

/// Which phases a case plays.
#[derive(Clone, Copy, Drop)]
pub(crate) enum Run {
    /// All phases that carry out orders, except WORK, which units also do without an order.
    Orders,
    Work,
    Upkeep,
    Season,
    /// The season, twice with the same words.
    Seasons,
    Sweep,
    /// All phases, as a month is closed.
    Month,
}

static RUNS: [(&str, Run); 7] = [
    ("orders", Run::Orders),
    ("work", Run::Work),
    ("upkeep", Run::Upkeep),
    ("season", Run::Season),
    ("seasons", Run::Seasons),
    ("sweep", Run::Sweep),
    ("month", Run::Month),
];

impl Run {
    pub fn of_name(name: &str) -> Option<Run> {
        for (listed, run) in RUNS.iter() {
            if name == *listed {
                return Some(*run);
            }
        }
        None
    }
}

/// WORK isn't among these phases.
fn carry_out(
    alloc: Global,
    world: &World,
    campaign: Campaign,
    month: Month,
) -> Result<(Campaign, Month), AllocError>
    requires early { IsEarly world.now campaign.value }
    requires room { IsRoomy campaign.value }
    requires read { AreFit world.now month.readings }
{
    OrderPhases.run(alloc, world, campaign, month)
}

fn work(
    alloc: Global,
    world: &World,
    campaign: Campaign,
    month: Month,
) -> Result<(Campaign, Month), AllocError>
    requires early { IsEarly world.now campaign.value }
    requires room { IsRoomy campaign.value }
    requires read { AreFit world.now month.readings }
{
    WorkPhase.run(alloc, world, campaign, month)
}

fn pay_upkeep(
    alloc: Global,
    world: &World,
    campaign: Campaign,
    month: Month,
) -> Result<(Campaign, Month), AllocError>
    requires early { IsEarly world.now campaign.value }
    requires room { IsRoomy campaign.value }
    requires read { AreFit world.now month.readings }
{
    UpkeepPhase.run(alloc, world, campaign, month)
}

fn play_season(
    alloc: Global,
    world: &World,
    campaign: Campaign,
    month: Month,
) -> Result<(Campaign, Month), AllocError>
    requires early { IsEarly world.now campaign.value }
    requires room { IsRoomy campaign.value }
    requires read { AreFit world.now month.readings }
{
    SeasonPhase.run(alloc, world, campaign, month)
}

fn play_seasons(
    alloc: Global,
    world: &World,
    campaign: Campaign,
    month: Month,
) -> Result<(Campaign, Month), AllocError>
    requires early { IsEarly world.now campaign.value }
    requires room { IsRoomy campaign.value }
    requires read { AreFit world.now month.readings }
{
    (SeasonPhase, SeasonPhase).run(alloc, world, campaign, month)
}

fn sweep(
    alloc: Global,
    world: &World,
    campaign: Campaign,
    month: Month,
) -> Result<(Campaign, Month), AllocError>
    requires early { IsEarly world.now campaign.value }
    requires room { IsRoomy campaign.value }
    requires read { AreFit world.now month.readings }
{
    SweepPhase.run(alloc, world, campaign, month)
}

/// A whole month is left to `close`: here it changes nothing.
fn run_phases(
    alloc: Global,
    world: &World,
    run: Run,
    campaign: Campaign,
    month: Month,
) -> Result<(Campaign, Month), AllocError>
    requires early { IsEarly world.now campaign.value }
    requires room { IsRoomy campaign.value }
    requires read { AreFit world.now month.readings }
{
    match run {
        Run::Orders => carry_out(alloc, world, campaign, month),
        Run::Work => work(alloc, world, campaign, month),
        Run::Upkeep => pay_upkeep(alloc, world, campaign, month),
        Run::Season => play_season(alloc, world, campaign, month),
        Run::Seasons => play_seasons(alloc, world, campaign, month),
        Run::Sweep => sweep(alloc, world, campaign, month),
        Run::Month => Ok((campaign, month)),
    }
}

fn close(
    alloc: Global,
    world: &World,
    setting: &Setting,
    mailings: Vec<Mailing>,
    words: &[u32],
) -> Result<(Campaign, Vec<Event>), Failed>
    requires read { All (IsReadWith world.now) mailings.items }
    requires own { HaveOwnFactions mailings.items }
{
    let campaign = good_campaign(alloc, world, setting)?;
    if campaign.month() >= LAST_MONTH || words.len() != world.regions().len() {
        return Err(Failed("a month comes before the last, and has a word for each region"));
    }
    Ok(close_month(alloc, world, campaign, mailings, words)?)
}

pub(crate) fn played(
    alloc: Global,
    world: &World,
    run: Run,
    setting: &Setting,
    mailings: Vec<Mailing>,
    words: &[u32],
) -> Result<(Campaign, Vec<Event>), Failed>
    requires read { All (IsReadWith world.now) mailings.items }
    requires own { HaveOwnFactions mailings.items }
{
    if let Run::Month = run {
        return close(alloc, world, setting, mailings, words);
    }
    let campaign = campaign_of(alloc, world, setting)?;
    let month = month_of(alloc, world, mailings, words)?;
    let (campaign, month) = run_phases(alloc, world, run, campaign, month)?;
    Ok((campaign, month.into_events()))
}
