//! The phase of the season: births, income and new goods of markets. AllocError without memory; the
//! campaign may then be changed in part. See docs/RULES.md, "Season".
ghost use Rattle.std.specs.Prelude.{◌≡◌, ◌≤◌, ◌<◌, ◌+◌, OnOk};
ghost use Rattle.atl_world.specs.Worlds.{IsWorld};
ghost use Rattle.atl_world.specs.Limits.{most_amount, most_growth};
ghost use Rattle.atl_campaign.specs.Covers.{MarksChanges};
ghost use Rattle.atl_campaign.specs.Good.{IsSteady};
ghost use Rattle.atl_phase.specs.Meaning.{most_moved};
ghost use Rattle.atl_phase.specs.Bounds.{HaveRoom};
ghost use Rattle.atl_upkeep.specs.Season.{births, grows_by, income, season, season_at, season_keeps, season_meaning, season_moves, with_growth};

use crate::limits::PER_HUNDRED;
use crate::restock::restock_region;
use atl_campaign::{BooksEntry, Campaign, Thing};
use atl_phase::{Month, Phase, PhaseResult};
use atl_world::World;
use std::alloc::{AllocError, Global};

/// The season: births, income and new goods of markets. The regions get the words of the dice in
/// the order of their numbers; one without a word has no season. See docs/RULES.md, "Season".
#[derive(Drop, Clone, Copy)]
pub struct SeasonPhase;

fn births(growth: u32, limit: u32, word: u32, peasants: u32) -> u32
    requires growth { growth ≤ most_growth }
    requires peasants { peasants ≤ most_amount }
    ensures { result ≡ births growth limit word peasants }
{
    let born = u64::from(peasants) * u64::from(word % (growth + 1)) / PER_HUNDRED;
    born.min(u64::from(limit.saturating_sub(peasants))) as u32
}

fn income(per_peasant: u32, limit: u32, peasants: u32, money: u32) -> u32
    ensures { result ≡ income per_peasant limit peasants money }
{
    let earned = u64::from(peasants) * u64::from(per_peasant);
    earned.min(u64::from(limit.saturating_sub(money))) as u32
}

/// `peasants` and `money` are those of the region of this number before.
fn add_births_and_income(
    campaign: &mut Campaign,
    number: u32,
    peasants: u32,
    money: u32,
    born: u32,
    earned: u32,
)
    requires things { 2 ≤ campaign.old.value.books.things }
    requires room { HaveRoom (grows_by most_amount) campaign.old.value }
    requires peasants { peasants + born ≤ most_amount }
    requires money { money + earned ≤ most_amount }
    ensures what { campaign.new.value
        ≡ with_growth campaign.old.value number peasants money born earned }
    ensures marks { MarksChanges campaign.old campaign.new }
{
    campaign.set_peasants(number, peasants + born);
    campaign.set_region_money(number, money + earned);
    campaign.book(BooksEntry::Births, Thing::People, i64::from(born));
    campaign.book(BooksEntry::Income, Thing::Money, i64::from(earned));
}

#[tactic(auto, unfolding(crate::specs::Season::season_at))]
fn carry_out_season(
    world: &World,
    campaign: &mut Campaign,
    number: u32,
    word: u32,
) -> Result<(), AllocError>
    requires steady { IsSteady world.now campaign.old.value }
    requires room { HaveRoom (season_moves most_amount) campaign.old.value }
    ensures what { OnOk result
        (campaign.new.value ≡ season_at world.now campaign.old.value (number, word)) }
    ensures marks { OnOk result (MarksChanges campaign.old campaign.new) }
{
    let Some(terrain) = world.terrain_of(number) else {
        return Ok(());
    };
    let (peasants, money) = match campaign.region(number) {
        Some(region) => (region.peasants, region.money),
        None => return Ok(()),
    };
    let rules = world.rules();
    let born = births(rules.growth, terrain.peasant_limit, word, peasants);
    let earned = income(rules.income, terrain.money_limit, peasants + born, money);
    add_births_and_income(campaign, number, peasants, money, born, earned);
    restock_region(world, campaign, number)
}

/// The words go to the regions in the order of their numbers; a region without one has no season.
/// `IsWorld` is promised for proofs alone.
fn carry_out_seasons(
    world: &World,
    campaign: &mut Campaign,
    words: &[u32],
) -> Result<(), AllocError>
    requires steady { IsSteady world.now campaign.old.value }
    requires room { HaveRoom (season_moves most_moved) campaign.old.value }
    ensures what { OnOk result
        (campaign.new.value ≡ season world.now campaign.old.value words.now) }
    ensures marks { OnOk result (MarksChanges campaign.old campaign.new) }
    ensures world { IsWorld world.now }
{
    let mut index = 0;
    for (number, _) in world.regions().iter() {
        match words.get(index) {
            Some(word) => carry_out_season(world, campaign, number, *word)?,
            None => return Ok(()),
        }
        index += 1;
    }
    Ok(())
}

/// Gives each region its births, its income and the new goods of its markets, by its word of the
/// dice; reports no event.
impl Phase for SeasonPhase {
    ghost meaning = { season_meaning };

    ghost book_bound = { season_moves most_moved };

    ghost keeps = { season_keeps };

    fn run(&self, _: Global, world: &World, mut campaign: Campaign, month: Month) -> PhaseResult {
        carry_out_seasons(world, &mut campaign, month.words())?;
        Ok((campaign, month))
    }
}
