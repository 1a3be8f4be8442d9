//! Gives the markets of a region their new goods. See docs/RULES.md, "Season".
ghost use Rattle.std.specs.Prelude.{◌≡◌, ◌<◌, Some, OnOk, length};
ghost use Rattle.std.specs.FinMap.{entries};
ghost use Rattle.atl_world.specs.ByNumber.{market_of};
ghost use Rattle.atl_world.specs.Limits.{most_amount};
ghost use Rattle.atl_world.specs.Worlds.{IsMarket, IsWorld};
ghost use Rattle.atl_campaign.specs.Covers.{MarksChanges};
ghost use Rattle.atl_world.specs.Every.{HasValue};
ghost use Rattle.atl_campaign.specs.Good.{IsSteady};
ghost use Rattle.atl_records.specs.declared.books.BooksEntry.TheVariants.{Stocked};
ghost use Rattle.atl_records.specs.declared.books.Thing.TheVariants.{Item};
ghost use Rattle.atl_phase.specs.Meaning.{moves_only};
ghost use Rattle.atl_phase.specs.Bounds.{HaveRoom};
ghost use Rattle.atl_upkeep.specs.Restock.{after_market_restock, after_restock, markets_of, restock, stocks_by};

use atl_campaign::{BooksEntry, Campaign, Thing};
use atl_world::{Market, World};
use std::alloc::AllocError;

fn restock(market: &Market, stock: u32) -> u32
    ensures { result ≡ restock market.now stock }
{
    market.restock.min(market.limit.saturating_sub(stock))
}

/// `market` is the world's market of the region for the item, and keeps the rules of markets.
#[tactic(auto, unfolding(crate::specs::Restock::after_market_restock))]
fn restock_market(
    world: &World,
    campaign: &mut Campaign,
    region: u32,
    item: u32,
    market: &Market,
) -> Result<(), AllocError>
    requires steady { IsSteady world.now campaign.old.value }
    requires there { market_of world.now region item ≡ Some market.now }
    requires known { IsMarket (length world.now.items) item market.now }
    requires room { HaveRoom (moves_only most_amount Stocked (Item item)) campaign.old.value }
    ensures what { OnOk result
        (campaign.new.value ≡ after_market_restock region campaign.old.value (item, market.now)) }
    ensures marks { OnOk result (MarksChanges campaign.old campaign.new) }
{
    let stock = campaign.stock(region, item);
    let more = restock(market, stock);
    campaign.set_stock(region, item, stock + more)?;
    campaign.book(
        BooksEntry::Stocked,
        Thing::Item(market.item),
        i64::from(more),
    );
    Ok(())
}

/// Gives all markets of a region their new goods, one after another in the order of their items;
/// nothing where the world has no such region. `IsWorld` is promised for proofs alone. AllocError
/// without memory; the campaign may then be changed in part.
pub(crate) fn restock_region(
    world: &World,
    campaign: &mut Campaign,
    region: u32,
) -> Result<(), AllocError>
    requires steady { IsSteady world.now campaign.old.value }
    requires room { HaveRoom (stocks_by most_amount) campaign.old.value }
    ensures what { OnOk result
        (campaign.new.value ≡ after_restock region campaign.old.value
        (entries (markets_of world.now region))) }
    ensures marks { OnOk result (MarksChanges campaign.old campaign.new) }
    ensures world { IsWorld world.now }
{
    let plan = match world.region(region) {
        Some(plan) => plan,
        None => return Ok(()),
    };
    for (item, market) in plan.markets.iter() {
        restock_market(world, campaign, region, item, market)?;
    }
    Ok(())
}
