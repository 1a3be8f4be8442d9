//! The part of rule 4 that each row of the table `market` is of a market of the world.
ghost use Rattle.std.specs.Prelude.{◌≡◌};
ghost use Rattle.std.specs.List.{list_all};
ghost use Rattle.std.specs.Option.{option_copied};
ghost use Rattle.atl_world.specs.ByNumber.{market_of};
ghost use Rattle.atl_campaign.specs.FromRows.{as_u32};
ghost use Rattle.atl_campaign.specs.RowRules.{is_of_market};

use atl_campaign::as_u32;
use atl_campaign::parts::StoredMarket;
use atl_world::{Market, World};

pub(super) fn market_of<'w>(world: &'w World, row: &StoredMarket) -> Option<&'w Market>
    ensures { option_copied result
        ≡ market_of world.now (as_u32 row.now.region) (as_u32 row.now.item) }
{
    let plan = world.region(as_u32(row.region))?;
    plan.markets.get(as_u32(row.item))
}

fn is_of_market(world: &World, row: &StoredMarket) -> bool
    ensures { result ≡ is_of_market world.now row.now }
{
    market_of(world, row).is_some()
}

pub(crate) fn are_of_markets(world: &World, rows: &[StoredMarket]) -> bool
    ensures { result ≡ list_all (is_of_market world.now) rows.now }
{
    rows.iter().all(|row| is_of_market(world, row))
}
