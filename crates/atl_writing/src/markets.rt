//! Writes the stocks of markets, one row for each region and item whose stock is not 0. Each call
//! is a step of a transaction on the ten tables and a clean disk; an error is the database's.
ghost use Rattle.std.specs.Prelude.{refl};
ghost use Rattle.atl_descriptions.specs.Tables.{Markets, market_table};
ghost use Rattle.atl_sql.specs.Shown.{market_row};
ghost use Rattle.atl_writing.specs.Marked.{region_and_item_pass};
ghost use Rattle.atl_writing.specs.Rows.{MarketRowsOf};
ghost use Rattle.atl_writing.specs.GroupedRows.{region_stock_lines, all_stocks_lines};
ghost use Rattle.atl_writing.specs.OwnStatements.{OfChange};
ghost use Rattle.atl_sql.specs.Writes.{Writes, WritesRow, WritesRows};
ghost use Rattle.atl_sql.specs.Inside.{DoesInside, HasTables};
ghost use Rattle.atl_writing.specs.Rewriting.{RewritesStocks};

use crate::amounts::{AmountWriter, put_amounts};
use crate::grouped::{Grouped, rewrite_marked_groups};
use crate::singles::{SingleAmounts, rewrite_singles};
use atl_campaign::{Campaign, Region};
use atl_rows::parts::StoredMarket;
use atl_sql::rows::market::drop_stocks;
use atl_sql::rows::{put, take_out};
use atl_world::{Entries, MarkedNumbers, Numbered};
use sqlite::{Alter, Error, Transaction, params};

/// Puts the row of a stock, also of 0.
fn put_stock<S: Alter>(
    tx: &mut Transaction<'_, S>,
    region: u32,
    item: u32,
    stock: u32,
) -> Result<(), Error>
    ensures { WritesRow S.Store market_table 2 (market_row region item stock) result tx.old.conn
        tx.new.conn }
{
    put::<StoredMarket, S>(tx, params![region, item, stock])
}

/// The stocks of one region as amounts to write, by the region's number.
#[derive(Clone, Copy)]
struct RegionStocks {
    region: u32,
}

impl AmountWriter for RegionStocks {
    ghost table = { market_table };

    ghost key = { 2 };

    ghost line = { λ m. market_row m.region };

    fn put<S: Alter>(
        self,
        tx: &mut Transaction<'_, S>,
        item: u32,
        stock: u32,
    ) -> Result<(), Error> {
        put_stock(tx, self.region, item, stock)
    }
}

fn put_stocks<S: Alter>(
    tx: &mut Transaction<'_, S>,
    number: u32,
    region: &Region,
) -> Result<(), Error>
    ensures { WritesRows S.Store market_table 2 (region_stock_lines number region.now) result
        tx.old.conn
        tx.new.conn }
{
    put_amounts(tx, RegionStocks { region: number }, region.stocks.iter())
}

/// Puts the rows of all stocks of these regions that are not 0, one region after another.
pub(crate) fn put_all_stocks<S: Alter>(
    tx: &mut Transaction<'_, S>,
    regions: Entries<'_, Region>,
) -> Result<(), Error>
    ensures { WritesRows S.Store market_table 2 (all_stocks_lines regions.entry) result tx.old.conn
        tx.new.conn }
{
    for (number, region) in regions {
        put_stocks(tx, number, region)?;
    }
    Ok(())
}

impl Grouped for Region {
    ghost part = { Markets };

    ghost is_grouped = { tt };

    ghost more = { 1 };

    ghost is_key = { refl };

    ghost lines = { region_stock_lines };

    ghost wanted = { λ c. MarketRowsOf c.regions };

    ghost marks = { λ m. m.stocks };

    ghost are_rows = { λ own c r is. is };

    fn marked_groups(campaign: &Campaign) -> MarkedNumbers<'_> {
        campaign.marked_stocks()
    }

    fn put_rows<S: Alter>(&self, tx: &mut Transaction<'_, S>, number: u32) -> Result<(), Error> {
        put_stocks(tx, number, self)
    }

    fn drop_rows<S: Alter>(tx: &mut Transaction<'_, S>, number: u32) -> Result<(), Error> {
        drop_stocks(tx, number)
    }
}

/// The single stocks that can be marked, each under its region and item.
#[derive(Clone, Copy)]
struct SingleStocks;

impl SingleAmounts for SingleStocks {
    ghost table = { market_table };

    ghost wanted = { λ c. MarketRowsOf c.regions };

    ghost finds = { λ s. region_and_item_pass };

    ghost marks = { λ s m. m.stock_items };

    fn marked_singles(self, campaign: &Campaign) -> Entries<'_, Numbered<()>> {
        campaign.marked_stock_items()
    }

    fn rewrite_single<S: Alter>(
        self,
        tx: &mut Transaction<'_, S>,
        campaign: &Campaign,
        owner: u32,
        number: u32,
    ) -> Result<(), Error> {
        let stock = campaign.stock(owner, number);
        if stock == 0 {
            return take_out::<StoredMarket, S>(tx, params![owner, number]);
        }
        put_stock(tx, owner, number, stock)
    }
}

/// Puts the marked rows of `market`, or deletes those that the campaign lacks: first of regions
/// whose stocks are all marked, then of stocks that are marked one by one.
pub(crate) fn rewrite_stocks<S: Alter>(
    tx: &mut Transaction<'_, S>,
    campaign: &Campaign,
) -> Result<(), Error>
    ensures { Writes S.Store (OfChange campaign.now.value)
        (DoesInside HasTables (RewritesStocks campaign.now)) result tx.old.conn tx.new.conn }
{
    rewrite_marked_groups::<Region, S>(tx, campaign)?;
    rewrite_singles(tx, campaign, SingleStocks)
}
