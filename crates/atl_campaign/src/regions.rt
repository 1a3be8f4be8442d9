//! The regions of a campaign by number, with dirty marks: `rows` has the regions whose rows are
//! marked, `markets` those of which a stock is, `stocks` those all of whose stocks are, and `items`
//! single stocks. A call that changes or marks a region does nothing where no region has the number
//! given. `get` answers None there. Where memory runs out, the answer is AllocError.
ghost use Rattle.std.specs.Prelude.{◌≡◌, ◌≤◌, ◌+◌, ◌*◌, ◌⊎◌, IfOk, IsOk, OnOk, OnErr, None, option_copied, if◌then◌else◌};
ghost use Rattle.std.specs.FinMap as map;
ghost use Rattle.std.specs.FinSet as set;
ghost use Rattle.atl_world.specs.Limits.{number_count};
ghost use Rattle.atl_world.specs.Tracking.{IsAscendingListOf, marked_with};
ghost use Rattle.atl_campaign.specs.Marks.{AreStocksWithin};
ghost use Rattle.atl_campaign.specs.Regions.{MarksStockAt, number_in, unmarked_regions, with_item_marked, with_stocks_marked, with_region_number, with_stock_at};
ghost use Rattle.atl_campaign.specs.Stocks.{stock_in};

use atl_records::{Region, put_amount};
use atl_world::{Entries, MarkedNumbers, Marks, Numbered, let_go};
use std::alloc::{AllocError, Global};
use std::marker::Model;

/// The regions of a campaign by number, with dirty marks. The row of each region, all its stocks,
/// and single stocks can be marked, each for itself.
pub(crate) struct Regions {
    values: Numbered<Region>,
    // The numbers of the regions whose rows are marked, with room for every region.
    rows: Marks,
    // The numbers of the regions of which a stock is marked, with room for every region.
    markets: Marks,
    // The numbers of the regions all of whose stocks are marked, with room for every region.
    stocks: Marks,
    // The stocks that are marked one by one: the items' numbers, by the region's number.
    items: Numbered<Numbered<()>>,
}

impl Drop for Regions {
    fn drop(self) {
        let_go!(self: Regions { values, rows, markets, stocks, items });
    }
}

/// Clauses see the regions by number with their marks. There is room to mark the row and the stocks
/// of each, and a region with a marked stock is in `markets`.
impl Model for Regions {
    ghost use Rattle.atl_campaign.specs.Regions.{AreRegions, MarkedRegions, regions_code};

    ghost Value = { MarkedRegions };

    ghost coded = { regions_code };

    ghost view = { λ a. record {
      values = a.values;
      rows = a.rows.numbers;
      markets = a.markets.numbers;
      stocks = a.stocks.numbers;
      items = a.items;
    } };

    ghost invariant = { λ a. AreRegions a.values a.rows a.markets a.stocks a.items };
}

impl Regions {
    ghost use Rattle.std.specs.Option.{option_copied_mut};
    ghost use Rattle.std.specs.Borrow.{sem};
    ghost use Rattle.atl_campaign.specs.RegionLending.{LendsRegion};

    pub(crate) fn new(alloc: Global) -> Regions
        ensures { result ≡ unmarked_regions map.empty }
    {
        Regions {
            values: Numbered::new(alloc),
            rows: Marks::new(alloc),
            markets: Marks::new(alloc),
            stocks: Marks::new(alloc),
            items: Numbered::new(alloc),
        }
    }

    pub(crate) fn unmarked_from(
        alloc: Global,
        values: Numbered<Region>,
    ) -> Result<Regions, AllocError>
        ensures { IfOk result (λ regions. regions ≡ unmarked_regions values) }
    {
        let rows = Marks::with_room(alloc, values.len())?;
        let markets = Marks::with_room(alloc, values.len())?;
        let stocks = Marks::with_room(alloc, values.len())?;
        Ok(Regions {
            values,
            rows,
            markets,
            stocks,
            items: Numbered::new(alloc),
        })
    }

    pub(crate) fn get(&self, number: u32) -> Option<&Region>
        ensures { option_copied result ≡ map.get self.now.values number }
    {
        self.values.get(number)
    }

    /// The regions with their numbers, in rising order.
    pub(crate) fn iter(&self) -> Entries<'_, Region>
        ensures { result ≡ map.entries self.now.values }
    {
        self.values.iter()
    }

    pub(crate) fn len(&self) -> usize
        ensures { result ≡ map.len self.now.values }
    {
        self.values.len()
    }

    /// How many pieces of an item a region has in stock; 0 where it lists none or isn't there.
    pub(crate) fn stock(&self, number: u32, item: u32) -> u32
        ensures { result ≡ stock_in self.now.values number item }
    {
        match self.values.get(number) {
            Some(region) => region.stock(item),
            None => 0,
        }
    }

    /// Counts each marked row and each region in `markets` (a stock of it is marked), 2^33 at most.
    pub(crate) fn marked_count(&self) -> usize
        ensures value { result ≡ set.len self.now.rows + set.len self.now.markets }
        ensures small { result ≤ 2 * number_count }
        ensures within { AreStocksWithin self.now.markets self.now.stocks self.now.items }
    {
        self.rows.len() + self.markets.len()
    }

    pub(crate) fn marked_rows(&self) -> MarkedNumbers<'_>
        ensures { IsAscendingListOf self.now.rows result }
    {
        self.rows.iter()
    }

    pub(crate) fn marked_stocks(&self) -> MarkedNumbers<'_>
        ensures { IsAscendingListOf self.now.stocks result }
    {
        self.stocks.iter()
    }

    pub(crate) fn marked_stock_items(&self) -> Entries<'_, Numbered<()>>
        ensures { result ≡ map.entries self.now.items }
    {
        self.items.iter()
    }

    /// Lends a region, if there is one, and marks nothing.
    fn lend(&mut self, number: u32) -> Option<&mut Region>
        ensures* writes_back { sem 𝓛 (LendsRegion self.entry number result) }
        ensures value { option_copied_mut result ≡ map.get self.old.values number }
    {
        match self.values.get_mut(number) {
            Some(region) => Some(region),
            None => None,
        }
    }

    /// 0 where the region isn't there.
    fn peasants(&self, number: u32) -> u32
        ensures { result ≡ number_in (λ r. r.peasants) self.now.values number }
    {
        match self.values.get(number) {
            Some(region) => region.peasants,
            None => 0,
        }
    }

    /// 0 where the region isn't there.
    fn money(&self, number: u32) -> u32
        ensures { result ≡ number_in (λ r. r.money) self.now.values number }
    {
        match self.values.get(number) {
            Some(region) => region.money,
            None => 0,
        }
    }

    /// Marks the region's row, if `differs` is true.
    fn mark_row_if(&mut self, differs: bool, number: u32)
        ensures { self.new ≡ record self.old {
          rows = marked_with self.old.rows number
              (if differs then map.get self.old.values number else None);
        } }
    {
        if differs {
            self.rows.mark_present(&self.values, number);
        }
    }

    /// Marks the stock of an item or, where there is no memory for that, all stocks of the region.
    fn mark_item(&mut self, alloc: Global, number: u32, item: u32)
        ensures { (self.new ≡ with_item_marked self.old number item) ⊎ (self.new
            ≡ with_stocks_marked self.old number) }
    {
        match self.values.get(number) {
            Some(_) => {}
            None => return,
        }
        self.markets.mark_present(&self.values, number);
        match self.items.insert_under(alloc, number, item, ()) {
            Ok(()) => return,
            Err(_) => {}
        }
        self.stocks.mark_present(&self.values, number);
    }

    /// Marks the stock of an item in a region, unless it is `amount` already. Where there is no
    /// memory for that mark, all stocks of the region are marked.
    pub(crate) fn mark_stock(&mut self, alloc: Global, number: u32, item: u32, amount: u32)
        ensures marks { MarksStockAt self.old self.new number item amount }
        ensures values { self.new.values ≡ self.old.values }
    {
        if self.stock(number, item) != amount {
            self.mark_item(alloc, number, item);
        }
    }

    /// Marks the region's row if it had another number of peasants, and none of its stocks.
    pub(crate) fn set_peasants(&mut self, number: u32, peasants: u32)
        ensures { self.new ≡ with_region_number (λ r. r.peasants)
            (λ r. record r { peasants = peasants }) self.old number peasants }
    {
        let differs = self.peasants(number) != peasants;
        self.mark_row_if(differs, number);
        if let Some(region) = self.lend(number) {
            region.peasants = peasants;
        }
    }

    /// Marks the region's row if it had another amount of money, and none of its stocks.
    pub(crate) fn set_money(&mut self, number: u32, money: u32)
        ensures { self.new ≡ with_region_number (λ r. r.money) (λ r. record r { money = money })
            self.old number money }
    {
        let differs = self.money(number) != money;
        self.mark_row_if(differs, number);
        if let Some(region) = self.lend(number) {
            region.money = money;
        }
    }

    /// Sets how many pieces of an item a region has in stock, and marks nothing. An amount of 0
    /// isn't listed, which takes no memory. Without memory nothing changes.
    pub(crate) fn put_stock(&mut self, region: u32, item: u32, stock: u32) -> Result<(), AllocError>
        ensures ok { OnOk result
            (self.new.values ≡ with_stock_at self.old.values region item stock) }
        ensures err { OnErr result (self.new.values ≡ self.old.values) }
        ensures none { stock ≡ 0 → IsOk result }
        ensures marks { self.new ≡ record self.old { values = self.new.values } }
    {
        let Some(lent) = self.lend(region) else {
            return Ok(());
        };
        put_amount(&mut lent.stocks, item, stock)
    }

    pub(crate) fn unmark(&mut self)
        ensures { self.new ≡ unmarked_regions self.old.values }
    {
        self.rows.clear();
        self.markets.clear();
        self.stocks.clear();
        self.items.clear();
    }
}
