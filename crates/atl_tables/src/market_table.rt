//! Reads the tables `[[region.market]]` and looks up their items. A call that may return a fault
//! may also return `Memory`. See docs/FORMATS.md, "The world file". What is read is in its ranges.
ghost use Rattle.std.specs.Prelude.{◌≡◌, ◌≤◌, IfOk, length};
ghost use Rattle.std.specs.List.{All};
ghost use Rattle.toml.specs.View.{table_view};
ghost use Rattle.atl_tables.specs.Drafts.{IsMarketDraft};
ghost use Rattle.atl_tables.specs.Faults.{first_fault};
ghost use Rattle.atl_tables.specs.Results.{Gives};
ghost use Rattle.atl_tables.specs.MarketTable.{market_keys, market_from, markets_keys, markets_from, market_known, market_of};
ghost use Rattle.atl_world.specs.Worlds.{IsMarket};

use crate::elements::{FromTable, array_elements};
use crate::fault::WorldFault;
use crate::has_number::HasNumber;
use crate::keys::{self, member, path};
use crate::titles::known_number;
use crate::world_draft::{Draft, WorldDraft};
use atl_world::limits::{MOST_AMOUNT, MOST_MARKETS, MOST_PRICE};
use atl_world::{Market, Sequence, Text, Titled, let_go};
use std::alloc::Global;
use toml::Table;

/// A table `[[region.market]]` as read, with its item by name.
pub struct MarketDraft {
    /// The path of the market's table, as `region[0].market[1]`.
    pub table_path: Text,
    pub item: Text,
    /// Money that a unit pays the market for one item, from 1 to `MOST_PRICE`.
    pub price: u32,
    /// Money that the market pays a unit for one item, from 1 to `MOST_PRICE`.
    pub pays: u32,
    /// The largest stock of the market, at most `MOST_AMOUNT`.
    pub limit: u32,
    /// How much comes into the stock in a month, at most `MOST_AMOUNT`.
    pub restock: u32,
}

impl Drop for MarketDraft {
    fn drop(self) {
        let_go!(self: MarketDraft { table_path, item, price, pays, limit, restock });
    }
}

impl FromTable for MarketDraft {
    ghost conditions = { market_keys };

    ghost record_of = { market_from };

    ghost is_sound = { IsMarketDraft };

    #[tactic(auto, unfolding(crate::specs::MarketTable::market_keys, crate::specs::MarketTable::market_from))]
    fn read(alloc: Global, at: &str, table: &Table) -> Result<MarketDraft, WorldFault> {
        let item = keys::text(alloc, "item", at, table)?;
        let price = keys::number(alloc, 1, MOST_PRICE, "price", at, table)?;
        let pays = keys::number(alloc, 1, MOST_PRICE, "pays", at, table)?;
        let limit = keys::number(alloc, 0, MOST_AMOUNT, "limit", at, table)?;
        let restock = keys::number(alloc, 0, MOST_AMOUNT, "restock", at, table)?;
        let own_path = Text::from_str(alloc, at)?;
        Ok(MarketDraft {
            table_path: own_path,
            item,
            price,
            pays,
            limit,
            restock,
        })
    }
}

/// The markets of the region at a path in the order of the file, none if `market` is missing.
/// An error is the first fault of their array, of at most `MOST_MARKETS`, or of one of them.
#[tactic(auto, unfolding(crate::specs::MarketTable::markets_keys, crate::specs::MarketTable::markets_from, crate::specs::Keys::optional_array_at, crate::specs::Arrays::list_conditions, crate::specs::Arrays::list_of))]
pub(crate) fn markets(
    alloc: Global,
    at: &str,
    table: &Table,
) -> Result<Sequence<MarketDraft>, WorldFault>
    ensures value { Gives (λ v. v) result (first_fault (markets_keys at.now (table_view table.now)))
        (markets_from at.now (table_view table.now)) }
    ensures sound { IfOk result (λ v. All IsMarketDraft v) }
{
    match member(table, "market") {
        None => Ok(Sequence::new(alloc)),
        Some(value) => {
            let array = path(alloc, at, "market")?;
            array_elements::<MarketDraft>(alloc, 0, MOST_MARKETS, array.as_str(), value)
        }
    }
}

impl Titled for MarketDraft {
    ghost title_of = { λ d. d.item };

    fn title(&self) -> &Text {
        &self.item
    }
}

impl Draft for MarketDraft {
    type Record = Market;

    ghost is_draft = { IsMarketDraft };

    ghost unknown = { λ all i d. market_known all d };

    ghost record_of = { market_of };

    ghost is_sound = { λ all i m. IsMarket (length all.items) m.item m };

    #[tactic(auto, unfolding(crate::specs::MarketTable::market_known, crate::specs::MarketTable::market_of))]
    fn resolve(&self, alloc: Global, all: &WorldDraft, _i: usize) -> Result<Market, WorldFault> {
        let at = self.table_path.as_str();
        let item = known_number(alloc, all.items.as_slice(), "item", at, &self.item)?;
        Ok(Market {
            item,
            price: self.price,
            pays: self.pays,
            limit: self.limit,
            restock: self.restock,
        })
    }
}

/// A market is stored under the number of its item.
impl HasNumber for Market {
    ghost own_number_of = { λ m. m.item };

    fn own_number(&self) -> u32 {
        u32::from(self.item)
    }
}
