//! The table `market`: a row for each item of a region that is in stock.
ghost use Rattle.std.specs.Prelude.{refl};
ghost use Rattle.std.proofs.Common.{lit<};
ghost use Rattle.atl_descriptions.specs.Tables.{Markets};

use crate::record::{Record, Written};
use crate::table;
use crate::table::{Statements, Table, UniqueKey};
use atl_columns::numbers::Number;
use atl_rows::parts::StoredMarket;
use atl_world::Format;

const MARKET: (Table, Statements) = table!(Second 12 "market"
    keys 13 { 1 "region" "INTEGER", 2 "item" "INTEGER" }
    columns { 3 "stock" "INTEGER" });

impl Record for StoredMarket {
    type Fields = (Number, (Number, (Number, ())));

    ghost part = { Markets };

    ghost of_fields = { λ (region, (item, (stock, end))). record { region = region; item = item; stock = stock } };

    ghost to_fields = { λ r. (r.region, (r.item, (r.stock, tt))) };

    ghost is_narrow = { lit< tt };

    ghost has_columns = { refl };

    ghost is_wide = { refl };

    ghost again = { λ x. refl };

    fn table() -> Table {
        MARKET.0
    }

    fn of_fields((region, (item, (stock, ()))): (i64, (i64, (i64, ())))) -> StoredMarket {
        StoredMarket {
            region,
            item,
            stock,
        }
    }
}

impl Written for StoredMarket {
    ghost is_written = { tt };

    fn statements() -> Statements {
        MARKET.1
    }
}
