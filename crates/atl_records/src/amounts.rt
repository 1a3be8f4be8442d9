//! How much of a thing (money, people or an item) a unit and a region hold.
ghost use Rattle.std.specs.Prelude.{◌≡◌};
ghost use Rattle.atl_records.specs.Amounts.{region_amount, unit_amount};

use crate::books::Thing;
use crate::holding::Holding;
use crate::records::Region;

/// How much of a thing a unit holds: money, men, or pieces of an item.
pub fn unit_amount(thing: Thing, holding: &Holding) -> u32
    ensures { result ≡ unit_amount thing holding.now }
{
    match thing {
        Thing::Money => holding.money(),
        Thing::People => holding.men(),
        Thing::Item(item) => holding.amount(u32::from(item)),
    }
}

/// How much of a thing a region holds: money, peasants, or pieces of an item in stock.
pub fn region_amount(thing: Thing, region: &Region) -> u32
    ensures { result ≡ region_amount thing region.now }
{
    match thing {
        Thing::Money => region.money,
        Thing::People => region.peasants,
        Thing::Item(item) => region.stock(u32::from(item)),
    }
}
