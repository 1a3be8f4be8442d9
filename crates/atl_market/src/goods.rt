//! Takes used items from a unit and gives it made items, which it can use and make (`can`); both
//! are booked. `number` is the unit's. AllocError without memory; nothing is promised of the
//! campaign then.
ghost use Rattle.std.specs.Prelude.{◌≡◌, OnOk, Some};
ghost use Rattle.std.specs.FinMap as map;
ghost use Rattle.atl_campaign.specs.Covers.{MarksChanges};
ghost use Rattle.atl_records.specs.Holdings.{amount_of};
ghost use Rattle.atl_records.specs.declared.records.Unit.{Unit};
ghost use Rattle.atl_market.specs.Goods.{with_made, with_used};
ghost use Rattle.atl_market.specs.Making.{CanMake, CanUse};

use atl_campaign::{BooksEntry, Campaign, Thing};
use atl_phase::book_taken;
use atl_world::World;
use std::alloc::AllocError;

/// How much of an item unit `number` holds; 0 where the unit isn't there.
fn held_of(campaign: &Campaign, number: u32, item: u16) -> u32
    ensures { (u : Unit) → map.get campaign.now.value.units number ≡ Some u
        → result ≡ amount_of u.holding.items item }
{
    match campaign.unit(number) {
        Some(unit) => unit.holding.amount(u32::from(item)),
        None => 0,
    }
}

pub(crate) fn use_item(
    world: &World,
    campaign: &mut Campaign,
    number: u32,
    item: u16,
    amount: u32,
) -> Result<(), AllocError>
    requires can { CanUse world.now campaign.old.value number item amount }
    ensures what { OnOk result
        (campaign.new.value ≡ with_used campaign.old.value number item amount) }
    ensures marks { OnOk result (MarksChanges campaign.old campaign.new) }
{
    let left = held_of(campaign, number, item) - amount;
    campaign.set_item(number, u32::from(item), left)?;
    book_taken(campaign, BooksEntry::Used, Thing::Item(item), amount);
    Ok(())
}

pub(crate) fn make_item(
    world: &World,
    campaign: &mut Campaign,
    number: u32,
    item: u16,
    amount: u32,
) -> Result<(), AllocError>
    requires can { CanMake world.now campaign.old.value number item amount }
    ensures what { OnOk result
        (campaign.new.value ≡ with_made campaign.old.value number item amount) }
    ensures marks { OnOk result (MarksChanges campaign.old campaign.new) }
{
    let more = held_of(campaign, number, item) + amount;
    campaign.set_item(number, u32::from(item), more)?;
    campaign.book(BooksEntry::Made, Thing::Item(item), i64::from(amount));
    Ok(())
}
