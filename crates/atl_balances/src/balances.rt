//! Whether the books balance: what is booked of each thing is what units and regions hold of it.
//! There have to be at most 1,000,000 units and regions together.
ghost use Rattle.std.specs.Prelude.{◌≡◌, ◌<◌, ℕ, length, pos, ◌↔◌, IsTrue};
ghost use Rattle.atl_world.specs.Worlds.{IsWorld};
ghost use Rattle.atl_records.specs.Books.{booked, thing_index, AreBooks};
ghost use Rattle.atl_campaign.specs.Founding.{thing_count};
ghost use Rattle.atl_world.specs.Every.{Every};
ghost use Rattle.atl_campaign.specs.Good.{AreOfMarkets};
ghost use Rattle.atl_campaign.specs.Totals.{total, Balances, IsCountable};
ghost use Rattle.atl_records.specs.declared.books.Thing.TheVariants.{Money, People, Item};

use atl_campaign::Campaign;
use atl_records::Thing;
use atl_world::World;

/// Whether the books balance for one of their things.
fn is_balanced(campaign: &Campaign, thing: Thing) -> bool
    requires few { IsCountable campaign.now.value }
    requires there { thing_index thing < campaign.now.value.books.things }
    ensures { IsTrue result ↔
        (pos (total campaign.now.value thing) ≡ booked campaign.now.value.books thing) }
{
    i128::from(campaign.total(thing)) == campaign.books().sum(thing)
}

/// Whether the books balance for each item of the world. Their things have to be the world's. The
/// world keeps its rules (`world`).
fn are_items_balanced(world: &World, campaign: &Campaign) -> bool
    requires few { IsCountable campaign.now.value }
    requires things { campaign.now.value.books.things ≡ thing_count world.now }
    ensures decision { IsTrue result ↔
        ((i : ℕ) → i < length world.now.items
        → pos (total campaign.now.value (Item i)) ≡ booked campaign.now.value.books (Item i)) }
    ensures world { IsWorld world.now }
{
    for item in 0..world.items().len() as u16 {
        if !is_balanced(campaign, Thing::Item(item)) {
            return false;
        }
    }
    true
}

/// Whether the books balance for money and for people, which have to be things of the books.
fn are_people_balanced(campaign: &Campaign) -> bool
    requires few { IsCountable campaign.now.value }
    requires there { 1 < campaign.now.value.books.things }
    ensures { IsTrue result ↔
        ((pos (total campaign.now.value Money) ≡ booked campaign.now.value.books Money)
        × (pos (total campaign.now.value People) ≡ booked campaign.now.value.books People)) }
{
    is_balanced(campaign, Thing::Money) && is_balanced(campaign, Thing::People)
}

/// Whether the books balance: the total of each thing over all units and regions equals the sum
/// booked of it under all entries. There have to be at most 1,000,000 units and regions together.
/// All items held must be the world's, all stocks of the world's markets, and the books those of
/// the world's things (`AreBooks`). Takes no memory. See docs/RULES.md, "Books".
pub fn are_balanced(world: &World, campaign: &Campaign) -> bool
    requires few { IsCountable campaign.now.value }
    requires books { AreBooks (thing_count world.now) campaign.now.value.books }
    requires items { Every (λ n u. Every (λ i amount. i < length world.now.items) u.holding.items)
        campaign.now.value.units }
    requires stocks { Every (λ n r. AreOfMarkets world.now n r.stocks) campaign.now.value.regions }
    ensures { IsTrue result ↔ (Balances campaign.now.value) }
{
    are_people_balanced(campaign) && are_items_balanced(world, campaign)
}
