//! Founds a campaign of a world. Where memory runs out, the answer is AllocError. See
//! docs/RULES.md, "Founding".
ghost use Rattle.std.specs.Prelude.{◌≡◌, ◌≤◌, ◌+◌, IsTrue, IfOk, length, pos};
ghost use Rattle.std.specs.FinMap as map;
ghost use Rattle.atl_world.specs.Limits.{most_regions};
ghost use Rattle.atl_world.specs.Names.{pass_ok};
ghost use Rattle.atl_world.specs.Sums.{sum_over, map_values};
ghost use Rattle.atl_records.specs.declared.books.BooksEntry.TheVariants.{Founding};
ghost use Rattle.atl_records.specs.declared.books.Thing.TheVariants.{Money, People};
ghost use Rattle.atl_records.specs.Limits.{most_things, possible_things, most_founded};
ghost use Rattle.atl_records.specs.Books.{after_booking, no_amounts};
ghost use Rattle.atl_records.specs.Amounts.{region_amount};
ghost use Rattle.atl_campaign.specs.Marks.{no_marks};
ghost use Rattle.atl_campaign.specs.Founding.{founded_of, founded_region};
ghost use Rattle.atl_campaign.specs.Good.{IsGood};
ghost use Rattle.atl_campaign.specs.Regions.{unmarked_regions};

use super::Campaign;
use crate::regions::Regions;
use crate::totals::regions_total;
use atl_records::{Books, BooksEntry, ENTRY_COUNT, FIRST_ITEM, Region, Thing};
use atl_world::{Marks, Numbered, RegionPlan, Text, World};
use std::alloc::{AllocError, Global};

/// The planned regions as they are founded, with nothing in stock and nothing marked.
fn make_regions(alloc: Global, plans: &Numbered<RegionPlan>) -> Result<Regions, AllocError>
    ensures { IfOk result (λ regions. regions
        ≡ unmarked_regions (map_values founded_region plans.now)) }
{
    let mut regions = Numbered::new(alloc);
    for (number, plan) in plans.iter() {
        let region = Region {
            peasants: plan.peasants,
            money: plan.money,
            stocks: Numbered::new(alloc),
        };
        regions.insert(number, region)?;
    }
    Regions::unmarked_from(alloc, regions)
}

/// Books of this many things, from 2 to 65,538, with the money and the people of the regions booked
/// under founding: at most 10^14 of each. There have to be at most 10,000 regions.
fn founding_books(alloc: Global, things: usize, regions: &Regions) -> Result<Books, AllocError>
    requires few { length (map.entries regions.now.values) ≤ most_regions }
    requires some { 2 ≤ things }
    requires possible { things ≤ possible_things }
    ensures money { IfOk result
        (λ _. sum_over (λ r. region_amount Money r) regions.now.values ≤ most_founded) }
    ensures people { IfOk result
        (λ _. sum_over (λ r. region_amount People r) regions.now.values ≤ most_founded) }
    ensures value { IfOk result
        (λ books. books ≡ after_booking
        (after_booking (no_amounts things) Founding Money
        (pos (sum_over (λ r. region_amount Money r) regions.now.values))) Founding People
        (pos (sum_over (λ r. region_amount People r) regions.now.values))) }
{
    let mut books = Books::new(alloc, things)?;
    let money = regions_total(regions, Thing::Money);
    let people = regions_total(regions, Thing::People);
    books.book(BooksEntry::Founding, Thing::Money, money as i64);
    books.book(BooksEntry::Founding, Thing::People, people as i64);
    Ok(books)
}

/// The campaign right after founding: its month is 0, and there are no factions. The regions are
/// the world's, and the books, of at most 202 things, say what they hold. The campaign is good, and
/// nothing is marked. The pass text has to keep its rule. AllocError without memory. See
/// docs/RULES.md, "Founding".
pub fn founded(alloc: Global, world: &World, pass: &[u8]) -> Result<Campaign, AllocError>
    requires pass { IsTrue (pass_ok pass.now) }
    ensures definition { IfOk result (λ c. c.value ≡ founded_of world.now pass.now) }
    ensures good { IfOk result (λ c. IsGood world.now c.value) }
    ensures things { IfOk result (λ c. c.value.books.things ≤ most_things) }
    ensures marks { IfOk result (λ c. c.marks ≡ no_marks) }
{
    let pass = Text::from_utf8(alloc, pass)?;
    let regions = make_regions(alloc, world.regions())?;
    let things = FIRST_ITEM + world.items().len();
    let books = founding_books(alloc, things, &regions)?;
    let amounts_marked = Marks::with_room(alloc, ENTRY_COUNT * things)?;
    let mut campaign = Campaign::blank(alloc);
    campaign.pass = pass;
    campaign.regions = regions;
    campaign.books = books;
    campaign.amounts_marked = amounts_marked;
    Ok(campaign)
}
