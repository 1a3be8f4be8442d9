//! Books an amount that a phase takes out of the campaign. See docs/RULES.md, "Books".
ghost use Rattle.std.specs.Prelude.{pos, neg_ℤ, ◌≡◌, ◌<◌};
ghost use Rattle.atl_records.specs.Books.{amount_in, thing_index};
ghost use Rattle.atl_campaign.specs.Marking.{mark_amount};
ghost use Rattle.atl_campaign.specs.Campaign.{with_booking};
ghost use Rattle.atl_phase.specs.Bounds.{HasRoom};

use atl_campaign::{BooksEntry, Campaign, Thing};

/// Books an amount of a thing as gone out of the campaign, under an entry, and marks that amount of
/// the books. The books must have the thing, and room for the amount. It takes no memory.
pub fn book_taken(campaign: &mut Campaign, entry: BooksEntry, thing: Thing, amount: u32)
    requires there { thing_index thing < campaign.old.value.books.things }
    requires room { HasRoom amount (amount_in campaign.old.value.books entry thing) }
    ensures what { campaign.new.value
        ≡ with_booking campaign.old.value entry thing (neg_ℤ (pos amount)) }
    ensures marks { campaign.new.marks ≡ mark_amount campaign.old entry thing }
{
    campaign.book(entry, thing, -i64::from(amount));
}
