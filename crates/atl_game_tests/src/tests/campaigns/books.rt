//! Tests of `Books` alone, and of the books of a campaign (docs/RULES.md, "Books").
use super::making::founded_by;
use crate::tests::compare::{assert_count, assert_number};
use atl_campaign::{Books, BooksEntry, Campaign, Thing};
use atl_test_worlds::ISLE;
use std::process::Abort;
use std::test::Fail;

/// How many things the books count: money, people, wood and carts.
const THINGS: usize = 4;

fn book_wages(books: &mut Books) -> Result<(), Fail> {
    if books.len() != THINGS || books.amount(BooksEntry::Wages, Thing::Money) != 0 {
        return Err(Fail::new("empty books"));
    }
    books.book(BooksEntry::Wages, Thing::Money, -7);
    Ok(())
}

fn assert_wages(rt: &impl Abort, books: &Books) -> Result<(), Fail> {
    if books.len() != THINGS {
        return Err(Fail::new("four things"));
    }
    assert_number(rt, books.amount(BooksEntry::Wages, Thing::Money), -7);
    assert_number(rt, books.amount(BooksEntry::Study, Thing::Money), 0);
    assert_number(rt, books.amount(BooksEntry::Wages, Thing::People), 0);
    assert_number(rt, books.amount(BooksEntry::Wages, Thing::Item(1)), 0);
    Ok(())
}

#[test]
fn books_of_four_things(rt: HostRuntime) -> Result<(), Fail> {
    let mut books = Books::new(rt.alloc(), THINGS)?;
    book_wages(&mut books)?;
    assert_wages(&rt, &books)
}

/// The amounts of carts that are booked, and their entries. Income comes twice, so its amounts are
/// added up.
static BOOKED: [(BooksEntry, i64); 6] = [
    (BooksEntry::Income, 5),
    (BooksEntry::Income, 6),
    (BooksEntry::Lost, -8),
    (BooksEntry::Left, -9),
    (BooksEntry::Made, 10),
    (BooksEntry::Used, -11),
];

fn books_carts(campaign: &mut Campaign, entry: BooksEntry, amount: i64) -> Result<(), Fail> {
    if campaign.things() != THINGS {
        return Err(Fail::new("four things"));
    }
    let booked = campaign.booked(entry, Thing::Item(1));
    if booked.checked_add(amount).is_none() {
        return Err(Fail::new("an amount that fits"));
    }
    campaign.book(entry, Thing::Item(1), amount);
    Ok(())
}

fn book_all_carts(campaign: &mut Campaign) -> Result<(), Fail> {
    for (entry, amount) in BOOKED.iter() {
        books_carts(campaign, *entry, *amount)?;
    }
    Ok(())
}

/// `book_all_carts` books the first three amounts, and not the last three.
fn assert_booked_carts(rt: &impl Abort, campaign: &Campaign) -> Result<(), Fail> {
    if campaign.things() != THINGS {
        return Err(Fail::new("four things"));
    }
    assert_number(rt, campaign.booked(BooksEntry::Income, Thing::Item(1)), 11);
    assert_number(rt, campaign.booked(BooksEntry::Lost, Thing::Item(1)), -8);
    assert_number(rt, campaign.booked(BooksEntry::Used, Thing::Item(1)), -11);
    assert_number(rt, campaign.booked(BooksEntry::Income, Thing::Item(0)), 0);
    assert_number(rt, campaign.booked(BooksEntry::Founding, Thing::Money), 650);
    assert_number(
        rt,
        campaign.booked(BooksEntry::Founding, Thing::People),
        1300,
    );
    assert_count(rt, campaign.marks(), 5);
    Ok(())
}

#[test]
fn booking_in_a_campaign(rt: HostRuntime) -> Result<(), Fail> {
    let mut campaign = founded_by(rt.alloc(), ISLE)?;
    book_all_carts(&mut campaign)?;
    assert_booked_carts(&rt, &campaign)
}
