//! Rule 2: keys that differ, numbers in their ranges, and not too many rows. It is checked where
//! rule 1 holds: there is one campaign row. AllocError says that there was no memory for the keys.
ghost use Rattle.std.specs.Prelude.{◌≡◌, IfOk, length, ◌↔◌, IsTrue};
ghost use Rattle.std.specs.List.{list_all};
ghost use Rattle.atl_campaign.specs.RowRules.{campaign_row_in_range, faction_in_range, region_in_range, unit_in_range, has_in_range, structure_in_range, books_bound, books_in_range, market_in_range, are_few, first_tables_in_range, numbers_in_range, AreRowsInRange};

use super::keys::tables_have_distinct_keys;
use super::markets::market_of;
use super::numbers::is_within;
use atl_campaign::parts::{
    Parts, StoredBooks, StoredCampaignRow, StoredFaction, StoredHas, StoredMarket, StoredRegion,
    StoredStructure, StoredUnit,
};
use atl_campaign::{as_u16, as_u32, campaign_row_of, is_from, is_set, unit_in_range};
use atl_records::{
    HOLDING_LIMIT, LAST_MONTH, LAST_UNIT, MOST_IN_JOINING, MOST_IN_MONTH, MOST_STRUCTURES,
    MOST_UNITS,
};
use atl_words::LAST_FACTION;
use atl_world::World;
use atl_world::limits::{MOST_AMOUNT, MOST_REGIONS};
use std::alloc::{AllocError, Global};

fn campaign_row_in_range(head: &StoredCampaignRow) -> bool
    ensures { result ≡ campaign_row_in_range head.now }
{
    is_from(0, LAST_MONTH, head.month)
        && is_from(1, LAST_FACTION + 1, head.next_faction)
        && is_from(1, LAST_UNIT + 1, head.next_unit)
        && is_from(1, MOST_STRUCTURES + 1, head.next_structure)
}

fn faction_in_range(row: &StoredFaction) -> bool
    ensures { result ≡ faction_in_range row.now }
{
    is_from(1, LAST_FACTION, row.number) && is_from(0, 1, row.gone)
}

fn region_in_range(row: &StoredRegion) -> bool
    ensures { result ≡ region_in_range row.now }
{
    is_from(0, MOST_AMOUNT, row.peasants) && is_from(0, MOST_AMOUNT, row.money)
}

/// Days of study (sort 1) have no range here: rule 6 judges them.
fn has_in_range(row: &StoredHas) -> bool
    ensures { result ≡ has_in_range row.now }
{
    is_from(1, 1, row.sort) || is_from(0, 0, row.sort) && is_from(1, HOLDING_LIMIT, row.amount)
}

/// A kind that the world lacks counts as one of size MOST_SIZE.
fn structure_in_range(world: &World, row: &StoredStructure) -> bool
    ensures { result ≡ structure_in_range world.now row.now }
{
    let size = world.size_of(as_u16(row.kind));
    is_from(1, MOST_STRUCTURES, row.number) && is_from(1, size, row.done)
}

fn books_in_range(bound: u128, row: &StoredBooks) -> bool
    ensures { result ≡ books_in_range bound row.now }
{
    is_set(row.amount) && is_within(bound, row.amount)
}

/// Where the world has no such market, a stock may be up to MOST_AMOUNT.
fn market_in_range(world: &World, row: &StoredMarket) -> bool
    ensures { result ≡ market_in_range world.now row.now }
{
    let limit = match market_of(world, row) {
        Some(market) => market.limit,
        None => MOST_AMOUNT,
    };
    is_from(1, limit, row.stock)
}

fn factions_in_range(rows: &[StoredFaction]) -> bool
    ensures { result ≡ list_all faction_in_range rows.now }
{
    rows.iter().all(|row| faction_in_range(row))
}

fn regions_in_range(rows: &[StoredRegion]) -> bool
    ensures { result ≡ list_all region_in_range rows.now }
{
    rows.iter().all(|row| region_in_range(row))
}

fn units_in_range(rows: &[StoredUnit]) -> bool
    ensures { result ≡ list_all unit_in_range rows.now }
{
    rows.iter().all(|row| unit_in_range(row))
}

fn all_has_in_range(rows: &[StoredHas]) -> bool
    ensures { result ≡ list_all has_in_range rows.now }
{
    rows.iter().all(|row| has_in_range(row))
}

fn structures_in_range(world: &World, rows: &[StoredStructure]) -> bool
    ensures { result ≡ list_all (structure_in_range world.now) rows.now }
{
    rows.iter().all(|row| structure_in_range(world, row))
}

fn all_books_in_range(bound: u128, rows: &[StoredBooks]) -> bool
    ensures { result ≡ list_all (books_in_range bound) rows.now }
{
    rows.iter().all(|row| books_in_range(bound, row))
}

fn markets_in_range(world: &World, rows: &[StoredMarket]) -> bool
    ensures { result ≡ list_all (market_in_range world.now) rows.now }
{
    rows.iter().all(|row| market_in_range(world, row))
}

fn are_few(parts: &Parts) -> bool
    ensures { result ≡ are_few parts.now }
{
    parts.factions.len() <= LAST_FACTION as usize
        && parts.regions.len() <= MOST_REGIONS
        && parts.units.len() <= MOST_UNITS
        && parts.structures.len() <= MOST_STRUCTURES as usize
}

fn first_tables_in_range(parts: &Parts) -> bool
    ensures { result ≡ first_tables_in_range parts.now }
{
    factions_in_range(parts.factions.as_slice())
        && regions_in_range(parts.regions.as_slice())
        && units_in_range(parts.units.as_slice())
        && all_has_in_range(parts.has.as_slice())
}

fn books_bound(parts: &Parts) -> u128
    requires { length parts.now.campaign ≡ 1 }
    ensures { result ≡ books_bound parts.now }
{
    let months = u128::from(as_u32(campaign_row_of(parts).month)) + 1;
    MOST_IN_MONTH * months + MOST_IN_JOINING * parts.factions.len() as u128
}

fn numbers_in_range(world: &World, parts: &Parts) -> bool
    requires { length parts.now.campaign ≡ 1 }
    ensures { result ≡ numbers_in_range world.now parts.now }
{
    campaign_row_in_range(campaign_row_of(parts))
        && first_tables_in_range(parts)
        && structures_in_range(world, parts.structures.as_slice())
        && all_books_in_range(books_bound(parts), parts.books.as_slice())
        && markets_in_range(world, parts.markets.as_slice())
}

pub(crate) fn rows_in_range(alloc: Global, world: &World, parts: &Parts) -> Result<bool, AllocError>
    requires { length parts.now.campaign ≡ 1 }
    ensures { IfOk result (λ yes. IsTrue yes ↔ (AreRowsInRange world.now parts.now)) }
{
    let keyed = tables_have_distinct_keys(alloc, parts)?;
    Ok(keyed && are_few(parts) && numbers_in_range(world, parts))
}
