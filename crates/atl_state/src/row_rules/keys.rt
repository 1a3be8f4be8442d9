//! The part of rule 2 that no two rows of a table but `campaign` have the same key. AllocError says
//! that there was no memory for the keys.
ghost use Rattle.std.specs.Prelude.{◌≡◌, IfOk, map, ◌↔◌, IsTrue};
ghost use Rattle.std.specs.List.{IsDistinct};
ghost use Rattle.std.specs.List.Sorted.{IsPermutation, IsSorted, IsStrictlySortedBy};
ghost use Rattle.std.specs.Ordering.{eq_by_cmp};
ghost use Rattle.atl_campaign.specs.RowRules.{Key, faction_key, region_key, unit_key, has_key, structure_key, mail_key, report_key, books_key, market_key, HaveDistinctKeys, HaveDistinctKeysByTable};

use atl_campaign::parts::{
    Parts, StoredBooks, StoredFaction, StoredHas, StoredMail, StoredMarket, StoredRegion,
    StoredReport, StoredStructure, StoredUnit,
};
use std::alloc::{AllocError, Global};
use std::cmp::Ordering;

/// A row of a table, with its key as three numbers.
trait Keyed {
    ghost key_of: { Self → Key };

    /// The row's key as three numbers; those that its table's key doesn't have are 0.
    fn key(&self) -> (i64, i64, i64)
        ensures { result ≡ key_of self.now };
}

impl Keyed for StoredFaction {
    ghost key_of = { faction_key };

    fn key(&self) -> (i64, i64, i64) {
        (self.number, 0, 0)
    }
}

impl Keyed for StoredRegion {
    ghost key_of = { region_key };

    fn key(&self) -> (i64, i64, i64) {
        (self.number, 0, 0)
    }
}

impl Keyed for StoredUnit {
    ghost key_of = { unit_key };

    fn key(&self) -> (i64, i64, i64) {
        (self.number, 0, 0)
    }
}

impl Keyed for StoredHas {
    ghost key_of = { has_key };

    fn key(&self) -> (i64, i64, i64) {
        (self.unit, self.sort, self.thing)
    }
}

impl Keyed for StoredStructure {
    ghost key_of = { structure_key };

    fn key(&self) -> (i64, i64, i64) {
        (self.number, 0, 0)
    }
}

impl Keyed for StoredMail {
    ghost key_of = { mail_key };

    fn key(&self) -> (i64, i64, i64) {
        (self.faction, 0, 0)
    }
}

impl Keyed for StoredReport {
    ghost key_of = { report_key };

    fn key(&self) -> (i64, i64, i64) {
        (self.faction, 0, 0)
    }
}

impl Keyed for StoredBooks {
    ghost key_of = { books_key };

    fn key(&self) -> (i64, i64, i64) {
        (self.entry, self.thing, 0)
    }
}

impl Keyed for StoredMarket {
    ghost key_of = { market_key };

    fn key(&self) -> (i64, i64, i64) {
        (self.region, self.item, 0)
    }
}

fn keys_of<R: Keyed>(alloc: Global, rows: &[R]) -> Result<Vec<(i64, i64, i64)>, AllocError>
    ensures { IfOk result (λ keys. keys.items ≡ map R.key_of rows.now) }
{
    let mut keys = Vec::with_capacity(alloc, rows.len())?;
    for row in rows {
        keys.push(row.key())?;
    }
    Ok(keys)
}

/// Whether the keys rise strictly.
fn are_sorted<K: Ord + Drop>(keys: &[K]) -> bool
    ensures { IsTrue result ↔ (IsStrictlySortedBy K.cmp keys.now) }
{
    for i in 1..keys.len() {
        match keys[i - 1].cmp(&keys[i]) {
            Ordering::Less => {}
            Ordering::Equal | Ordering::Greater => return false,
        }
    }
    true
}

fn sorted<K: Ord + Copy + Drop>(alloc: Global, keys: &[K]) -> Result<Vec<K>, AllocError>
    ensures ordered { IfOk result (λ sorted. IsSorted K.cmp sorted.items) }
    ensures same { IfOk result (λ sorted. IsPermutation keys.now sorted.items) }
{
    let mut sorted = Vec::with_capacity(alloc, keys.len())?;
    for key in keys {
        sorted.push(*key)?;
    }
    sorted.sort_unstable();
    Ok(sorted)
}

/// Whether no two of the keys are equal by their order. Where they don't rise strictly, the test
/// takes n log n steps, and memory for each of them; AllocError without it.
pub fn are_distinct<K: Ord + Copy + Drop>(alloc: Global, keys: &[K]) -> Result<bool, AllocError>
    ensures { IfOk result (λ yes. IsTrue yes ↔ (IsDistinct (eq_by_cmp K.cmp) keys.now)) }
{
    if are_sorted(keys) {
        return Ok(true);
    }
    let sorted = sorted(alloc, keys)?;
    Ok(are_sorted(&sorted))
}

fn have_distinct_keys<R: Keyed>(alloc: Global, rows: &[R]) -> Result<bool, AllocError>
    ensures { IfOk result (λ yes. IsTrue yes ↔ (HaveDistinctKeys R.key_of rows.now)) }
{
    let keys = keys_of(alloc, rows)?;
    are_distinct(alloc, &keys)
}

pub(super) fn tables_have_distinct_keys(alloc: Global, parts: &Parts) -> Result<bool, AllocError>
    ensures { IfOk result (λ yes. IsTrue yes ↔ (HaveDistinctKeysByTable parts.now)) }
{
    let factions = have_distinct_keys(alloc, parts.factions.as_slice())?;
    let regions = have_distinct_keys(alloc, parts.regions.as_slice())?;
    let units = have_distinct_keys(alloc, parts.units.as_slice())?;
    let has = have_distinct_keys(alloc, parts.has.as_slice())?;
    let structures = have_distinct_keys(alloc, parts.structures.as_slice())?;
    let mail = have_distinct_keys(alloc, parts.mail.as_slice())?;
    let reports = have_distinct_keys(alloc, parts.reports.as_slice())?;
    let books = have_distinct_keys(alloc, parts.books.as_slice())?;
    let markets = have_distinct_keys(alloc, parts.markets.as_slice())?;
    let people = factions && regions && units && has;
    Ok(people && structures && mail && reports && books && markets)
}
