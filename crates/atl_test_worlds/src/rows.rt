//! Rows that tests begin with.

use atl_rows::parts::StoredUnit;
use atl_world::Sequence;
use std::alloc::{AllocError, Global};

/// The row of a unit of faction 1 with one man in region 1: it has no money, is in no structure,
/// and no flag of it is set.
pub fn plain_unit(alloc: Global, number: i64, name: &[u8]) -> Result<StoredUnit, AllocError> {
    Ok(StoredUnit {
        number,
        faction: 1,
        name: Sequence::from_slice(alloc, name)?,
        region: 1,
        structure: 0,
        men: 1,
        money: 0,
        guard: 0,
    })
}
