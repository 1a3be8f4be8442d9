//! Values that have a number of their own, and maps of them by that number.
ghost use Rattle.std.specs.Prelude.{◌≡◌, ◌≤◌, ℕ, length, IfOk};
ghost use Rattle.std.specs.FinMap.{len};
ghost use Rattle.atl_world.specs.Sums.{by_number};

use atl_world::Numbered;
use std::alloc::{AllocError, Global};

/// A value with a number of its own, under which a map stores it.
pub(crate) trait HasNumber: Drop {
    ghost own_number_of: { Self → ℕ };

    fn own_number(&self) -> u32
        ensures { result ≡ own_number_of self.now };
}

/// The values, each under its own number; of two with the same number the map has the first.
pub(crate) fn by_number<T: HasNumber>(
    alloc: Global,
    values: Vec<T>,
) -> Result<Numbered<T>, AllocError>
    ensures value { IfOk result (λ m. m ≡ by_number T.own_number_of values.items) }
    ensures len { IfOk result (λ m. len m ≤ length values.items) }
{
    let mut values = values;
    let mut numbered = Numbered::new(alloc);
    while let Some(value) = values.pop() {
        numbered.insert(value.own_number(), value)?;
    }
    Ok(numbered)
}
