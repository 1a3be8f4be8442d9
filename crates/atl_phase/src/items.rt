//! A list of the items that a unit holds.
ghost use Rattle.std.specs.Prelude.{◌≡◌, ◌<◌, IfOk, length};
ghost use Rattle.std.specs.FinMap.{entries};
ghost use Rattle.atl_world.specs.Every.{Every};

use atl_campaign::Holding;
use atl_world::World;
use std::alloc::{AllocError, Global};

/// Each item that a unit holds, by its number, with its amount, in rising order of the numbers. All
/// must be items of the world. It takes memory for each of them.
pub fn items_of(
    alloc: Global,
    world: &World,
    holding: &Holding,
) -> Result<Vec<(u16, u32)>, AllocError>
    requires known { Every (λ i amount. i < length world.now.items) holding.now.items }
    ensures { IfOk result (λ list. list.items ≡ entries holding.now.items) }
{
    let count = world.items().len();
    let mut list = Vec::new(alloc);
    for (item, amount) in holding.items() {
        if (item as usize) < count {
            list.push((item as u16, *amount))?;
        }
    }
    Ok(list)
}
