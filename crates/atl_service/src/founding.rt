//! Reads the world text and makes the campaign that is founded in it. See docs/RULES.md,
//! "Founding".
ghost use Rattle.std.specs.Prelude.{◌≤◌, Bool, IfOk, IfErr};
ghost use Rattle.atl_records.specs.Limits.{most_things};
ghost use Rattle.atl_campaign.specs.Good.{IsGood};
ghost use Rattle.atl_service.specs.Found.{Prepares, MayBeCause};

use crate::cause::Cause;
use atl_campaign::{Campaign, founded};
use atl_tables::read_world;
use atl_world::{World, pass_ok};
use std::alloc::Global;

/// The text's world, and the good campaign founded in it, with few enough things to store. An Err
/// has the cause of the first failed check (world text, pass text), or Memory, whatever the tables.
pub(crate) fn world_and_campaign(
    alloc: Global,
    world_text: &str,
    pass: &[u8],
) -> Result<(World, Campaign), Cause>
    ensures ok { IfOk result (λ made. Prepares world_text.now pass.now made.0 made.1.value) }
    ensures good { IfOk result (λ made. IsGood made.0 made.1.value) }
    ensures things { IfOk result (λ made. made.1.value.books.things ≤ most_things) }
    ensures err { IfErr result
        (λ why. (is_there : Bool) → MayBeCause world_text.now pass.now is_there why) }
{
    let world = read_world(alloc, world_text)?;
    if !pass_ok(pass) {
        return Err(Cause::BadPassText);
    }
    let campaign = founded(alloc, &world, pass)?;
    Ok((world, campaign))
}
