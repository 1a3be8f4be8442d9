//! How much each unit makes in PRODUCE: its share of what the terrain of its region gives, or, out
//! of raw items, all that it wants. `asked` has by unit the item that its order names, and `wants`
//! how many it wants. See docs/RULES.md, "Producing".
ghost use Rattle.std.specs.Prelude.{⊤, ◌≡◌, map, IfOk};
ghost use Rattle.atl_pots.specs.ItemPots.{item_shares};
ghost use Rattle.atl_pots.specs.Pots.{AreWants};
ghost use Rattle.atl_pots.specs.Puts.{with_entries};
ghost use Rattle.atl_market.specs.Produce.{made_amounts, amount_made, output_at, output_item, takes_raw};

use crate::making::item_of;
use atl_campaign::Campaign;
use atl_pots::{AskedPots, ItemPots, item_shares};
use atl_world::{Numbered, World};
use std::alloc::{AllocError, Global};

/// The pots of PRODUCE: what each region's terrain gives of the items that orders name.
#[derive(Drop)]
struct Outputs<'a> {
    world: &'a World,
    asked: &'a Numbered<u16>,
}

fn takes_raw(world: &World, asked: Option<u16>) -> bool
    ensures { result ≡ takes_raw world.now asked }
{
    match item_of(world, asked) {
        Some(item) => item.raw.is_some(),
        None => true,
    }
}

/// Each unit asks for the item that it makes without raw items.
impl<'a> AskedPots for Outputs<'a> {
    ghost asked_by = { λ pots. output_item pots.world.now pots.asked.now };

    fn asked(&self, unit: u32) -> Option<u32> {
        let item = *self.asked.get(unit)?;
        if takes_raw(self.world, Some(item)) {
            None
        } else {
            Some(u32::from(item))
        }
    }
}

/// A region's pot of an item is its terrain's `output` of it.
impl<'a> ItemPots for Outputs<'a> {
    ghost pot_of = { λ pots. output_at pots.world.now };

    ghost ready = { λ _. ⊤ };

    fn pot(&self, item: u32, region: u32) -> u64 {
        match self.world.terrain_of(region) {
            Some(terrain) => {
                let outputs = terrain.output.as_slice();
                u64::from(outputs.get(item as usize).copied().unwrap_or(0))
            }
            None => 0,
        }
    }
}

/// How much a unit with this want makes: all of it where `takes_raw` holds for its item, else its
/// share. `shares` has by unit its share of what its region's terrain gives of its item.
#[tactic(auto, using(atl_pots::proofs::ItemPotLaws::shares_at))]
fn amount_made(
    world: &World,
    campaign: &Campaign,
    asked: &Numbered<u16>,
    wants: &Numbered<u32>,
    shares: &Numbered<u32>,
    unit: u32,
    want: u32,
) -> u32
    requires { shares.now
        ≡ item_shares (output_item world.now asked.now) (output_at world.now) wants.now
        campaign.now.value }
    ensures { result ≡ amount_made world.now asked.now campaign.now.value wants.now (unit, want) }
{
    if takes_raw(world, asked.get(unit).copied()) {
        want
    } else {
        shares.get(unit).copied().unwrap_or(0)
    }
}

/// How much each unit that has a want makes, by unit. No want is above 999,999,999. AllocError
/// without memory.
pub(crate) fn made_amounts(
    alloc: Global,
    world: &World,
    campaign: &Campaign,
    asked: &Numbered<u16>,
    wants: &Numbered<u32>,
) -> Result<Numbered<u32>, AllocError>
    requires { AreWants wants.now }
    ensures { IfOk result (λ made. made
        ≡ made_amounts asked.now world.now campaign.now.value wants.now) }
{
    let shares = item_shares(alloc, campaign, &Outputs { world, asked }, wants)?;
    let mut made = Numbered::new(alloc);
    for (unit, want) in wants.iter() {
        made.insert(
            unit,
            amount_made(world, campaign, asked, wants, &shares, unit, *want),
        )?;
    }
    Ok(made)
}
