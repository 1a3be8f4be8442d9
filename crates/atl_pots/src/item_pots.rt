//! Pots of items: the units of a region that ask for the same item share what the region has of it.
//! See docs/RULES.md, "Pots".
ghost use Rattle.std.specs.Prelude.{◌≡◌, IfOk};
ghost use Rattle.atl_world.specs.Limits.{most_amount};
ghost use Rattle.atl_pots.specs.ItemPots.{item_shares};
ghost use Rattle.atl_pots.specs.Pots.{AreWants};

use crate::pots::{AskedPots, Pots, group_wants, share_regions};
use atl_campaign::Campaign;
use atl_world::Numbered;
use std::alloc::{AllocError, Global};

/// The pots of items: how much each region has to share of each item. Which item each unit asks for
/// is said by `AskedPots`.
pub trait ItemPots {
    ghost use Rattle.std.specs.Prelude.{ℕ, ◌≡◌, ◌≤◌};

    // The pot of an item in a region, by their numbers.
    ghost pot_of: { Self → ℕ → ℕ → ℕ };

    // What must hold for `pot` to be called.
    ghost ready: { Self → Type 0 };

    /// The pot of an item in a region: at most 999,999,999 to share. `ready` must hold.
    fn pot(&self, item: u32, region: u32) -> u64
        requires { ready self.now }
        ensures value { result ≡ pot_of self.now item region }
        ensures bound { result ≤ most_amount };
}

/// The pots of one item, by region.
#[derive(Drop)]
struct PotsOfItem<'a, P: ItemPots> {
    pots: &'a P,
    item: u32,
}

impl<'a, P: ItemPots> Pots for PotsOfItem<'a, P> {
    ghost pot_of = { λ one. P.pot_of one.pots.now one.item };

    ghost ready = { λ one. P.ready one.pots.now };

    fn pot(&self, region: u32) -> u64 {
        self.pots.pot(self.item, region)
    }
}

/// How much each unit gets of the item that it asks for, out of what its region has of the item, by
/// unit. All units get their shares at once. Each want is at most 999,999,999, and `pots` is
/// `ready`. A unit that asks for no item, has no want, or is in no region of the campaign gets
/// nothing and is not listed. The function goes over the wants alone, and not over regions and
/// units without one. AllocError without memory.
#[tactic(auto, using(crate::proofs::ItemPotLaws::all_items_put, crate::proofs::WantGroupLaws::groups_are_wants))]
pub fn item_shares<P: AskedPots + ItemPots>(
    alloc: Global,
    campaign: &Campaign,
    pots: &P,
    wants: &Numbered<u32>,
) -> Result<Numbered<u32>, AllocError>
    requires ready { P.ready pots.now }
    requires wants { AreWants wants.now }
    ensures definition { IfOk result
        (λ given. given
        ≡ item_shares (P.asked_by pots.now) (P.pot_of pots.now) wants.now campaign.now.value) }
{
    let groups = group_wants(alloc, pots, wants)?;
    let mut given = Numbered::new(alloc);
    for (item, group) in groups.iter() {
        let of_item = PotsOfItem { pots, item };
        share_regions(alloc, campaign, &of_item, group, &mut given)?;
    }
    Ok(given)
}
