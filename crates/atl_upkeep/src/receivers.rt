//! Finds the units that receive, in the sweep, what units without men leave. See docs/RULES.md,
//! "Sweep". AllocError without memory.
ghost use Rattle.std.specs.Prelude.{◌≡◌, ◌≤◌, IfOk, OnOk};
ghost use Rattle.atl_world.specs.Every.{Every};
ghost use Rattle.atl_upkeep.specs.Receivers.{AreReceivers, receiver_in, with_receiver_of};

use atl_campaign::{Campaign, Unit};
use atl_world::Numbered;
use std::alloc::{AllocError, Global};

/// The number of the lowest-numbered unit with men of each faction in each region, by region and
/// then by faction.
pub(crate) type Receivers = Numbered<Numbered<u32>>;

/// The number of the receiving unit of a faction in a region; 0 where there is none.
pub(crate) fn receiver_in(receivers: &Receivers, region: u32, faction: u32) -> u32
    ensures { result ≡ receiver_in receivers.now region faction }
{
    receivers.get_under(region, faction).copied().unwrap_or(0)
}

fn note_receiver(
    alloc: Global,
    receivers: &mut Receivers,
    number: u32,
    unit: &Unit,
) -> Result<(), AllocError>
    ensures { OnOk result (receivers.new ≡ with_receiver_of receivers.old number unit.now) }
{
    if 0 < unit.holding.men() && receiver_in(receivers, unit.region, unit.faction) == 0 {
        receivers.insert_under(alloc, unit.region, unit.faction, number)?;
    }
    Ok(())
}

/// The receivers of a campaign, whose units are numbered from 1. AllocError without memory.
pub(crate) fn receivers_of(alloc: Global, campaign: &Campaign) -> Result<Receivers, AllocError>
    requires { Every (λ n u. 1 ≤ n) campaign.now.value.units }
    ensures { IfOk result (AreReceivers campaign.now.value) }
{
    let mut receivers = Numbered::new(alloc);
    for (number, unit) in campaign.units() {
        note_receiver(alloc, &mut receivers, number, unit)?;
    }
    Ok(receivers)
}
