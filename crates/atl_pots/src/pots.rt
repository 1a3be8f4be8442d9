//! Shares the pots of all regions at once, each among the units in its region. Unit order is by
//! rising number. Where a call shares pots, these and all wants are at most 999,999,999, and `pots`
//! is `ready`. `given` has the shares so far, by unit. See docs/RULES.md, "Pots".
ghost use Rattle.std.specs.Prelude.{◌≡◌, ◌≤◌, All, IfOk, OnOk, length};
ghost use Rattle.std.specs.List.{zip};
ghost use Rattle.std.specs.FinMap.{entries, keys};
ghost use Rattle.atl_world.specs.Limits.{most_amount};
ghost use Rattle.atl_pots.specs.WantGroups.{all_region_shares, grouped, region_shares, with_want};
ghost use Rattle.atl_pots.specs.Pots.{AreWants, EachTakerGets, GivesEachPot, OnlyTakersGet, OtherRegionsDoNotCount, SharesEachPot, amounts_of, pot_shares, region_of_unit, shares_of};
ghost use Rattle.atl_pots.specs.Puts.{with_entries};

use atl_campaign::Campaign;
use atl_shares::share;
use atl_world::Numbered;
use std::alloc::{AllocError, Global};

/// The pot of each region: how much there is to share in it.
pub trait Pots {
    ghost use Rattle.std.specs.Prelude.{ℕ};

    // How much there is to share in a region, by the region's number.
    ghost pot_of: { Self → ℕ → ℕ };

    // What must hold for `pot` to be called.
    ghost ready: { Self → Type 0 };

    /// How much a region has to share, its pot: at most 999,999,999. `ready` must hold.
    fn pot(&self, region: u32) -> u64
        requires { ready self.now }
        ensures value { result ≡ pot_of self.now region }
        ensures bound { result ≤ most_amount };
}

/// Which pot each unit asks for: that of its region, or that of an item.
pub trait AskedPots {
    ghost use Rattle.std.specs.Prelude.{ℕ, Option, ◌≡◌};

    // The number of the pot that a unit asks for, by the unit's number; None if it asks for none.
    ghost asked_by: { Self → ℕ → Option ℕ };

    /// The number of the pot, a region or an item, that a unit asks for; None if it asks for none.
    fn asked(&self, unit: u32) -> Option<u32>
        ensures { result ≡ asked_by self.now unit };
}

/// Each unit asks for the pot of the region that it is in.
#[derive(Drop)]
struct UnitRegions<'a> {
    campaign: &'a Campaign,
}

impl<'a> AskedPots for UnitRegions<'a> {
    ghost asked_by = { λ regions. region_of_unit regions.campaign.now.value.units };

    fn asked(&self, unit: u32) -> Option<u32> {
        Some(self.campaign.unit(unit)?.region)
    }
}

/// The wants of units: for each pot a map from each unit that asks for it to its want.
pub(crate) type WantGroups = Numbered<Numbered<u32>>;

/// Puts a unit's want under the pot that it asks for. If it asks for none, the groups stay.
fn note_want<A: AskedPots>(
    alloc: Global,
    asked: &A,
    groups: &mut WantGroups,
    unit: u32,
    want: u32,
) -> Result<(), AllocError>
    ensures { OnOk result (groups.new ≡ with_want (A.asked_by asked.now) groups.old (unit, want)) }
{
    match asked.asked(unit) {
        Some(pot) => groups.insert_under(alloc, pot, unit, want),
        None => Ok(()),
    }
}

/// The wants, grouped by the pots that units ask for; without those of units that ask for none.
pub(crate) fn group_wants<A: AskedPots>(
    alloc: Global,
    asked: &A,
    wants: &Numbered<u32>,
) -> Result<WantGroups, AllocError>
    ensures { IfOk result (λ groups. groups ≡ grouped (A.asked_by asked.now) wants.now) }
{
    let mut groups = Numbered::new(alloc);
    for (unit, want) in wants.iter() {
        note_want(alloc, asked, &mut groups, unit, *want)?;
    }
    Ok(groups)
}

fn amounts_of(alloc: Global, wants: &Numbered<u32>) -> Result<Vec<u64>, AllocError>
    ensures { IfOk result (λ amounts. amounts.items ≡ amounts_of wants.now) }
{
    let mut amounts = Vec::new(alloc);
    for (_, want) in wants.iter() {
        amounts.push(u64::from(*want))?;
    }
    Ok(amounts)
}

/// Puts the shares, each at most 999,999,999, into `given`, by unit. They are those of the units in
/// `wants`, in unit order.
fn put_shares(
    wants: &Numbered<u32>,
    shares: &[u64],
    given: &mut Numbered<u32>,
) -> Result<(), AllocError>
    requires length { length shares.now ≡ length (entries wants.now) }
    requires bound { All (λ share. share ≤ most_amount) shares.now }
    ensures { OnOk result (given.new ≡ with_entries given.old (zip (keys wants.now) shares.now)) }
{
    let mut place = 0;
    for (unit, _) in wants.iter() {
        given.insert(unit, shares[place] as u32)?;
        place += 1;
    }
    Ok(())
}

/// Puts the shares of one pot among the units in `wants` into `given`.
#[tactic(auto, using(crate::proofs::PotLaws::amounts_are_low))]
fn share_pot(
    alloc: Global,
    pot: u64,
    wants: &Numbered<u32>,
    given: &mut Numbered<u32>,
) -> Result<(), AllocError>
    requires pot { pot ≤ most_amount }
    requires wants { AreWants wants.now }
    ensures { OnOk result (given.new ≡ with_entries given.old (shares_of pot wants.now)) }
{
    let amounts = amounts_of(alloc, wants)?;
    let shares = share(alloc, pot, &amounts)?;
    put_shares(wants, &shares, given)
}

/// Puts the shares of a region's pot into `given`; none where the campaign has no such region.
fn share_region<P: Pots>(
    alloc: Global,
    campaign: &Campaign,
    pots: &P,
    region: u32,
    wants: &Numbered<u32>,
    given: &mut Numbered<u32>,
) -> Result<(), AllocError>
    requires ready { P.ready pots.now }
    requires wants { AreWants wants.now }
    ensures { OnOk result (given.new
        ≡ with_entries given.old (region_shares campaign.now.value (P.pot_of pots.now)
        (region, wants.now))) }
{
    if campaign.region(region).is_none() {
        return Ok(());
    }
    share_pot(alloc, pots.pot(region), wants, given)
}

/// Puts what units get of the pots of their regions into `given`.
#[tactic(auto, using(crate::proofs::WantGroupLaws::groups_are_wants))]
pub(crate) fn share_regions<P: Pots>(
    alloc: Global,
    campaign: &Campaign,
    pots: &P,
    wants: &Numbered<u32>,
    given: &mut Numbered<u32>,
) -> Result<(), AllocError>
    requires ready { P.ready pots.now }
    requires wants { AreWants wants.now }
    ensures { OnOk result (given.new
        ≡ with_entries given.old (all_region_shares campaign.now.value (P.pot_of pots.now)
        wants.now)) }
{
    let groups = group_wants(alloc, &UnitRegions { campaign }, wants)?;
    for (region, group) in groups.iter() {
        share_region(alloc, campaign, pots, region, group, given)?;
    }
    Ok(())
}

/// What units get of the pots of their regions, by unit, all at once. The units of a region that
/// have a want share its pot, in unit order, by their wants. Each want is at most 999,999,999, and
/// `pots` is `ready`. A unit that has no want, or is in no region of the campaign, gets nothing and
/// is not listed. The function goes over the wants alone, and not over regions and units without
/// one. AllocError without memory. See docs/RULES.md, "Shares".
#[tactic(auto, using(crate::proofs::WantGroupLaws::all_put))]
pub fn pot_shares<P: Pots>(
    alloc: Global,
    campaign: &Campaign,
    pots: &P,
    wants: &Numbered<u32>,
) -> Result<Numbered<u32>, AllocError>
    requires ready { P.ready pots.now }
    requires wants { AreWants wants.now }
    ensures definition { IfOk result
        (λ given. given ≡ pot_shares (P.pot_of pots.now) wants.now campaign.now.value) }
{
    let mut given = Numbered::new(alloc);
    share_regions(alloc, campaign, pots, wants, &mut given)?;
    Ok(given)
}

/// The laws of who gets a share of `pot_shares`. Only units that have a want and are in a region of
/// the campaign get one. Each of them does, and none gets more than it wants. Does nothing.
pub fn takers_alone_get()
    ensures only { OnlyTakersGet }
    ensures each { EachTakerGets }
{}

/// The laws of the pot of one region of the campaign. The units there that have a want get its
/// shares in unit order. These add up to the lesser of the pot and of all their wants. No other
/// region counts. Does nothing. See docs/RULES.md, "Shares".
pub fn each_pot_is_shared()
    ensures shares { SharesEachPot }
    ensures sum { GivesEachPot }
    ensures alone { OtherRegionsDoNotCount }
{}
