//! Collects what a faction sees into a view. See docs/RULES.md, "Sight". `lists` has right lists of
//! each region's structures and units, as far as it has any; `own` are the numbers of the watching
//! faction's units in the watched region. AllocError without memory.
ghost use Rattle.std.specs.Prelude.{◌≡◌, IfOk, OnOk, Some, filter, map};
ghost use Rattle.std.specs.FinMap.{get, entries};
ghost use Rattle.atl_sight.specs.Watching.{sees_region, own_units_in};
ghost use Rattle.atl_report.specs.Sight.{unit_views, shown_owner, structure_view, structure_views, structures_in, market_view, market_views, region_market_views, region_view, region_views, view_of};
ghost use Rattle.atl_report.specs.Sites.{AreRegionLists};
ghost use Rattle.atl_report.specs.Gathering.{with_region};

use crate::region_units::{own_by_region, units_seen};
use crate::sites::{RegionLists, listed_under, no_lists, sites_in};
use atl_campaign::{Campaign, Region, Structure};
use atl_sight::watch::{Watch, is_seen_there, is_watching, watch_over};
use atl_sight::{MarketView, RegionView, StructureView, UnitView, View, shown_name, unit_view};
use atl_world::{Market, Numbered, RegionPlan, Sequence, World};
use std::alloc::{AllocError, Global};

fn unit_views(
    alloc: Global,
    world: &World,
    campaign: &Campaign,
    lists: &RegionLists,
    own: &[u32],
    watch: Watch,
) -> Result<Sequence<UnitView>, AllocError>
    requires lists { AreRegionLists world.now campaign.now.value lists.now }
    requires own { own.now ≡ own_units_in campaign.now.value watch.faction watch.region }
    ensures { IfOk result (λ units. units ≡ unit_views world.now campaign.now.value watch) }
{
    let seen = units_seen(alloc, world, campaign, &lists.levels, own, watch)?;
    let mut units = Sequence::from_vec(Vec::with_capacity(alloc, seen.len())?);
    for (number, ()) in seen.iter() {
        if let Some(unit) = campaign.unit(number) {
            units.push(unit_view(alloc, campaign, watch.faction, number, unit)?)?;
        }
    }
    Ok(units)
}

/// A structure's owner as it is shown: 0 where none is, or it isn't seen in the watched region.
fn shown_owner(world: &World, campaign: &Campaign, watch: Watch, structure: &Structure) -> u32
    ensures { result ≡ shown_owner world.now campaign.now.value watch structure.now }
{
    if is_seen_there(world, watch, campaign.unit(structure.owner)) {
        structure.owner
    } else {
        0
    }
}

fn structure_view(
    alloc: Global,
    world: &World,
    campaign: &Campaign,
    watch: Watch,
    number: u32,
    structure: &Structure,
) -> Result<StructureView, AllocError>
    ensures { IfOk result (λ seen. seen
        ≡ structure_view world.now campaign.now.value watch number structure.now) }
{
    Ok(StructureView {
        number,
        kind: structure.kind,
        name: structure.name.copy(alloc)?,
        done: structure.done,
        owner: shown_owner(world, campaign, watch, structure),
    })
}

fn structure_views_of(
    alloc: Global,
    world: &World,
    campaign: &Campaign,
    numbers: &[u32],
    watch: Watch,
) -> Result<Sequence<StructureView>, AllocError>
    requires { numbers.now ≡ structures_in watch.region campaign.now.value.structures }
    ensures { IfOk result (λ structures. structures
        ≡ structure_views world.now campaign.now.value watch) }
{
    let mut structures = Sequence::new(alloc);
    for number in numbers {
        if let Some(structure) = campaign.structure(*number) {
            structures.push(structure_view(alloc, world, campaign, watch, *number, structure)?)?;
        }
    }
    Ok(structures)
}

fn structure_views(
    alloc: Global,
    world: &World,
    campaign: &Campaign,
    lists: &RegionLists,
    watch: Watch,
) -> Result<Sequence<StructureView>, AllocError>
    requires { AreRegionLists world.now campaign.now.value lists.now }
    ensures { IfOk result (λ structures. structures
        ≡ structure_views world.now campaign.now.value watch) }
{
    match &lists.sites {
        Some(sites) => {
            let listed = listed_under(sites, watch.region);
            structure_views_of(alloc, world, campaign, listed, watch)
        }
        None => {
            let listed = sites_in(alloc, campaign, watch.region)?;
            structure_views_of(alloc, world, campaign, listed.as_slice(), watch)
        }
    }
}

fn market_view(number: u32, market: &Market, region: &Region) -> MarketView
    ensures { result ≡ market_view region.now (number, market.now) }
{
    let stock = region.stock(number);
    MarketView {
        item: market.item,
        stock,
        wanted: market.limit.saturating_sub(stock),
    }
}

fn market_views(
    alloc: Global,
    plan: &RegionPlan,
    region: &Region,
) -> Result<Sequence<MarketView>, AllocError>
    ensures { IfOk result (λ markets. markets ≡ market_views region.now plan.now) }
{
    let mut markets = Sequence::new(alloc);
    for (number, market) in plan.markets.iter() {
        markets.push(market_view(number, market, region))?;
    }
    Ok(markets)
}

fn region_market_views(
    alloc: Global,
    world: &World,
    number: u32,
    region: &Region,
) -> Result<Sequence<MarketView>, AllocError>
    ensures { IfOk result (λ markets. markets
        ≡ region_market_views region.now (get world.now.regions number)) }
{
    match world.region(number) {
        Some(plan) => market_views(alloc, plan, region),
        None => Ok(Sequence::new(alloc)),
    }
}

fn region_view(
    alloc: Global,
    world: &World,
    campaign: &Campaign,
    lists: &RegionLists,
    own: &[u32],
    watch: Watch,
    region: &Region,
) -> Result<RegionView, AllocError>
    requires lists { AreRegionLists world.now campaign.now.value lists.now }
    requires own { own.now ≡ own_units_in campaign.now.value watch.faction watch.region }
    ensures { IfOk result (λ seen. seen
        ≡ region_view world.now campaign.now.value watch region.now) }
{
    Ok(RegionView {
        number: watch.region,
        peasants: region.peasants,
        money: region.money,
        markets: region_market_views(alloc, world, watch.region, region)?,
        structures: structure_views(alloc, world, campaign, lists, watch)?,
        units: unit_views(alloc, world, campaign, lists, own, watch)?,
    })
}

fn add_region_seen(
    seen: &mut Numbered<()>,
    campaign: &Campaign,
    number: u32,
) -> Result<(), AllocError>
    ensures { OnOk result (seen.new
        ≡ with_region seen.old number (get campaign.now.value.regions number)) }
{
    if campaign.region(number).is_some() {
        seen.insert(number, ())?;
    }
    Ok(())
}

/// The numbers of the regions that a faction sees, sorted.
fn regions_seen(
    alloc: Global,
    campaign: &Campaign,
    faction: u32,
) -> Result<Numbered<()>, AllocError>
    ensures { IfOk result (λ seen. entries seen
        ≡ map (λ e. (e.0, tt)) (filter (λ e. sees_region campaign.now.value faction e.0)
        (entries campaign.now.value.regions))) }
{
    let mut seen = Numbered::new(alloc);
    for number in campaign.of_faction(faction) {
        if let Some(unit) = campaign.unit(*number) {
            if is_watching(unit, faction) {
                add_region_seen(&mut seen, campaign, unit.region)?;
            }
        }
    }
    Ok(seen)
}

fn region_views(
    alloc: Global,
    world: &World,
    campaign: &Campaign,
    lists: &RegionLists,
    faction: u32,
) -> Result<Sequence<RegionView>, AllocError>
    requires { AreRegionLists world.now campaign.now.value lists.now }
    ensures { IfOk result (λ regions. regions ≡ region_views world.now campaign.now.value faction) }
{
    let seen = regions_seen(alloc, campaign, faction)?;
    let own = own_by_region(alloc, campaign, faction)?;
    let mut regions = Sequence::new(alloc);
    for (number, ()) in seen.iter() {
        if let Some(region) = campaign.region(number) {
            let here = listed_under(&own, number);
            let watch = watch_over(world, campaign, faction, number, here);
            regions.push(region_view(alloc, world, campaign, lists, here, watch, region)?)?;
        }
    }
    Ok(regions)
}

/// What a faction sees, as `view` gives it, from lists of each region's structures and units that
/// are right for the campaign. The call makes lists that `lists` lacks; with those of `lists_of` it
/// goes over the faction's units and what it sees, and no further, so that many views go over the
/// campaign only once. AllocError without memory.
#[tactic(auto, unfolding(crate::specs::Sight::view_of))]
pub fn view_over(
    alloc: Global,
    world: &World,
    campaign: &Campaign,
    lists: &RegionLists,
    faction: u32,
) -> Result<View, AllocError>
    requires { AreRegionLists world.now campaign.now.value lists.now }
    ensures definition { IfOk result (λ seen. seen ≡ view_of world.now campaign.now.value faction) }
{
    Ok(View {
        month: campaign.month(),
        faction,
        name: shown_name(alloc, campaign, faction)?,
        regions: region_views(alloc, world, campaign, lists, faction)?,
    })
}

/// What a faction sees: the month last closed, its own name (empty if it isn't there), the regions
/// where it has a unit with men, and what is seen there. Seen are all markets and structures, and
/// the units that are the faction's own, guard, or have a stealth level at most the faction's best
/// observation level there. Of its own units it sees the money, the items and the skills too. A
/// structure's owner is 0 where there is none, or it isn't seen. For each region seen the call goes
/// over all its units and over all structures of the campaign: for the views of many factions there
/// is `view_over`. AllocError without memory. See docs/RULES.md, "Sight".
pub fn view(
    alloc: Global,
    world: &World,
    campaign: &Campaign,
    faction: u32,
) -> Result<View, AllocError>
    ensures definition { IfOk result (λ seen. seen ≡ view_of world.now campaign.now.value faction) }
{
    let lists = no_lists(alloc);
    view_over(alloc, world, campaign, &lists, faction)
}
