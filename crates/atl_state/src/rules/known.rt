//! Rule 4 on a campaign: its regions are the world's, and all that it names by number is known,
//! which means that it exists. Calls named after stocks also test that regions are the world's.
ghost use Rattle.std.specs.Prelude.{◌≡◌, ◌≢◌, ◌<◌, ◌↔◌, ℕ, IsSome, Some, length, IsTrue};
ghost use Rattle.std.specs.FinMap as map;
ghost use Rattle.atl_world.specs.ByNumber.{market_of};
ghost use Rattle.atl_records.specs.declared.records.Structure as builds;
ghost use Rattle.atl_world.specs.Every.{EachEntry, Every, HasValue};
ghost use Rattle.atl_campaign.specs.Good.{IsPlaced, IsBuilt, ArePosted, AreKnown, AreOfMarkets};

use atl_campaign::Campaign;
use atl_records::{Holding, Region, Structure, Unit};
use atl_world::{Entries, World};

fn is_faction(campaign: &Campaign, number: u32) -> bool
    ensures { IsTrue result ↔ (HasValue campaign.now.value.factions number) }
{
    campaign.faction(number).is_some()
}

fn is_region(campaign: &Campaign, number: u32) -> bool
    ensures { IsTrue result ↔ (HasValue campaign.now.value.regions number) }
{
    campaign.region(number).is_some()
}

fn is_unit(campaign: &Campaign, number: u32) -> bool
    ensures { IsTrue result ↔ (HasValue campaign.now.value.units number) }
{
    campaign.unit(number).is_some()
}

fn is_of_world(world: &World, number: u32) -> bool
    ensures { IsTrue result ↔ (HasValue world.now.regions number) }
{
    world.region(number).is_some()
}

fn are_of_world(world: &World, campaign: &Campaign) -> bool
    ensures { IsTrue result ↔
        (Every (λ n r. HasValue world.now.regions n) campaign.now.value.regions) }
{
    campaign
        .regions()
        .all(|(number, _)| is_of_world(world, number))
}

fn are_all_there(world: &World, campaign: &Campaign) -> bool
    ensures { IsTrue result ↔
        (Every (λ n p. HasValue campaign.now.value.regions n) world.now.regions) }
{
    world
        .regions()
        .iter()
        .all(|(number, _)| is_region(campaign, number))
}

fn are_regions_known(world: &World, campaign: &Campaign) -> bool
    ensures { IsTrue result ↔
        ((n : ℕ) → HasValue campaign.now.value.regions n ↔ HasValue world.now.regions n) }
{
    are_of_world(world, campaign) && are_all_there(world, campaign)
}

fn has_market(world: &World, region: u32, item: u32) -> bool
    ensures { IsTrue result ↔ (IsSome (market_of world.now region item)) }
{
    match world.region(region) {
        Some(plan) => plan.markets.get(item).is_some(),
        None => false,
    }
}

fn has_known_markets(world: &World, number: u32, region: &Region) -> bool
    ensures { IsTrue result ↔ (AreOfMarkets world.now number region.now.stocks) }
{
    region
        .stocks
        .iter()
        .all(|(item, _)| has_market(world, number, item))
}

fn have_known_markets(world: &World, campaign: &Campaign) -> bool
    ensures { IsTrue result ↔
        (Every (λ n r. AreOfMarkets world.now n r.stocks) campaign.now.value.regions) }
{
    campaign.regions().all(|(number, region)| has_known_markets(world, number, region))
}

fn are_stocks_known(world: &World, campaign: &Campaign) -> bool
    ensures { IsTrue result ↔
        (((n : ℕ) → HasValue campaign.now.value.regions n ↔ HasValue world.now.regions n)
        × Every (λ n r. AreOfMarkets world.now n r.stocks) campaign.now.value.regions) }
{
    are_regions_known(world, campaign) && have_known_markets(world, campaign)
}

/// Items and skills are numbered from 0, so one exists if its number is below the world's `count`.
fn are_below(mut entries: Entries<'_, u32>, count: usize) -> bool
    ensures { IsTrue result ↔ (EachEntry (λ n amount. n < count) entries.entry) }
{
    entries.all(|(number, _)| (number as usize) < count)
}

fn holds_known(world: &World, holding: &Holding) -> bool
    ensures { IsTrue result ↔
        (Every (λ i amount. i < length world.now.items) holding.now.items
        × Every (λ s days. s < length world.now.skills) holding.now.days) }
{
    are_below(holding.items(), world.items().len())
        && are_below(holding.days(), world.skills().len())
}

/// Whether the structure that the unit is inside, unless 0 (none), is there, in the unit's region.
fn is_inside_here(campaign: &Campaign, unit: &Unit) -> bool
    ensures { IsTrue result ↔
        (unit.now.structure ≢ 0
        → (s : builds.Structure)
        × (map.get campaign.now.value.structures unit.now.structure ≡ Some s)
        × (s.region ≡ unit.now.region)) }
{
    if unit.structure == 0 {
        return true;
    }
    match campaign.structure(unit.structure) {
        Some(structure) => structure.region == unit.region,
        None => false,
    }
}

fn has_known_faction_and_region(campaign: &Campaign, unit: &Unit) -> bool
    ensures { IsTrue result ↔
        (HasValue campaign.now.value.factions unit.now.faction
        × HasValue campaign.now.value.regions unit.now.region) }
{
    is_faction(campaign, unit.faction) && is_region(campaign, unit.region)
}

/// Whether the unit's structure, unless 0 (none), is in its region, and its items and skills exist.
fn has_known_goods_and_structure(world: &World, campaign: &Campaign, unit: &Unit) -> bool
    ensures { IsTrue result ↔
        ((unit.now.structure ≢ 0
        → (s : builds.Structure)
        × (map.get campaign.now.value.structures unit.now.structure ≡ Some s)
        × (s.region ≡ unit.now.region))
        × (Every (λ i amount. i < length world.now.items) unit.now.holding.items
        × Every (λ s days. s < length world.now.skills) unit.now.holding.days)) }
{
    is_inside_here(campaign, unit) && holds_known(world, &unit.holding)
}

fn is_placed(world: &World, campaign: &Campaign, unit: &Unit) -> bool
    ensures { IsTrue result ↔ (IsPlaced world.now campaign.now.value unit.now) }
{
    has_known_faction_and_region(campaign, unit)
        && has_known_goods_and_structure(world, campaign, unit)
}

fn are_placed(world: &World, campaign: &Campaign) -> bool
    ensures { IsTrue result ↔
        (Every (λ n u. IsPlaced world.now campaign.now.value u) campaign.now.value.units) }
{
    campaign
        .units()
        .all(|(_, unit)| is_placed(world, campaign, unit))
}

fn has_known_kind_and_region(world: &World, campaign: &Campaign, structure: &Structure) -> bool
    ensures { IsTrue result ↔
        ((structure.now.kind < length world.now.kinds)
        × HasValue campaign.now.value.regions structure.now.region) }
{
    usize::from(structure.kind) < world.kinds().len() && is_region(campaign, structure.region)
}

/// The owner 0, for nobody, passes.
fn is_owner_there(campaign: &Campaign, structure: &Structure) -> bool
    ensures { IsTrue result ↔
        (structure.now.owner ≢ 0 → HasValue campaign.now.value.units structure.now.owner) }
{
    structure.owner == 0 || is_unit(campaign, structure.owner)
}

fn has_known_kind_region_and_owner(
    world: &World,
    campaign: &Campaign,
    structure: &Structure,
) -> bool
    ensures { IsTrue result ↔ (IsBuilt world.now campaign.now.value structure.now) }
{
    has_known_kind_and_region(world, campaign, structure) && is_owner_there(campaign, structure)
}

fn are_structures_known(world: &World, campaign: &Campaign) -> bool
    ensures { IsTrue result ↔
        (Every (λ n s. IsBuilt world.now campaign.now.value s) campaign.now.value.structures) }
{
    campaign.structures().all(|(_, structure)| has_known_kind_region_and_owner(
        world, campaign, structure,
    ))
}

fn are_mail_known(campaign: &Campaign) -> bool
    ensures { IsTrue result ↔
        (Every (λ n text. HasValue campaign.now.value.factions n) campaign.now.value.mail) }
{
    campaign
        .mail()
        .all(|(number, _)| is_faction(campaign, number))
}

fn are_reports_known(campaign: &Campaign) -> bool
    ensures { IsTrue result ↔
        (Every (λ n text. HasValue campaign.now.value.factions n) campaign.now.value.reports) }
{
    campaign
        .reports()
        .all(|(number, _)| is_faction(campaign, number))
}

fn are_stocks_units_and_structures_known(world: &World, campaign: &Campaign) -> bool
    ensures { IsTrue result ↔
        ((((n : ℕ) → HasValue campaign.now.value.regions n ↔ HasValue world.now.regions n)
        × Every (λ n r. AreOfMarkets world.now n r.stocks) campaign.now.value.regions)
        × (Every (λ n u. IsPlaced world.now campaign.now.value u) campaign.now.value.units
        × Every (λ n s. IsBuilt world.now campaign.now.value s) campaign.now.value.structures)) }
{
    are_stocks_known(world, campaign)
        && (are_placed(world, campaign) && are_structures_known(world, campaign))
}

fn are_mail_and_reports_known(campaign: &Campaign) -> bool
    ensures { IsTrue result ↔ (ArePosted campaign.now.value) }
{
    are_mail_known(campaign) && are_reports_known(campaign)
}

pub(crate) fn are_known(world: &World, campaign: &Campaign) -> bool
    ensures { IsTrue result ↔ (AreKnown world.now campaign.now.value) }
{
    are_stocks_units_and_structures_known(world, campaign) && are_mail_and_reports_known(campaign)
}
