//! Lists the numbers of the structures and of the units of each region, for the views of what
//! factions see. AllocError without memory.
ghost use Rattle.std.specs.Prelude.{◌≡◌, IfOk, OnOk};
ghost use Rattle.atl_world.specs.Worlds.{WorldValue};
ghost use Rattle.atl_campaign.specs.Campaign.{CampaignValue};
ghost use Rattle.atl_lists.specs.Lists.{list_of};
ghost use Rattle.atl_report.specs.Sight.{structures_in};
ghost use Rattle.atl_report.specs.Sites.{AreSites, AreRegionLists, with_listed};

use crate::region_units::{Levels, levels_of};
use atl_campaign::Campaign;
use atl_world::{Numbered, Sequence, World, let_go};
use std::alloc::{AllocError, Global};

/// The numbers of each region's structures, sorted, by the region's number.
/// A region without structures may have no list.
pub type Sites = Numbered<Sequence<u32>>;

/// The structures and the units of each region, by the region's number.
pub struct RegionLists {
    /// The structures of all regions. If it is None, a view lists those of its regions by itself.
    pub sites: Option<Sites>,
    /// The units of a region by hiding level: the observation level from which other factions see a
    /// unit. A view lists those of a region that isn't here by itself.
    pub levels: Numbered<Levels>,
}

impl Drop for RegionLists {
    fn drop(self) {
        let_go!(self: RegionLists { sites, levels });
    }
}

/// Adds `number` at the end of the list of `key`. After an AllocError the lists are of no use.
pub(crate) fn add_listed(
    alloc: Global,
    lists: &mut Numbered<Sequence<u32>>,
    key: u32,
    number: u32,
) -> Result<(), AllocError>
    ensures { OnOk result (lists.new ≡ with_listed lists.old key number) }
{
    match lists.get_mut(key) {
        Some(listed) => listed.push(number),
        None => {
            let mut listed = Sequence::new(alloc);
            listed.push(number)?;
            lists.insert(key, listed)
        }
    }
}

/// The lists of all regions' structures; they stay right until a structure is begun or moved.
fn sites_of(alloc: Global, campaign: &Campaign) -> Result<Sites, AllocError>
    ensures { IfOk result (AreSites campaign.now.value.structures) }
{
    let mut sites = Numbered::new(alloc);
    for (number, structure) in campaign.structures() {
        add_listed(alloc, &mut sites, structure.region, number)?;
    }
    Ok(sites)
}

/// The numbers of a region's structures, sorted, from one pass over the campaign's.
pub(crate) fn sites_in(
    alloc: Global,
    campaign: &Campaign,
    region: u32,
) -> Result<Sequence<u32>, AllocError>
    ensures { IfOk result (λ listed. listed
        ≡ structures_in region campaign.now.value.structures) }
{
    let mut listed = Sequence::new(alloc);
    for (number, structure) in campaign.structures() {
        if structure.region == region {
            listed.push(number)?;
        }
    }
    Ok(listed)
}

/// The numbers in the list of a key, which is empty where there is none.
pub(crate) fn listed_under(lists: &Numbered<Sequence<u32>>, key: u32) -> &[u32]
    ensures { result.now ≡ list_of lists.now key }
{
    match lists.get(key) {
        Some(listed) => listed.as_slice(),
        None => &[],
    }
}

/// The lists of the structures and the units of all regions, from one pass over the campaign. They
/// stay right until a structure or a unit is made, changed, moved or removed. AllocError without
/// memory.
pub fn lists_of(
    alloc: Global,
    world: &World,
    campaign: &Campaign,
) -> Result<RegionLists, AllocError>
    ensures { IfOk result (AreRegionLists world.now campaign.now.value) }
{
    Ok(RegionLists {
        sites: Some(sites_of(alloc, campaign)?),
        levels: levels_of(alloc, world, campaign)?,
    })
}

/// No lists, which are right for each campaign: a view makes all that it needs by itself.
pub(crate) fn no_lists(alloc: Global) -> RegionLists
    ensures { (w : WorldValue) (c : CampaignValue) → AreRegionLists w c result }
{
    RegionLists {
        sites: None,
        levels: Numbered::new(alloc),
    }
}
