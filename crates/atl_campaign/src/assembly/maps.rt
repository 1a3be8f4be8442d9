//! Builds the maps of factions, regions, structures, mail and reports from their rows. A number
//! that doesn't fit 32 bits (of a kind 16) is read as the largest, and of rows with one number the
//! last counts. The texts of mail and reports are moved, not copied. Where memory runs out, the
//! answer is AllocError. Names and pass texts have to keep their rules.
ghost use Rattle.std.specs.Prelude.{◌≡◌, IfOk, OnOk, true};
ghost use Rattle.std.specs.List.{list_all};
ghost use Rattle.atl_world.specs.Names.{name_ok};
ghost use Rattle.atl_campaign.specs.Assembling.{without_marks, bare_region, campaign_maps_of};
ghost use Rattle.atl_campaign.specs.FromRows.{as_u32, faction_of, region_of, structure_of, by_number};
ghost use Rattle.atl_campaign.specs.Regions.{unmarked_regions};
ghost use Rattle.atl_campaign.specs.RowRules.{faction_named};
ghost use Rattle.atl_campaign.specs.Taking.{without_texts};

use super::goods::put_stocks;
use super::records::{bare_region, faction_of, structure_of, take_rows};
use crate::regions::Regions;
use crate::row_values::as_u32;
use atl_records::{Faction, Region, Structure};
use atl_rows::parts::{
    Parts, StoredFaction, StoredMail, StoredMarket, StoredRegion, StoredReport, StoredStructure,
};
use atl_world::{MarkedMap, Numbered, Sequence, Text};
use std::alloc::{AllocError, Global};
use std::mem;

pub(crate) fn factions_of(
    alloc: Global,
    rows: &[StoredFaction],
) -> Result<Numbered<Faction>, AllocError>
    requires { list_all faction_named rows.now ≡ true }
    ensures { IfOk result (λ factions. factions
        ≡ by_number (λ r. as_u32 r.number) faction_of rows.now) }
{
    let mut factions = Numbered::new(alloc);
    for row in rows {
        let faction = faction_of(alloc, row)?;
        factions.insert(as_u32(row.number), faction)?;
    }
    Ok(factions)
}

fn bare_regions(alloc: Global, rows: &[StoredRegion]) -> Result<Numbered<Region>, AllocError>
    ensures { IfOk result (λ regions. regions
        ≡ by_number (λ r. as_u32 r.number) bare_region rows.now) }
{
    let mut regions = Numbered::new(alloc);
    for row in rows {
        regions.insert(as_u32(row.number), bare_region(alloc, row))?;
    }
    Ok(regions)
}

pub(crate) fn regions_of(
    alloc: Global,
    rows: &[StoredRegion],
    markets: &[StoredMarket],
) -> Result<Numbered<Region>, AllocError>
    ensures { IfOk result (λ regions. regions
        ≡ by_number (λ r. as_u32 r.number) (region_of markets.now) rows.now) }
{
    let mut regions = bare_regions(alloc, rows)?;
    put_stocks(&mut regions, markets)?;
    Ok(regions)
}

pub(crate) fn structures_of(
    alloc: Global,
    rows: &[StoredStructure],
) -> Result<Numbered<Structure>, AllocError>
    requires { list_all (λ r. name_ok r.name) rows.now ≡ true }
    ensures { IfOk result (λ structures. structures
        ≡ by_number (λ r. as_u32 r.number) structure_of rows.now) }
{
    let mut structures = Numbered::new(alloc);
    for row in rows {
        let structure = structure_of(alloc, row)?;
        structures.insert(as_u32(row.number), structure)?;
    }
    Ok(structures)
}

pub(crate) fn mail_of(
    alloc: Global,
    rows: Sequence<StoredMail>,
) -> Result<Numbered<Sequence<u8>>, AllocError>
    ensures { IfOk result (λ mail. mail
        ≡ by_number (λ r. as_u32 r.faction) (λ r. r.text) rows) }
{
    let mut mail = Numbered::new(alloc);
    for mut row in rows.into_vec() {
        let text = mem::replace(&mut row.text, Sequence::new(alloc));
        mail.insert(as_u32(row.faction), text)?;
    }
    Ok(mail)
}

pub(crate) fn reports_of(
    alloc: Global,
    rows: Sequence<StoredReport>,
) -> Result<Numbered<Text>, AllocError>
    ensures { IfOk result (λ reports. reports
        ≡ by_number (λ r. as_u32 r.faction) (λ r. r.text) rows) }
{
    let mut reports = Numbered::new(alloc);
    for mut row in rows.into_vec() {
        let text = mem::replace(&mut row.text, Text::from_string(String::new(alloc)));
        reports.insert(as_u32(row.faction), text)?;
    }
    Ok(reports)
}

/// The factions, regions, structures, mail and reports of a campaign, by number and with marks.
pub(crate) struct CampaignMaps {
    pub(crate) factions: MarkedMap<Faction>,
    pub(crate) regions: Regions,
    pub(crate) structures: MarkedMap<Structure>,
    pub(crate) mail: MarkedMap<Sequence<u8>>,
    pub(crate) reports: MarkedMap<Text>,
}

fn unmarked_factions(
    alloc: Global,
    rows: &[StoredFaction],
) -> Result<MarkedMap<Faction>, AllocError>
    requires { list_all faction_named rows.now ≡ true }
    ensures { IfOk result (λ t. t
        ≡ without_marks (by_number (λ r. as_u32 r.number) faction_of rows.now)) }
{
    let factions = factions_of(alloc, rows)?;
    MarkedMap::from_values(alloc, factions)
}

fn unmarked_regions(
    alloc: Global,
    rows: &[StoredRegion],
    markets: &[StoredMarket],
) -> Result<Regions, AllocError>
    ensures { IfOk result (λ t. t
        ≡ unmarked_regions (by_number (λ r. as_u32 r.number) (region_of markets.now) rows.now)) }
{
    let regions = regions_of(alloc, rows, markets)?;
    Regions::unmarked_from(alloc, regions)
}

fn unmarked_structures(
    alloc: Global,
    rows: &[StoredStructure],
) -> Result<MarkedMap<Structure>, AllocError>
    requires { list_all (λ r. name_ok r.name) rows.now ≡ true }
    ensures { IfOk result (λ t. t
        ≡ without_marks (by_number (λ r. as_u32 r.number) structure_of rows.now)) }
{
    let structures = structures_of(alloc, rows)?;
    MarkedMap::from_values(alloc, structures)
}

fn unmarked_mail(
    alloc: Global,
    rows: Sequence<StoredMail>,
) -> Result<MarkedMap<Sequence<u8>>, AllocError>
    ensures { IfOk result (λ t. t
        ≡ without_marks (by_number (λ r. as_u32 r.faction) (λ r. r.text) rows)) }
{
    let mail = mail_of(alloc, rows)?;
    MarkedMap::from_values(alloc, mail)
}

fn unmarked_reports(
    alloc: Global,
    rows: Sequence<StoredReport>,
) -> Result<MarkedMap<Text>, AllocError>
    ensures { IfOk result (λ t. t
        ≡ without_marks (by_number (λ r. as_u32 r.faction) (λ r. r.text) rows)) }
{
    let reports = reports_of(alloc, rows)?;
    MarkedMap::from_values(alloc, reports)
}

/// The factions, regions with their stocks, structures, mail and reports that are read from rows,
/// with nothing marked. Factions' names and pass texts and structures' names have to keep their
/// rules. The rows of mail and reports are taken, and all others stay. AllocError: nothing is said
/// of the rows.
pub(crate) fn campaign_maps_of(alloc: Global, parts: &mut Parts) -> Result<CampaignMaps, AllocError>
    requires factions { list_all faction_named parts.old.factions ≡ true }
    requires structures { list_all (λ r. name_ok r.name) parts.old.structures ≡ true }
    ensures maps { IfOk result (λ tables. tables ≡ campaign_maps_of parts.old) }
    ensures rest { OnOk result (parts.new ≡ without_texts parts.old) }
{
    let factions = unmarked_factions(alloc, parts.factions.as_slice())?;
    let regions = unmarked_regions(alloc, parts.regions.as_slice(), parts.markets.as_slice())?;
    let structures = unmarked_structures(alloc, parts.structures.as_slice())?;
    let mail = unmarked_mail(alloc, take_rows(alloc, &mut parts.mail))?;
    let reports = unmarked_reports(alloc, take_rows(alloc, &mut parts.reports))?;
    Ok(CampaignMaps {
        factions,
        regions,
        structures,
        mail,
        reports,
    })
}
