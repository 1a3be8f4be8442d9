//! The ten tables as they are read: each by its record, and the tables `has`, `books` and `market`
//! with rowids. A row that is read is the record that is shown as it (specs/Shown).
ghost use Rattle.std.specs.Prelude.{refl};
ghost use Rattle.atl_descriptions.specs.Tables.{Own, Factions, Regions, Units, Goods, Structures, Mail, Reports, Books, Markets};
ghost use Rattle.atl_sql.specs.Shown.{campaign_forms, campaign_stored, faction_forms, faction_stored, region_forms, region_stored, unit_forms, unit_stored, has_forms, has_stored, structure_forms, structure_stored, mail_forms, mail_stored, report_forms, report_stored, books_forms, books_stored, market_forms, market_stored};

use crate::rows::stored::{RowWithId, Stored, read_with_id, select_of};
use atl_descriptions::Record;
use atl_descriptions::records::campaign::StoredCampaign;
use atl_rows::parts::{
    StoredBooks, StoredFaction, StoredHas, StoredMail, StoredMarket, StoredRegion, StoredReport,
    StoredStructure, StoredUnit,
};
use atl_world::Format;
use sqlite::Row;
use std::alloc::{AllocError, Global};

impl Stored for StoredCampaign {
    ghost forms = { campaign_forms };

    ghost shown = { campaign_stored };

    ghost part = { Own };

    ghost columns = { refl };

    fn from_row(alloc: Global, row: &Row) -> Result<Option<StoredCampaign>, AllocError> {
        StoredCampaign::read_columns(alloc, row)
    }

    fn select_of() -> (Format, &'static str) {
        select_of::<StoredCampaign>()
    }
}

impl Stored for StoredFaction {
    ghost forms = { faction_forms };

    ghost shown = { faction_stored };

    ghost part = { Factions };

    ghost columns = { refl };

    fn from_row(alloc: Global, row: &Row) -> Result<Option<StoredFaction>, AllocError> {
        StoredFaction::read_columns(alloc, row)
    }

    fn select_of() -> (Format, &'static str) {
        select_of::<StoredFaction>()
    }
}

impl Stored for StoredRegion {
    ghost forms = { region_forms };

    ghost shown = { region_stored };

    ghost part = { Regions };

    ghost columns = { refl };

    fn from_row(alloc: Global, row: &Row) -> Result<Option<StoredRegion>, AllocError> {
        StoredRegion::read_columns(alloc, row)
    }

    fn select_of() -> (Format, &'static str) {
        select_of::<StoredRegion>()
    }
}

impl Stored for StoredUnit {
    ghost forms = { unit_forms };

    ghost shown = { unit_stored };

    ghost part = { Units };

    ghost columns = { refl };

    fn from_row(alloc: Global, row: &Row) -> Result<Option<StoredUnit>, AllocError> {
        StoredUnit::read_columns(alloc, row)
    }

    fn select_of() -> (Format, &'static str) {
        select_of::<StoredUnit>()
    }
}

impl Stored for RowWithId<StoredHas> {
    ghost forms = { has_forms };

    ghost shown = { has_stored };

    ghost part = { Goods };

    ghost columns = { refl };

    fn from_row(alloc: Global, row: &Row) -> Result<Option<RowWithId<StoredHas>>, AllocError> {
        read_with_id(alloc, row)
    }

    fn select_of() -> (Format, &'static str) {
        select_of::<StoredHas>()
    }
}

impl Stored for StoredStructure {
    ghost forms = { structure_forms };

    ghost shown = { structure_stored };

    ghost part = { Structures };

    ghost columns = { refl };

    fn from_row(alloc: Global, row: &Row) -> Result<Option<StoredStructure>, AllocError> {
        StoredStructure::read_columns(alloc, row)
    }

    fn select_of() -> (Format, &'static str) {
        select_of::<StoredStructure>()
    }
}

impl Stored for StoredMail {
    ghost forms = { mail_forms };

    ghost shown = { mail_stored };

    ghost part = { Mail };

    ghost columns = { refl };

    fn from_row(alloc: Global, row: &Row) -> Result<Option<StoredMail>, AllocError> {
        StoredMail::read_columns(alloc, row)
    }

    fn select_of() -> (Format, &'static str) {
        select_of::<StoredMail>()
    }
}

impl Stored for StoredReport {
    ghost forms = { report_forms };

    ghost shown = { report_stored };

    ghost part = { Reports };

    ghost columns = { refl };

    fn from_row(alloc: Global, row: &Row) -> Result<Option<StoredReport>, AllocError> {
        StoredReport::read_columns(alloc, row)
    }

    fn select_of() -> (Format, &'static str) {
        select_of::<StoredReport>()
    }
}

impl Stored for RowWithId<StoredBooks> {
    ghost forms = { books_forms };

    ghost shown = { books_stored };

    ghost part = { Books };

    ghost columns = { refl };

    fn from_row(alloc: Global, row: &Row) -> Result<Option<RowWithId<StoredBooks>>, AllocError> {
        read_with_id(alloc, row)
    }

    fn select_of() -> (Format, &'static str) {
        select_of::<StoredBooks>()
    }
}

impl Stored for RowWithId<StoredMarket> {
    ghost forms = { market_forms };

    ghost shown = { market_stored };

    ghost part = { Markets };

    ghost columns = { refl };

    fn from_row(alloc: Global, row: &Row) -> Result<Option<RowWithId<StoredMarket>>, AllocError> {
        read_with_id(alloc, row)
    }

    fn select_of() -> (Format, &'static str) {
        select_of::<StoredMarket>()
    }
}
