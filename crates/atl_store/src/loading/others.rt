//! Reads all tables but `campaign`, and puts the rows of all tables together. A read needs a
//! connection in no transaction, with all committed; what it gives is promised on a clean disk.
ghost use Rattle.std.specs.Prelude.{◌≡◌, false, IfOk, IfErr};
ghost use Rattle.sqlite.specs.Held.{state};
ghost use Rattle.atl_store.specs.Gathering.{IsCommitted, AreOfFormat, ReadsSome, FailsWithout, AllHaveDistinctRowids, IsMadeOf};
ghost use Rattle.atl_store.specs.Loading.{other_selects};

use crate::fault::LoadFault;
use crate::loading::gathered::{AllRows, read_by, rows_after_check};
use atl_campaign::parts::{
    Parts, StoredBooks, StoredCampaignRow, StoredFaction, StoredHas, StoredMail, StoredMarket,
    StoredRegion, StoredReport, StoredStructure, StoredUnit,
};
use atl_sql::rows::RowWithId;
use atl_world::{Format, Sequence};
use sqlite::{Alter, Connection};
use std::alloc::Global;

/// The rows of the tables `faction`, `region`, `unit` and `has`.
type RowsToGoods = (
    Vec<StoredFaction>,
    (
        Vec<StoredRegion>,
        (Vec<StoredUnit>, Vec<RowWithId<StoredHas>>),
    ),
);

/// The rows of `structure`, `mail`, `report` and `books`.
type RowsFromStructures = (
    Vec<StoredStructure>,
    (
        Vec<StoredMail>,
        (Vec<StoredReport>, Vec<RowWithId<StoredBooks>>),
    ),
);

/// The rows of the tables that both formats have.
type FirstFormatRows = (RowsToGoods, RowsFromStructures);

/// The rows of the table that only the second format has: `market`.
type SecondFormatRows = Vec<RowWithId<StoredMarket>>;

/// The rows of all tables but `campaign`, in the order in which the tables are made.
pub(crate) type OtherRows = (FirstFormatRows, SecondFormatRows);

/// Reads all rows of the format's tables but `campaign`; None if a value is of another type than
/// its column. Parts that the format lacks have no rows.
pub(crate) fn read_others<S: Alter>(
    alloc: Global,
    conn: &mut Connection<S>,
    format: Format,
) -> Result<Option<OtherRows>, LoadFault>
    requires idle { conn.old.in_transaction ≡ false }
    requires settled { IsCommitted (state S.Store conn.old) }
    ensures { ReadsSome S.Store conn.old (other_selects format)
        (λ others. AreOfFormat format (state S.Store conn.old).now
        (⟦<OtherRows as AllRows>⟧.rows others)) result conn.new }
{
    read_by(alloc, conn, format)
}

/// Puts the campaign row and the rows read of all other tables together. The fault is Store if two
/// rows of the table `has`, `books` or `market` have the same rowid, or Memory if memory runs out.
pub(crate) fn parts_with(
    alloc: Global,
    head: StoredCampaignRow,
    others: OtherRows,
) -> Result<Parts, LoadFault>
    ensures ok { IfOk result (λ parts. IsMadeOf head (⟦<OtherRows as AllRows>⟧.rows others) parts) }
    ensures fails { IfErr result (FailsWithout
        (AllHaveDistinctRowids (⟦<OtherRows as AllRows>⟧.rows others))) }
{
    let ((people, works), markets) = others;
    let (factions, (regions, (units, has))) = people;
    let (structures, (mail, (reports, books))) = works;
    let has = rows_after_check(alloc, has)?;
    let books = rows_after_check(alloc, books)?;
    let markets = rows_after_check(alloc, markets)?;
    let mut campaign = Sequence::new(alloc);
    campaign.push(head)?;
    Ok(Parts {
        campaign,
        factions: Sequence::from_vec(factions),
        regions: Sequence::from_vec(regions),
        units: Sequence::from_vec(units),
        has,
        structures: Sequence::from_vec(structures),
        mail: Sequence::from_vec(mail),
        reports: Sequence::from_vec(reports),
        books,
        markets,
    })
}
