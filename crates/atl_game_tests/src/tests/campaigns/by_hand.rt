//! Builds the rows of the tables of a campaign by hand, so that tests of `check` can put one wrong
//! value in. The island is the world `ISLE_WITH_MARKET` of atl_test_worlds.
use atl_campaign::parts::{
    Parts, StoredBooks, StoredCampaignRow, StoredFaction, StoredHas, StoredMarket, StoredRegion,
    StoredReport, StoredStructure, StoredUnit,
};
use atl_test_worlds::rows::plain_unit;
use atl_world::{Format, Sequence, Text};
use std::alloc::Global;
use std::test::Fail;

/// The values of the island campaign's rows that tests vary. Avalon and Bree have a unit each in
/// region 3. Region 1 has a market with room for 30 wood.
#[derive(Clone, Copy)]
pub(crate) struct Rows {
    /// The format that is asked for, and the number that the campaign's own row has of it.
    pub(crate) asked: Format,
    pub(crate) format: i64,
    pub(crate) pass: &'static str,
    /// The number that the next unit gets, as the row of `campaign` says.
    pub(crate) next_unit: i64,
    /// Peasants and money of region 1.
    pub(crate) peasants: i64,
    pub(crate) region_money: i64,
    /// Whether faction Bree is gone.
    pub(crate) gone: i64,
    /// Faction, region and money of unit 2.
    pub(crate) faction: i64,
    pub(crate) region: i64,
    pub(crate) money: i64,
    /// Whether both units guard.
    pub(crate) guard: i64,
    /// Days of lumberjack of unit 1, or 0.
    pub(crate) days: i64,
    /// The owner of a lodge in region 3, or 0 where there is no lodge.
    pub(crate) lodge: i64,
    /// The entry under which the money of the joins is booked.
    pub(crate) entry: i64,
    pub(crate) reports: i64,
    /// Region, item and stock of the market's row, and how often the row is there.
    pub(crate) market: i64,
    pub(crate) item: i64,
    pub(crate) stock: i64,
    pub(crate) times: i64,
    /// The entry under which 20 wood are booked, if the market's row is there.
    pub(crate) stocked: i64,
    /// The money booked as bought.
    pub(crate) bought: i64,
}

fn no_rows(alloc: Global) -> Parts {
    Parts {
        campaign: Sequence::new(alloc),
        factions: Sequence::new(alloc),
        regions: Sequence::new(alloc),
        units: Sequence::new(alloc),
        has: Sequence::new(alloc),
        structures: Sequence::new(alloc),
        mail: Sequence::new(alloc),
        reports: Sequence::new(alloc),
        books: Sequence::new(alloc),
        markets: Sequence::new(alloc),
    }
}

fn add_head(
    alloc: Global,
    heads: &mut Sequence<StoredCampaignRow>,
    rows: &Rows,
) -> Result<(), Fail> {
    heads.push(StoredCampaignRow {
        id: 1,
        format: rows.format,
        month: 0,
        next_faction: 3,
        next_unit: rows.next_unit,
        next_structure: if rows.lodge == 0 { 1 } else { 2 },
        pass: Sequence::from_slice(alloc, rows.pass.as_bytes())?,
    })?;
    Ok(())
}

fn add_regions(regions: &mut Sequence<StoredRegion>, rows: &[[i64; 3]]) -> Result<(), Fail> {
    for [number, peasants, money] in rows.iter() {
        regions.push(StoredRegion {
            number: *number,
            peasants: *peasants,
            money: *money,
        })?;
    }
    Ok(())
}

fn add_books(books: &mut Sequence<StoredBooks>, rows: &[[i64; 3]]) -> Result<(), Fail> {
    for [entry, thing, amount] in rows.iter() {
        books.push(StoredBooks {
            entry: *entry,
            thing: *thing,
            amount: *amount,
        })?;
    }
    Ok(())
}

fn faction(alloc: Global, number: i64, name: &str, gone: i64) -> Result<StoredFaction, Fail> {
    Ok(StoredFaction {
        number,
        joined_as: Sequence::from_slice(alloc, name.as_bytes())?,
        name: Sequence::from_slice(alloc, name.as_bytes())?,
        pass: Sequence::from_slice(alloc, b"pw")?,
        gone,
    })
}

/// The second comes first: tables may come in any order.
fn add_factions(
    alloc: Global,
    factions: &mut Sequence<StoredFaction>,
    rows: &Rows,
) -> Result<(), Fail> {
    factions.push(faction(alloc, 2, "Bree", rows.gone)?)?;
    factions.push(faction(alloc, 1, "Avalon", 0)?)?;
    Ok(())
}

/// The second comes first: tables may come in any order. Of unit 1's row tests vary `guard` alone.
fn add_units(alloc: Global, units: &mut Sequence<StoredUnit>, rows: &Rows) -> Result<(), Fail> {
    let mut second = plain_unit(alloc, 2, b"Unit 2")?;
    second.faction = rows.faction;
    second.region = rows.region;
    second.money = rows.money;
    second.guard = rows.guard;
    units.push(second)?;
    let mut first = plain_unit(alloc, 1, b"Unit 1")?;
    first.region = 3;
    first.money = 1000;
    first.guard = rows.guard;
    units.push(first)?;
    Ok(())
}

fn add_days(has: &mut Sequence<StoredHas>, rows: &Rows) -> Result<(), Fail> {
    if rows.days != 0 {
        has.push(StoredHas {
            unit: 1,
            sort: 1,
            thing: 0,
            amount: rows.days,
        })?;
    }
    Ok(())
}

fn add_lodge(
    alloc: Global,
    structures: &mut Sequence<StoredStructure>,
    rows: &Rows,
) -> Result<(), Fail> {
    if rows.lodge != 0 {
        structures.push(StoredStructure {
            number: 1,
            kind: 1,
            name: Sequence::from_slice(alloc, b"Building 1")?,
            region: 3,
            done: 1,
            owner: rows.lodge,
        })?;
    }
    Ok(())
}

fn add_reports(
    alloc: Global,
    reports: &mut Sequence<StoredReport>,
    rows: &Rows,
) -> Result<(), Fail> {
    for faction in 1..=rows.reports {
        reports.push(StoredReport {
            faction,
            text: Text::from_str(alloc, "A report.\n")?,
        })?;
    }
    Ok(())
}

/// A test can have the market's row twice or not at all.
fn add_markets(markets: &mut Sequence<StoredMarket>, rows: &Rows) -> Result<(), Fail> {
    for _ in 0..rows.times {
        markets.push(StoredMarket {
            region: rows.market,
            item: rows.item,
            stock: rows.stock,
        })?;
    }
    Ok(())
}

fn add_trade(books: &mut Sequence<StoredBooks>, rows: &Rows) -> Result<(), Fail> {
    if rows.times != 0 {
        add_books(books, &[[rows.stocked, 2, 20]])?;
    }
    if rows.bought != 0 {
        add_books(books, &[[14, 0, rows.bought]])?;
    }
    Ok(())
}

fn add_people(alloc: Global, parts: &mut Parts, rows: &Rows) -> Result<(), Fail> {
    add_head(alloc, &mut parts.campaign, rows)?;
    add_factions(alloc, &mut parts.factions, rows)?;
    add_units(alloc, &mut parts.units, rows)?;
    add_days(&mut parts.has, rows)?;
    add_reports(alloc, &mut parts.reports, rows)
}

fn add_places(alloc: Global, parts: &mut Parts, rows: &Rows) -> Result<(), Fail> {
    add_regions(
        &mut parts.regions,
        &[
            [4, 100, 50],
            [3, 200, 100],
            [2, 0, 0],
            [1, rows.peasants, rows.region_money],
        ],
    )?;
    add_lodge(alloc, &mut parts.structures, rows)?;
    add_markets(&mut parts.markets, rows)?;
    add_trade(&mut parts.books, rows)?;
    add_books(
        &mut parts.books,
        &[[2, 1, 2], [rows.entry, 0, 2000], [1, 1, 1300], [1, 0, 650]],
    )
}

/// The rows of all tables of the campaign that `rows` describes, in no particular order.
pub(crate) fn parts(alloc: Global, rows: &Rows) -> Result<Parts, Fail> {
    let mut parts = no_rows(alloc);
    add_people(alloc, &mut parts, rows)?;
    add_places(alloc, &mut parts, rows)?;
    Ok(parts)
}
