//! Makes the rows of a campaign in each table of a format. No row of the tables `has`, `books` and
//! `market` is of an amount of 0, and the first format has no rows of `market`. Where memory runs
//! out, the answer is AllocError; then nothing is said of rows that were being added to. See
//! docs/FORMATS.md, "Tables".
ghost use Rattle.std.specs.Prelude.{◌≡◌, ◌≤◌, ◌<◌, ◌++◌, ◌∷◌, [], IfOk, OnOk};
ghost use Rattle.std.specs.FinMap as map;
ghost use Rattle.std.specs.List.{flat_map};
ghost use Rattle.atl_world.specs.declared.format.Format.TheVariants.{First, Second};
ghost use Rattle.atl_records.specs.Limits.{possible_things};
ghost use Rattle.atl_records.specs.Grids.{accounts_under};
ghost use Rattle.atl_campaign.specs.Rows.{rows_by, campaign_row, faction_row, region_row, unit_row, structure_row, mail_row, report_row, has_row, books_row, market_row, rows_of_sort, held_rows, has_rows, stock_rows, market_rows, rows_under, books_rows, rows_of};

use crate::campaign::Campaign;
use crate::row_values::flag;
use crate::unit_rows::unit_row;
use atl_records::{Books, BooksEntry, Faction, Holding, Structure, Thing};
use atl_rows::parts::{
    Parts, StoredBooks, StoredCampaignRow, StoredFaction, StoredHas, StoredMail, StoredMarket,
    StoredRegion, StoredReport, StoredStructure, StoredUnit,
};
use atl_world::{Entries, Format, Sequence, Text};
use std::alloc::{AllocError, Global};

/// The `sort` of a row of the table `has` for an item.
pub(crate) const ITEM_SORT: u32 = 0;

/// The `sort` of a row of the table `has` for a skill.
pub(crate) const SKILL_SORT: u32 = 1;

const CAMPAIGN_ID: i64 = 1;

pub(crate) fn bytes_of(alloc: Global, text: &Text) -> Result<Sequence<u8>, AllocError>
    ensures { IfOk result (λ bytes. bytes ≡ text.now) }
{
    Sequence::from_slice(alloc, text.as_bytes())
}

/// The row lacks the world text, which no campaign knows.
fn campaign_row(
    alloc: Global,
    format: Format,
    campaign: &Campaign,
) -> Result<StoredCampaignRow, AllocError>
    ensures { IfOk result (λ row. row ≡ campaign_row format campaign.now.value) }
{
    let pass = bytes_of(alloc, campaign.pass())?;
    Ok(StoredCampaignRow {
        id: CAMPAIGN_ID,
        format: i64::from(format.number()),
        month: i64::from(campaign.month()),
        next_faction: i64::from(campaign.next_faction()),
        next_unit: i64::from(campaign.next_unit()),
        next_structure: i64::from(campaign.next_structure()),
        pass,
    })
}

fn faction_row(alloc: Global, number: u32, faction: &Faction) -> Result<StoredFaction, AllocError>
    ensures { IfOk result (λ row. row ≡ faction_row number faction.now) }
{
    let joined_as = bytes_of(alloc, &faction.joined_as)?;
    let name = bytes_of(alloc, &faction.name)?;
    let pass = bytes_of(alloc, &faction.pass)?;
    Ok(StoredFaction {
        number: i64::from(number),
        joined_as,
        name,
        pass,
        gone: flag(faction.gone),
    })
}

fn structure_row(
    alloc: Global,
    number: u32,
    structure: &Structure,
) -> Result<StoredStructure, AllocError>
    ensures { IfOk result (λ row. row ≡ structure_row number structure.now) }
{
    let name = bytes_of(alloc, &structure.name)?;
    Ok(StoredStructure {
        number: i64::from(number),
        kind: i64::from(structure.kind),
        name,
        region: i64::from(structure.region),
        done: i64::from(structure.done),
        owner: i64::from(structure.owner),
    })
}

fn campaign_rows(
    alloc: Global,
    format: Format,
    campaign: &Campaign,
) -> Result<Sequence<StoredCampaignRow>, AllocError>
    ensures { IfOk result (λ rows. rows ≡ campaign_row format campaign.now.value ∷ []) }
{
    let mut rows = Sequence::new(alloc);
    rows.push(campaign_row(alloc, format, campaign)?)?;
    Ok(rows)
}

fn faction_rows(alloc: Global, campaign: &Campaign) -> Result<Sequence<StoredFaction>, AllocError>
    ensures { IfOk result (λ rows. rows
        ≡ rows_by faction_row (map.entries campaign.now.value.factions)) }
{
    let mut rows = Sequence::new(alloc);
    for (number, faction) in campaign.factions() {
        rows.push(faction_row(alloc, number, faction)?)?;
    }
    Ok(rows)
}

fn region_rows(alloc: Global, campaign: &Campaign) -> Result<Sequence<StoredRegion>, AllocError>
    ensures { IfOk result (λ rows. rows
        ≡ rows_by region_row (map.entries campaign.now.value.regions)) }
{
    let mut rows = Sequence::new(alloc);
    for (number, region) in campaign.regions() {
        rows.push(StoredRegion {
            number: i64::from(number),
            peasants: i64::from(region.peasants),
            money: i64::from(region.money),
        })?;
    }
    Ok(rows)
}

fn unit_rows(alloc: Global, campaign: &Campaign) -> Result<Sequence<StoredUnit>, AllocError>
    ensures { IfOk result (λ rows. rows ≡ rows_by unit_row (map.entries campaign.now.value.units)) }
{
    let mut rows = Sequence::new(alloc);
    for (number, unit) in campaign.units() {
        rows.push(unit_row(alloc, number, unit)?)?;
    }
    Ok(rows)
}

fn structure_rows(
    alloc: Global,
    campaign: &Campaign,
) -> Result<Sequence<StoredStructure>, AllocError>
    ensures { IfOk result (λ rows. rows
        ≡ rows_by structure_row (map.entries campaign.now.value.structures)) }
{
    let mut rows = Sequence::new(alloc);
    for (number, structure) in campaign.structures() {
        rows.push(structure_row(alloc, number, structure)?)?;
    }
    Ok(rows)
}

fn mail_rows(alloc: Global, campaign: &Campaign) -> Result<Sequence<StoredMail>, AllocError>
    ensures { IfOk result (λ rows. rows ≡ rows_by mail_row (map.entries campaign.now.value.mail)) }
{
    let mut rows = Sequence::new(alloc);
    for (number, mail) in campaign.mail() {
        let text = Sequence::from_slice(alloc, mail.as_slice())?;
        let faction = i64::from(number);
        rows.push(StoredMail { faction, text })?;
    }
    Ok(rows)
}

fn report_rows(alloc: Global, campaign: &Campaign) -> Result<Sequence<StoredReport>, AllocError>
    ensures { IfOk result (λ rows. rows
        ≡ rows_by report_row (map.entries campaign.now.value.reports)) }
{
    let mut rows = Sequence::new(alloc);
    for (number, report) in campaign.reports() {
        let text = report.copy(alloc)?;
        let faction = i64::from(number);
        rows.push(StoredReport { faction, text })?;
    }
    Ok(rows)
}

fn has_row(number: u32, sort: u32, thing: u32, amount: u32) -> StoredHas
    ensures { result ≡ has_row number sort thing amount }
{
    StoredHas {
        unit: i64::from(number),
        sort: i64::from(sort),
        thing: i64::from(thing),
        amount: i64::from(amount),
    }
}

/// Adds no row for an amount of 0.
fn add_sort_rows(
    rows: &mut Sequence<StoredHas>,
    number: u32,
    sort: u32,
    things: Entries<'_, u32>,
) -> Result<(), AllocError>
    ensures { OnOk result (rows.new ≡ rows.old ++ rows_of_sort number sort things.entry) }
{
    for (thing, amount) in things {
        if *amount != 0 {
            rows.push(has_row(number, sort, thing, *amount))?;
        }
    }
    Ok(())
}

fn add_held(
    rows: &mut Sequence<StoredHas>,
    number: u32,
    holding: &Holding,
) -> Result<(), AllocError>
    ensures { OnOk result (rows.new ≡ rows.old ++ held_rows number holding.now) }
{
    add_sort_rows(rows, number, ITEM_SORT, holding.items())?;
    add_sort_rows(rows, number, SKILL_SORT, holding.days())
}

fn has_rows(alloc: Global, campaign: &Campaign) -> Result<Sequence<StoredHas>, AllocError>
    ensures { IfOk result (λ rows. rows ≡ has_rows (map.entries campaign.now.value.units)) }
{
    let mut rows = Sequence::new(alloc);
    for (number, unit) in campaign.units() {
        add_held(&mut rows, number, &unit.holding)?;
    }
    Ok(rows)
}

fn market_row(region: u32, item: u32, stock: u32) -> StoredMarket
    ensures { result ≡ market_row region item stock }
{
    StoredMarket {
        region: i64::from(region),
        item: i64::from(item),
        stock: i64::from(stock),
    }
}

/// Adds no row for a stock of 0.
fn add_stocks(
    rows: &mut Sequence<StoredMarket>,
    region: u32,
    stocks: Entries<'_, u32>,
) -> Result<(), AllocError>
    ensures { OnOk result (rows.new ≡ rows.old ++ stock_rows region stocks.entry) }
{
    for (item, stock) in stocks {
        if *stock != 0 {
            rows.push(market_row(region, item, *stock))?;
        }
    }
    Ok(())
}

fn stocks_rows(alloc: Global, campaign: &Campaign) -> Result<Sequence<StoredMarket>, AllocError>
    ensures { IfOk result (λ rows. rows
        ≡ market_rows Second (map.entries campaign.now.value.regions)) }
{
    let mut rows = Sequence::new(alloc);
    for (number, region) in campaign.regions() {
        add_stocks(&mut rows, number, region.stocks.iter())?;
    }
    Ok(rows)
}

fn market_rows(
    alloc: Global,
    format: Format,
    campaign: &Campaign,
) -> Result<Sequence<StoredMarket>, AllocError>
    ensures { IfOk result (λ rows. rows
        ≡ market_rows format (map.entries campaign.now.value.regions)) }
{
    match format {
        Format::First => Ok(Sequence::new(alloc)),
        Format::Second => stocks_rows(alloc, campaign),
    }
}

fn books_row(entry: BooksEntry, thing: Thing, amount: i64) -> StoredBooks
    ensures { result ≡ books_row entry thing amount }
{
    StoredBooks {
        entry: i64::from(entry.number()),
        thing: i64::from(thing.number()),
        amount,
    }
}

/// Adds no row for an amount of 0.
fn add_entry(
    rows: &mut Sequence<StoredBooks>,
    books: &Books,
    things: usize,
    entry: BooksEntry,
) -> Result<(), AllocError>
    requires things { things ≡ books.now.things }
    requires few { things ≤ possible_things }
    ensures { OnOk result
        (rows.new ≡ rows.old ++ rows_under books.now (accounts_under things entry)) }
{
    for number in 0..things {
        let thing = Thing::of_number(number);
        let amount = books.amount(entry, thing);
        if amount != 0 {
            rows.push(books_row(entry, thing, amount))?;
        }
    }
    Ok(())
}

fn add_entries(
    rows: &mut Sequence<StoredBooks>,
    books: &Books,
    things: usize,
    entries: &[BooksEntry],
) -> Result<(), AllocError>
    requires things { things ≡ books.now.things }
    requires few { things ≤ possible_things }
    ensures { OnOk result (rows.new
        ≡ rows.old ++ rows_under books.now (flat_map (accounts_under things) entries.now)) }
{
    for entry in entries {
        add_entry(rows, books, things, *entry)?;
    }
    Ok(())
}

fn books_rows(alloc: Global, books: &Books) -> Result<Sequence<StoredBooks>, AllocError>
    ensures { IfOk result (λ rows. rows ≡ books_rows books.now) }
{
    let things = books.len();
    let mut rows = Sequence::new(alloc);
    add_entries(&mut rows, books, things, &BooksEntry::ALL)?;
    Ok(rows)
}

/// The rows of what has a number of its own.
#[derive(Drop)]
struct NumberedRows {
    factions: Sequence<StoredFaction>,
    regions: Sequence<StoredRegion>,
    units: Sequence<StoredUnit>,
    structures: Sequence<StoredStructure>,
}

fn numbered_rows(alloc: Global, campaign: &Campaign) -> Result<NumberedRows, AllocError>
    ensures { IfOk result (λ rows. rows
        ≡ record {
          factions = rows_by faction_row (map.entries campaign.now.value.factions);
          regions = rows_by region_row (map.entries campaign.now.value.regions);
          units = rows_by unit_row (map.entries campaign.now.value.units);
          structures = rows_by structure_row (map.entries campaign.now.value.structures);
        }) }
{
    Ok(NumberedRows {
        factions: faction_rows(alloc, campaign)?,
        regions: region_rows(alloc, campaign)?,
        units: unit_rows(alloc, campaign)?,
        structures: structure_rows(alloc, campaign)?,
    })
}

/// The rows of what there is of things: of units, of the books, and of markets.
#[derive(Drop)]
struct AmountRows {
    has: Sequence<StoredHas>,
    books: Sequence<StoredBooks>,
    markets: Sequence<StoredMarket>,
}

fn amount_rows(alloc: Global, format: Format, campaign: &Campaign) -> Result<AmountRows, AllocError>
    ensures { IfOk result (λ rows. rows
        ≡ record {
          has = has_rows (map.entries campaign.now.value.units);
          books = books_rows campaign.now.value.books;
          markets = market_rows format (map.entries campaign.now.value.regions);
        }) }
{
    Ok(AmountRows {
        has: has_rows(alloc, campaign)?,
        books: books_rows(alloc, campaign.books())?,
        markets: market_rows(alloc, format, campaign)?,
    })
}

impl Campaign {
    /// The rows of the campaign in the second format, in the order of their keys. AllocError
    /// without memory. See docs/FORMATS.md, "Tables".
    pub fn parts(&self) -> Result<Parts, AllocError>
        ensures { IfOk result (λ parts. parts ≡ rows_of Second self.now.value) }
    {
        self.parts_as(Format::Second)
    }

    /// The rows of the campaign in a format, in the order of their keys. AllocError without memory.
    /// See docs/FORMATS.md, "Tables".
    #[tactic(auto, unfolding(crate::specs::Rows::rows_of))]
    pub fn parts_as(&self, format: Format) -> Result<Parts, AllocError>
        ensures { IfOk result (λ parts. parts ≡ rows_of format self.now.value) }
    {
        let alloc = self.alloc();
        let campaign = campaign_rows(alloc, format, self)?;
        let mail = mail_rows(alloc, self)?;
        let reports = report_rows(alloc, self)?;
        let AmountRows {
            has,
            books,
            markets,
        } = amount_rows(alloc, format, self)?;
        let NumberedRows {
            factions,
            regions,
            units,
            structures,
        } = numbered_rows(alloc, self)?;
        Ok(Parts {
            campaign,
            factions,
            regions,
            units,
            has,
            structures,
            mail,
            reports,
            books,
            markets,
        })
    }
}
