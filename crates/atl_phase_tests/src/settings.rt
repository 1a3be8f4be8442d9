//! Builds the campaign that a case begins with, by way of rows of the tables and their check.
ghost use Rattle.std.specs.Prelude.{◌≡◌, IfOk};
ghost use Rattle.atl_campaign.specs.Good.{IsEarly, IsGood};
ghost use Rattle.atl_phase_tests.specs.Roomy.{IsRoomy};

use crate::failed::Failed;
use atl_campaign::parts::{
    Parts, StoredBooks, StoredCampaignRow, StoredFaction, StoredHas, StoredMarket, StoredReport,
    StoredStructure, StoredUnit,
};
use atl_campaign::{Campaign, founded};
use atl_state::check_as;
use atl_test_worlds::rows::plain_unit;
use atl_world::{Format, Numbered, Sequence, Text, World, let_go};
use std::alloc::{AllocError, Global};

/// A unit of the campaign that a case begins with, of faction 1 or 2.
#[derive(Clone, Copy, Drop)]
pub(crate) struct UnitSetting {
    pub faction: i64,
    pub region: i64,
    pub structure: i64,
    pub men: i64,
    pub money: i64,
    pub guard: bool,
}

/// What a unit of a case's campaign has: an amount of an item, or days of a skill.
#[derive(Clone, Copy, Drop)]
pub(crate) struct GoodSetting {
    pub unit: i64,
    pub is_skill: bool,
    pub thing: i64,
    pub amount: i64,
}

/// A structure of a case's campaign, and how much of it is built.
#[derive(Clone, Copy, Drop)]
pub(crate) struct StructureSetting {
    pub kind: i64,
    pub region: i64,
    pub done: i64,
    pub owner: i64,
}

/// What a region of a case's campaign has in stock of an item.
#[derive(Clone, Copy, Drop)]
pub(crate) struct StockSetting {
    pub region: i64,
    pub item: i64,
    pub amount: i64,
}

/// The campaign of a case: units and structures, numbered from 1, their goods, and stocks.
/// Some units lose their men once the campaign is made.
/// The next unit's number is at least `next_unit`.
pub(crate) struct Setting {
    pub units: Vec<UnitSetting>,
    pub has: Vec<GoodSetting>,
    pub stocks: Vec<StockSetting>,
    pub structures: Vec<StructureSetting>,
    pub menless: Vec<u32>,
    pub next_unit: i64,
}

impl Drop for Setting {
    fn drop(self) {
        let_go!(self: Setting { units, has, stocks, structures, menless, next_unit });
    }
}

impl Setting {
    /// A setting of two factions without units.
    pub fn new(alloc: Global) -> Setting {
        Setting {
            units: Vec::new(alloc),
            has: Vec::new(alloc),
            stocks: Vec::new(alloc),
            structures: Vec::new(alloc),
            menless: Vec::new(alloc),
            next_unit: 1,
        }
    }

    fn next_unit(&self) -> i64 {
        (self.units.len() as i64)
            .wrapping_add(1)
            .max(self.next_unit)
    }
}

/// The names of the factions, in the order of their numbers from 1.
static FACTIONS: [&str; 2] = ["Avalon", "Bree"];

/// The number of the faction that would join next, after those of `FACTIONS`.
const NEXT_FACTION: i64 = 3;

const CAMPAIGN_ID: i64 = 1;

const CAMPAIGN_FORMAT: i64 = 2;

const JOINING: i64 = 2;

const MONEY: i64 = 0;

const PEOPLE: i64 = 1;

const FIRST_ITEM: i64 = 2;

fn head(alloc: Global, setting: &Setting) -> Result<Sequence<StoredCampaignRow>, AllocError> {
    let mut all = Sequence::new(alloc);
    all.push(StoredCampaignRow {
        id: CAMPAIGN_ID,
        format: CAMPAIGN_FORMAT,
        month: 0,
        next_faction: NEXT_FACTION,
        next_unit: setting.next_unit(),
        next_structure: (setting.structures.len() as i64).wrapping_add(1),
        pass: Sequence::from_slice(alloc, b"gm")?,
    })?;
    Ok(all)
}

fn faction(
    alloc: Global,
    number: i64,
    name: &str,
    units: &[UnitSetting],
) -> Result<StoredFaction, AllocError> {
    let there = units.iter().any(|unit| unit.faction == number);
    Ok(StoredFaction {
        number,
        joined_as: Sequence::from_slice(alloc, name.as_bytes())?,
        name: Sequence::from_slice(alloc, name.as_bytes())?,
        pass: Sequence::from_slice(alloc, b"pw")?,
        gone: i64::from(!there),
    })
}

fn factions(alloc: Global, units: &[UnitSetting]) -> Result<Sequence<StoredFaction>, AllocError> {
    let mut all = Sequence::new(alloc);
    let mut number: i64 = 0;
    for name in FACTIONS.iter() {
        number = number.wrapping_add(1);
        all.push(faction(alloc, number, name, units)?)?;
    }
    Ok(all)
}

fn reports(alloc: Global) -> Result<Sequence<StoredReport>, AllocError> {
    let mut all = Sequence::new(alloc);
    for faction in 1..NEXT_FACTION {
        all.push(StoredReport {
            faction,
            text: Text::from_str(alloc, "A report.\n")?,
        })?;
    }
    Ok(all)
}

fn unit(alloc: Global, number: i64, stood: &UnitSetting) -> Result<StoredUnit, AllocError> {
    let mut row = plain_unit(alloc, number, b"A unit")?;
    row.faction = stood.faction;
    row.region = stood.region;
    row.structure = stood.structure;
    row.men = stood.men;
    row.money = stood.money;
    row.guard = i64::from(stood.guard);
    Ok(row)
}

fn units_of(alloc: Global, units: &[UnitSetting]) -> Result<Sequence<StoredUnit>, AllocError> {
    let mut all = Sequence::new(alloc);
    let mut number: i64 = 0;
    for stood in units {
        number = number.wrapping_add(1);
        all.push(unit(alloc, number, stood)?)?;
    }
    Ok(all)
}

fn has_of(alloc: Global, has: &[GoodSetting]) -> Result<Sequence<StoredHas>, AllocError> {
    let mut all = Sequence::new(alloc);
    for had in has {
        all.push(StoredHas {
            unit: had.unit,
            sort: i64::from(had.is_skill),
            thing: had.thing,
            amount: had.amount,
        })?;
    }
    Ok(all)
}

fn markets_of(
    alloc: Global,
    stocks: &[StockSetting],
) -> Result<Sequence<StoredMarket>, AllocError> {
    let mut all = Sequence::new(alloc);
    for stock in stocks {
        all.push(StoredMarket {
            region: stock.region,
            item: stock.item,
            stock: stock.amount,
        })?;
    }
    Ok(all)
}

fn structure(
    alloc: Global,
    number: i64,
    built: &StructureSetting,
) -> Result<StoredStructure, AllocError> {
    Ok(StoredStructure {
        number,
        kind: built.kind,
        name: Sequence::from_slice(alloc, b"A place")?,
        region: built.region,
        done: built.done,
        owner: built.owner,
    })
}

fn structures_of(
    alloc: Global,
    structures: &[StructureSetting],
) -> Result<Sequence<StoredStructure>, AllocError> {
    let mut all = Sequence::new(alloc);
    let mut number: i64 = 0;
    for built in structures {
        number = number.wrapping_add(1);
        all.push(structure(alloc, number, built)?)?;
    }
    Ok(all)
}

fn book(books: &mut Sequence<StoredBooks>, thing: i64, amount: i64) -> Result<(), AllocError> {
    if amount != 0 {
        books.push(StoredBooks {
            entry: JOINING,
            thing,
            amount,
        })?;
    }
    Ok(())
}

fn all_of(has: &[GoodSetting], item: i64) -> i64 {
    let mut sum: i64 = 0;
    for had in has {
        if !had.is_skill && had.thing == item {
            sum = sum.wrapping_add(had.amount);
        }
    }
    sum
}

fn all_in_stock(stocks: &[StockSetting], item: i64) -> i64 {
    let mut sum: i64 = 0;
    for stock in stocks {
        if stock.item == item {
            sum = sum.wrapping_add(stock.amount);
        }
    }
    sum
}

fn money_and_men(units: &[UnitSetting]) -> (i64, i64) {
    let mut money: i64 = 0;
    let mut men: i64 = 0;
    for unit in units {
        money = money.wrapping_add(unit.money);
        men = men.wrapping_add(unit.men);
    }
    (money, men)
}

/// All is booked under Joining, so that the books balance.
fn book_all(
    world: &World,
    setting: &Setting,
    books: &mut Sequence<StoredBooks>,
) -> Result<(), AllocError> {
    let (money, men) = money_and_men(&setting.units);
    book(books, MONEY, money)?;
    book(books, PEOPLE, men)?;
    let mut item: i64 = 0;
    for _ in world.items() {
        let thing = item.wrapping_add(FIRST_ITEM);
        let stock = all_in_stock(&setting.stocks, item);
        book(books, thing, all_of(&setting.has, item).wrapping_add(stock))?;
        item = item.wrapping_add(1);
    }
    Ok(())
}

fn fill(
    alloc: Global,
    world: &World,
    setting: &Setting,
    parts: &mut Parts,
) -> Result<(), AllocError> {
    book_all(world, setting, &mut parts.books)?;
    parts.campaign = head(alloc, setting)?;
    parts.factions = factions(alloc, &setting.units)?;
    parts.units = units_of(alloc, &setting.units)?;
    parts.has = has_of(alloc, &setting.has)?;
    parts.structures = structures_of(alloc, &setting.structures)?;
    parts.markets = markets_of(alloc, &setting.stocks)?;
    parts.reports = reports(alloc)?;
    Ok(())
}

fn rows_of(alloc: Global, world: &World, setting: &Setting) -> Result<Parts, AllocError> {
    let mut parts = founded(alloc, world, b"gm")?.parts()?;
    fill(alloc, world, setting, &mut parts)?;
    Ok(parts)
}

/// The campaign of a setting before units lose their men; rows that the check refuses are a
/// failure.
pub(crate) fn good_campaign(
    alloc: Global,
    world: &World,
    setting: &Setting,
) -> Result<Campaign, Failed>
    ensures { IfOk result (λ c. IsGood world.now c.value) }
{
    let rows = rows_of(alloc, world, setting)?;
    match check_as(alloc, world, rows, Format::Second) {
        Ok(campaign) => Ok(campaign),
        Err(_) => Err(Failed("the rows are of no good campaign")),
    }
}

fn empty_unit(alloc: Global, world: &World, campaign: &mut Campaign, number: u32)
    requires early { IsEarly world.now campaign.old.value }
    ensures early { IsEarly world.now campaign.new.value }
    ensures books { campaign.new.value.books ≡ campaign.old.value.books }
{
    if let Some(holding) = campaign.unit_mut(number) {
        holding.set_men(0);
        holding.set_all_days(Numbered::new(alloc));
    }
}

fn empty_units(alloc: Global, world: &World, campaign: &mut Campaign, units: &[u32])
    requires early { IsEarly world.now campaign.old.value }
    ensures early { IsEarly world.now campaign.new.value }
    ensures books { campaign.new.value.books ≡ campaign.old.value.books }
{
    for number in units {
        empty_unit(alloc, world, campaign, *number);
    }
}

/// The campaign of a setting after the units in its list `menless` lost their men.
pub(crate) fn campaign_of(
    alloc: Global,
    world: &World,
    setting: &Setting,
) -> Result<Campaign, Failed>
    ensures early { IfOk result (λ c. IsEarly world.now c.value) }
    ensures room { IfOk result (λ c. IsRoomy c.value) }
{
    let mut campaign = good_campaign(alloc, world, setting)?;
    empty_units(alloc, world, &mut campaign, &setting.menless);
    Ok(campaign)
}
