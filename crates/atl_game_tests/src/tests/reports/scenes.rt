//! Makes campaigns for the tests of reports out of scenes, which say what a campaign has. A scene
//! gives rows of tables, of which atl_state makes a campaign after it has checked them.
ghost use Rattle.std.specs.Prelude.{IfOk};
ghost use Rattle.atl_campaign.specs.Good.{IsGood};

use atl_campaign::parts::{
    Parts, StoredBooks, StoredCampaignRow, StoredFaction, StoredHas, StoredMarket, StoredRegion,
    StoredReport, StoredStructure, StoredUnit,
};
use atl_campaign::{Campaign, founded};
use atl_state::check_as;
use atl_test_worlds::rows::plain_unit;
use atl_world::{Format, Sequence, Text, World};
use std::alloc::Global;
use std::test::Fail;

const SECOND_FORMAT: i64 = 2;

const JOINING: i64 = 2;

const STOCKED: i64 = 16;

const FIRST_ITEM: i64 = 2;

const ITEM: i64 = 0;

const SKILL: i64 = 1;

/// The item wood, as the columns `sort` and `thing` of the table `has`.
pub(crate) const WOOD: (i64, i64) = (ITEM, 0);

pub(crate) const CART: (i64, i64) = (ITEM, 1);

pub(crate) const LUMBERJACK: (i64, i64) = (SKILL, 0);

pub(crate) const SAILING: (i64, i64) = (SKILL, 3);

pub(crate) const STEALTH: (i64, i64) = (SKILL, 4);

pub(crate) const OBSERVATION: (i64, i64) = (SKILL, 5);

pub(crate) const BOAT: i64 = 0;

pub(crate) const LODGE: i64 = 1;

/// A unit of faction 1 or 2 with all that it has; its name is the one that new units get.
#[derive(Clone, Copy)]
pub(crate) struct SceneUnit {
    pub faction: i64,
    pub region: i64,
    pub structure: i64,
    pub men: i64,
    pub money: i64,
    pub guard: i64,
    /// What the unit has: amounts of items and days of skills, each under a pair such as `WOOD`.
    pub has: &'static [((i64, i64), i64)],
}

pub(crate) const MAN: SceneUnit = SceneUnit {
    faction: 1,
    region: 1,
    structure: 0,
    men: 1,
    money: 0,
    guard: 0,
    has: &[],
};

/// A structure: kind, name, region, how much of it is built, and its owner.
#[derive(Clone, Copy)]
pub(crate) struct Built {
    pub kind: i64,
    pub name: &'static str,
    pub region: i64,
    pub done: i64,
    pub owner: i64,
}

/// Units, structures, regions, stocks and books of a campaign that factions 1 and 2 have joined.
#[derive(Clone, Copy)]
pub(crate) struct Scene {
    /// The units, numbered from 1.
    pub people: &'static [SceneUnit],
    /// The structures, numbered from 1.
    pub built: &'static [Built],
    /// The regions with their peasants and money; if the list is empty, all regions are as at the
    /// founding.
    pub regions: &'static [(i64, i64, i64)],
    /// The stocks: region, item and amount.
    pub stocks: &'static [(i64, i64, i64)],
    /// What is booked: entry, thing and amount. If the list is empty, the books are those of the
    /// founding. In addition, the money, men and first two items of all units are booked under
    /// Joining, and all stocks under Stocked.
    pub books: &'static [(i64, i64, i64)],
}

/// A scene without units and structures, so that factions 1 and 2 are gone.
pub(crate) const NOBODY: Scene = Scene {
    people: &[],
    built: &[],
    regions: &[],
    stocks: &[],
    books: &[],
};

fn heads(alloc: Global, scene: &Scene) -> Result<Sequence<StoredCampaignRow>, Fail> {
    let mut all = Sequence::new(alloc);
    all.push(StoredCampaignRow {
        id: 1,
        format: SECOND_FORMAT,
        month: 0,
        next_faction: 3,
        next_unit: (scene.people.len() as i64).wrapping_add(1),
        next_structure: (scene.built.len() as i64).wrapping_add(1),
        pass: Sequence::from_slice(alloc, b"gm")?,
    })?;
    Ok(all)
}

fn faction(alloc: Global, number: i64, name: &str, scene: &Scene) -> Result<StoredFaction, Fail> {
    let there = scene.people.iter().any(|unit| unit.faction == number);
    Ok(StoredFaction {
        number,
        joined_as: Sequence::from_slice(alloc, name.as_bytes())?,
        name: Sequence::from_slice(alloc, name.as_bytes())?,
        pass: Sequence::from_slice(alloc, b"pw")?,
        gone: i64::from(!there),
    })
}

fn factions(alloc: Global, scene: &Scene) -> Result<Sequence<StoredFaction>, Fail> {
    let mut all = Sequence::new(alloc);
    all.push(faction(alloc, 1, "Avalon", scene)?)?;
    all.push(faction(alloc, 2, "Bree", scene)?)?;
    Ok(all)
}

fn reports(alloc: Global) -> Result<Sequence<StoredReport>, Fail> {
    let mut all = Sequence::new(alloc);
    for faction in 1..=2i64 {
        all.push(StoredReport {
            faction,
            text: Text::from_str(alloc, "A report.\n")?,
        })?;
    }
    Ok(all)
}

fn unit(alloc: Global, number: i64, person: &SceneUnit) -> Result<StoredUnit, Fail> {
    let name = format!(in alloc; "Unit {number}")?;
    let mut row = plain_unit(alloc, number, name.as_bytes())?;
    row.faction = person.faction;
    row.region = person.region;
    row.structure = person.structure;
    row.men = person.men;
    row.money = person.money;
    row.guard = person.guard;
    Ok(row)
}

fn units(alloc: Global, people: &[SceneUnit]) -> Result<Sequence<StoredUnit>, Fail> {
    let mut all = Sequence::new(alloc);
    let mut number: i64 = 0;
    for person in people {
        number = number.wrapping_add(1);
        all.push(unit(alloc, number, person)?)?;
    }
    Ok(all)
}

fn has_of(all: &mut Sequence<StoredHas>, unit: i64, has: &[((i64, i64), i64)]) -> Result<(), Fail> {
    for ((sort, thing), amount) in has {
        all.push(StoredHas {
            unit,
            sort: *sort,
            thing: *thing,
            amount: *amount,
        })?;
    }
    Ok(())
}

fn has(alloc: Global, people: &[SceneUnit]) -> Result<Sequence<StoredHas>, Fail> {
    let mut all = Sequence::new(alloc);
    let mut number: i64 = 0;
    for person in people {
        number = number.wrapping_add(1);
        has_of(&mut all, number, person.has)?;
    }
    Ok(all)
}

fn structure(alloc: Global, number: i64, built: &Built) -> Result<StoredStructure, Fail> {
    Ok(StoredStructure {
        number,
        kind: built.kind,
        name: Sequence::from_slice(alloc, built.name.as_bytes())?,
        region: built.region,
        done: built.done,
        owner: built.owner,
    })
}

fn structures(alloc: Global, built: &[Built]) -> Result<Sequence<StoredStructure>, Fail> {
    let mut all = Sequence::new(alloc);
    let mut number: i64 = 0;
    for one in built {
        number = number.wrapping_add(1);
        all.push(structure(alloc, number, one)?)?;
    }
    Ok(all)
}

fn regions(alloc: Global, rows: &[(i64, i64, i64)]) -> Result<Sequence<StoredRegion>, Fail> {
    let mut all = Sequence::new(alloc);
    for (number, peasants, money) in rows {
        all.push(StoredRegion {
            number: *number,
            peasants: *peasants,
            money: *money,
        })?;
    }
    Ok(all)
}

fn markets(alloc: Global, rows: &[(i64, i64, i64)]) -> Result<Sequence<StoredMarket>, Fail> {
    let mut all = Sequence::new(alloc);
    for (region, item, stock) in rows {
        all.push(StoredMarket {
            region: *region,
            item: *item,
            stock: *stock,
        })?;
    }
    Ok(all)
}

fn books(alloc: Global, rows: &[(i64, i64, i64)]) -> Result<Sequence<StoredBooks>, Fail> {
    let mut all = Sequence::new(alloc);
    for (entry, thing, amount) in rows {
        all.push(StoredBooks {
            entry: *entry,
            thing: *thing,
            amount: *amount,
        })?;
    }
    Ok(all)
}

fn held(person: &SceneUnit, item: i64) -> i64 {
    let mut sum: i64 = 0;
    for ((sort, thing), amount) in person.has {
        if *sort == ITEM && *thing == item {
            sum = sum.wrapping_add(*amount);
        }
    }
    sum
}

/// `thing` is 0 for money, 1 for people, and 2 for the first item.
fn brought(people: &[SceneUnit], thing: i64) -> i64 {
    let mut sum: i64 = 0;
    for person in people {
        let amount = match thing {
            0 => person.money,
            1 => person.men,
            _ => held(person, thing.wrapping_sub(FIRST_ITEM)),
        };
        sum = sum.wrapping_add(amount);
    }
    sum
}

fn book_joining(people: &[SceneUnit], all: &mut Sequence<StoredBooks>) -> Result<(), Fail> {
    for thing in 0..=3i64 {
        let amount = brought(people, thing);
        if amount != 0 {
            all.push(StoredBooks {
                entry: JOINING,
                thing,
                amount,
            })?;
        }
    }
    Ok(())
}

/// No two stocks may be of one item.
fn book_stocks(stocks: &[(i64, i64, i64)], all: &mut Sequence<StoredBooks>) -> Result<(), Fail> {
    for (_, item, stock) in stocks {
        all.push(StoredBooks {
            entry: STOCKED,
            thing: item.wrapping_add(FIRST_ITEM),
            amount: *stock,
        })?;
    }
    Ok(())
}

fn rows_of(alloc: Global, world: &World, scene: &Scene) -> Result<Parts, Fail> {
    let mut parts = founded(alloc, world, b"gm")?.parts()?;
    book_joining(scene.people, &mut parts.books)?;
    book_stocks(scene.stocks, &mut parts.books)?;
    if !scene.regions.is_empty() {
        parts.regions = regions(alloc, scene.regions)?;
    }
    if !scene.books.is_empty() {
        parts.books = books(alloc, scene.books)?;
    }
    parts.campaign = heads(alloc, scene)?;
    parts.factions = factions(alloc, scene)?;
    parts.units = units(alloc, scene.people)?;
    parts.has = has(alloc, scene.people)?;
    parts.structures = structures(alloc, scene.built)?;
    parts.markets = markets(alloc, scene.stocks)?;
    parts.reports = reports(alloc)?;
    Ok(parts)
}

/// The campaign of a scene; rows that `check_as` of atl_state refuses are a failure.
pub(crate) fn campaign_of(alloc: Global, world: &World, scene: &Scene) -> Result<Campaign, Fail>
    ensures { IfOk result (λ c. IsGood world.now c.value) }
{
    let rows = rows_of(alloc, world, scene)?;
    match check_as(alloc, world, rows, Format::Second) {
        Ok(campaign) => Ok(campaign),
        Err(_) => Err(Fail::new("rows of a good campaign")),
    }
}
