//! The crowd: a campaign of 300 units on which `agreeing` compares phases with the reference, and a
//! month of orders. Four factions have the units in twelve regions. What each unit has and orders
//! is picked by its number from tables of several lengths.
ghost use Rattle.std.specs.Prelude.{◌≤◌, IfOk, length};
ghost use Rattle.atl_campaign.specs.Good.{IsGood};
ghost use Rattle.atl_phase.specs.Fit.{AreFit};

use super::months::month;
use atl_campaign::parts::{
    Parts, StoredBooks, StoredCampaignRow, StoredFaction, StoredHas, StoredMarket, StoredReport,
    StoredUnit,
};
use atl_campaign::{Campaign, founded};
use atl_phase::Month;
use atl_state::check;
use atl_tables::read_world;
use atl_test_worlds::rows::plain_unit;
use atl_world::{Sequence, Text, World};
use std::alloc::{AllocError, Global};
use std::test::Fail;

const UNITS: u32 = 300;

const FACTIONS: u32 = 4;

const REGIONS: u32 = 12;

/// How many units with consecutive numbers are in one region: one of each faction.
const IN_A_ROW: u32 = FACTIONS;

/// The text of the crowd's world, without its regions.
const WORLD_HEAD: &str = r#"[rules]
maintenance = 60
tax_per_man = 3
recruit_price = 11
recruit_fraction = 7
growth = 9
income = 2
start_money = 100
man_weight = 10
man_carry = 6
[[terrain]]
name = "plain"
land = true
wage = 12
places = 100
money_limit = 50000
peasant_limit = 3000
output = { wood = 40, grain = 300 }
[[terrain]]
name = "hill"
land = true
wage = 31
places = 7
money_limit = 900
peasant_limit = 500
output = { stone = 25, wood = 3 }
[[item]]
name = "wood"
weight = 5
carry = 0
skill = "felling"
[[item]]
name = "stone"
weight = 25
carry = 0
skill = "quarrying"
level = 2
[[item]]
name = "grain"
weight = 1
carry = 0
skill = "farming"
[[item]]
name = "cart"
weight = 40
carry = 120
skill = "carpentry"
raw = "wood"
raw_count = 3
[[item]]
name = "relic"
weight = 1
carry = 0
[[skill]]
name = "felling"
fee = 0
[[skill]]
name = "quarrying"
fee = 4
[[skill]]
name = "farming"
fee = 1
[[skill]]
name = "carpentry"
fee = 9
"#;

const ITEMS: u32 = 5;

/// A market of a region: its item with its name, its price and what it pays for one, and its limit.
#[derive(Clone, Copy, Drop)]
struct CrowdMarket {
    item: u32,
    name: &'static str,
    price: u32,
    pays: u32,
    limit: u32,
}

/// The markets to pick from: each region has two that follow one another here, or the last and the
/// first.
static CROWD_MARKETS: [CrowdMarket; 5] = [
    CrowdMarket {
        item: 0,
        name: "wood",
        price: 6,
        pays: 4,
        limit: 40,
    },
    CrowdMarket {
        item: 1,
        name: "stone",
        price: 30,
        pays: 90,
        limit: 9,
    },
    CrowdMarket {
        item: 0,
        name: "wood",
        price: 2,
        pays: 1,
        limit: 1_000_000,
    },
    CrowdMarket {
        item: 2,
        name: "grain",
        price: 1,
        pays: 3,
        limit: 301,
    },
    CrowdMarket {
        item: 4,
        name: "relic",
        price: 700,
        pays: 200,
        limit: 3,
    },
];

/// How many thirds of its limit a market has in stock, picked by region number plus item.
static FILLED: [u32; 4] = [0, 1, 3, 2];

const SKILLS: u32 = 4;

/// Terrain, peasants and money of a region, picked by its number.
static LANDS: [(&str, u32, u32); 7] = [
    ("plain", 2_950, 700),
    ("hill", 120, 0),
    ("plain", 59, 49_000),
    ("hill", 480, 90),
    ("plain", 1_500, 13),
    ("plain", 300, 3),
    ("hill", 61, 880),
];

static MEN: [i64; 11] = [1, 1, 2, 3, 5, 8, 13, 40, 90, 2, 1];

/// How much money a unit has, picked by its number, if the number is no multiple of `RICH_DIVISOR`.
static MONEY: [i64; 7] = [0, 3, 20, 150, 900, 0, 4_000];

/// Each unit whose number is a multiple of this has `MOST_MONEY_GIVEN` of money.
const RICH_DIVISOR: u32 = 37;

/// Money that leaves a unit hardly any room for more, since it may have 999,999,999.
const MOST_MONEY_GIVEN: i64 = 999_999_990;

/// How much of an item a unit has, picked by unit number plus item; with the last amount the unit
/// has hardly any room for more.
static PIECES: [i64; 5] = [0, 2, 0, 30, 999_999_995];

/// How many days of a skill a unit has for each man, picked by unit number plus skill.
static DAYS: [i64; 6] = [29, 30, 90, 0, 180, 450];

/// The month-long order of a unit, picked by its number; an empty text is no order.
static MONTH_LONG: [&str; 9] = [
    "PRODUCE wood",
    "WORK",
    "PRODUCE stone",
    "",
    "PRODUCE grain",
    "PRODUCE cart",
    "STUDY felling",
    "PRODUCE relic",
    "PRODUCE wood",
];

static SOLD: [&str; 8] = [
    "SELL 3 wood",
    "SELL 40 grain",
    "",
    "SELL 7 wood",
    "SELL 2 stone",
    "SELL 1000000 wood",
    "SELL 1 relic",
    "SELL 9 cart",
];

static BOUGHT: [&str; 13] = [
    "BUY 2 grain",
    "BUY 5 wood",
    "",
    "BUY 100 grain",
    "BUY 1 relic",
    "BUY 30 wood",
    "",
    "BUY 4 stone",
    "BUY 999999999 wood",
    "BUY 8 grain",
    "",
    "BUY 3 wood",
    "BUY 1 cart",
];

/// How many men the RECRUIT order of a unit asks for, picked by its number.
static RECRUITED: [u32; 5] = [1, 20, 3, 7, 400];

/// The orders picked by a multiple of this number are written for the next unit, which is another
/// faction's, and not for the unit with that number.
const MISDIRECTED_DIVISOR: u32 = 29;

const JOINING: i64 = 2;

const MONEY_THING: i64 = 0;

const PEOPLE_THING: i64 = 1;

const FIRST_ITEM_THING: i64 = 2;

fn picked<T: Copy + Drop>(table: &[T], number: u32) -> T
    requires { 1 ≤ length table.now }
{
    table[number as usize % table.len()]
}

fn markets_of(region: u32) -> [CrowdMarket; 2] {
    [
        picked(&CROWD_MARKETS, region),
        picked(&CROWD_MARKETS, region.wrapping_add(1)),
    ]
}

fn add_market(alloc: Global, stall: CrowdMarket, text: &mut String) -> Result<(), AllocError> {
    let CrowdMarket {
        item: _,
        name,
        price,
        pays,
        limit,
    } = stall;
    let table = format!(in alloc;
        "[[region.market]]\nitem = \"{name}\"\nprice = {price}\npays = {pays}\nlimit = {limit}\nrestock = 5\n"
    )?;
    text.push_str(table.as_str())
}

fn add_markets(alloc: Global, number: u32, text: &mut String) -> Result<(), AllocError> {
    for stall in markets_of(number).iter() {
        add_market(alloc, *stall, text)?;
    }
    Ok(())
}

fn add_region(alloc: Global, number: u32, text: &mut String) -> Result<(), AllocError> {
    let (terrain, peasants, money) = picked(&LANDS, number);
    let table = format!(in alloc;
        "[[region]]\nnumber = {number}\nname = \"Vale\"\nterrain = \"{terrain}\"\npeasants = {peasants}\nmoney = {money}\n"
    )?;
    text.push_str(table.as_str())?;
    add_markets(alloc, number, text)
}

pub(crate) fn crowd_world(alloc: Global) -> Result<World, Fail> {
    let mut text = String::from_str(alloc, WORLD_HEAD)?;
    for number in 1..=REGIONS {
        add_region(alloc, number, &mut text)?;
    }
    Ok(read_world(alloc, text.as_str())?)
}

fn faction_of(number: u32) -> u32 {
    number % FACTIONS + 1
}

fn region_of(number: u32) -> u32 {
    number / IN_A_ROW % REGIONS + 1
}

/// In a region only units of one faction guard, and not all of them.
fn guards(number: u32) -> bool {
    region_of(number) % FACTIONS + 1 == faction_of(number) && number % 5 != 0
}

fn money_of(number: u32) -> i64 {
    if number % RICH_DIVISOR == 0 {
        MOST_MONEY_GIVEN
    } else {
        picked(&MONEY, number)
    }
}

fn unit(alloc: Global, number: u32) -> Result<StoredUnit, AllocError> {
    let mut row = plain_unit(alloc, i64::from(number), b"A unit")?;
    row.faction = i64::from(faction_of(number));
    row.region = i64::from(region_of(number));
    row.men = picked(&MEN, number);
    row.money = money_of(number);
    row.guard = i64::from(guards(number));
    Ok(row)
}

fn units(alloc: Global) -> Result<Sequence<StoredUnit>, AllocError> {
    let mut units = Sequence::new(alloc);
    for number in 1..=UNITS {
        units.push(unit(alloc, number)?)?;
    }
    Ok(units)
}

/// `sort` is 0 for an item, and 1 for a skill.
fn add_good(
    number: u32,
    sort: i64,
    thing: u32,
    amount: i64,
    has: &mut Sequence<StoredHas>,
) -> Result<(), AllocError> {
    if amount == 0 {
        return Ok(());
    }
    has.push(StoredHas {
        unit: i64::from(number),
        sort,
        thing: i64::from(thing),
        amount,
    })
}

fn pieces(number: u32, item: u32) -> i64 {
    picked(&PIECES, number.wrapping_add(item))
}

fn add_items(number: u32, has: &mut Sequence<StoredHas>) -> Result<(), AllocError> {
    for item in 0..ITEMS {
        add_good(number, 0, item, pieces(number, item), has)?;
    }
    Ok(())
}

fn add_days(number: u32, has: &mut Sequence<StoredHas>) -> Result<(), AllocError> {
    for skill in 0..SKILLS {
        let each = picked(&DAYS, number.wrapping_add(skill));
        let days = each.wrapping_mul(picked(&MEN, number));
        add_good(number, 1, skill, days, has)?;
    }
    Ok(())
}

fn has(alloc: Global) -> Result<Sequence<StoredHas>, AllocError> {
    let mut has = Sequence::new(alloc);
    for number in 1..=UNITS {
        add_items(number, &mut has)?;
        add_days(number, &mut has)?;
    }
    Ok(has)
}

fn stock_of(region: u32, stall: CrowdMarket) -> i64 {
    let thirds = picked(&FILLED, region.wrapping_add(stall.item));
    i64::from(stall.limit.wrapping_mul(thirds) / 3)
}

fn add_stocks(region: u32, markets: &mut Sequence<StoredMarket>) -> Result<(), AllocError> {
    for stall in markets_of(region).iter() {
        let stock = stock_of(region, *stall);
        if stock != 0 {
            markets.push(StoredMarket {
                region: i64::from(region),
                item: i64::from(stall.item),
                stock,
            })?;
        }
    }
    Ok(())
}

fn stocks(alloc: Global) -> Result<Sequence<StoredMarket>, AllocError> {
    let mut markets = Sequence::new(alloc);
    for region in 1..=REGIONS {
        add_stocks(region, &mut markets)?;
    }
    Ok(markets)
}

fn all_in_stock(markets: &Sequence<StoredMarket>, item: u32) -> i64 {
    let mut all: i64 = 0;
    for row in markets.as_slice() {
        if row.item == i64::from(item) {
            all = all.wrapping_add(row.stock);
        }
    }
    all
}

fn head(alloc: Global) -> Result<Sequence<StoredCampaignRow>, AllocError> {
    let mut all = Sequence::new(alloc);
    all.push(StoredCampaignRow {
        id: 1,
        format: 2,
        month: 0,
        next_faction: i64::from(FACTIONS) + 1,
        next_unit: i64::from(UNITS) + 1,
        next_structure: 1,
        pass: Sequence::from_slice(alloc, b"gm")?,
    })?;
    Ok(all)
}

fn faction(alloc: Global, number: u32) -> Result<StoredFaction, AllocError> {
    let name = format!(in alloc; "F{number}")?;
    Ok(StoredFaction {
        number: i64::from(number),
        joined_as: Sequence::from_slice(alloc, name.as_bytes())?,
        name: Sequence::from_slice(alloc, name.as_bytes())?,
        pass: Sequence::from_slice(alloc, b"pw")?,
        gone: 0,
    })
}

fn factions(alloc: Global) -> Result<Sequence<StoredFaction>, AllocError> {
    let mut all = Sequence::new(alloc);
    for number in 1..=FACTIONS {
        all.push(faction(alloc, number)?)?;
    }
    Ok(all)
}

fn reports(alloc: Global) -> Result<Sequence<StoredReport>, AllocError> {
    let mut all = Sequence::new(alloc);
    for number in 1..=FACTIONS {
        all.push(StoredReport {
            faction: i64::from(number),
            text: Text::from_str(alloc, "A report.\n")?,
        })?;
    }
    Ok(all)
}

fn book(thing: i64, amount: i64, books: &mut Sequence<StoredBooks>) -> Result<(), AllocError> {
    if amount == 0 {
        return Ok(());
    }
    books.push(StoredBooks {
        entry: JOINING,
        thing,
        amount,
    })
}

fn money_and_men() -> (i64, i64) {
    let mut money: i64 = 0;
    let mut men: i64 = 0;
    for number in 1..=UNITS {
        money = money.wrapping_add(money_of(number));
        men = men.wrapping_add(picked(&MEN, number));
    }
    (money, men)
}

fn all_pieces(item: u32) -> i64 {
    let mut all: i64 = 0;
    for number in 1..=UNITS {
        all = all.wrapping_add(pieces(number, item));
    }
    all
}

fn book_all(
    markets: &Sequence<StoredMarket>,
    books: &mut Sequence<StoredBooks>,
) -> Result<(), AllocError> {
    let (money, men) = money_and_men();
    book(MONEY_THING, money, books)?;
    book(PEOPLE_THING, men, books)?;
    for item in 0..ITEMS {
        let thing = FIRST_ITEM_THING.wrapping_add(i64::from(item));
        let pieces = all_pieces(item).wrapping_add(all_in_stock(markets, item));
        book(thing, pieces, books)?;
    }
    Ok(())
}

fn fill(alloc: Global, parts: &mut Parts) -> Result<(), AllocError> {
    parts.markets = stocks(alloc)?;
    book_all(&parts.markets, &mut parts.books)?;
    parts.campaign = head(alloc)?;
    parts.factions = factions(alloc)?;
    parts.units = units(alloc)?;
    parts.has = has(alloc)?;
    parts.reports = reports(alloc)?;
    Ok(())
}

fn rows(alloc: Global, world: &World) -> Result<Parts, AllocError> {
    let mut parts = founded(alloc, world, b"gm")?.parts()?;
    fill(alloc, &mut parts)?;
    Ok(parts)
}

/// The campaign that `check` of atl_state makes of rows, with nothing marked; rows that it refuses
/// are a failure.
pub(crate) fn checked(alloc: Global, world: &World, rows: Parts) -> Result<Campaign, Fail>
    ensures { IfOk result (λ campaign. IsGood world.now campaign.value) }
{
    Ok(check(alloc, world, rows)?)
}

pub(crate) fn crowd(alloc: Global, world: &World) -> Result<Campaign, Fail>
    ensures { IfOk result (λ campaign. IsGood world.now campaign.value) }
{
    let rows = rows(alloc, world)?;
    checked(alloc, world, rows)
}

fn ordered_unit(number: u32) -> u32 {
    if number % MISDIRECTED_DIVISOR == 0 {
        number.wrapping_add(1)
    } else {
        number
    }
}

fn add_orders(alloc: Global, number: u32, mailing: &mut String) -> Result<(), AllocError> {
    let unit = ordered_unit(number);
    let men = picked(&RECRUITED, number);
    let all_month = picked(&MONTH_LONG, number);
    let (sold, bought) = (picked(&SOLD, number), picked(&BOUGHT, number));
    let orders = format!(in alloc;
        "UNIT {unit}\n{sold}\n{bought}\nTAX\nRECRUIT {men}\n{all_month}\n"
    )?;
    mailing.push_str(orders.as_str())
}

fn mailing(alloc: Global, faction: u32) -> Result<String, AllocError> {
    let mut mailing = format!(in alloc; "#ATLANTIS {faction}\n")?;
    for number in 1..=UNITS {
        if faction_of(number) == faction {
            add_orders(alloc, number, &mut mailing)?;
        }
    }
    Ok(mailing)
}

fn as_strs(alloc: Global, texts: &[String]) -> Result<Vec<&str>, AllocError> {
    let mut all = Vec::new(alloc);
    for text in texts {
        all.push(text.as_str())?;
    }
    Ok(all)
}

pub(crate) fn crowd_month(alloc: Global, world: &World) -> Result<Month, Fail>
    ensures { IfOk result (λ month. AreFit world.now month.readings) }
{
    let mut texts = Vec::new(alloc);
    for faction in 1..=FACTIONS {
        texts.push(mailing(alloc, faction)?)?;
    }
    month(alloc, world, &as_strs(alloc, &texts)?)
}
