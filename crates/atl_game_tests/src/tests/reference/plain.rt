//! The campaign of the reference calculation: lists of plain numbers for units, goods, regions,
//! stocks and books.
use atl_campaign::{BooksEntry, Campaign, Event, Region, Thing, Unit};
use atl_world::let_go;
use std::alloc::{AllocError, Global};

/// A unit without its goods: its number, faction, region, guard flag, men and money.
#[derive(Clone, Copy, Drop, PartialEq, Eq)]
pub(crate) struct PlainUnit {
    pub number: u32,
    pub faction: u32,
    pub region: u32,
    pub guard: bool,
    pub men: u64,
    pub money: u64,
}

/// How much of an item a unit has, or how many days of a skill.
#[derive(Clone, Copy, Drop, PartialEq, Eq)]
pub(crate) struct PlainGood {
    pub unit: u32,
    pub is_skill: bool,
    pub thing: u32,
    pub amount: u64,
}

#[derive(Clone, Copy, Drop, PartialEq, Eq)]
pub(crate) struct PlainRegion {
    pub number: u32,
    pub peasants: u64,
    pub money: u64,
}

#[derive(Clone, Copy, Drop, PartialEq, Eq)]
pub(crate) struct Stock {
    pub region: u32,
    pub item: u32,
    pub amount: u64,
}

/// The amount booked of a thing under an entry; entry and thing are numbers of the table `books`.
#[derive(Clone, Copy, Drop, PartialEq, Eq)]
pub(crate) struct PlainBooking {
    pub entry: u32,
    pub thing: u32,
    pub amount: i64,
}

/// A campaign as lists, and the events of the phase played on it.
pub(crate) struct PlainCampaign {
    pub people: Vec<PlainUnit>,
    pub goods: Vec<PlainGood>,
    pub lands: Vec<PlainRegion>,
    pub stocks: Vec<Stock>,
    pub books: Vec<PlainBooking>,
    pub events: Vec<Event>,
}

impl Drop for PlainCampaign {
    fn drop(self) {
        let_go!(self: PlainCampaign { people, goods, lands, stocks, books, events });
    }
}

fn plain_unit_of(number: u32, unit: &Unit) -> PlainUnit {
    PlainUnit {
        number,
        faction: unit.faction,
        region: unit.region,
        guard: unit.holding.guard(),
        men: u64::from(unit.holding.men()),
        money: u64::from(unit.holding.money()),
    }
}

fn plain_units_of(alloc: Global, campaign: &Campaign) -> Result<Vec<PlainUnit>, AllocError> {
    let mut people = Vec::new(alloc);
    for (number, unit) in campaign.units() {
        people.push(plain_unit_of(number, unit))?;
    }
    Ok(people)
}

fn add_items(number: u32, unit: &Unit, goods: &mut Vec<PlainGood>) -> Result<(), AllocError> {
    for (thing, amount) in unit.holding.items() {
        goods.push(PlainGood {
            unit: number,
            is_skill: false,
            thing,
            amount: u64::from(*amount),
        })?;
    }
    Ok(())
}

fn add_days(number: u32, unit: &Unit, goods: &mut Vec<PlainGood>) -> Result<(), AllocError> {
    for (thing, days) in unit.holding.days() {
        goods.push(PlainGood {
            unit: number,
            is_skill: true,
            thing,
            amount: u64::from(*days),
        })?;
    }
    Ok(())
}

fn goods_of(alloc: Global, campaign: &Campaign) -> Result<Vec<PlainGood>, AllocError> {
    let mut goods = Vec::new(alloc);
    for (number, unit) in campaign.units() {
        add_items(number, unit, &mut goods)?;
        add_days(number, unit, &mut goods)?;
    }
    Ok(goods)
}

fn plain_regions_of(alloc: Global, campaign: &Campaign) -> Result<Vec<PlainRegion>, AllocError> {
    let mut lands = Vec::new(alloc);
    for (number, region) in campaign.regions() {
        lands.push(PlainRegion {
            number,
            peasants: u64::from(region.peasants),
            money: u64::from(region.money),
        })?;
    }
    Ok(lands)
}

fn add_stocks(number: u32, region: &Region, stocks: &mut Vec<Stock>) -> Result<(), AllocError> {
    for (item, amount) in region.stocks.iter() {
        stocks.push(Stock {
            region: number,
            item,
            amount: u64::from(*amount),
        })?;
    }
    Ok(())
}

fn stocks_of(alloc: Global, campaign: &Campaign) -> Result<Vec<Stock>, AllocError> {
    let mut stocks = Vec::new(alloc);
    for (number, region) in campaign.regions() {
        add_stocks(number, region, &mut stocks)?;
    }
    Ok(stocks)
}

fn books_of(alloc: Global, campaign: &Campaign) -> Result<Vec<PlainBooking>, AllocError> {
    let mut books = Vec::new(alloc);
    let rows = campaign.parts()?;
    for row in rows.books.as_slice() {
        books.push(PlainBooking {
            entry: u32::try_from(row.entry).unwrap_or(0),
            thing: u32::try_from(row.thing).unwrap_or(0),
            amount: row.amount,
        })?;
    }
    Ok(books)
}

fn rise(before: u64, after: u64) -> i64 {
    let before = i64::try_from(before).unwrap_or(0);
    let after = i64::try_from(after).unwrap_or(0);
    after.wrapping_sub(before)
}

impl PlainCampaign {
    pub fn from_campaign(alloc: Global, campaign: &Campaign) -> Result<PlainCampaign, AllocError> {
        let people = plain_units_of(alloc, campaign)?;
        let goods = goods_of(alloc, campaign)?;
        let lands = plain_regions_of(alloc, campaign)?;
        let stocks = stocks_of(alloc, campaign)?;
        let books = books_of(alloc, campaign)?;
        Ok(PlainCampaign {
            people,
            goods,
            lands,
            stocks,
            books,
            events: Vec::new(alloc),
        })
    }

    pub fn find_unit(&self, number: u32) -> Option<PlainUnit> {
        for person in self.people.iter() {
            if person.number == number {
                return Some(*person);
            }
        }
        None
    }

    pub fn find_region(&self, number: u32) -> Option<PlainRegion> {
        for land in self.lands.iter() {
            if land.number == number {
                return Some(*land);
            }
        }
        None
    }

    /// How much a unit has of an item, or its days of a skill; 0 if it has none.
    pub fn amount(&self, unit: u32, is_skill: bool, thing: u32) -> u64 {
        for good in self.goods.iter() {
            if good.unit == unit && good.is_skill == is_skill && good.thing == thing {
                return good.amount;
            }
        }
        0
    }

    pub fn stock(&self, region: u32, item: u32) -> u64 {
        for stock in self.stocks.iter() {
            if stock.region == region && stock.item == item {
                return stock.amount;
            }
        }
        0
    }

    pub fn set_men_and_money(&mut self, number: u32, men: u64, money: u64) {
        for person in self.people.iter_mut() {
            if person.number == number {
                person.men = men;
                person.money = money;
            }
        }
    }

    pub fn set_peasants_and_money(&mut self, number: u32, peasants: u64, money: u64) {
        for land in self.lands.iter_mut() {
            if land.number == number {
                land.peasants = peasants;
                land.money = money;
            }
        }
    }

    /// Sets how much a unit has of an item, or its days of a skill; a good that isn't in the list
    /// is added at the end.
    pub fn set_amount(&mut self, new: PlainGood) -> Result<(), AllocError> {
        let mut is_new = true;
        for good in self.goods.iter_mut() {
            if good.unit == new.unit && good.is_skill == new.is_skill && good.thing == new.thing {
                good.amount = new.amount;
                is_new = false;
            }
        }
        if is_new {
            self.goods.push(new)?;
        }
        Ok(())
    }

    /// Sets how much a region has in stock of an item; a stock that isn't in the list is added at
    /// the end.
    pub fn set_stock(&mut self, new: Stock) -> Result<(), AllocError> {
        let mut is_new = true;
        for stock in self.stocks.iter_mut() {
            if stock.region == new.region && stock.item == new.item {
                stock.amount = new.amount;
                is_new = false;
            }
        }
        if is_new {
            self.stocks.push(new)?;
        }
        Ok(())
    }

    pub fn book(
        &mut self,
        entry: BooksEntry,
        thing: Thing,
        before: u64,
        after: u64,
    ) -> Result<(), AllocError> {
        let (entry, thing, amount) = (entry.number(), thing.number(), rise(before, after));
        let mut is_new = true;
        for booked in self.books.iter_mut() {
            if booked.entry == entry && booked.thing == thing {
                booked.amount = booked.amount.wrapping_add(amount);
                is_new = false;
            }
        }
        if is_new {
            self.books.push(PlainBooking {
                entry,
                thing,
                amount,
            })?;
        }
        Ok(())
    }

    /// The booked amounts that aren't 0, sorted by entry and thing.
    pub fn sorted_books(&self, alloc: Global) -> Result<Vec<PlainBooking>, AllocError> {
        let mut books = Vec::new(alloc);
        for booked in self.books.iter() {
            if booked.amount != 0 {
                books.push(*booked)?;
            }
        }
        books.sort_unstable_by_key(|booked| [booked.entry as usize, booked.thing as usize]);
        Ok(books)
    }

    /// The stocks that aren't 0, sorted by region and item.
    pub fn sorted_stocks(&self, alloc: Global) -> Result<Vec<Stock>, AllocError> {
        let mut stocks = Vec::new(alloc);
        for stock in self.stocks.iter() {
            if stock.amount != 0 {
                stocks.push(*stock)?;
            }
        }
        stocks.sort_unstable_by_key(|stock| [stock.region as usize, stock.item as usize]);
        Ok(stocks)
    }

    /// The goods that aren't 0, sorted by unit, then items before skills, then by number.
    pub fn sorted_goods(&self, alloc: Global) -> Result<Vec<PlainGood>, AllocError> {
        let mut goods = Vec::new(alloc);
        for good in self.goods.iter() {
            if good.amount != 0 {
                goods.push(*good)?;
            }
        }
        goods.sort_unstable_by_key(|good| {
            [
                good.unit as usize,
                usize::from(good.is_skill),
                good.thing as usize,
            ]
        });
        Ok(goods)
    }
}
