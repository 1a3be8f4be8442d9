//! Reads the lines of a file of cases (data/README.md has a table of them).
use crate::settings::{GoodSetting, Setting, StockSetting, StructureSetting, UnitSetting};
use atl_world::{World, let_go};
use std::alloc::{AllocError, Global};

/// A case: its title, the mailings and the words of the dice of its month, and the lines of the
/// expected result.
pub(crate) struct Case {
    pub title: String,
    pub mailings: Vec<String>,
    pub words: Vec<u32>,
    pub wanted: String,
}

impl Drop for Case {
    fn drop(self) {
        let_go!(self: Case { title, mailings, words, wanted });
    }
}

impl Case {
    pub fn new(alloc: Global, title: &str) -> Result<Case, AllocError> {
        Ok(Case {
            title: String::from_str(alloc, title)?,
            mailings: Vec::new(alloc),
            words: Vec::new(alloc),
            wanted: String::new(alloc),
        })
    }

    fn add_mail(&mut self, line: &str) -> Result<(), AllocError> {
        if let Some(mailing) = self.mailings.last_mut() {
            mailing.push_str(line)?;
            mailing.push_str("\n")?;
        }
        Ok(())
    }

    fn add_wanted(&mut self, line: &str) -> Result<(), AllocError> {
        self.wanted.push_str(line)?;
        self.wanted.push_str("\n")
    }
}

fn numbers<const N: usize>(text: &str) -> Option<[i64; N]> {
    let mut all = [0; N];
    let mut words = text.split_whitespace();
    for place in all.iter_mut() {
        *place = words.next()?.parse::<i64>().ok()?;
    }
    if words.next().is_some() {
        return None;
    }
    Some(all)
}

fn unit(text: &str) -> Option<UnitSetting> {
    let (text, guard) = match text.strip_suffix(" guard") {
        Some(front) => (front, true),
        None => (text, false),
    };
    let [faction, region, structure, men, money] = numbers::<5>(text)?;
    Some(UnitSetting {
        faction,
        region,
        structure,
        men,
        money,
        guard,
    })
}

fn good_setting(world: &World, text: &str) -> Option<GoodSetting> {
    let (unit, rest) = text.split_once(' ')?;
    let (name, amount) = rest.split_once(' ')?;
    let item = world.item_named(name.as_bytes(), false);
    let thing = match item {
        Some(item) => item,
        None => world.skill_named(name.as_bytes(), false)?,
    };
    Some(GoodSetting {
        unit: unit.parse::<i64>().ok()?,
        is_skill: item.is_none(),
        thing: i64::from(thing),
        amount: amount.parse::<i64>().ok()?,
    })
}

fn structure(world: &World, text: &str) -> Option<StructureSetting> {
    let (name, rest) = text.split_once(' ')?;
    let [region, done, owner] = numbers::<3>(rest)?;
    Some(StructureSetting {
        kind: i64::from(world.kind_named(name.as_bytes(), false)?),
        region,
        done,
        owner,
    })
}

fn read_stock(world: &World, text: &str) -> Option<StockSetting> {
    let (region, rest) = text.split_once(' ')?;
    let (name, amount) = rest.split_once(' ')?;
    Some(StockSetting {
        region: region.parse::<i64>().ok()?,
        item: i64::from(world.item_named(name.as_bytes(), false)?),
        amount: amount.parse::<i64>().ok()?,
    })
}

fn add_unit(setting: &mut Setting, text: &str) -> Option<()> {
    setting.units.push(unit(text)?).ok()
}

fn add_goods(world: &World, setting: &mut Setting, text: &str) -> Option<()> {
    setting.has.push(good_setting(world, text)?).ok()
}

fn add_stock(world: &World, setting: &mut Setting, text: &str) -> Option<()> {
    setting.stocks.push(read_stock(world, text)?).ok()
}

fn add_structure(world: &World, setting: &mut Setting, text: &str) -> Option<()> {
    setting.structures.push(structure(world, text)?).ok()
}

fn add_menless(setting: &mut Setting, text: &str) -> Option<()> {
    setting.menless.push(text.parse::<u32>().ok()?).ok()
}

/// Adds to a setting what a line of the file says. The line is given as its first word (`word`) and
/// what follows that (`rest`). None if it can't be read, or memory is short.
pub(crate) fn take_setting(
    world: &World,
    setting: &mut Setting,
    word: &str,
    rest: &str,
) -> Option<()> {
    if word == "unit" {
        add_unit(setting, rest)
    } else if word == "has" {
        add_goods(world, setting, rest)
    } else if word == "stock" {
        add_stock(world, setting, rest)
    } else if word == "structure" {
        add_structure(world, setting, rest)
    } else if word == "menless" {
        add_menless(setting, rest)
    } else if word == "next_unit" {
        setting.next_unit = rest.parse::<i64>().ok()?;
        Some(())
    } else {
        None
    }
}

/// Adds to a case what a line of the file says. The line is given as its first word (`word`) and
/// what follows that (`rest`). None if it can't be read, or memory is short.
pub(crate) fn take_case(alloc: Global, case: &mut Case, word: &str, rest: &str) -> Option<()> {
    if word == "mail" {
        case.mailings.push(String::new(alloc)).ok()
    } else if word == ">" {
        case.add_mail(rest).ok()
    } else if word == "=" {
        case.add_wanted(rest).ok()
    } else if word == "word" {
        case.words.push(rest.parse::<u32>().ok()?).ok()
    } else {
        None
    }
}
