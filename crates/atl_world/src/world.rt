//! The world: rules, terrains, items, skills, kinds of structures, and regions.
//! See docs/FORMATS.md, "The world file".
ghost use Rattle.std.specs.Prelude.{◌≡◌, ◌≤◌, ◌<◌, length};
ghost use Rattle.std.specs.Option.{option_copied};
ghost use Rattle.std.specs.FinMap as map;

use crate::direction::Direction;
use crate::let_go;
use crate::numbered::Numbered;
use crate::sequence::Sequence;
use crate::text::Text;
use std::marker::Model;

/// The rules of a world: its costs, taxes, growth and weights, and the skills of sight and sailing.
/// See docs/FORMATS.md, "The world file".
#[derive(Drop, Clone, Copy, Debug)]
pub struct Rules {
    /// Money that each man costs a month, from 1 to `MOST_PER_HEAD`.
    pub maintenance: u32,
    /// The most money that a man on guard takes as tax in a month, at most `MOST_PER_HEAD`.
    pub tax_per_man: u32,
    /// Money that a recruit costs, from 1 to `MOST_PRICE`.
    pub recruit_price: u32,
    /// Of this many peasants one can be recruited in a month, from 1 to `MOST_FRACTION`.
    pub recruit_fraction: u32,
    /// The most births in a month, in percent of the peasants, at most `MOST_GROWTH`.
    pub growth: u32,
    /// Money that each peasant earns its region in a month, at most `MOST_PER_HEAD`.
    pub income: u32,
    /// Money of the unit with which a faction joins, at most `MOST_AMOUNT`.
    pub start_money: u32,
    /// The weight of a man, at most `MOST_WEIGHT`.
    pub man_weight: u32,
    /// The weight of goods that a man carries, at most `MOST_WEIGHT`.
    pub man_carry: u32,
    /// The number of the skill that finds hidden units. Without one everybody's level in it is 0.
    pub observation: Option<u16>,
    /// The number of the skill that hides units. Without one everybody's level in it is 0.
    pub stealth: Option<u16>,
    /// The number of the skill that sails ships. Without one everybody's level in it is 0.
    pub sailing: Option<u16>,
}

/// A terrain, such as a forest: whether it is land, and what a region of it pays, holds and gives.
#[derive(Debug)]
pub struct Terrain {
    /// The terrain's name, as the world file writes it; no two have the same, ignoring ASCII case.
    pub name: Text,
    /// Whether the terrain is land, else it is water.
    pub land: bool,
    /// Money that a month of work pays a man, from 1 to `MOST_PRICE`.
    pub wage: u32,
    /// How many men find work in a region in a month, at most `MOST_AMOUNT`.
    pub places: u32,
    /// The most money that income brings a region to, at most `MOST_AMOUNT`.
    pub money_limit: u32,
    /// The most peasants that births bring a region to, at most `MOST_AMOUNT`.
    pub peasant_limit: u32,
    /// How much of each item of the world, by its number, a region gives in a month, each at most
    /// `MOST_AMOUNT`.
    pub output: Sequence<u32>,
}

impl Drop for Terrain {
    fn drop(self) {
        let_go!(self: Terrain { name, land, wage, places, money_limit, peasant_limit, output });
    }
}

/// An item of goods: what it weighs, what it carries, and what making one takes.
#[derive(Drop, Debug)]
pub struct Item {
    /// The item's name, as the world file writes it; no two have the same, ignoring ASCII case.
    pub name: Text,
    /// The weight of one item, at most `MOST_WEIGHT`.
    pub weight: u32,
    /// The weight of goods that one item carries, at most `MOST_WEIGHT`.
    pub carry: u32,
    /// The number of the skill that makes the item. Without one nobody can make it.
    pub skill: Option<u16>,
    /// The level of the item's skill that making the item takes, from 1 to `LAST_LEVEL`.
    pub level: u32,
    /// The number of the item that this item is made of, another one. Without one, this item comes
    /// out of the output of terrains.
    pub raw: Option<u16>,
    /// How many raw items one item is made of, from 1 to `MOST_RAW_COUNT`.
    pub raw_count: u32,
}

/// A skill that men study, and its fee.
#[derive(Drop, Debug)]
pub struct Skill {
    /// The skill's name, as the world file writes it; no two have the same, ignoring ASCII case.
    pub name: Text,
    /// Money that a month of study costs a man, at most `MOST_PRICE`.
    pub fee: u32,
}

/// A kind of structure: what building one takes, and what it is good for.
#[derive(Drop, Debug)]
pub struct Kind {
    /// The kind's name, as the world file writes it; no two have the same, ignoring ASCII case.
    pub name: Text,
    /// Whether the structure is a ship, else it is a building.
    pub ship: bool,
    /// The number of the item that the structure is built of.
    pub material: u16,
    /// How much material makes the structure complete, from 1 to `MOST_SIZE`.
    pub size: u32,
    /// The number of the skill that builds the structure.
    pub skill: u16,
    /// The level of the kind's skill that building the structure takes, from 1 to `LAST_LEVEL`.
    pub level: u32,
    /// The most weight of men and goods with which a ship sails, at most `MOST_AMOUNT`.
    pub capacity: u32,
    /// The least sum of men times their level of sailing, over all units inside, with which a ship
    /// sails, at most `MOST_SIZE`.
    pub crew: u32,
    /// The number of the skill that is studied better inside a structure of the kind, where there
    /// is one.
    pub helps: Option<u16>,
}

/// A market of a region: the item that units buy and sell there, with its two prices, its largest
/// stock, and what comes into the stock in a month.
#[derive(Drop, Clone, Copy, Debug)]
pub struct Market {
    /// The number of the item that the market trades.
    pub item: u16,
    /// Money that a unit pays the market for one item, from 1 to `MOST_PRICE`.
    pub price: u32,
    /// Money that the market pays a unit for one item, from 1 to `MOST_PRICE`.
    pub pays: u32,
    /// The largest stock of the market, at most `MOST_AMOUNT`.
    pub limit: u32,
    /// How much comes into the stock in a month, at most `MOST_AMOUNT`.
    pub restock: u32,
}

/// A region as the world file describes it, with its peasants and its money at founding. Each
/// neighbour is a region of the world, and has this one on its opposite side.
pub struct RegionPlan {
    /// The region's number, from 1 to `LAST_REGION`; no two regions have one number.
    pub number: u32,
    /// The region's name, as the world file writes it. Regions may share a name.
    pub name: Text,
    /// The number of the region's terrain.
    pub terrain: u16,
    /// Peasants at founding, at most `MOST_AMOUNT`.
    pub peasants: u32,
    /// Money at founding, at most `MOST_AMOUNT`.
    pub money: u32,
    pub north: Option<u32>,
    pub south: Option<u32>,
    pub east: Option<u32>,
    pub west: Option<u32>,
    /// The region's markets, each under the number of its item.
    pub markets: Numbered<Market>,
}

impl Drop for RegionPlan {
    fn drop(self) {
        let_go!(self: RegionPlan { number, name, terrain, peasants, money, north, south, east, west, markets });
    }
}

impl RegionPlan {
    ghost use Rattle.atl_world.specs.Worlds.{neighbour_to};

    /// The number of the region's neighbour in a direction, `None` if there is none.
    pub fn neighbour_to(&self, direction: Direction) -> Option<u32>
        ensures { result ≡ neighbour_to direction self.now }
    {
        match direction {
            Direction::North => self.north,
            Direction::South => self.south,
            Direction::East => self.east,
            Direction::West => self.west,
        }
    }
}

/// A whole world, as a world file without fault describes it. Its terrains, items, skills and kinds
/// are numbered from 0 in the order of the file, its regions are stored under their own numbers.
/// There are at most `MOST_TERRAINS`, `MOST_ITEMS`, `MOST_SKILLS`, `MOST_KINDS` and `MOST_REGIONS`
/// of them. Some region is land, and each number by which one thing refers to another exists.
/// See docs/FORMATS.md, "The world file".
pub struct World {
    rules: Rules,
    terrains: Sequence<Terrain>,
    items: Sequence<Item>,
    skills: Sequence<Skill>,
    kinds: Sequence<Kind>,
    regions: Numbered<RegionPlan>,
    // The numbers of the regions whose terrain is land, in ascending order.
    land: Sequence<u32>,
}

impl Drop for World {
    fn drop(self) {
        let_go!(self: World { rules, terrains, items, skills, kinds, regions, land });
    }
}

/// Contracts see a world as its rules, terrains, items, skills, kinds and regions. Of these
/// `IsWorld` holds.
impl Model for World {
    ghost use Rattle.std.specs.Prelude.{◌≡◌};
    ghost use Rattle.atl_world.specs.Worlds.{WorldValue, world_code, world_of_parts, IsWorld, land_of};

    ghost Value = { WorldValue };

    ghost coded = { world_code };

    ghost view = { λ a. world_of_parts a.rules a.terrains a.items a.skills a.kinds a.regions };

    ghost invariant = { λ a.
        IsWorld (world_of_parts a.rules a.terrains a.items a.skills a.kinds a.regions)
        × (a.land ≡ land_of (world_of_parts a.rules a.terrains a.items a.skills a.kinds
        a.regions)) };
}

impl World {
    ghost use Rattle.atl_world.specs.Worlds.{IsWorld, land_of, world_of_parts};

    /// Makes the world that has all this, which must be a world (`IsWorld`); `land` has the numbers
    /// of the regions whose terrain is land, in ascending order.
    pub fn from_parts(
        rules: Rules,
        terrains: Sequence<Terrain>,
        items: Sequence<Item>,
        skills: Sequence<Skill>,
        kinds: Sequence<Kind>,
        regions: Numbered<RegionPlan>,
        land: Sequence<u32>,
    ) -> World
        requires world { IsWorld (world_of_parts rules terrains items skills kinds regions) }
        requires land { land ≡ land_of (world_of_parts rules terrains items skills kinds regions) }
        ensures { result ≡ world_of_parts rules terrains items skills kinds regions }
    {
        World {
            rules,
            terrains,
            items,
            skills,
            kinds,
            regions,
            land,
        }
    }

    pub fn rules(&self) -> &Rules
        ensures value { result.now ≡ self.now.rules }
        ensures world { IsWorld self.now }
    {
        &self.rules
    }

    /// The terrains of the world, each at the index of its number.
    pub fn terrains(&self) -> &[Terrain]
        ensures value { result.now ≡ self.now.terrains }
        ensures world { IsWorld self.now }
    {
        self.terrains.as_slice()
    }

    /// The items of the world, each at the index of its number.
    pub fn items(&self) -> &[Item]
        ensures value { result.now ≡ self.now.items }
        ensures world { IsWorld self.now }
    {
        self.items.as_slice()
    }

    /// The skills of the world, each at the index of its number.
    pub fn skills(&self) -> &[Skill]
        ensures value { result.now ≡ self.now.skills }
        ensures world { IsWorld self.now }
    {
        self.skills.as_slice()
    }

    /// The kinds of structures of the world, each at the index of its number.
    pub fn kinds(&self) -> &[Kind]
        ensures value { result.now ≡ self.now.kinds }
        ensures world { IsWorld self.now }
    {
        self.kinds.as_slice()
    }

    /// The regions of the world by their numbers.
    pub fn regions(&self) -> &Numbered<RegionPlan>
        ensures value { result.now ≡ self.now.regions }
        ensures world { IsWorld self.now }
    {
        &self.regions
    }

    /// The region with a given number, `None` if the world has no such region.
    pub fn region(&self, number: u32) -> Option<&RegionPlan>
        ensures value { option_copied result ≡ map.get self.now.regions number }
        ensures world { IsWorld self.now }
    {
        self.regions.get(number)
    }

    /// The numbers of the regions whose terrain is land, in ascending order.
    pub fn land(&self) -> &[u32]
        ensures value { result.now ≡ land_of self.now }
        ensures world { IsWorld self.now }
    {
        self.land.as_slice()
    }
}
