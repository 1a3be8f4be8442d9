//! Looks up things of a world by number, without memory: terrains, neighbours, markets, kinds and
//! fees. What is found is in its ranges, as in every world.
ghost use Rattle.std.specs.Prelude.{◌≡◌, ◌≤◌, IfSome, length};
ghost use Rattle.std.specs.List.{slice_get};
ghost use Rattle.std.specs.Option.{option_copied};
ghost use Rattle.atl_world.specs.ByNumber.{terrain_of, is_land_at, neighbour, market_of, is_ship, size_of, fee_of};
ghost use Rattle.atl_world.specs.Worlds.{IsTerrain, IsMarket};

use crate::direction::Direction;
use crate::limits::MOST_SIZE;
use crate::world::{Item, Kind, Market, Terrain, World};

impl World {
    /// The terrain of a region, by the region's number; `None` if the world has no such region.
    pub fn terrain_of(&self, region: u32) -> Option<&Terrain>
        ensures value { option_copied result ≡ terrain_of self.now region }
        ensures bounds { IfSome result (λ terrain. IsTerrain (length self.now.items) terrain.now) }
    {
        let plan = self.region(region)?;
        self.terrains().get(usize::from(plan.terrain))
    }

    /// Whether the world has a region with a given number, and the region's terrain is land.
    pub fn is_land_at(&self, region: u32) -> bool
        ensures { result ≡ is_land_at self.now region }
    {
        match self.region(region) {
            Some(plan) => match self.terrains().get(usize::from(plan.terrain)) {
                Some(terrain) => terrain.land,
                None => false,
            },
            None => false,
        }
    }

    /// The number of the region next to a region in a direction; `None` if there is no such region,
    /// or none next to it there.
    pub fn neighbour(&self, region: u32, direction: Direction) -> Option<u32>
        ensures { result ≡ neighbour self.now region direction }
    {
        self.region(region)?.neighbour_to(direction)
    }

    /// The market of an item in a region, both by number; `None` without such a region or market.
    pub fn market(&self, region: u32, item: u16) -> Option<&Market>
        ensures value { option_copied result ≡ market_of self.now region item }
        ensures bounds { IfSome result
            (λ market. IsMarket (length self.now.items) item market.now) }
    {
        self.region(region)?.markets.get(u32::from(item))
    }

    /// The item with a given number, `None` if there is no such item.
    pub fn item(&self, number: u16) -> Option<&Item>
        ensures value { option_copied result ≡ slice_get self.now.items number }
        ensures bounds { IfSome result (λ item. 1 ≤ item.now.raw_count) }
    {
        self.items().get(usize::from(number))
    }

    /// The money that a month of study of a skill costs each man, 0 if there is no such skill.
    pub fn fee_of(&self, skill: u16) -> u32
        ensures { result ≡ fee_of self.now skill }
    {
        match self.skills().get(usize::from(skill)) {
            Some(found) => found.fee,
            None => 0,
        }
    }

    /// The kind of structure with a given number, `None` if there is no such kind.
    pub fn kind(&self, number: u16) -> Option<&Kind>
        ensures { option_copied result ≡ slice_get self.now.kinds number }
    {
        self.kinds().get(usize::from(number))
    }

    /// Whether a kind of structure is a ship; false if there is no such kind.
    pub fn is_ship(&self, kind: u16) -> bool
        ensures { result ≡ is_ship self.now kind }
    {
        match self.kind(kind) {
            Some(found) => found.ship,
            None => false,
        }
    }

    /// The size of a complete structure of a kind, in material; `MOST_SIZE` without such a kind.
    pub fn size_of(&self, kind: u16) -> u32
        ensures { result ≡ size_of self.now kind }
    {
        match self.kind(kind) {
            Some(found) => found.size,
            None => MOST_SIZE,
        }
    }
}
