//! The view of a faction: all that its report shows.
use atl_world::{Sequence, Text, let_go};

/// What a faction sees of a campaign: all that its report shows, but for faulty lines and events.
pub struct View {
    /// The month last closed.
    pub month: u32,
    pub faction: u32,
    pub name: Text,
    /// The views of the regions that the faction sees, by number.
    pub regions: Sequence<RegionView>,
}

impl Drop for View {
    fn drop(self) {
        let_go!(self: View { month, faction, name, regions });
    }
}

/// A region that the faction sees, with all that it sees there.
pub struct RegionView {
    pub number: u32,
    pub peasants: u32,
    pub money: u32,
    /// All markets of the region, in the order of the world's items.
    pub markets: Sequence<MarketView>,
    /// All structures in the region, by number.
    pub structures: Sequence<StructureView>,
    /// The units that are seen in the region, by number.
    pub units: Sequence<UnitView>,
}

impl Drop for RegionView {
    fn drop(self) {
        let_go!(self: RegionView { number, peasants, money, markets, structures, units });
    }
}

/// A market of a region that the faction sees: its item, its stock, and how many pieces it wants.
#[derive(Drop, Clone, Copy)]
pub struct MarketView {
    /// The index of the item in the world.
    pub item: u16,
    pub stock: u32,
    /// How many more pieces the market's limit leaves room for.
    pub wanted: u32,
}

/// A structure of a region that the faction sees, as the report shows it.
#[derive(Drop)]
pub struct StructureView {
    pub number: u32,
    /// The index of the structure's kind in the world.
    pub kind: u16,
    pub name: Text,
    /// How much of the structure is built, in material.
    pub done: u32,
    /// The number of the unit that owns the structure; 0 if nobody does, or that unit isn't seen.
    pub owner: u32,
}

/// A unit that the faction sees, as the report shows it.
pub struct UnitView {
    pub number: u32,
    pub name: Text,
    pub men: u32,
    /// Whether the unit guards the region: its guard flag is set, and it has men.
    pub guard: bool,
    /// The number of the structure that the unit is inside; 0 if it is inside none.
    pub structure: u32,
    pub side: Side,
}

impl Drop for UnitView {
    fn drop(self) {
        let_go!(self: UnitView { number, name, men, guard, structure, side });
    }
}

/// Whether a unit is the faction's own, with its money, items and skills, or another's, with that
/// faction's number and name.
pub enum Side {
    /// The faction's own, with its money, and with its items and skills in the order of the world.
    Own {
        money: u32,
        items: Sequence<ItemView>,
        skills: Sequence<SkillView>,
    },
    Other {
        faction: u32,
        name: Text,
    },
}

impl Drop for Side {
    fn drop(self) {
        match self {
            Side::Own {
                money: _,
                items: _,
                skills: _,
            } => {}
            Side::Other {
                faction: _,
                name: _,
            } => {}
        }
    }
}

/// How many pieces of an item one of the faction's own units holds.
#[derive(Drop, Clone, Copy)]
pub struct ItemView {
    /// The index of the item in the world.
    pub item: u32,
    pub amount: u32,
}

/// The level and the days of one of the faction's own units in a skill.
#[derive(Drop, Clone, Copy)]
pub struct SkillView {
    /// The index of the skill in the world.
    pub skill: u32,
    pub level: u32,
    /// The unit's days of study of the skill, which all its men have together.
    pub days: u32,
}
