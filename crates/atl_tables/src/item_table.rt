//! Reads the tables `[[item]]` and looks up the skills and raw items that they name. A call that
//! may return a fault may also return `Memory`. `at` is the path of the table. See docs/FORMATS.md,
//! "The world file". There are at most 2^16 items.
ghost use Rattle.std.specs.Prelude.{◌≡◌, ◌≢◌, ◌≤◌, ◌<◌, codes, length, IfOk, IfSome, Some, option_and_then};
ghost use Rattle.atl_tables.specs.Drafts.{IsRecipe, IsItemDraft};
ghost use Rattle.atl_tables.specs.Results.{Gives};
ghost use Rattle.atl_tables.specs.ItemTable.{making_at, item_keys, item_from, other_than, item_known, item_of};
ghost use Rattle.atl_tables.specs.KeyByKey.{conditions_of, value_of};
ghost use Rattle.atl_tables.specs.Keys.{path};
ghost use Rattle.atl_world.specs.Limits.{most_numbered};
ghost use Rattle.atl_world.specs.Worlds.{IsItem};
ghost use Rattle.atl_tables.specs.Titles.{number_of, optional_name_is_known};

use crate::elements::FromTable;
use crate::fault::WorldFault;
use crate::keys::{self, element_path, path};
use crate::titles::{known_number_or_none, number_of};
use crate::world_draft::{Draft, WorldDraft};
use atl_world::limits::{LAST_LEVEL, MOST_RAW_COUNT, MOST_WEIGHT};
use atl_world::{Item, Text, Titled, let_go};
use std::alloc::Global;
use toml::Table;

/// What making one item takes, with the skill and the raw item by name.
pub struct Recipe {
    pub skill: Option<Text>,
    /// The level of the skill that making one takes, 1 to `LAST_LEVEL`; 1 if the file has none.
    pub level: u32,
    pub raw: Option<Text>,
    /// How many raw items one item is made of, from 1 to `MOST_RAW_COUNT`; 1 if the file has none.
    pub raw_count: u32,
}

impl Drop for Recipe {
    fn drop(self) {
        let_go!(self: Recipe { skill, level, raw, raw_count });
    }
}

/// A table `[[item]]` as read, with the skill and the raw item by name.
pub struct ItemDraft {
    /// The item's name as the file writes it; it keeps the rule of names.
    pub name: Text,
    /// The weight of one item, at most `MOST_WEIGHT`.
    pub weight: u32,
    /// The weight of goods that one item carries, at most `MOST_WEIGHT`.
    pub carry: u32,
    pub making: Recipe,
}

impl Drop for ItemDraft {
    fn drop(self) {
        let_go!(self: ItemDraft { name, weight, carry, making });
    }
}

impl FromTable for Recipe {
    ghost conditions = { conditions_of making_at };

    ghost record_of = { value_of making_at };

    ghost is_sound = { IsRecipe };

    #[tactic(auto, unfolding(crate::specs::ItemTable::making_at))]
    fn read(alloc: Global, at: &str, table: &Table) -> Result<Recipe, WorldFault> {
        let skill = keys::optional_text(alloc, "skill", at, table)?;
        let level = keys::number_or(alloc, 1, 1, LAST_LEVEL, "level", at, table)?;
        let raw = keys::optional_text(alloc, "raw", at, table)?;
        let raw_count = keys::number_or(alloc, 1, 1, MOST_RAW_COUNT, "raw_count", at, table)?;
        Ok(Recipe {
            skill,
            level,
            raw,
            raw_count,
        })
    }
}

impl FromTable for ItemDraft {
    ghost conditions = { item_keys };

    ghost record_of = { item_from };

    ghost is_sound = { IsItemDraft };

    #[tactic(auto, unfolding(crate::specs::ItemTable::item_at))]
    fn read(alloc: Global, at: &str, table: &Table) -> Result<ItemDraft, WorldFault> {
        let name = keys::name(alloc, "name", at, table)?;
        let weight = keys::number(alloc, 0, MOST_WEIGHT, "weight", at, table)?;
        let carry = keys::number(alloc, 0, MOST_WEIGHT, "carry", at, table)?;
        let making = Recipe::read(alloc, at, table)?;
        Ok(ItemDraft {
            name,
            weight,
            carry,
            making,
        })
    }
}

impl Titled for ItemDraft {
    ghost title_of = { λ x. x.name };

    fn title(&self) -> &Text {
        &self.name
    }
}

/// The number of the first item with a name, ignoring ASCII case; `None` if there is none, or if it
/// is the i-th item itself.
#[tactic(auto, unfolding(crate::specs::Titles::number_of))]
fn other_item(items: &[ItemDraft], i: usize, name: &Text) -> Option<u16>
    requires { length items.now ≤ most_numbered }
    ensures value { result ≡ other_than i (number_of (λ d. d.name) items.now name.now) }
    ensures same { IfSome result (λ n. number_of (λ d. d.name) items.now name.now ≡ Some n) }
    ensures below { IfSome result (λ n. n < length items.now) }
    ensures other { IfSome result (λ n. n ≢ i) }
{
    match number_of(items, name) {
        None => None,
        Some(number) => {
            if usize::from(number) == i {
                None
            } else {
                Some(number)
            }
        }
    }
}

/// The number of the i-th item's raw item, by its `name`, ignoring ASCII case; `None` without one.
/// The fault is UnknownName if no item has the name, or the first that has it is the i-th itself.
fn raw_item(
    alloc: Global,
    items: &[ItemDraft],
    i: usize,
    at: &str,
    name: &Option<Text>,
) -> Result<Option<u16>, WorldFault>
    requires { length items.now ≤ most_numbered }
    ensures value { Gives (λ n. n) result
        (optional_name_is_known (path at.now (codes "raw"))
        (λ name. other_than i (number_of (λ d. d.name) items.now name)) name.now)
        (option_and_then (number_of (λ d. d.name) items.now) name.now) }
    ensures below { IfOk result (λ o. IfSome o (λ n. n < length items.now)) }
    ensures other { IfOk result (λ o. IfSome o (λ n. n ≢ i)) }
{
    match name {
        None => Ok(None),
        Some(name) => match other_item(items, i, name) {
            None => Err(WorldFault::UnknownName(path(alloc, at, "raw")?)),
            Some(number) => Ok(Some(number)),
        },
    }
}

impl Draft for ItemDraft {
    type Record = Item;

    ghost is_draft = { IsItemDraft };

    ghost unknown = { item_known };

    ghost record_of = { item_of };

    ghost is_sound = { λ all i x. IsItem (length all.items) (length all.skills) i x };

    #[tactic(auto, unfolding(crate::specs::ItemTable::item_known, crate::specs::ItemTable::item_of))]
    fn resolve(&self, alloc: Global, all: &WorldDraft, i: usize) -> Result<Item, WorldFault> {
        let element = element_path(alloc, "item", i)?;
        let at = element.as_str();
        let making = &self.making;
        let skill = known_number_or_none(alloc, all.skills.as_slice(), "skill", at, &making.skill)?;
        let raw = raw_item(alloc, all.items.as_slice(), i, at, &making.raw)?;
        let name = self.name.copy(alloc)?;
        Ok(Item {
            name,
            weight: self.weight,
            carry: self.carry,
            skill,
            level: making.level,
            raw,
            raw_count: making.raw_count,
        })
    }
}
