//! Checks whether two worlds are equal but for their markets. See docs/RULES.md, "Upgrading".
ghost use Rattle.std.specs.Prelude.{◌≡◌, ◌↔◌, IsTrue};
ghost use Rattle.atl_world.specs.Worlds.{without_market, without_markets};
ghost use Rattle.atl_world.specs.Sums.{map_values};

use atl_world::{Item, Kind, Numbered, RegionPlan, Rules, Skill, Terrain, World};

/// Whether two values are equal in each of the fields named: `agree!(one other: land wage)`.
macro_rules! agree {
    ($one:ident $other:ident: $first:ident $($field:ident)*) => {
        $one.$first == $other.$first $(&& $one.$field == $other.$field)*
    };
}

/// A thing of a world that can be compared with another: a terrain, an item, a skill or a kind.
trait Comparable: Drop {
    fn is_same(&self, other: &Self) -> bool
        ensures { IsTrue result ↔ (self.now ≡ other.now) };
}

fn are_same<T: Comparable>(things: &[T], others: &[T]) -> bool
    ensures { IsTrue result ↔ (things.now ≡ others.now) }
{
    if things.len() != others.len() {
        return false;
    }
    for i in 0..things.len() {
        if !things[i].is_same(&others[i]) {
            return false;
        }
    }
    true
}

impl Comparable for Terrain {
    fn is_same(&self, other: &Terrain) -> bool {
        self.name.is_same(&other.name)
            && agree!(self other: land wage places money_limit peasant_limit)
            && self.output.as_slice() == other.output.as_slice()
    }
}

impl Comparable for Item {
    fn is_same(&self, other: &Item) -> bool {
        self.name.is_same(&other.name) && agree!(self other: weight carry skill level raw raw_count)
    }
}

impl Comparable for Skill {
    fn is_same(&self, other: &Skill) -> bool {
        self.name.is_same(&other.name) && self.fee == other.fee
    }
}

impl Comparable for Kind {
    fn is_same(&self, other: &Kind) -> bool {
        self.name.is_same(&other.name)
            && agree!(self other: ship material size skill level capacity crew helps)
    }
}

fn are_same_rules(rules: &Rules, others: &Rules) -> bool
    ensures { IsTrue result ↔ (rules.now ≡ others.now) }
{
    agree!(rules others: maintenance tax_per_man recruit_price recruit_fraction growth income)
        && agree!(rules others: start_money man_weight man_carry observation stealth sailing)
}

fn is_same_region(plan: &RegionPlan, other: &RegionPlan) -> bool
    ensures { IsTrue result ↔ (without_market plan.now ≡ without_market other.now) }
{
    plan.number == other.number
        && plan.name.is_same(&other.name)
        && agree!(plan other: terrain peasants money north south east west)
}

fn are_same_regions(plans: &Numbered<RegionPlan>, others: &Numbered<RegionPlan>) -> bool
    ensures { IsTrue result ↔ (map_values without_market plans.now ≡ map_values without_market
        others.now) }
{
    let mut rest = others.iter();
    for (number, plan) in plans.iter() {
        match rest.next() {
            None => return false,
            Some((other_number, other)) => {
                if number != other_number || !is_same_region(plan, other) {
                    return false;
                }
            }
        }
    }
    rest.next().is_none()
}

/// Whether two worlds are equal once the markets of their regions are left out.
pub fn are_same_but_for_markets(world: &World, other: &World) -> bool
    ensures { IsTrue result ↔ (without_markets world.now ≡ without_markets other.now) }
{
    are_same_rules(world.rules(), other.rules())
        && are_same(world.terrains(), other.terrains())
        && are_same(world.items(), other.items())
        && are_same(world.skills(), other.skills())
        && are_same(world.kinds(), other.kinds())
        && are_same_regions(world.regions(), other.regions())
}
