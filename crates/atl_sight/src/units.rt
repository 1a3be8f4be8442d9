//! Shows a faction a unit that it sees. AllocError without memory. See docs/RULES.md, "Sight".
ghost use Rattle.std.specs.Prelude.{◌≡◌, IfOk};
ghost use Rattle.std.specs.FinMap.{get};
ghost use Rattle.atl_sight.specs.Units.{item_views, shown_name, side_of, skill_views, unit_view};

use crate::views::{ItemView, Side, SkillView, UnitView};
use crate::watch::is_guard;
use atl_campaign::{Campaign, Holding, Unit, level};
use atl_world::{Sequence, Text};
use std::alloc::{AllocError, Global};

/// The name of a faction, as reports show it; empty where there is none. AllocError without memory.
pub fn shown_name(alloc: Global, campaign: &Campaign, faction: u32) -> Result<Text, AllocError>
    ensures { IfOk result (λ name. name ≡ shown_name (get campaign.now.value.factions faction)) }
{
    match campaign.faction(faction) {
        Some(known) => known.name.copy(alloc),
        None => Text::from_str(alloc, ""),
    }
}

fn item_views(alloc: Global, holding: &Holding) -> Result<Sequence<ItemView>, AllocError>
    ensures { IfOk result (λ items. items ≡ item_views holding.now) }
{
    let mut items = Sequence::new(alloc);
    for (item, amount) in holding.items() {
        items.push(ItemView {
            item,
            amount: *amount,
        })?;
    }
    Ok(items)
}

fn skill_views(alloc: Global, holding: &Holding) -> Result<Sequence<SkillView>, AllocError>
    ensures { IfOk result (λ skills. skills ≡ skill_views holding.now) }
{
    let men = holding.men();
    let mut skills = Sequence::new(alloc);
    for (skill, days) in holding.days() {
        skills.push(SkillView {
            skill,
            level: level(*days, men),
            days: *days,
        })?;
    }
    Ok(skills)
}

fn side_of(
    alloc: Global,
    campaign: &Campaign,
    faction: u32,
    unit: &Unit,
) -> Result<Side, AllocError>
    ensures { IfOk result (λ side. side ≡ side_of campaign.now.value faction unit.now) }
{
    if unit.faction == faction {
        return Ok(Side::Own {
            money: unit.holding.money(),
            items: item_views(alloc, &unit.holding)?,
            skills: skill_views(alloc, &unit.holding)?,
        });
    }
    Ok(Side::Other {
        faction: unit.faction,
        name: shown_name(alloc, campaign, unit.faction)?,
    })
}

/// What a faction sees of a unit of this number. Of its own units these are the money, items and
/// skills too; of another's, that faction's number and name. AllocError without memory.
pub fn unit_view(
    alloc: Global,
    campaign: &Campaign,
    faction: u32,
    number: u32,
    unit: &Unit,
) -> Result<UnitView, AllocError>
    ensures { IfOk result (λ seen. seen ≡ unit_view campaign.now.value faction number unit.now) }
{
    Ok(UnitView {
        number,
        name: unit.holding.name().copy(alloc)?,
        men: unit.holding.men(),
        guard: is_guard(unit),
        structure: unit.structure,
        side: side_of(alloc, campaign, faction, unit)?,
    })
}
