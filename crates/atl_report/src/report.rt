//! Writes the text of a report, at the end of `out`; after an AllocError some of it may be there.
//! See docs/FORMATS.md, "Reports".
ghost use Rattle.std.specs.Prelude.{◌≡◌, ◌++◌, ◌&&◌, IfOk, OnOk, [], codes, if◌then◌else◌, is_none, string_bytes};
ghost use Rattle.std.specs.Option.{option_map_or};
ghost use Rattle.atl_sight.specs.Each.{each_text, separated_texts};
ghost use Rattle.atl_report.specs.Report.{header_line, unit_head, guard_text, inside_text, item_text, skill_text, goods_text, unit_line, structure_text, structure_line, region_line, exit_text, exit_texts, exits_text, exits_line, market_text, market_line, market_lines, region_part, report_of, OthersEventsAreNotReported, OnlyWhatIsSeenIsReported};

use atl_campaign::Event;
use atl_lines::FaultyLine;
use atl_sight::{
    ItemView, MarketView, RegionView, Side, SkillView, StructureView, UnitView, View, write_orders,
};
use atl_world::{Item, Kind, Market, RegionPlan, World};
use std::alloc::{AllocError, Global};
use std::fmt::Write;

/// What in a view has a text in reports; the world gives the names in the text.
trait InReport {
    ghost use Rattle.std.specs.Prelude.{List, ℕ};
    ghost use Rattle.atl_world.specs.Worlds.{WorldValue};

    // The text; the world gives the names in it.
    ghost text: { WorldValue → Self → List ℕ };

    /// Writes the text at the end of `out`.
    fn write(&self, out: &mut String, world: &World) -> Result<(), AllocError>
        ensures { OnOk result (string_bytes out.new
            ≡ string_bytes out.old ++ text world.now self.now) };
}

fn write_each<T: InReport>(out: &mut String, world: &World, list: &[T]) -> Result<(), AllocError>
    ensures { OnOk result (string_bytes out.new
        ≡ string_bytes out.old ++ each_text (T.text world.now) list.now) }
{
    for one in list {
        one.write(out, world)?;
    }
    Ok(())
}

#[tactic(auto, unfolding(crate::specs::Report::header_line))]
fn write_header(out: &mut String, view: &View) -> Result<(), AllocError>
    ensures { OnOk result (string_bytes out.new ≡ string_bytes out.old ++ header_line view.now) }
{
    let month = view.month;
    let faction = view.faction;
    let name = view.name.as_str();
    write!(
        out,
        "Atlantis report, month {month}, faction {faction} \"{name}\".\n"
    )
}

fn write_head(out: &mut String, unit: &UnitView) -> Result<(), AllocError>
    ensures { OnOk result (string_bytes out.new
        ≡ string_bytes out.old ++ unit_head unit.now unit.now.side) }
{
    let number = unit.number;
    let name = unit.name.as_str();
    let men = unit.men;
    match &unit.side {
        Side::Own {
            money,
            items: _,
            skills: _,
        } => {
            let money = *money;
            write!(out, "* Unit {number} \"{name}\": {men} men, {money} money")
        }
        Side::Other { faction, name: of } => {
            let faction = *faction;
            let of = of.as_str();
            write!(
                out,
                "- Unit {number} \"{name}\" of faction {faction} \"{of}\": {men} men"
            )
        }
    }
}

fn write_guard(out: &mut String, guard: bool) -> Result<(), AllocError>
    ensures { OnOk result (string_bytes out.new ≡ string_bytes out.old ++ guard_text guard) }
{
    if guard {
        out.push_str(", guard")?;
    }
    Ok(())
}

/// Writes in which structure a unit is; nothing for 0, which stands for no structure.
fn write_inside(out: &mut String, structure: u32) -> Result<(), AllocError>
    ensures { OnOk result (string_bytes out.new ≡ string_bytes out.old ++ inside_text structure) }
{
    if structure == 0 {
        return Ok(());
    }
    write!(out, ", in {structure}")
}

/// An item of an own unit, as in `, 5 wood`; nothing for one that the world doesn't have.
impl InReport for ItemView {
    ghost text = { item_text };

    #[tactic(auto, unfolding(crate::specs::Report::item_text))]
    fn write(&self, out: &mut String, world: &World) -> Result<(), AllocError> {
        let Some(item) = world.items().get(self.item as usize) else {
            return Ok(());
        };
        let amount = self.amount;
        let name = item.name.as_str();
        write!(out, ", {amount} {name}")
    }
}

/// A skill of an own unit with level and days, as in `, sailing 1 (30)`; nothing for one that the
/// world doesn't have.
impl InReport for SkillView {
    ghost text = { skill_text };

    #[tactic(auto, unfolding(crate::specs::Report::skill_text))]
    fn write(&self, out: &mut String, world: &World) -> Result<(), AllocError> {
        let Some(skill) = world.skills().get(self.skill as usize) else {
            return Ok(());
        };
        let name = skill.name.as_str();
        let level = self.level;
        let days = self.days;
        write!(out, ", {name} {level} ({days})")
    }
}

fn write_goods(out: &mut String, world: &World, side: &Side) -> Result<(), AllocError>
    ensures { OnOk result (string_bytes out.new
        ≡ string_bytes out.old ++ goods_text world.now side.now) }
{
    match side {
        Side::Own {
            money: _,
            items,
            skills,
        } => {
            write_each(out, world, items.as_slice())?;
            write_each(out, world, skills.as_slice())
        }
        Side::Other {
            faction: _,
            name: _,
        } => Ok(()),
    }
}

impl InReport for UnitView {
    ghost text = { unit_line };

    #[tactic(auto, unfolding(crate::specs::Report::unit_line))]
    fn write(&self, out: &mut String, world: &World) -> Result<(), AllocError> {
        write_head(out, self)?;
        write_guard(out, self.guard)?;
        write_inside(out, self.structure)?;
        write_goods(out, world, &self.side)?;
        out.push_str(".\n")?;
        Ok(())
    }
}

fn write_structure_text(
    out: &mut String,
    structure: &StructureView,
    kind: &Kind,
) -> Result<(), AllocError>
    ensures { OnOk result (string_bytes out.new
        ≡ string_bytes out.old ++ structure_text structure.now kind.now) }
{
    let number = structure.number;
    let name = structure.name.as_str();
    let sort = kind.name.as_str();
    let done = structure.done;
    let size = kind.size;
    let owner = structure.owner;
    write!(
        out,
        "Structure {number} \"{name}\", {sort}, {done} of {size}, owner {owner}.\n"
    )
}

/// The line of a structure; nothing where the world doesn't have its kind.
impl InReport for StructureView {
    ghost text = { structure_line };

    #[tactic(auto, unfolding(crate::specs::Report::structure_line))]
    fn write(&self, out: &mut String, world: &World) -> Result<(), AllocError> {
        match world.kind(self.kind) {
            Some(kind) => write_structure_text(out, self, kind),
            None => Ok(()),
        }
    }
}

/// Writes the line of a region; nothing where the world doesn't have the region.
#[tactic(auto, unfolding(crate::specs::Report::region_line))]
fn write_region(out: &mut String, world: &World, region: &RegionView) -> Result<(), AllocError>
    ensures { OnOk result (string_bytes out.new
        ≡ string_bytes out.old ++ region_line world.now region.now) }
{
    let Some(plan) = world.region(region.number) else {
        return Ok(());
    };
    let terrain = match world.terrains().get(usize::from(plan.terrain)) {
        Some(terrain) => terrain.name.as_str(),
        None => "",
    };
    let number = region.number;
    let name = plan.name.as_str();
    let peasants = region.peasants;
    let money = region.money;
    write!(
        out,
        "Region {number} \"{name}\", {terrain}: {peasants} peasants, {money} money.\n"
    )
}

/// Writes an exit, after a comma unless it is the first; nothing without an exit.
fn write_exit(
    out: &mut String,
    is_first: bool,
    direction: &str,
    exit: Option<u32>,
) -> Result<(), AllocError>
    ensures { OnOk result (string_bytes out.new
        ≡ string_bytes out.old ++ option_map_or
        (λ to. (if is_first then [] else codes ", ") ++ exit_text direction.now to) exit []) }
{
    match exit {
        None => Ok(()),
        Some(number) => {
            if is_first {
                write!(out, "{direction} {number}")
            } else {
                write!(out, ", {direction} {number}")
            }
        }
    }
}

fn write_directions(out: &mut String, plan: &RegionPlan) -> Result<(), AllocError>
    ensures { OnOk result (string_bytes out.new
        ≡ string_bytes out.old ++ separated_texts (codes ", ") (exit_texts plan.now)) }
{
    let north = plan.north.is_none();
    let south = plan.south.is_none();
    let east = plan.east.is_none();
    write_exit(out, true, "north", plan.north)?;
    write_exit(out, north, "south", plan.south)?;
    write_exit(out, north && south, "east", plan.east)?;
    write_exit(out, north && south && east, "west", plan.west)?;
    Ok(())
}

fn has_no_exit(plan: &RegionPlan) -> bool
    ensures { result
        ≡ (((is_none plan.now.north && is_none plan.now.south) && is_none plan.now.east)
        && is_none plan.now.west) }
{
    plan.north.is_none() && plan.south.is_none() && plan.east.is_none() && plan.west.is_none()
}

fn write_known_exits(out: &mut String, plan: &RegionPlan) -> Result<(), AllocError>
    ensures { OnOk result (string_bytes out.new ≡ string_bytes out.old ++ exits_text plan.now) }
{
    out.push_str("Exits: ")?;
    if has_no_exit(plan) {
        out.push_str("none")?;
    } else {
        write_directions(out, plan)?;
    }
    out.push_str(".\n")?;
    Ok(())
}

#[tactic(auto, unfolding(crate::specs::Report::exits_line))]
fn write_exits(out: &mut String, world: &World, region: &RegionView) -> Result<(), AllocError>
    ensures { OnOk result (string_bytes out.new
        ≡ string_bytes out.old ++ exits_line world.now region.now) }
{
    match world.region(region.number) {
        Some(plan) => write_known_exits(out, plan),
        None => Ok(()),
    }
}

fn write_market_text(
    out: &mut String,
    seen: MarketView,
    market: &Market,
    item: &Item,
) -> Result<(), AllocError>
    ensures { OnOk result (string_bytes out.new
        ≡ string_bytes out.old ++ market_text seen market.now item.now) }
{
    let name = item.name.as_str();
    let stock = seen.stock;
    let price = market.price;
    let wanted = seen.wanted;
    let pays = market.pays;
    write!(
        out,
        "Market {name}: {stock} in stock at {price}, {wanted} wanted at {pays}.\n"
    )
}

/// Writes the line of a market; nothing where the world doesn't have the market or its item.
#[tactic(auto, unfolding(crate::specs::Report::market_line))]
fn write_market(
    out: &mut String,
    world: &World,
    region: u32,
    seen: MarketView,
) -> Result<(), AllocError>
    ensures { OnOk result (string_bytes out.new
        ≡ string_bytes out.old ++ market_line world.now region seen) }
{
    let Some(market) = world.market(region, seen.item) else {
        return Ok(());
    };
    match world.item(seen.item) {
        Some(item) => write_market_text(out, seen, market, item),
        None => Ok(()),
    }
}

fn write_markets(
    out: &mut String,
    world: &World,
    region: u32,
    markets: &[MarketView],
) -> Result<(), AllocError>
    ensures { OnOk result (string_bytes out.new
        ≡ string_bytes out.old ++ market_lines world.now region markets.now) }
{
    for seen in markets {
        write_market(out, world, region, *seen)?;
    }
    Ok(())
}

impl InReport for RegionView {
    ghost text = { region_part };

    #[tactic(auto, unfolding(crate::specs::Report::region_part))]
    fn write(&self, out: &mut String, world: &World) -> Result<(), AllocError> {
        write_region(out, world, self)?;
        write_exits(out, world, self)?;
        write_markets(out, world, self.number, self.markets.as_slice())?;
        write_each(out, world, self.structures.as_slice())?;
        write_each(out, world, self.units.as_slice())?;
        Ok(())
    }
}

/// The text of the report to a view's faction, with the given faulty lines and those of the events
/// that are its own. The names in it come from `world`; what that doesn't have is left out.
/// AllocError without memory. See docs/FORMATS.md, "Reports".
#[tactic(auto, unfolding(crate::specs::Report::report_of))]
pub fn report_text(
    alloc: Global,
    world: &World,
    view: &View,
    faults: &[FaultyLine],
    events: &[Event],
) -> Result<String, AllocError>
    ensures definition { IfOk result
        (λ text. string_bytes text ≡ report_of world.now view.now faults.now events.now) }
{
    let mut out = String::new(alloc);
    write_header(&mut out, view)?;
    write_orders(&mut out, view.faction, faults, events)?;
    write_each(&mut out, world, view.regions.as_slice())?;
    Ok(out)
}

/// The law that for one view and the same faulty lines, events of other factions make no difference
/// to a faction's report. It does nothing.
pub fn others_events_are_not_reported()
    ensures { OthersEventsAreNotReported }
{}

/// The law that two campaigns of one world give a faction the same report, if its view, its faulty
/// lines and its own events are the same. It does nothing.
pub fn only_what_is_seen_is_reported()
    ensures { OnlyWhatIsSeenIsReported }
{}
