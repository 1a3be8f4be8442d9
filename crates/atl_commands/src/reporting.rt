//! Makes and stores reports: the first one of a faction, and all of a month. AllocError without
//! memory. See docs/RULES.md, "Reports".
ghost use Rattle.std.specs.Prelude.{◌≡◌, OnOk, OnErr, unwrap_or, []};
ghost use Rattle.std.specs.FinMap as map;
ghost use Rattle.atl_campaign.specs.Covers.{MarksChanges};
ghost use Rattle.atl_campaign.specs.Marking.{mark_report};
ghost use Rattle.atl_report.specs.Sight.{view_of};
ghost use Rattle.atl_report.specs.Sites.{AreRegionLists};
ghost use Rattle.atl_commands.specs.Closing.{reported_to, reported_with};
ghost use Rattle.atl_commands.specs.Months.{reported_to_all};
ghost use Rattle.atl_commands.specs.Sorting.{AreSorted};

use crate::sorting::{events_by_faction, list_of};
use atl_campaign::{Campaign, Event};
use atl_orders::FaultyLine;
use atl_report::{RegionLists, View, lists_of, report_text, view, view_over};
use atl_world::{Numbered, Sequence, Text, World, let_go};
use std::alloc::{AllocError, Global};

/// What the reports of a month need: the factions that get one, the faulty lines of each faction's
/// mailing, and all events.
pub(crate) struct MonthResult {
    pub(crate) factions: Vec<u32>,
    pub(crate) faults: Numbered<Sequence<FaultyLine>>,
    pub(crate) events: Vec<Event>,
}

impl Drop for MonthResult {
    fn drop(self) {
        let_go!(self: MonthResult { factions, faults, events });
    }
}

/// Stores and marks a report of a faction: what it sees, which `seen` has to be, `faults`, and its
/// own events among `events`. After an Err nothing is changed.
fn store_report_with(
    alloc: Global,
    world: &World,
    campaign: &mut Campaign,
    seen: &View,
    faction: u32,
    faults: &[FaultyLine],
    events: &[Event],
) -> Result<(), AllocError>
    requires { seen.now ≡ view_of world.now campaign.old.value faction }
    ensures ok { OnOk result
        (campaign.new.value ≡ reported_with world.now campaign.old.value faction faults.now
        events.now) }
    ensures marks { OnOk result (campaign.new.marks ≡ mark_report campaign.old faction) }
    ensures err { OnErr result (campaign.new ≡ campaign.old) }
{
    let text = report_text(alloc, world, seen, faults, events)?;
    campaign.set_report(faction, Text::from_string(text))?;
    Ok(())
}

/// Stores and marks a faction's first report: what it sees. After an Err nothing is changed.
pub(crate) fn store_first_report(
    alloc: Global,
    world: &World,
    campaign: &mut Campaign,
    faction: u32,
) -> Result<(), AllocError>
    ensures ok { OnOk result
        (campaign.new.value ≡ reported_with world.now campaign.old.value faction [] []) }
    ensures marks { OnOk result (campaign.new.marks ≡ mark_report campaign.old faction) }
    ensures err { OnErr result (campaign.new ≡ campaign.old) }
{
    let seen = view(alloc, world, campaign, faction)?;
    store_report_with(alloc, world, campaign, &seen, faction, &[], &[])
}

/// Stores and marks the month's report of one faction. What `lists` has of structures and units has
/// to be right (`AreRegionLists`), and `sorted` has to have all events of the outcome by faction.
fn report_to(
    alloc: Global,
    world: &World,
    campaign: &mut Campaign,
    lists: &RegionLists,
    faction: u32,
    outcome: &MonthResult,
    sorted: &Numbered<Sequence<Event>>,
) -> Result<(), AllocError>
    requires lists { AreRegionLists world.now campaign.old.value lists.now }
    requires sorted { AreSorted outcome.now.events.items sorted.now }
    ensures what { OnOk result
        (campaign.new.value ≡ reported_to world.now
        (λ n. unwrap_or (map.get outcome.now.faults n) []) outcome.now.events.items
        campaign.old.value faction) }
    ensures marks { OnOk result (MarksChanges campaign.old campaign.new) }
{
    let faults = list_of(&outcome.faults, faction);
    let events = list_of(sorted, faction);
    let seen = view_over(alloc, world, campaign, lists, faction)?;
    store_report_with(alloc, world, campaign, &seen, faction, faults, events)
}

/// Stores and marks the report of each faction of the outcome, as `report_to` does. A report
/// changes no unit and no structure, so `lists` stays right for the next one.
fn report_to_each(
    alloc: Global,
    world: &World,
    campaign: &mut Campaign,
    lists: &RegionLists,
    outcome: &MonthResult,
    sorted: &Numbered<Sequence<Event>>,
) -> Result<(), AllocError>
    requires lists { AreRegionLists world.now campaign.old.value lists.now }
    requires sorted { AreSorted outcome.now.events.items sorted.now }
    ensures what { OnOk result
        (campaign.new.value ≡ reported_to_all world.now campaign.old.value outcome.now) }
    ensures marks { OnOk result (MarksChanges campaign.old campaign.new) }
{
    for faction in outcome.factions.iter() {
        report_to(alloc, world, campaign, lists, *faction, outcome, sorted)?;
    }
    Ok(())
}

/// Stores and marks a new report for each faction of the outcome. The structures and units of each
/// region and the events of each faction are listed once for all of them.
pub(crate) fn report_to_all(
    alloc: Global,
    world: &World,
    campaign: &mut Campaign,
    outcome: &MonthResult,
) -> Result<(), AllocError>
    ensures what { OnOk result
        (campaign.new.value ≡ reported_to_all world.now campaign.old.value outcome.now) }
    ensures marks { OnOk result (MarksChanges campaign.old campaign.new) }
{
    let lists = lists_of(alloc, world, campaign)?;
    let sorted = events_by_faction(alloc, &outcome.events)?;
    report_to_each(alloc, world, campaign, &lists, outcome, &sorted)
}
