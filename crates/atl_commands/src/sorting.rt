//! Sorts the events of a month by faction, for the reports.
ghost use Rattle.std.specs.Prelude.{◌≡◌, IfOk, OnOk, unwrap_or, []};
ghost use Rattle.std.specs.FinMap as map;
ghost use Rattle.atl_commands.specs.Sorting.{AreSorted, with_event};

use atl_campaign::Event;
use atl_world::{Numbered, Sequence};
use std::alloc::{AllocError, Global};

/// Adds an event to its faction's list. If memory runs out, the lists are no longer usable.
fn add_event(
    alloc: Global,
    sorted: &mut Numbered<Sequence<Event>>,
    event: Event,
) -> Result<(), AllocError>
    ensures { OnOk result (sorted.new ≡ with_event sorted.old event) }
{
    match sorted.get_mut(event.faction) {
        Some(listed) => listed.push(event),
        None => {
            let mut listed = Sequence::new(alloc);
            listed.push(event)?;
            sorted.insert(event.faction, listed)
        }
    }
}

/// The events of each faction under its number, in their order. AllocError without memory for them.
pub(crate) fn events_by_faction(
    alloc: Global,
    events: &[Event],
) -> Result<Numbered<Sequence<Event>>, AllocError>
    ensures { IfOk result (AreSorted events.now) }
{
    let mut sorted = Numbered::new(alloc);
    for event in events {
        add_event(alloc, &mut sorted, *event)?;
    }
    Ok(sorted)
}

pub(crate) fn list_of<T: Drop>(lists: &Numbered<Sequence<T>>, number: u32) -> &[T]
    ensures { result.now ≡ unwrap_or (map.get lists.now number) [] }
{
    match lists.get(number) {
        Some(listed) => listed.as_slice(),
        None => &[],
    }
}
