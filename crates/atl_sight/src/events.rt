//! Writes the lines of a report from `Orders:` on, at the end of `out`: faulty lines of the
//! mailing, and events. After an AllocError some may be there. See docs/FORMATS.md, "Reports".
ghost use Rattle.std.specs.Prelude.{◌≡◌, ◌==◌, ◌++◌, ◌&&◌, not, length, OnOk, string_bytes};
ghost use Rattle.std.specs.List.{list_any};
ghost use Rattle.atl_sight.specs.Events.{faulty_line, faulty_lines, name_of_number, event_line, event_lines, own_events, results_text, orders_part};

use atl_campaign::{Event, EventFault, Outcome};
use atl_lines::FaultyLine;
use std::alloc::AllocError;
use std::fmt::Write;

#[tactic(auto, unfolding(crate::specs::Events::faulty_line))]
fn write_faulty_line(out: &mut String, faulty: &FaultyLine) -> Result<(), AllocError>
    ensures { OnOk result (string_bytes out.new ≡ string_bytes out.old ++ faulty_line faulty.now) }
{
    let line = faulty.line;
    let number = faulty.fault.number();
    let name = faulty.fault.name();
    write!(out, "Line {line}: {number} {name}.\n")
}

fn write_faulty_lines(out: &mut String, faults: &[FaultyLine]) -> Result<(), AllocError>
    ensures { OnOk result (string_bytes out.new ≡ string_bytes out.old ++ faulty_lines faults.now) }
{
    for faulty in faults {
        write_faulty_line(out, faulty)?;
    }
    Ok(())
}

/// The name of the event fault with this number; empty for a number that is no fault's.
fn name_of_number(number: u8) -> &'static str
    ensures { result.now ≡ name_of_number number }
{
    match EventFault::of_number(number) {
        Some(fault) => fault.name(),
        None => "",
    }
}

#[tactic(auto, unfolding(crate::specs::Events::event_line))]
fn write_event(out: &mut String, event: &Event) -> Result<(), AllocError>
    ensures { OnOk result (string_bytes out.new ≡ string_bytes out.old ++ event_line event.now) }
{
    let unit = event.unit;
    let line = event.line;
    let verb = event.verb.keyword();
    match event.outcome {
        Outcome::Done(amount) => write!(out, "Unit {unit}, line {line}, {verb}: done {amount}.\n"),
        Outcome::Fault(number) => {
            let name = name_of_number(number);
            write!(
                out,
                "Unit {unit}, line {line}, {verb}: fault {number} {name}.\n"
            )
        }
        Outcome::Starved(men) => write!(out, "Unit {unit}: {men} starved.\n"),
    }
}

fn write_events(out: &mut String, faction: u32, events: &[Event]) -> Result<(), AllocError>
    ensures { OnOk result (string_bytes out.new
        ≡ string_bytes out.old ++ event_lines (own_events faction events.now)) }
{
    for event in events {
        if event.faction == faction {
            write_event(out, event)?;
        }
    }
    Ok(())
}

fn has_own_event(faction: u32, events: &[Event]) -> bool
    ensures { result ≡ list_any (λ e. e.faction == faction) events.now }
{
    events.iter().any(|event| event.faction == faction)
}

fn has_no_results(faction: u32, faults: &[FaultyLine], events: &[Event]) -> bool
    ensures { result ≡ (length faults.now == 0 && not
        (list_any (λ e. e.faction == faction) events.now)) }
{
    faults.is_empty() && !has_own_event(faction, events)
}

#[tactic(auto, using(crate::proofs::ResultLaws::results_none))]
fn write_results(
    out: &mut String,
    faction: u32,
    faults: &[FaultyLine],
    events: &[Event],
) -> Result<(), AllocError>
    ensures { OnOk result (string_bytes out.new
        ≡ string_bytes out.old ++ results_text faults.now (own_events faction events.now)) }
{
    if has_no_results(faction, faults, events) {
        return out.push_str("None.\n");
    }
    write_faulty_lines(out, faults)?;
    write_events(out, faction, events)?;
    Ok(())
}

/// Writes `Orders:` at the end of `out`, then the mailing's faulty lines and the faction's own
/// events, or `None.` without either. After an AllocError `out` may have some of it.
#[tactic(auto, unfolding(crate::specs::Events::orders_part))]
pub fn write_orders(
    out: &mut String,
    faction: u32,
    faults: &[FaultyLine],
    events: &[Event],
) -> Result<(), AllocError>
    ensures { OnOk result (string_bytes out.new
        ≡ string_bytes out.old ++ orders_part faction faults.now events.now) }
{
    out.push_str("Orders:\n")?;
    write_results(out, faction, faults, events)?;
    Ok(())
}
