//! The outcome of an order that has a fault. See docs/RULES.md, "Events".
ghost use Rattle.std.specs.Prelude.{◌≡◌};
ghost use Rattle.atl_records.specs.Events.{event_fault_number};
ghost use Rattle.atl_records.specs.declared.event.Outcome.TheVariants.{Fault};

use atl_campaign::{EventFault, Outcome};

/// The outcome of an order with a given fault: the fault by its number.
pub fn fault_outcome(fault: EventFault) -> Outcome
    ensures { result ≡ Fault (event_fault_number fault) }
{
    Outcome::Fault(fault.number())
}
