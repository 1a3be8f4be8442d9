//! What a phase of the month is, the month that goes from phase to phase, and its orders.
#![tactic(auto)]

mod booking;
mod holdings;
mod inside;
mod items;
mod last_lines;
mod month;
mod order_indices;
mod order_phase;
mod orders;
mod outcome;
mod phase;
mod phase_order;

pub use booking::book_taken;
pub use holdings::set_people;
pub use inside::{region_of, structure_of};
pub use items::items_of;
pub use month::{Month, add_events, mailings_have_no_order};
pub use order_phase::{OrderPhase, PlainPhase, carry_out_orders, is_of_faction, own_unit};
pub use orders::{MonthLongVerbs, PhaseVerbs, one_order_counts, orders_are_in_mailings};
pub use outcome::fault_outcome;
pub use phase::{Phase, PhaseResult};
pub use phase_order::{Arrangement, PhaseOrder};
