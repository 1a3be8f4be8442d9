//! Closing a month: runs all its phases in order.
#![tactic(auto)]

mod close;
mod orders;

pub use atl_shares::{UpkeepInput, UpkeepResult, each_unit_can_spare, upkeep_payments};
pub use atl_upkeep::{SeasonPhase, SweepPhase, UpkeepPhase};
pub use close::{
    close_month, each_order_has_one_event, months_have_no_order, one_phase_has_room,
    phases_move_little,
};
pub use orders::OrderPhases;
