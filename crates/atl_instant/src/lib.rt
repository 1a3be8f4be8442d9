//! The phases from FORM to QUIT: those whose orders take no month and share no pot.
#![tactic(auto)]

mod form;
mod give;
mod guard;
mod name;
mod place;
mod quit;
mod region_guards;
mod transfer;

pub use atl_phase::{
    Arrangement, Month, MonthLongVerbs, OrderPhase, Phase, PhaseOrder, PhaseResult, PhaseVerbs,
    PlainPhase, add_events, book_taken, carry_out_orders, fault_outcome, is_of_faction, items_of,
    mailings_have_no_order, one_order_counts, orders_are_in_mailings, own_unit, region_of,
    set_people,
};
pub use form::FormPhase;
pub use give::GivePhase;
pub use guard::GuardPhase;
pub use name::NamePhase;
pub use place::PlacePhase;
pub use quit::QuitPhase;
pub use transfer::{TransferPhase, days_go_with_men};
