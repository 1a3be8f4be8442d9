//! Reads mailings: the text that a player sends becomes orders and faulty lines.
#![tactic(auto)]

mod mailing;
mod rules;

pub use atl_lines::{
    FaultyLine, LAST_ALIAS, LAST_FACTION, LineFault, MOST_BYTES, MOST_NUMBER, MailFault, NameKind,
    Operands, Order, Span, UnitRef,
};
pub use atl_world::{Direction, Row, Shape, Slot, Verb};
pub use mailing::{Entry, Mailing, is_mailing_of, read_mailing};
pub use rules::{readings_keep_bounds, rules_are_the_reading};
