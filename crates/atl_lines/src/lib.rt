//! Reads a line of a mailing: its words as an order, or its fault.
#![tactic(auto)]

mod aliases;
mod fault;
mod operands;
mod order;
mod orders;
mod reading;
mod verb;

pub use aliases::Aliases;
pub use atl_words::{
    Cursor, LAST_ALIAS, LAST_FACTION, MOST_BYTES, MOST_NUMBER, MailFault, begins, next_line,
    next_word, number,
};
pub use fault::{FaultyLine, LineFault};
pub use order::{NameKind, Operands, Order, Span, UnitRef};
pub use reading::{LineResult, ReaderState, read_line};
