//! The lines of a text, the words of a line, and what the header of a mailing is. See docs/RULES.md,
//! "Reading a mailing".
#![tactic(auto)]

pub mod letters;
pub mod limits;
mod lines;
mod mail_fault;
mod words;

pub use limits::{LAST_ALIAS, LAST_FACTION, MOST_BYTES, MOST_NUMBER};
pub use lines::next_line;
pub use mail_fault::MailFault;
pub use words::{Cursor, Word, begins, is_blank, next_word, number};
