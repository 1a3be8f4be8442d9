//! What a connection keeps of a campaign between two calls, and the writes: a join, a mailing, and
//! what changed. Each write is one transaction, and a crash leaves the campaign before it or the one
//! after it. See docs/FORMATS.md, "Tables".
#![tactic(auto)]

mod changing;
pub mod fault;
mod joining;
mod mailing;

pub use changing::write_changes;
pub use fault::{CreateFault, WriteFault};
pub use joining::write_join;
pub use mailing::write_mail;
