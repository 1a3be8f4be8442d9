//! Carries out the commands to a campaign (join, mail, close, report) over the database that holds
//! it, one at a time and in lists, and stores what they change.
#![tactic(auto)]

mod answering;
mod closing;
pub mod command;
pub mod posting;
mod reporting;
pub mod service;
mod sorting;

pub use command::{Answer, Command, Fault, Refusal};
pub use posting::only_the_last_mail_counts;
pub use service::Service;
