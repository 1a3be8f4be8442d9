//! Founds, opens and upgrades campaigns in a database, for a service that carries out their
//! commands (atl_commands, of which all is exported here again).
#![tactic(auto)]

pub mod cause;
pub mod files;
mod founding;
pub mod service;

pub use atl_commands::{
    Answer, Command, Fault, Refusal, Service, command, only_the_last_mail_counts, posting,
};
pub use cause::{Cause, Refused};
pub use files::a_shielded_disk_is_clean;
pub use service::{found, open, upgrade};
