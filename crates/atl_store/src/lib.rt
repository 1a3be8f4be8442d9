//! The tables of a campaign: created, written and read over `sqlite`, in memory or in a file. Each
//! write is one transaction, and a crash leaves the campaign before it or the one after it. See
//! docs/FORMATS.md, "Tables".
#![tactic(auto)]

pub mod fault;
mod founding;
mod loading;
mod one_campaign;
mod reopening;
mod upgrading;

pub use atl_keeping::{write_changes, write_join, write_mail};
pub use atl_sql::{rows, schema, tables};
pub use fault::{CreateFault, ReadFault, StoreFault, UpgradeFault, WriteFault};
pub use founding::create;
pub use loading::load;
pub use one_campaign::one_database_holds_one_campaign;
pub use reopening::reopen_connection;
pub use upgrading::upgrade;
