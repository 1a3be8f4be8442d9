//! Writes the rows of a campaign into its tables: all of them, those that changed, a mailing, or
//! what an upgrade changes, each in one transaction; and the rows and amounts of a join. See
//! docs/FORMATS.md, "Tables".
#![tactic(auto)]

mod amounts;
mod campaign_row;
mod changing;
mod founding;
mod goods;
mod grouped;
mod ledger;
mod mailing;
mod markets;
mod numbered_rows;
mod rewriting;
mod singles;
mod things;
mod upgrading;
mod write_parts;

pub use campaign_row::{has_id_and_format, put_campaign_row};
pub use changing::write_marked;
pub use founding::write_founding;
pub use ledger::write_amount;
pub use mailing::write_mailing;
pub use numbered_rows::NumberedRow;
pub use upgrading::write_upgrade;
