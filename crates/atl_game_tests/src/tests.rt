//! Tests of the crates below the database, by their public calls alone.
mod agreeing;
mod campaigns;
mod compare;
mod crowd;
mod laws;
mod marks;
mod months;
mod orders;
mod phases;
mod pots;
mod readers;
mod reference;
mod reports;
mod row_text;
mod settling;
mod shares;
