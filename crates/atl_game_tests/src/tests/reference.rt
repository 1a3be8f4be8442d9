//! A second calculation of upkeep and of the phases that share pots, slow and simple, for
//! `agreeing` to compare with.
//! It uses prefix sums over plain lists, and looks at all units for each pot and each unit.
pub(crate) mod plain;
mod pots;
mod produce;
mod recruit;
pub(crate) mod shares;
pub(crate) mod sharing;
mod tax;
pub(crate) mod trade;
pub(crate) mod upkeep;
mod work;
