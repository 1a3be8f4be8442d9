//! The pots of regions and of items: how much each unit gets of the pot that it asks for.
#![tactic(auto)]

pub mod item_pots;
pub mod pots;

pub use item_pots::{ItemPots, item_shares};
pub use pots::{AskedPots, Pots, pot_shares};
