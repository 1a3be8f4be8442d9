//! Whether the books of a campaign balance.
#![tactic(auto)]

mod balances;

pub use balances::are_balanced;
