//! The phases that share the pots of regions and of items: SELL, BUY, TAX, RECRUIT, PRODUCE and
//! WORK; and the phase BUILD.
#![tactic(auto)]

mod build;
mod goods;
mod making;
mod outputs;
mod pot_phase;
pub mod produce;
pub mod recruit;
pub mod tax;
pub mod trade;
pub mod work;

pub use atl_pots::{Pots, pot_shares, pots};
pub use atl_shares::{share, shares};
pub use build::BuildPhase;
pub use produce::ProducePhase;
pub use recruit::RecruitPhase;
pub use tax::TaxPhase;
pub use trade::{BuyPhase, SellPhase, units_trade_all_at_once};
pub use work::{WorkPhase, work_pays_all_at_once};
