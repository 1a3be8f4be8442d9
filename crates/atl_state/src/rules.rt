//! Whether a campaign keeps rules 4 to 10 and 12 of the tables, each rule by a function of its own.
//! None of them changes anything. That the books balance, of rule 11, is `are_balanced` of
//! atl_balances. See docs/FORMATS.md, "Rules of the tables".
mod days;
mod gone;
mod guards;
mod known;
mod mail;
mod next;
mod owners;
mod reports;
mod water;

pub(crate) use days::are_days;
pub(crate) use gone::are_gone_iff_unitless;
pub(crate) use guards::are_guarded;
pub(crate) use known::are_known;
pub(crate) use mail::are_mailings;
pub(crate) use next::are_numbered;
pub(crate) use owners::are_owned;
pub(crate) use reports::are_reported;
pub(crate) use water::are_afloat;
