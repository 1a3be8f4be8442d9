//! A macro for drops written by hand: it takes a value apart and drops each of its fields.

/// Takes a value apart and drops its fields, all of which are named: `let_go!(self: Faction {
/// number, name })`.
#[macro_export]
macro_rules! let_go {
    ($value:ident: $of:ident { $($field:ident),* $(,)? }) => {
        let $of { $($field: _),* } = $value;
    };
}
