//! Macros that list the variants of an enum, and give a variant's name or text.

/// The array of some variants of an enum: `variants!(Verb: Name Guard)` is `[Verb::Name,
/// Verb::Guard]`.
#[macro_export]
macro_rules! variants {
    ($enum:ident: $($variant:ident)*) => {
        [$($enum::$variant),*]
    };
}

/// The name of a value's variant, of an enum with these variants: `name_of!(fault, LineFault:
/// NoUnit EndAlone)` is `"EndAlone"` for `LineFault::EndAlone`.
#[macro_export]
macro_rules! name_of {
    ($value:expr, $enum:ident: $($variant:ident)*) => {
        match $value {
            $($enum::$variant => stringify!($variant),)*
        }
    };
}

/// The text of a value's variant, of an enum whose variants have these texts: `text_of!(verb, Verb:
/// Form "FORM" Name "NAME")` is `"NAME"` for `Verb::Name`.
#[macro_export]
macro_rules! text_of {
    ($value:expr, $enum:ident: $($variant:ident $text:literal)*) => {
        match $value {
            $($enum::$variant => $text,)*
        }
    };
}
