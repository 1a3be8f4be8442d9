//! The bytes that names and words of orders treat specially.
//! See docs/RULES.md, "Names and pass texts" and "Names in orders".

/// The space, the first printable byte of ASCII. A name neither begins nor ends with it.
pub const SPACE: u8 = b' ';

/// The tilde, the last printable byte of ASCII.
pub const TILDE: u8 = b'~';

/// The quotation mark, between two of which a word may be. No name has one.
pub const QUOTE: u8 = b'"';

/// The underscore, which means a space in a word without quotes.
pub const UNDERSCORE: u8 = b'_';
