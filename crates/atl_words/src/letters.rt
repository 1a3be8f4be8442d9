//! The bytes that mailings treat specially. See docs/RULES.md, "Reading a mailing".

/// The tab, which separates words as the space does.
pub const TAB: u8 = b'\t';

/// The line feed, at which a line ends.
pub(crate) const LINE_FEED: u8 = b'\n';

/// The carriage return, of which one is dropped at a line's end.
pub(crate) const CARRIAGE_RETURN: u8 = b'\r';

/// The semicolon, with which a comment begins.
pub(crate) const SEMICOLON: u8 = b';';
