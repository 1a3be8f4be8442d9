//! Two laws: mailings are read by the rules, and every mailing that is read is in bounds.
//! See docs/RULES.md, "Reading a mailing".
ghost use Rattle.atl_orders.specs.Rules.{LineRules, BodyRules, TextRules};
ghost use Rattle.atl_orders.specs.Bounds.{ReadingsKeepBounds};

/// A law: a line, all lines after a header, and a whole text are read as the rules allow, and the
/// rules allow nothing else. The call does nothing. See docs/RULES.md, "Reading a mailing".
pub fn rules_are_the_reading()
    ensures lines { LineRules }
    ensures mailings { BodyRules }
    ensures texts { TextRules }
{}

/// A law: every mailing that is read has a faction in range, and its orders have strictly ascending
/// line numbers above 0. Each order has operands of the shape that the order table gives its verb,
/// with numbers in their ranges, names by the rule of names, and items, skills and kinds of the
/// world. The unit that it is for is in range, too. Does nothing. See docs/RULES.md, "Orders".
pub fn readings_keep_bounds()
    ensures { ReadingsKeepBounds }
{}
