//! An order: its verb, and the operands that its words name. See docs/RULES.md, "Orders".
use atl_world::{Direction, Sequence, Verb};

/// A unit as an order refers to it: by its number, or by an alias.
/// See docs/RULES.md, "Reading a mailing".
#[derive(Drop, Clone, Copy, Debug, PartialEq, Eq)]
pub enum UnitRef {
    /// The unit's number, from 1 to `MOST_NUMBER`.
    Number(u32),
    /// The alias under which the mailing forms the unit, from 1 to `LAST_ALIAS`; its FORM may come
    /// later, or not at all.
    Alias(u32),
}

/// What a NAME order gives a new name to.
#[derive(Drop, Clone, Copy, Debug, PartialEq, Eq)]
pub enum NameKind {
    Unit,
    Faction,
    /// The building that the unit is inside.
    Building,
    /// The ship that the unit is inside.
    Ship,
}

/// A name in a mailing, as a span of the mailing's text.
#[derive(Drop, Clone, Copy, Debug)]
pub struct Span {
    /// The index of the name's first byte in the text.
    pub start: usize,
    /// The index after the name's last byte.
    pub end: usize,
    /// Whether the name is in quotes, which the span leaves out. If it isn't, `_` means a space.
    pub quoted: bool,
}

/// What the words after a verb name; a name is an `N`, by default a span of the text. Numbers are
/// from 1 to `MOST_NUMBER`; items, skills and kinds are by their numbers in the world.
/// See docs/RULES.md, "Orders".
#[derive(Debug)]
pub enum Operands<N = Span> {
    /// No word.
    Nothing,
    /// The alias of a new unit, from 1 to `LAST_ALIAS`.
    Alias(u32),
    /// Whether GUARD sets the unit's guard flag, else clears it.
    Flag(bool),
    /// A number: of a structure, a faction or men.
    Number(u32),
    Unit(UnitRef),
    /// Units, in order; one or more.
    Units(Sequence<UnitRef>),
    /// A unit, and a number: of money or men.
    UnitAndNumber { to: UnitRef, number: u32 },
    UnitAndGoods { to: UnitRef, amount: u32, item: u16 },
    Goods { amount: u32, item: u16 },
    /// What gets a new name, and that name, which keeps the rule of names.
    Name { what: NameKind, name: N },
    Direction(Direction),
    /// A kind of structure, if one is named.
    Kind(Option<u16>),
    Skill(u16),
    Item(u16),
}

impl<N: Drop> Drop for Operands<N> {
    fn drop(self) {
        match self {
            Operands::Nothing => {}
            Operands::Alias(_) => {}
            Operands::Flag(_) => {}
            Operands::Number(_) => {}
            Operands::Unit(_) => {}
            Operands::Units(_) => {}
            Operands::UnitAndNumber { to: _, number: _ } => {}
            Operands::UnitAndGoods {
                to: _,
                amount: _,
                item: _,
            } => {}
            Operands::Goods { amount: _, item: _ } => {}
            Operands::Name { what: _, name: _ } => {}
            Operands::Direction(_) => {}
            Operands::Kind(_) => {}
            Operands::Skill(_) => {}
            Operands::Item(_) => {}
        }
    }
}

/// An order: its verb, and what the words after it name. These have the shape that the order table
/// gives the verb. See docs/RULES.md, "Orders".
#[derive(Drop)]
pub struct Order<N: Drop = Span> {
    pub verb: Verb,
    pub operands: Operands<N>,
}
