//! The order table: the verbs, with their keywords, shapes of words, and slots.
//! See docs/RULES.md, "Orders".
ghost use Rattle.std.specs.Prelude.{◌≡◌};
ghost use Rattle.atl_world.specs.Verbs.{row, row_value};

/// The verb of an order, one for each row of the order table.
#[derive(Drop, Clone, Copy, Debug, PartialEq, Eq)]
pub enum Verb {
    Form,
    Name,
    Guard,
    Enter,
    Leave,
    Promote,
    Give,
    Pay,
    Transfer,
    Sell,
    Buy,
    Tax,
    Recruit,
    Quit,
    Move,
    Sail,
    Build,
    Teach,
    Study,
    Produce,
    Work,
}

/// The shape of the words after a verb: what they name. It is a column of the order table.
#[derive(Drop, Clone, Copy, PartialEq, Eq)]
pub enum Shape {
    /// No word.
    Nothing,
    Alias,
    /// 0 or 1.
    Flag,
    Number,
    Unit,
    /// One unit or more, up to the line's end.
    Units,
    UnitAndNumber,
    UnitAndGoods,
    Goods,
    /// What gets a new name, and the name.
    Name,
    Direction,
    /// A kind of structure, or no word.
    Kind,
    Skill,
    Item,
}

/// A slot: verbs of which a mailing's last order for a unit counts, and no earlier one.
#[derive(Drop, Clone, Copy, PartialEq, Eq)]
pub enum Slot {
    /// The verbs that take the whole month.
    MonthLong,
    Selling,
    Buying,
    Taxing,
    Recruiting,
}

/// A row of the order table: what is fixed for one verb. See docs/RULES.md, "Orders" and "Orders of
/// a month".
#[derive(Drop, Clone, Copy)]
pub struct Row {
    /// The keyword of the verb in capitals, as reports print it.
    pub keyword: &'static str,
    pub shape: Shape,
    pub slot: Option<Slot>,
}

fn table_row(keyword: &'static str, shape: Shape, slot: Option<Slot>) -> Row
    ensures { row_value result ≡ row keyword.now shape slot }
{
    Row {
        keyword,
        shape,
        slot,
    }
}

impl Verb {
    ghost use Rattle.atl_world.specs.Verbs.{keyword, row_of, row_value};

    pub fn row(self) -> Row
        ensures { row_value result ≡ row_of self }
    {
        match self {
            Verb::Form => table_row("FORM", Shape::Alias, None),
            Verb::Name => table_row("NAME", Shape::Name, None),
            Verb::Guard => table_row("GUARD", Shape::Flag, None),
            Verb::Enter => table_row("ENTER", Shape::Number, None),
            Verb::Leave => table_row("LEAVE", Shape::Nothing, None),
            Verb::Promote => table_row("PROMOTE", Shape::Unit, None),
            Verb::Give => table_row("GIVE", Shape::UnitAndGoods, None),
            Verb::Pay => table_row("PAY", Shape::UnitAndNumber, None),
            Verb::Transfer => table_row("TRANSFER", Shape::UnitAndNumber, None),
            Verb::Sell => table_row("SELL", Shape::Goods, Some(Slot::Selling)),
            Verb::Buy => table_row("BUY", Shape::Goods, Some(Slot::Buying)),
            Verb::Tax => table_row("TAX", Shape::Nothing, Some(Slot::Taxing)),
            Verb::Recruit => table_row("RECRUIT", Shape::Number, Some(Slot::Recruiting)),
            Verb::Quit => table_row("QUIT", Shape::Number, None),
            Verb::Move => table_row("MOVE", Shape::Direction, Some(Slot::MonthLong)),
            Verb::Sail => table_row("SAIL", Shape::Direction, Some(Slot::MonthLong)),
            Verb::Build => table_row("BUILD", Shape::Kind, Some(Slot::MonthLong)),
            Verb::Teach => table_row("TEACH", Shape::Units, Some(Slot::MonthLong)),
            Verb::Study => table_row("STUDY", Shape::Skill, Some(Slot::MonthLong)),
            Verb::Produce => table_row("PRODUCE", Shape::Item, Some(Slot::MonthLong)),
            Verb::Work => table_row("WORK", Shape::Nothing, Some(Slot::MonthLong)),
        }
    }

    /// The verb's keyword in capitals, as reports print it.
    pub fn keyword(self) -> &'static str
        ensures { result.now ≡ keyword self }
    {
        self.row().keyword
    }
}
