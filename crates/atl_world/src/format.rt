//! The two formats of world files and of campaigns. See docs/FORMATS.md, "Tables".
ghost use Rattle.std.specs.Prelude.{◌≡◌};
ghost use Rattle.atl_world.specs.Formats.{format_number};

/// A format of a world file and of a campaign's tables. The formats differ in markets alone.
#[derive(Drop, Clone, Copy)]
pub enum Format {
    /// No region has a market.
    First,
    /// Regions may have markets.
    Second,
}

impl Format {
    /// The number of the format in the campaign row: 1 for `First`, 2 for `Second`.
    pub fn number(self) -> u8
        ensures { result ≡ format_number self }
    {
        match self {
            Format::First => 1,
            Format::Second => 2,
        }
    }
}
