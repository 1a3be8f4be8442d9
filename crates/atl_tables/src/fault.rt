//! The faults of a world file. See docs/FORMATS.md, "Faults of a world file".
ghost use Rattle.std.specs.Prelude.{◌≡◌};
ghost use Rattle.std.specs.Option.{option_copied};
ghost use Rattle.atl_tables.specs.FaultTexts.{fault_number, fault_name, fault_path};
ghost use Rattle.atl_tables.specs.declared.fault.WorldFault.TheVariants.{Memory};

use atl_world::Text;
use std::alloc::{AllocError, AllocFailed};
use std::error::Error;
use std::fmt;

/// Why a world file describes no world: its first fault, or that memory ran out. Most faults have a
/// path, as `rules.growth`. See docs/FORMATS.md, "Faults of a world file".
#[derive(Drop, Debug)]
pub enum WorldFault {
    /// The text is no TOML.
    NotToml,
    /// A key, a table or an array that is needed isn't there.
    Missing(Text),
    /// The value under a key, or an element of an array, is of another type than is needed there.
    WrongType(Text),
    /// A number or a name breaks its rule, or an array has too few or too many elements.
    OutOfRange(Text),
    /// A name or a number that must be unique comes twice; the path is that of the second.
    TwoNames(Text),
    /// A name refers to nothing: no thing of the sort that is needed has it, or an item's `raw`
    /// names the item itself.
    UnknownName(Text),
    /// A region's neighbour isn't there, or doesn't have the region on its opposite side.
    BadNeighbour(Text),
    /// No region is land.
    NoLand,
    /// Memory ran out; the text may be good or not.
    Memory,
}

impl WorldFault {
    fn number_and_name(&self) -> (Option<u8>, &'static str)
        ensures number { result.0 ≡ fault_number self.now }
        ensures name { result.1.now ≡ fault_name self.now }
    {
        match self {
            WorldFault::NotToml => (Some(1), "NotToml"),
            WorldFault::Missing(_) => (Some(2), "Missing"),
            WorldFault::WrongType(_) => (Some(3), "WrongType"),
            WorldFault::OutOfRange(_) => (Some(4), "OutOfRange"),
            WorldFault::TwoNames(_) => (Some(5), "TwoNames"),
            WorldFault::UnknownName(_) => (Some(6), "UnknownName"),
            WorldFault::BadNeighbour(_) => (Some(7), "BadNeighbour"),
            WorldFault::NoLand => (Some(8), "NoLand"),
            WorldFault::Memory => (None, "Memory"),
        }
    }

    /// The number of the fault, from 1 to 8; `Memory` has none. A lower number doesn't always count
    /// first: `Missing`, `WrongType` and `OutOfRange` (2 to 4) count key by key, and the first key
    /// with one of them decides. See docs/FORMATS.md, "Faults of a world file".
    pub fn number(&self) -> Option<u8>
        ensures { result ≡ fault_number self.now }
    {
        self.number_and_name().0
    }

    /// The name of the fault, as `WrongType`.
    pub fn name(&self) -> &'static str
        ensures { result.now ≡ fault_name self.now }
    {
        self.number_and_name().1
    }

    /// The path of the key, table, array or element that the fault is about, as `rules.growth`;
    /// `None` for `NotToml`, `NoLand` and `Memory`.
    pub fn path(&self) -> Option<&Text>
        ensures { option_copied result ≡ fault_path self.now }
    {
        match self {
            WorldFault::Missing(path)
            | WorldFault::WrongType(path)
            | WorldFault::OutOfRange(path)
            | WorldFault::TwoNames(path)
            | WorldFault::UnknownName(path)
            | WorldFault::BadNeighbour(path) => Some(path),
            WorldFault::NotToml | WorldFault::NoLand | WorldFault::Memory => None,
        }
    }
}

/// Writes number (`Memory` has none), name, and path, if there is one: `3 WrongType rules.growth`.
impl fmt::Display for WorldFault {
    fn fmt<W: fmt::Write>(&self, f: &mut fmt::Formatter<W>) -> fmt::Result {
        let name = self.name();
        match (self.number(), self.path()) {
            (Some(number), Some(path)) => write!(f, "{number} {name} {}", path.as_str()),
            (Some(number), None) => write!(f, "{number} {name}"),
            (None, _) => write!(f, "{name}"),
        }
    }
}

impl Error for WorldFault {}

impl From<AllocError> for WorldFault {
    ghost from_gives = { λ _ e. e ≡ Memory };

    fn from(_error: AllocError) -> WorldFault {
        WorldFault::Memory
    }
}

impl<T: Drop> From<AllocFailed<T>> for WorldFault {
    ghost from_gives = { λ _ e. e ≡ Memory };

    fn from(_error: AllocFailed<T>) -> WorldFault {
        WorldFault::Memory
    }
}
