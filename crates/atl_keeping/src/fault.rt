//! The faults of the writes, and which of them an error becomes. See docs/FORMATS.md, "Tables".
ghost use Rattle.std.specs.Prelude.{◌≡◌};
ghost use Rattle.atl_keeping.specs.Faults.{write_fault, create_fault};

use atl_sql::fault::by_cause;
use sqlite::Error;
use std::alloc::AllocError;
use std::fmt;

/// Why a write of a join, a mailing or changes failed. While the connection is open the tables are
/// as they were; a crash leaves them so, or written.
#[derive(Drop, Clone, Copy, Debug, PartialEq, Eq)]
pub enum WriteFault {
    /// The database refuses for another cause than memory.
    Store,
    /// Memory ran out.
    Memory,
}

/// Why no campaign was created. While the connection is open the tables are as they were. A crash
/// leaves them so or, except after NotEmpty, with the campaign.
#[derive(Drop, Clone, Copy, Debug, PartialEq, Eq)]
pub enum CreateFault {
    /// A table `campaign` is there already. Nothing at all is changed.
    NotEmpty,
    /// The database refuses for another cause than memory, has other tables, an index or a view, or
    /// is in a transaction.
    Store,
    /// Memory ran out.
    Memory,
}

impl fmt::Display for WriteFault {
    fn fmt<W: fmt::Write>(&self, f: &mut fmt::Formatter<W>) -> fmt::Result {
        write!(f, "{self:?}")
    }
}

impl std::error::Error for WriteFault {}

impl fmt::Display for CreateFault {
    fn fmt<W: fmt::Write>(&self, f: &mut fmt::Formatter<W>) -> fmt::Result {
        write!(f, "{self:?}")
    }
}

impl std::error::Error for CreateFault {}

/// An error of the database becomes Memory for lack of memory, else Store.
impl From<Error> for WriteFault {
    ghost from_gives = { λ error fault. fault ≡ write_fault error };

    fn from(error: Error) -> WriteFault {
        by_cause(error, WriteFault::Memory, WriteFault::Store)
    }
}

impl From<Error> for CreateFault {
    ghost from_gives = { λ error fault. fault ≡ create_fault error };

    fn from(error: Error) -> CreateFault {
        by_cause(error, CreateFault::Memory, CreateFault::Store)
    }
}

impl From<AllocError> for WriteFault {
    ghost use Rattle.atl_keeping.specs.declared.fault.WriteFault.TheVariants.{Memory};

    ghost from_gives = { λ _ fault. fault ≡ Memory };

    fn from(_e: AllocError) -> WriteFault {
        WriteFault::Memory
    }
}
