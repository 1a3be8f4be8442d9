//! The fault of reading the rows of a table, and which error of the database becomes which fault.
ghost use Rattle.std.specs.Prelude.{◌≡◌, if◌then◌else◌};
ghost use Rattle.atl_sql.specs.Errors.{is_memory, read_fault};

use sqlite::{Error, ErrorCode};
use std::alloc::{AllocError, AllocFailed};
use std::fmt;

/// Why the rows of a table could not be read; nothing is changed.
#[derive(Drop, Clone, Copy, Debug, PartialEq, Eq)]
pub enum ReadFault {
    /// The disk fails, is full or is damaged, the connection is shut, something is too big, or the
    /// SELECT takes too many steps.
    Store,
    /// The database refuses for another cause: there is no such table, or it lacks a column.
    Refused,
    /// Memory ran out.
    Memory,
    /// A value is of another type than its column, or is a text that is not UTF-8 where it has
    /// to be.
    OtherType,
}

/// Shows a fault of reading by its name, such as `Refused`.
impl fmt::Display for ReadFault {
    fn fmt<W: fmt::Write>(&self, f: &mut fmt::Formatter<W>) -> fmt::Result {
        write!(f, "{self:?}")
    }
}

impl std::error::Error for ReadFault {}

/// Chooses a fault for an error of the database: `memory` for lack of memory, else `other`.
pub fn by_cause<F: Drop>(error: Error, memory: F, other: F) -> F
    ensures { result ≡ (if is_memory error then memory else other) }
{
    match error {
        Error::SqliteFailure(ErrorCode::OutOfMemory) => memory,
        _ => other,
    }
}

/// An error of a SELECT becomes Memory for lack of memory; Store if the disk, the connection, a
/// size limit or the step limit stopped the SELECT; and else Refused.
impl From<Error> for ReadFault {
    ghost from_gives = { λ error fault. fault ≡ read_fault error };

    fn from(error: Error) -> ReadFault {
        match error {
            Error::SqliteFailure(ErrorCode::OutOfMemory) => ReadFault::Memory,
            Error::SqliteFailure(
                ErrorCode::SystemIoFailure
                | ErrorCode::DatabaseCorrupt
                | ErrorCode::DiskFull
                | ErrorCode::Closed
                | ErrorCode::TooBig
                | ErrorCode::OperationInterrupted,
            ) => ReadFault::Store,
            _ => ReadFault::Refused,
        }
    }
}

impl<T: Drop> From<AllocFailed<T>> for ReadFault {
    ghost use Rattle.atl_sql.specs.declared.fault.ReadFault.TheVariants.{Memory};

    ghost from_gives = { λ _ fault. fault ≡ Memory };

    fn from(_e: AllocFailed<T>) -> ReadFault {
        ReadFault::Memory
    }
}

impl From<AllocError> for ReadFault {
    ghost use Rattle.atl_sql.specs.declared.fault.ReadFault.TheVariants.{Memory};

    ghost from_gives = { λ _ fault. fault ≡ Memory };

    fn from(_e: AllocError) -> ReadFault {
        ReadFault::Memory
    }
}
