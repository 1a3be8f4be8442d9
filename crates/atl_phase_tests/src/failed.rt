//! The error type of this program: why a file of cases, or a line of it, can't be played.
use std::alloc::{AllocError, AllocFailed};

/// Why a file of cases, or a line of it, cannot be played.
#[derive(Clone, Copy)]
pub(crate) struct Failed(pub &'static str);

impl From<AllocError> for Failed {
    fn from(_error: AllocError) -> Failed {
        Failed("no memory")
    }
}

impl<T: Drop> From<AllocFailed<T>> for Failed {
    fn from(_error: AllocFailed<T>) -> Failed {
        Failed("no memory")
    }
}
