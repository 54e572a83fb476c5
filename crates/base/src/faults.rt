// The refusals that several crates share.

use std::alloc::{AllocError, AllocFailed};

/// Memory ran out.
#[derive(Clone, Copy, PartialEq, Eq, Debug)]
pub struct NoMemory;

impl From<AllocError> for NoMemory {
    fn from(_: AllocError) -> Self {
        NoMemory
    }
}

impl<T: Drop> From<AllocFailed<T>> for NoMemory {
    fn from(_: AllocFailed<T>) -> Self {
        NoMemory
    }
}

/// Why a saved state is not taken up again.
#[derive(Clone, Copy, PartialEq, Eq, Debug)]
pub enum ResumeFault {
    /// The first unit of the state that is at fault, by its place in bytes from the file's
    /// beginning.
    BadState(u64),
    /// Memory ran out.
    NoMemory,
}
