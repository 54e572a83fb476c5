// Why bytes are no trace.
ghost use Rattle.std.specs.Prelude.{◌≡◌};
ghost use Rattle.trace_format.specs.declared.fault.TraceFault.TheVariants.{NoMemory};

use base::NoMemory as WantOfMemory;
use std::alloc::{AllocError, AllocFailed};
use thiserror::Error;

/// Why bytes are no trace, or are not read. Places are counted from the first byte, from 0 on.
#[derive(Clone, Copy, PartialEq, Eq, Debug, Error)]
pub enum TraceFault {
    /// The first 8 bytes are those of no version.
    #[error("BadMagic")]
    BadMagic,
    /// There are not 1 to 256 harts, or the header's last two bytes are not zero.
    #[error("BadHarts")]
    BadHarts,
    /// The byte at this place begins no record of the version.
    #[error("BadTag")]
    BadTag(u64),
    /// The field at this place breaks a rule.
    #[error("BadField")]
    BadField(u64),
    /// The input ended, at this length, before the end record was whole.
    #[error("Truncated")]
    Truncated(u64),
    /// The end record states another number of accesses than were counted.
    #[error("CountMismatch")]
    CountMismatch {
        /// What the end record states.
        stated: u64,
        /// How many there are.
        counted: u64,
    },
    /// A byte follows the end record, at this place.
    #[error("AfterEnd")]
    AfterEnd(u64),
    /// An access has position 2^40, or a byte has place 2^44.
    #[error("TooLong")]
    TooLong,
    /// Memory ran out.
    #[error("NoMemory")]
    NoMemory,
}

impl From<AllocError> for TraceFault {
    ghost from_gives = { λ _ e. e ≡ NoMemory };

    fn from(_: AllocError) -> Self {
        TraceFault::NoMemory
    }
}

impl<T: Drop> From<AllocFailed<T>> for TraceFault {
    ghost from_gives = { λ _ e. e ≡ NoMemory };

    fn from(_: AllocFailed<T>) -> Self {
        TraceFault::NoMemory
    }
}

impl From<WantOfMemory> for TraceFault {
    ghost from_gives = { λ _ e. e ≡ NoMemory };

    fn from(_: WantOfMemory) -> Self {
        TraceFault::NoMemory
    }
}
