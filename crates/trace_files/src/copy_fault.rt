// Why a copy gave up.
ghost use Rattle.std.specs.Prelude.{◌≡◌};
ghost use Rattle.trace_files.specs.Copying.{first_fault, second_fault, write_fault};

use shelf::ShelfError;
use trace_passes::{PassFault, Refusal};

/// Why a copy of a trace gave up.
#[derive(Clone, Copy, PartialEq, Eq, Debug)]
pub enum CopyFault {
    /// The trace is refused. Nothing was written.
    Refused(Refusal),
    /// The second reading is refused so, beside a first one that was accepted: the bytes have
    /// changed. It never comes where the shelf's files are still known.
    Changed(Refusal),
    /// A read failed: the shelf's faults of reading the trace rose.
    ReadFault,
    /// A write failed: the shelf's faults of writing one of the outputs rose.
    WriteFault,
    /// Memory ran out.
    NoMemory,
}

// Why a copy gives up where its first reading does.
pub(crate) fn first_fault(fault: PassFault) -> CopyFault
    ensures { result ≡ first_fault fault }
{
    match fault {
        PassFault::Refused(refusal) => CopyFault::Refused(refusal),
        PassFault::ReadFault => CopyFault::ReadFault,
        PassFault::NoMemory => CopyFault::NoMemory,
    }
}

// Why it gives up where its second reading does.
pub(crate) fn second_fault(fault: PassFault) -> CopyFault
    ensures { result ≡ second_fault fault }
{
    match fault {
        PassFault::Refused(refusal) => CopyFault::Changed(refusal),
        PassFault::ReadFault => CopyFault::ReadFault,
        PassFault::NoMemory => CopyFault::NoMemory,
    }
}

// Why it gives up where a call for an output does.
pub(crate) fn write_fault(error: ShelfError) -> CopyFault
    ensures { result ≡ write_fault error }
{
    match error {
        ShelfError::Failed => CopyFault::WriteFault,
        ShelfError::NoMemory => CopyFault::NoMemory,
    }
}
