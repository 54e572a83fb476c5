// Why a trace isn't filtered.
ghost use Rattle.std.specs.Prelude.{◌≡◌};
ghost use Rattle.trace_filter.specs.FilterPass.{write_fault};

use shelf::ShelfError;
use trace_passes::Refusal;

/// Why a filtered trace wasn't written, or not all of it.
#[derive(Clone, Copy, PartialEq, Eq, Debug)]
pub enum FilterFault {
    /// The trace is refused.
    Refused(Refusal),
    /// A read failed: the shelf's faults of reading the trace rose.
    ReadFault,
    /// A write failed: the shelf's faults of writing the file rose.
    WriteFault,
    /// Memory ran out.
    NoMemory,
}

// Why it isn't filtered where the file can't be written.
pub(crate) fn write_fault(error: ShelfError) -> FilterFault
    ensures { result ≡ write_fault error }
{
    match error {
        ShelfError::Failed => FilterFault::WriteFault,
        ShelfError::NoMemory => FilterFault::NoMemory,
    }
}
