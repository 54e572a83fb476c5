// Why a trace isn't moved.
ghost use Rattle.std.specs.Prelude.{◌≡◌};
ghost use Rattle.trace_files.specs.Movers.{write_fault};

use shelf::ShelfError;
use trace_passes::Refusal;

/// Why a trace with its accesses moved wasn't written, or not all of it.
#[derive(Clone, Copy, PartialEq, Eq, Debug)]
pub enum MoveFault {
    /// The trace is refused.
    Refused(Refusal),
    /// The access of this address is in no range of the table, and lies in a place of it.
    Occupied(u32),
    /// The trace is filtered, and a place of the table has a byte that is near this access once it is
    /// moved, and that comes from an address that isn't near the access's own, which is given here.
    Far(u32),
    /// A read failed: the shelf's faults of reading the trace rose.
    ReadFault,
    /// A write failed: the shelf's faults of writing the file rose.
    WriteFault,
    /// Memory ran out.
    NoMemory,
}

// Why it isn't moved where the file can't be written.
pub(crate) fn write_fault(error: ShelfError) -> MoveFault
    ensures { result ≡ write_fault error }
{
    match error {
        ShelfError::Failed => MoveFault::WriteFault,
        ShelfError::NoMemory => MoveFault::NoMemory,
    }
}
