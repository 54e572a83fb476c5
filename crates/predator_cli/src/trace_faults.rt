// How a command ends where a trace isn't passed, copied, moved or filtered.
ghost use Rattle.std.specs.Prelude.{◌≡◌};
ghost use Rattle.predator_cli.specs.TraceFaults.{status_of_copy, status_of_move, status_of_pass};
ghost use Rattle.predator_cli.specs.TraceFaults.{status_of_filter, status_of_refusal};

use command_io::{StateFault, Status};
use saved_state::HARTS_PLACE;
use trace_files::{CopyFault, MoveFault};
use trace_filter::FilterFault;
use trace_passes::{PassFault, Refusal};

/// The status of a trace that is refused.
pub fn status_of_refusal(refusal: Refusal) -> Status
    ensures { result ≡ status_of_refusal refusal }
{
    match refusal {
        Refusal::Trace(fault) => Status::from(fault),
        Refusal::NoPcs => Status::NoPcs,
        Refusal::Filtered => Status::Filtered,
        Refusal::TooWide => Status::TooWide,
        Refusal::Harts => Status::State(StateFault::WrongSettings(HARTS_PLACE)),
        Refusal::Position { saved, first } => {
            Status::State(StateFault::WrongPosition { saved, first })
        }
    }
}

/// The status of a trace that isn't passed.
pub fn status_of_pass(fault: PassFault) -> Status
    ensures { result ≡ status_of_pass fault }
{
    match fault {
        PassFault::Refused(refusal) => status_of_refusal(refusal),
        PassFault::ReadFault => Status::ReadFault,
        PassFault::NoMemory => Status::NoMemory,
    }
}

/// The status of a trace that isn't copied.
pub fn status_of_copy(fault: CopyFault) -> Status
    ensures { result ≡ status_of_copy fault }
{
    match fault {
        CopyFault::Refused(refusal) | CopyFault::Changed(refusal) => status_of_refusal(refusal),
        CopyFault::ReadFault => Status::ReadFault,
        CopyFault::WriteFault => Status::WriteFault,
        CopyFault::NoMemory => Status::NoMemory,
    }
}

/// The status of a trace whose accesses aren't moved.
pub fn status_of_move(fault: MoveFault) -> Status
    ensures { result ≡ status_of_move fault }
{
    match fault {
        MoveFault::Refused(refusal) => status_of_refusal(refusal),
        MoveFault::Occupied(addr) => Status::Occupied(addr),
        MoveFault::Far(addr) => Status::Far(addr),
        MoveFault::ReadFault => Status::ReadFault,
        MoveFault::WriteFault => Status::WriteFault,
        MoveFault::NoMemory => Status::NoMemory,
    }
}

/// The status of a trace that isn't filtered.
pub fn status_of_filter(fault: FilterFault) -> Status
    ensures { result ≡ status_of_filter fault }
{
    match fault {
        FilterFault::Refused(refusal) => status_of_refusal(refusal),
        FilterFault::ReadFault => Status::ReadFault,
        FilterFault::WriteFault => Status::WriteFault,
        FilterFault::NoMemory => Status::NoMemory,
    }
}
