// The faults of a schedule: what each is called, and what is said of it.
ghost use Rattle.std.specs.Prelude.{◌≡◌, IfOk, string_bytes};
ghost use Rattle.command_io.specs.Faults.{schedule_text};

use hart_scheduler::ScheduleFault;
use std::alloc::{AllocError, Global};

const HARTS: &str =
    "number the harts from 0, and set how many there are with `harts` in the settings (usually 8)";

// What a fault of the schedule is called.
pub fn schedule_name(alloc: Global, fault: ScheduleFault) -> Result<String, AllocError>
    ensures { IfOk result (λ text. string_bytes text ≡ schedule_text fault) }
{
    match fault {
        ScheduleFault::BadLine(line) => format!(in alloc; "BadLine {line}"),
        ScheduleFault::HartOutOfRange(line) => format!(in alloc; "HartOutOfRange {line}"),
        ScheduleFault::ZeroCount(line) => format!(in alloc; "ZeroCount {line}"),
        ScheduleFault::TooLong => String::from_str(alloc, "TooLong"),
        ScheduleFault::NoMemory => String::from_str(alloc, "NoMemory"),
    }
}

/// What is wrong with a schedule that is refused, and what to do about it.
pub fn schedule_advice(alloc: Global, fault: ScheduleFault) -> Result<String, AllocError> {
    match fault {
        ScheduleFault::BadLine(line) => {
            format!(in alloc;
                "line {line} is not a hart, one space and a count: write it like `0 500`"
            )
        }
        ScheduleFault::HartOutOfRange(line) => {
            format!(in alloc; "line {line} names a hart that does not exist: {HARTS}")
        }
        ScheduleFault::ZeroCount(line) => {
            format!(in alloc;
                "line {line} has a count of 0: set it to 1 or more, or remove the line"
            )
        }
        ScheduleFault::TooLong => String::from_str(
            alloc,
            "the schedule is larger than 1 MiB: shorten it",
        ),
        ScheduleFault::NoMemory => Err(AllocError),
    }
}
