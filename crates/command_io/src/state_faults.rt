// The faults of a saved state, and of a trace that doesn't go on: what each is called, and what is
// said of it.
ghost use Rattle.std.specs.Prelude.{◌≡◌, IfOk, string_bytes};
ghost use Rattle.command_io.specs.Faults.{state_text};

use crate::status::StateFault;
use std::alloc::{AllocError, Global};

/// Where the number of harts stands in a saved state.
pub const HARTS: u64 = 32;

// What a fault of a saved state is called, and that a trace doesn't go on.
pub fn state_name(alloc: Global, fault: StateFault) -> Result<String, AllocError>
    ensures { IfOk result (λ text. string_bytes text ≡ state_text fault) }
{
    match fault {
        StateFault::BadState(place) => format!(in alloc; "BadState {place}"),
        StateFault::WrongSettings(place) => format!(in alloc; "WrongSettings {place}"),
        StateFault::WrongPosition { saved, first } => {
            format!(in alloc; "WrongPosition {saved} {first}")
        }
        StateFault::TooLong => String::from_str(alloc, "TooLong"),
    }
}

/// What is wrong with a saved state or a trace that is refused, and what to do about it.
pub fn state_advice(alloc: Global, fault: StateFault) -> Result<String, AllocError> {
    match fault {
        StateFault::BadState(place) => {
            format!(in alloc;
                "byte {place} is wrong: the file is not a saved state, or it is cut off"
            )
        }
        StateFault::TooLong => {
            String::from_str(alloc, "the saved state is larger than 1099511627776 bytes")
        }
        StateFault::WrongSettings(HARTS) => {
            String::from_str(
                alloc,
                "the trace and the saved state differ in their number of harts",
            )
        }
        StateFault::WrongSettings(place) => {
            format!(in alloc;
                "the state was saved with another layout or thresholds, as byte {place} shows: use the same"
            )
        }
        StateFault::WrongPosition { saved, first } => format!(in alloc;
            "the first access of the trace is number {first}, not {saved}: replay the parts before it first"
        ),
    }
}
