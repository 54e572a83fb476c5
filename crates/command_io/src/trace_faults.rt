// The faults of a trace: what each is called, and what is said of it.
ghost use Rattle.std.specs.Prelude.{◌≡◌, IfOk, string_bytes};
ghost use Rattle.command_io.specs.Faults.{trace_text};

use crate::status::Status;
use std::alloc::{AllocError, Global};
use trace_format::TraceFault;

const DAMAGED: &str = "the file is damaged or cut off (docs/FORMATS.md describes the format)";

const NO_TRACE: &str =
    "the file is not a trace: write one with `predator run PROGRAM --trace F` or tools/to_trace.py";

const CUT: &str = "record or copy it again";

/// What to do about a trace without pcs, where a command needs them.
pub const NO_PCS_ADVICE: &str =
    "the trace has no pcs: record a guest with `predator run PROGRAM --pcs --trace F`, or a program \
     of this machine with `predator native --pcs --trace F -- PROGRAM`";

/// What to do about a filtered trace, where a command needs all accesses.
pub const FILTERED_ADVICE: &str =
    "the trace is filtered, and this command needs all accesses: use the trace that was filtered, or \
     record the program without a filter";

/// What to do about a filtered trace whose regions are smaller than the lines.
pub const TOO_WIDE_ADVICE: &str =
    "the trace was filtered for smaller lines: choose smaller lines, or filter for larger ones";

// The same where the command is a replay.
const FILTERED_REPLAY: &str = "the trace is filtered, and a saved state needs all accesses: replay \
     it without --save and --resume, or use the trace that was filtered";

const TOO_WIDE_REPLAY: &str = "the trace was filtered for lines smaller than the predicted ones, \
     which have twice the size: choose smaller lines with --size, or filter for larger ones";

/// What to do about a filtered trace that a replay refuses.
pub fn replay_advice(status: &Status) -> Option<&'static str> {
    match status {
        Status::Filtered => Some(FILTERED_REPLAY),
        Status::TooWide => Some(TOO_WIDE_REPLAY),
        _ => None,
    }
}

const TOO_LONG: &str = "the trace has more than 2^40 accesses, or 2^44 bytes or more";

// What a fault of a trace is called, with its numbers.
pub fn trace_name(alloc: Global, fault: TraceFault) -> Result<String, AllocError>
    ensures { IfOk result (λ text. string_bytes text ≡ trace_text fault) }
{
    match fault {
        TraceFault::BadMagic => String::from_str(alloc, "BadMagic"),
        TraceFault::BadHarts => String::from_str(alloc, "BadHarts"),
        TraceFault::BadTag(place) => format!(in alloc; "BadTag {place}"),
        TraceFault::BadField(place) => format!(in alloc; "BadField {place}"),
        TraceFault::Truncated(size) => format!(in alloc; "Truncated {size}"),
        TraceFault::CountMismatch { stated, counted } => {
            format!(in alloc; "CountMismatch {stated} {counted}")
        }
        TraceFault::AfterEnd(place) => format!(in alloc; "AfterEnd {place}"),
        TraceFault::TooLong => String::from_str(alloc, "TooLong"),
        TraceFault::NoMemory => String::from_str(alloc, "NoMemory"),
    }
}

/// What is wrong with a trace that is refused, and what to do about it.
pub fn trace_advice(alloc: Global, fault: TraceFault) -> Result<String, AllocError> {
    match fault {
        TraceFault::BadMagic => String::from_str(alloc, NO_TRACE),
        TraceFault::BadHarts => {
            format!(in alloc; "the number of harts is not from 1 to 256: {DAMAGED}")
        }
        TraceFault::BadTag(place) => {
            format!(in alloc; "byte {place} begins no record: {DAMAGED}")
        }
        TraceFault::BadField(place) => {
            format!(in alloc; "the field at byte {place} is invalid: {DAMAGED}")
        }
        TraceFault::Truncated(size) => {
            format!(in alloc; "the trace is cut off after {size} bytes: {CUT}")
        }
        TraceFault::CountMismatch { stated, counted } => {
            format!(in alloc;
                "the end record says {stated} accesses, the trace has {counted}: {DAMAGED}"
            )
        }
        TraceFault::AfterEnd(place) => {
            format!(in alloc; "byte {place} follows the end of the trace: {DAMAGED}")
        }
        TraceFault::TooLong => String::from_str(alloc, TOO_LONG),
        TraceFault::NoMemory => Err(AllocError),
    }
}
