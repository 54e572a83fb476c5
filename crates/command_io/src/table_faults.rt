// The faults of a table of moves: what each is called, and what is said of it.
ghost use Rattle.std.specs.Prelude.{◌≡◌, IfOk, string_bytes};
ghost use Rattle.command_io.specs.Faults.{far_text, occupied_text, table_text};

use base::push_address;
use std::alloc::{AllocError, Global};
use trace_files::TableFault;

/// What to do about an access in the way of those that are moved.
pub const OCCUPIED_ADVICE: &str =
    "an access at this address stays, and other accesses would move to it: move them elsewhere, or \
     add a line for this address";

/// What to do about an access of a filtered trace that others would come near.
pub const FAR_ADVICE: &str =
    "the trace is filtered, and a range would move near an access at this address from memory that \
     was not near it: record the whole trace, or filter it with a larger --near";

// What a fault of the table is called.
pub fn table_name(alloc: Global, fault: TableFault) -> Result<String, AllocError>
    ensures { IfOk result (λ text. string_bytes text ≡ table_text fault) }
{
    match fault {
        TableFault::TooLong => String::from_str(alloc, "TooLong"),
        TableFault::BadLine(line) => format!(in alloc; "BadLine {line}"),
        TableFault::Overlap(line) => format!(in alloc; "Overlap {line}"),
        TableFault::NoMemory => String::from_str(alloc, "NoMemory"),
    }
}

// What an access in the way is called.
pub fn occupied_name(alloc: Global, addr: u32) -> Result<String, AllocError>
    ensures { IfOk result (λ text. string_bytes text ≡ occupied_text addr) }
{
    let mut text = String::from_str(alloc, "Occupied ")?;
    push_address(&mut text, u64::from(addr))?;
    Ok(text)
}

// What an access is called that a place comes near from far.
pub fn far_name(alloc: Global, addr: u32) -> Result<String, AllocError>
    ensures { IfOk result (λ text. string_bytes text ≡ far_text addr) }
{
    let mut text = String::from_str(alloc, "Far ")?;
    push_address(&mut text, u64::from(addr))?;
    Ok(text)
}

/// What is wrong with a table that is refused, and what to do about it.
pub fn table_advice(alloc: Global, fault: TableFault) -> Result<String, AllocError> {
    match fault {
        TableFault::TooLong => String::from_str(
            alloc,
            "the table is larger than 1 MiB: shorten it",
        ),
        TableFault::BadLine(line) => {
            format!(in alloc;
                "line {line} is not a valid FROM SIZE TO: write it like `0x11004 4 0x11040`, with \
                single spaces, multiples of 4, SIZE at least 4, FROM + SIZE and TO + SIZE at most \
                2^32, and FROM at or above the end of the previous range"
            )
        }
        TableFault::Overlap(line) => {
            format!(in alloc;
                "the target of line {line} overlaps the target of an earlier line: move it \
                elsewhere"
            )
        }
        TableFault::NoMemory => Err(AllocError),
    }
}
