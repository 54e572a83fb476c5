// What is printed of each end. A kind of fault has a file, with what each of its faults is called,
// and what is said of it on standard error.
ghost use Rattle.std.specs.Prelude.{◌≡◌, ◌++◌, IfOk, string_bytes, codes};
ghost use Rattle.command_io.specs.Faults.{fault_text};
ghost use Rattle.command_io.specs.Texts.{line};

use crate::elf_faults::elf_name;
use crate::place_faults::place_name;
use crate::schedule_faults::schedule_name;
use crate::settings_faults::settings_name;
use crate::state_faults::state_name;
use crate::status::Status;
use crate::table_faults::{far_name, occupied_name, table_name};
use crate::trace_faults::trace_name;
use command_line::USAGE;
use std::alloc::{AllocError, Global};

/// The line of a fault of reading.
pub const READ_FAULT_LINE: &str = "predator: read fault\n";

/// The line of a fault of writing.
pub const WRITE_FAULT_LINE: &str = "predator: write fault\n";

/// The line of want of memory.
pub const NO_MEMORY_LINE: &str = "predator: no memory\n";

// The line of a fault: of what, and what it is called.
fn line_of(alloc: Global, kind: &str, name: &str) -> Result<String, AllocError>
    ensures { IfOk result (λ text. string_bytes text
        ≡ codes "predator: " ++ kind.now ++ codes " " ++ line name.now) }
{
    format!(in alloc; "predator: {kind} {name}\n")
}

/// The lines that are printed at a refusal and at a fault of the outside, none at another end. It
/// fails where memory runs out.
pub fn fault_line(alloc: Global, status: &Status) -> Result<String, AllocError>
    ensures { IfOk result (λ text. string_bytes text ≡ fault_text status.now) }
{
    match status {
        Status::Done | Status::Budget | Status::Deadlock | Status::Trapped => {
            Ok(String::new(alloc))
        }
        Status::Usage => String::from_str(alloc, USAGE),
        Status::Elf(fault) => line_of(alloc, "elf", elf_name(*fault)),
        Status::Schedule(fault) => {
            let name = schedule_name(alloc, *fault)?;
            line_of(alloc, "schedule", name.as_str())
        }
        Status::Settings(fault) => {
            let name = settings_name(alloc, fault)?;
            line_of(alloc, "settings", name.as_str())
        }
        Status::Trace(fault) => {
            let name = trace_name(alloc, *fault)?;
            line_of(alloc, "trace", name.as_str())
        }
        Status::NoPcs => line_of(alloc, "trace", "NoPcs"),
        Status::Filtered => line_of(alloc, "trace", "Filtered"),
        Status::TooWide => line_of(alloc, "trace", "TooWide"),
        Status::State(fault) => {
            let name = state_name(alloc, *fault)?;
            line_of(alloc, "state", name.as_str())
        }
        Status::Place(refusal) => line_of(alloc, "place", place_name(*refusal)),
        Status::Table(fault) => {
            let name = table_name(alloc, *fault)?;
            line_of(alloc, "table", name.as_str())
        }
        Status::Occupied(addr) => {
            let name = occupied_name(alloc, *addr)?;
            line_of(alloc, "table", name.as_str())
        }
        Status::Far(addr) => {
            let name = far_name(alloc, *addr)?;
            line_of(alloc, "table", name.as_str())
        }
        Status::ReadFault => String::from_str(alloc, READ_FAULT_LINE),
        Status::WriteFault => String::from_str(alloc, WRITE_FAULT_LINE),
        Status::NoMemory => String::from_str(alloc, NO_MEMORY_LINE),
    }
}
