// Why a call of the system failed, as it is said on standard error.

ghost use Rattle.std.specs.Prelude.{◌≡◌, ◌++◌, IfOk, List, ℕ, string_bytes};

use base::printed_name;
use std::alloc::{AllocError, Global};
use std::io;

// What stands before the number of an error, where there is one.
fn without_number(alloc: Global, whole: &str) -> Result<String, AllocError>
    ensures { IfOk result
        (λ reason. (number : List ℕ) × (whole.now ≡ string_bytes reason ++ number)) }
{
    match whole.split_once(" (os error ") {
        Some((reason, _)) => String::from_str(alloc, reason),
        None => String::from_str(alloc, whole),
    }
}

// The system's reason, without its number.
fn reason_of(alloc: Global, error: &io::Error) -> Result<String, AllocError> {
    let whole = format!(in alloc; "{error}")?;
    without_number(alloc, &whole)
}

// A name that a terminal shows as it is. With a control character it is printed as in a report.
fn shown(alloc: Global, name: &str) -> Result<String, AllocError> {
    if name.chars().any(|c| c.is_control()) {
        printed_name(alloc, name.as_bytes())
    } else {
        String::from_str(alloc, name)
    }
}

/// Says why a call of the disk failed: the name and the system's reason.
pub fn report_fault<R: Eprint + AllocGlobal>(runtime: &R, name: &str, error: &io::Error) {
    let alloc = runtime.alloc();
    let _ = match (shown(alloc, name), reason_of(alloc, error)) {
        (Ok(name), Ok(reason)) => eprintln!(runtime; "predator: {name}: {reason}"),
        _ => eprintln!(runtime; "predator: {name}: {error}"),
    };
}
