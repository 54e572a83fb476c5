// What is said on standard error of an end: the file that is refused, what is wrong with it, and
// what to do next. None of it is promised.

use crate::elf_faults::elf_advice;
use crate::files_read::file_refused;
use crate::place_faults::place_advice;
use crate::schedule_faults::schedule_advice;
use crate::settings_faults::settings_advice;
use crate::state_faults::state_advice;
use crate::status::Status;
use crate::table_faults::{FAR_ADVICE, OCCUPIED_ADVICE, table_advice};
use crate::trace_faults::{
    FILTERED_ADVICE, NO_PCS_ADVICE, TOO_WIDE_ADVICE, replay_advice, trace_advice,
};
use command_line::{Demand, Reason, WordsFault};
use std::alloc::{AllocError, Global};
use std::env;
use std::io::ErrorKind;
use std::rt::Env;

const BUDGET: &str = "the run used its whole budget: set a larger `budget`, at most 68719476736";

const DEADLOCK: &str = "every remaining hart waits for a wake-up or for the end of another hart";

const TRAPPED: &str =
    "find the source line of the outcome's pc with `llvm-symbolizer --obj=PROGRAM PC`";

const NOT_TEXT: &str = "an argument is not UTF-8: arguments and file names must be UTF-8";

/// What is wrong at such an end and what to do next, in one line, where there is something to say.
/// `front` is the beginning of the file that is refused, as far as it is known.
pub fn advice_on(
    alloc: Global,
    status: &Status,
    front: &[u8],
) -> Result<Option<String>, AllocError> {
    let advice = match status {
        Status::Elf(fault) => elf_advice(alloc, *fault, front)?,
        Status::Schedule(fault) => schedule_advice(alloc, *fault)?,
        Status::Settings(fault) => settings_advice(alloc, fault, front)?,
        Status::Trace(fault) => trace_advice(alloc, *fault)?,
        Status::NoPcs => String::from_str(alloc, NO_PCS_ADVICE)?,
        Status::Filtered => String::from_str(alloc, FILTERED_ADVICE)?,
        Status::TooWide => String::from_str(alloc, TOO_WIDE_ADVICE)?,
        Status::State(fault) => state_advice(alloc, *fault)?,
        Status::Place(refusal) => String::from_str(alloc, place_advice(*refusal))?,
        Status::Table(fault) => table_advice(alloc, *fault)?,
        Status::Occupied(_) => String::from_str(alloc, OCCUPIED_ADVICE)?,
        Status::Far(_) => String::from_str(alloc, FAR_ADVICE)?,
        Status::Budget => String::from_str(alloc, BUDGET)?,
        Status::Deadlock => String::from_str(alloc, DEADLOCK)?,
        Status::Trapped => String::from_str(alloc, TRAPPED)?,
        Status::Done | Status::Usage | Status::ReadFault | Status::WriteFault | Status::NoMemory =>
            return Ok(None),
    };
    Ok(Some(advice))
}

/// The same at the end of a call that was asked for this.
pub fn advice_for(
    alloc: Global,
    demand: &Demand<'_>,
    status: &Status,
    front: &[u8],
) -> Result<Option<String>, AllocError> {
    let own = match demand {
        Demand::Replay(_) => replay_advice(status),
        _ => None,
    };
    match own {
        Some(advice) => Ok(Some(String::from_str(alloc, advice)?)),
        None => advice_on(alloc, status, front),
    }
}

// What is said where a command's work didn't end well, of its file where it refused one.
fn said_of_work(
    alloc: Global,
    demand: &Demand<'_>,
    status: &Status,
    front: &[u8],
) -> Result<Option<String>, AllocError> {
    match (
        advice_for(alloc, demand, status, front)?,
        file_refused(demand, status),
    ) {
        (Some(advice), Some(name)) => Ok(Some(format!(in alloc; "{name}: {advice}")?)),
        (advice, _) => Ok(advice),
    }
}

// Whether a word of the process is no text, so that it has none.
fn has_no_text<R: Env + AllocGlobal>(runtime: &R) -> bool {
    match env::args(runtime) {
        Ok(_) => false,
        Err(error) => error.kind() == ErrorKind::InvalidData,
    }
}

// What is wrong with words that are refused, as the place says that refuses them.
fn said_of_words<R: Env + AllocGlobal>(
    runtime: &R,
    reason: &Reason<'_>,
) -> Result<String, AllocError> {
    match reason {
        Reason::NoCommand if has_no_text(runtime) => { String::from_str(runtime.alloc(), NOT_TEXT) }
        reason => reason.text(runtime.alloc()),
    }
}

// What is said of the end of a call that was asked for this, where there is something to say.
fn said<R: Env + AllocGlobal>(
    runtime: &R,
    asked: &Result<Demand<'_>, WordsFault<'_>>,
    status: &Status,
    front: &[u8],
) -> Result<Option<String>, AllocError> {
    if *status == Status::NoMemory {
        return Ok(None);
    }
    let alloc = runtime.alloc();
    match asked {
        Ok(demand) => said_of_work(alloc, demand, status, front),
        Err(WordsFault::Usage(reason)) => Ok(Some(said_of_words(runtime, reason)?)),
        Err(WordsFault::NoMemory) => Ok(None),
    }
}

// A text with each control character as `\x` and its code.
fn shown(alloc: Global, text: &str) -> Result<String, AllocError> {
    let mut shown = String::new(alloc);
    for c in text.chars() {
        if c.is_control() {
            let code = u32::from(c);
            write!(shown, "\\x{code:02x}")?;
        } else {
            shown.push(c)?;
        }
    }
    Ok(shown)
}

/// Says on standard error what is wrong at such an end of a call that was asked for this, and what
/// to do next, where there is something to say. A file that is refused is named; `front` is its
/// beginning, as far as it is known, of the file that [`file_to_look_at`](crate::file_to_look_at)
/// names.
pub fn advise<R: Eprint + Env + AllocGlobal>(
    runtime: &R,
    asked: &Result<Demand<'_>, WordsFault<'_>>,
    status: &Status,
    front: &[u8],
) {
    if let Ok(Some(text)) = said(runtime, asked, status, front) {
        if let Ok(text) = shown(runtime.alloc(), text.as_str()) {
            let _ = eprintln!(runtime; "predator: {text}");
        }
    }
}
