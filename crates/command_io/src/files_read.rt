// Which of the files that a command reads a refusal is of.
ghost use Rattle.std.specs.Prelude.{◌≡◌, option_map};
ghost use Rattle.std.specs.Option.{option_copied};
ghost use Rattle.command_line.specs.FilesRead.{trace_read};
ghost use Rattle.command_line.specs.Words.{meaning, trace_of};
ghost use Rattle.command_io.specs.FilesRead.{is_own, refused_name};

use crate::state_faults::HARTS;
use crate::status::{StateFault, Status};
use command_line::{Demand, FilesRead, TraceToRead};
use settings::SettingsFault;

/// The trace that is read for what is asked for, where one is, and whether it is read again. One
/// that is read once may be standard input, by the name `-`.
pub fn trace_to_read<'a>(demand: &Demand<'a>) -> Option<TraceToRead<'a>>
    ensures { option_map trace_read result ≡ trace_of (meaning demand.now) }
{
    demand.files().trace
}

// What a trace is called in a message.
fn called(trace: TraceToRead<'_>) -> &str {
    if trace.name == "-" && !trace.again {
        "standard input"
    } else {
        trace.name
    }
}

// Whether a fault of the settings is of their file by itself, and not of what is changed.
fn is_of_file(fault: &SettingsFault) -> bool
    ensures { result ≡ is_own fault.now }
{
    !matches!(fault, SettingsFault::ChangedOutOfRange(_))
}

/// The name of the file that such a refusal is of, where a file is refused.
pub fn file_refused<'a>(demand: &Demand<'a>, status: &Status) -> Option<&'a str> {
    let files = demand.files();
    name_refused(&files, files.trace.map(called), status)
}

// Which of the names of the files that are read, and of the trace, such a refusal is of.
fn name_refused<'a>(
    files: &FilesRead<'a>,
    trace: Option<&'a str>,
    status: &Status,
) -> Option<&'a str>
    ensures { option_copied result ≡ refused_name files.now (option_copied trace.entry)
        status.now }
{
    match status {
        Status::Elf(_) => files.program,
        Status::Schedule(_) => files.schedule,
        Status::Table(_) => files.table,
        Status::Settings(fault) => {
            if is_of_file(fault) {
                files.settings
            } else {
                None
            }
        }
        Status::Trace(_)
        | Status::NoPcs
        | Status::Filtered
        | Status::TooWide
        | Status::Occupied(_)
        | Status::Far(_)
        | Status::State(StateFault::WrongSettings(HARTS) | StateFault::WrongPosition { .. }) => {
            trace
        }
        Status::State(_) => files.state,
        _ => None,
    }
}

/// The name of a file that is refused whose beginning says more of why: a program or settings.
pub fn file_to_look_at<'a>(demand: &Demand<'a>, status: &Status) -> Option<&'a str> {
    let files = demand.files();
    match status {
        Status::Elf(_) => files.program,
        Status::Settings(_) => files.settings,
        _ => None,
    }
}
