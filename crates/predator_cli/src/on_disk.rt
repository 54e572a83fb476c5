// The whole program over the system's files, from the arguments of its process to its exit status.
ghost use Rattle.std.specs.Prelude.{◌≡◌, IfOk, Option};
ghost use Rattle.std.specs.Process.{exit_status};
ghost use Rattle.command_io.specs.Arguments.{words_in};
ghost use Rattle.command_line.specs.Demands.{texts};
ghost use Rattle.command_line.specs.Words.{Demand as Wanted, IsBounded, IsReadAs, demand_of};
ghost use Rattle.disk_shelf.specs.Disk.{disk_outside, fresh_outside};
ghost use Rattle.predator_cli.specs.Answer.{HasNamesApart};
ghost use Rattle.predator_cli.specs.Meets.{Meets};
ghost use Rattle.predator_cli.specs.OnDisk.{EndsWith};

use crate::command::obey;
use crate::endings::{refuse, refuse_words};
use base::NoMemory;
use command_io::{Status, advise, exit_code, file_to_look_at, trace_to_read, words_of};
use command_line::{Demand, WordsFault, read_words};
use disk_shelf::{Contents, DiskShelf};
use std::alloc::Global;
use std::env::Args;
use std::io::{self, IsTerminal, Print, Stderr};
use std::process::ExitCode;
use std::rt::{Clock, Env, Files};

/// The system's files and standard output, with nothing done to them yet. On standard error the
/// shelf says why a call failed and shows what a run puts out and, where that is a terminal, how
/// far long work is.
pub fn system_shelf<R: Files + Print + Eprint + Clock + AllocGlobal, K: Contents>(
    runtime: &R,
    stderr: Stderr,
) -> DiskShelf<'_, R, K>
    ensures { disk_outside K.files result ≡ fresh_outside K.files }
{
    let mut shelf = if stderr.is_terminal() {
        DiskShelf::on_terminal(runtime)
    } else {
        DiskShelf::new(runtime)
    };
    shelf.show_output_on(stderr);
    shelf
}

// Lets the shelf know the trace that it will be asked for, so that `-` is standard input where a
// trace is read once.
fn expect_trace<'w, R: Files + Print + Eprint + Clock + AllocGlobal, K: Contents>(
    asked: &Result<Demand<'w>, WordsFault<'w>>,
    shelf: &mut DiskShelf<'_, R, K>,
)
    ensures { shelf.new ≡ shelf.old }
{
    if let Ok(demand) = asked {
        if let Some(trace) = trace_to_read(demand) {
            shelf.expect(trace.name, trace.again);
        }
    }
}

// Says on standard error how the call ended, where there is something to say.
fn say_end<
    'w,
    E: Eprint + Env + AllocGlobal,
    R: Files + Print + Eprint + Clock + AllocGlobal,
    K: Contents,
>(
    runtime: &E,
    asked: &Result<Demand<'w>, WordsFault<'w>>,
    status: &Status,
    shelf: &mut DiskShelf<'_, R, K>,
)
    ensures { shelf.new ≡ shelf.old }
{
    let name = match asked {
        Ok(demand) => file_to_look_at(demand, status),
        Err(_) => None,
    };
    let front = match name {
        Some(name) => shelf.front_of(name),
        None => Vec::new(runtime.alloc()),
    };
    shelf.report_run_end();
    advise(runtime, asked, status, &front);
}

// Does what is asked for, or refuses the words.
fn answer_words<'w, R: Files + Print + Eprint + Clock + AllocGlobal, K: Contents>(
    alloc: Global,
    asked: &Result<Demand<'w>, WordsFault<'w>>,
    shelf: &mut DiskShelf<'_, R, K>,
) -> Status
    requires apart { IfOk asked.now HasNamesApart }
    requires bounded { IfOk asked.now IsBounded }
    ensures { (wanted : Option Wanted) → IsReadAs wanted asked.now
        → Meets wanted (disk_outside K.files shelf.old) (disk_outside K.files shelf.new) result }
{
    match asked {
        Ok(demand) => obey(alloc, demand, shelf),
        Err(WordsFault::Usage(_)) => refuse_words(shelf),
        Err(WordsFault::NoMemory) => refuse(alloc, shelf, Status::NoMemory),
    }
}

// Does what words ask for. They are read once.
fn obey_words<
    E: Eprint + Env + AllocGlobal,
    R: Files + Print + Eprint + Clock + AllocGlobal,
    K: Contents,
>(runtime: &E, words: &[String], shelf: &mut DiskShelf<'_, R, K>) -> Status
    ensures { Meets (demand_of (texts words.now)) (disk_outside K.files shelf.old)
        (disk_outside K.files shelf.new) result }
{
    let asked = read_words(runtime.alloc(), words);
    expect_trace(&asked, shelf);
    let status = answer_words(runtime.alloc(), &asked, shelf);
    say_end(runtime, &asked, &status, shelf);
    status
}

// Does what the words among the arguments ask for.
fn obey_arguments<
    E: Eprint + Env + AllocGlobal,
    R: Files + Print + Eprint + Clock + AllocGlobal,
    K: Contents,
>(runtime: &E, arguments: io::Result<Args>, shelf: &mut DiskShelf<'_, R, K>) -> Status
    ensures { Meets (demand_of (texts (words_in arguments))) (disk_outside K.files shelf.old)
        (disk_outside K.files shelf.new) result }
{
    match words_of(runtime.alloc(), arguments) {
        Ok(words) => obey_words(runtime, &words, shelf),
        Err(NoMemory) => refuse(runtime.alloc(), shelf, Status::NoMemory),
    }
}

/// The program: does what the arguments of its process ask for, and gives its exit status.
///
/// The words are all arguments after the first, which names the program, and none where one of them
/// is no text. They are read once. Nothing but the shelf can print here: `runtime` writes to
/// standard error alone, where it says what is wrong at an end that isn't good, and what to do
/// next.
pub fn predator_on_disk<
    E: Eprint + Env + AllocGlobal,
    R: Files + Print + Eprint + Clock + AllocGlobal,
    K: Contents,
>(runtime: &E, arguments: io::Result<Args>, shelf: &mut DiskShelf<'_, R, K>) -> ExitCode
    requires fresh { disk_outside K.files shelf.old ≡ fresh_outside K.files }
    // The exit status is the number of the status with which the words and the files are answered,
    // and nothing is printed or written beside that answer. K stands for any contents of the files.
    ensures ends { EndsWith (demand_of (texts (words_in arguments))) K.files shelf.new
        (exit_status result) }
{
    let status = obey_arguments(runtime, arguments, shelf);
    exit_code(&status)
}
