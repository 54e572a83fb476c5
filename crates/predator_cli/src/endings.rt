// How a command prints its last text and ends.
ghost use Rattle.std.specs.Prelude.{◌≡◌, Option, None, Some};
ghost use Rattle.command_line.specs.Words.{Demand};
ghost use Rattle.shelf.specs.Shelf.{Outside};
ghost use Rattle.command_io.specs.Faults.{fault_text};
ghost use Rattle.command_io.specs.Statuses.{kind_of, done};
ghost use Rattle.command_io.specs.Readings.{IsStopped};
ghost use Rattle.predator_cli.specs.Meets.{IsAnswered, IsFaulty, IsWorked, Meets};
ghost use Rattle.predator_cli.specs.Commands.{first_readings_of};

use command_io::{NO_MEMORY_LINE, READ_FAULT_LINE, Status, WRITE_FAULT_LINE, fault_line};
use command_line::USAGE;
use shelf::{Shelf, ShelfError};
use std::alloc::Global;

// Prints the line of a fault, and answers how the program ends.
fn print_fault<S: Shelf>(shelf: &mut S, status: Status, text: &str) -> Status
    requires { text.now ≡ fault_text status }
    ensures { (asked : Option Demand) (old : Outside)
        → IsFaulty asked old (S.outside shelf.old) status
        → Meets asked old (S.outside shelf.new) result }
{
    match shelf.print(text.as_bytes()) {
        Ok(()) => status,
        Err(ShelfError::Failed) => status,
        Err(ShelfError::NoMemory) => Status::NoMemory,
    }
}

/// Ends with a refusal or with a fault of the outside. The line of a fault of reading or writing
/// takes no memory but the shelf's, so that no such fault is reported as want of it.
pub fn refuse<S: Shelf>(alloc: Global, shelf: &mut S, status: Status) -> Status
    ensures { (asked : Option Demand) (old : Outside)
        → IsFaulty asked old (S.outside shelf.old) status
        → Meets asked old (S.outside shelf.new) result }
{
    match status {
        Status::ReadFault => print_fault(shelf, Status::ReadFault, READ_FAULT_LINE),
        Status::WriteFault => print_fault(shelf, Status::WriteFault, WRITE_FAULT_LINE),
        status => match fault_line(alloc, &status) {
            Ok(text) => print_fault(shelf, status, text.as_str()),
            Err(_) => print_fault(shelf, Status::NoMemory, NO_MEMORY_LINE),
        },
    }
}

/// Refuses the words. That takes no memory but the shelf's.
pub fn refuse_words<S: Shelf>(shelf: &mut S) -> Status
    ensures { Meets None (S.outside shelf.old) (S.outside shelf.new) result }
{
    print_fault(shelf, Status::Usage, USAGE)
}

/// Ends where the reading of the files stopped that a command judges before it writes.
pub fn stop<S: Shelf>(alloc: Global, shelf: &mut S, status: Status) -> Status
    ensures { (demand : Demand) (old : Outside)
        → IsStopped (first_readings_of demand) old (S.outside shelf.old) status
        → Meets (Some demand) old (S.outside shelf.new) result }
{
    refuse(alloc, shelf, status)
}

/// Prints a command's own text, and ends as its work does.
pub fn finish<S: Shelf>(shelf: &mut S, status: Status, text: &[u8]) -> Status
    requires { kind_of status ≡ done }
    ensures { (demand : Demand) (old : Outside)
        → IsWorked demand old (S.outside shelf.old) status text.now
        → Meets (Some demand) old (S.outside shelf.new) result }
{
    match shelf.print(text) {
        Ok(()) => status,
        Err(ShelfError::Failed) => Status::WriteFault,
        Err(ShelfError::NoMemory) => Status::NoMemory,
    }
}

/// Prints the text of a command that writes nothing, and ends.
pub fn answer<S: Shelf>(shelf: &mut S, text: &[u8]) -> Status
    ensures { (demand : Demand) (old : Outside)
        → IsAnswered demand old (S.outside shelf.old) text.now
        → Meets (Some demand) old (S.outside shelf.new) result }
{
    finish(shelf, Status::Done, text)
}
