// How the commands end that copy a trace.
ghost use Rattle.std.specs.Prelude.{Some};
ghost use Rattle.command_line.specs.Words.{Demand};
ghost use Rattle.shelf.specs.Shelf.{Outside};
ghost use Rattle.predator_cli.specs.Copies.{copy_text};
ghost use Rattle.predator_cli.specs.Meets.{IsWorked, Meets};

use crate::endings::{finish, refuse};
use command_io::Status;
use shelf::Shelf;
use std::alloc::Global;

/// Prints the line of the copies that were made, a command and two numbers, and ends.
pub fn print_copies<S: Shelf>(
    alloc: Global,
    shelf: &mut S,
    command: &str,
    first: u64,
    second: u64,
) -> Status
    ensures { (demand : Demand) (old : Outside)
        → IsWorked demand old (S.outside shelf.old) Status.Done
        (copy_text command.now first second)
        → Meets (Some demand) old (S.outside shelf.new) result }
{
    match format!(in alloc; "{command} {first} {second}\n") {
        Ok(text) => finish(shelf, Status::Done, text.as_bytes()),
        Err(_) => refuse(alloc, shelf, Status::NoMemory),
    }
}
