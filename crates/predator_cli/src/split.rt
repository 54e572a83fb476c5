// The command `split`.
ghost use Rattle.std.specs.Prelude.{Some};
ghost use Rattle.command_line.specs.Split.{split_meaning, split_outputs};
ghost use Rattle.command_line.specs.Words.{split as asks};
ghost use Rattle.shelf.specs.OnTheirWay.{AreApart};
ghost use Rattle.predator_cli.specs.Meets.{Meets};

use crate::copies::print_copies;
use crate::endings::refuse;
use crate::laws::a_trace_counts_in_parts;
use crate::trace_faults::status_of_copy;
use command_io::Status;
use command_line::SplitOptions;
use shelf::Shelf;
use std::alloc::Global;
use trace_files::split_trace;

/// Cuts the trace of a name in two, writes each half under a name of its own, and prints how many
/// accesses each has.
pub fn split<S: Shelf>(alloc: Global, options: &SplitOptions<'_>, shelf: &mut S) -> Status
    requires { AreApart (split_outputs (split_meaning options.now)) }
    ensures { Meets (Some (asks (split_meaning options.now)))
        (S.outside shelf.old) (S.outside shelf.new) result }
{
    a_trace_counts_in_parts();
    match split_trace(
        alloc,
        shelf,
        options.trace,
        options.at,
        options.first,
        options.second,
    ) {
        Ok(made) => print_copies(alloc, shelf, "split", made.cut, made.rest),
        Err(fault) => refuse(alloc, shelf, status_of_copy(fault)),
    }
}
