// How a command passes over a whole trace once, and ends with a text of it.
ghost use Rattle.std.specs.Prelude.{◌≡◌, [], IfErr, IfOk, List, OnOk, Some, ℕ};
ghost use Rattle.command_line.specs.Words.{Demand};
ghost use Rattle.command_io.specs.Readings.{IsAccepted, IsStopped};
ghost use Rattle.predator_cli.specs.Commands.{RepeatsReport, readings_of, work_of};
ghost use Rattle.predator_cli.specs.Counting.{IsToReport, counted_readings, counted_work};
ghost use Rattle.predator_cli.specs.Meets.{Meets};
ghost use Rattle.predator_cli.specs.Replay.{whole, whole_for};
ghost use Rattle.shelf.specs.Shelf.{Files, Outside};
ghost use Rattle.trace_format.specs.Rules.{IsGoodHeader};
ghost use Rattle.trace_format.specs.declared.record.Header.{Header as Head};
ghost use Rattle.trace_passes.specs.Passes.{HasPassed, IsWanted, Trace};
ghost use Rattle.trace_passes.specs.declared.wanted.Wanted.{Wanted as Wish};

use crate::endings::answer;
use crate::trace_faults::status_of_pass;
use command_io::Status;
use shelf::Shelf;
use std::alloc::Global;
use trace_passes::{Observer, Passed, Wanted, pass};

/// A whole trace that isn't filtered: of any number of harts, from position 0 on.
pub const WHOLE: Wanted = Wanted {
    harts: None,
    first: Some(0),
    pcs: false,
    lines: None,
};

/// A whole trace, filtered or not, whose regions have at least as many bytes as lines of a size.
pub fn whole_for(size: u32) -> Wanted
    ensures { result ≡ whole_for size }
{
    Wanted {
        lines: Some(size),
        ..WHOLE
    }
}

/// Gives the records of the trace of a name to an observer, or says why the trace isn't taken.
pub fn see_trace<S: Shelf, O: Observer>(
    alloc: Global,
    shelf: &mut S,
    name: &str,
    wanted: &Wanted,
    observer: &mut O,
) -> Result<Passed, Status>
    requires begins { (header : Head) → IsGoodHeader header → IsWanted wanted.now header
        → O.begins observer.old header.first }
    requires fresh { O.given observer.old observer.old [] }
    ensures passed { IfOk result (λ passed. HasPassed (S.outside shelf.new).held name.now passed
        (O.given observer.old observer.new)) }
    ensures accepted { OnOk result (IsAccepted (counted_readings wanted.now name.now)
        (S.outside shelf.old) (S.outside shelf.new)) }
    ensures stopped { IfErr result (IsStopped (counted_readings wanted.now name.now)
        (S.outside shelf.old) (S.outside shelf.new)) }
{
    match pass(alloc, shelf, name, wanted, observer) {
        Ok(passed) => Ok(passed),
        Err(fault) => Err(status_of_pass(fault)),
    }
}

/// The same of a whole trace.
pub fn see_whole<S: Shelf, O: Observer>(
    alloc: Global,
    shelf: &mut S,
    name: &str,
    observer: &mut O,
) -> Result<Passed, Status>
    requires begins { O.begins observer.old 0 }
    requires fresh { O.given observer.old observer.old [] }
    ensures passed { IfOk result (λ passed. HasPassed (S.outside shelf.new).held name.now passed
        (O.given observer.old observer.new)) }
    ensures accepted { OnOk result (IsAccepted (counted_readings whole name.now)
        (S.outside shelf.old) (S.outside shelf.new)) }
    ensures stopped { IfErr result (IsStopped (counted_readings whole name.now)
        (S.outside shelf.old) (S.outside shelf.new)) }
{
    see_trace(alloc, shelf, name, &WHOLE, observer)
}

/// Prints the text of a trace that was passed over, and ends.
pub fn print_text<S: Shelf>(shelf: &mut S, text: &[u8]) -> Status
    ensures { (demand : Demand) (wanted : Wish) (says : Trace → List ℕ) (name : List ℕ)
        (old : Outside)
        → readings_of demand ≡ counted_readings wanted name
        → ((files : Files) → work_of demand files ≡ counted_work says name files)
        → ((files : Files) → RepeatsReport demand files)
        → IsToReport wanted says name old (S.outside shelf.old) text.now
        → Meets (Some demand) old (S.outside shelf.new) result }
{
    answer(shelf, text)
}
