// A command that counts a whole trace in one pass, and prints a text of what it counted.
ghost use Rattle.std.specs.Prelude.{◌≡◌, [], IfErr, IfOk, List, Some, ℕ};
ghost use Rattle.command_io.specs.Readings.{IsStopped};
ghost use Rattle.command_line.specs.Words.{Demand};
ghost use Rattle.predator_cli.specs.Counted.{IsCounted};
ghost use Rattle.predator_cli.specs.Counting.{IsToReport, counted_readings};
ghost use Rattle.predator_cli.specs.Meets.{Meets};
ghost use Rattle.trace_passes.specs.Passes.{Trace, all_records};
ghost use Rattle.trace_passes.specs.declared.wanted.Wanted.{Wanted as Wish};

use crate::counting::{print_text, see_trace};
use crate::endings::stop;
use base::NoMemory;
use command_io::Status;
use shelf::Shelf;
use std::alloc::Global;
use trace_passes::{Observer, Wanted};

/// Counts the accesses of a trace, and has a text of what it counted. The command that prints this
/// text is [`count`], whichever the counter is.
pub trait Counter: Observer + Drop {
    /// What it counts under, as a layout of lines.
    type Under;

    /// Which of these it takes.
    ghost allowed: { Self.Under → Type 0 } = { λ _. Unit {0} };

    /// The traces that it takes.
    ghost WANTED: { Self.Under → Wish };

    /// The text of a trace.
    ghost says: { Self.Under → Trace → List ℕ };

    /// What asks for this text of the trace of a name.
    ghost asks: { List ℕ → Self.Under → Demand };

    /// That it has counted nothing yet, under this.
    ghost blank: { Self.Under → Self → Type 0 };

    /// The traces that it takes.
    fn wanted(under: &Self::Under) -> Wanted
        ensures { result ≡ WANTED under.now };

    /// One that has counted nothing yet.
    fn begin(alloc: Global, under: Self::Under) -> Result<Self, NoMemory>
        requires { allowed under }
        ensures made { IfOk result (blank under) }
        ensures begins { IfOk result (λ counter. Self.begins counter 0) }
        ensures fresh { IfOk result (λ counter. Self.given counter counter []) };

    /// The text of what it counted. Of a filtered trace it has how many accesses the whole one has.
    fn text(&self, alloc: Global, whole: Option<u64>) -> Result<Vec<u8>, NoMemory>
        ensures { (under : Self.Under) (begun : Self) (t : Trace) → blank under begun
            → Self.given begun self.now (all_records t) → whole ≡ t.ending.whole
            → IfOk result (λ text. text.items ≡ says under t) };

    /// The traces that it takes begin at position 0.
    ghost whole: { (under : Self.Under) → (WANTED under).first ≡ Some 0 };

    /// What asks for its text is answered with that.
    ghost answers: { (name : List ℕ) (under : Self.Under)
        → IsCounted (asks name under) (WANTED under) (says under) name };
}

// The text of the trace of a name, of which the counter has seen nothing yet.
fn text_of<S: Shelf, C: Counter>(
    alloc: Global,
    shelf: &mut S,
    name: &str,
    wanted: &Wanted,
    mut counter: C,
) -> Result<Vec<u8>, Status>
    requires whole { wanted.now.first ≡ Some 0 }
    requires begins { C.begins counter 0 }
    requires fresh { C.given counter counter [] }
    ensures counted { (under : C.Under) → C.blank under counter → IfOk result (λ text.
        IsToReport wanted.now (C.says under) name.now (S.outside shelf.old) (S.outside shelf.new)
        text.items) }
    ensures stopped { IfErr result (IsStopped (counted_readings wanted.now name.now)
        (S.outside shelf.old) (S.outside shelf.new)) }
{
    match see_trace(alloc, shelf, name, wanted, &mut counter) {
        Ok(passed) => match counter.text(alloc, passed.ending.whole) {
            Ok(text) => Ok(text),
            Err(NoMemory) => Err(Status::NoMemory),
        },
        Err(status) => Err(status),
    }
}

// The same, from the beginning.
fn counted<S: Shelf, C: Counter>(
    alloc: Global,
    shelf: &mut S,
    name: &str,
    under: C::Under,
) -> Result<Vec<u8>, Status>
    requires { C.allowed under }
    ensures counted { IfOk result (λ text. IsToReport (C.WANTED under) (C.says under) name.now
        (S.outside shelf.old) (S.outside shelf.new) text.items) }
    ensures stopped { IfErr result (IsStopped (counted_readings (C.WANTED under) name.now)
        (S.outside shelf.old) (S.outside shelf.new)) }
{
    let wanted = C::wanted(&under);
    match C::begin(alloc, under) {
        Ok(counter) => text_of(alloc, shelf, name, &wanted, counter),
        Err(NoMemory) => Err(Status::NoMemory),
    }
}

/// Counts the trace of a name, and prints the text of that.
pub fn count<S: Shelf, C: Counter>(
    alloc: Global,
    shelf: &mut S,
    name: &str,
    under: C::Under,
) -> Status
    requires { C.allowed under }
    ensures { Meets (Some (C.asks name.now under)) (S.outside shelf.old) (S.outside shelf.new)
        result }
{
    match counted::<S, C>(alloc, shelf, name, under) {
        Ok(text) => print_text(shelf, &text),
        Err(status) => stop(alloc, shelf, status),
    }
}
