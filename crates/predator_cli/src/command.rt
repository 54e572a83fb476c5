// The top call.
ghost use Rattle.std.specs.Prelude.{◌≡◌, ◌⊎◌, false, None, Some};
ghost use Rattle.command_line.specs.Demands.{texts};
ghost use Rattle.command_line.specs.Words.{IsBounded, demand_of, meaning};
ghost use Rattle.command_io.specs.Statuses.{hides_no_memory, kind_of};
ghost use Rattle.predator_cli.specs.Meets.{EndsAs, IsCaused, IsComplete, Meets, Prints};
ghost use Rattle.predator_cli.specs.Meets.{ReadsInPeace};
ghost use Rattle.predator_cli.specs.Again.{WhereDone};
ghost use Rattle.predator_cli.specs.Answer.{HasNamesApart, outputs};
ghost use Rattle.predator_cli.specs.Commands.{RepeatsReport, ReportIsRecounted};
ghost use Rattle.predator_cli.specs.Commands.{StaysWithinBudget};
ghost use Rattle.predator_cli.specs.Written.{OnlyAt, Writes};
ghost use Rattle.shelf.specs.Shelf.{Files, Narrows, Known};

use crate::check::check;
use crate::convert::convert;
use crate::counter::count;
use crate::endings::{refuse, refuse_words};
use crate::explain::explain;
use crate::filter::filter;
use crate::generate::generate;
use crate::place::place;
use crate::relocate::relocate;
use crate::replay::replay;
use crate::run::run;
use crate::split::split;
use command_io::Status;
use command_line::{Demand, WordsFault, read_words, what_is_asked_is_bounded};
use finite_cache::Caches;
use guest::runs_are_short;
use invalidations::Blame;
use layout_sweep::Sweep;
use misses::MissObservations;
use shelf::Shelf;
use std::alloc::Global;
use trace_passes::a_trace_is_its_spelling;

/// Does what is asked for.
pub fn obey<S: Shelf>(alloc: Global, demand: &Demand<'_>, shelf: &mut S) -> Status
    requires apart { HasNamesApart demand.now }
    requires bounded { IsBounded demand.now }
    ensures { Meets (Some (meaning demand.now))
        (S.outside shelf.old) (S.outside shelf.new) result }
{
    match demand {
        Demand::Replay(options) => replay(alloc, options, shelf),
        Demand::Check(options) => check(alloc, options, shelf),
        Demand::Run(options) => run(alloc, options, shelf),
        Demand::Split(options) => split(alloc, options, shelf),
        Demand::Gen(options) => generate(alloc, options, shelf),
        Demand::Convert(options) => convert(alloc, options, shelf),
        Demand::Sweep(options) => count::<S, Sweep>(alloc, shelf, options.trace, options.size),
        Demand::Caches(options) => count::<S, Caches>(alloc, shelf, options.trace, options.shape),
        Demand::Place(options) => place(alloc, options, shelf),
        Demand::Move(options) => relocate(alloc, options, shelf),
        Demand::Filter(options) => filter(alloc, options, shelf),
        Demand::Misses(options) => count::<S, MissObservations>(
            alloc,
            shelf,
            options.trace,
            options.layout,
        ),
        Demand::Blame(options) => count::<S, Blame>(alloc, shelf, options.trace, options.layout),
        Demand::Explain(options) => explain(alloc, options, shelf),
    }
}

// Does what words ask for.
fn obey_words<S: Shelf>(alloc: Global, words: &[String], shelf: &mut S) -> Status
    ensures { Meets (demand_of (texts words.now))
        (S.outside shelf.old) (S.outside shelf.new) result }
{
    match read_words(alloc, words) {
        Ok(demand) => obey(alloc, &demand, shelf),
        Err(WordsFault::Usage(_)) => refuse_words(shelf),
        Err(WordsFault::NoMemory) => refuse(alloc, shelf, Status::NoMemory),
    }
}

/// All that the program does, by the words after its name.
///
/// The words are judged first, and then the files in the order in which the command reads them:
/// the settings, the saved state, the trace or the program, the schedule. The status is `Usage`
/// exactly where the words are refused, and else the first refusal of a file, if there is one.
/// `ReadFault` comes only where reading a named file failed in this call and no file before it is
/// refused, `WriteFault` only where printing or writing a named file failed and none is refused
/// that is judged before anything is written,
/// and `NoMemory` where memory ran out, before such a fault or as the line of one was printed.
/// Where the work is done nothing failed. The settings are those of the file that is named, or the
/// usual ones, with the numbers of `--set` in the place of theirs; they are judged by themselves
/// first, and then with these numbers.
///
/// `replay` reads a trace of at most 2^44 bytes, counts its accesses in one pass under the
/// settings and the layout, and prints the report. `check` loads and places a program file of
/// at most 16 MiB under the settings, and prints its summary. `run` runs a program file under
/// the settings and a schedule of at most 1 MiB, counts its accesses as they are made, writes
/// its trace and its output where they are named, and prints the report; its status is `Done`,
/// `Budget`, `Deadlock` or `Trapped`, as the run ended. `gen` makes a trace of so many accesses
/// under a name, counts them as they are made under the usual settings, and prints what their
/// lines come to. `split` cuts a trace in two before one of its accesses, and prints how many
/// accesses each half has; `convert` writes a trace in the other version, and prints which
/// version that is and how many accesses there are. Both read a trace of at most 2^44 bytes to
/// its end and judge it, and write under their names as they read it again. `move` reads a table of
/// at most 1 MiB, of ranges and their places, and writes a trace with its accesses moved so as it
/// reads that once; it prints how many accesses there are and how many are moved. Its status is
/// `Table` where the table is refused, `Occupied` where no range has the address of an access and a
/// place has, and `Far` where the trace is filtered and a place brings a byte near an access that
/// wasn't near it. `filter` reads a trace once and writes its filtered trace, for regions of 2^near
/// bytes: it leaves out each access that its hart made before to the same word, as a write if this
/// is one, since when no other hart came near; it prints how many accesses there are and how many
/// are kept. Its status is `NoPcs` for versions 1 and 2, and `Filtered` for a filtered trace.
/// `sweep`, `caches`,
/// `misses` and `blame` pass over a whole trace: `sweep` prints what every shift of a line size
/// counts, `caches` how many of each line's invalidations are left in private caches of a shape,
/// `misses` what the sharing of each of its lines costs, and `blame` which instructions and which
/// harts took each of its lines from each other. `blame` needs the pc of each access: its status
/// is `NoPcs` exactly where the first 8 bytes are the magic of version 1 or 2, whatever is behind
/// them. `place` reads a whole trace three times: for the object that it is asked about, for who
/// touches its words, and for what the accesses come to with each word at a new place. It prints
/// these places; its status is `Place` where there is no such object, where it is too large, or
/// where the addresses have no room for the new places. `explain` makes the run that `run` makes
/// of the same files, with an eye on one line, and ends as it does; it writes no file and prints
/// which instructions and which harts took the line from each other.
pub fn predator<S: Shelf>(alloc: Global, words: &[String], shelf: &mut S) -> Status
    // It ends as the words and the files ask, or by a fault of the outside before which nothing is
    // refused: for the files that are known still, so on a disk for all contents that agree with
    // what each read of the call gave.
    ensures ends { Known (S.outside shelf.new).held
        (λ files. EndsAs (demand_of (texts words.now)) files
        (S.outside shelf.old) (S.outside shelf.new) (kind_of result) result) }
    // Usage comes exactly where the words are refused, unless memory runs out.
    ensures usage { result ≡ Status.Usage → demand_of (texts words.now) ≡ None }
    ensures refuses { demand_of (texts words.now) ≡ None →
        (result ≡ Status.Usage) ⊎ (result ≡ Status.NoMemory) }
    // A fault of the outside has its cause, and none is passed over: where the work is done no
    // number of faults has risen, and at a refusal none of reading or of writing. At want of memory
    // none has but that of printing the line that says so, unless memory ran out as the line of a
    // fault was printed: then reading or writing failed, and a front of that line stands.
    ensures caused { IsCaused (demand_of (texts words.now))
        (S.outside shelf.old) (S.outside shelf.new) (kind_of result) }
    // Want of memory is a status of its own, whoever wanted it: no file's fault is said to be want
    // of memory.
    ensures memory { hides_no_memory result ≡ false }
    // No number of faults of reading has risen, but at a fault of reading and where memory ran out
    // as its line was printed.
    ensures peace { ReadsInPeace (S.outside shelf.old) (S.outside shelf.new) (kind_of result) }
    // What is printed: the whole text where no printing failed, and a front of it where printing
    // failed or memory ran out.
    ensures prints { Prints (demand_of (texts words.now))
        (S.outside shelf.old) (S.outside shelf.new) (kind_of result) result }
    // No file that is read changes, as far as what is held is still known: a shelf's files are
    // known no more once a read gave other bytes.
    ensures held { Narrows (S.outside shelf.old).held (S.outside shelf.new).held }
    // What stands in the files that are written: every output is whole where the work is done, and
    // where printing the command's own text failed, at which no number of faults of writing has
    // risen. Where writing one failed and at want of memory the first of them, in their order, are
    // begun and each is a front of its bytes, and the others are as they were; all are as they were
    // at each other end. Copies may stand so at a fault of reading too, for their trace is read
    // twice; and where what is held isn't known still, also at a refusal. A moved trace is written
    // as the trace is read, and so is a filtered one: at a fault of reading it may stand so too,
    // and at a refusal of the trace it has all records before that, or what stays of them.
    ensures writes { Writes (demand_of (texts words.now))
        (S.outside shelf.old) (S.outside shelf.new) (kind_of result) }
    // Where a run is done, the replay of the trace that it wrote, under the same settings and
    // with no layout named, is done and prints the same text. Where a split is done, the
    // replays of its halves, one behind the other, give what the replay of the whole gives, and
    // so do those of more parts. Where `explain` is done, and a run of the same program under
    // the same settings and schedule lists a line with the base, the size and the start that it
    // was asked about, the count that it prints is the one that is listed. Where a move is done,
    // its file is read as the trace with its accesses moved, whose list is the moved list of the
    // trace's. Where a filter is done, its file is read as the filtered trace, whose list is the
    // filtered list of the trace's; and under every layout with lines of at most 2^near bytes the
    // two lists have the misses and the invalidations of each line in common, those between each
    // two harts too.
    ensures again { Known (S.outside shelf.new).held
        (λ files. WhereDone RepeatsReport (demand_of (texts words.now)) files (kind_of result)) }
    // A law of the definitions, which names neither the result nor the shelf: the run that is asked
    // for, by `run` or by `explain`, makes at most as many steps as its budget has.
    ensures within { (files : Files) → StaysWithinBudget (demand_of (texts words.now)) files }
    // Another such law.
    // Each count that a report of a run or of a whole trace lists is at most a plain recount of the
    // same line over the same accesses, under the line's own layout with tracking threshold 1, and
    // after the line's start both count alike. So it is of a trace that goes on from the state of
    // some records, over their accesses followed by its own. The places that `place` prints of an
    // object's words are all different and lie behind the accesses, words on one line have the same
    // owner, and a line of one hart's words counts nothing once the accesses have moved. What the
    // area counts then is the part of many harts, and where the object has its lines to itself, all
    // else that they counted is saved.
    ensures recounts { (files : Files) → ReportIsRecounted (demand_of (texts words.now)) files }
    // No other name's file changes.
    ensures only { OnlyAt (outputs (demand_of (texts words.now)))
        (S.outside shelf.old) (S.outside shelf.new) }
    // Where no number of faults rose it ends as it is asked, unless memory runs out.
    ensures complete { Known (S.outside shelf.new).held
        (λ files. IsComplete (demand_of (texts words.now)) files
        (S.outside shelf.old) (S.outside shelf.new) result) }
{
    runs_are_short();
    a_trace_is_its_spelling();
    what_is_asked_is_bounded();
    obey_words(alloc, words, shelf)
}
