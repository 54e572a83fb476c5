// A whole run, recorded.
ghost use Rattle.std.specs.Prelude.{◌≡◌, ◌+◌, ◌*◌, ◌/◌, ◌≤◌, ◌^◌, ◌++◌, ◌∷◌, [], List, ℕ};
ghost use Rattle.std.specs.Prelude.{IfOk, IfErr, OnOk, length};
ghost use Rattle.std.specs.List.{All};
ghost use Rattle.shelf.specs.Shelf.{Outside};
ghost use Rattle.shelf.specs.Files.{AreCut, AreWritten};
ghost use Rattle.shelf.specs.OnTheirWay.{AreApart, AreBegun, IsOutputs};
ghost use Rattle.shelf.specs.OnTheirWay.{names_of as waiting_names};
ghost use Rattle.trace_format.specs.Writing.{begin_writing};
ghost use Rattle.trace_format.specs.declared.record.Version.{Version as AVersion};
ghost use Rattle.trace_format.specs.Rules.{IsAllowedEnd, IsGoodRecord};
ghost use Rattle.trace_format.specs.declared.record.TraceRecord.{TraceRecord as ARecord};
ghost use Rattle.trace_format.specs.declared.record.TraceRecord.TheVariants as records;
ghost use Rattle.trace_passes.specs.Passes.{all_records};
ghost use Rattle.trace_passes.specs.Rooms.{HasRoom};
ghost use Rattle.guest.specs.SeenTurns.{IsEndOf};
ghost use Rattle.guest.specs.Runs.{IsShort, output_of, rest_of};
ghost use Rattle.run_recorder.specs.Recorded.{end_for, IsKept, IsSymbolRecord, names_of, outputs_for};
ghost use Rattle.run_recorder.specs.Recorded.{outputs_of, records_in, trace_for};
ghost use Rattle.run_recorder.specs.Recording.{AreCutAfter, AreNoted, HasStarted, bytes_so_far};

use crate::files::begin;
use crate::notes::note_record;
use crate::run_file::RunFile;
use crate::showing::code_to_show;
use crate::speller::Speller;
use crate::touches::{note_touches, note_turn};
use base::Ending;
use guest::{Guest, Touches, Turn};
use shelf::{RunShown, Shelf, ShelfError};
use std::alloc::Global;
use trace_files::TraceOutputs;
use trace_format::{TraceEnd, TraceRecord, Version};
use trace_passes::Observer;

// Notes the symbols of the program, in their order.
fn note_symbols<S: Shelf, O: Observer>(
    shelf: &mut S,
    files: &[RunFile<'_>],
    outputs: &mut TraceOutputs<'_>,
    speller: &mut Speller,
    observer: &mut O,
    symbols: &[TraceRecord],
) -> Result<(), ShelfError>
    requires paired { length outputs.old ≡ length files.now }
    requires begun { AreBegun (waiting_names outputs.old) (S.outside shelf.old) }
    requires symbols { All IsSymbolRecord symbols.now }
    requires begins { O.begins observer.old 0 }
    requires fresh { O.given observer.old observer.old [] }
    ensures given { OnOk result (O.given observer.old observer.new symbols.now) }
    ensures noted { OnOk result ((v : AVersion) (harts : ℕ) (before : Outside)
        → AreNoted v harts [] [] files.now outputs.old speller.old.writer before
        (S.outside shelf.old)
        → AreNoted v harts symbols.now [] files.now outputs.new speller.new.writer before
        (S.outside shelf.new)) }
    ensures cut { IfErr result (λ error. (v : AVersion) (harts : ℕ) (before : Outside)
        → AreNoted v harts [] [] files.now outputs.old speller.old.writer before
        (S.outside shelf.old)
        → AreCutAfter v harts symbols.now [] files.now before (S.outside shelf.new) error) }
    ensures begun { OnOk result (AreBegun (waiting_names outputs.new) (S.outside shelf.new)) }
    ensures count { length outputs.new ≡ length outputs.old }
{
    for place in 0..symbols.len() {
        match note_record(shelf, files, outputs, speller, observer, &symbols[place]) {
            Ok(()) => {}
            Err(error) => return Err(error),
        }
    }
    Ok(())
}

// After how many steps the shelf hears of them again.
const STRIDE: u64 = 1 << 20;

// The number of steps at which the shelf hears of them next.
fn next_shown(made: u64) -> u64
    requires { made ≤ 2 ^ 36 }
    ensures { result ≡ (made / 2 ^ 20 + 1) * 2 ^ 20 }
{
    (made / STRIDE + 1) * STRIDE
}

// Lets the shelf hear now and then how many steps are made.
#[inline(always)]
fn show_steps<S: Shelf>(shelf: &mut S, guest: &Guest)
    ensures { S.outside shelf.new ≡ S.outside shelf.old }
{
    let made = guest.steps();
    if made % STRIDE == 0 {
        shelf.show_steps(made, guest.budget());
    }
}

// Lets the shelf show that the latest hart that was to start found none free, and an exit code that
// isn't 0.
fn show_end<S: Shelf>(shelf: &mut S, guest: &Guest)
    ensures { S.outside shelf.new ≡ S.outside shelf.old }
{
    if guest.lacks_hart() {
        shelf.show_run(RunShown::NoFreeHart(guest.harts()));
    }
    if let Some(shown) = code_to_show(guest.ending()) {
        shelf.show_run(shown);
    }
}

// Runs the guest to its end, and notes each step after the records that were noted before, which
// have no access. What the guest puts by is of the steps before the last.
#[tactic(auto, unfolding(crate::specs::Recording::IsRecorded))]
fn follow<S: Shelf, O: Observer>(
    shelf: &mut S,
    files: &[RunFile<'_>],
    guest: &mut Guest,
    outputs: &mut TraceOutputs<'_>,
    speller: &mut Speller,
    observer: &mut O,
    version: Version,
    touches: &mut Touches,
) -> Result<Ending, ShelfError>
    requires paired { length outputs.old ≡ length files.now }
    requires budget { guest.old.setup.budget ≤ 2 ^ 36 }
    requires begun { AreBegun (waiting_names outputs.old) (S.outside shelf.old) }
    requires started { HasStarted O.begins O.given observer.old }
    ensures ending { IfOk result (λ ending. ending ≡ (rest_of guest.old).ending) }
    ensures end { IfOk result (λ ending. IsEndOf guest.old.setup.harts ending.outcome) }
    ensures accesses { IfOk result (λ ending. ending.accesses ≤ ending.steps) }
    ensures steps { IfOk result (λ ending. ending.steps ≤ 2 ^ 36) }
    ensures given { OnOk result ((begun : O) (earlier : List ARecord)
        → O.given begun observer.old earlier
        → O.given begun observer.new (earlier ++ records_in version (rest_of guest.old).events)) }
    ensures good { OnOk result
        (All (IsGoodRecord version guest.old.setup.harts)
        (records_in version (rest_of guest.old).events)) }
    ensures noted { OnOk result ((earlier : List ARecord) (before : Outside)
        → AreNoted version guest.old.setup.harts earlier [] files.now outputs.old
        speller.old.writer before (S.outside shelf.old)
        → AreNoted version guest.old.setup.harts
        (earlier ++ records_in version (rest_of guest.old).events)
        (output_of (rest_of guest.old)) files.now outputs.new speller.new.writer before
        (S.outside shelf.new)) }
    ensures cut { IfErr result (λ error. (earlier : List ARecord) (before : Outside)
        → AreNoted version guest.old.setup.harts earlier [] files.now outputs.old
        speller.old.writer before (S.outside shelf.old)
        → AreCut (outputs_for version guest.old.setup.harts earlier (rest_of guest.old) files.now)
        before (S.outside shelf.new) error) }
    ensures begun { OnOk result (AreBegun (waiting_names outputs.new) (S.outside shelf.new)) }
    ensures count { length outputs.new ≡ length outputs.old }
{
    show_steps(shelf, guest);
    'turns: loop {
        match guest.run_on(next_shown(guest.steps()), touches) {
            Ok(Turn::Ran(event)) => match note_turn(
                shelf,
                files,
                outputs,
                speller,
                observer,
                guest,
                version,
                touches.all(),
                event,
            ) {
                // (last in the loop, so that a step that nothing is seen of asks for no error)
                Ok(()) => show_steps(shelf, guest),
                Err(error) => return Err(error),
            },
            Ok(Turn::Ended(outcome)) => {
                let ending = Ending {
                    outcome,
                    steps: guest.steps(),
                    accesses: guest.accesses(),
                };
                return match note_touches(
                    shelf,
                    files,
                    outputs,
                    speller,
                    observer,
                    version,
                    touches.all(),
                ) {
                    Ok(()) => Ok(ending),
                    Err(error) => Err(error),
                };
            }
            Err(_) => return Err(ShelfError::NoMemory),
        }
    }
}

// Notes the end, and appends what still waits to the files.
fn end<S: Shelf, O: Observer>(
    shelf: &mut S,
    files: &[RunFile<'_>],
    outputs: &mut TraceOutputs<'_>,
    speller: &mut Speller,
    observer: &mut O,
    ending: &TraceEnd,
) -> Result<(), ShelfError>
    requires paired { length outputs.old ≡ length files.now }
    requires begun { AreBegun (waiting_names outputs.old) (S.outside shelf.old) }
    requires allowed { IsAllowedEnd ending.now.steps ending.now.outcome }
    requires room { HasRoom O.begins O.given observer.old (records.End ending.now ∷ []) }
    ensures given { OnOk result ((begun : O) (earlier : List ARecord)
        → O.given begun observer.old earlier
        → O.given begun observer.new (earlier ++ records.End ending.now ∷ [])) }
    ensures written { OnOk result
        ((v : AVersion) (harts : ℕ) (items : List ARecord) (put : List ℕ) (before : Outside)
        → AreNoted v harts items put files.now outputs.old speller.old.writer before
        (S.outside shelf.old)
        → AreWritten
        (outputs_of files.now (bytes_so_far v harts (items ++ records.End ending.now ∷ []) put))
        before (S.outside shelf.new)) }
    ensures cut { IfErr result (λ error. (v : AVersion) (harts : ℕ) (items : List ARecord)
        (put : List ℕ) (before : Outside)
        → AreNoted v harts items put files.now outputs.old speller.old.writer before
        (S.outside shelf.old)
        → AreCutAfter v harts (items ++ records.End ending.now ∷ []) put files.now before
        (S.outside shelf.new) error) }
{
    match note_record(
        shelf,
        files,
        outputs,
        speller,
        observer,
        &TraceRecord::End(*ending),
    ) {
        Ok(()) => outputs.finish(shelf),
        Err(error) => Err(error),
    }
}

// The end of a trace that leaves out no access of a run.
fn end_for(version: Version, ending: &Ending) -> TraceEnd
    ensures { result ≡ end_for version ending.now }
{
    let end = TraceEnd::of(ending);
    match version {
        Version::One | Version::Two | Version::Three => end,
        Version::Four => TraceEnd {
            whole: Some(end.accesses),
            ..end
        },
    }
}

// Records a run whose guest, files on their way and observer are another's. No file is begun yet.
fn note_run<'a, S: Shelf, O: Observer>(
    alloc: Global,
    shelf: &mut S,
    files: &[RunFile<'a>],
    guest: &mut Guest,
    outputs: &mut TraceOutputs<'a>,
    speller: &mut Speller,
    observer: &mut O,
    symbols: &[TraceRecord],
    version: Version,
    touches: &mut Touches,
) -> Result<Ending, ShelfError>
    requires none { (outside : Outside) → IsOutputs outputs.old [] outside outside }
    requires writer { speller.old.writer ≡ begin_writing version }
    requires apart { AreApart (names_of files.now) }
    requires begins { O.begins observer.old 0 }
    requires fresh { O.given observer.old observer.old [] }
    requires symbols { All IsSymbolRecord symbols.now }
    requires few { length symbols.now ≤ 2 ^ 20 }
    requires short { IsShort guest.old.setup (rest_of guest.old) }
    requires budget { guest.old.setup.budget ≤ 2 ^ 36 }
    requires some { 1 ≤ guest.old.setup.harts }
    requires most { guest.old.setup.harts ≤ 256 }
    ensures ending { IfOk result (λ ending. ending ≡ (rest_of guest.old).ending) }
    ensures given { OnOk result (O.given observer.old observer.new
        (all_records (trace_for version guest.old.setup.harts symbols.now (rest_of guest.old)))) }
    ensures good { OnOk result
        (IsKept (trace_for version guest.old.setup.harts symbols.now (rest_of guest.old))) }
    ensures written { OnOk result
        (AreWritten
        (outputs_for version guest.old.setup.harts symbols.now (rest_of guest.old) files.now)
        (S.outside shelf.old) (S.outside shelf.new)) }
    ensures cut { IfErr result (λ error.
        AreCut (outputs_for version guest.old.setup.harts symbols.now (rest_of guest.old) files.now)
        (S.outside shelf.old) (S.outside shelf.new) error) }
{
    match begin(alloc, shelf, version, guest.harts(), files, outputs) {
        Ok(()) => {}
        Err(error) => return Err(error),
    }
    match note_symbols(shelf, files, outputs, speller, observer, symbols) {
        Ok(()) => {}
        Err(error) => return Err(error),
    }
    let ending = match follow(
        shelf, files, guest, outputs, speller, observer, version, touches,
    ) {
        Ok(ending) => ending,
        Err(error) => return Err(error),
    };
    let last = end_for(version, &ending);
    match end(shelf, files, outputs, speller, observer, &last) {
        Ok(()) => Ok(ending),
        Err(error) => Err(error),
    }
}

/// Runs a guest to its end. The observer sees each record of the run's trace in this version, the
/// end last: the symbols, and then what is recorded of each step, an access of version 3 with its
/// pc. The files are written while the run goes on, each with what its content says. Output that no
/// file gets is shown to the shelf as it comes, and once the files are written how the guest ended,
/// where its exit code isn't 0 or it lacks a hart.
///
/// The guest is one that has made no step, of 1 to 256 harts, as `Guest::new` gives it, with a
/// budget of at most 2^36. There are at most 2^20 symbols. The observer was given nothing. No two
/// files have one name.
///
/// At an error the first files, in their order, are begun, each a front of what it would be, and the
/// others are as they were. `Failed` comes only where the faults of writing one of the names rose,
/// `NoMemory` for want of memory.
pub fn record_run<S: Shelf, O: Observer>(
    alloc: Global,
    shelf: &mut S,
    mut guest: Guest,
    observer: &mut O,
    symbols: &[TraceRecord],
    version: Version,
    files: &[RunFile<'_>],
) -> Result<Ending, ShelfError>
    requires apart { AreApart (names_of files.now) }
    requires begins { O.begins observer.old 0 }
    requires fresh { O.given observer.old observer.old [] }
    requires symbols { All IsSymbolRecord symbols.now }
    requires few { length symbols.now ≤ 2 ^ 20 }
    requires short { IsShort guest.setup (rest_of guest) }
    requires budget { guest.setup.budget ≤ 2 ^ 36 }
    requires some { 1 ≤ guest.setup.harts }
    requires most { guest.setup.harts ≤ 256 }
    // the end is that of the run, and the observer has seen each record of its trace
    ensures ending { IfOk result (λ ending. ending ≡ (rest_of guest).ending) }
    ensures given { OnOk result (O.given observer.old observer.new
        (all_records (trace_for version guest.setup.harts symbols.now (rest_of guest)))) }
    // the trace keeps the rules of the format
    ensures good { OnOk result
        (IsKept (trace_for version guest.setup.harts symbols.now (rest_of guest))) }
    // what is written, at an error too
    ensures written { OnOk result
        (AreWritten (outputs_for version guest.setup.harts symbols.now (rest_of guest) files.now)
        (S.outside shelf.old) (S.outside shelf.new)) }
    ensures cut { IfErr result
        (λ error. AreCut
        (outputs_for version guest.setup.harts symbols.now (rest_of guest) files.now)
        (S.outside shelf.old) (S.outside shelf.new) error) }
{
    let mut outputs = TraceOutputs::new(alloc);
    let mut speller = Speller::new(alloc, version);
    let mut touches = match Touches::new(alloc) {
        Ok(touches) => touches,
        Err(_) => return Err(ShelfError::NoMemory),
    };
    let ended = note_run(
        alloc,
        shelf,
        files,
        &mut guest,
        &mut outputs,
        &mut speller,
        observer,
        symbols,
        version,
        &mut touches,
    );
    show_end(shelf, &guest);
    ended
}
