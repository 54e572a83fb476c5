// A trace cut in two at an access.
ghost use Rattle.std.specs.Prelude.{◌≡◌, ◌≢◌, ◌∷◌, ◌-◌, List, [], Err, None, Some, min};
ghost use Rattle.std.specs.Prelude.{IfErr, IfOk, OnOk, length};
ghost use Rattle.shelf.specs.Shelf.{HasRead, Outside};
ghost use Rattle.shelf.specs.Files.{AreCut, AreWritten, Output};
ghost use Rattle.shelf.specs.OnTheirWay.{AreBegun, IsOutputs, names_of, outputs_with};
ghost use Rattle.trace_format.specs.declared.fault.TraceFault.TheVariants as trace_faults;
ghost use Rattle.trace_format.specs.Rules.{IsAllowedEnd, IsGoodHeader, touches_in};
ghost use Rattle.trace_format.specs.Spelling.{spell_ending};
ghost use Rattle.trace_passes.specs.declared.wanted.Refusal.{Refusal as Refused};
ghost use Rattle.trace_passes.specs.declared.wanted.Refusal.TheVariants as refusals;
ghost use Rattle.trace_format.specs.Splits.{HasSeen, headers_of};
ghost use Rattle.trace_files.specs.Copies.{IsUnfiltered, HasCopied, HasStopped, IsJudged, StaysWhereRefused};
ghost use Rattle.trace_files.specs.Copies.{IsOther, halves};
ghost use Rattle.trace_files.specs.Copying.{HasChanged, HasSplit, IsAccepted, halves_so_far};

use crate::CopyFault;
use crate::copy::{accept, copy_again};
use crate::copy_fault::write_fault;
use crate::target::Target;
use crate::trace_outputs::TraceOutputs;
use shelf::{Shelf, ShelfError};
use std::alloc::Global;
use trace_format::{
    Side, Splitter, TraceEnd, TraceRecord, TraceWriter, Version, a_trace_is_cut_in_two,
};
use trace_passes::Passed;

/// How many accesses each half of a trace has.
#[derive(Clone, Copy, PartialEq, Eq, Debug)]
pub struct Halves {
    /// Those before the cut.
    pub cut: u64,
    /// Those from the cut on.
    pub rest: u64,
}

// The files of two halves on their way.
#[derive(Drop)]
struct Splitting<'a> {
    first: &'a str,
    second: &'a str,
    version: Version,
    splitter: Splitter,
    first_writer: TraceWriter,
    second_writer: TraceWriter,
    files: TraceOutputs<'a>,
}

impl<'a> Target for Splitting<'a> {
    ghost waiting = { λ s. s.files };

    ghost files = { λ s. halves_so_far s.first.now s.second.now s.version s.splitter };

    ghost has = { λ s seen. HasSplit s seen };

    fn put<S: Shelf>(&mut self, shelf: &mut S, item: &TraceRecord) -> Result<(), ShelfError> {
        a_trace_is_cut_in_two();
        match self.splitter.side(item) {
            Side::First => self
                .files
                .put_record(shelf, 0, &mut self.first_writer, item),
            Side::Second => self
                .files
                .put_record(shelf, 1, &mut self.second_writer, item),
            Side::Neither => Ok(()),
        }
    }
}

impl<'a> Splitting<'a> {
    // Puts an end into each file, and writes what waits.
    fn finish<S: Shelf>(
        &mut self,
        shelf: &mut S,
        version: Version,
        first: TraceEnd,
        second: TraceEnd,
    ) -> Result<(), ShelfError>
        requires count { length self.old.files ≡ 2 }
        requires begun { AreBegun (names_of self.old.files) (S.outside shelf.old) }
        requires first { IsAllowedEnd first.steps first.outcome }
        requires second { IsAllowedEnd second.steps second.outcome }
        ensures written { OnOk result ((outputs : List Output) (before : Outside)
            → IsOutputs self.old.files outputs before (S.outside shelf.old)
            → AreWritten (outputs_with (outputs_with outputs 0 (spell_ending version first)) 1
            (spell_ending version second)) before (S.outside shelf.new)) }
        ensures cut { IfErr result (λ error. (outputs : List Output) (before : Outside)
            → IsOutputs self.old.files outputs before (S.outside shelf.old)
            → AreCut (outputs_with (outputs_with outputs 0 (spell_ending version first)) 1
            (spell_ending version second)) before (S.outside shelf.new) error) }
        ensures keeps_held { (S.outside shelf.new).held ≡ (S.outside shelf.old).held }
    {
        let (first, second) = (TraceRecord::End(first), TraceRecord::End(second));
        // No end is spelled against the records before it.
        let mut first_writer = TraceWriter::new(version);
        let mut second_writer = TraceWriter::new(version);
        match self.files.put_record(shelf, 0, &mut first_writer, &first) {
            Ok(()) => {}
            Err(error) => return Err(error),
        }
        match self.files.put_record(shelf, 1, &mut second_writer, &second) {
            Ok(()) => {}
            Err(error) => return Err(error),
        }
        self.files.finish(shelf)
    }
}

// Begins both files, and puts its header into each.
fn begin<'a, S: Shelf>(
    alloc: Global,
    shelf: &mut S,
    first: &'a str,
    second: &'a str,
    version: Version,
    splitter: Splitter,
) -> Result<Splitting<'a>, ShelfError>
    requires apart { first.now ≢ second.now }
    requires first { IsGoodHeader (headers_of splitter).0 }
    requires second { IsGoodHeader (headers_of splitter).1 }
    requires seen { HasSeen [] splitter }
    ensures files { IfOk result (λ s. halves_so_far s.first.now s.second.now s.version s.splitter
        ≡ halves_so_far first.now second.now version splitter) }
    ensures has { IfOk result (λ s. HasSplit s []) }
    ensures outputs { IfOk result (λ s. IsOutputs s.files
        (halves_so_far first.now second.now version splitter [])
        (S.outside shelf.old) (S.outside shelf.new)) }
    ensures cut { IfErr result (λ error. AreCut
        (halves_so_far first.now second.now version splitter [])
        (S.outside shelf.old) (S.outside shelf.new) error) }
    ensures gives { (S.outside shelf.new).given ≡ (S.outside shelf.old).given }
{
    let (before, after) = splitter.headers();
    let mut files = TraceOutputs::new(alloc);
    let first_writer = match files.begin_trace(alloc, shelf, 0, first, version, before) {
        Ok(writer) => writer,
        Err(error) => return Err(error),
    };
    match files.begin_trace(alloc, shelf, 1, second, version, after) {
        Ok(second_writer) => Ok(Splitting {
            first,
            second,
            version,
            splitter,
            first_writer,
            second_writer,
            files,
        }),
        Err(error) => Err(error),
    }
}

// Cuts an accepted trace in two.
fn split_accepted<'a, S: Shelf>(
    alloc: Global,
    shelf: &mut S,
    name: &str,
    at: u64,
    first: &'a str,
    second: &'a str,
    passed: &Passed,
) -> Result<Halves, CopyFault>
    requires apart { first.now ≢ second.now }
    requires accepted { IsAccepted (S.outside shelf.old).held name.now passed.now }
    ensures copied { IfOk result (λ made. HasCopied (S.outside shelf.new).held name.now
        (halves at first.now second.now)
        (λ t. (made.cut ≡ min at (length (touches_in t.items)))
        × (made.rest ≡ length (touches_in t.items) - made.cut) × IsUnfiltered t)
        (S.outside shelf.old) (S.outside shelf.new)) }
    ensures unrefused { (refusal : Refused) → result ≢ Err (CopyFault.Refused refusal) }
    ensures changed { (refusal : Refused) → result ≡ Err (CopyFault.Changed refusal)
        → (S.outside shelf.new).held ≡ None }
    ensures other { (refusal : Refused) → result ≡ Err (CopyFault.Changed refusal)
        → IsOther name.now passed.now refusal (S.outside shelf.old).given
        (S.outside shelf.new).given }
    ensures stopped { IfErr result (λ fault. HasStopped (S.outside shelf.new).held name.now
        (first.now ∷ second.now ∷ []) (halves at first.now second.now) (S.outside shelf.old)
        (S.outside shelf.new) fault) }
{
    a_trace_is_cut_in_two();
    let splitter = Splitter::new(passed.header, passed.ending.accesses, at);
    let mut target = match begin(alloc, shelf, first, second, passed.version, splitter) {
        Ok(target) => target,
        Err(error) => return Err(write_fault(error)),
    };
    let again = match copy_again(alloc, shelf, name, passed, &mut target) {
        Ok(again) => again,
        Err(fault) => return Err(fault),
    };
    let (before, after) = splitter.endings(again.ending);
    let (cut, rest) = (before.accesses, after.accesses);
    match target.finish(shelf, passed.version, before, after) {
        Ok(()) => Ok(Halves { cut, rest }),
        Err(error) => Err(write_fault(error)),
    }
}

/// Cuts a trace in two at access number `at`, counted from 0, or at its end where it has fewer.
///
/// The half before the cut goes to `first`: its end is that of a part, with no steps and as many
/// accesses as the half has. The half from that access on goes to `second`: its header has the
/// position of that access, and it ends as the whole. The version stays.
///
/// The trace is read twice in pieces, and no more of it is kept than a piece has. The outputs are
/// begun, the first and then the second, only once a first reading was accepted. At an error after
/// that each is as it was, or a front of what it would be, and the second is as it was unless the
/// first is begun. `Refused` comes exactly where a pass refuses the trace, `ReadFault` only where
/// the faults of reading its name rose, `WriteFault` only where those of writing an output rose.
/// The condition is that the outputs have two names.
pub fn split_trace<S: Shelf>(
    alloc: Global,
    shelf: &mut S,
    name: &str,
    at: u64,
    first: &str,
    second: &str,
) -> Result<Halves, CopyFault>
    requires apart { first.now ≢ second.now }
    // The files are the halves of the trace that the name's bytes are.
    ensures copied { IfOk result (λ made. HasCopied (S.outside shelf.new).held name.now
        (halves at first.now second.now)
        (λ t. (made.cut ≡ min at (length (touches_in t.items)))
        × (made.rest ≡ length (touches_in t.items) - made.cut) × IsUnfiltered t)
        (S.outside shelf.old) (S.outside shelf.new)) }
    ensures memory { result ≢ Err (CopyFault.Refused (refusals.Trace trace_faults.NoMemory)) }
    // At a refusal the trace was read, and neither half is begun.
    ensures refused { (refusal : Refused) → result ≡ Err (CopyFault.Refused refusal)
        → IsJudged (S.outside shelf.new).held name.now (Some refusal) }
    ensures stays { (refusal : Refused) → result ≡ Err (CopyFault.Refused refusal)
        → HasRead (S.outside shelf.old) (S.outside shelf.new) }
    // A second reading is refused as no trace, or beside the first: for its version, its number of
    // harts, its first position, or its number of accesses. What its reads have given is refused so,
    // and no files are known then, or no more.
    ensures changed { (refusal : Refused) → result ≡ Err (CopyFault.Changed refusal)
        → (S.outside shelf.new).held ≡ None }
    ensures other { (refusal : Refused) → result ≡ Err (CopyFault.Changed refusal)
        → HasChanged name.now refusal (S.outside shelf.old).given (S.outside shelf.new).given }
    // Only an accepted trace is written, whatever the fault.
    ensures accepted { result ≡ Err CopyFault.WriteFault
        → IsJudged (S.outside shelf.new).held name.now None }
    ensures begun { IfErr result (λ fault. StaysWhereRefused (S.outside shelf.new).held name.now
        (S.outside shelf.old) (S.outside shelf.new)) }
    ensures stopped { IfErr result (λ fault. HasStopped (S.outside shelf.new).held name.now
        (first.now ∷ second.now ∷ []) (halves at first.now second.now) (S.outside shelf.old)
        (S.outside shelf.new) fault) }
{
    match accept(alloc, shelf, name) {
        Ok(passed) => split_accepted(alloc, shelf, name, at, first, second, &passed),
        Err(fault) => Err(fault),
    }
}
