// The two readings of a copy.
ghost use Rattle.std.specs.Prelude.{◌≡◌, ◌≢◌, ◌++◌, ℕ, List, [], Err, None, Some, take, IfErr};
ghost use Rattle.std.specs.Prelude.{IfOk, OnOk};
ghost use Rattle.std.specs.List.{All};
ghost use Rattle.shelf.specs.Agreeing.{HasShown};
ghost use Rattle.shelf.specs.Shelf.{HasRead, Narrows, Outside};
ghost use Rattle.shelf.specs.Files.{AreCut, Output};
ghost use Rattle.shelf.specs.OnTheirWay.{IsOutputs};
ghost use Rattle.trace_format.specs.declared.fault.TraceFault.TheVariants as trace_faults;
ghost use Rattle.trace_format.specs.declared.record.TraceRecord.{TraceRecord as Record};
ghost use Rattle.trace_format.specs.Rules.{IsWritable};
ghost use Rattle.trace_passes.specs.declared.wanted.Refusal.{Refusal as Refused};
ghost use Rattle.trace_passes.specs.declared.wanted.Refusal.TheVariants as refusals;
ghost use Rattle.trace_passes.specs.Passes.{HasParts, Trace, near_refusal, refusal_of};
ghost use Rattle.trace_files.specs.Copies.{HasStopped, IsJudged, IsOther, any, difference};
ghost use Rattle.trace_files.specs.Copies.{unfiltered};
ghost use Rattle.trace_files.specs.Copying.{AreAlike, IsAccepted, IsCopied, IsCutShort};
ghost use Rattle.trace_files.specs.Copying.{IsUnderWay};

use crate::CopyFault;
use crate::copy_fault::{first_fault, second_fault, write_fault};
use crate::target::Target;
use base::NoMemory;
use shelf::{Shelf, ShelfError};
use std::alloc::Global;
use trace_format::{TraceFault, TraceRecord};
use trace_passes::{Cursor, Observer, Passed, Refusal, Wanted, pass};

// Any trace will do, and no line is too wide for its regions.
pub(crate) fn any() -> Wanted
    ensures { result ≡ any }
{
    Wanted {
        harts: None,
        first: None,
        pcs: false,
        lines: Some(0),
    }
}

// Any will do that isn't filtered.
fn unfiltered() -> Wanted
    ensures { result ≡ unfiltered }
{
    Wanted {
        lines: None,
        ..any()
    }
}

// Sees nothing: the first reading judges, and its end states how many accesses there are.
#[derive(Clone, Copy)]
struct Unseeing;

impl Observer for Unseeing {
    ghost given = { λ _ _ _. Unit {0} };

    ghost known = { λ _ _. Unit {0} };

    fn note(&mut self, _item: &TraceRecord) -> Result<(), NoMemory> {
        Ok(())
    }
}

// Reads a trace and judges it.
pub(crate) fn accept<S: Shelf>(
    alloc: Global,
    shelf: &mut S,
    name: &str,
) -> Result<Passed, CopyFault>
    ensures accepted { IfOk result (λ passed. IsAccepted
        (S.outside shelf.new).held name.now passed) }
    ensures shown { IfOk result (λ passed. HasShown name.now (HasParts passed)
        (S.outside shelf.old).given (S.outside shelf.new).given) }
    ensures stays { OnOk result (HasRead (S.outside shelf.old) (S.outside shelf.new)) }
    ensures refused { (refusal : Refused) → result ≡ Err (CopyFault.Refused refusal)
        → IsJudged (S.outside shelf.new).held name.now (Some refusal) }
    ensures refused_stays { (refusal : Refused) → result ≡ Err (CopyFault.Refused refusal)
        → HasRead (S.outside shelf.old) (S.outside shelf.new) }
    ensures memory { result ≢ Err (CopyFault.Refused (refusals.Trace trace_faults.NoMemory)) }
    ensures unchanged { (refusal : Refused) → result ≢ Err (CopyFault.Changed refusal) }
    ensures unwritten { result ≢ Err CopyFault.WriteFault }
    ensures stopped { IfErr result (λ fault. (names : List (List ℕ))
        (outputs : Trace → List Output)
        → HasStopped (S.outside shelf.new).held name.now names outputs
        (S.outside shelf.old) (S.outside shelf.new) fault) }
{
    match pass(alloc, shelf, name, &unfiltered(), &mut Unseeing) {
        Ok(passed) => Ok(passed),
        Err(fault) => Err(first_fault(fault)),
    }
}

// The target gets records, one after the other.
fn put_all<S: Shelf, T: Target>(
    shelf: &mut S,
    target: &mut T,
    items: &[TraceRecord],
) -> Result<(), ShelfError>
    requires writable { All IsWritable items.now }
    requires way { IsUnderWay (T.waiting target.old) (T.files target.old) (T.has target.old)
        (S.outside shelf.old) }
    ensures files { T.files target.new ≡ T.files target.old }
    ensures has { OnOk result ((seen : List Record) → T.has target.old seen
        → T.has target.new (seen ++ items.now)) }
    ensures outputs { OnOk result ((seen : List Record) (before : Outside) → T.has target.old seen
        → IsOutputs (T.waiting target.old) (T.files target.old seen) before (S.outside shelf.old)
        → IsOutputs (T.waiting target.new) (T.files target.old (seen ++ items.now))
        before (S.outside shelf.new)) }
    ensures cut { IfErr result (λ error. (k : ℕ) × ((seen : List Record) (before : Outside)
        → T.has target.old seen
        → IsOutputs (T.waiting target.old) (T.files target.old seen) before (S.outside shelf.old)
        → AreCut (T.files target.old (seen ++ take k items.now)) before
        (S.outside shelf.new) error)) }
    ensures keeps_held { (S.outside shelf.new).held ≡ (S.outside shelf.old).held }
    ensures gives { (S.outside shelf.new).given ≡ (S.outside shelf.old).given }
{
    for item in items {
        match target.put(shelf, item) {
            Ok(()) => {}
            Err(error) => return Err(error),
        }
    }
    Ok(())
}

// Reads a trace, each of whose records the target gets.
pub(crate) fn copy_records<S: Shelf, T: Target>(
    alloc: Global,
    shelf: &mut S,
    name: &str,
    target: &mut T,
) -> Result<Passed, CopyFault>
    requires has { T.has target.old [] }
    requires way { (before : Outside)
        × IsOutputs (T.waiting target.old) (T.files target.old []) before (S.outside shelf.old) }
    ensures files { T.files target.new ≡ T.files target.old }
    ensures copied { IfOk result (λ passed. (before : Outside)
        → IsOutputs (T.waiting target.old) (T.files target.old []) before (S.outside shelf.old)
        → IsCopied (S.outside shelf.new).held name.now passed (T.files target.old)
        (T.has target.new)
        (T.waiting target.new) before (S.outside shelf.new)) }
    ensures short { IfErr result (λ fault. (before : Outside)
        → IsOutputs (T.waiting target.old) (T.files target.old []) before (S.outside shelf.old)
        → IsCutShort (S.outside shelf.new).held name.now (T.files target.old)
        before (S.outside shelf.new) fault) }
    ensures plain { IfOk result (λ passed. near_refusal None passed.header.near ≡ None) }
    ensures unrefused { (refusal : Refused) → result ≢ Err (CopyFault.Refused refusal) }
    ensures changed { (refusal : Refused) → result ≡ Err (CopyFault.Changed refusal)
        → IsJudged (S.outside shelf.new).held name.now (Some refusal) }
    ensures shown { IfOk result (λ passed. HasShown name.now (HasParts passed)
        (S.outside shelf.old).given (S.outside shelf.new).given) }
    ensures found { (refusal : Refused) → result ≡ Err (CopyFault.Changed refusal)
        → HasShown name.now (λ file. refusal_of unfiltered file ≡ Some refusal)
        (S.outside shelf.old).given (S.outside shelf.new).given }
    ensures keeps_held { Narrows (S.outside shelf.old).held (S.outside shelf.new).held }
{
    let mut cursor = match Cursor::new(alloc) {
        Ok(cursor) => cursor,
        Err(fault) => return Err(second_fault(fault)),
    };
    'pieces: loop {
        match cursor.advance(shelf, name, &unfiltered()) {
            Ok(Some(passed)) => return Ok(passed),
            Ok(None) => match put_all(shelf, target, cursor.items()) {
                Ok(()) => {}
                Err(error) => return Err(write_fault(error)),
            },
            Err(fault) => return Err(second_fault(fault)),
        }
    }
}

// How a second reading is refused beside the first, of which neither is filtered: for another
// version, header, or number of accesses.
pub(crate) fn differs(first: &Passed, second: &Passed) -> Option<Refusal>
    requires first { first.now.header.near ≡ 0 }
    requires second { second.now.header.near ≡ 0 }
    ensures value { result ≡ difference first.now second.now }
    ensures alike { result ≡ None → AreAlike first.now second.now }
    ensures other { first.now ≡ second.now → result ≡ None }
{
    let (stated, counted) = (first.ending.accesses, second.ending.accesses);
    if first.version != second.version {
        Some(Refusal::Trace(TraceFault::BadMagic))
    } else if first.header.harts != second.header.harts {
        Some(Refusal::Harts)
    } else if first.header.first != second.header.first {
        Some(Refusal::Position {
            saved: first.header.first,
            first: second.header.first,
        })
    } else if stated != counted {
        Some(Refusal::Trace(TraceFault::CountMismatch { stated, counted }))
    } else {
        None
    }
}

// Reads an accepted trace again, each of whose records the target gets.
pub(crate) fn copy_again<S: Shelf, T: Target>(
    alloc: Global,
    shelf: &mut S,
    name: &str,
    first: &Passed,
    target: &mut T,
) -> Result<Passed, CopyFault>
    requires accepted { IsAccepted (S.outside shelf.old).held name.now first.now }
    requires has { T.has target.old [] }
    requires way { (before : Outside)
        × IsOutputs (T.waiting target.old) (T.files target.old []) before (S.outside shelf.old) }
    ensures files { T.files target.new ≡ T.files target.old }
    ensures alike { IfOk result (λ passed. AreAlike first.now passed) }
    ensures copied { IfOk result (λ passed. (before : Outside)
        → IsOutputs (T.waiting target.old) (T.files target.old []) before (S.outside shelf.old)
        → IsCopied (S.outside shelf.new).held name.now passed (T.files target.old)
        (T.has target.new)
        (T.waiting target.new) before (S.outside shelf.new)) }
    ensures short { IfErr result (λ fault. (before : Outside)
        → IsOutputs (T.waiting target.old) (T.files target.old []) before (S.outside shelf.old)
        → IsCutShort (S.outside shelf.new).held name.now (T.files target.old)
        before (S.outside shelf.new) fault) }
    ensures unrefused { (refusal : Refused) → result ≢ Err (CopyFault.Refused refusal) }
    ensures changed { (refusal : Refused) → result ≡ Err (CopyFault.Changed refusal)
        → (S.outside shelf.new).held ≡ None }
    ensures other { (refusal : Refused) → result ≡ Err (CopyFault.Changed refusal)
        → IsOther name.now first.now refusal (S.outside shelf.old).given
        (S.outside shelf.new).given }
{
    let second = match copy_records(alloc, shelf, name, target) {
        Ok(passed) => passed,
        Err(fault) => return Err(fault),
    };
    match differs(first, &second) {
        Some(refusal) => Err(CopyFault::Changed(refusal)),
        None => Ok(second),
    }
}
