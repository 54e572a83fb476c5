// A trace, made and written.
ghost use Rattle.std.specs.Prelude.{◌≡◌, ◌≤◌, ◌^◌, ◌++◌, ◌∷◌, [], List, IfErr, OnOk};
ghost use Rattle.shelf.specs.Shelf.{Outside};
ghost use Rattle.shelf.specs.Files.{AreCut, AreWritten};
ghost use Rattle.trace_format.specs.Rules.{IsWritable};
ghost use Rattle.trace_format.specs.declared.record.TraceRecord.{TraceRecord as ARecord};
ghost use Rattle.trace_format.specs.declared.record.TraceRecord.TheVariants as records;
ghost use Rattle.trace_passes.specs.Passes.{all_records};
ghost use Rattle.trace_passes.specs.Rooms.{HasRoom};
ghost use Rattle.trace_files.specs.Copying.{IsUnderWay};
ghost use Rattle.trace_files.specs.Made.{made, made_file, made_items};
ghost use Rattle.trace_files.specs.OneTrace.{HasPut, IsOnItsWay, so_far};

use crate::numbers::{FIRST_STATE, access_at, next_state};
use crate::target::Target;
use crate::trace_file::TraceFile;
use base::Outcome;
use shelf::{Shelf, ShelfError};
use std::alloc::Global;
use trace_format::{Header, TraceEnd, TraceRecord, Version};
use trace_passes::Observer;

// After how many accesses what waits is appended: with the header and the end it is less than
// 64 KiB, so that no piece has more.
const PIECE: u64 = 8000;

// A record: the observer sees it, and the file gets it.
#[inline]
fn note_record<S: Shelf, O: Observer>(
    shelf: &mut S,
    file: &mut TraceFile<'_>,
    observer: &mut O,
    item: &TraceRecord,
) -> Result<(), ShelfError>
    requires way { IsUnderWay file.old.files (so_far file.old) (HasPut file.old)
        (S.outside shelf.old) }
    requires writable { IsWritable item.now }
    requires room { HasRoom O.begins O.given observer.old (item.now ∷ []) }
    ensures given { OnOk result ((begun : O) (earlier : List ARecord)
        → O.given begun observer.old earlier
        → O.given begun observer.new (earlier ++ item.now ∷ [])) }
    ensures files { so_far file.new ≡ so_far file.old }
    ensures noted { OnOk result ((items : List ARecord) (before : Outside)
        → IsOnItsWay file.old items before (S.outside shelf.old)
        → IsOnItsWay file.new (items ++ item.now ∷ []) before (S.outside shelf.new)) }
    ensures cut { IfErr result (λ error. (items : List ARecord) (before : Outside)
        → IsOnItsWay file.old items before (S.outside shelf.old)
        → AreCut (so_far file.old (items ++ item.now ∷ [])) before (S.outside shelf.new) error) }
{
    match observer.note(item) {
        Ok(()) => file.put(shelf, item),
        Err(_) => Err(ShelfError::NoMemory),
    }
}

// Appends what waits where so many accesses fill a piece.
#[inline]
fn append_full_piece<S: Shelf>(
    shelf: &mut S,
    file: &mut TraceFile<'_>,
    accesses: u64,
) -> Result<(), ShelfError>
    requires way { IsUnderWay file.old.files (so_far file.old) (HasPut file.old)
        (S.outside shelf.old) }
    ensures files { so_far file.new ≡ so_far file.old }
    ensures noted { OnOk result ((items : List ARecord) (before : Outside)
        → IsOnItsWay file.old items before (S.outside shelf.old)
        → IsOnItsWay file.new items before (S.outside shelf.new)) }
    ensures cut { IfErr result (λ error. (items : List ARecord) (before : Outside)
        → IsOnItsWay file.old items before (S.outside shelf.old)
        → AreCut (so_far file.old items) before (S.outside shelf.new) error) }
{
    if accesses % PIECE == 0 {
        file.finish(shelf)
    } else {
        Ok(())
    }
}

// Makes the accesses, one after the other, and notes each.
fn note_accesses<S: Shelf, O: Observer>(
    shelf: &mut S,
    file: &mut TraceFile<'_>,
    observer: &mut O,
    count: u64,
) -> Result<(), ShelfError>
    requires few { count ≤ 10 ^ 9 }
    requires way { IsUnderWay file.old.files (so_far file.old) (HasPut file.old)
        (S.outside shelf.old) }
    requires begins { O.begins observer.old 0 }
    requires fresh { O.given observer.old observer.old [] }
    ensures given { OnOk result (O.given observer.old observer.new (made_items count)) }
    ensures files { so_far file.new ≡ so_far file.old }
    ensures noted { OnOk result ((before : Outside)
        → IsOnItsWay file.old [] before (S.outside shelf.old)
        → IsOnItsWay file.new (made_items count) before (S.outside shelf.new)) }
    ensures cut { IfErr result (λ error. (before : Outside)
        → IsOnItsWay file.old [] before (S.outside shelf.old)
        → AreCut (so_far file.old (made_items count)) before (S.outside shelf.new) error) }
    ensures way { OnOk result (IsUnderWay file.new.files (so_far file.new) (HasPut file.new)
        (S.outside shelf.new)) }
{
    let mut state = FIRST_STATE;
    for place in 0..count {
        let next = next_state(state);
        let access = access_at(next);
        match note_record(shelf, file, observer, &TraceRecord::Touch(access, None)) {
            Ok(()) => {}
            Err(error) => return Err(error),
        }
        match append_full_piece(shelf, file, place + 1) {
            Ok(()) => {}
            Err(error) => return Err(error),
        }
        state = next;
    }
    Ok(())
}

// Notes the end, and appends what still waits to the file.
fn end<S: Shelf, O: Observer>(
    shelf: &mut S,
    file: &mut TraceFile<'_>,
    observer: &mut O,
    count: u64,
) -> Result<(), ShelfError>
    requires way { IsUnderWay file.old.files (so_far file.old) (HasPut file.old)
        (S.outside shelf.old) }
    requires room { HasRoom O.begins O.given observer.old (records.End (made count).ending ∷ []) }
    ensures given { OnOk result ((begun : O) → O.given begun observer.old (made_items count)
        → O.given begun observer.new (all_records (made count))) }
    ensures written { OnOk result ((before : Outside)
        → IsOnItsWay file.old (made_items count) before (S.outside shelf.old)
        → AreWritten (so_far file.old (all_records (made count))) before (S.outside shelf.new)) }
    ensures cut { IfErr result (λ error. (before : Outside)
        → IsOnItsWay file.old (made_items count) before (S.outside shelf.old)
        → AreCut (so_far file.old (all_records (made count))) before
        (S.outside shelf.new) error) }
{
    let ending = TraceEnd {
        outcome: Outcome::Exit(0),
        steps: count,
        accesses: count,
        whole: None,
    };
    match note_record(shelf, file, observer, &TraceRecord::End(ending)) {
        Ok(()) => file.finish(shelf),
        Err(error) => Err(error),
    }
}

/// Makes the trace of so many accesses: the file of the name gets its bytes in pieces of at most
/// 64 KiB, and the observer sees each record as it is made, the end last. Nothing of the trace is
/// kept.
///
/// At an error the file is as it was, or a front of the trace stands in it. `Failed` comes only
/// where the faults of writing this name rose, `NoMemory` for want of memory: the shelf's, the
/// observer's or this call's.
pub fn make_trace<S: Shelf, O: Observer>(
    alloc: Global,
    shelf: &mut S,
    name: &str,
    count: u64,
    observer: &mut O,
) -> Result<(), ShelfError>
    requires few { count ≤ 10 ^ 9 }
    requires begins { O.begins observer.old 0 }
    requires fresh { O.given observer.old observer.old [] }
    // the observer has seen each record
    ensures made { OnOk result (O.given observer.old observer.new (all_records (made count))) }
    // what is written, at an error too
    ensures written { OnOk result (AreWritten (made_file name.now count)
        (S.outside shelf.old) (S.outside shelf.new)) }
    ensures cut { IfErr result (λ error. AreCut (made_file name.now count)
        (S.outside shelf.old) (S.outside shelf.new) error) }
{
    let header = Header {
        first: 0,
        harts: 8,
        near: 0,
    };
    let mut file = match TraceFile::begin(alloc, shelf, name, Version::One, header) {
        Ok(file) => file,
        Err(error) => return Err(error),
    };
    match note_accesses(shelf, &mut file, observer, count) {
        Ok(()) => {}
        Err(error) => return Err(error),
    }
    end(shelf, &mut file, observer, count)
}
