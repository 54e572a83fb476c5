// A trace that is filtered in one pass.
ghost use Rattle.std.specs.Prelude.{◌≡◌, ◌<◌, ◌≤◌, ◌^◌, ◌++◌, ℕ, List, Option, Some, length};
ghost use Rattle.std.specs.Prelude.{IfErr, IfOk, OnOk};
ghost use Rattle.std.specs.List.{All};
ghost use Rattle.shelf.specs.Files.{AreCut, AreWritten};
ghost use Rattle.shelf.specs.Shelf.{Outside};
ghost use Rattle.trace_format.specs.declared.record.Header.{Header as Head};
ghost use Rattle.trace_format.specs.declared.record.TraceRecord.{TraceRecord as Record};
ghost use Rattle.trace_format.specs.declared.record.Version.{Version as AVersion};
ghost use Rattle.sharing_rules.specs.Filtered.{filtered};
ghost use Rattle.trace_format.specs.Rules.{IsGoodHeader, IsWritable, touches_in};
ghost use Rattle.trace_passes.specs.Cursors.{version_and_header};
ghost use Rattle.trace_files.specs.Copies.{HasCopied};
ghost use Rattle.trace_files.specs.Movers.{Follows};
ghost use Rattle.trace_filter.specs.Files.{IsUnderWay};
ghost use Rattle.trace_filter.specs.FilterPass.{HasGivenUp, IsCutAt, IsFilteredTrace, IsOnItsWay};
ghost use Rattle.trace_filter.specs.FilterPass.{MayTake, filtering, is_fault, so_far, wanted_next};

use crate::filter_fault::{FilterFault, write_fault};
use crate::filter_file::FilterFile;
use shelf::{Shelf, ShelfError};
use std::alloc::Global;
use trace_format::{Header, TraceRecord, Version};
use trace_passes::{Cursor, PassFault, Refusal, Wanted};

/// What was written of a filtered trace.
#[derive(Clone, Copy, PartialEq, Eq, Debug)]
pub struct Filtered {
    /// How many accesses the trace has.
    pub whole: u64,
    /// How many of them are kept.
    pub kept: u64,
}

// What is wanted of the trace: pcs and no filtered one, until the file is begun.
fn wanted_next(file: &Option<FilterFile<'_>>) -> Wanted
    ensures { result ≡ wanted_next file.now }
{
    match file {
        None => Wanted {
            harts: None,
            first: None,
            pcs: true,
            lines: None,
        },
        Some(_) => Wanted {
            harts: None,
            first: None,
            pcs: false,
            lines: Some(0),
        },
    }
}

// Whether a trace is refused for what it is, and not for what is wanted of it.
fn is_fault(refusal: Refusal) -> bool
    ensures { result ≡ is_fault refusal }
{
    match refusal {
        Refusal::Trace(_) => true,
        _ => false,
    }
}

// Begins the file, and puts what stays of the first records into it.
fn begin_with<'a, S: Shelf>(
    alloc: Global,
    shelf: &mut S,
    name: &'a str,
    near: u16,
    header: Header,
    items: &[TraceRecord],
) -> Result<FilterFile<'a>, ShelfError>
    requires ranged { (6 ≤ near) × (near ≤ 16) }
    requires writable { All IsWritable items.now }
    requires good { IsGoodHeader header }
    requires room { length (touches_in items.now) < 2 ^ 63 }
    ensures came { IfOk result (λ file. IsUnderWay near name.now header file items.now
        (S.outside shelf.old) (S.outside shelf.new)) }
    ensures cut { IfErr result (λ error. (version : AVersion) → IsCutAt near name.now
        (Some (version, header)) items.now (S.outside shelf.old) (S.outside shelf.new) error) }
    ensures keeps_held { (S.outside shelf.new).held ≡ (S.outside shelf.old).held }
{
    let mut file = match FilterFile::begin(alloc, shelf, name, near, header) {
        Ok(file) => file,
        Err(error) => return Err(error),
    };
    match file.put_all(shelf, items) {
        Ok(()) => Ok(file),
        Err(error) => Err(error),
    }
}

// Puts what stays of the records of a piece, and begins the file once the header is known.
fn take<'a, S: Shelf>(
    alloc: Global,
    shelf: &mut S,
    name: &'a str,
    near: u16,
    file: &mut Option<FilterFile<'a>>,
    head: Option<(Version, Header)>,
    items: &[TraceRecord],
) -> Result<(), ShelfError>
    requires ranged { (6 ≤ near) × (near ≤ 16) }
    requires writable { All IsWritable items.now }
    requires way { MayTake near name.now file.old head items.now (S.outside shelf.old) }
    ensures came { OnOk result ((known : Option (AVersion × Head)) (seen : List Record)
        (before : Outside)
        → IsOnItsWay near name.now file.old known seen before (S.outside shelf.old)
        → Follows known seen head items.now
        → IsOnItsWay near name.now file.new head (seen ++ items.now) before
        (S.outside shelf.new)) }
    ensures cut { IfErr result (λ error. (known : Option (AVersion × Head)) (seen : List Record)
        (before : Outside)
        → IsOnItsWay near name.now file.old known seen before (S.outside shelf.old)
        → Follows known seen head items.now
        → IsCutAt near name.now head (seen ++ items.now) before (S.outside shelf.new) error) }
    ensures keeps_held { (S.outside shelf.new).held ≡ (S.outside shelf.old).held }
{
    let Some((_, header)) = head else {
        return Ok(());
    };
    match file {
        Some(begun) => begun.put_all(shelf, items),
        None => match begin_with(alloc, shelf, name, near, header, items) {
            Ok(begun) => {
                *file = Some(begun);
                Ok(())
            }
            Err(error) => Err(error),
        },
    }
}

// Writes what waits, if the file is begun, and says how many accesses came and are kept.
fn finish<S: Shelf>(
    shelf: &mut S,
    file: &mut Option<FilterFile<'_>>,
) -> Result<Filtered, ShelfError>
    requires way { (k : ℕ) × (name : List ℕ) × (head : Option (AVersion × Head))
        × (seen : List Record) × (before : Outside)
        × IsOnItsWay k name file.old head seen before (S.outside shelf.old)
        × (length (touches_in seen) < 2 ^ 63) }
    ensures written { OnOk result ((k : ℕ) (name : List ℕ) (head : Option (AVersion × Head))
        (seen : List Record) (before : Outside)
        → IsOnItsWay k name file.old head seen before (S.outside shelf.old)
        → AreWritten (so_far k name head seen) before (S.outside shelf.new)) }
    ensures counts { IfOk result (λ made. (k : ℕ) (name : List ℕ) (head : AVersion × Head)
        (seen : List Record) (before : Outside)
        → IsOnItsWay k name file.old (Some head) seen before (S.outside shelf.old)
        → (made.whole ≡ length (touches_in seen))
        × (made.kept ≡ length (filtered k (touches_in seen)))) }
    ensures cut { IfErr result (λ error. (k : ℕ) (name : List ℕ)
        (head : Option (AVersion × Head)) (seen : List Record) (before : Outside)
        → IsOnItsWay k name file.old head seen before (S.outside shelf.old)
        → AreCut (so_far k name head seen) before (S.outside shelf.new) error) }
    ensures keeps_held { (S.outside shelf.new).held ≡ (S.outside shelf.old).held }
{
    match file {
        None => Ok(Filtered { whole: 0, kept: 0 }),
        Some(begun) => {
            let made = Filtered {
                whole: begun.whole(),
                kept: begun.kept(),
            };
            match begun.finish(shelf) {
                Ok(()) => Ok(made),
                Err(error) => Err(error),
            }
        }
    }
}

// Puts and writes what stays of the records before the fault of a trace.
fn end_refused<'a, S: Shelf>(
    alloc: Global,
    shelf: &mut S,
    name: &'a str,
    near: u16,
    file: &mut Option<FilterFile<'a>>,
    cursor: &Cursor,
) -> Result<(), ShelfError>
    requires ranged { (6 ≤ near) × (near ≤ 16) }
    requires writable { All IsWritable cursor.now.items }
    requires way { MayTake near name.now file.old
        (version_and_header cursor.now.reading.progress) cursor.now.items
        (S.outside shelf.old) }
    ensures written { OnOk result ((known : Option (AVersion × Head)) (seen : List Record)
        (before : Outside)
        → IsOnItsWay near name.now file.old known seen before (S.outside shelf.old)
        → Follows known seen (version_and_header cursor.now.reading.progress) cursor.now.items
        → AreWritten (so_far near name.now (version_and_header cursor.now.reading.progress)
        (seen ++ cursor.now.items)) before (S.outside shelf.new)) }
    ensures cut { IfErr result (λ error. (known : Option (AVersion × Head)) (seen : List Record)
        (before : Outside)
        → IsOnItsWay near name.now file.old known seen before (S.outside shelf.old)
        → Follows known seen (version_and_header cursor.now.reading.progress) cursor.now.items
        → IsCutAt near name.now (version_and_header cursor.now.reading.progress)
        (seen ++ cursor.now.items) before (S.outside shelf.new) error) }
    ensures keeps_held { (S.outside shelf.new).held ≡ (S.outside shelf.old).held }
{
    match take(
        alloc,
        shelf,
        name,
        near,
        file,
        cursor.head(),
        cursor.items(),
    ) {
        Ok(()) => {}
        Err(error) => return Err(error),
    }
    match finish(shelf, file) {
        Ok(_) => Ok(()),
        Err(error) => Err(error),
    }
}

/// Writes the filtered trace of a trace to `file`, for regions of 2^near bytes: version 4, of which
/// the first position is 0, the same harts, all records but the redundant accesses in their order,
/// and the same end with the number of the accesses that are kept and that of all.
///
/// The trace must have pcs and not be filtered: `NoPcs` and `Filtered` come before the file is
/// begun. It is read once, in pieces, and no more of it is kept than a piece has. The file is begun
/// once the header is accepted. At a fault of the trace it has what stays of all records before
/// that, and at any other fault it is a front of that. `ReadFault` comes only where the faults of
/// reading the trace rose, and `WriteFault` only where those of writing the file rose.
pub fn filter_trace<S: Shelf>(
    alloc: Global,
    shelf: &mut S,
    trace: &str,
    near: u16,
    file: &str,
) -> Result<Filtered, FilterFault>
    requires ranged { (6 ≤ near) × (near ≤ 16) }
    // The file is the filtered trace of the trace that the bytes are.
    ensures filtered { IfOk result (λ made. HasCopied (S.outside shelf.new).held trace.now
        (filtering near file.now) (IsFilteredTrace near made)
        (S.outside shelf.old) (S.outside shelf.new)) }
    ensures given_up { IfErr result (λ fault. HasGivenUp (S.outside shelf.new).held trace.now
        file.now near (S.outside shelf.old) (S.outside shelf.new) fault) }
{
    let mut cursor = match Cursor::new(alloc) {
        Ok(cursor) => cursor,
        Err(_) => return Err(FilterFault::NoMemory),
    };
    let mut begun: Option<FilterFile<'_>> = None;
    'pieces: loop {
        match cursor.advance(shelf, trace, &wanted_next(&begun)) {
            Ok(Some(_)) => match finish(shelf, &mut begun) {
                Ok(made) => return Ok(made),
                Err(error) => return Err(write_fault(error)),
            },
            Ok(None) => match take(
                alloc,
                shelf,
                file,
                near,
                &mut begun,
                cursor.head(),
                cursor.items(),
            ) {
                Ok(()) => {}
                Err(error) => return Err(write_fault(error)),
            },
            Err(PassFault::Refused(refusal)) => {
                if !is_fault(refusal) {
                    return Err(FilterFault::Refused(refusal));
                }
                match end_refused(alloc, shelf, file, near, &mut begun, &cursor) {
                    Ok(()) => return Err(FilterFault::Refused(refusal)),
                    Err(error) => return Err(write_fault(error)),
                }
            }
            Err(PassFault::ReadFault) => return Err(FilterFault::ReadFault),
            Err(PassFault::NoMemory) => return Err(FilterFault::NoMemory),
        }
    }
}
