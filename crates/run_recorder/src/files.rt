// The files of a run, on their way.
ghost use Rattle.std.specs.Prelude.{◌≡◌, ◌<◌, ◌≤◌, ◌++◌, ◌∷◌, List, ℕ, [], length, IfErr, OnOk};
ghost use Rattle.std.specs.Prelude.{true};
ghost use Rattle.shelf.specs.Shelf.{Outside};
ghost use Rattle.shelf.specs.Files.{Output, AreCut};
ghost use Rattle.shelf.specs.OnTheirWay.{AreApart, AreBegun, IsNew, IsOutputs, outputs_with};
ghost use Rattle.shelf.specs.OnTheirWay.{names_of as waiting_names};
ghost use Rattle.trace_format.specs.Rules.{IsWritable};
ghost use Rattle.trace_format.specs.Spelling.{before_after};
ghost use Rattle.trace_format.specs.Writing.{before_behind};
ghost use Rattle.run_recorder.specs.declared.run_file.Content.{Content as AContent};
ghost use Rattle.run_recorder.specs.Recorded.{near_for, names_of, outputs_of};
ghost use Rattle.run_recorder.specs.Recording.{AreCutAfter, bytes_so_far, has_trace};
ghost use Rattle.run_recorder.specs.Recording.{output_part, record_part, records_part};
ghost use Rattle.run_recorder.specs.Recording.{touch_records, trace_part};

use crate::run_file::{Content, RunFile};
use crate::speller::Speller;
use guest::Touched;
use shelf::{Shelf, ShelfError};
use std::alloc::Global;
use trace_files::TraceOutputs;
use trace_format::{Header, TraceRecord, Version};

// The regions of a trace that leaves out no access.
fn near_for(version: Version) -> u16
    ensures { result ≡ near_for version }
{
    match version {
        Version::One | Version::Two | Version::Three => 0,
        Version::Four => 16,
    }
}

// Begins a file behind the others, as its content begins.
fn begin_one<'a, S: Shelf>(
    alloc: Global,
    shelf: &mut S,
    version: Version,
    harts: u16,
    place: usize,
    name: &'a str,
    content: Content,
    outputs: &mut TraceOutputs<'a>,
) -> Result<(), ShelfError>
    requires place { length outputs.old ≡ place }
    requires name { IsNew name.now (waiting_names outputs.old) }
    requires begun { AreBegun (waiting_names outputs.old) (S.outside shelf.old) }
    requires some { 1 ≤ harts }
    requires most { harts ≤ 256 }
    ensures outputs { OnOk result ((all : List Output) (before : Outside)
        → IsOutputs outputs.old all before (S.outside shelf.old)
        → IsOutputs outputs.new (all ++ record
        { name = name.now; bytes = bytes_so_far version harts [] [] content } ∷ []) before
        (S.outside shelf.new)) }
    ensures cut { IfErr result (λ error. (all : List Output) (before : Outside)
        → IsOutputs outputs.old all before (S.outside shelf.old)
        → AreCut (all ++ record
        { name = name.now; bytes = bytes_so_far version harts [] [] content } ∷ []) before
        (S.outside shelf.new) error) }
{
    match content {
        Content::Trace => {
            let near = near_for(version);
            let header = Header {
                first: 0,
                harts,
                near,
            };
            match outputs.begin_trace(alloc, shelf, place, name, version, header) {
                Ok(_) => Ok(()),
                Err(error) => Err(error),
            }
        }
        Content::Output => outputs.begin(alloc, shelf, name),
    }
}

// Begins the files, in their order, where there are none: each trace has its header.
pub(crate) fn begin<'a, S: Shelf>(
    alloc: Global,
    shelf: &mut S,
    version: Version,
    harts: u16,
    files: &[RunFile<'a>],
    outputs: &mut TraceOutputs<'a>,
) -> Result<(), ShelfError>
    requires none { (outside : Outside) → IsOutputs outputs.old [] outside outside }
    requires apart { AreApart (names_of files.now) }
    requires some { 1 ≤ harts }
    requires most { harts ≤ 256 }
    ensures outputs { OnOk result (IsOutputs outputs.new
        (outputs_of files.now (bytes_so_far version harts [] [])) (S.outside shelf.old)
        (S.outside shelf.new)) }
    ensures begun { OnOk result (AreBegun (waiting_names outputs.new) (S.outside shelf.new)) }
    ensures count { OnOk result (length outputs.new ≡ length files.now) }
    ensures cut { IfErr result (λ error. AreCutAfter version harts [] [] files.now
        (S.outside shelf.old) (S.outside shelf.new) error) }
{
    for place in 0..files.len() {
        let RunFile { name, content } = files[place];
        match begin_one(alloc, shelf, version, harts, place, name, content, outputs) {
            Ok(()) => {}
            Err(error) => return Err(error),
        }
    }
    Ok(())
}

// Whether one of the files is a trace.
#[inline]
fn has_trace(files: &[RunFile<'_>]) -> bool
    ensures { result ≡ has_trace files.now }
{
    for place in 0..files.len() {
        match files[place].content {
            Content::Trace => return true,
            Content::Output => {}
        }
    }
    false
}

// Puts the bytes of records into the file at a place, if that is a trace.
fn put_spelled_into<S: Shelf>(
    shelf: &mut S,
    place: usize,
    content: Content,
    outputs: &mut TraceOutputs<'_>,
    bytes: &[u8],
) -> Result<(), ShelfError>
    requires place { place < length outputs.old }
    requires begun { AreBegun (waiting_names outputs.old) (S.outside shelf.old) }
    ensures count { length outputs.new ≡ length outputs.old }
    ensures begun { AreBegun (waiting_names outputs.new) (S.outside shelf.new) }
    ensures outputs { OnOk result ((all : List Output) (before : Outside)
        → IsOutputs outputs.old all before (S.outside shelf.old)
        → IsOutputs outputs.new (outputs_with all place (trace_part bytes.now content)) before
        (S.outside shelf.new)) }
    ensures cut { IfErr result (λ error. (all : List Output) (before : Outside)
        → IsOutputs outputs.old all before (S.outside shelf.old)
        → AreCut (outputs_with all place (trace_part bytes.now content)) before
        (S.outside shelf.new) error) }
{
    match content {
        Content::Trace => outputs.put_bytes(shelf, place, bytes),
        Content::Output => Ok(()),
    }
}

// Puts the bytes of records into each trace.
fn put_spelled<S: Shelf>(
    shelf: &mut S,
    files: &[RunFile<'_>],
    outputs: &mut TraceOutputs<'_>,
    bytes: &[u8],
) -> Result<(), ShelfError>
    requires paired { length outputs.old ≡ length files.now }
    requires begun { AreBegun (waiting_names outputs.old) (S.outside shelf.old) }
    ensures count { length outputs.new ≡ length outputs.old }
    ensures begun { OnOk result (AreBegun (waiting_names outputs.new) (S.outside shelf.new)) }
    ensures outputs { OnOk result ((so_far : AContent → List ℕ) (before : Outside)
        → IsOutputs outputs.old (outputs_of files.now so_far) before (S.outside shelf.old)
        → IsOutputs outputs.new
        (outputs_of files.now (λ content. so_far content ++ trace_part bytes.now content))
        before (S.outside shelf.new)) }
    ensures cut { IfErr result (λ error. (so_far : AContent → List ℕ) (before : Outside)
        → IsOutputs outputs.old (outputs_of files.now so_far) before (S.outside shelf.old)
        → AreCut
        (outputs_of files.now (λ content. so_far content ++ trace_part bytes.now content))
        before (S.outside shelf.new) error) }
{
    for place in 0..files.len() {
        match put_spelled_into(shelf, place, files[place].content, outputs, bytes) {
            Ok(()) => {}
            Err(error) => return Err(error),
        }
    }
    Ok(())
}

// Spells a record, and puts it into each trace.
#[inline(never)]
fn spell_record<S: Shelf>(
    shelf: &mut S,
    files: &[RunFile<'_>],
    outputs: &mut TraceOutputs<'_>,
    speller: &mut Speller,
    item: &TraceRecord,
) -> Result<(), ShelfError>
    requires paired { length outputs.old ≡ length files.now }
    requires begun { AreBegun (waiting_names outputs.old) (S.outside shelf.old) }
    requires writable { IsWritable item.now }
    ensures count { length outputs.new ≡ length outputs.old }
    ensures begun { OnOk result (AreBegun (waiting_names outputs.new) (S.outside shelf.new)) }
    ensures writer { OnOk result (speller.new.writer ≡ record speller.old.writer
        { before = before_after speller.old.writer.before item.now }) }
    ensures outputs { OnOk result ((bytes : AContent → List ℕ) (before : Outside)
        → IsOutputs outputs.old (outputs_of files.now bytes) before (S.outside shelf.old)
        → IsOutputs outputs.new (outputs_of files.now
        (λ content. bytes content ++ record_part speller.old.writer item.now content))
        before (S.outside shelf.new)) }
    ensures cut { IfErr result (λ error. (bytes : AContent → List ℕ) (before : Outside)
        → IsOutputs outputs.old (outputs_of files.now bytes) before (S.outside shelf.old)
        → AreCut (outputs_of files.now
        (λ content. bytes content ++ record_part speller.old.writer item.now content))
        before (S.outside shelf.new) error) }
{
    match speller.spell(item) {
        Ok(()) => put_spelled(shelf, files, outputs, &speller.bytes),
        Err(_) => Err(ShelfError::NoMemory),
    }
}

// Puts a record into each trace: nothing is spelled where there is none.
#[inline(always)]
pub(crate) fn put_record<S: Shelf>(
    shelf: &mut S,
    files: &[RunFile<'_>],
    outputs: &mut TraceOutputs<'_>,
    speller: &mut Speller,
    item: &TraceRecord,
) -> Result<(), ShelfError>
    requires paired { length outputs.old ≡ length files.now }
    requires begun { AreBegun (waiting_names outputs.old) (S.outside shelf.old) }
    requires writable { IsWritable item.now }
    ensures count { length outputs.new ≡ length outputs.old }
    ensures begun { OnOk result (AreBegun (waiting_names outputs.new) (S.outside shelf.new)) }
    ensures writer { OnOk result (has_trace files.now ≡ true
        → speller.new.writer ≡ record speller.old.writer
        { before = before_after speller.old.writer.before item.now }) }
    ensures outputs { OnOk result ((bytes : AContent → List ℕ) (before : Outside)
        → IsOutputs outputs.old (outputs_of files.now bytes) before (S.outside shelf.old)
        → IsOutputs outputs.new (outputs_of files.now
        (λ content. bytes content ++ record_part speller.old.writer item.now content))
        before (S.outside shelf.new)) }
    ensures cut { IfErr result (λ error. (bytes : AContent → List ℕ) (before : Outside)
        → IsOutputs outputs.old (outputs_of files.now bytes) before (S.outside shelf.old)
        → AreCut (outputs_of files.now
        (λ content. bytes content ++ record_part speller.old.writer item.now content))
        before (S.outside shelf.new) error) }
{
    if has_trace(files) {
        spell_record(shelf, files, outputs, speller, item)
    } else {
        Ok(())
    }
}

// Spells the accesses, and puts all of them into each trace at once.
#[inline(never)]
fn spell_touches<S: Shelf>(
    shelf: &mut S,
    files: &[RunFile<'_>],
    outputs: &mut TraceOutputs<'_>,
    speller: &mut Speller,
    version: Version,
    touches: &[Touched],
) -> Result<(), ShelfError>
    requires paired { length outputs.old ≡ length files.now }
    requires begun { AreBegun (waiting_names outputs.old) (S.outside shelf.old) }
    ensures count { length outputs.new ≡ length outputs.old }
    ensures begun { OnOk result (AreBegun (waiting_names outputs.new) (S.outside shelf.new)) }
    ensures writer { OnOk result (speller.new.writer ≡ record speller.old.writer
        { before = before_behind speller.old.writer.before (touch_records version touches.now) }) }
    ensures outputs { OnOk result ((bytes : AContent → List ℕ) (before : Outside)
        → IsOutputs outputs.old (outputs_of files.now bytes) before (S.outside shelf.old)
        → IsOutputs outputs.new (outputs_of files.now (λ content. bytes content
        ++ records_part speller.old.writer (touch_records version touches.now) content))
        before (S.outside shelf.new)) }
    ensures cut { IfErr result (λ error. (bytes : AContent → List ℕ) (before : Outside)
        → IsOutputs outputs.old (outputs_of files.now bytes) before (S.outside shelf.old)
        → AreCut (outputs_of files.now (λ content. bytes content
        ++ records_part speller.old.writer (touch_records version touches.now) content))
        before (S.outside shelf.new) error) }
{
    match speller.spell_touches(version, touches) {
        Ok(()) => put_spelled(shelf, files, outputs, &speller.bytes),
        Err(_) => Err(ShelfError::NoMemory),
    }
}

// Puts the records of accesses into each trace: none is spelled where there is no trace.
#[inline(always)]
pub(crate) fn put_touches<S: Shelf>(
    shelf: &mut S,
    files: &[RunFile<'_>],
    outputs: &mut TraceOutputs<'_>,
    speller: &mut Speller,
    version: Version,
    touches: &[Touched],
) -> Result<(), ShelfError>
    requires paired { length outputs.old ≡ length files.now }
    requires begun { AreBegun (waiting_names outputs.old) (S.outside shelf.old) }
    ensures count { length outputs.new ≡ length outputs.old }
    ensures begun { OnOk result (AreBegun (waiting_names outputs.new) (S.outside shelf.new)) }
    ensures writer { OnOk result (has_trace files.now ≡ true
        → speller.new.writer ≡ record speller.old.writer
        { before = before_behind speller.old.writer.before (touch_records version touches.now) }) }
    ensures outputs { OnOk result ((bytes : AContent → List ℕ) (before : Outside)
        → IsOutputs outputs.old (outputs_of files.now bytes) before (S.outside shelf.old)
        → IsOutputs outputs.new (outputs_of files.now (λ content. bytes content
        ++ records_part speller.old.writer (touch_records version touches.now) content))
        before (S.outside shelf.new)) }
    ensures cut { IfErr result (λ error. (bytes : AContent → List ℕ) (before : Outside)
        → IsOutputs outputs.old (outputs_of files.now bytes) before (S.outside shelf.old)
        → AreCut (outputs_of files.now (λ content. bytes content
        ++ records_part speller.old.writer (touch_records version touches.now) content))
        before (S.outside shelf.new) error) }
{
    if has_trace(files) {
        spell_touches(shelf, files, outputs, speller, version, touches)
    } else {
        Ok(())
    }
}

// Puts bytes that the guest put out into the file at a place, if that holds them.
fn put_output_into<S: Shelf>(
    shelf: &mut S,
    place: usize,
    content: Content,
    outputs: &mut TraceOutputs<'_>,
    bytes: &[u8],
) -> Result<(), ShelfError>
    requires place { place < length outputs.old }
    requires begun { AreBegun (waiting_names outputs.old) (S.outside shelf.old) }
    ensures count { length outputs.new ≡ length outputs.old }
    ensures begun { AreBegun (waiting_names outputs.new) (S.outside shelf.new) }
    ensures outputs { OnOk result ((all : List Output) (before : Outside)
        → IsOutputs outputs.old all before (S.outside shelf.old)
        → IsOutputs outputs.new (outputs_with all place (output_part bytes.now content)) before
        (S.outside shelf.new)) }
    ensures cut { IfErr result (λ error. (all : List Output) (before : Outside)
        → IsOutputs outputs.old all before (S.outside shelf.old)
        → AreCut (outputs_with all place (output_part bytes.now content)) before
        (S.outside shelf.new) error) }
{
    match content {
        Content::Trace => Ok(()),
        Content::Output => outputs.put_bytes(shelf, place, bytes),
    }
}

// Puts bytes that the guest put out into each file that holds them.
pub(crate) fn put_output<S: Shelf>(
    shelf: &mut S,
    files: &[RunFile<'_>],
    outputs: &mut TraceOutputs<'_>,
    bytes: &[u8],
) -> Result<(), ShelfError>
    requires paired { length outputs.old ≡ length files.now }
    requires begun { AreBegun (waiting_names outputs.old) (S.outside shelf.old) }
    ensures count { length outputs.new ≡ length outputs.old }
    ensures begun { OnOk result (AreBegun (waiting_names outputs.new) (S.outside shelf.new)) }
    ensures outputs { OnOk result ((so_far : AContent → List ℕ) (before : Outside)
        → IsOutputs outputs.old (outputs_of files.now so_far) before (S.outside shelf.old)
        → IsOutputs outputs.new
        (outputs_of files.now (λ content. so_far content ++ output_part bytes.now content))
        before (S.outside shelf.new)) }
    ensures cut { IfErr result (λ error. (so_far : AContent → List ℕ) (before : Outside)
        → IsOutputs outputs.old (outputs_of files.now so_far) before (S.outside shelf.old)
        → AreCut
        (outputs_of files.now (λ content. so_far content ++ output_part bytes.now content))
        before (S.outside shelf.new) error) }
{
    for place in 0..files.len() {
        match put_output_into(shelf, place, files[place].content, outputs, bytes) {
            Ok(()) => {}
            Err(error) => return Err(error),
        }
    }
    Ok(())
}
