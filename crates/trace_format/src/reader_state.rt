// How far a trace is read, without what is left over.
ghost use Rattle.std.specs.Prelude.{◌≡◌, ◌≤◌, ◌+◌, ◌≢◌, Some, None, [], length};
ghost use Rattle.std.specs.Prelude.{◌<◌, IsSome};
ghost use Rattle.std.specs.Option.{ForSome};
ghost use Rattle.trace_format.specs.Judging.{header_judged};
ghost use Rattle.trace_format.specs.Reading.{ending_in, header_read, place_reached};
ghost use Rattle.trace_format.specs.Reading.{progress_after};
ghost use Rattle.trace_format.specs.Rules.{longest_trace};
ghost use Rattle.trace_format.specs.Sound.{IsSound};
ghost use Rattle.trace_format.specs.ReaderStates.{AddsSome, KeepsHead, ReadsBut, ReadsOn};
ghost use Rattle.trace_format.specs.ReaderStates.{ReadsPart};
ghost use Rattle.trace_format.specs.ReaderStates.{SameHead, extent_in, reading_with, shown_in};

use crate::header_read::{HEADER_LENGTH, header_of};
use crate::record_read::{record_extent, record_of};
use crate::run_read::read_run;
use crate::{ReadSoFar, TraceEnd, TraceFault, TraceRecord};
use base::Access;
use std::alloc::Global;

/// How far a trace is read, without what is left over.
#[derive(Clone, Copy)]
pub struct State {
    /// What the records so far say, once the header is accepted.
    pub progress: Option<ReadSoFar>,
    /// The end record.
    pub ending: Option<TraceEnd>,
    /// The first fault.
    pub fault: Option<TraceFault>,
}

// How many bytes what begins here has, as far as they are there.
#[inline(always)]
fn extent_in(state: &State, bytes: &[u8]) -> usize
    ensures { result ≡ extent_in state.now bytes.now }
{
    match (&state.progress, &state.ending) {
        (None, _) => HEADER_LENGTH,
        (Some(progress), None) => record_extent(progress.version, bytes),
        (Some(_), Some(_)) => 1,
    }
}

/// An access more is read, in so many bytes.
#[inline(always)]
pub(crate) fn count_access(progress: &mut ReadSoFar, access: Access, pc: Option<u32>, size: usize)
    requires sound { IsSound progress.old }
    requires some { 1 ≤ size }
    requires low { progress.old.place + size ≤ longest_trace }
    ensures value { progress.new ≡ progress_after progress.old (TraceRecord.Touch access pc) size }
    ensures sound { IsSound progress.new }
{
    progress.counted += 1;
    progress.before.note(access, pc);
    progress.place += size as u64;
}

// The access that a record is, and its pc.
#[inline(always)]
fn shown_in(item: &TraceRecord) -> Option<(Access, Option<u32>)>
    ensures { result ≡ shown_in item.now }
{
    match item {
        TraceRecord::Touch(access, pc) => Some((*access, *pc)),
        _ => None,
    }
}

// A record more is read, in so many bytes, that is this access or none.
#[inline(always)]
fn count_record(progress: &mut ReadSoFar, shown: Option<(Access, Option<u32>)>, size: usize)
    requires sound { IsSound progress.old }
    requires some { 1 ≤ size }
    requires low { progress.old.place + size ≤ longest_trace }
    ensures value { (item : TraceRecord) → shown ≡ shown_in item
        → progress.new ≡ progress_after progress.old item size }
    ensures place { progress.new.place ≡ progress.old.place + size }
    ensures sound { IsSound progress.new }
{
    match shown {
        Some((access, pc)) => count_access(progress, access, pc, size),
        None => progress.place += size as u64,
    }
}

#[inline(always)]
fn ending_in(item: &TraceRecord) -> Option<TraceEnd>
    ensures { result ≡ ending_in item.now }
{
    match item {
        TraceRecord::End(ending) => Some(*ending),
        _ => None,
    }
}

// Reads the 20 bytes of a header.
fn read_header(state: &mut State, bytes: &[u8])
    requires long { 20 ≤ length bytes.now }
    requires first { state.old.progress ≡ None }
    requires clean { state.old.fault ≡ None }
    ensures sound { ForSome state.new.progress IsSound }
    ensures place { place_reached state.new.progress ≤ 20 }
    ensures exact { state.new.fault ≡ None → place_reached state.new.progress ≡ 20 }
    ensures read { reading_with state.new [] ≡
        (header_read (reading_with state.old []) (header_judged bytes.now)).1 }
    ensures never { state.new.fault ≢ Some TraceFault.NoMemory }
{
    match header_of(bytes) {
        Ok(progress) => state.progress = Some(progress),
        Err(fault) => state.fault = Some(fault),
    }
}

// Reads one record, whose bytes are these, where the header is read and the end is not. At want of
// memory nothing is appended.
#[inline(always)]
fn read_record(alloc: Global, state: &mut State, bytes: &[u8], into: &mut Vec<TraceRecord>)
    requires at { IsSome state.old.progress }
    requires open { state.old.ending ≡ None }
    requires clean { state.old.fault ≡ None }
    requires long { length bytes.now ≡ extent_in state.old bytes.now }
    requires some { 1 ≤ length bytes.now }
    requires sound { ForSome state.old.progress IsSound }
    requires low { place_reached state.old.progress + length bytes.now ≤ longest_trace }
    ensures sound { ForSome state.new.progress IsSound }
    ensures place { place_reached state.new.progress ≤ place_reached state.old.progress + length bytes.now }
    ensures exact { state.new.fault ≡ None →
        place_reached state.new.progress ≡ place_reached state.old.progress + length bytes.now }
    ensures same { state.new.fault ≡ Some TraceFault.NoMemory →
        state.new.progress ≡ state.old.progress }
    ensures read { state.new.fault ≢ Some TraceFault.NoMemory →
        ReadsPart state.old bytes.now state.new into.old.items into.new.items }
    ensures no_memory { state.new.fault ≡ Some TraceFault.NoMemory
        → into.new.items ≡ into.old.items }
{
    let Some(progress) = &mut state.progress else {
        return;
    };
    match record_of(alloc, progress, bytes) {
        Ok(item) => {
            let (shown, ending) = (shown_in(&item), ending_in(&item));
            match into.push(item) {
                Ok(()) => {
                    count_record(progress, shown, bytes.len());
                    state.ending = ending;
                }
                Err(_) => state.fault = Some(TraceFault::NoMemory),
            }
        }
        Err(fault) => state.fault = Some(fault),
    }
}

// Reads the header or a record, whose bytes are these. At want of memory nothing is appended.
#[inline(never)]
fn read_part(alloc: Global, state: &mut State, bytes: &[u8], into: &mut Vec<TraceRecord>)
    requires clean { state.old.fault ≡ None }
    requires long { length bytes.now ≡ extent_in state.old bytes.now }
    requires some { 1 ≤ length bytes.now }
    requires sound { ForSome state.old.progress IsSound }
    requires low { place_reached state.old.progress + length bytes.now ≤ longest_trace }
    ensures sound { ForSome state.new.progress IsSound }
    ensures place { place_reached state.new.progress ≤ place_reached state.old.progress + length bytes.now }
    ensures exact { state.new.fault ≡ None →
        place_reached state.new.progress ≡ place_reached state.old.progress + length bytes.now }
    ensures same { state.new.fault ≡ Some TraceFault.NoMemory →
        state.new.progress ≡ state.old.progress }
    ensures read { state.new.fault ≢ Some TraceFault.NoMemory →
        ReadsPart state.old bytes.now state.new into.old.items into.new.items }
    ensures no_memory { state.new.fault ≡ Some TraceFault.NoMemory
        → into.new.items ≡ into.old.items }
{
    let place = match &state.progress {
        Some(progress) => progress.place,
        None => return read_header(state, bytes),
    };
    match state.ending {
        Some(_) => state.fault = Some(TraceFault::AfterEnd(place)),
        None => read_record(alloc, state, bytes, into),
    }
}

// Reads the accesses at the front of some bytes, where the header is read and the end is not.
#[inline(always)]
fn read_accesses<'a>(state: &mut State, bytes: &'a [u8], into: &mut Vec<TraceRecord>) -> &'a [u8]
    requires clean { state.old.fault ≡ None }
    requires sound { ForSome state.old.progress IsSound }
    requires low { place_reached state.old.progress + length bytes.now ≤ longest_trace }
    ensures clean { state.new.fault ≡ None }
    ensures sound { ForSome state.new.progress IsSound }
    ensures head { SameHead state.new.progress state.old.progress }
    ensures fewer { length result.now ≤ length bytes.now }
    ensures exact { place_reached state.new.progress + length result.now
        ≡ place_reached state.old.progress + length bytes.now }
    ensures read { ReadsBut (reading_with state.old []) bytes.now (reading_with state.new [])
        result.now into.old.items into.new.items }
{
    match (&mut state.progress, &state.ending) {
        (Some(progress), None) => read_run(progress, bytes, into),
        _ => bytes,
    }
}

// Reads what is whole at the front of some bytes, and gives the bytes behind it.
pub(crate) fn read_parts<'a>(
    alloc: Global,
    state: &mut State,
    bytes: &'a [u8],
    into: &mut Vec<TraceRecord>,
) -> &'a [u8]
    requires clean { state.old.fault ≡ None }
    requires sound { ForSome state.old.progress IsSound }
    requires low { place_reached state.old.progress + length bytes.now ≤ longest_trace }
    ensures sound { ForSome state.new.progress IsSound }
    ensures place { place_reached state.new.progress + length result.now ≤
        place_reached state.old.progress + length bytes.now }
    ensures exact { state.new.fault ≡ None → place_reached state.new.progress + length result.now ≡
        place_reached state.old.progress + length bytes.now }
    ensures head { KeepsHead (reading_with state.old []) bytes.now (reading_with state.new []) }
    ensures waits { state.new.fault ≡ None → length result.now < extent_in state.new result.now }
    ensures read { state.new.fault ≡ None →
        ReadsOn (reading_with state.old []) bytes.now (reading_with state.new result.now)
        into.old.items into.new.items }
    ensures fault { IsSome state.new.fault → state.new.fault ≢ Some TraceFault.NoMemory →
        ReadsOn (reading_with state.old []) bytes.now (reading_with state.new []) into.old.items
        into.new.items }
    ensures no_memory { state.new.fault ≡ Some TraceFault.NoMemory →
        AddsSome (reading_with state.old []) bytes.now into.old.items into.new.items }
{
    let mut rest = bytes;
    while state.fault.is_none() {
        let front = read_accesses(state, rest, into);
        let size = extent_in(state, front);
        if front.len() < size {
            return front;
        }
        let (part, after) = front.split_at(size);
        read_part(alloc, state, part, into);
        rest = after;
    }
    rest
}
