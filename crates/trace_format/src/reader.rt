// A trace in pieces.
ghost use Rattle.std.specs.Prelude.{◌≡◌, ◌≢◌, ◌⊎◌, ◌+◌, ◌<◌, ◌≤◌, Some, None, [], ◌++◌, length};
ghost use Rattle.std.specs.Prelude.{IsSome, IfOk};

use crate::header_read::version_of;
use crate::reader_state::{State, read_parts};
use crate::{
    Header, TraceEnd, TraceFault, TraceRecord, Version, what_is_read_was_spelled,
    where_the_first_fault_stands,
};
use base::NoMemory;
use std::alloc::{AllocError, Global};
use std::marker::Model;

// No byte of a trace has this place.
const LONGEST_TRACE: u64 = 1 << 44;

/// Reads a trace in pieces, of either version.
///
/// Contracts see how far it is read: what the records so far say, the bytes left over, the end and
/// the first fault. It keeps no more bytes than one piece has, and 1035 more.
#[derive(Drop)]
pub struct TraceReader {
    state: State,
    pending: Vec<u8>,
}

impl Model for TraceReader {
    ghost use Rattle.std.specs.Prelude.{◌+◌, ◌<◌, ◌≤◌, length};
    ghost use Rattle.std.specs.Option.{ForSome};
    ghost use Rattle.trace_format.specs.Reading.{Reading, extent_at, place_reached};
    ghost use Rattle.trace_format.specs.Rules.{longest_trace};
    ghost use Rattle.trace_format.specs.Sound.{IsSound};

    ghost Value = { Reading };

    ghost view = { λ r. record {
      progress = r.state.progress;
      pending = r.pending.items;
      ending = r.state.ending;
      fault = r.state.fault;
    } };

    ghost invariant = { λ r. ForSome r.state.progress IsSound
        × (place_reached r.state.progress + length r.pending.items ≤ longest_trace)
        × (length r.pending.items < extent_at r.state.progress r.state.ending r.pending.items) };
}

// Bytes one after the other.
fn joined(alloc: Global, front: &[u8], back: &[u8]) -> Result<Vec<u8>, AllocError>
    ensures { IfOk result (λ bytes. bytes.items ≡ front.now ++ back.now) }
{
    let mut bytes = Vec::with_capacity(alloc, front.len().saturating_add(back.len()))?;
    bytes.extend_from_slice(front)?;
    bytes.extend_from_slice(back)?;
    Ok(bytes)
}

// The bytes to keep: none at a fault. At want of memory the state has that fault.
fn kept_of(alloc: Global, state: &mut State, rest: &[u8]) -> Vec<u8>
    ensures kept { state.new.fault ≡ None → result.items ≡ rest.now }
    ensures fault { IsSome state.new.fault → result.items ≡ [] }
    ensures progress { state.new.progress ≡ state.old.progress }
    ensures ending { state.new.ending ≡ state.old.ending }
    ensures same { state.new.fault ≢ Some TraceFault.NoMemory →
        state.new.fault ≡ state.old.fault }
    ensures was { state.new.fault ≡ None → state.old.fault ≡ None }
    ensures wanted { state.new.fault ≡ Some TraceFault.NoMemory →
        (state.old.fault ≡ None) ⊎ (state.old.fault ≡ Some TraceFault.NoMemory) }
{
    if state.fault.is_some() {
        return Vec::new(alloc);
    }
    match Vec::from_slice(alloc, rest) {
        Ok(kept) => kept,
        Err(_) => {
            state.fault = Some(TraceFault::NoMemory);
            Vec::new(alloc)
        }
    }
}

impl TraceReader {
    ghost use Rattle.std.specs.Prelude.{List, ℕ, Ok, Err, option_map};
    ghost use Rattle.std.specs.List.{All};
    ghost use Rattle.trace_format.specs.declared.record.TraceEnd.{TraceEnd};
    ghost use Rattle.trace_format.specs.declared.fault.TraceFault.{TraceFault};
    ghost use Rattle.trace_format.specs.declared.record.TraceRecord.{TraceRecord};
    ghost use Rattle.trace_format.specs.Reading.{begin, ending_of, magic_in};
    ghost use Rattle.trace_format.specs.Reading.{taken, with_fault};
    ghost use Rattle.trace_format.specs.Rules.{longest_trace};
    ghost use Rattle.trace_format.specs.ReaderStates.{AddsSome, HasRead, KeepsHead};
    ghost use Rattle.trace_format.specs.ReaderStates.{ReadsFault, ReadsOn, ReadsTrace, answer_at};

    /// A reader before the first byte.
    pub fn new(alloc: Global) -> Result<TraceReader, NoMemory>
        ensures { IfOk result (λ reader. reader ≡ begin) }
    {
        let state = State {
            progress: None,
            ending: None,
            fault: None,
        };
        Ok(TraceReader {
            state,
            pending: Vec::new(alloc),
        })
    }

    /// The version, None exactly before the header's 20 bytes were accepted.
    pub fn version(&self) -> Option<Version>
        ensures { result ≡ option_map (λ p. p.version) self.now.progress }
    {
        match &self.state.progress {
            Some(progress) => Some(progress.version),
            None => None,
        }
    }

    /// The version that the first 8 bytes name, which are its magic: known once they are read,
    /// before the header is. None before, where they are no magic, and at a fault before the header
    /// was accepted.
    pub fn magic(&self) -> Option<Version>
        ensures { result ≡ magic_in self.now }
    {
        match &self.state.progress {
            Some(progress) => Some(progress.version),
            None => version_of(&self.pending),
        }
    }

    /// The header, None exactly before its 20 bytes were accepted.
    pub fn header(&self) -> Option<Header>
        ensures { result ≡ option_map (λ p. p.header) self.now.progress }
    {
        match &self.state.progress {
            Some(progress) => Some(progress.header),
            None => None,
        }
    }

    fn taken(&self) -> u64
        ensures value { result ≡ taken self.now }
        ensures low { result ≤ longest_trace }
    {
        let place = match &self.state.progress {
            Some(progress) => progress.place,
            None => 0,
        };
        place + self.pending.len() as u64
    }

    /// The end of the trace that the bytes so far are, or why they are none: the kept fault, which
    /// can be the want of memory of an earlier piece, or `Truncated` with their number.
    pub fn finish(&self) -> Result<TraceEnd, TraceFault>
        ensures value { result ≡ ending_of self.now }

        // It gives an end exactly where the bytes so far are a trace with that end.
        ensures trace { (bytes : List ℕ) (first items : List TraceRecord) (e : TraceEnd)
            → All (λ b. b < 256) bytes → HasRead bytes first self.now items
            → result ≡ Ok e → ReadsTrace bytes first items e }
        ensures whole { (bytes : List ℕ) (first items : List TraceRecord) (e : TraceEnd)
            → HasRead bytes first self.now items
            → ReadsTrace bytes first items e → result ≡ Ok e }

        // Else they are a good beginning and then one unit at fault, whatever follows.
        ensures fault { (bytes : List ℕ) (first items : List TraceRecord) (f : TraceFault)
            → All (λ b. b < 256) bytes → HasRead bytes first self.now items
            → result ≡ Err f → ReadsFault bytes first items f }
    {
        what_is_read_was_spelled();
        where_the_first_fault_stands();
        self.ending_so_far()
    }

    fn ending_so_far(&self) -> Result<TraceEnd, TraceFault>
        ensures { result ≡ ending_of self.now }
    {
        match (self.state.fault, self.state.ending) {
            (Some(fault), _) => Err(fault),
            (None, Some(ending)) => Ok(ending),
            (None, None) => Err(TraceFault::Truncated(self.taken())),
        }
    }

    // Reads a piece that ends within a trace's places. What it answers stands in the state.
    fn read_within(&mut self, alloc: Global, piece: &[u8], into: &mut Vec<TraceRecord>)
        requires clean { self.old.fault ≡ None }
        requires low { taken self.old + length piece.now ≤ longest_trace }
        ensures read { self.new.fault ≢ Some TraceFault.NoMemory →
            ReadsOn self.old piece.now self.new into.old.items into.new.items }
        ensures head { KeepsHead self.old piece.now self.new }
        ensures taken { self.new.fault ≡ None →
            taken self.new ≡ taken self.old + length piece.now }
        ensures no_memory { self.new.fault ≡ Some TraceFault.NoMemory →
            AddsSome self.old piece.now into.old.items into.new.items }
    {
        let mut state = self.state;
        let bytes = match joined(alloc, &self.pending, piece) {
            Ok(bytes) => bytes,
            Err(_) => {
                self.stop(TraceFault::NoMemory);
                return;
            }
        };
        let rest = read_parts(alloc, &mut state, &bytes, into);
        let pending = kept_of(alloc, &mut state, rest);
        *self = TraceReader { state, pending };
    }

    // Ends the reading at a fault.
    fn stop(&mut self, fault: TraceFault)
        requires { self.old.fault ≡ None }
        ensures { self.new ≡ with_fault self.old fault }
    {
        self.pending.clear();
        self.state.fault = Some(fault);
    }

    fn read_piece(
        &mut self,
        alloc: Global,
        piece: &[u8],
        into: &mut Vec<TraceRecord>,
    ) -> Result<(), TraceFault>
        ensures read { result ≢ Err TraceFault.NoMemory →
            ReadsOn self.old piece.now self.new into.old.items into.new.items }
        ensures answer { result ≡ answer_at self.new.fault }
        ensures no_memory { result ≡ Err TraceFault.NoMemory →
            AddsSome self.old piece.now into.old.items into.new.items }
        ensures head { KeepsHead self.old piece.now self.new }
        ensures kept { IsSome self.old.fault →
            (self.new ≡ self.old) × (into.new.items ≡ into.old.items) }
    {
        if let Some(fault) = self.state.fault {
            return Err(fault);
        }
        let room = LONGEST_TRACE - self.taken();
        if piece.len() as u64 <= room {
            self.read_within(alloc, piece, into);
        } else {
            self.read_to_the_last(alloc, piece, room as usize, into);
        }
        match self.state.fault {
            Some(fault) => Err(fault),
            None => Ok(()),
        }
    }

    // Reads a piece that goes beyond the last place of a trace.
    fn read_to_the_last(
        &mut self,
        alloc: Global,
        piece: &[u8],
        room: usize,
        into: &mut Vec<TraceRecord>,
    )
        requires clean { self.old.fault ≡ None }
        requires last { taken self.old + room ≡ longest_trace }
        requires beyond { room < length piece.now }
        ensures read { self.new.fault ≢ Some TraceFault.NoMemory →
            ReadsOn self.old piece.now self.new into.old.items into.new.items }
        ensures no_memory { self.new.fault ≡ Some TraceFault.NoMemory →
            AddsSome self.old piece.now into.old.items into.new.items }
        ensures head { KeepsHead self.old piece.now self.new }
        ensures ends { IsSome self.new.fault }
    {
        let (front, _) = piece.split_at(room);
        self.read_within(alloc, front, into);
        if self.state.fault.is_none() {
            self.stop(TraceFault::TooLong);
        }
    }

    /// Reads a piece: appends the records that became whole.
    ///
    /// At a fault the records before it are appended, and each later call answers the same fault.
    /// At `NoMemory` some of the records that became whole are appended, the first of them first,
    /// and each later call answers `NoMemory`. What `version` and `header` returned before they
    /// return then too, and they return nothing that the bytes don't have.
    pub fn feed(&mut self, piece: &[u8], into: &mut Vec<TraceRecord>) -> Result<(), TraceFault>
        // However the bytes are cut, the records and the fault are those that the bytes so far
        // have.
        ensures so_far { result ≢ Err TraceFault.NoMemory
            → (bytes : List ℕ) (first : List TraceRecord)
            → HasRead bytes first self.old into.old.items
            → HasRead (bytes ++ piece.now) first self.new into.new.items }
        ensures answer { result ≡ answer_at self.new.fault }
        ensures read { result ≢ Err TraceFault.NoMemory →
            ReadsOn self.old piece.now self.new into.old.items into.new.items }
        ensures no_memory { result ≡ Err TraceFault.NoMemory →
            AddsSome self.old piece.now into.old.items into.new.items }

        // The version and the header, once known, are known still, and what is known is what the
        // bytes have, also after want of memory.
        ensures head { KeepsHead self.old piece.now self.new }

        // A fault stays.
        ensures kept { IsSome self.old.fault →
            (self.new ≡ self.old) × (into.new.items ≡ into.old.items) }
    {
        let alloc = *self.pending.allocator();
        self.read_piece(alloc, piece, into)
    }
}
