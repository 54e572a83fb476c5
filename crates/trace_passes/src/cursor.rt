// A named trace, piece after piece.
ghost use Rattle.std.specs.Prelude.{◌≡◌, ◌≢◌, ◌++◌, ◌∷◌, ◌+◌, ◌<◌, ◌≤◌, ℕ, List, [], length, take};
ghost use Rattle.std.specs.Prelude.{true, None, Some, unwrap_or, Ok, Err, IfOk, OnOk};
ghost use Rattle.std.specs.Io.{ReadsAtMost};
ghost use Rattle.shelf.specs.Agreeing.{HasReadFront, HasShown};
ghost use Rattle.shelf.specs.Shelf.{content, Given, HasCauseAt, OnlyReads, Reads, Known, read_of};
ghost use Rattle.trace_format.specs.declared.fault.TraceFault.{TraceFault as Fault};
ghost use Rattle.trace_format.specs.declared.fault.TraceFault.TheVariants as trace_faults;
ghost use Rattle.trace_format.specs.Reading.{ending_of, reading_of};
ghost use Rattle.trace_passes.specs.Cursors.{GoesOn, HasCome, HasEnded, IsHeadOf, IsRead};
ghost use Rattle.trace_passes.specs.Cursors.{HasStopped, StopsAtMagic, StopsIn, bytes_left};
ghost use Rattle.trace_passes.specs.Cursors.{magic_length, version_and_header};
ghost use Rattle.trace_passes.specs.Passes.{HasPassCause, refusal_of, trace_refusal};
ghost use Rattle.trace_passes.specs.declared.passes.Passed.{Passed as Parts};
ghost use Rattle.trace_passes.specs.declared.wanted.Refusal.{Refusal as Refused};
ghost use Rattle.trace_passes.specs.declared.wanted.Refusal.TheVariants as refusals;

use crate::{PassFault, Passed, Refusal, Wanted};
use shelf::{Shelf, ShelfError};
use std::alloc::{AllocError, Global};
use std::marker::Model;
use trace_format::{Header, TraceFault, TraceReader, TraceRecord, Version};

// The most bytes that are asked for at once. The records of a piece are held together, so that a
// small piece keeps them few.
const PIECE: usize = 16384;

// How many bytes a magic has.
const MAGIC_LENGTH: u64 = 8;

/// A place in a named trace that is read piece after piece, and the records of the last piece.
///
/// Contracts see what the bytes so far say, how many they are, those records, and how many bytes a
/// piece has at most.
#[derive(Drop)]
pub struct Cursor {
    reader: TraceReader,
    piece: Vec<u8>,
    at: u64,
    items: Vec<TraceRecord>,
}

impl Model for Cursor {
    ghost use Rattle.std.specs.Prelude.{length};
    ghost use Rattle.trace_passes.specs.Cursors.{Reached};

    ghost Value = { Reached };

    ghost view = { λ c. record {
      reading = c.reader;
      count = c.at;
      items = c.items.items;
      piece = length c.piece.items;
    } };
}

// A buffer of some bytes. (The length is a parameter, since a proof would write out a list of a
// known length.)
fn buffer_of(alloc: Global, count: usize) -> Result<Vec<u8>, AllocError>
    ensures { IfOk result (λ buffer. length buffer.items ≡ count) }
{
    Vec::from_elem(alloc, 0u8, count)
}

// Why a pass ends at a fault of the reader: for its header before any fault of the records.
fn fault_after(refusal: Option<Refusal>, fault: TraceFault) -> PassFault
    ensures memory { fault ≡ trace_faults.NoMemory → result ≡ PassFault.NoMemory }
    ensures refused { fault ≢ trace_faults.NoMemory
        → result ≡ PassFault.Refused (unwrap_or refusal (refusals.Trace fault)) }
{
    match fault {
        TraceFault::NoMemory => PassFault::NoMemory,
        _ => PassFault::Refused(refusal.unwrap_or(Refusal::Trace(fault))),
    }
}

// Reads bytes of a name into the front of a piece. Where pcs are wanted, no byte behind the magic is
// asked for before the magic is whole.
fn fetch<S: Shelf>(
    shelf: &mut S,
    name: &str,
    at: u64,
    pcs: bool,
    piece: &mut [u8],
) -> Result<usize, ShelfError>
    requires { 0 < length piece.old }
    ensures bound { ReadsAtMost result piece.new }
    ensures bytes { IfOk result (λ n. Known (S.outside shelf.new).held
        (λ files. Reads (content files name.now) at n piece.new)) }
    ensures magic { IfOk result (λ n. pcs ≡ true → at < magic_length → at + n ≤ magic_length) }
    ensures given { IfOk result (λ n. (room : ℕ) × (0 < room) × ((S.outside shelf.new).given
        ≡ read_of name.now at room (take n piece.new) ∷ (S.outside shelf.old).given)) }
    ensures cause { HasCauseAt name.now
        (S.outside shelf.old).read_faults (S.outside shelf.new).read_faults result }
    ensures only { OnlyReads (S.outside shelf.old) (S.outside shelf.new) }
{
    if !pcs || MAGIC_LENGTH <= at {
        return shelf.read_at(name, at, piece);
    }
    let most = piece.len().min((MAGIC_LENGTH - at) as usize);
    shelf.read_at(name, at, &mut piece[..most])
}

// Reads a piece, and judges the version and the header.
fn take_piece(
    reader: &mut TraceReader,
    wanted: &Wanted,
    piece: &[u8],
    items: &mut Vec<TraceRecord>,
) -> Result<(), PassFault>
    requires empty { items.old.items ≡ [] }
    ensures read { OnOk result ((bytes : List ℕ) → reader.old ≡ (reading_of bytes).1
        → IsRead wanted.now (bytes ++ piece.now) reader.new) }
    ensures records { OnOk result ((bytes : List ℕ) → reader.old ≡ (reading_of bytes).1
        → (reading_of (bytes ++ piece.now)).0 ≡ (reading_of bytes).0 ++ items.new.items) }
    ensures refused { (refusal : Refused) → result ≡ Err (PassFault.Refused refusal)
        → (bytes more : List ℕ) → reader.old ≡ (reading_of bytes).1
        → StopsAtMagic wanted.now bytes piece.now
        → refusal_of wanted.now ((bytes ++ piece.now) ++ more) ≡ Some refusal }
    ensures stopped { (fault : Fault) → result ≡ Err (PassFault.Refused (refusals.Trace fault))
        → (bytes : List ℕ) → reader.old ≡ (reading_of bytes).1
        → StopsIn (bytes ++ piece.now) bytes fault reader.new items.new.items }
    ensures memory { result ≢ Err (PassFault.Refused (refusals.Trace trace_faults.NoMemory)) }
    ensures quiet { result ≢ Err PassFault.ReadFault }
{
    match reader.feed(piece, items) {
        Ok(()) => match wanted.refusal(reader.magic(), reader.header()) {
            Some(refusal) => Err(PassFault::Refused(refusal)),
            None => Ok(()),
        },
        Err(fault) => Err(fault_after(wanted.refusal_of_header(reader.header()), fault)),
    }
}

// What the trace is that was read without a fault, or why it is none.
fn end_of(reader: &TraceReader) -> Result<Passed, PassFault>
    requires clean { reader.now.fault ≡ None }
    requires read { (bytes : List ℕ) × (reader.now ≡ (reading_of bytes).1) }
    ensures ending { IfOk result (λ passed. ending_of reader.now ≡ Ok passed.ending) }
    ensures progress { IfOk result (λ passed. IsHeadOf reader.now.progress passed) }
    ensures refused { (refusal : Refused) → result ≡ Err (PassFault.Refused refusal)
        → trace_refusal (ending_of reader.now) ≡ Some refusal }
    ensures memory { result ≢ Err (PassFault.Refused (refusals.Trace trace_faults.NoMemory)) }
    ensures quiet { result ≢ Err PassFault.ReadFault }
{
    let ending = match reader.finish() {
        Ok(ending) => ending,
        Err(fault) => return Err(PassFault::Refused(Refusal::Trace(fault))),
    };
    let Some(version) = reader.version() else {
        unreachable!();
    };
    let Some(header) = reader.header() else {
        unreachable!();
    };
    Ok(Passed {
        version,
        header,
        ending,
    })
}

impl Cursor {
    ghost use Rattle.std.specs.Prelude.{Option};
    ghost use Rattle.shelf.specs.Shelf.{Files};
    ghost use Rattle.trace_passes.specs.declared.wanted.Wanted.{Wanted as Wish};

    /// A cursor before the first byte.
    pub fn new(alloc: Global) -> Result<Cursor, PassFault>
        ensures begins { IfOk result
            (λ cursor. (held : Option Files) (name : List ℕ) (wanted : Wish)
            → HasCome held name wanted [] cursor) }
        ensures memory { (fault : PassFault) → result ≡ Err fault → fault ≡ PassFault.NoMemory }
    {
        Ok(Cursor {
            reader: TraceReader::new(alloc)?,
            piece: buffer_of(alloc, PIECE)?,
            at: 0,
            items: Vec::new(alloc),
        })
    }

    /// The records that became whole in the last piece.
    pub fn items(&self) -> &[TraceRecord]
        ensures { result.now ≡ self.now.items }
    {
        &self.items
    }

    /// The version and the header, None exactly before the header's 20 bytes were accepted.
    pub fn head(&self) -> Option<(Version, Header)>
        ensures { result ≡ version_and_header self.now.reading.progress }
    {
        match (self.reader.version(), self.reader.header()) {
            (Some(version), Some(header)) => Some((version, header)),
            _ => None,
        }
    }

    /// Reads the next piece of a name, of at most 16 KiB, and judges the header once it is
    /// accepted. Where pcs are wanted, the first 8 bytes are read and judged before any byte behind
    /// them is asked for. None stands for more records, and the trace's parts for its end.
    ///
    /// The condition is that the bytes so far are read without a fault. At a fault of the trace the
    /// cursor has the records before it; at any other error nothing is said of the cursor.
    pub fn advance<S: Shelf>(
        &mut self,
        shelf: &mut S,
        name: &str,
        wanted: &Wanted,
    ) -> Result<Option<Passed>, PassFault>
        requires { (bytes : List ℕ)
            × HasCome (S.outside shelf.old).held name.now wanted.now bytes self.old }
        // More bytes were read, and their records are there.
        ensures more { result ≡ Ok None → (bytes : List ℕ)
            → HasCome (S.outside shelf.old).held name.now wanted.now bytes self.old
            → GoesOn (S.outside shelf.old) (S.outside shelf.new) name.now wanted.now bytes
            self.new }
        ensures fewer { result ≡ Ok None → bytes_left self.new < bytes_left self.old }
        // No more bytes are there, and those so far are a trace.
        ensures ended { (passed : Parts) → result ≡ Ok (Some passed) → (bytes : List ℕ)
            → HasCome (S.outside shelf.old).held name.now wanted.now bytes self.old
            → HasEnded (S.outside shelf.new).held name.now wanted.now bytes passed }
        // What reads have given shows that, also where none are known.
        ensures shown { (passed : Parts) → result ≡ Ok (Some passed) → (bytes : List ℕ)
            → HasCome (S.outside shelf.old).held name.now wanted.now bytes self.old
            → (before : List Given)
            → HasReadFront name.now bytes before (S.outside shelf.old).given
            → HasShown name.now (λ file. bytes ≡ file) before (S.outside shelf.new).given }
        ensures refused { (refusal : Refused) → result ≡ Err (PassFault.Refused refusal)
            → Known (S.outside shelf.new).held
            (λ files. refusal_of wanted.now (content files name.now) ≡ Some refusal) }
        // It is that of some bytes, also where none are known.
        ensures found { (refusal : Refused) → result ≡ Err (PassFault.Refused refusal)
            → (bytes : List ℕ) × (refusal_of wanted.now bytes ≡ Some refusal) }
        // What reads have given shows it.
        ensures shown_refused { (refusal : Refused) → result ≡ Err (PassFault.Refused refusal)
            → (bytes : List ℕ)
            → HasCome (S.outside shelf.old).held name.now wanted.now bytes self.old
            → (before : List Given)
            → HasReadFront name.now bytes before (S.outside shelf.old).given
            → HasShown name.now (λ file. refusal_of wanted.now file ≡ Some refusal) before
            (S.outside shelf.new).given }
        // At a fault of the trace it has read all that the bytes say.
        ensures stopped { (fault : Fault)
            → result ≡ Err (PassFault.Refused (refusals.Trace fault)) → (bytes : List ℕ)
            → HasCome (S.outside shelf.old).held name.now wanted.now bytes self.old
            → HasStopped (S.outside shelf.new).held name.now wanted.now bytes
            (refusals.Trace fault) self.new }
        ensures memory { result ≢ Err (PassFault.Refused (refusals.Trace trace_faults.NoMemory)) }
        ensures cause { HasPassCause name.now (S.outside shelf.old) (S.outside shelf.new) result }
        ensures only { OnlyReads (S.outside shelf.old) (S.outside shelf.new) }
    {
        self.items.clear();
        let count = fetch(shelf, name, self.at, wanted.pcs, &mut self.piece)?;
        if count == 0 {
            return Ok(Some(end_of(&self.reader)?));
        }
        take_piece(
            &mut self.reader,
            wanted,
            &self.piece[..count],
            &mut self.items,
        )?;
        self.at += count as u64;
        Ok(None)
    }
}
