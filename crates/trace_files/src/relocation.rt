// A trace with its accesses moved.
ghost use Rattle.std.specs.Prelude.{◌≡◌, ◌≢◌, ◌++◌, ℕ, List, Option, Err, IfErr, IfOk, OnOk};
ghost use Rattle.std.specs.List.{All};
ghost use Rattle.shelf.specs.Shelf.{Outside};
ghost use Rattle.shelf.specs.Files.{AreWritten};
ghost use Rattle.trace_format.specs.declared.fault.TraceFault.TheVariants as trace_faults;
ghost use Rattle.trace_format.specs.declared.record.Header.{Header as Head};
ghost use Rattle.trace_format.specs.declared.record.TraceRecord.{TraceRecord as Record};
ghost use Rattle.trace_format.specs.declared.record.Version.{Version as AVersion};
ghost use Rattle.trace_format.specs.Rules.{IsWritable};
ghost use Rattle.trace_passes.specs.declared.wanted.Refusal.{Refusal as Refused};
ghost use Rattle.trace_passes.specs.declared.wanted.Refusal.TheVariants as refusals;
ghost use Rattle.trace_passes.specs.Cursors.{version_and_header};
ghost use Rattle.trace_files.specs.declared.move_row.Move.{Move as AMove};
ghost use Rattle.trace_files.specs.Copies.{HasCopied};
ghost use Rattle.trace_files.specs.Movers.{EndsAt, Follows, HasMoved, MayTake, StopsAt};
ghost use Rattle.trace_files.specs.Moving.{HasGivenUp, IsCounted, IsRefused, moved_so_far, moving};

use crate::copy::any;
use crate::move_fault::write_fault;
use crate::mover::Mover;
use crate::taking::take;
use crate::{MoveFault, MoveTable};
use shelf::Shelf;
use std::alloc::Global;
use trace_passes::{Cursor, PassFault, Passed, Refusal};

/// What was written of a trace with its accesses moved.
#[derive(Clone, Copy, PartialEq, Eq, Debug)]
pub struct Moved {
    /// How many accesses there are.
    pub accesses: u64,
    /// How many of them lie in a range of the table, whose place may be the range itself.
    pub moved: u64,
}

// Writes what waits of a whole trace.
fn end_whole<S: Shelf>(
    shelf: &mut S,
    mover: &mut Mover<'_>,
    passed: &Passed,
) -> Result<Moved, MoveFault>
    requires way { (table : List AMove) × (name : List ℕ) × (head : Option (AVersion × Head))
        × (seen : List Record) × (before : Outside)
        × HasMoved table name mover.old head seen before (S.outside shelf.old) }
    ensures written { OnOk result ((table : List AMove) (name : List ℕ)
        (head : Option (AVersion × Head)) (seen : List Record) (before : Outside)
        → HasMoved table name mover.old head seen before (S.outside shelf.old)
        → AreWritten (moved_so_far table name head seen) before (S.outside shelf.new)) }
    ensures accesses { IfOk result (λ made. made.accesses ≡ passed.now.ending.accesses) }
    ensures moved { IfOk result (λ made. made.moved ≡ mover.old.moved) }
    ensures stopped { IfErr result (λ fault. (table : List AMove) (name : List ℕ)
        (head : Option (AVersion × Head)) (seen : List Record) (before : Outside)
        → HasMoved table name mover.old head seen before (S.outside shelf.old)
        → StopsAt table name head seen before (S.outside shelf.new) fault) }
    ensures keeps_held { (S.outside shelf.new).held ≡ (S.outside shelf.old).held }
{
    match mover.finish(shelf) {
        Ok(()) => Ok(Moved {
            accesses: passed.ending.accesses,
            moved: mover.moved,
        }),
        Err(error) => Err(write_fault(error)),
    }
}

// Puts and writes the records before the fault of a trace.
fn end_refused<S: Shelf>(
    alloc: Global,
    shelf: &mut S,
    table: &MoveTable,
    mover: &mut Mover<'_>,
    cursor: &Cursor,
    refusal: Refusal,
) -> MoveFault
    requires writable { All IsWritable cursor.now.items }
    requires way { MayTake table.now mover.old (version_and_header cursor.now.reading.progress)
        cursor.now.items (S.outside shelf.old) }
    ensures ends { (known : Option (AVersion × Head)) (seen : List Record) (before : Outside)
        → HasMoved table.now mover.old.name.now mover.old known seen before (S.outside shelf.old)
        → Follows known seen (version_and_header cursor.now.reading.progress) cursor.now.items
        → EndsAt table.now mover.old.name.now (version_and_header cursor.now.reading.progress)
        (seen ++ cursor.now.items) before (S.outside shelf.new) refusal result }
    ensures keeps_held { (S.outside shelf.new).held ≡ (S.outside shelf.old).held }
{
    match take(alloc, shelf, table, mover, cursor.head(), cursor.items()) {
        Ok(()) => {}
        Err(fault) => return fault,
    }
    match mover.finish(shelf) {
        Ok(()) => MoveFault::Refused(refusal),
        Err(error) => write_fault(error),
    }
}

/// Writes a trace to `file` with its accesses moved as a table says: in the version that it has, the
/// same header, all records in order, the accesses with their pcs at the places that their ranges
/// go to, and the same end. Blocks and symbols stay where they were. A filtered trace stays one: of
/// its own regions, or of 256 bytes where these are larger, and of as many accesses as were filtered.
///
/// The trace is read once, in pieces, and no more of it is kept than a piece has. The file is begun
/// once the header is accepted; where a fault comes before that, it is as it was. An access that is in
/// no range and lies in a place is `Occupied`. Else an access of a filtered trace is `Far` if a place
/// has a byte that is near it once it is moved and that comes from far. The first of these faults is
/// answered, where no fault of the trace comes before it; the file has all records before it then, as
/// it has those before a fault of the trace. At any other fault it is a front of that. `ReadFault`
/// comes only where the faults of reading the trace rose, and `WriteFault` only where those of
/// writing the file rose.
pub fn move_trace<S: Shelf>(
    alloc: Global,
    shelf: &mut S,
    trace: &str,
    table: &MoveTable,
    file: &str,
) -> Result<Moved, MoveFault>
    // The file is the moved trace that the trace's bytes are, none of whose accesses is refused.
    ensures moved { IfOk result (λ made. HasCopied (S.outside shelf.new).held trace.now
        (moving table.now file.now) (IsCounted table.now made)
        (S.outside shelf.old) (S.outside shelf.new)) }
    // The bytes are refused so, and all is written that is written of them.
    ensures refused { (refusal : Refused) → result ≡ Err (MoveFault.Refused refusal)
        → IsRefused (S.outside shelf.new).held trace.now file.now table.now
        (S.outside shelf.old) (S.outside shelf.new) (MoveFault.Refused refusal) }
    ensures occupied { (addr : ℕ) → result ≡ Err (MoveFault.Occupied addr)
        → IsRefused (S.outside shelf.new).held trace.now file.now table.now
        (S.outside shelf.old) (S.outside shelf.new) (MoveFault.Occupied addr) }
    ensures far { (addr : ℕ) → result ≡ Err (MoveFault.Far addr)
        → IsRefused (S.outside shelf.new).held trace.now file.now table.now
        (S.outside shelf.old) (S.outside shelf.new) (MoveFault.Far addr) }
    ensures memory { result ≢ Err (MoveFault.Refused (refusals.Trace trace_faults.NoMemory)) }
    ensures given_up { IfErr result (λ fault. HasGivenUp (S.outside shelf.new).held trace.now
        file.now table.now (S.outside shelf.old) (S.outside shelf.new) fault) }
{
    let mut cursor = match Cursor::new(alloc) {
        Ok(cursor) => cursor,
        Err(_) => return Err(MoveFault::NoMemory),
    };
    let mut mover = Mover::new(alloc, file);
    'pieces: loop {
        match cursor.advance(shelf, trace, &any()) {
            Ok(Some(passed)) => return end_whole(shelf, &mut mover, &passed),
            Ok(None) => match take(
                alloc,
                shelf,
                table,
                &mut mover,
                cursor.head(),
                cursor.items(),
            ) {
                Ok(()) => {}
                Err(fault) => return Err(fault),
            },
            Err(PassFault::Refused(refusal)) => {
                return Err(end_refused(alloc, shelf, table, &mut mover, &cursor, refusal));
            }
            Err(PassFault::ReadFault) => return Err(MoveFault::ReadFault),
            Err(PassFault::NoMemory) => return Err(MoveFault::NoMemory),
        }
    }
}
