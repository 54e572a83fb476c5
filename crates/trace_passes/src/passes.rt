// One pass over a named trace.
ghost use Rattle.std.specs.Prelude.{◌≡◌, ◌≢◌, ◌++◌, ◌<◌, List, [], length};
ghost use Rattle.std.specs.Prelude.{None, Some, Err, IfOk, OnOk, true};
ghost use Rattle.std.specs.List.{All};
ghost use Rattle.shelf.specs.Agreeing.{HasShown};
ghost use Rattle.shelf.specs.Shelf.{content, OnlyReads, Known};
ghost use Rattle.trace_format.specs.declared.record.Header.{Header as Head};
ghost use Rattle.trace_format.specs.declared.record.TraceRecord.{TraceRecord as Record};
ghost use Rattle.trace_format.specs.declared.fault.TraceFault.TheVariants as trace_faults;
ghost use Rattle.trace_format.specs.Rules.{IsGoodHeader, IsWritable};
ghost use Rattle.trace_passes.specs.declared.wanted.Refusal.{Refusal as Refused};
ghost use Rattle.trace_passes.specs.declared.wanted.Refusal.TheVariants as refusals;
ghost use Rattle.trace_passes.specs.Passes.{HasParts, HasPassCause, HasPassed, HasPcs, IsWanted};
ghost use Rattle.trace_passes.specs.Passes.{near_refusal, refusal_of};
ghost use Rattle.trace_passes.specs.Rooms.{HasRoom};

use crate::{Cursor, Observer, Refusal, Wanted};
use base::NoMemory as WantOfMemory;
use shelf::{Shelf, ShelfError};
use std::alloc::{AllocError, Global};
use trace_format::{Header, TraceEnd, TraceRecord, Version};

/// What a trace is whose records an observer saw.
#[derive(Clone, Copy, PartialEq, Eq, Debug)]
pub struct Passed {
    /// How it spells its accesses.
    pub version: Version,
    /// Its header.
    pub header: Header,
    /// Its end.
    pub ending: TraceEnd,
}

/// Why a pass gave up.
#[derive(Clone, Copy, PartialEq, Eq, Debug)]
pub enum PassFault {
    /// The trace is refused.
    Refused(Refusal),
    /// A read failed: the shelf's faults of reading this name rose in this call.
    ReadFault,
    /// Memory ran out: the shelf's, the observer's or this call's.
    NoMemory,
}

impl From<AllocError> for PassFault {
    ghost use Rattle.trace_passes.specs.declared.passes.PassFault.TheVariants.{NoMemory};

    ghost from_gives = { λ _ e. e ≡ NoMemory };

    fn from(_: AllocError) -> Self {
        PassFault::NoMemory
    }
}

impl From<WantOfMemory> for PassFault {
    ghost use Rattle.trace_passes.specs.declared.passes.PassFault.TheVariants.{NoMemory};

    ghost from_gives = { λ _ e. e ≡ NoMemory };

    fn from(_: WantOfMemory) -> Self {
        PassFault::NoMemory
    }
}

impl From<ShelfError> for PassFault {
    ghost use Rattle.trace_passes.specs.Ways.{pass_fault};

    ghost from_gives = { λ s e. e ≡ pass_fault s };

    fn from(error: ShelfError) -> Self {
        match error {
            ShelfError::Failed => PassFault::ReadFault,
            ShelfError::NoMemory => PassFault::NoMemory,
        }
    }
}

// Gives records to the observer, one after the other.
fn note_all<O: Observer>(observer: &mut O, items: &[TraceRecord]) -> Result<(), WantOfMemory>
    requires good { All IsWritable items.now }
    requires room { 0 < length items.now → HasRoom O.begins O.given observer.old items.now }
    ensures given { OnOk result ((begun : O) (seen : List Record) → O.given begun observer.old seen
        → O.given begun observer.new (seen ++ items.now)) }
{
    for item in items {
        observer.note(item)?;
    }
    Ok(())
}

/// Reads the trace of a name in pieces of at most 16 KiB, and gives each record to the observer, in
/// order, the end record last.
///
/// Where pcs are wanted, the first 8 bytes are judged before anything behind them is read: the magic
/// of version 1 or 2 is refused. Once the header is accepted it is judged: that the trace is filtered, or has
/// too small regions, then another number of harts than is wanted, then another first position, comes
/// before any fault of the records. `ReadFault`
/// comes only where the shelf's faults of reading this name rose in this call, and `NoMemory` for
/// want of memory alone. At an error nothing is said of the observer.
pub fn pass<S: Shelf, O: Observer>(
    alloc: Global,
    shelf: &mut S,
    name: &str,
    wanted: &Wanted,
    observer: &mut O,
) -> Result<Passed, PassFault>
    // Where the header is as wanted, the observer may begin at its first position.
    requires begins { (header : Head) → IsGoodHeader header → IsWanted wanted.now header
        → O.begins observer.old header.first }
    requires fresh { O.given observer.old observer.old [] }
    // The observer was given all records of the trace that the name's bytes are.
    ensures passed { IfOk result (λ passed. HasPassed (S.outside shelf.new).held name.now passed
        (O.given observer.old observer.new)) }
    ensures head { IfOk result (λ passed. IsGoodHeader passed.header
        × IsWanted wanted.now passed.header) }
    // Only versions 3 and 4 pass where pcs are wanted.
    ensures sited { IfOk result (λ passed. wanted.now.pcs ≡ true → HasPcs passed.version) }
    // A filtered trace passes only where its regions are as large as is wanted.
    ensures near { IfOk result (λ passed. near_refusal wanted.now.lines passed.header.near
        ≡ None) }
    ensures accepted { OnOk result (Known (S.outside shelf.new).held
        (λ files. refusal_of wanted.now (content files name.now) ≡ None)) }
    ensures refused { (refusal : Refused) → result ≡ Err (PassFault.Refused refusal)
        → Known (S.outside shelf.new).held
        (λ files. refusal_of wanted.now (content files name.now) ≡ Some refusal) }
    // What the reads of this call have given shows so much, also where none are known.
    ensures shown { IfOk result (λ passed. HasShown name.now (HasParts passed)
        (S.outside shelf.old).given (S.outside shelf.new).given) }
    ensures shown_refused { (refusal : Refused) → result ≡ Err (PassFault.Refused refusal)
        → HasShown name.now (λ file. refusal_of wanted.now file ≡ Some refusal)
        (S.outside shelf.old).given (S.outside shelf.new).given }
    ensures memory { result ≢ Err (PassFault.Refused (refusals.Trace trace_faults.NoMemory)) }
    // A fault of reading has its cause, and no number rises with another answer.
    ensures cause { HasPassCause name.now (S.outside shelf.old) (S.outside shelf.new) result }
    ensures only { OnlyReads (S.outside shelf.old) (S.outside shelf.new) }
{
    let mut cursor = Cursor::new(alloc)?;
    'pieces: loop {
        if let Some(passed) = cursor.advance(shelf, name, wanted)? {
            return Ok(passed);
        }
        note_all(observer, cursor.items())?;
    }
}
