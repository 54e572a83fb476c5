// A copy of a trace in the other version.
ghost use Rattle.std.specs.Prelude.{◌≡◌, ◌≢◌, ◌∷◌, [], Err, None, Some, length};
ghost use Rattle.std.specs.Prelude.{IfErr, IfOk};
ghost use Rattle.shelf.specs.Shelf.{HasRead};
ghost use Rattle.trace_format.specs.declared.fault.TraceFault.TheVariants as trace_faults;
ghost use Rattle.trace_format.specs.Rules.{touches_in};
ghost use Rattle.trace_passes.specs.declared.wanted.Refusal.{Refusal as Refused};
ghost use Rattle.trace_passes.specs.declared.wanted.Refusal.TheVariants as refusals;
ghost use Rattle.trace_files.specs.Copies.{HasCopied, HasStopped, IsJudged, StaysWhereRefused};
ghost use Rattle.trace_files.specs.Copies.{IsOther, IsUnfiltered, conversion, other_version};
ghost use Rattle.trace_files.specs.Copying.{HasChanged, IsAccepted};

use crate::CopyFault;
use crate::copy::{accept, copy_again};
use crate::copy_fault::write_fault;
use crate::trace_file::TraceFile;
use shelf::{Shelf, ShelfError};
use std::alloc::Global;
use trace_format::Version;
use trace_passes::Passed;

/// What was written of a trace in the other version.
#[derive(Clone, Copy, PartialEq, Eq, Debug)]
pub struct Converted {
    /// The version that was written.
    pub version: Version,
    /// How many accesses there are.
    pub accesses: u64,
}

fn other_version(version: Version) -> Version
    ensures { result ≡ other_version version }
{
    match version {
        Version::One => Version::Two,
        Version::Two => Version::One,
        Version::Three => Version::Two,
        Version::Four => Version::Four,
    }
}

// Writes an accepted trace in the other version.
fn convert_accepted<S: Shelf>(
    alloc: Global,
    shelf: &mut S,
    name: &str,
    output: &str,
    first: &Passed,
) -> Result<Converted, CopyFault>
    requires { IsAccepted (S.outside shelf.old).held name.now first.now }
    ensures copied { IfOk result (λ made. HasCopied (S.outside shelf.new).held name.now
        (conversion output.now)
        (λ t. (made.version ≡ other_version t.version)
        × (made.accesses ≡ length (touches_in t.items)) × IsUnfiltered t)
        (S.outside shelf.old) (S.outside shelf.new)) }
    ensures unrefused { (refusal : Refused) → result ≢ Err (CopyFault.Refused refusal) }
    ensures changed { (refusal : Refused) → result ≡ Err (CopyFault.Changed refusal)
        → (S.outside shelf.new).held ≡ None }
    ensures other { (refusal : Refused) → result ≡ Err (CopyFault.Changed refusal)
        → IsOther name.now first.now refusal (S.outside shelf.old).given
        (S.outside shelf.new).given }
    ensures stopped { IfErr result (λ fault. HasStopped (S.outside shelf.new).held name.now
        (output.now ∷ []) (conversion output.now) (S.outside shelf.old)
        (S.outside shelf.new) fault) }
{
    let version = other_version(first.version);
    let mut target = match TraceFile::begin(alloc, shelf, output, version, first.header) {
        Ok(target) => target,
        Err(error) => return Err(write_fault(error)),
    };
    let second = match copy_again(alloc, shelf, name, first, &mut target) {
        Ok(passed) => passed,
        Err(fault) => return Err(fault),
    };
    match target.finish(shelf) {
        Ok(()) => Ok(Converted {
            version,
            accesses: second.ending.accesses,
        }),
        Err(error) => Err(write_fault(error)),
    }
}

/// Writes a trace in the other version: the same header, records and end. Of version 1 that is
/// version 2, of version 2 version 1, and of version 3 version 2, without the pcs.
///
/// The trace is read twice in pieces, and no more of it is kept than a piece has. The output is
/// begun only once a first reading was accepted. At an error after that it is as it was, or a
/// front of what it would be. `Refused` comes exactly where a pass refuses the trace, `ReadFault`
/// only where the faults of reading its name rose, `WriteFault` only where those of writing the
/// output rose.
pub fn convert_trace<S: Shelf>(
    alloc: Global,
    shelf: &mut S,
    name: &str,
    output: &str,
) -> Result<Converted, CopyFault>
    // The file is that of the trace that the name's bytes are.
    ensures copied { IfOk result (λ made. HasCopied (S.outside shelf.new).held name.now
        (conversion output.now)
        (λ t. (made.version ≡ other_version t.version)
        × (made.accesses ≡ length (touches_in t.items)) × IsUnfiltered t)
        (S.outside shelf.old) (S.outside shelf.new)) }
    // At a refusal the trace was read, and nothing else is done.
    ensures refused { (refusal : Refused) → result ≡ Err (CopyFault.Refused refusal)
        → IsJudged (S.outside shelf.new).held name.now (Some refusal) }
    ensures stays { (refusal : Refused) → result ≡ Err (CopyFault.Refused refusal)
        → HasRead (S.outside shelf.old) (S.outside shelf.new) }
    ensures memory { result ≢ Err (CopyFault.Refused (refusals.Trace trace_faults.NoMemory)) }
    // A second reading is refused as no trace, or beside the first: for its version, its number of
    // harts, its first position, or its number of accesses. What its reads have given is refused so,
    // and no files are known then, or no more.
    ensures changed { (refusal : Refused) → result ≡ Err (CopyFault.Changed refusal)
        → (S.outside shelf.new).held ≡ None }
    ensures other { (refusal : Refused) → result ≡ Err (CopyFault.Changed refusal)
        → HasChanged name.now refusal (S.outside shelf.old).given (S.outside shelf.new).given }
    // Only an accepted trace is written, whatever the fault.
    ensures accepted { result ≡ Err CopyFault.WriteFault
        → IsJudged (S.outside shelf.new).held name.now None }
    ensures begun { IfErr result (λ fault. StaysWhereRefused (S.outside shelf.new).held name.now
        (S.outside shelf.old) (S.outside shelf.new)) }
    ensures stopped { IfErr result (λ fault. HasStopped (S.outside shelf.new).held name.now
        (output.now ∷ []) (conversion output.now) (S.outside shelf.old)
        (S.outside shelf.new) fault) }
{
    match accept(alloc, shelf, name) {
        Ok(first) => convert_accepted(alloc, shelf, name, output, &first),
        Err(fault) => Err(fault),
    }
}
