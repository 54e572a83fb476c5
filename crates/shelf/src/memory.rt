// A shelf in memory, whose calls fail by a list.
ghost use Rattle.std.specs.Prelude.{◌≡◌, ◌-◌, ◌↔◌, ◌⊎◌, min, List, ℕ, None, length, IfOk, OnErr};
ghost use Rattle.std.specs.Prelude.{IsOkUnless, IsErrOf, IfSome, IsOk, IsSome};
ghost use Rattle.std.specs.Option.{option_copied, ForSome};
ghost use Rattle.std.specs.Io.KnownBytes.{Appends};
ghost use Rattle.std.specs.Io.{ReadsAtMost};
ghost use Rattle.shelf.specs.Shelf.{content, Known, Goes, ChangesAt, HasCause, HasCauseAt, given_after};
ghost use Rattle.shelf.specs.Shelf.{OnlyReads, OnlyWrites, OnlyPrints, Reads, AddsUnless};
ghost use Rattle.shelf.specs.Shelf.{AppendsUnless, Begins};
ghost use Rattle.shelf.specs.Failing.{failing_at, kept_of};

use crate::files::{append_to, begin_file, bytes_of, read_file};
use crate::read_log::{ReadBytes, ReadLog};
use crate::{HeldFile, Shelf, ShelfError};
use base::NoMemory;
use std::alloc::Global;

/// A call of a shelf in memory that is to fail.
#[derive(Clone, Copy, Debug, PartialEq, Eq)]
pub struct Failing {
    /// The call's number, counted from 1 over all calls.
    pub call: u64,
    /// How many bytes an append or a print keeps first, at most its whole piece. No other call
    /// keeps any.
    pub keep: u32,
}

/// Files and a printed text in memory. All of these are known.
///
/// A call answers `Failed` exactly where its number is among those that are to fail, or where it
/// reads a name that isn't held. It counts its faults by kind, for all names alike. A number of
/// calls or faults that has reached 2^64 - 1 stays there.
#[derive(Drop)]
pub struct MemoryShelf {
    alloc: Global,
    files: Vec<HeldFile>,
    failing: Vec<Failing>,
    written: Vec<HeldFile>,
    printed: Vec<u8>,
    calls: u64,
    read_faults: u64,
    write_faults: u64,
    print_faults: u64,
    log: ReadLog,
}

// How many bytes the call of a number keeps, where it is to fail.
fn kept_by(failing: &[Failing], call: u64) -> Option<u32>
    ensures { result ≡ failing_at failing.now call }
{
    failing
        .iter()
        .find(|entry| entry.call == call)
        .map(|entry| entry.keep)
}

impl MemoryShelf {
    ghost use Rattle.shelf.specs.MemoryShelf.{memory_outside, fresh_outside, failing_calls};
    ghost use Rattle.shelf.specs.MemoryShelf.{calls_made, next_number, next_failure};

    /// A shelf that holds these files, with nothing written or printed, no faults and no calls yet.
    /// Of two files of one name, and of two entries for one call, the first counts.
    ///
    /// The error is want of memory.
    pub fn new(alloc: Global, files: Vec<HeldFile>, failing: Vec<Failing>) -> Result<Self, NoMemory>
        ensures fresh { IfOk result (λ shelf. memory_outside shelf ≡ fresh_outside files.items) }
        ensures failing { IfOk result (λ shelf. failing_calls shelf ≡ failing.items) }
        ensures calls { IfOk result (λ shelf. calls_made shelf ≡ 0) }
    {
        Ok(MemoryShelf {
            alloc,
            files,
            failing,
            written: Vec::new(alloc),
            printed: Vec::new(alloc),
            calls: 0,
            read_faults: 0,
            write_faults: 0,
            print_faults: 0,
            log: ReadLog::new(),
        })
    }

    /// What was printed.
    pub fn printed(&self) -> &[u8]
        ensures { (memory_outside self.now).printed ≡ Some result.now }
    {
        &self.printed
    }

    /// What was written under a name: None exactly where no `begin` of it answered Ok.
    pub fn written(&self, name: &str) -> Option<&[u8]>
        ensures { IfSome (memory_outside self.now).written
            (λ files. option_copied result ≡ files name.now) }
    {
        bytes_of(&self.written, name)
    }

    // Counts a call, and answers how many bytes it keeps, where it is to fail.
    fn count_call(&mut self) -> Option<u32>
        ensures failure { result ≡ next_failure self.old }
        ensures others { self.new ≡ record self.old { calls = next_number self.old.calls } }
    {
        self.calls = self.calls.saturating_add(1);
        kept_by(&self.failing, self.calls)
    }
}

impl Shelf for MemoryShelf {
    ghost use Rattle.shelf.specs.MemoryShelf.{memory_outside, next_failure, faults_after};
    ghost use Rattle.shelf.specs.MemoryShelf.{CountsCall, IsHeld};

    ghost outside = { memory_outside };

    /// Reads all bytes from `at` on for which there is room. Takes no memory.
    fn read_at(&mut self, name: &str, at: u64, into: &mut [u8]) -> Result<usize, ShelfError>
        ensures bound { ReadsAtMost result into.new }
        ensures bytes { IfOk result (λ n. Known (memory_outside self.new).held
            (λ files. Reads (content files name.now) at n into.new)) }
        ensures given { (memory_outside self.new).given
            ≡ given_after result name.now at into.new (memory_outside self.old).given }
        ensures cause { HasCauseAt name.now
            (memory_outside self.old).read_faults (memory_outside self.new).read_faults result }
        ensures only { OnlyReads (memory_outside self.old) (memory_outside self.new) }

        // Beyond the trait's: when it fails, how much it reads, and what it counts.
        ensures failed { IsErrOf result ShelfError.Failed
            ↔ (IsSome (next_failure self.old) ⊎ ¬ (IsHeld self.old name.now)) }
        ensures ok { IsOk result ↔ ((next_failure self.old ≡ None) × IsHeld self.old name.now) }
        ensures memory { IsOkUnless result ShelfError.Failed }
        ensures count { IfOk result (λ n. Known (memory_outside self.old).held
            (λ files. n ≡ min (length (content files name.now) - at) (length into.new))) }
        ensures faults { (n : List ℕ) → (memory_outside self.new).read_faults n
            ≡ faults_after result ((memory_outside self.old).read_faults n) }
        ensures call { CountsCall self.old self.new }
    {
        if self.count_call().is_some() {
            self.read_faults = self.read_faults.saturating_add(1);
            return Err(ShelfError::Failed);
        }
        match read_file(&self.files, name, at, into) {
            Some(count) => {
                self.log = self.log.and(&ReadBytes {
                    name,
                    at,
                    room: into.len(),
                    bytes: &into[..count],
                });
                Ok(count)
            }
            None => {
                self.read_faults = self.read_faults.saturating_add(1);
                Err(ShelfError::Failed)
            }
        }
    }

    /// Leaves the name as it was at each error.
    fn begin(&mut self, name: &str) -> Result<(), ShelfError>
        ensures begins { Goes (memory_outside self.old).written (memory_outside self.new).written
            (ChangesAt name.now (Begins result)) }
        ensures cause { HasCauseAt name.now
            (memory_outside self.old).write_faults (memory_outside self.new).write_faults result }
        ensures only { OnlyWrites (memory_outside self.old) (memory_outside self.new) }

        // Beyond the trait's: when it fails, what it leaves, and what it counts.
        ensures failed { IsErrOf result ShelfError.Failed ↔ IsSome (next_failure self.old) }
        ensures ok { IsOk result → next_failure self.old ≡ None }
        ensures err { OnErr result
            ((memory_outside self.new).written ≡ (memory_outside self.old).written) }
        ensures faults { (n : List ℕ) → (memory_outside self.new).write_faults n
            ≡ faults_after result ((memory_outside self.old).write_faults n) }
        ensures call { CountsCall self.old self.new }
    {
        if self.count_call().is_some() {
            self.write_faults = self.write_faults.saturating_add(1);
            return Err(ShelfError::Failed);
        }
        begin_file(self.alloc, &mut self.written, name)
    }

    /// Where it is to fail, it adds as many bytes as are listed first, or finds no memory for them.
    /// Without memory nothing was added.
    fn append(&mut self, name: &str, piece: &[u8]) -> Result<(), ShelfError>
        requires { ForSome (memory_outside self.old).written (λ files. IsSome (files name.now)) }
        ensures appends { Goes (memory_outside self.old).written (memory_outside self.new).written
            (ChangesAt name.now (λ old new. AppendsUnless old new result piece.now)) }
        ensures cause { HasCauseAt name.now
            (memory_outside self.old).write_faults (memory_outside self.new).write_faults result }
        ensures only { OnlyWrites (memory_outside self.old) (memory_outside self.new) }

        // Beyond the trait's: when it fails, what it keeps, and what it counts.
        ensures failed { IsErrOf result ShelfError.Failed → IsSome (next_failure self.old) }
        ensures ok { IsOk result → next_failure self.old ≡ None }
        ensures kept { Goes (memory_outside self.old).written (memory_outside self.new).written
            (ChangesAt name.now
            (λ old new. Appends old new (kept_of result (next_failure self.old) piece.now))) }
        ensures faults { (n : List ℕ) → (memory_outside self.new).write_faults n
            ≡ faults_after result ((memory_outside self.old).write_faults n) }
        ensures call { CountsCall self.old self.new }
    {
        if let Some(keep) = self.count_call() {
            let kept = (keep as usize).min(piece.len());
            append_to(&mut self.written, name, &piece[..kept])?;
            self.write_faults = self.write_faults.saturating_add(1);
            return Err(ShelfError::Failed);
        }
        append_to(&mut self.written, name, piece)
    }

    /// Where it is to fail, it adds as many bytes as are listed first, or finds no memory for them.
    /// Without memory nothing was added.
    fn print(&mut self, piece: &[u8]) -> Result<(), ShelfError>
        ensures prints { AddsUnless
            (memory_outside self.old).printed (memory_outside self.new).printed result piece.now }
        ensures cause { HasCause
            (memory_outside self.old).print_faults (memory_outside self.new).print_faults result }
        ensures only { OnlyPrints (memory_outside self.old) (memory_outside self.new) }

        // Beyond the trait's: when it fails, what it keeps, and what it counts.
        ensures failed { IsErrOf result ShelfError.Failed → IsSome (next_failure self.old) }
        ensures ok { IsOk result → next_failure self.old ≡ None }
        ensures kept { Appends (memory_outside self.old).printed (memory_outside self.new).printed
            (kept_of result (next_failure self.old) piece.now) }
        ensures faults { (memory_outside self.new).print_faults
            ≡ faults_after result (memory_outside self.old).print_faults }
        ensures call { CountsCall self.old self.new }
    {
        if let Some(keep) = self.count_call() {
            let kept = (keep as usize).min(piece.len());
            self.printed.extend_from_slice(&piece[..kept])?;
            self.print_faults = self.print_faults.saturating_add(1);
            return Err(ShelfError::Failed);
        }
        self.printed.extend_from_slice(piece)?;
        Ok(())
    }
}
