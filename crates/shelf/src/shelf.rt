// The outside: files under names, and a printed text.
ghost use Rattle.std.specs.Prelude.{◌≡◌, IfOk, IsSome};
ghost use Rattle.std.specs.Option.{ForSome};
ghost use Rattle.std.specs.Io.{ReadsAtMost};
ghost use Rattle.shelf.specs.Shelf.{Outside, content, Known, Goes, ChangesAt, HasCause, HasCauseAt};
ghost use Rattle.shelf.specs.Shelf.{given_after};
ghost use Rattle.shelf.specs.Shelf.{OnlyReads, OnlyWrites, OnlyPrints, Reads, AddsUnless};
ghost use Rattle.shelf.specs.Shelf.{AppendsUnless, Begins};

use std::alloc::{AllocError, AllocFailed};

/// Why a call of a shelf gave up.
#[derive(Clone, Copy, Debug, PartialEq, Eq)]
pub enum ShelfError {
    /// The outside failed. The shelf's number of faults for the call's kind and name rose in this
    /// call.
    Failed,
    /// Memory ran out. No number of faults changed.
    NoMemory,
}

impl From<AllocError> for ShelfError {
    ghost use Rattle.shelf.specs.declared.shelf.ShelfError.TheVariants.{NoMemory};

    ghost from_gives = { λ _ e. e ≡ NoMemory };

    fn from(_: AllocError) -> Self {
        ShelfError::NoMemory
    }
}

impl<T: Drop> From<AllocFailed<T>> for ShelfError {
    ghost use Rattle.shelf.specs.declared.shelf.ShelfError.TheVariants.{NoMemory};

    ghost from_gives = { λ _ e. e ≡ NoMemory };

    fn from(_: AllocFailed<T>) -> Self {
        ShelfError::NoMemory
    }
}

/// What a run lets be seen beside what is written and printed.
#[derive(Clone, Copy, Debug)]
pub enum RunShown<'a> {
    /// Bytes that the guest puts out, and that no file gets.
    Output(&'a [u8]),
    /// The latest hart that was to start found none free, of so many.
    NoFreeHart(u16),
    /// The guest has ended by itself, with this exit code.
    ExitCode(u32),
}

/// Files under names and a printed text, any of whose calls may fail.
///
/// A file that is read and a file that is written under one name have nothing to do with each
/// other. What a shelf holds, what was written and what was printed need not be known: what the
/// clauses say of these holds where they are known. What it holds stays the same as long as it is
/// known, and only a read may make it unknown: where a shelf can't keep others from changing its
/// files, as one on a disk, they are known for as long as what is read is theirs, and no more once
/// a read gave other bytes.
pub trait Shelf {
    /// What is held, was written and was printed, where known, how often calls have failed, and
    /// what reads have given.
    ghost outside: { Self → Outside };

    /// Reads bytes of the held file of a name into the front of `into`, from the byte `at` on, and
    /// answers how many. It answers 0 into a buffer that isn't empty only at or past the file's
    /// end. A name that isn't held reads as an empty file, or fails.
    ///
    /// `Failed` comes only where the faults of reading this name rose.
    fn read_at(&mut self, name: &str, at: u64, into: &mut [u8]) -> Result<usize, ShelfError>
        ensures bound { ReadsAtMost result into.new }
        ensures bytes { IfOk result (λ n. Known (outside self.new).held
            (λ files. Reads (content files name.now) at n into.new)) }
        ensures given { (outside self.new).given
            ≡ given_after result name.now at into.new (outside self.old).given }
        ensures cause { HasCauseAt name.now
            (outside self.old).read_faults (outside self.new).read_faults result }
        ensures only { OnlyReads (outside self.old) (outside self.new) };

    /// Makes the written file of a name empty, and makes one where there is none. At an error the
    /// name is as it was, or its file is empty.
    ///
    /// `Failed` comes only where the faults of writing this name rose.
    fn begin(&mut self, name: &str) -> Result<(), ShelfError>
        ensures begins { Goes (outside self.old).written (outside self.new).written
            (ChangesAt name.now (Begins result)) }
        ensures cause { HasCauseAt name.now
            (outside self.old).write_faults (outside self.new).write_faults result }
        ensures only { OnlyWrites (outside self.old) (outside self.new) };

    /// Adds a piece to the written file of a name that was begun. At an error a prefix of it was
    /// added.
    ///
    /// `Failed` comes only where the faults of writing this name rose.
    fn append(&mut self, name: &str, piece: &[u8]) -> Result<(), ShelfError>
        requires { ForSome (outside self.old).written (λ files. IsSome (files name.now)) }
        ensures appends { Goes (outside self.old).written (outside self.new).written
            (ChangesAt name.now (λ old new. AppendsUnless old new result piece.now)) }
        ensures cause { HasCauseAt name.now
            (outside self.old).write_faults (outside self.new).write_faults result }
        ensures only { OnlyWrites (outside self.old) (outside self.new) };

    /// Adds a piece to the printed text. At an error a prefix of it was added.
    ///
    /// `Failed` comes only where the faults of printing rose.
    fn print(&mut self, piece: &[u8]) -> Result<(), ShelfError>
        ensures prints { AddsUnless (outside self.old).printed (outside self.new).printed result
            piece.now }
        ensures cause { HasCause (outside self.old).print_faults (outside self.new).print_faults
            result }
        ensures only { OnlyPrints (outside self.old) (outside self.new) };

    /// Hears how far long work is: so many steps are made, of at most `most`. A shelf may show
    /// that to whoever waits. It changes nothing outside, and is no call that can fail.
    fn show_steps(&mut self, _made: u64, _most: u64)
        ensures { outside self.new ≡ outside self.old }
    {}

    /// Hears what a run lets be seen, which a shelf may show to whoever called for it. It changes
    /// nothing outside, and is no call that can fail.
    fn show_run(&mut self, _shown: RunShown<'_>)
        ensures { outside self.new ≡ outside self.old }
    {}
}
