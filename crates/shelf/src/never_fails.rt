// A shelf whose calls always answer Ok, and that keeps nothing.
ghost use Rattle.std.specs.Prelude.{◌≡◌, ◌-◌, min, length, IfOk, IsOk, IsSome};
ghost use Rattle.std.specs.Option.{ForSome};
ghost use Rattle.std.specs.Io.{ReadsAtMost};
ghost use Rattle.shelf.specs.Shelf.{content, Known, Goes, ChangesAt, HasCause, HasCauseAt, given_after};
ghost use Rattle.shelf.specs.Shelf.{OnlyReads, OnlyWrites, OnlyPrints, Reads, AddsUnless};
ghost use Rattle.shelf.specs.Shelf.{AppendsUnless, Begins};
ghost use Rattle.shelf.specs.HeldFile.{file_of};

use crate::files::read_file;
use crate::read_log::{ReadBytes, ReadLog};
use crate::{HeldFile, Shelf, ShelfError};

/// Files in memory that are read without a fault. These files alone are known: what is written or
/// printed is dropped. Its calls take no memory and always answer Ok.
#[derive(Drop)]
pub struct NeverFails {
    files: Vec<HeldFile>,
    log: ReadLog,
}

impl NeverFails {
    ghost use Rattle.shelf.specs.NeverFails.{never_fails_outside, faultless_outside};

    /// A shelf that holds these files. Of two files of one name the first counts.
    pub fn new(files: Vec<HeldFile>) -> Self
        ensures { never_fails_outside result ≡ faultless_outside files.items }
    {
        NeverFails {
            files,
            log: ReadLog::new(),
        }
    }
}

// Reads the file of a name, which is empty where there is none.
fn read_or_none(files: &[HeldFile], name: &str, at: u64, into: &mut [u8]) -> usize
    ensures count { result
        ≡ min (length (content (file_of files.now) name.now) - at) (length into.new) }
    ensures reads { Reads (content (file_of files.now) name.now) at result into.new }
{
    match read_file(files, name, at, into) {
        Some(count) => count,
        None => 0,
    }
}

impl Shelf for NeverFails {
    ghost use Rattle.shelf.specs.NeverFails.{never_fails_outside};

    ghost outside = { never_fails_outside };

    /// Reads all bytes from `at` on for which there is room. A name that isn't held reads as an
    /// empty file.
    fn read_at(&mut self, name: &str, at: u64, into: &mut [u8]) -> Result<usize, ShelfError>
        ensures bound { ReadsAtMost result into.new }
        ensures bytes { IfOk result (λ n. Known (never_fails_outside self.new).held
            (λ files. Reads (content files name.now) at n into.new)) }
        ensures given { (never_fails_outside self.new).given
            ≡ given_after result name.now at into.new (never_fails_outside self.old).given }
        ensures cause { HasCauseAt name.now
            (never_fails_outside self.old).read_faults (never_fails_outside self.new).read_faults
            result }
        ensures only { OnlyReads (never_fails_outside self.old) (never_fails_outside self.new) }
        ensures always { IsOk result }
        ensures count { IfOk result (λ n. Known (never_fails_outside self.old).held
            (λ files. n ≡ min (length (content files name.now) - at) (length into.new))) }
    {
        let count = read_or_none(&self.files, name, at, into);
        self.log = self.log.and(&ReadBytes {
            name,
            at,
            room: into.len(),
            bytes: &into[..count],
        });
        Ok(count)
    }

    /// Does nothing.
    fn begin(&mut self, _name: &str) -> Result<(), ShelfError>
        ensures begins { Goes (never_fails_outside self.old).written
            (never_fails_outside self.new).written
            (ChangesAt _name.now (Begins result)) }
        ensures cause { HasCauseAt _name.now
            (never_fails_outside self.old).write_faults (never_fails_outside self.new).write_faults
            result }
        ensures only { OnlyWrites (never_fails_outside self.old) (never_fails_outside self.new) }
        ensures always { IsOk result }
    {
        Ok(())
    }

    /// Does nothing.
    fn append(&mut self, _name: &str, _piece: &[u8]) -> Result<(), ShelfError>
        requires { ForSome (never_fails_outside self.old).written
            (λ files. IsSome (files _name.now)) }
        ensures appends { Goes (never_fails_outside self.old).written
            (never_fails_outside self.new).written
            (ChangesAt _name.now (λ old new. AppendsUnless old new result _piece.now)) }
        ensures cause { HasCauseAt _name.now
            (never_fails_outside self.old).write_faults (never_fails_outside self.new).write_faults
            result }
        ensures only { OnlyWrites (never_fails_outside self.old) (never_fails_outside self.new) }
        ensures always { IsOk result }
    {
        Ok(())
    }

    /// Does nothing.
    fn print(&mut self, _piece: &[u8]) -> Result<(), ShelfError>
        ensures prints { AddsUnless
            (never_fails_outside self.old).printed (never_fails_outside self.new).printed result
            _piece.now }
        ensures cause { HasCause
            (never_fails_outside self.old).print_faults (never_fails_outside self.new).print_faults
            result }
        ensures only { OnlyPrints (never_fails_outside self.old) (never_fails_outside self.new) }
        ensures always { IsOk result }
    {
        Ok(())
    }
}
