// The bytes that wait for one file.
ghost use Rattle.std.specs.Prelude.{◌≡◌, ◌<◌, ◌++◌, List, ℕ, [], length, IfOk, OnOk, OnErr, IsOk};
ghost use Rattle.shelf.specs.Shelf.{Goes, ChangesAt, Begins, HasCauseAt, OnlyWrites};
ghost use Rattle.shelf.specs.OneFile.{kept_of, IsBegun, Sunk, Holds, HoldsFront, OthersStay};
ghost use Rattle.shelf.specs.OneFile.{LosesNothing, OthersStand};

use crate::{Shelf, ShelfError};
use std::alloc::Global;
use std::marker::Model;

// How many bytes are put before the file is written.
const PIECE: usize = 65536;

// Bytes on their way to the file of a name: what was put is the file's content, and then the fewer
// than 64 KiB that still wait. After a call that answers an error it isn't known any more which
// bytes wait.
#[derive(Drop)]
pub(crate) struct Sink<'a> {
    name: &'a str,
    kept: Vec<u8>,
}

impl<'a> Model for Sink<'a> {
    ghost use Rattle.shelf.specs.OneFile.{Waiting};

    ghost Value = { Waiting };

    ghost view = { λ s. record { name = s.name.now; kept = s.kept.items } };
}

impl<'a> Sink<'a> {
    // Begins the file of a name, with nothing put.
    pub(crate) fn begin<S: Shelf>(
        alloc: Global,
        shelf: &mut S,
        name: &'a str,
    ) -> Result<Sink<'a>, ShelfError>
        // An empty sink over an empty file.
        ensures fresh { IfOk result (λ sink. sink ≡ record { name = name.now; kept = [] }) }
        ensures sunk { IfOk result (λ sink. Sunk sink [] (S.outside shelf.new)) }
        ensures begun { OnOk result (IsBegun name.now (S.outside shelf.new)) }

        // What is written, at an error too.
        ensures begins { Goes (S.outside shelf.old).written (S.outside shelf.new).written
            (ChangesAt name.now (Begins result)) }
        ensures others { OthersStay name.now (S.outside shelf.old) (S.outside shelf.new) }
        ensures others_stand { OthersStand name.now (S.outside shelf.old) (S.outside shelf.new) }
        ensures cause { HasCauseAt name.now
            (S.outside shelf.old).write_faults (S.outside shelf.new).write_faults result }
        ensures only { OnlyWrites (S.outside shelf.old) (S.outside shelf.new) }
    {
        shelf.begin(name)?;
        Ok(Sink {
            name,
            kept: Vec::new(alloc),
        })
    }

    // Adds bytes. Once 64 KiB or more wait, all of them go to the file in one call.
    #[inline]
    pub(crate) fn put<S: Shelf>(&mut self, shelf: &mut S, bytes: &[u8]) -> Result<(), ShelfError>
        requires { IsBegun self.old.name (S.outside shelf.old) }
        // What was put is what was put before, and then these bytes.
        ensures sunk { OnOk result ((pushed : List ℕ) → Sunk self.old pushed (S.outside shelf.old)
            → Sunk self.new (pushed ++ bytes.now) (S.outside shelf.new)) }
        ensures kept { OnOk result (self.new.kept ≡ kept_of (self.old.kept ++ bytes.now)) }
        ensures front { OnErr result ((pushed : List ℕ) → Sunk self.old pushed (S.outside shelf.old)
            → HoldsFront self.old.name (pushed ++ bytes.now) (S.outside shelf.new)) }
        // While they wait, the shelf is left alone.
        ensures waits { length (self.old.kept ++ bytes.now) < 65536 → shelf.new ≡ shelf.old }

        // The sink's name stays, and stays begun.
        ensures name { self.new.name ≡ self.old.name }
        ensures begun { IsBegun self.old.name (S.outside shelf.new) }
        // What the file has stays, at an error too.
        ensures stays { LosesNothing (S.outside shelf.old) (S.outside shelf.new) }
        ensures others { OthersStay self.old.name (S.outside shelf.old) (S.outside shelf.new) }
        ensures others_stand { OthersStand self.old.name (S.outside shelf.old)
            (S.outside shelf.new) }
        ensures cause { HasCauseAt self.old.name
            (S.outside shelf.old).write_faults (S.outside shelf.new).write_faults result }
        ensures only { OnlyWrites (S.outside shelf.old) (S.outside shelf.new) }
    {
        self.kept.extend_from_slice(bytes)?;
        if self.kept.len() < PIECE {
            return Ok(());
        }
        self.finish(shelf)
    }

    // Appends what still waits to the file, which is then all that was put.
    pub(crate) fn finish<S: Shelf>(&mut self, shelf: &mut S) -> Result<(), ShelfError>
        requires { IsBegun self.old.name (S.outside shelf.old) }
        // The file is what was put, and nothing waits.
        ensures whole { OnOk result ((pushed : List ℕ) → Sunk self.old pushed (S.outside shelf.old)
            → Holds self.old.name pushed (S.outside shelf.new)) }
        ensures sunk { OnOk result ((pushed : List ℕ) → Sunk self.old pushed (S.outside shelf.old)
            → Sunk self.new pushed (S.outside shelf.new)) }
        ensures kept { OnOk result (self.new.kept ≡ []) }
        ensures front { OnErr result ((pushed : List ℕ) → Sunk self.old pushed (S.outside shelf.old)
            → HoldsFront self.old.name pushed (S.outside shelf.new)) }
        // Where nothing waits, the shelf is left alone.
        ensures idle { self.old.kept ≡ [] → IsOk result × (shelf.new ≡ shelf.old) }

        // The sink's name stays, and stays begun.
        ensures name { self.new.name ≡ self.old.name }
        ensures begun { IsBegun self.old.name (S.outside shelf.new) }
        // What the file has stays, at an error too.
        ensures stays { LosesNothing (S.outside shelf.old) (S.outside shelf.new) }
        ensures others { OthersStay self.old.name (S.outside shelf.old) (S.outside shelf.new) }
        ensures others_stand { OthersStand self.old.name (S.outside shelf.old)
            (S.outside shelf.new) }
        ensures cause { HasCauseAt self.old.name
            (S.outside shelf.old).write_faults (S.outside shelf.new).write_faults result }
        ensures only { OnlyWrites (S.outside shelf.old) (S.outside shelf.new) }
    {
        if self.kept.is_empty() {
            return Ok(());
        }
        shelf.append(self.name, &self.kept)?;
        self.kept.clear();
        Ok(())
    }
}
