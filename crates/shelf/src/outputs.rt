// Files on their way, in a list.
ghost use Rattle.std.specs.Prelude.{◌≡◌, ◌<◌, ◌++◌, ◌∷◌, List, [], length, OnOk, IfErr};
ghost use Rattle.shelf.specs.Shelf.{Outside};
ghost use Rattle.shelf.specs.Files.{Output, AreCut, AreWritten};
ghost use Rattle.shelf.specs.OneFile.{LosesNothing};
ghost use Rattle.shelf.specs.OnTheirWay.{AreBegun, IsNew, IsOutputs, NothingWaits, names_of};
ghost use Rattle.shelf.specs.OnTheirWay.{outputs_with, waiting_with};

use crate::sink::Sink;
use crate::{Shelf, ShelfError};
use std::alloc::Global;
use std::marker::Model;

/// Files on their way, each under a name of its own, in the order in which they were begun. So where
/// a call gives up, the first of them are begun, each a front of all that was put into it.
///
/// Contracts see the name of each file and the bytes that wait for it. After a call that answers an
/// error it isn't known any more which bytes wait: put nothing more.
#[derive(Drop)]
pub struct Outputs<'a> {
    files: Vec<Sink<'a>>,
}

impl<'a> Model for Outputs<'a> {
    ghost use Rattle.std.specs.Prelude.{List};
    ghost use Rattle.shelf.specs.OneFile.{Waiting};
    ghost use Rattle.shelf.specs.OnTheirWay.{AreApart, names_of};

    ghost Value = { List Waiting };

    ghost view = { λ o. o.files.items };

    ghost invariant = { λ o. AreApart (names_of o.files.items) };
}

impl<'a> Outputs<'a> {
    /// No file yet.
    pub fn new(alloc: Global) -> Outputs<'a>
        ensures none { result ≡ [] }
        ensures outputs { (outside : Outside) → IsOutputs result [] outside outside }
    {
        Outputs {
            files: Vec::new(alloc),
        }
    }

    /// Begins the file of a name that none of the others has. It comes behind them, and nothing is
    /// put into it yet.
    ///
    /// At an error the name is as it was, or its file is empty. `Failed` comes only where the
    /// faults of writing this name rose, `NoMemory` for want of memory.
    pub fn begin<S: Shelf>(
        &mut self,
        alloc: Global,
        shelf: &mut S,
        name: &'a str,
    ) -> Result<(), ShelfError>
        requires { IsNew name.now (names_of self.old) }
        ensures begun { OnOk result (self.new ≡ self.old ++ record { name = name.now; kept = [] }
            ∷ []) }
        ensures ready { OnOk result (AreBegun (names_of self.old) (S.outside shelf.old)
            → AreBegun (names_of self.new) (S.outside shelf.new)) }
        ensures outputs { OnOk result ((outputs : List Output) (before : Outside)
            → IsOutputs self.old outputs before (S.outside shelf.old)
            → IsOutputs self.new (outputs ++ record { name = name.now; bytes = [] } ∷ []) before
            (S.outside shelf.new)) }
        ensures cut { IfErr result (λ error. (outputs : List Output) (before : Outside)
            → IsOutputs self.old outputs before (S.outside shelf.old)
            → AreCut (outputs ++ record { name = name.now; bytes = [] } ∷ []) before
            (S.outside shelf.new) error) }
        ensures keeps_held { (S.outside shelf.new).held ≡ (S.outside shelf.old).held }
        ensures gives { (S.outside shelf.new).given ≡ (S.outside shelf.old).given }
    {
        match Sink::begin(alloc, shelf, name) {
            Ok(sink) => {
                self.files.push(sink)?;
                Ok(())
            }
            Err(error) => Err(error),
        }
    }

    /// Adds bytes to the file at a place, counted from 0. Once 64 KiB or more wait for it, all of
    /// them go to the file in one call.
    ///
    /// At an error each file is a front of all that was put into it, these bytes included, and none
    /// has lost what was written to it. `Failed` comes only where the faults of writing one of the
    /// names rose, `NoMemory` for want of memory. The condition is that each file is begun, where
    /// what is written is known.
    #[inline]
    pub fn put<S: Shelf>(
        &mut self,
        shelf: &mut S,
        place: usize,
        bytes: &[u8],
    ) -> Result<(), ShelfError>
        requires place { place < length self.old }
        requires begun { AreBegun (names_of self.old) (S.outside shelf.old) }
        ensures count { length self.new ≡ length self.old }
        ensures names { names_of self.new ≡ names_of self.old }
        ensures begun { AreBegun (names_of self.new) (S.outside shelf.new) }
        ensures waiting { OnOk result (self.new ≡ waiting_with self.old place bytes.now) }
        ensures outputs { OnOk result ((outputs : List Output) (before : Outside)
            → IsOutputs self.old outputs before (S.outside shelf.old)
            → IsOutputs self.new (outputs_with outputs place bytes.now) before
            (S.outside shelf.new)) }
        ensures cut { IfErr result (λ error. (outputs : List Output) (before : Outside)
            → IsOutputs self.old outputs before (S.outside shelf.old)
            → AreCut (outputs_with outputs place bytes.now) before (S.outside shelf.new) error) }
        ensures stays { LosesNothing (S.outside shelf.old) (S.outside shelf.new) }
        ensures keeps_held { (S.outside shelf.new).held ≡ (S.outside shelf.old).held }
        ensures gives { (S.outside shelf.new).given ≡ (S.outside shelf.old).given }
    {
        let file = &mut self.files[place];
        file.put(shelf, bytes)
    }

    /// Appends what still waits to the files, in their order: each is then all that was put into
    /// it. More may be put afterwards.
    ///
    /// At an error each file is a front of all that was put into it, and none has lost what was
    /// written to it. `Failed` comes only where the faults of writing one of the names rose,
    /// `NoMemory` for want of memory. The condition is that each file is begun, where what is
    /// written is known.
    pub fn finish<S: Shelf>(&mut self, shelf: &mut S) -> Result<(), ShelfError>
        requires { AreBegun (names_of self.old) (S.outside shelf.old) }
        ensures count { OnOk result (length self.new ≡ length self.old) }
        ensures names { OnOk result (names_of self.new ≡ names_of self.old) }
        ensures begun { OnOk result (AreBegun (names_of self.new) (S.outside shelf.new)) }
        ensures nothing_waits { OnOk result (NothingWaits self.new) }
        ensures outputs { OnOk result ((outputs : List Output) (before : Outside)
            → IsOutputs self.old outputs before (S.outside shelf.old)
            → IsOutputs self.new outputs before (S.outside shelf.new)) }
        ensures written { OnOk result ((outputs : List Output) (before : Outside)
            → IsOutputs self.old outputs before (S.outside shelf.old)
            → AreWritten outputs before (S.outside shelf.new)) }
        ensures cut { IfErr result (λ error. (outputs : List Output) (before : Outside)
            → IsOutputs self.old outputs before (S.outside shelf.old)
            → AreCut outputs before (S.outside shelf.new) error) }
        ensures stays { LosesNothing (S.outside shelf.old) (S.outside shelf.new) }
        ensures keeps_held { (S.outside shelf.new).held ≡ (S.outside shelf.old).held }
        ensures gives { (S.outside shelf.new).given ≡ (S.outside shelf.old).given }
    {
        for place in 0..self.files.len() {
            let file = &mut self.files[place];
            match file.finish(shelf) {
                Ok(()) => {}
                Err(error) => return Err(error),
            }
        }
        Ok(())
    }
}
