// The outputs of a call that writes traces.
ghost use Rattle.std.specs.Prelude.{◌≡◌, ◌<◌, ◌+◌, ◌∷◌, ◌++◌, List, [], length};
ghost use Rattle.std.specs.Prelude.{IfErr, IfOk, OnOk};
ghost use Rattle.shelf.specs.Shelf.{Outside};
ghost use Rattle.shelf.specs.Files.{AreCut, AreWritten, Output};
ghost use Rattle.shelf.specs.OnTheirWay.{AreBegun, IsNew, IsOutputs, names_of, outputs_with};
ghost use Rattle.trace_format.specs.Rules.{IsGoodHeader, IsWritable};
ghost use Rattle.trace_format.specs.Spelling.{before_after, spell_header, spell_record};
ghost use Rattle.trace_format.specs.Writing.{begin_writing, begun_with};

use shelf::{Outputs, Shelf, ShelfError};
use std::alloc::Global;
use std::marker::Model;
use trace_format::{Header, TraceRecord, TraceWriter, Version};

/// The outputs of a call that writes traces: each has a place, counted from 0, and gets a trace
/// part by part, or bytes of another kind. Contracts see what waits for the files.
#[derive(Drop)]
pub struct TraceOutputs<'a> {
    outputs: Outputs<'a>,
    // the bytes of one part
    piece: Vec<u8>,
}

impl<'a> Model for TraceOutputs<'a> {
    ghost use Rattle.std.specs.Prelude.{List};
    ghost use Rattle.shelf.specs.OneFile.{Waiting};

    ghost Value = { List Waiting };

    ghost view = { λ o. o.outputs };
}

impl<'a> TraceOutputs<'a> {
    /// No file yet.
    pub fn new(alloc: Global) -> TraceOutputs<'a>
        ensures none { result ≡ [] }
        ensures outputs { (outside : Outside) → IsOutputs result [] outside outside }
    {
        TraceOutputs {
            outputs: Outputs::new(alloc),
            piece: Vec::new(alloc),
        }
    }

    /// Begins a file behind the others, with nothing put into it.
    pub fn begin<S: Shelf>(
        &mut self,
        alloc: Global,
        shelf: &mut S,
        name: &'a str,
    ) -> Result<(), ShelfError>
        requires { IsNew name.now (names_of self.old) }
        ensures begun { OnOk result (self.new ≡ self.old ++ record { name = name.now; kept = [] }
            ∷ []) }
        ensures ready { OnOk result (AreBegun (names_of self.old) (S.outside shelf.old)
            → AreBegun (names_of self.new) (S.outside shelf.new)) }
        ensures outputs { OnOk result ((outputs : List Output) (before : Outside)
            → IsOutputs self.old outputs before (S.outside shelf.old)
            → IsOutputs self.new (outputs ++ record { name = name.now; bytes = [] } ∷ []) before
            (S.outside shelf.new)) }
        ensures cut { IfErr result (λ error. (outputs : List Output) (before : Outside)
            → IsOutputs self.old outputs before (S.outside shelf.old)
            → AreCut (outputs ++ record { name = name.now; bytes = [] } ∷ []) before
            (S.outside shelf.new) error) }
        ensures keeps_held { (S.outside shelf.new).held ≡ (S.outside shelf.old).held }
        ensures gives { (S.outside shelf.new).given ≡ (S.outside shelf.old).given }
    {
        self.outputs.begin(alloc, shelf, name)
    }

    /// Begins a file at the place behind the others, and puts the header of a trace into it.
    pub fn begin_trace<S: Shelf>(
        &mut self,
        alloc: Global,
        shelf: &mut S,
        place: usize,
        name: &'a str,
        version: Version,
        header: Header,
    ) -> Result<TraceWriter, ShelfError>
        requires place { length self.old ≡ place }
        requires name { IsNew name.now (names_of self.old) }
        requires begun { AreBegun (names_of self.old) (S.outside shelf.old) }
        requires good { IsGoodHeader header }
        ensures writer { IfOk result (λ writer. writer ≡ begin_writing version) }
        ensures count { OnOk result (length self.new ≡ place + 1) }
        ensures begun { OnOk result (AreBegun (names_of self.new) (S.outside shelf.new)) }
        ensures outputs { OnOk result ((outputs : List Output) (before : Outside)
            → IsOutputs self.old outputs before (S.outside shelf.old)
            → IsOutputs self.new (outputs ++ record
            { name = name.now; bytes = begun_with version header [] } ∷ [])
            before (S.outside shelf.new)) }
        ensures cut { IfErr result (λ error. (outputs : List Output) (before : Outside)
            → IsOutputs self.old outputs before (S.outside shelf.old)
            → AreCut (outputs ++ record
            { name = name.now; bytes = begun_with version header [] } ∷ [])
            before (S.outside shelf.new) error) }
        ensures keeps_held { (S.outside shelf.new).held ≡ (S.outside shelf.old).held }
        ensures gives { (S.outside shelf.new).given ≡ (S.outside shelf.old).given }
    {
        match self.begin(alloc, shelf, name) {
            Ok(()) => {}
            Err(error) => return Err(error),
        }
        let mut writer = TraceWriter::new(version);
        match self.put_header(shelf, place, &mut writer, header) {
            Ok(()) => Ok(writer),
            Err(error) => Err(error),
        }
    }

    // Puts a header into the file at a place.
    fn put_header<S: Shelf>(
        &mut self,
        shelf: &mut S,
        place: usize,
        writer: &mut TraceWriter,
        header: Header,
    ) -> Result<(), ShelfError>
        requires place { place < length self.old }
        requires begun { AreBegun (names_of self.old) (S.outside shelf.old) }
        requires good { IsGoodHeader header }
        ensures writer { writer.new ≡ writer.old }
        ensures count { length self.new ≡ length self.old }
        ensures begun { AreBegun (names_of self.new) (S.outside shelf.new) }
        ensures outputs { OnOk result ((outputs : List Output) (before : Outside)
            → IsOutputs self.old outputs before (S.outside shelf.old)
            → IsOutputs self.new (outputs_with outputs place
            (spell_header writer.old.version header))
            before (S.outside shelf.new)) }
        ensures cut { IfErr result (λ error. (outputs : List Output) (before : Outside)
            → IsOutputs self.old outputs before (S.outside shelf.old)
            → AreCut (outputs_with outputs place (spell_header writer.old.version header))
            before (S.outside shelf.new) error) }
        ensures keeps_held { (S.outside shelf.new).held ≡ (S.outside shelf.old).held }
        ensures gives { (S.outside shelf.new).given ≡ (S.outside shelf.old).given }
    {
        self.piece.clear();
        match writer.header(header, &mut self.piece) {
            Ok(()) => self.outputs.put(shelf, place, &self.piece),
            Err(_) => Err(ShelfError::NoMemory),
        }
    }

    /// Puts a record into the file at a place, as its writer spells it.
    #[inline]
    pub fn put_record<S: Shelf>(
        &mut self,
        shelf: &mut S,
        place: usize,
        writer: &mut TraceWriter,
        item: &TraceRecord,
    ) -> Result<(), ShelfError>
        requires place { place < length self.old }
        requires begun { AreBegun (names_of self.old) (S.outside shelf.old) }
        requires writable { IsWritable item.now }
        ensures next { OnOk result (writer.new ≡ record writer.old
            { before = before_after writer.old.before item.now }) }
        ensures count { length self.new ≡ length self.old }
        ensures begun { AreBegun (names_of self.new) (S.outside shelf.new) }
        ensures outputs { OnOk result ((outputs : List Output) (before : Outside)
            → IsOutputs self.old outputs before (S.outside shelf.old)
            → IsOutputs self.new
            (outputs_with outputs place
            (spell_record writer.old.version writer.old.before item.now))
            before (S.outside shelf.new)) }
        ensures cut { IfErr result (λ error. (outputs : List Output) (before : Outside)
            → IsOutputs self.old outputs before (S.outside shelf.old)
            → AreCut (outputs_with outputs place
            (spell_record writer.old.version writer.old.before item.now))
            before (S.outside shelf.new) error) }
        ensures keeps_held { (S.outside shelf.new).held ≡ (S.outside shelf.old).held }
        ensures gives { (S.outside shelf.new).given ≡ (S.outside shelf.old).given }
    {
        self.piece.clear();
        match writer.item(item, &mut self.piece) {
            Ok(()) => self.outputs.put(shelf, place, &self.piece),
            Err(_) => Err(ShelfError::NoMemory),
        }
    }

    /// Puts bytes into the file at a place.
    #[inline]
    pub fn put_bytes<S: Shelf>(
        &mut self,
        shelf: &mut S,
        place: usize,
        bytes: &[u8],
    ) -> Result<(), ShelfError>
        requires place { place < length self.old }
        requires begun { AreBegun (names_of self.old) (S.outside shelf.old) }
        ensures count { length self.new ≡ length self.old }
        ensures begun { AreBegun (names_of self.new) (S.outside shelf.new) }
        ensures outputs { OnOk result ((outputs : List Output) (before : Outside)
            → IsOutputs self.old outputs before (S.outside shelf.old)
            → IsOutputs self.new (outputs_with outputs place bytes.now) before
            (S.outside shelf.new)) }
        ensures cut { IfErr result (λ error. (outputs : List Output) (before : Outside)
            → IsOutputs self.old outputs before (S.outside shelf.old)
            → AreCut (outputs_with outputs place bytes.now) before (S.outside shelf.new) error) }
        ensures keeps_held { (S.outside shelf.new).held ≡ (S.outside shelf.old).held }
        ensures gives { (S.outside shelf.new).given ≡ (S.outside shelf.old).given }
    {
        self.outputs.put(shelf, place, bytes)
    }

    /// Appends what still waits to the files. More may be put afterwards.
    pub fn finish<S: Shelf>(&mut self, shelf: &mut S) -> Result<(), ShelfError>
        requires { AreBegun (names_of self.old) (S.outside shelf.old) }
        ensures count { OnOk result (length self.new ≡ length self.old) }
        ensures outputs { OnOk result ((outputs : List Output) (before : Outside)
            → IsOutputs self.old outputs before (S.outside shelf.old)
            → IsOutputs self.new outputs before (S.outside shelf.new)) }
        ensures written { OnOk result ((outputs : List Output) (before : Outside)
            → IsOutputs self.old outputs before (S.outside shelf.old)
            → AreWritten outputs before (S.outside shelf.new)) }
        ensures cut { IfErr result (λ error. (outputs : List Output) (before : Outside)
            → IsOutputs self.old outputs before (S.outside shelf.old)
            → AreCut outputs before (S.outside shelf.new) error) }
        ensures keeps_held { (S.outside shelf.new).held ≡ (S.outside shelf.old).held }
        ensures gives { (S.outside shelf.new).given ≡ (S.outside shelf.old).given }
    {
        self.outputs.finish(shelf)
    }
}
