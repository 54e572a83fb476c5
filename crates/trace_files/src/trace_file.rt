// One trace on its way to the file of a name.
ghost use Rattle.std.specs.Prelude.{◌≡◌, List, [], OnOk, IfErr, IfOk};
ghost use Rattle.shelf.specs.Shelf.{Outside};
ghost use Rattle.shelf.specs.Files.{AreCut, AreWritten, Output};
ghost use Rattle.shelf.specs.OnTheirWay.{AreBegun, IsOutputs, names_of};
ghost use Rattle.trace_format.specs.declared.record.TraceRecord.{TraceRecord as Record};
ghost use Rattle.trace_format.specs.Rules.{IsGoodHeader};
ghost use Rattle.trace_files.specs.OneTrace.{HasPut, so_far, trace_so_far};

use crate::target::Target;
use crate::trace_outputs::TraceOutputs;
use shelf::{Shelf, ShelfError};
use std::alloc::Global;
use trace_format::{Header, TraceRecord, TraceWriter, Version};

// A trace on its way: its header stands in the file, or waits for it, and each record is put behind
// the others.
#[derive(Drop)]
pub(crate) struct TraceFile<'a> {
    name: &'a str,
    version: Version,
    header: Header,
    writer: TraceWriter,
    files: TraceOutputs<'a>,
}

impl<'a> Target for TraceFile<'a> {
    ghost waiting = { λ f. f.files };

    ghost files = { λ f. so_far f };

    ghost has = { λ f seen. HasPut f seen };

    #[inline]
    fn put<S: Shelf>(&mut self, shelf: &mut S, item: &TraceRecord) -> Result<(), ShelfError> {
        self.files.put_record(shelf, 0, &mut self.writer, item)
    }
}

impl<'a> TraceFile<'a> {
    // Begins the file, and puts the header into it.
    pub(crate) fn begin<S: Shelf>(
        alloc: Global,
        shelf: &mut S,
        name: &'a str,
        version: Version,
        header: Header,
    ) -> Result<TraceFile<'a>, ShelfError>
        requires { IsGoodHeader header }
        ensures files { IfOk result (λ f. so_far f ≡ trace_so_far name.now version header) }
        ensures has { IfOk result (λ f. HasPut f []) }
        ensures outputs { IfOk result (λ f. IsOutputs f.files
            (trace_so_far name.now version header [])
            (S.outside shelf.old) (S.outside shelf.new)) }
        ensures cut { IfErr result (λ error. AreCut (trace_so_far name.now version header [])
            (S.outside shelf.old) (S.outside shelf.new) error) }
        ensures gives { (S.outside shelf.new).given ≡ (S.outside shelf.old).given }
    {
        let mut files = TraceOutputs::new(alloc);
        match files.begin_trace(alloc, shelf, 0, name, version, header) {
            Ok(writer) => Ok(TraceFile {
                name,
                version,
                header,
                writer,
                files,
            }),
            Err(error) => Err(error),
        }
    }

    // Appends what still waits to the file. More may be put afterwards.
    pub(crate) fn finish<S: Shelf>(&mut self, shelf: &mut S) -> Result<(), ShelfError>
        requires { AreBegun (names_of self.old.files) (S.outside shelf.old) }
        ensures files { so_far self.new ≡ so_far self.old }
        ensures has { OnOk result ((seen : List Record) → HasPut self.old seen
            → HasPut self.new seen) }
        ensures outputs { OnOk result ((outputs : List Output) (before : Outside)
            → IsOutputs self.old.files outputs before (S.outside shelf.old)
            → IsOutputs self.new.files outputs before (S.outside shelf.new)) }
        ensures written { OnOk result ((outputs : List Output) (before : Outside)
            → IsOutputs self.old.files outputs before (S.outside shelf.old)
            → AreWritten outputs before (S.outside shelf.new)) }
        ensures cut { IfErr result (λ error. (outputs : List Output) (before : Outside)
            → IsOutputs self.old.files outputs before (S.outside shelf.old)
            → AreCut outputs before (S.outside shelf.new) error) }
        ensures keeps_held { (S.outside shelf.new).held ≡ (S.outside shelf.old).held }
        ensures gives { (S.outside shelf.new).given ≡ (S.outside shelf.old).given }
    {
        self.files.finish(shelf)
    }
}
