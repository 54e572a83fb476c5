// The file of a filtered trace.
ghost use Rattle.std.specs.Prelude.{◌≡◌, ◌≤◌, ℕ, ◌∷◌, ◌++◌, [], List, length, take, IfErr, IfOk, OnOk};
ghost use Rattle.std.specs.List.{All};
ghost use Rattle.sharing_rules.specs.Filtered.{filtered};
ghost use Rattle.shelf.specs.Files.{AreCut, AreWritten};
ghost use Rattle.shelf.specs.Shelf.{Outside};
ghost use Rattle.trace_format.specs.declared.record.Header.{Header as Head};
ghost use Rattle.trace_format.specs.declared.record.TraceRecord.{TraceRecord as Record};
ghost use Rattle.trace_format.specs.Rules.{IsGoodHeader, IsWritable, touches_in};
ghost use Rattle.trace_filter.specs.Files.{IsUnderWay, MayCome, MayComeAll, filtered_so_far};

use crate::record_filter::{Passage, RecordFilter};
use shelf::{Shelf, ShelfError};
use std::alloc::Global;
use trace_files::TraceOutputs;
use trace_format::{Header, TraceRecord, TraceWriter, Version};

/// A filtered trace on its way to a file: the header stands in it, or waits for it, and what stays of
/// each record is put behind the others.
#[derive(Drop)]
pub struct FilterFile<'a> {
    writer: TraceWriter,
    files: TraceOutputs<'a>,
    records: RecordFilter,
}

impl<'a> FilterFile<'a> {
    /// Begins the file of a trace with this header, and puts the filtered header into it.
    pub fn begin<S: Shelf>(
        alloc: Global,
        shelf: &mut S,
        name: &'a str,
        near: u16,
        header: Header,
    ) -> Result<FilterFile<'a>, ShelfError>
        requires good { IsGoodHeader header }
        requires ranged { (6 ≤ near) × (near ≤ 16) }
        ensures begun { IfOk result (λ file. IsUnderWay near name.now header file []
            (S.outside shelf.old) (S.outside shelf.new)) }
        ensures cut { IfErr result (λ error. AreCut (filtered_so_far near name.now header [])
            (S.outside shelf.old) (S.outside shelf.new) error) }
        ensures keeps_held { (S.outside shelf.new).held ≡ (S.outside shelf.old).held }
    {
        let header = Header {
            first: 0,
            harts: header.harts,
            near,
        };
        let mut files = TraceOutputs::new(alloc);
        match files.begin_trace(alloc, shelf, 0, name, Version::Four, header) {
            Ok(writer) => Ok(FilterFile {
                writer,
                files,
                records: RecordFilter::new(alloc, u32::from(near)),
            }),
            Err(error) => Err(error),
        }
    }

    /// How many accesses came.
    pub fn whole(&self) -> u64
        ensures { (k : ℕ) (name : List ℕ) (header : Head) (seen : List Record)
            (before now : Outside) → IsUnderWay k name header self.now seen before now
            → result ≡ length (touches_in seen) }
    {
        self.records.whole()
    }

    /// How many of them stay.
    pub fn kept(&self) -> u64
        ensures { (k : ℕ) (name : List ℕ) (header : Head) (seen : List Record)
            (before now : Outside) → IsUnderWay k name header self.now seen before now
            → result ≡ length (filtered k (touches_in seen)) }
    {
        self.records.kept()
    }

    /// Puts what stays of the next record of the trace.
    pub fn put<S: Shelf>(&mut self, shelf: &mut S, item: &TraceRecord) -> Result<(), ShelfError>
        requires writable { IsWritable item.now }
        requires way { MayCome self.old (S.outside shelf.old) }
        ensures came { OnOk result ((k : ℕ) (name : List ℕ) (header : Head) (seen : List Record)
            (before : Outside)
            → IsUnderWay k name header self.old seen before (S.outside shelf.old)
            → IsUnderWay k name header self.new (seen ++ item.now ∷ []) before
            (S.outside shelf.new)) }
        ensures cut { IfErr result (λ error. (k : ℕ) (name : List ℕ) (header : Head)
            (seen : List Record) (before : Outside)
            → IsUnderWay k name header self.old seen before (S.outside shelf.old)
            → AreCut (filtered_so_far k name header (seen ++ item.now ∷ [])) before
            (S.outside shelf.new) error) }
        ensures keeps_held { (S.outside shelf.new).held ≡ (S.outside shelf.old).held }
    {
        match self.records.on_record(item) {
            Ok(Passage::Kept) => self.files.put_record(shelf, 0, &mut self.writer, item),
            Ok(Passage::LeftOut) => Ok(()),
            Ok(Passage::Ended(end)) => {
                let item = TraceRecord::End(end);
                self.files.put_record(shelf, 0, &mut self.writer, &item)
            }
            Err(_) => Err(ShelfError::NoMemory),
        }
    }

    /// Puts what stays of the next records of the trace, one after another. Where that fails, the
    /// first of them were put.
    pub fn put_all<S: Shelf>(
        &mut self,
        shelf: &mut S,
        items: &[TraceRecord],
    ) -> Result<(), ShelfError>
        requires writable { All IsWritable items.now }
        requires way { MayComeAll self.old items.now (S.outside shelf.old) }
        ensures came { OnOk result ((k : ℕ) (name : List ℕ) (header : Head) (seen : List Record)
            (before : Outside)
            → IsUnderWay k name header self.old seen before (S.outside shelf.old)
            → IsUnderWay k name header self.new (seen ++ items.now) before
            (S.outside shelf.new)) }
        ensures cut { IfErr result (λ error. (n : ℕ) × ((k : ℕ) (name : List ℕ) (header : Head)
            (seen : List Record) (before : Outside)
            → IsUnderWay k name header self.old seen before (S.outside shelf.old)
            → AreCut (filtered_so_far k name header (seen ++ take n items.now)) before
            (S.outside shelf.new) error)) }
        ensures keeps_held { (S.outside shelf.new).held ≡ (S.outside shelf.old).held }
    {
        for item in items {
            match self.put(shelf, item) {
                Ok(()) => {}
                Err(error) => return Err(error),
            }
        }
        Ok(())
    }

    /// Appends what still waits to the file.
    pub fn finish<S: Shelf>(&mut self, shelf: &mut S) -> Result<(), ShelfError>
        requires way { MayCome self.old (S.outside shelf.old) }
        ensures written { OnOk result ((k : ℕ) (name : List ℕ) (header : Head)
            (seen : List Record) (before : Outside)
            → IsUnderWay k name header self.old seen before (S.outside shelf.old)
            → AreWritten (filtered_so_far k name header seen) before (S.outside shelf.new)) }
        ensures cut { IfErr result (λ error. (k : ℕ) (name : List ℕ) (header : Head)
            (seen : List Record) (before : Outside)
            → IsUnderWay k name header self.old seen before (S.outside shelf.old)
            → AreCut (filtered_so_far k name header seen) before (S.outside shelf.new) error) }
        ensures keeps_held { (S.outside shelf.new).held ≡ (S.outside shelf.old).held }
    {
        self.files.finish(shelf)
    }
}
