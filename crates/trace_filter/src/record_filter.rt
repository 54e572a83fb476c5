// A filter of the records of a trace.
ghost use Rattle.std.specs.Prelude.{◌≡◌, ◌≤◌, ◌<◌, ◌^◌, ℕ, ◌∷◌, ◌++◌, [], List, Option, IfOk, OnOk, OnErr};
ghost use Rattle.access_filter.specs.Standing.{near_of, position_of};
ghost use Rattle.trace_format.specs.Rules.{touches_in};
ghost use Rattle.trace_format.specs.declared.record.TraceRecord.{TraceRecord as Record};
ghost use Rattle.trace_format.specs.declared.record.TraceRecord.TheVariants as records;
ghost use Rattle.trace_filter.specs.Filtering.{filtered_end, filtered_item};

use access_filter::Filter;
use base::{Access, NoMemory};
use std::alloc::Global;
use trace_format::{TraceEnd, TraceRecord};

/// What becomes of a record.
#[derive(Clone, Copy, PartialEq, Eq, Debug)]
pub enum Passage {
    /// It stays.
    Kept,
    /// It is a redundant access.
    LeftOut,
    /// It is the end, whose place this one takes.
    Ended(TraceEnd),
}

/// Says of each record of a trace what becomes of it in the filtered trace.
#[derive(Drop)]
pub struct RecordFilter {
    filter: Filter,
    // how many accesses stay
    kept: u64,
    pub ghost few: { kept ≤ position_of filter },
}

impl RecordFilter {
    ghost use Rattle.trace_filter.specs.Passages.{HasFiltered, written};

    /// No record so far. Regions have 2^near bytes.
    pub fn new(alloc: Global, near: u32) -> RecordFilter
        requires ranged { (6 ≤ near) × (near ≤ 16) }
        ensures near { near_of result.filter ≡ near }
        ensures filtered { HasFiltered [] result }
    {
        RecordFilter {
            filter: Filter::new(alloc, near),
            kept: 0,
        }
    }

    /// How many accesses there were.
    pub fn whole(&self) -> u64
        ensures { result ≡ position_of self.now.filter }
    {
        self.filter.position()
    }

    /// How many of them stay.
    pub fn kept(&self) -> u64
        ensures { result ≡ self.now.kept }
    {
        self.kept
    }

    // What becomes of an access.
    fn on_access(&mut self, access: Access) -> Result<Passage, NoMemory>
        requires { position_of self.old.filter < 2 ^ 63 }
        ensures written { (items : List Record) (pc : Option ℕ) → HasFiltered items self.old
            → IfOk result (λ passage. written passage (records.Touch access pc)
            ≡ filtered_item (near_of self.old.filter) (touches_in items)
            (records.Touch access pc)) }
        ensures filtered { (items : List Record) (pc : Option ℕ) → HasFiltered items self.old
            → OnOk result (HasFiltered (items ++ records.Touch access pc ∷ []) self.new) }
        ensures near { near_of self.new.filter ≡ near_of self.old.filter }
        ensures still { (items : List Record) → HasFiltered items self.old
            → OnErr result (HasFiltered items self.new) }
    {
        match self.filter.on_access(access) {
            Ok(true) => {
                self.kept += 1;
                Ok(Passage::Kept)
            }
            Ok(false) => Ok(Passage::LeftOut),
            Err(refused) => Err(refused),
        }
    }

    // The end of the filtered trace.
    fn end_of(&self, end: &TraceEnd) -> TraceEnd
        ensures { (items : List Record) → HasFiltered items self.now
            → result ≡ filtered_end (near_of self.now.filter) (touches_in items) end.now }
    {
        TraceEnd {
            outcome: end.outcome,
            steps: end.steps,
            accesses: self.kept,
            whole: Some(self.filter.position()),
        }
    }

    /// What becomes of the next record. NoMemory leaves all as it was.
    pub fn on_record(&mut self, item: &TraceRecord) -> Result<Passage, NoMemory>
        requires { position_of self.old.filter < 2 ^ 63 }
        ensures written { (items : List Record) → HasFiltered items self.old
            → IfOk result (λ passage. written passage item.now
            ≡ filtered_item (near_of self.old.filter) (touches_in items) item.now) }
        ensures filtered { (items : List Record) → HasFiltered items self.old
            → OnOk result (HasFiltered (items ++ item.now ∷ []) self.new) }
        ensures near { near_of self.new.filter ≡ near_of self.old.filter }
        ensures still { (items : List Record) → HasFiltered items self.old
            → OnErr result (HasFiltered items self.new) }
    {
        match item {
            TraceRecord::Touch(access, _) => self.on_access(*access),
            TraceRecord::End(end) => Ok(Passage::Ended(self.end_of(end))),
            _ => Ok(Passage::Kept),
        }
    }
}
