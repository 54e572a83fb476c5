// A detector and a table of objects, which see the records of a trace one after the other.
ghost use Rattle.std.specs.Prelude.{◌≡◌, ◌<◌, ◌≤◌, ◌^◌, ℕ, [], List, Option};
ghost use Rattle.std.specs.Prelude.{IsTrue, IsFalse, IsOk, OnOk, OnErr, IfOk};
ghost use Rattle.detector.specs.Standing.{StandsFor};
ghost use Rattle.base.specs.Levels.{Levels};
ghost use Rattle.base.specs.Lines.{Grid};
ghost use Rattle.report.specs.OfLists.{report_of};
ghost use Rattle.sharing_rules.specs.AccessLists.{AccessList};
ghost use Rattle.sharing_rules.specs.Listed.{may_predict};
ghost use Rattle.trace_format.specs.Reading.{counted_after};
ghost use Rattle.trace_format.specs.Rules.{last_position, touches_in};
ghost use Rattle.trace_format.specs.declared.record.TraceRecord.{TraceRecord as Record};
ghost use Rattle.trace_passes.specs.Rooms.{GivenNext};
ghost use Rattle.observations.specs.ObservedTraces.{noted, nothing_observed, report_of_observed};
ghost use Rattle.observations.specs.ObservedTraces.{wants_memory};
ghost use Rattle.observations.specs.Seen.{HasSeen, report_of_records};

use base::{Access, Ending, Layout, NoMemory, Thresholds};
use detector::{Detector, PagedIndex, see};
use objects::{ObjectTable, SymbolKind};
use report::{Findings, write_report};
use std::alloc::Global;
use std::marker::Model;
use trace_format::TraceRecord;
use trace_passes::Observer;

/// What the records of a trace have shown so far, under a layout and thresholds: a detector that
/// sees the accesses, and a table of the symbols and blocks.
///
/// Contracts see what the detector has seen, and the objects.
#[derive(Drop)]
pub struct Observations {
    detector: Detector<PagedIndex>,
    objects: ObjectTable,
}

impl Model for Observations {
    ghost use Rattle.std.specs.Prelude.{IsTrue};
    ghost use Rattle.observations.specs.ObservedTraces.{ObservedTrace};
    ghost use Rattle.observations.specs.ObservedTraceCode.{observed_code};
    ghost use Rattle.sharing_rules.specs.Listed.{may_predict};

    ghost Value = { ObservedTrace };

    ghost coded = { observed_code };

    ghost view = { λ s. record { watch = s.detector; objects = s.objects } };

    ghost invariant = { λ s. IsTrue (may_predict s.detector.grid s.detector.levels) };
}

impl Observations {
    /// Nothing seen yet. Lines are predicted only under a native layout: of offset 0, and of size
    /// 32, 64, 128 or 256.
    pub fn new(alloc: Global, layout: Layout, thresholds: Thresholds) -> Observations
        requires { IsTrue (may_predict layout thresholds) }
        ensures blank { result ≡ nothing_observed layout thresholds }
        ensures begun { HasSeen result result [] }
        ensures stands { StandsFor [] result.watch }
    {
        let index = PagedIndex::new(alloc);
        Observations {
            detector: Detector::new(alloc, index, layout, thresholds),
            objects: ObjectTable::new(alloc),
        }
    }

    /// What a detector has seen, and a table of objects, to go on from there.
    pub fn from_parts(detector: Detector<PagedIndex>, objects: ObjectTable) -> Observations
        requires { IsTrue (may_predict detector.grid detector.levels) }
        ensures { result ≡ record { watch = detector; objects = objects } }
    {
        Observations { detector, objects }
    }

    /// An access, at the position that is next. NoMemory leaves all as it was.
    #[inline]
    pub fn note_access(&mut self, access: Access) -> Result<(), NoMemory>
        requires { self.old.watch.position < 2 ^ 40 }
        ensures noted { (pc : Option ℕ) → OnOk result (self.new
            ≡ noted self.old (TraceRecord.Touch access pc)) }
        ensures same { OnErr result (self.new ≡ self.old) }
        ensures seen { (pc : Option ℕ) → OnOk result (GivenNext HasSeen self.old self.new
            (TraceRecord.Touch access pc)) }
        ensures known { (pc : Option ℕ) → IsFalse (wants_memory self.old
            (TraceRecord.Touch access pc)) → IsOk result }
    {
        see(&mut self.detector, access)
    }

    /// A block of `size` asked bytes is made at `addr`; `sites` are the last four calls of the hart
    /// that made it, the newest first. It is born at the position that is next, and a live block
    /// of its address dies there. NoMemory leaves all as it was.
    pub fn note_alloc(&mut self, addr: u32, size: u32, sites: [u32; 4]) -> Result<(), NoMemory>
        ensures noted { OnOk result (self.new
            ≡ noted self.old (TraceRecord.Alloc addr size sites)) }
        ensures same { OnErr result (self.new ≡ self.old) }
        ensures seen { OnOk result (GivenNext HasSeen self.old self.new
            (TraceRecord.Alloc addr size sites)) }
    {
        self.objects
            .note_alloc(self.detector.position(), addr, size, sites)
    }

    /// The block at an address is given back, and dies at the position that is next. With no live
    /// block there, nothing changes.
    pub fn note_free(&mut self, addr: u32)
        ensures noted { self.new ≡ noted self.old (TraceRecord.Free addr) }
        ensures seen { GivenNext HasSeen self.old self.new (TraceRecord.Free addr) }
    {
        self.objects.note_free(self.detector.position(), addr);
    }

    /// A symbol. One with the kind, address and size of an earlier one is dropped; of a name of
    /// more than 1024 bytes the first 1024 are kept. NoMemory leaves all as it was.
    pub fn note_symbol(
        &mut self,
        kind: SymbolKind,
        addr: u32,
        size: u32,
        name: &[u8],
    ) -> Result<(), NoMemory>
        ensures noted { OnOk result (self.new
            ≡ noted self.old (TraceRecord.Symbol kind addr size name.now)) }
        ensures same { OnErr result (self.new ≡ self.old) }
        ensures seen { OnOk result (GivenNext HasSeen self.old self.new
            (TraceRecord.Symbol kind addr size name.now)) }
        // for a symbol that is dropped it needs no memory
        ensures known { IsFalse (wants_memory self.old
            (TraceRecord.Symbol kind addr size name.now)) → IsOk result }
    {
        self.objects.note_symbol(kind, addr, size, name)
    }

    /// A record, at the position that is next. The end of a trace changes nothing. NoMemory leaves
    /// all as it was.
    #[inline]
    pub fn note(&mut self, item: &TraceRecord) -> Result<(), NoMemory>
        requires { counted_after self.old.watch.position item.now ≤ last_position }
        ensures noted { OnOk result (self.new ≡ noted self.old item.now) }
        ensures same { OnErr result (self.new ≡ self.old) }
        ensures seen { OnOk result (GivenNext HasSeen self.old self.new item.now) }
        // what takes none: most accesses, a free, a symbol that is dropped, an end
        ensures known { IsFalse (wants_memory self.old item.now) → IsOk result }
    {
        match item {
            TraceRecord::Touch(access, _) => self.note_access(*access),
            TraceRecord::Alloc { addr, size, sites } => self.note_alloc(*addr, *size, *sites),
            TraceRecord::Free { addr } => {
                self.note_free(*addr);
                Ok(())
            }
            TraceRecord::Symbol {
                kind,
                addr,
                size,
                name,
            } => self.note_symbol(*kind, *addr, *size, name.bytes()),
            TraceRecord::End(_) => Ok(()),
        }
    }

    /// The position that is next.
    pub fn position(&self) -> u64
        ensures value { result ≡ self.now.watch.position }
        // records may go on from here
        ensures begun { HasSeen self.now self.now [] }
    {
        // No two symbols are alike, as their count says.
        let _count = self.objects.symbol_count();
        self.detector.position()
    }

    /// What the accesses show.
    pub fn detector(&self) -> &Detector<PagedIndex>
        ensures value { result.now ≡ self.now.watch }
        ensures native { IsTrue (may_predict self.now.watch.grid self.now.watch.levels) }
        // where it has seen these records from the beginning, it stands for their accesses
        ensures stands { (g : Grid) (v : Levels) (items : List Record)
            → HasSeen (nothing_observed g v) self.now items → StandsFor
            (touches_in items) result.now }
    {
        &self.detector
    }

    /// The symbols and blocks.
    pub fn objects(&self) -> &ObjectTable
        ensures { result.now ≡ self.now.objects }
    {
        &self.objects
    }

    /// The report of what was seen, with this end.
    pub fn report(&self, alloc: Global, ending: &Ending) -> Result<Vec<u8>, NoMemory>
        // by the tracks and the objects that are held
        ensures of_held { IfOk result (λ text. text.items
            ≡ report_of_observed ending.now self.now) }
        // where it has seen these records from the beginning, it is the report of the records
        ensures of_records { (g : Grid) (v : Levels) (items : List Record)
            → HasSeen (nothing_observed g v) self.now items
            → IfOk result (λ text. text.items ≡ report_of_records ending.now g v items) }
        // and for each list that the detector stands for, that of the list, with the objects
        ensures of_list { (t : AccessList) → StandsFor t self.now.watch
            → IfOk result (λ text. text.items ≡ report_of ending.now
            self.now.watch.grid self.now.watch.levels self.now.objects t) }
    {
        let findings = Findings {
            ending: *ending,
            layout: self.detector.layout(),
            thresholds: self.detector.thresholds(),
            tracks: self.detector.tracks(),
            objects: &self.objects,
        };
        write_report(alloc, &findings)
    }
}

impl Observer for Observations {
    ghost use Rattle.std.specs.Prelude.{IsFalse};
    ghost use Rattle.observations.specs.Seen.{HasSeen, begins_at};
    ghost use Rattle.observations.specs.ObservedTraces.{wants_memory};

    ghost given = { HasSeen };

    ghost known = { λ s item. IsFalse (wants_memory s item) };

    ghost begins = { begins_at };

    #[inline]
    fn note(&mut self, item: &TraceRecord) -> Result<(), NoMemory> {
        Observations::note(self, item)
    }
}
