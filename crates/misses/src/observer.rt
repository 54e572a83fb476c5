// The misses of each line and a table of objects, which see the records of a trace one after the
// other.
ghost use Rattle.std.specs.Prelude.{◌≡◌, ◌∷◌, ◌++◌, ◌≤◌, [], IfOk, IsFalse, IsOk, List, OnOk};
ghost use Rattle.base.specs.Lines.{Grid};
ghost use Rattle.misses.specs.MissCounts.{StandsFor};
ghost use Rattle.sharing_rules.specs.AccessLists.{AccessList};
ghost use Rattle.misses.specs.Seen.{HasMissed, missed, misses_noted};
ghost use Rattle.misses.specs.Seen.{misses_want_memory, nothing_missed, wants_memory};
ghost use Rattle.misses.specs.Texts.{misses_of_records};
ghost use Rattle.trace_passes.specs.Rooms.{GivenNext};
ghost use Rattle.trace_format.specs.Reading.{counted_after};
ghost use Rattle.trace_format.specs.Rules.{last_position, touches_in};
ghost use Rattle.trace_format.specs.declared.record.TraceRecord.{TraceRecord as Record};

use crate::all_lines::Misses;
use crate::text::write_misses;
use base::{Layout, NoMemory};
use objects::ObjectTable;
use std::alloc::Global;
use trace_format::TraceRecord;
use trace_passes::{Observer, note_object};

/// What the records of a trace have shown so far of the misses of each line under a layout, and a
/// table of the symbols and blocks.
#[derive(Drop)]
pub struct MissObservations {
    /// What the accesses show.
    pub misses: Misses,
    /// The symbols and blocks.
    pub objects: ObjectTable,
}

// A record, where it is an access.
#[inline]
fn note_miss(misses: &mut Misses, item: &TraceRecord) -> Result<(), NoMemory>
    requires { counted_after misses.old.position item.now ≤ last_position }
    ensures noted { OnOk result (misses.new ≡ misses_noted misses.old item.now) }
    ensures stands { (t : AccessList) → StandsFor t misses.old
        → OnOk result (StandsFor (t ++ touches_in (item.now ∷ [])) misses.new) }
    ensures known { IsFalse (misses_want_memory misses.old item.now) → IsOk result }
{
    match item {
        TraceRecord::Touch(access, _) => misses.on_access(access),
        TraceRecord::Alloc { .. } => Ok(()),
        TraceRecord::Free { .. } => Ok(()),
        TraceRecord::Symbol { .. } => Ok(()),
        TraceRecord::End(_) => Ok(()),
    }
}

impl MissObservations {
    /// Nothing seen yet, under a layout.
    pub fn new(alloc: Global, layout: Layout) -> MissObservations
        ensures blank { result ≡ nothing_missed layout }
        ensures begun { HasMissed result result [] }
    {
        MissObservations {
            misses: Misses::new(alloc, layout),
            objects: ObjectTable::new(alloc),
        }
    }

    /// A record, at the position that is next. The end of a trace changes nothing. At NoMemory
    /// nothing is said of what was seen.
    #[inline]
    pub fn note(&mut self, item: &TraceRecord) -> Result<(), NoMemory>
        requires { counted_after self.old.misses.position item.now ≤ last_position }
        ensures noted { OnOk result (self.new ≡ missed self.old item.now) }
        // for each list whose misses it had, it has those of the list with the record's access
        ensures stands { (t : AccessList) → StandsFor t self.old.misses
            → OnOk result (StandsFor (t ++ touches_in (item.now ∷ [])) self.new.misses) }
        ensures seen { OnOk result (GivenNext HasMissed self.old self.new item.now) }
        // what takes none: an access by a hart that came to its line before, a free, a symbol that
        // is dropped, an end
        ensures known { IsFalse (wants_memory self.old item.now) → IsOk result }
    {
        let position = self.misses.position();
        match note_miss(&mut self.misses, item) {
            Ok(()) => note_object(&mut self.objects, position, item),
            Err(fault) => Err(fault),
        }
    }

    /// The text of what was seen: of each line that has useful or useless misses what its sharing
    /// costs, with the objects that stand on it, and the sums over all lines.
    ///
    /// NoMemory comes where there is no memory for the text, for the reported lines and their sort,
    /// or for 32 bytes each 256 blocks.
    pub fn text(&self, alloc: Global, whole: Option<u64>) -> Result<Vec<u8>, NoMemory>
        // where it has seen these records from the beginning, it is that of the records
        ensures { (g : Grid) (items : List Record)
            → HasMissed (nothing_missed g) self.now items
            → IfOk result (λ text. text.items ≡ misses_of_records g whole items) }
    {
        let total = self.misses.totals();
        let text = write_misses(alloc, &self.misses, whole, total, &self.objects)?;
        Ok(text)
    }
}

impl Observer for MissObservations {
    ghost use Rattle.std.specs.Prelude.{IsFalse};
    ghost use Rattle.misses.specs.Seen.{HasMissed, misses_begin_at, wants_memory};

    ghost given = { HasMissed };

    ghost known = { λ s item. IsFalse (wants_memory s item) };

    ghost begins = { misses_begin_at };

    #[inline]
    fn note(&mut self, item: &TraceRecord) -> Result<(), NoMemory> {
        MissObservations::note(self, item)
    }
}
