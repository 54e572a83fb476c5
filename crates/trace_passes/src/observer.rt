// Who sees the records of a trace.
ghost use Rattle.std.specs.Prelude.{ℕ, List, [], ◌∷◌, ◌++◌, IsOk, OnOk};
ghost use Rattle.trace_format.specs.declared.record.TraceRecord.{TraceRecord as Record};
ghost use Rattle.trace_format.specs.Rules.{IsWritable};
ghost use Rattle.trace_passes.specs.Rooms.{HasRoom};

use base::NoMemory;
use trace_format::TraceRecord;

/// Sees the records of a trace, one after the other.
pub trait Observer {
    /// That it was given these records, in order, since it was as it was at first.
    ghost given: { Self → Self → List Record → Type 0 };

    /// That the first access that it sees may have this position.
    ghost begins: { Self → ℕ → Type 0 } = { λ _ _. Unit {0} };

    /// That a record needs no memory.
    ghost known: { Self → Record → Type 0 } = { λ _ _. ⊥ };

    /// Sees one record more. The end record is the last one. Want of memory ends the pass.
    fn note(&mut self, item: &TraceRecord) -> Result<(), NoMemory>
        // The record may be written again.
        requires good { IsWritable item.now }
        // There is a first position from which on the accesses, this record with them, are no more
        // than a trace may have.
        requires room { HasRoom begins given self.old (item.now ∷ []) }
        ensures given { OnOk result ((begun : Self) (seen : List Record) → given begun self.old seen
            → given begun self.new (seen ++ item.now ∷ [])) }
        ensures known { known self.old item.now → IsOk result };
}
