// What cutting does to a whole trace.
ghost use Rattle.std.specs.Prelude.{◌≡◌, ℕ, List, [], ◌∷◌, ◌++◌};
ghost use Rattle.std.specs.List.{All};
ghost use Rattle.trace_format.specs.declared.record.TraceEnd.{TraceEnd};
ghost use Rattle.trace_format.specs.declared.record.TraceRecord.{TraceRecord};
ghost use Rattle.trace_format.specs.Rules.{IsInner};
ghost use Rattle.trace_format.specs.Splits.{IsCutInTwo, halves_of, put_behind, side_after};

use crate::TraceRecord;

/// A whole trace is cut in two. Nothing is done.
pub fn a_trace_is_cut_in_two()
    // the halves are all records but the end, in order, and the first has the accesses before the
    // cut
    ensures halves { (cut : ℕ) (items : List TraceRecord) (e : TraceEnd) → All IsInner items
        → IsCutInTwo cut items (halves_of cut (items ++ TraceRecord.End e ∷ [])) }
    // the halves of a list with one record more
    ensures grows { (cut : ℕ) (seen : List TraceRecord) (item : TraceRecord)
        → halves_of cut (seen ++ item ∷ [])
        ≡ put_behind (side_after cut seen item) item (halves_of cut seen) }
{}
