// What moved accesses keep.
ghost use Rattle.std.specs.Prelude.{◌≡◌, ◌≢◌, ◌<◌, ◌≤◌, ℕ, List, [], None, Some, false, length, true};
ghost use Rattle.std.specs.List.{All};
ghost use Rattle.base.specs.Touch.{IsAllowed, Touch};
ghost use Rattle.trace_format.specs.Rules.{HasRegions, longest_trace, touches_in};
ghost use Rattle.trace_passes.specs.Passes.{Trace, spell_trace, trace_of};
ghost use Rattle.trace_files.specs.declared.move_row.Move.{Move};
ghost use Rattle.trace_files.specs.Moves.{IsFree, KeepsAccesses, KeepsBytes, KeepsWords, moved_list};
ghost use Rattle.trace_files.specs.Moving.{IsNearFiltered, fault_of, moved, moving, written_of};
ghost use Rattle.trace_files.specs.NearMoves.{IsNearFor, is_far};
ghost use Rattle.trace_files.specs.Tables.{IsTable};

use trace_passes::a_trace_is_its_spelling;

/// In the moved list of a free list two accesses lie in one word exactly where they do in the list,
/// and have one byte in common likewise. A word has the same accesses by the same harts, in the
/// same order. Each access is still one that is allowed, and a table without lines moves none.
/// Nothing is done.
pub fn a_free_list_keeps_its_words()
    ensures words { (table : List Move) (accesses : List Touch) → IsTable table
        → All IsAllowed accesses → IsFree table accesses → KeepsWords table accesses }
    ensures bytes { (table : List Move) (accesses : List Touch) → IsTable table
        → All IsAllowed accesses → IsFree table accesses → KeepsBytes table accesses }
    ensures accesses { (table : List Move) (accesses : List Touch) → IsTable table
        → All IsAllowed accesses → IsFree table accesses → KeepsAccesses table accesses }
    ensures allowed { (table : List Move) (accesses : List Touch) → IsTable table
        → All IsAllowed accesses → All IsAllowed (moved_list table accesses) }
    ensures none { (accesses : List Touch) → moved_list [] accesses ≡ accesses }
{}

/// A trace isn't refused exactly where its list is free, and the table is near for it if it is
/// filtered. Bytes that aren't refused are a trace, and all of the moved trace is written of these. By
/// a table that keeps its rules, a moved trace of at most 2^44 bytes is a trace, whose accesses are
/// the moved list. A filtered trace has regions of 2^6 to 2^16 bytes, and no other has any. Nothing is
/// done.
pub fn a_moved_trace_is_a_trace()
    ensures accepted { (table : List Move) (bytes : List ℕ) (t : Trace) → trace_of bytes ≡ Some t
        → IsFree table (touches_in t.items) → IsNearFiltered table t → fault_of table bytes ≡ None }
    ensures free { (table : List Move) (bytes : List ℕ) (t : Trace) → trace_of bytes ≡ Some t
        → fault_of table bytes ≡ None → IsFree table (touches_in t.items) }
    ensures near { (table : List Move) (bytes : List ℕ) (t : Trace) → trace_of bytes ≡ Some t
        → fault_of table bytes ≡ None → IsNearFiltered table t }
    ensures found { (table : List Move) (bytes : List ℕ) → fault_of table bytes ≡ None
        → (t : Trace) × (trace_of bytes ≡ Some t) }
    ensures whole { (table : List Move) (file bytes : List ℕ) (t : Trace)
        → trace_of bytes ≡ Some t → fault_of table bytes ≡ None
        → written_of table file bytes ≡ moving table file t }
    ensures trace { (table : List Move) (bytes : List ℕ) (t : Trace) → IsTable table
        → All (λ b. b < 256) bytes → trace_of bytes ≡ Some t
        → length (spell_trace (moved table t)) ≤ longest_trace
        → trace_of (spell_trace (moved table t)) ≡ Some (moved table t) }
    ensures regions { (bytes : List ℕ) (t : Trace) → All (λ b. b < 256) bytes
        → trace_of bytes ≡ Some t → HasRegions t.version t.header }
    ensures accesses { (table : List Move) (t : Trace)
        → touches_in (moved table t).items ≡ moved_list table (touches_in t.items) }
{
    a_trace_is_its_spelling();
}

/// An access isn't far exactly where the table is near for it: each byte of a place that is near it
/// once it is moved comes from an address that is near it before. Nothing is done.
pub fn what_is_far_is_not_near()
    ensures far { (k : ℕ) (table : List Move) (a : Touch) → is_far k table a.addr ≡ true
        → IsNearFor k table a → ⊥ }
    ensures near { (k : ℕ) (table : List Move) (a : Touch) → k ≢ 0
        → is_far k table a.addr ≡ false → IsNearFor k table a }
    ensures unfiltered { (table : List Move) (addr : ℕ) → is_far 0 table addr ≡ false }
{}
