// What a filtered trace is.
ghost use Rattle.std.specs.Prelude.{◌≡◌, ◌<◌, ◌≤◌, ℕ, ◌++◌, ◌∷◌, [], List, length, None, Some};
ghost use Rattle.std.specs.List.{All};
ghost use Rattle.std.specs.Option.{option_to_list};
ghost use Rattle.sharing_rules.specs.Filtered.{filtered};
ghost use Rattle.trace_format.specs.declared.record.TraceRecord.{TraceRecord};
ghost use Rattle.trace_format.specs.declared.record.Version.TheVariants.{Three};
ghost use Rattle.trace_format.specs.Rules.{longest_trace, touches_in};
ghost use Rattle.trace_passes.specs.Passes.{Trace, refusal_of, spell_trace, trace_of};
ghost use Rattle.trace_filter.specs.FilterPass.{filtering, sited, written_of};
ghost use Rattle.trace_filter.specs.Filtering.{filtered_item, filtered_items, filtered_trace};

use trace_passes::a_trace_is_its_spelling;

/// The accesses of a filtered trace are the filtered list of the trace's accesses, and each record
/// depends on those before it alone. Nothing is done.
pub fn a_filtered_trace_has_the_filtered_list()
    ensures accesses { (k : ℕ) (items : List TraceRecord)
        → touches_in (filtered_items k items) ≡ filtered k (touches_in items) }
    ensures next { (k : ℕ) (items : List TraceRecord) (item : TraceRecord)
        → filtered_items k (items ++ item ∷ []) ≡ filtered_items k items
        ++ option_to_list (filtered_item k (touches_in items) item) }
{}

/// A trace isn't refused exactly where it has pcs and isn't filtered. Bytes that aren't refused are
/// such a trace, and all of its filtered trace is written of these. Nothing is done.
pub fn a_trace_with_pcs_is_filtered_whole()
    ensures accepted { (bytes : List ℕ) (t : Trace) → trace_of bytes ≡ Some t
        → t.version ≡ Three → refusal_of sited bytes ≡ None }
    ensures found { (bytes : List ℕ) → refusal_of sited bytes ≡ None
        → (t : Trace) × (trace_of bytes ≡ Some t) × (t.version ≡ Three) }
    ensures whole { (k : ℕ) (file bytes : List ℕ) (t : Trace) → trace_of bytes ≡ Some t
        → t.version ≡ Three → written_of k file bytes ≡ filtering k file t }
{}

/// A filtered trace of at most 2^44 bytes is a trace, which is read again as what it is. Nothing is
/// done.
pub fn a_filtered_trace_is_a_trace()
    ensures { (k : ℕ) (bytes : List ℕ) (t : Trace) → 6 ≤ k → k ≤ 16 → All (λ b. b < 256) bytes
        → trace_of bytes ≡ Some t → t.version ≡ Three
        → length (spell_trace (filtered_trace k t)) ≤ longest_trace
        → trace_of (spell_trace (filtered_trace k t)) ≡ Some (filtered_trace k t) }
{
    a_trace_is_its_spelling();
}
