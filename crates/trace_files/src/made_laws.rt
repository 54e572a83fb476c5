// What is true of each made trace, for callers whose own clauses speak of traces.
ghost use Rattle.std.specs.Prelude.{◌≡◌, ◌≤◌, ◌^◌, ℕ, Some, length};
ghost use Rattle.std.specs.List.{All};
ghost use Rattle.trace_format.specs.declared.record.Version.TheVariants.{One};
ghost use Rattle.trace_format.specs.Rules.{IsGoodRecord, IsTrace, IsWritable, touches_in};
ghost use Rattle.trace_passes.specs.Passes.{all_records, spell_trace, trace_of};
ghost use Rattle.trace_files.specs.Made.{made};

/// What is made is a trace. Nothing is done.
pub fn a_made_trace_is_a_trace()
    // its bytes are a trace, and no other than this one
    ensures trace { (count : ℕ) → count ≤ 10 ^ 9
        → IsTrace (spell_trace (made count)) (made count).version (made count).header
        (made count).items (made count).ending }
    ensures found { (count : ℕ) → count ≤ 10 ^ 9
        → trace_of (spell_trace (made count)) ≡ Some (made count) }
    // each record keeps the rules of the format, and may be written again
    ensures good { (count : ℕ) → count ≤ 10 ^ 9
        → All (IsGoodRecord One 8) (all_records (made count)) }
    ensures writable { (count : ℕ) → All IsWritable (all_records (made count)) }
    // there are as many accesses as are wanted
    ensures accesses { (count : ℕ) → length (touches_in (all_records (made count))) ≡ count }
{}
