// Laws of what is read, for callers whose own clauses speak of traces.
ghost use Rattle.std.specs.Prelude.{◌≡◌, ℕ, ◌<◌, ◌≤◌, List, [], ◌++◌, length, Ok, Err};
ghost use Rattle.std.specs.List.{All};
ghost use Rattle.trace_format.specs.declared.record.TraceEnd.{TraceEnd};
ghost use Rattle.trace_format.specs.declared.before.Before.{Before};
ghost use Rattle.trace_format.specs.declared.fault.TraceFault.{TraceFault};
ghost use Rattle.trace_format.specs.declared.record.TraceRecord.{TraceRecord};
ghost use Rattle.trace_format.specs.declared.record.Version.{Version as Format};
ghost use Rattle.trace_format.specs.declared.read_so_far.ReadSoFar.{ReadSoFar};
ghost use Rattle.trace_format.specs.Faults.{HasFault};
ghost use Rattle.trace_format.specs.Found.{IsFound, IsTraceOf};
ghost use Rattle.trace_format.specs.Judging.{record_extent, record_judged};
ghost use Rattle.trace_format.specs.Reading.{ending_of, reading_of};
ghost use Rattle.trace_format.specs.Rules.{IsGoodBefore, IsGoodRecord};
ghost use Rattle.trace_format.specs.Spelling.{spell_record};

/// What is read is what was spelled. Nothing is done.
pub fn what_is_read_was_spelled()
    // whole bytes that are judged a record are the one spelling of it, and it is good
    ensures record_found { (p : ReadSoFar) (bytes : List ℕ) (item : TraceRecord)
        → p.header.harts ≤ 256 → IsGoodBefore p.before → All (λ b. b < 256) bytes
        → length bytes ≡ record_extent p.version bytes
        → record_judged p bytes ≡ Ok item → IsFound p bytes item }
    // bytes that end with no fault are a trace of the records that are read and of that end
    ensures trace_found { (bytes : List ℕ) (e : TraceEnd) → All (λ b. b < 256) bytes
        → ending_of (reading_of bytes).1 ≡ Ok e → IsTraceOf bytes (reading_of bytes).0 e }
    // after one and the same beginning, no spelling of a record is a prefix of another one's
    ensures no_prefix { (v : Format) (harts : ℕ) (before : Before) (a b : TraceRecord) (more : List ℕ)
        → IsGoodRecord v harts a → IsGoodRecord v harts b
        → spell_record v before b ≡ spell_record v before a ++ more → more ≡ [] }
{}

/// A fault stands behind a good beginning, at the first unit that is cut short or refused. Nothing
/// is done.
pub fn where_the_first_fault_stands()
    // bytes that are no trace are the spelling of the records that are read, then one unit that is
    // judged at this fault, whatever follows
    ensures stands { (bytes : List ℕ) (f : TraceFault) → All (λ b. b < 256) bytes
        → ending_of (reading_of bytes).1 ≡ Err f → HasFault bytes (reading_of bytes).0 f }
    // such bytes have no other records, and no other fault
    ensures only { (bytes : List ℕ) (items : List TraceRecord) (f : TraceFault)
        → HasFault bytes items f
        → ((reading_of bytes).0 ≡ items) × (ending_of (reading_of bytes).1 ≡ Err f) }
{}
