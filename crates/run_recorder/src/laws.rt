// The law of what a trace with pcs records.
ghost use Rattle.std.specs.Prelude.{◌≡◌, ℕ, List, Some};
ghost use Rattle.std.specs.List.{All};
ghost use Rattle.guest.specs.Runs.{Run};
ghost use Rattle.run_recorder.specs.Recorded.{IsKept, IsSymbolRecord, RecordsRun, trace_for};
ghost use Rattle.trace_format.specs.declared.record.TraceRecord.{TraceRecord};
ghost use Rattle.trace_format.specs.declared.record.Version.TheVariants.{Three};
ghost use Rattle.trace_passes.specs.Passes.{Trace, spell_trace, trace_of};

/// What is read of the trace that a run wrote with pcs is the trace without them but for the pcs,
/// and the accesses of the run with the pc of each. Nothing is done.
pub fn a_trace_with_pcs_records_the_run()
    ensures { (harts : ℕ) (symbols : List TraceRecord) (r : Run) → All IsSymbolRecord symbols
        → IsKept (trace_for Three harts symbols r)
        → (t : Trace) × (trace_of (spell_trace (trace_for Three harts symbols r)) ≡ Some t)
        × RecordsRun harts symbols r t }
{}
