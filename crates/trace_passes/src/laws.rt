// A law of traces, for callers whose own clauses speak of what is written.
ghost use Rattle.std.specs.Prelude.{◌≡◌, ◌<◌, ℕ, List, Some};
ghost use Rattle.std.specs.List.{All};
ghost use Rattle.trace_format.specs.Rules.{IsTrace};
ghost use Rattle.trace_passes.specs.Passes.{Trace, trace_of};

use trace_format::what_is_read_was_spelled;

/// What is a trace is the spelling of its parts, which are good. Nothing is done.
pub fn a_trace_is_its_spelling()
    ensures { (bytes : List ℕ) (t : Trace) → All (λ b. b < 256) bytes → trace_of bytes ≡ Some t
        → IsTrace bytes t.version t.header t.items t.ending }
{
    what_is_read_was_spelled();
}
