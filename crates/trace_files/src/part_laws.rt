// The halves of a trace.
ghost use Rattle.std.specs.Prelude.{◌≡◌, ◌≢◌, ◌<◌, ℕ, List, Some};
ghost use Rattle.std.specs.List.{All};
ghost use Rattle.trace_format.specs.declared.record.Version.TheVariants.{Four};
ghost use Rattle.trace_passes.specs.Passes.{Trace, trace_of};
ghost use Rattle.trace_files.specs.Copies.{first_half, second_half};
ghost use Rattle.trace_files.specs.Halves.{AreHalves, IsWhole};

use trace_format::a_trace_is_cut_in_two;
use trace_passes::a_trace_is_its_spelling;

/// The halves of a trace that isn't filtered, cut at any access, are traces: their bytes are read as these halves, each
/// states how many accesses it has, and the second begins behind the accesses of the first. Nothing
/// is done.
pub fn the_halves_are_traces()
    // bytes that are a trace are its spelling, which is read as this trace again
    ensures whole { (bytes : List ℕ) (t : Trace) → All (λ b. b < 256) bytes
        → trace_of bytes ≡ Some t → IsWhole t }
    ensures halves { (at : ℕ) (t : Trace) → IsWhole t → t.version ≢ Four
        → AreHalves t (first_half at t) (second_half at t) }
{
    a_trace_is_its_spelling();
    a_trace_is_cut_in_two();
}
