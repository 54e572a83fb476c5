// What copies keep of a trace.
ghost use Rattle.std.specs.Prelude.{◌≡◌, ◌≢◌, ◌++◌, ◌<◌, ◌≤◌, ℕ, List, Some, length};
ghost use Rattle.std.specs.List.{All};
ghost use Rattle.trace_format.specs.declared.record.Version.TheVariants.{Three};
ghost use Rattle.trace_format.specs.Rules.{longest_trace, touches_in};
ghost use Rattle.trace_passes.specs.Passes.{Trace, spell_trace, trace_of};
ghost use Rattle.trace_files.specs.Copies.{converted, first_half, second_half};

use trace_format::a_trace_is_cut_in_two;
use trace_passes::a_trace_is_its_spelling;

/// The accesses of the halves, one after the other, are those of the whole, and so are their
/// records. Nothing is done.
pub fn the_halves_have_the_accesses_of_the_whole()
    ensures accesses { (at : ℕ) (bytes : List ℕ) (t : Trace) → trace_of bytes ≡ Some t
        → touches_in (first_half at t).items ++ touches_in
        (second_half at t).items ≡ touches_in t.items }
    ensures records { (at : ℕ) (bytes : List ℕ) (t : Trace) → trace_of bytes ≡ Some t
        → (first_half at t).items ++ (second_half at t).items ≡ t.items }
{
    a_trace_is_cut_in_two();
}

/// A converted trace of at most 2^44 bytes is a trace with the same accesses. Where the first one
/// is of version 1 or 2, converting that gives the first one's bytes. Nothing is done.
pub fn a_trace_converted_twice_is_itself()
    ensures trace { (bytes : List ℕ) (t : Trace) → All (λ b. b < 256) bytes
        → trace_of bytes ≡ Some t
        → length (spell_trace (converted t)) ≤ longest_trace
        → trace_of (spell_trace (converted t)) ≡ Some (converted t) }
    ensures accesses { (t : Trace) → touches_in (converted t).items ≡ touches_in t.items }
    ensures itself { (bytes : List ℕ) (t : Trace) → All (λ b. b < 256) bytes
        → trace_of bytes ≡ Some t → t.version ≢ Three
        → spell_trace (converted (converted t)) ≡ bytes }
{
    a_trace_is_its_spelling();
}
