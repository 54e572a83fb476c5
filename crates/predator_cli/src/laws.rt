// The laws of replays that go on, for whoever reads contracts alone. The calls do nothing.
ghost use Rattle.trace_format.specs.declared.record.Version.TheVariants.{Four};
ghost use Rattle.std.specs.Prelude.{◌≢◌, ◌≡◌, ℕ, ◌<◌, ◌^◌, List, [], ◌∷◌, length, flat_map, None, Ok};
ghost use Rattle.std.specs.Prelude.{Option, Some};
ghost use Rattle.std.specs.List.{All};
ghost use Rattle.command_io.specs.Readings.{first_refusal};
ghost use Rattle.command_io.specs.SettingsFiles.{settings_readings};
ghost use Rattle.command_line.specs.Replay.{ReplayDemand};
ghost use Rattle.command_line.specs.Split.{SplitDemand};
ghost use Rattle.command_line.specs.Words.{replay};
ghost use Rattle.detector.specs.Changes.{AddNoTracks};
ghost use Rattle.saved_state.specs.ObjectRules.{IsSavable};
ghost use Rattle.base.specs.Levels.{Levels};
ghost use Rattle.base.specs.Lines.{Grid};
ghost use Rattle.shelf.specs.Shelf.{Files, content};
ghost use Rattle.trace_passes.specs.Lives.{objects_of};
ghost use Rattle.saved_state.specs.OfLists.{AreOf};
ghost use Rattle.trace_format.specs.Rules.{IsGoodRecord, touches_in};
ghost use Rattle.trace_format.specs.declared.record.TraceRecord.{TraceRecord as Record};
ghost use Rattle.trace_format.specs.declared.record.Version.{Version as Format};
ghost use Rattle.trace_files.specs.Copies.{first_half, second_half};
ghost use Rattle.trace_passes.specs.Passes.{Trace, all_records, trace_of};
ghost use Rattle.predator_cli.specs.Answer.{answer_of};
ghost use Rattle.predator_cli.specs.GoesOn.{HoldsBoth, IsCutIn, MayStand, NotesAlone, begun_of};
ghost use Rattle.predator_cli.specs.GoesOn.{work_of_both};
ghost use Rattle.predator_cli.specs.Parts.{SplitRepeats, TwoHalvesRepeat};
ghost use Rattle.predator_cli.specs.Replay.{begun_in, grid_in, levels_in, replay_work};
ghost use Rattle.predator_cli.specs.Replay.{work_after};
ghost use Rattle.predator_cli.specs.States.{judged_state, state_of_records};
ghost use Rattle.predator_cli.specs.declared.state_file.Begun.{Begun};

use detector::an_access_changes_what_it_meets;
use observations::{what_is_noted_is_seen, what_stands_was_noted};
use saved_state::{the_state_of_a_list_is_taken_up, what_is_resumed_was_saved};
use trace_files::the_halves_are_traces;
use trace_passes::a_trace_is_its_spelling;

/// A replay that goes on from the state of some records gives the report, and saves the state, of
/// these records followed by those of its trace. Nothing is done.
pub fn a_replay_goes_on_from_a_list()
    // the state of the records is taken up as what was seen of them
    ensures taken { (g : Grid) (v : Levels) (harts : ℕ) (before : List Record)
        → MayStand g v harts before
        → judged_state g v (state_of_records g v harts before) ≡ Ok (begun_of g v harts before) }
    // from there a trace gives what the records and its own give together
    ensures goes_on { (save : Option (List ℕ)) (g : Grid) (v : Levels) (harts : ℕ)
        (before : List Record) (t : Trace) → MayStand g v harts before → t.header.harts ≡ harts
        → work_after save g v (Some (begun_of g v harts before)) t
        ≡ work_of_both save g v harts before t }
    // and so does a replay that is asked for, where its files hold the state and the trace
    ensures replayed { (demand : ReplayDemand) (files : Files) (name : List ℕ) (harts : ℕ)
        (before : List Record) (t : Trace) → demand.resume ≡ Some name
        → MayStand (grid_in demand files) (levels_in demand files) harts before
        → content files name
        ≡ state_of_records (grid_in demand files) (levels_in demand files) harts before
        → trace_of (content files demand.trace) ≡ Some t → t.header.harts ≡ harts
        → replay_work demand files ≡ work_of_both demand.save (grid_in demand files)
        (levels_in demand files) harts before t }
    // which is then what the program answers, where the trace begins behind the records and the
    // settings are not refused
    ensures answered { (demand : ReplayDemand) (files : Files) (harts : ℕ) (before : List Record)
        (t : Trace) → HoldsBoth demand files harts before t
        → first_refusal (settings_readings demand.settings) files ≡ None
        → answer_of (Some (replay demand)) files ≡ work_of_both demand.save (grid_in demand files)
        (levels_in demand files) harts before t }
    // Behind any state that is taken up, also one that no list has: where no write of the trace
    // brings a line to the tracking threshold or to a multiple of the prediction threshold, the
    // tracks are those of the state, each with the accesses in its range noted, and no more.
    ensures no_new_track { (demand : ReplayDemand) (files : Files) (begun : Begun) (t : Trace)
        → begun_in demand files ≡ Some begun
        → trace_of (content files demand.trace) ≡ Some t
        → AddNoTracks begun.observations.watch (touches_in (all_records t))
        → NotesAlone demand files begun t }
    // Of a trace that was cut in parts, each saved and carried on, the last one gives what the
    // whole trace gives,
    ensures carried { (save : Option (List ℕ)) (g : Grid) (v : Levels)
        (whole last : Trace) (earlier : List Trace) → IsCutIn whole earlier last
        → work_of_both save g v whole.header.harts (flat_map all_records earlier) last
        ≡ work_after save g v None whole }
    // as the two halves are that `split` makes
    ensures halves { (at : ℕ) (bytes : List ℕ) (whole : Trace) → All (λ b. b < 256) bytes
        → trace_of bytes ≡ Some whole → whole.version ≢ Four
        → IsCutIn whole (first_half at whole ∷ []) (second_half at whole) }
    // the objects and the accesses of good records may stand in a state
    ensures good { (v : Format) (harts : ℕ) (before : List Record)
        → All (IsGoodRecord v harts) before
        → length before < 2 ^ 64 → IsSavable (length (touches_in before)) (objects_of before) }
    ensures of_harts { (v : Format) (harts : ℕ) (before : List Record)
        → All (IsGoodRecord v harts) before
        → AreOf harts (touches_in before) }
{
    the_state_of_a_list_is_taken_up();
    what_is_resumed_was_saved();
    what_is_noted_is_seen();
    what_stands_was_noted();
    a_trace_is_its_spelling();
    the_halves_are_traces();
    an_access_changes_what_it_meets();
}

/// However often a trace is cut by `split`, its parts, each replayed from the saved state of those
/// before it, give at last what the replay of the whole gives. Nothing is done.
pub fn a_trace_counts_in_parts()
    ensures { (demand : SplitDemand) (files : Files) → SplitRepeats demand files }
{
    a_replay_goes_on_from_a_list();
    the_halves_are_traces();
    what_is_noted_is_seen();
    what_stands_was_noted();
}

/// The two halves that `split` makes of a trace, the second replayed from the saved state of the
/// first, give what the replay of the whole gives. Nothing is done.
pub fn two_halves_count_as_the_whole()
    ensures { (demand : SplitDemand) (files : Files) → TwoHalvesRepeat demand files }
{
    a_trace_counts_in_parts();
}
