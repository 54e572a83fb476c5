// The command `replay`.
ghost use Rattle.std.specs.Prelude.{◌≡◌, ◌∷◌, [], IfErr, IfOk, IsTrue, List, None, OnOk, Some};
ghost use Rattle.command_line.specs.Demands.{text_of};
ghost use Rattle.command_line.specs.Replay.{replay_meaning};
ghost use Rattle.command_line.specs.Words.{replay as asks};
ghost use Rattle.base.specs.Levels.{Levels};
ghost use Rattle.base.specs.Lines.{Grid};
ghost use Rattle.sharing_rules.specs.Listed.{may_predict};
ghost use Rattle.shelf.specs.Shelf.{Outside};
ghost use Rattle.observations.specs.Seen.{HasSeen, begins_at, report_of_records};
ghost use Rattle.observations.specs.ObservedTraces.{nothing_observed, report_of_observed};
ghost use Rattle.trace_format.specs.declared.record.TraceRecord.{TraceRecord as Record};
ghost use Rattle.command_io.specs.Readings.{IsAccepted, IsReadFrom, IsStopped};
ghost use Rattle.command_io.specs.Works.{output_for};
ghost use Rattle.predator_cli.specs.Meets.{Meets};
ghost use Rattle.predator_cli.specs.Replay.{IsCounted, IsToShow, replay_readings, shown};
ghost use Rattle.predator_cli.specs.Replay.{lines_for, trace_reading, wanted_after, wanted_behind};
ghost use Rattle.predator_cli.specs.States.{state_of_records, state_of_observed};

use crate::counting::{WHOLE, see_trace};
use crate::endings::{finish, refuse, stop};
use crate::state_file::{Begun, read_state};
use base::{Ending, Layout, NoMemory, Thresholds};
use command_io::{Status, native_layout, read_settings, save, thresholds_of};
use command_line::ReplayOptions;
use observations::Observations;
use saved_state::{save_detector, save_objects};
use shelf::Shelf;
use std::alloc::Global;
use trace_passes::Wanted;

// What a replay gives: its report, and its state, where one is saved.
#[derive(Drop)]
struct Counted {
    text: Vec<u8>,
    state: Vec<u8>,
}

// The state of what was seen of a trace of so many harts.
fn state_bytes(alloc: Global, observations: &Observations, harts: u16) -> Result<Vec<u8>, NoMemory>
    ensures of_held { IfOk result (λ bytes. bytes.items ≡ state_of_observed harts observations.now) }
    ensures of_records { (g : Grid) (v : Levels) (items : List Record)
        → HasSeen (nothing_observed g v) observations.now items
        → IfOk result (λ bytes. bytes.items ≡ state_of_records g v harts items) }
{
    let mut bytes = save_detector(alloc, observations.detector(), harts)?;
    let objects = save_objects(observations.objects())?;
    bytes.extend_from_slice(&objects)?;
    Ok(bytes)
}

// The same, where a name is given for it.
fn state_for(
    alloc: Global,
    name: Option<&str>,
    observations: &Observations,
    harts: u16,
) -> Result<Vec<u8>, NoMemory>
    ensures of_held { IfOk result (λ bytes. output_for (text_of name.entry) bytes.items
        ≡ output_for (text_of name.entry) (state_of_observed harts observations.now)) }
    ensures of_records { (g : Grid) (v : Levels) (items : List Record)
        → HasSeen (nothing_observed g v) observations.now items
        → IfOk result (λ bytes. output_for (text_of name.entry) bytes.items
        ≡ output_for (text_of name.entry) (state_of_records g v harts items)) }
{
    match name {
        Some(_) => state_bytes(alloc, observations, harts),
        None => Ok(Vec::new(alloc)),
    }
}

// What a replay gives of what was seen, with an end.
fn counted_of(
    alloc: Global,
    name: Option<&str>,
    observations: &Observations,
    harts: u16,
    ending: &Ending,
) -> Result<Counted, NoMemory>
    ensures of_held { IfOk result (λ counted.
        shown (text_of name.entry) (report_of_observed ending.now observations.now)
        (state_of_observed harts observations.now)
        ≡ shown (text_of name.entry) counted.text.items counted.state.items) }
    ensures of_records { (g : Grid) (v : Levels) (items : List Record)
        → HasSeen (nothing_observed g v) observations.now items → IfOk result (λ counted.
        shown (text_of name.entry) (report_of_records ending.now g v items)
        (state_of_records g v harts items)
        ≡ shown (text_of name.entry) counted.text.items counted.state.items) }
{
    let text = observations.report(alloc, ending)?;
    let state = state_for(alloc, name, observations, harts)?;
    Ok(Counted { text, state })
}

// How many bytes a filtered trace's regions must have, where no state is saved: as many as the
// largest lines that a replay predicts. None takes no filtered trace.
#[tactic(auto, using(std::proofs::lemmas::Bool::Decides::nat_tests))]
fn lines_for(save: Option<&str>, layout: Layout) -> Option<u32>
    ensures { result ≡ lines_for (text_of save.entry) layout }
{
    match save {
        Some(_) => None,
        None => Some(2 * layout.size()),
    }
}

// What the replay of a whole trace gives, which is seen from nothing on.
fn count_whole<S: Shelf>(
    alloc: Global,
    options: &ReplayOptions<'_>,
    shelf: &mut S,
    layout: Layout,
    observations: &mut Observations,
) -> Result<Counted, Status>
    requires begins { begins_at observations.old 0 }
    requires fresh { HasSeen observations.old observations.old [] }
    ensures counted { (g : Grid) (v : Levels) → observations.old ≡ nothing_observed g v
        → IfOk result (λ counted.
        IsReadFrom (S.outside shelf.new).held options.now.trace.now (λ bytes.
        IsCounted (text_of options.now.save) g v None bytes
        counted.text.items counted.state.items)) }
    ensures accepted { OnOk result (IsAccepted (trace_reading
        (λ _. wanted_after (text_of options.now.save) layout None) options.now.trace.now ∷ [])
        (S.outside shelf.old) (S.outside shelf.new)) }
    ensures stopped { IfErr result (IsStopped (trace_reading
        (λ _. wanted_after (text_of options.now.save) layout None) options.now.trace.now ∷ [])
        (S.outside shelf.old) (S.outside shelf.new)) }
{
    let wanted = Wanted {
        lines: lines_for(options.save, layout),
        ..WHOLE
    };
    match see_trace(alloc, shelf, options.trace, &wanted, observations) {
        Ok(passed) => {
            let (harts, ending) = (passed.header.harts, passed.ending.ending());
            match counted_of(alloc, options.save, observations, harts, &ending) {
                Ok(counted) => Ok(counted),
                Err(NoMemory) => Err(Status::NoMemory),
            }
        }
        Err(status) => Err(status),
    }
}

// What the replay of a trace of so many harts gives that goes on from what was seen. It is reported
// with all accesses, those before the trace with its own.
fn count_on<S: Shelf>(
    alloc: Global,
    options: &ReplayOptions<'_>,
    shelf: &mut S,
    harts: u16,
    observations: &mut Observations,
) -> Result<Counted, Status>
    ensures counted { IfOk result (λ counted. (g : Grid) (v : Levels)
        → IsReadFrom (S.outside shelf.new).held options.now.trace.now (λ bytes.
        IsCounted (text_of options.now.save) g v
        (Some (record { observations = observations.old; harts = harts })) bytes
        counted.text.items counted.state.items)) }
    ensures accepted { OnOk result (IsAccepted (trace_reading
        (λ _. wanted_behind (record { observations = observations.old; harts = harts }))
        options.now.trace.now ∷ []) (S.outside shelf.old) (S.outside shelf.new)) }
    ensures stopped { IfErr result (IsStopped (trace_reading
        (λ _. wanted_behind (record { observations = observations.old; harts = harts }))
        options.now.trace.now ∷ []) (S.outside shelf.old) (S.outside shelf.new)) }
{
    let wanted = Wanted {
        harts: Some(harts),
        first: Some(observations.position()),
        pcs: false,
        lines: None,
    };
    match see_trace(alloc, shelf, options.trace, &wanted, observations) {
        Ok(passed) => {
            let harts = passed.header.harts;
            let ending = Ending {
                accesses: observations.position(),
                ..passed.ending.ending()
            };
            match counted_of(alloc, options.save, observations, harts, &ending) {
                Ok(counted) => Ok(counted),
                Err(NoMemory) => Err(Status::NoMemory),
            }
        }
        Err(status) => Err(status),
    }
}

// What the replay of a trace gives, which goes on from a state where there is one.
fn count_from<S: Shelf>(
    alloc: Global,
    options: &ReplayOptions<'_>,
    shelf: &mut S,
    layout: Layout,
    thresholds: Thresholds,
    begun: Option<Begun>,
) -> Result<Counted, Status>
    requires { IsTrue (may_predict layout thresholds) }
    ensures counted { IfOk result (λ counted.
        IsReadFrom (S.outside shelf.new).held options.now.trace.now (λ bytes.
        IsCounted (text_of options.now.save) layout thresholds begun bytes
        counted.text.items counted.state.items)) }
    ensures accepted { OnOk result (IsAccepted (trace_reading
        (λ _. wanted_after (text_of options.now.save) layout begun) options.now.trace.now ∷ [])
        (S.outside shelf.old) (S.outside shelf.new)) }
    ensures stopped { IfErr result (IsStopped (trace_reading
        (λ _. wanted_after (text_of options.now.save) layout begun) options.now.trace.now ∷ [])
        (S.outside shelf.old) (S.outside shelf.new)) }
{
    match begun {
        None => {
            let mut observations = Observations::new(alloc, layout, thresholds);
            count_whole(alloc, options, shelf, layout, &mut observations)
        }
        Some(
            Begun {
                mut observations,
                harts,
            },
        ) => count_on(alloc, options, shelf, harts, &mut observations),
    }
}

// What a replay gives under the settings and behind the state that are named, or why there is
// nothing.
fn count_trace<S: Shelf>(
    alloc: Global,
    options: &ReplayOptions<'_>,
    shelf: &mut S,
) -> Result<Counted, Status>
    ensures counted { IfOk result (λ counted. IsToShow (replay_meaning options.now)
        (S.outside shelf.old) (S.outside shelf.new) counted.text.items counted.state.items) }
    ensures stopped { IfErr result (IsStopped (replay_readings (replay_meaning options.now))
        (S.outside shelf.old) (S.outside shelf.new)) }
{
    let settings = match read_settings(alloc, shelf, options.settings, &options.set) {
        Ok(settings) => settings,
        Err(status) => return Err(status),
    };
    let layout = options.layout.unwrap_or(native_layout(&settings));
    let thresholds = thresholds_of(&settings, options.layout);
    let begun = match read_state(alloc, shelf, options.resume, layout, thresholds) {
        Ok(begun) => begun,
        Err(status) => return Err(status),
    };
    match count_from(alloc, options, shelf, layout, thresholds, begun) {
        Ok(counted) => Ok(counted),
        Err(status) => Err(status),
    }
}

// Saves the state of a replay where it is named, and prints the report.
fn show<S: Shelf>(
    alloc: Global,
    options: &ReplayOptions<'_>,
    counted: &Counted,
    shelf: &mut S,
) -> Status
    ensures { (old : Outside) → IsToShow (replay_meaning options.now) old (S.outside shelf.old)
        counted.now.text.items counted.now.state.items
        → Meets (Some (asks (replay_meaning options.now))) old (S.outside shelf.new) result }
{
    match save(alloc, shelf, options.save, &counted.state) {
        Ok(()) => finish(shelf, Status::Done, &counted.text),
        Err(error) => refuse(alloc, shelf, Status::from(error)),
    }
}

/// Replays the trace of a name: counts its accesses under the settings and the layout, behind a
/// saved state where one is named, saves the state at its end where a name is given for it, and
/// prints the report. A filtered trace is taken where no state is named and its regions have at
/// least twice as many bytes as the lines.
pub fn replay<S: Shelf>(alloc: Global, options: &ReplayOptions<'_>, shelf: &mut S) -> Status
    ensures { Meets (Some (asks (replay_meaning options.now)))
        (S.outside shelf.old) (S.outside shelf.new) result }
{
    match count_trace(alloc, options, shelf) {
        Ok(counted) => show(alloc, options, &counted, shelf),
        Err(status) => stop(alloc, shelf, status),
    }
}
