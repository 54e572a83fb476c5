// The saved state from which a replay goes on.
ghost use Rattle.std.specs.Prelude.{◌≡◌, IfErr, IfOk, IsTrue, Ok, OnOk, drop};
ghost use Rattle.command_line.specs.Demands.{text_of};
ghost use Rattle.saved_state.specs.Resuming.{resumption};
ghost use Rattle.sharing_rules.specs.Listed.{may_predict};
ghost use Rattle.shelf.specs.Shelf.{Known};
ghost use Rattle.command_io.specs.Readings.{IsAccepted, IsJudged, IsStopped};
ghost use Rattle.predator_cli.specs.Replay.{begun_under, state_readings};
ghost use Rattle.predator_cli.specs.States.{begun_with, differing_field, resumed_state};
ghost use Rattle.predator_cli.specs.States.{state_refusal};

use base::{Layout, Thresholds};
use command_io::{Judge, StateFault, Status, read_judged};
use detector::{Detector, PagedIndex};
use objects::ObjectTable;
use observations::Observations;
use saved_state::{
    OFFSET_PLACE, PREDICTION_PLACE, Resumed, SIZE_PLACE, TRACKING_PLACE, resume_detector,
    resume_objects,
};
use shelf::Shelf;
use std::alloc::Global;

// The most bytes of a saved state.
const STATE_LIMIT: u64 = 1 << 40;

/// What a saved state says: what was seen of a trace, and how many harts the trace has.
#[derive(Drop)]
pub struct Begun {
    /// What was seen.
    pub observations: Observations,
    /// How many harts there are.
    pub harts: u16,
}

// The place of the first field of a state that isn't as the layout and the thresholds have it.
fn differing_field(
    detector: &Detector<PagedIndex>,
    layout: Layout,
    thresholds: Thresholds,
) -> Option<u64>
    ensures { result ≡ differing_field layout thresholds detector.now }
{
    let (grid, levels) = (detector.layout(), detector.thresholds());
    if grid.size() != layout.size() {
        Some(SIZE_PLACE)
    } else if grid.offset() != layout.offset() {
        Some(OFFSET_PLACE)
    } else if levels.tracking() != thresholds.tracking() {
        Some(TRACKING_PLACE)
    } else if levels.prediction() != thresholds.prediction() {
        Some(PREDICTION_PLACE)
    } else {
        None
    }
}

// A detector and objects that were taken up again, together.
fn begin_with(
    detector: Detector<PagedIndex>,
    objects: ObjectTable,
    harts: u16,
    layout: Layout,
    thresholds: Thresholds,
) -> Result<Begun, Status>
    requires { IsTrue (may_predict layout thresholds) }
    ensures begun { IfOk result (λ begun.
        begun_with layout thresholds detector harts objects ≡ Ok begun) }
    ensures judged { IfErr result (IsJudged (state_refusal
        (begun_with layout thresholds detector harts objects))) }
{
    match differing_field(&detector, layout, thresholds) {
        Some(place) => Err(Status::State(StateFault::WrongSettings(place))),
        None => Ok(Begun {
            observations: Observations::from_parts(detector, objects),
            harts,
        }),
    }
}

// The bytes from a place on.
fn left_behind(bytes: &[u8], place: usize) -> &[u8]
    ensures { result.now ≡ drop place bytes.now }
{
    if place < bytes.len() {
        bytes.split_at(place).1
    } else {
        &[]
    }
}

// What the bytes of a state say whose detector was taken up again.
fn take_up(
    alloc: Global,
    bytes: &[u8],
    resumed: Resumed<PagedIndex>,
    layout: Layout,
    thresholds: Thresholds,
) -> Result<Begun, Status>
    requires { IsTrue (may_predict layout thresholds) }
    ensures begun { IfOk result (λ begun. resumed_state layout thresholds bytes.now
        (resumption resumed.detector resumed.harts resumed.used) ≡ Ok begun) }
    ensures judged { IfErr result (IsJudged (state_refusal
        (resumed_state layout thresholds bytes.now
        (resumption resumed.detector resumed.harts resumed.used)))) }
{
    let Resumed {
        detector,
        harts,
        used,
    } = resumed;
    let left = left_behind(bytes, used);
    match resume_objects(alloc, left, used as u64, detector.position()) {
        Ok(objects) => begin_with(detector, objects, harts, layout, thresholds),
        Err(fault) => Err(Status::from(fault)),
    }
}

/// A saved state, of at most 2^40 bytes, under a layout and thresholds.
#[derive(Clone, Copy)]
struct StateUnder {
    layout: Layout,
    thresholds: Thresholds,
}

impl Judge for StateUnder {
    ghost use Rattle.std.specs.Prelude.{◌^◌};
    ghost use Rattle.predator_cli.specs.States.{judged_state, state_refusal};

    type Given = Begun;

    ghost ready = { λ j. IsTrue (may_predict j.layout j.thresholds) };

    ghost most = { λ _. 2 ^ 40 };

    ghost refusal = { λ j bytes. state_refusal (judged_state j.layout j.thresholds bytes) };

    ghost gives = { λ j bytes begun. judged_state j.layout j.thresholds bytes ≡ Ok begun };

    fn limit(&self) -> u64 {
        STATE_LIMIT
    }

    fn too_long(&self) -> Status {
        Status::State(StateFault::TooLong)
    }

    fn judge(&self, alloc: Global, bytes: &[u8]) -> Result<Begun, Status> {
        // Thresholds are in their ranges, as these say.
        let _tracking = self.thresholds.tracking();
        let index = PagedIndex::new(alloc);
        match resume_detector(alloc, index, bytes, self.thresholds.report()) {
            Ok(resumed) => take_up(alloc, bytes, resumed, self.layout, self.thresholds),
            Err(fault) => Err(Status::from(fault)),
        }
    }
}

/// What the state of a name says under a layout and thresholds, if one is named; or why the command
/// stops.
pub fn read_state<S: Shelf>(
    alloc: Global,
    shelf: &mut S,
    name: Option<&str>,
    layout: Layout,
    thresholds: Thresholds,
) -> Result<Option<Begun>, Status>
    requires { IsTrue (may_predict layout thresholds) }
    ensures begun { IfOk result (λ begun. Known (S.outside shelf.new).held
        (λ files. begun_under layout thresholds (text_of name.entry) files ≡ begun)) }
    ensures accepted { OnOk result (IsAccepted
        (state_readings (λ _. layout) (λ _. thresholds) (text_of name.entry))
        (S.outside shelf.old) (S.outside shelf.new)) }
    ensures stopped { IfErr result (IsStopped
        (state_readings (λ _. layout) (λ _. thresholds) (text_of name.entry))
        (S.outside shelf.old) (S.outside shelf.new)) }
{
    let judge = StateUnder { layout, thresholds };
    match name {
        Some(name) => match read_judged(alloc, shelf, name, &judge) {
            Ok(begun) => Ok(Some(begun)),
            Err(status) => Err(status),
        },
        None => Ok(None),
    }
}
