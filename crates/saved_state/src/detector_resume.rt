// A detector, taken up again.
ghost use Rattle.std.specs.Prelude.{◌≡◌, ◌≢◌, ◌^◌, ◌≤◌, ◌++◌, ℕ, List, Err, IfErr, IfOk, IsTrue, Ok};
ghost use Rattle.std.specs.Prelude.{Some, length};
ghost use Rattle.base.specs.Levels.{Levels, is_from_to};
ghost use Rattle.base.specs.Lines.{Grid};
ghost use Rattle.base.specs.declared.faults.ResumeFault.TheVariants as faults;
ghost use Rattle.detector.specs.Entries.{no_entries};
ghost use Rattle.sharing_rules.specs.AccessLists.{AccessList};
ghost use Rattle.sharing_rules.specs.Listed.{may_predict};
ghost use Rattle.detector.specs.Adding.{nothing_kept};
ghost use Rattle.saved_state.specs.OfLists.{MayKeep, state_of_list};
ghost use Rattle.saved_state.specs.Parts.{header_meant};
ghost use Rattle.saved_state.specs.Reading.{BeginsWith, read_state};
ghost use Rattle.saved_state.specs.Units.{header_in};
ghost use Rattle.saved_state.specs.Resuming.{IsResumedFrom, resumption, resumption_in};
ghost use Rattle.saved_state.specs.Saving.{state_of};

use crate::header_places::HEADER_LENGTH;
use crate::part_rest::{Rest, fault_at};
use crate::resumed_lines::read_lines;
use crate::resumed_tracks::read_tracks;
use crate::{StateHeader, read_header};
use base::ResumeFault;
use detector::{Detector, LineIndex};
use std::alloc::Global;

/// A detector that was taken up again, the number of harts that the state records, and how many
/// bytes of the part were used.
#[derive(Drop)]
pub struct Resumed<I: LineIndex> {
    /// The detector.
    pub detector: Detector<I>,
    /// The number of harts, from 1 to 256.
    pub harts: u16,
    /// The place behind the last track.
    pub used: usize,
}

// Reads the lines and the tracks of the state that begins a part into a detector of which nothing
// is kept, and gives the place behind them.
fn read_parts<I: LineIndex>(
    alloc: Global,
    detector: &mut Detector<I>,
    header: &StateHeader,
    part: &[u8],
) -> Result<usize, ResumeFault>
    requires header { header_in part.now ≡ Some (header_meant header.now) }
    requires blank { detector.old
        ≡ nothing_kept header.now.layout header.now.thresholds header.now.position }
    requires native { IsTrue (may_predict header.now.layout header.now.thresholds) }
    requires long { 64 ≤ length part.now }
    requires harts { header.now.harts ≤ 256 }
    requires early { header.now.position ≤ 2 ^ 40 }
    ensures refused { IfErr result (λ fault. fault ≢ faults.NoMemory
        → resumption_in header.now.thresholds.report part.now ≡ Err fault) }
    ensures resumed { IfOk result (λ used. resumption_in header.now.thresholds.report part.now
        ≡ Ok (resumption detector.new header.now.harts used)) }
    ensures state { IfOk result (λ used.
        read_state part.now ≡ Ok (state_of header.now.harts detector.new, used)) }
{
    let mut due = Vec::new(alloc);
    let lines = Rest {
        place: HEADER_LENGTH,
        bytes: part.split_at(HEADER_LENGTH).1,
    };
    let tracks = match read_lines(detector, &mut due, header, lines) {
        Ok(rest) => rest,
        Err(fault) => return Err(fault),
    };
    let rest = match read_tracks(alloc, detector, &due, header, tracks) {
        Ok(rest) => rest,
        Err(fault) => return Err(fault),
    };
    // Where a due line has no track, the unit that stands in its place is at fault.
    if detector.tracks().len() < due.len() {
        return Err(fault_at(rest));
    }
    Ok(rest.place)
}

/// The detector of the state that begins a part, over an index with no entry, with a report
/// threshold from 1 to 2^40. BadState has the place of the first unit at fault: the header, a
/// written line, or a track. It takes memory for the lines and tracks that are there, whatever
/// their numbers say.
pub fn resume_detector<I: LineIndex + Drop>(
    alloc: Global,
    index: I,
    part: &[u8],
    report: u64,
) -> Result<Resumed<I>, ResumeFault>
    requires empty { I.entries index ≡ no_entries }
    requires report { IsTrue (is_from_to 1 (2 ^ 40) report) }
    ensures refused { IfErr result (λ fault. fault ≢ faults.NoMemory
        → resumption_in report part.now ≡ Err fault) }
    ensures resumed { IfOk result (λ r. resumption_in report part.now
        ≡ Ok (resumption r.detector r.harts r.used)) }
    // what it holds is the state that is read
    ensures state { IfOk result (λ r.
        read_state part.now ≡ Ok (state_of r.harts r.detector, r.used)) }
    // so saved again with these harts it has the bytes that were used
    ensures spelled { IfOk result (λ r.
        BeginsWith part.now (state_of r.harts r.detector) r.used) }
    // taken up from the state of a list it stands for the list
    ensures of_list { (g : Grid) (v : Levels) (harts : ℕ) (t : AccessList) (more : List ℕ)
        → MayKeep g v harts t → part.now ≡ state_of_list g v harts t ++ more
        → IfOk result (λ r. IsResumedFrom g v harts t r.detector r.harts r.used) }
{
    let header = match read_header(part, report) {
        Some(header) => header,
        None => return Err(ResumeFault::BadState(0)),
    };
    let (layout, thresholds) = (header.layout, header.thresholds);
    let mut detector = Detector::at(alloc, index, layout, thresholds, header.position);
    match read_parts(alloc, &mut detector, &header, part) {
        Ok(used) => Ok(Resumed {
            detector,
            harts: header.harts,
            used,
        }),
        Err(fault) => Err(fault),
    }
}
