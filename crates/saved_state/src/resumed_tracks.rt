// The tracks of a state, read into a detector one by one.
ghost use Rattle.std.specs.Prelude.{◌≡◌, ◌≢◌, ◌+◌, ◌*◌, ◌<◌, ◌≤◌, ◌^◌, ℕ, suc, Err, Ok, IfErr};
ghost use Rattle.std.specs.Prelude.{IfOk, OnOk, drop, length};
ghost use Rattle.base.specs.declared.faults.ResumeFault.TheVariants as faults;
ghost use Rattle.saved_state.specs.Parts.{header_meant, kept_of};
ghost use Rattle.saved_state.specs.Ready.{IsReady, due_numbers, tracks_at, tracks_read};

use crate::part_rest::{Rest, behind, fault_at};
use crate::placing::is_placed;
use crate::{SavedTrack, StateHeader, read_track};
use base::{NoMemory, ResumeFault};
use detector::{Detector, LineIndex};
use std::alloc::Global;

// How many bytes a track has before its words, and each of them.
const HEAD_LENGTH: usize = 32;

const WORD_LENGTH: usize = 20;

// How many bytes a track has.
fn length_of(track: &SavedTrack) -> usize
    ensures { result ≡ 32 + 20 * length (kept_of track.now).words }
{
    HEAD_LENGTH + track.shadow.range().size as usize / 4 * WORD_LENGTH
}

// Reads one track, and gives how many bytes it has.
fn next_track<I: LineIndex>(
    alloc: Global,
    detector: &mut Detector<I>,
    due: &[u64],
    header: &StateHeader,
    rest: Rest<'_>,
) -> Result<usize, ResumeFault>
    requires ready { IsReady (header_meant header.now) detector.old }
    requires due { due.now ≡ due_numbers (header_meant header.now) detector.old }
    requires harts { header.now.harts ≤ 256 }
    requires early { header.now.position ≤ 2 ^ 40 }
    ensures read { (more : ℕ) → IfOk result (λ size.
        tracks_read (header_meant header.now) (suc more) detector.old rest.entry.place
        rest.entry.bytes.now
        ≡ tracks_read (header_meant header.now) more detector.new (rest.entry.place + size)
        (drop size rest.entry.bytes.now)) }
    ensures long { IfOk result (λ size. size ≤ length rest.entry.bytes.now) }
    ensures ready { OnOk result (IsReady (header_meant header.now) detector.new) }
    ensures writes { OnOk result (detector.new.writes ≡ detector.old.writes) }
    ensures levels { OnOk result (detector.new.levels ≡ detector.old.levels) }
    ensures refused { (more : ℕ) → IfErr result (λ fault. fault ≢ faults.NoMemory
        → tracks_read (header_meant header.now) (suc more) detector.old rest.entry.place
        rest.entry.bytes.now
        ≡ Err fault) }
{
    let track = match read_track(alloc, header, rest.bytes) {
        Ok(Some(track)) => track,
        Ok(None) => return Err(fault_at(rest)),
        Err(NoMemory) => return Err(ResumeFault::NoMemory),
    };
    if !is_placed(detector, due, header, &track) {
        return Err(fault_at(rest));
    }
    let size = length_of(&track);
    match detector.add_track(track.kind, track.shadow, track.start, track.count) {
        Ok(()) => Ok(size),
        Err(NoMemory) => Err(ResumeFault::NoMemory),
    }
}

/// Reads all tracks that a header states, into a detector that has none, beside its lines, of which
/// these are due. It takes memory for the tracks that are there alone.
pub fn read_tracks<'a, I: LineIndex>(
    alloc: Global,
    detector: &mut Detector<I>,
    due: &[u64],
    header: &StateHeader,
    rest: Rest<'a>,
) -> Result<Rest<'a>, ResumeFault>
    requires ready { IsReady (header_meant header.now) detector.old }
    requires due { due.now ≡ due_numbers (header_meant header.now) detector.old }
    requires harts { header.now.harts ≤ 256 }
    requires early { header.now.position ≤ 2 ^ 40 }
    requires few { rest.place + length rest.bytes.now < 2 ^ 64 }
    ensures read { IfOk result (λ after.
        tracks_read (header_meant header.now) header.now.tracks detector.old rest.entry.place
        rest.entry.bytes.now ≡ Ok (tracks_at detector.new after.place after.bytes.now)) }
    ensures ready { OnOk result (IsReady (header_meant header.now) detector.new) }
    ensures writes { OnOk result (detector.new.writes ≡ detector.old.writes) }
    ensures levels { OnOk result (detector.new.levels ≡ detector.old.levels) }
    ensures refused { IfErr result (λ fault. fault ≢ faults.NoMemory
        → tracks_read (header_meant header.now) header.now.tracks detector.old rest.entry.place
        rest.entry.bytes.now ≡ Err fault) }
{
    let mut rest = rest;
    for _ in 0..header.tracks {
        match next_track(alloc, detector, due, header, rest) {
            Ok(size) => rest = behind(rest, size),
            Err(fault) => return Err(fault),
        }
    }
    Ok(rest)
}
