// Whether a track may stand behind those that were read.
ghost use Rattle.std.specs.Prelude.{◌≡◌, ◌<◌, ◌≤◌, ◌^◌, IsTrue, int_le, nat_le, pos};
ghost use Rattle.std.specs.Prelude.{slice_get};
ghost use Rattle.std.specs.List.{list_all};
ghost use Rattle.sharing_rules.specs.Members.{IsRising};
ghost use Rattle.sharing_rules.specs.declared.line_kind.LineKind.TheVariants.{Doubled, Observed};
ghost use Rattle.sharing_rules.specs.declared.line_kind.LineKind.TheVariants.{Shifted};
ghost use Rattle.line_tracks.specs.Placed.{is_placed_before};
ghost use Rattle.saved_state.specs.Parts.{header_meant, kept_of};
ghost use Rattle.saved_state.specs.Units.{is_base, is_kind_placed, is_multiple, is_placed};
ghost use Rattle.saved_state.specs.Units.{is_predicted};
ghost use Rattle.sharing_rules.specs.Lines.{number_of_base};
ghost use Rattle.detector.specs.Counts.{count_at};
ghost use Rattle.saved_state.specs.Ready.{AreShaped, IsReady, due_numbers};
ghost use Rattle.saved_state.specs.Saving.{counted_lines};

use crate::state_write::base_of;
use crate::{SavedTrack, StateHeader};
use base::Layout;
use detector::{Detector, LineIndex, Track};
use line_tracks::{LineKind, rank};
use sharing_rules::number_of_base;

// The greatest line number.
const LAST_LINE: u64 = 1 << 30;

// Whether a kept track comes before one, by kind and then by base.
fn comes_before(last: &Track, track: &SavedTrack) -> bool
    ensures { result ≡ is_placed_before last.now (kept_of track.now) }
{
    let (one, other) = (rank(last.kind()), rank(track.kind));
    one < other || (one == other && last.range().base < track.shadow.range().base)
}

// Whether a track comes behind all others, which it does where it comes behind the last.
fn comes_last(tracks: &[Track], track: &SavedTrack) -> bool
    requires { IsRising is_placed_before tracks.now }
    ensures { result ≡ list_all (λ y. is_placed_before y (kept_of track.now)) tracks.now }
{
    match tracks.last() {
        Some(last) => comes_before(last, track),
        None => true,
    }
}

// Whether a line was written as often as the tracking threshold says.
fn is_due<I: LineIndex>(detector: &Detector<I>, header: &StateHeader, line: u64) -> bool
    requires { IsReady (header_meant header.now) detector.now }
    ensures value { result ≡ nat_le header.now.thresholds.tracking
        (count_at detector.now.writes line) }
    ensures small { IsTrue result → line ≤ 2 ^ 30 }
{
    line <= LAST_LINE && detector.writes_of(line) >= header.thresholds.tracking()
}

// One of some numbers, if it is there.
fn number_at(numbers: &[u64], i: usize) -> Option<u64>
    ensures { result ≡ slice_get numbers.now i }
{
    numbers.get(i).copied()
}

// Whether a track begins where a line does.
fn is_base(layout: Layout, line: u64, track: &SavedTrack) -> bool
    requires { line ≤ 2 ^ 30 }
    ensures { result ≡ is_base layout line (kept_of track.now) }
{
    base_of(layout, line) == track.shadow.range().base
}

// Whether a track's base isn't below 0.
fn is_high(track: &SavedTrack) -> bool
    ensures { result ≡ int_le (pos 0) (kept_of track.now).range.base }
{
    track.shadow.range().base >= 0
}

// The number of the line in which a track begins.
fn line_of(layout: Layout, track: &SavedTrack) -> u64
    ensures { result ≡ number_of_base layout (kept_of track.now).range.base }
{
    number_of_base(layout, track.shadow.range().base)
}

// Whether a track's base is a multiple of a number.
fn is_multiple(n: u32, track: &SavedTrack) -> bool
    requires { 0 < n }
    ensures { result ≡ is_multiple n (kept_of track.now) }
{
    track.shadow.range().base.unsigned_abs() % u64::from(n) == 0
}

// Whether a track is that of the next due line, and begun.
fn is_own<I: LineIndex>(
    detector: &Detector<I>,
    due: &[u64],
    header: &StateHeader,
    track: &SavedTrack,
) -> bool
    requires ready { IsReady (header_meant header.now) detector.now }
    requires due { due.now ≡ due_numbers (header_meant header.now) detector.now }
    ensures { result ≡ is_kind_placed (header_meant header.now)
        (counted_lines detector.now.writes) detector.now.tracks (kept_of track.now) Observed }
{
    match number_at(due, detector.tracks().len()) {
        Some(line) => is_base(header.layout, line, track) && track.start.is_some(),
        None => false,
    }
}

// Whether a track has what each predicted one needs: prediction, every due line's own track before
// it, and two due lines from where it begins.
fn is_predicted<I: LineIndex>(
    detector: &Detector<I>,
    due: &[u64],
    header: &StateHeader,
    track: &SavedTrack,
) -> bool
    requires ready { IsReady (header_meant header.now) detector.now }
    requires due { due.now ≡ due_numbers (header_meant header.now) detector.now }
    ensures value { result ≡ is_predicted (header_meant header.now)
        (counted_lines detector.now.writes) detector.now.tracks (kept_of track.now) }
    ensures small { IsTrue result
        → number_of_base header.now.layout track.now.shadow.range.base ≤ 2 ^ 30 }
{
    if header.thresholds.prediction().is_none() || due.len() > detector.tracks().len() {
        return false;
    }
    if !is_high(track) {
        return false;
    }
    let line = line_of(header.layout, track);
    is_due(detector, header, line) && is_due(detector, header, line + 1)
}

// Whether a track begins at a word within a line that has no shifted track yet, and not at its
// first one.
fn is_shifted<I: LineIndex>(
    detector: &Detector<I>,
    due: &[u64],
    header: &StateHeader,
    track: &SavedTrack,
) -> bool
    requires ready { IsReady (header_meant header.now) detector.now }
    requires due { due.now ≡ due_numbers (header_meant header.now) detector.now }
    ensures { result ≡ is_kind_placed (header_meant header.now)
        (counted_lines detector.now.writes) detector.now.tracks (kept_of track.now) Shifted }
{
    if !is_predicted(detector, due, header, track) {
        return false;
    }
    if is_multiple(header.layout.size(), track) {
        return false;
    }
    if detector.has_track(LineKind::Shifted, line_of(header.layout, track)) {
        return false;
    }
    is_multiple(4, track)
}

// Whether a track begins where an even pair of lines does.
fn is_doubled<I: LineIndex>(
    detector: &Detector<I>,
    due: &[u64],
    header: &StateHeader,
    track: &SavedTrack,
) -> bool
    requires ready { IsReady (header_meant header.now) detector.now }
    requires due { due.now ≡ due_numbers (header_meant header.now) detector.now }
    ensures { result ≡ is_kind_placed (header_meant header.now)
        (counted_lines detector.now.writes) detector.now.tracks (kept_of track.now) Doubled }
{
    is_predicted(detector, due, header, track) && is_multiple(2 * header.layout.size(), track)
}

// Whether it may stand there by its kind.
fn is_kind_placed<I: LineIndex>(
    detector: &Detector<I>,
    due: &[u64],
    header: &StateHeader,
    track: &SavedTrack,
) -> bool
    requires ready { IsReady (header_meant header.now) detector.now }
    requires due { due.now ≡ due_numbers (header_meant header.now) detector.now }
    ensures { result ≡ is_kind_placed (header_meant header.now)
        (counted_lines detector.now.writes) detector.now.tracks (kept_of track.now)
        track.now.kind }
{
    match track.kind {
        LineKind::Observed => is_own(detector, due, header, track),
        LineKind::Shifted => is_shifted(detector, due, header, track),
        LineKind::Doubled => is_doubled(detector, due, header, track),
    }
}

/// Whether a track may stand behind those that a detector has, beside its lines, of which these are
/// due.
pub fn is_placed<I: LineIndex>(
    detector: &Detector<I>,
    due: &[u64],
    header: &StateHeader,
    track: &SavedTrack,
) -> bool
    requires ready { IsReady (header_meant header.now) detector.now }
    requires due { due.now ≡ due_numbers (header_meant header.now) detector.now }
    ensures value { result ≡ is_placed (header_meant header.now)
        (counted_lines detector.now.writes) detector.now.tracks (kept_of track.now) }
    ensures shaped { AreShaped detector.now.grid detector.now.tracks }
{
    comes_last(detector.tracks(), track) && is_kind_placed(detector, due, header, track)
}
