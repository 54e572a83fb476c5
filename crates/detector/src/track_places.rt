// Where the tracks stand that may hold an address of a line.
ghost use Rattle.std.specs.Prelude.{◌≡◌, ◌+◌, ◌≤◌, ◌<◌, ◌^◌, is_some, if◌then◌else◌, length};
ghost use Rattle.std.specs.Prelude.{Some, slice_get};
ghost use Rattle.base.specs.Ranges.{holds_address};
ghost use Rattle.line_tracks.specs.TrackValue.{TrackValue};
ghost use Rattle.detector.specs.Entries.{entry_at};
ghost use Rattle.detector.specs.Noting.{AreHeld, CanTouch, CanTouchAll, HoldsAt, places};
ghost use Rattle.detector.specs.Noting.{touched_at, touched_places};
ghost use Rattle.detector.specs.Noting;

use crate::{LineEntry, LineIndex, TrackNumber};
use base::{Access, Steps};
use line_tracks::Tracks;
use std::sync::ledger::Ledger;

/// The places of the tracks that may hold an address of a line: its own, the shifted ones of its
/// pairs with the line above and with the line below, and the doubled one of its even pair.
#[derive(Clone, Copy, Drop)]
pub struct TrackNumbers {
    pub own: TrackNumber,
    pub shifted: TrackNumber,
    pub below: TrackNumber,
    pub doubled: TrackNumber,
}

impl TrackNumbers {
    /// Whether the predicted lines of its pairs and of its even pair have all opened.
    #[inline(always)]
    pub fn have_opened(self) -> bool
        ensures { result ≡ Noting.have_opened self }
    {
        self.shifted.is_some() && self.below.is_some() && self.doubled.is_some()
    }
}

/// The places that the entries of a line and of the one below it name.
#[inline(always)]
pub fn places_of<I: LineIndex>(index: &I, line: u64) -> TrackNumbers
    requires { line ≤ 2 ^ 30 }
    ensures { result ≡ places (entry_at (I.entries index.now)) line }
{
    let here = index.peek(line);
    let below = index.peek(line.saturating_sub(1));
    places_between(line, here, below)
}

/// The same, where both entries were looked up.
#[inline(always)]
pub fn places_between(line: u64, here: LineEntry, below: LineEntry) -> TrackNumbers
    ensures { result ≡ Noting.places_between line here below }
{
    // Taken out of an array, since a branch that goes as lines come is foretold badly.
    let doubled = [below.doubled, here.doubled][(line % 2) as usize];
    TrackNumbers {
        own: here.track,
        shifted: here.shifted,
        below: below.shifted,
        doubled,
    }
}

/// Whether the range of a track holds the address of an access.
#[inline(always)]
pub fn holds(tracks: &Tracks, place: u32, access: Access) -> bool
    requires { place < length tracks.now }
    ensures { (x : TrackValue) → slice_get tracks.now place ≡ Some x
        → result ≡ holds_address x.range access.addr }
{
    tracks.all()[place as usize].contains(access.addr())
}

// Notes the track at a place, if its range holds the address.
#[inline(always)]
fn note_at<L: Ledger>(
    tracks: &mut Tracks,
    place: TrackNumber,
    position: u64,
    access: Access,
    steps: &mut Steps<L>,
)
    requires can { CanTouch tracks.old position place }
    requires early { position < 2 ^ 40 }
    ensures tracks { tracks.new ≡ touched_at position access place tracks.old }
    ensures steps { steps.new ≤ steps.old + (if is_some place then 1 else 0) }
{
    if let Some(place) = place.number() {
        if holds(tracks, place, access) {
            tracks.note(place, position, access, steps);
        }
    }
}

// Notes the track at a place, whose range holds the address.
#[inline(always)]
fn note_held<L: Ledger>(
    tracks: &mut Tracks,
    place: TrackNumber,
    position: u64,
    access: Access,
    steps: &mut Steps<L>,
)
    requires can { CanTouch tracks.old position place }
    requires held { HoldsAt tracks.old access.addr place }
    requires early { position < 2 ^ 40 }
    ensures tracks { tracks.new ≡ touched_at position access place tracks.old }
    ensures steps { steps.new ≤ steps.old + (if is_some place then 1 else 0) }
{
    if let Some(place) = place.number() {
        tracks.note(place, position, access, steps);
    }
}

/// Notes the tracks at these places whose ranges hold the address, at most one step each. Of the
/// line's own and of the doubled one it is known, and so not asked.
#[inline(always)]
pub fn note_places<L: Ledger>(
    tracks: &mut Tracks,
    places: TrackNumbers,
    position: u64,
    access: Access,
    steps: &mut Steps<L>,
)
    requires can { CanTouchAll tracks.old position access places }
    requires held { AreHeld tracks.old position access places }
    requires early { position < 2 ^ 40 }
    ensures tracks { tracks.new ≡ touched_places position access places tracks.old }
    ensures steps { steps.new ≤ steps.old + 4 }
{
    note_held(tracks, places.own, position, access, steps);
    note_at(tracks, places.shifted, position, access, steps);
    note_at(tracks, places.below, position, access, steps);
    note_held(tracks, places.doubled, position, access, steps);
}
