// Notes that can be undone.
ghost use Rattle.std.specs.Prelude.{◌≡◌, ◌+◌, ◌≤◌, ◌<◌, ◌^◌, List, is_some, if◌then◌else◌};
ghost use Rattle.line_tracks.specs.TrackValue.{TrackValue};
ghost use Rattle.detector.specs.Noting.{CanTouch, CanTouchAll, Undoes, UndoesAll, touched_at};
ghost use Rattle.detector.specs.Noting.{touched_places};

use crate::TrackNumber;
use crate::track_places::{TrackNumbers, holds};
use base::{Access, Steps};
use line_tracks::{Mark, Tracks};
use std::sync::ledger::Ledger;

/// What undoes the note of the track at a place.
#[derive(Drop)]
pub struct Undo {
    pub place: u32,
    pub mark: Mark,
}

/// Notes the track at a place, if its range holds the address, and gives what undoes that.
pub fn note_undoably<L: Ledger>(
    tracks: &mut Tracks,
    place: TrackNumber,
    position: u64,
    access: Access,
    steps: &mut Steps<L>,
) -> Option<Undo>
    requires can { CanTouch tracks.old position place }
    requires early { position < 2 ^ 40 }
    ensures tracks { tracks.new ≡ touched_at position access place tracks.old }
    ensures steps { steps.new ≤ steps.old + (if is_some place then 1 else 0) }
    ensures undo { Undoes result tracks.new tracks.old }
{
    let place = place.number()?;
    if !holds(tracks, place, access) {
        return None;
    }
    let mark = tracks.mark(place, access.addr());
    tracks.note(place, position, access, steps);
    Some(Undo { place, mark })
}

/// Undoes the last note, if there was one.
pub fn take_back(tracks: &mut Tracks, undo: Option<Undo>)
    requires { (xs : List TrackValue) × Undoes undo tracks.old xs }
    ensures { (xs : List TrackValue) → Undoes undo tracks.old xs → tracks.new ≡ xs }
{
    if let Some(undo) = undo {
        let Undo { place, mark } = undo;
        tracks.restore(place, mark);
    }
}

/// What undoes the notes of the tracks at the places of a line.
#[derive(Drop)]
pub struct Undos {
    pub own: Option<Undo>,
    pub shifted: Option<Undo>,
    pub below: Option<Undo>,
    pub doubled: Option<Undo>,
}

/// Notes the tracks at these places whose ranges hold the address, and gives what undoes that.
pub fn note_all_undoably<L: Ledger>(
    tracks: &mut Tracks,
    places: TrackNumbers,
    position: u64,
    access: Access,
    steps: &mut Steps<L>,
) -> Undos
    requires can { CanTouchAll tracks.old position access places }
    requires early { position < 2 ^ 40 }
    ensures tracks { tracks.new ≡ touched_places position access places tracks.old }
    ensures undos { UndoesAll result tracks.new tracks.old }
    ensures steps { steps.new ≤ steps.old + (if is_some places.own then 4 else 3) }
{
    let own = note_undoably(tracks, places.own, position, access, steps);
    let shifted = note_undoably(tracks, places.shifted, position, access, steps);
    let below = note_undoably(tracks, places.below, position, access, steps);
    let doubled = note_undoably(tracks, places.doubled, position, access, steps);
    Undos {
        own,
        shifted,
        below,
        doubled,
    }
}

/// Undoes them, the last one first.
pub fn take_all_back(tracks: &mut Tracks, undos: Undos)
    requires { (xs : List TrackValue) × UndoesAll undos tracks.old xs }
    ensures { (xs : List TrackValue) → UndoesAll undos tracks.old xs → tracks.new ≡ xs }
{
    let Undos {
        own,
        shifted,
        below,
        doubled,
    } = undos;
    take_back(tracks, doubled);
    take_back(tracks, below);
    take_back(tracks, shifted);
    take_back(tracks, own);
}
