// All tracks.
ghost use Rattle.std.specs.Prelude.{◌≡◌, ℕ, ◌+◌, ◌%◌, ◌<◌, ◌≤◌, ◌^◌, [], ◌∷◌, ◌++◌};
ghost use Rattle.std.specs.Prelude.{length, take, slice_get, slice_set, IsTrue, IfOk, OnOk, OnErr};
ghost use Rattle.std.specs.Prelude.{None, Some};
ghost use Rattle.base.specs.Lines.{is_layout};
ghost use Rattle.base.specs.Ranges.{holds_address};
ghost use Rattle.base.specs.Touch.{Touch};
ghost use Rattle.sharing_rules.specs.AccessLists.{AccessList};
ghost use Rattle.sharing_rules.specs.Lines.{Line, range_of};
ghost use Rattle.line_tracks.specs.TrackValue.{CanNote, CanRestore, IsBlank, IsInTime, IsTrackOf};
ghost use Rattle.line_tracks.specs.TrackValue.{TrackValue};
ghost use Rattle.line_tracks.specs.TrackValue.{mark_of, note_kept, restored, saved, waiting};

use crate::track::{Mark, Track};
use crate::{History, Shadow};
use base::{Access, NoMemory, Range, Steps};
use sharing_rules::LineKind;
use std::alloc::Global;
use std::marker::Model;
use std::sync::ledger::Ledger;

/// Tracks by their places, in the order of adding. It keeps the allocator.
///
/// Contracts see the list of what is kept of each.
#[derive(Drop)]
pub struct Tracks {
    tracks: Vec<Track>,
    alloc: Global,
}

impl Model for Tracks {
    ghost use Rattle.std.specs.Prelude.{List};
    ghost use Rattle.line_tracks.specs.TrackValue.{TrackValue};

    ghost Value = { List TrackValue };

    ghost view = { λ s. s.tracks.items };
}

impl Tracks {
    /// No tracks. It takes no memory.
    pub fn new(alloc: Global) -> Tracks
        ensures { result ≡ [] }
    {
        Tracks {
            tracks: Vec::new(alloc),
            alloc,
        }
    }

    /// Adds a track of a range, without a start, and gives its place. There are fewer than 2^31
    /// tracks, and the range's size is a multiple of 4, and so is its base.
    ///
    /// NoMemory leaves the tracks as they were.
    pub fn add(&mut self, kind: LineKind, range: Range) -> Result<u32, NoMemory>
        requires few { length self.old < 2 ^ 31 }
        requires sized { range.size % 4 ≡ 0 }
        ensures added { OnOk result (self.new ≡ self.old ++ waiting kind range ∷ []) }
        ensures place { IfOk result (λ index. index ≡ length self.old) }
        ensures same { OnErr result (self.new ≡ self.old) }
        // it is the track of each list that ends before the position from which it may start
        ensures stands { (l : Line) (from : ℕ) (t : AccessList) → range ≡ range_of l
            → length t ≤ from → IsTrackOf l from t (waiting kind range) }
    {
        match Track::waiting(self.alloc, kind, range) {
            Ok(track) => self.push(track),
            Err(refused) => Err(refused),
        }
    }

    /// Adds a track as it was saved, and gives its place. There are fewer than 2^31 tracks, and
    /// where there is no start the count is 0 and no word was accessed.
    ///
    /// NoMemory leaves the tracks as they were.
    pub fn add_saved(
        &mut self,
        kind: LineKind,
        shadow: Shadow,
        start: Option<(u64, History)>,
        count: u64,
    ) -> Result<u32, NoMemory>
        requires few { length self.old < 2 ^ 31 }
        requires blank { start ≡ None → IsBlank (saved kind shadow start count) }
        ensures added { OnOk result (self.new ≡ self.old ++ saved kind shadow start count ∷ []) }
        ensures place { IfOk result (λ index. index ≡ length self.old) }
        ensures same { OnErr result (self.new ≡ self.old) }
    {
        self.push(Track::saved(kind, shadow, start, count))
    }

    // Puts a track behind the others.
    fn push(&mut self, track: Track) -> Result<u32, NoMemory>
        requires { length self.old < 2 ^ 31 }
        ensures added { OnOk result (self.new ≡ self.old ++ track ∷ []) }
        ensures place { IfOk result (λ index. index ≡ length self.old) }
        ensures same { OnErr result (self.new ≡ self.old) }
    {
        let place = self.tracks.len() as u32;
        match self.tracks.push(track) {
            Ok(()) => Ok(place),
            Err(_) => Err(NoMemory),
        }
    }

    /// One access in the range of a track, at a position: `Track::note` on it. It takes one step
    /// and no memory.
    #[inline(always)]
    pub fn note<L: Ledger>(
        &mut self,
        index: u32,
        position: u64,
        access: Access,
        steps: &mut Steps<L>,
    )
        requires there { index < length self.old }
        requires early { position < 2 ^ 40 }
        requires ready { (x : TrackValue) → slice_get self.old index ≡ Some x
            → CanNote x position access.addr }
        ensures exact { (x : TrackValue) → slice_get self.old index ≡ Some x
            → self.new ≡ slice_set self.old index (note_kept x position access) }
        ensures in_time { (x : TrackValue) → slice_get self.old index ≡ Some x
            → IsInTime (note_kept x position access) (position + 1) }
        ensures step { steps.new ≡ steps.old + 1 }
        // where it was the track of a list and a line, it is that of the list with the access
        ensures follows { (x : TrackValue) → slice_get self.old index ≡ Some x
            → (l : Line) (from : ℕ) (t : AccessList)
            → IsTrue (is_layout l.size l.offset) → length t ≡ position → from ≤ position
            → IsTrackOf l from t x → IsTrackOf l from (t ++ access ∷ [])
            (note_kept x position access) }
    {
        let track = &mut self.tracks[index as usize];
        track.note(position, access, steps);
    }

    /// All tracks, in the order of adding.
    #[inline(always)]
    pub fn all(&self) -> &[Track]
        ensures { result.now ≡ self.now }
    {
        self.tracks.as_slice()
    }

    /// Drops the tracks from a place on, at most their number.
    pub fn cut(&mut self, len: u32)
        requires { len ≤ length self.old }
        ensures { self.new ≡ take len self.old }
    {
        self.tracks.truncate(len as usize);
    }

    /// What undoes one access of an address in the range of a track.
    pub fn mark(&self, index: u32, addr: u32) -> Mark
        requires there { index < length self.now }
        requires holds { (x : TrackValue) → slice_get self.now index ≡ Some x
            → IsTrue (holds_address x.range addr) }
        ensures value { (x : TrackValue) → slice_get self.now index ≡ Some x → result ≡ mark_of x addr }
        // after one access of the address the track can be restored
        ensures undoes { (x : TrackValue) → slice_get self.now index ≡ Some x → (position : ℕ) (a : Touch)
            → a.addr ≡ addr
            → CanRestore (note_kept x position a) result }
    {
        let track = &self.tracks[index as usize];
        track.mark(addr)
    }

    /// Gives a track the start, the entries, the count and the word of a mark. It takes no memory.
    pub fn restore(&mut self, index: u32, mark: Mark)
        requires there { index < length self.old }
        requires ready { (x : TrackValue) → slice_get self.old index ≡ Some x → CanRestore x mark }
        ensures exact { (x : TrackValue) → slice_get self.old index ≡ Some x
            → self.new ≡ slice_set self.old index (restored x mark) }
        // after one note of a track its mark gives it back
        ensures undoes { (x : TrackValue) (position : ℕ) (a : Touch)
            → slice_get self.old index ≡ Some (note_kept x position a)
            → mark ≡ mark_of x a.addr → self.new ≡ slice_set self.old index x }
    {
        let track = &mut self.tracks[index as usize];
        track.restore(mark);
    }
}
