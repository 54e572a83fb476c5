// The tracks, and the index of all lines.
ghost use Rattle.std.specs.Prelude.{◌≡◌, ◌+◌, ◌*◌, ◌/◌, ◌<◌, ◌≤◌, ◌^◌, [], ◌∷◌, ◌++◌};
ghost use Rattle.std.specs.Prelude.{if◌then◌else◌, IsOk, IsTrue, IsFalse, OnOk};
ghost use Rattle.std.specs.Prelude.{OnErr, ℕ, IfSome, IfNone, Some, is_some, slice_get};
ghost use Rattle.sharing_rules.specs.AccessLists.{AccessList};
ghost use Rattle.detector.specs.Entries.{no_entries};
ghost use Rattle.sharing_rules.specs.Listed.{may_predict};
ghost use Rattle.line_tracks.specs.TrackValue.{TrackValue, saved};
ghost use Rattle.line_tracks.specs.Placed.{AreApart};
ghost use Rattle.detector.specs.Adding.{CanAddLine, CanAddTrack, nothing_kept, with_track};
ghost use Rattle.detector.specs.Adding.{with_written};
ghost use Rattle.detector.specs.Amounts.{HasFewAtEach, HasFewEntries, HasFewWords, HasFewerShifted};
ghost use Rattle.detector.specs.Amounts.{HasHalfDoubled, IsSmallUnpredicted};
ghost use Rattle.detector.specs.Counts.{count_at};
ghost use Rattle.detector.specs.Index.{IsShaped};
ghost use Rattle.detector.specs.Named.{line_of_base, track_named};
ghost use Rattle.detector.specs.Quiet.{AreQuietWhereFalse};
ghost use Rattle.detector.specs.Standing.{HasEach, StandsFor};
ghost use Rattle.detector.specs.Watch.{nothing_seen, searches_at, takes_memory, watched};

use crate::LineIndex;
use crate::adding::{add_saved, named_track, set_writes};
use crate::dues::Dues;
use crate::line_entry::LAST_LINE;
use crate::touch::touch;
use base::{Access, Layout, NoMemory, Steps, Thresholds};
use line_tracks::{History, LineKind, Shadow, Track, Tracks};
use std::alloc::Global;
use std::marker::Model;
use std::sync::ledger::Ledger;

/// What is known of the accesses so far, under a layout and thresholds, over an index of lines.
///
/// Contracts see its position, its layout, its thresholds, how often each line was written, and its
/// tracks, in the order in which they came to be kept.
#[derive(Drop)]
pub struct Detector<I: LineIndex> {
    index: I,
    tracks: Tracks,
    position: u64,
    layout: Layout,
    thresholds: Dues,
}

impl<I: LineIndex> Model for Detector<I> {
    ghost use Rattle.std.specs.Prelude.{IsTrue};
    ghost use Rattle.detector.specs.Watch.{Watch};
    ghost use Rattle.detector.specs.WatchCode.{watch_code};
    ghost use Rattle.base.specs.Lines.{is_layout};
    ghost use Rattle.sharing_rules.specs.Listed.{may_predict};
    ghost use Rattle.detector.specs.Entries.{entry_at};
    ghost use Rattle.detector.specs.Counts.{counts_of};
    ghost use Rattle.detector.specs.Index.{IsIndexed};

    ghost Value = { Watch };

    ghost coded = { watch_code };

    ghost view = { λ d. record {
      position = d.position;
      grid = d.layout;
      levels = d.thresholds;
      writes = counts_of (I.entries d.index);
      tracks = d.tracks;
    } };

    ghost invariant = { λ d.
        IsIndexed (entry_at (I.entries d.index)) d.layout d.tracks d.thresholds.tracking d.position
        × IsTrue (is_layout d.layout.size d.layout.offset)
        × IsTrue (may_predict d.layout d.thresholds) };
}

impl<I: LineIndex> Detector<I> {
    /// A detector that has seen no access, over an index with no entry. It keeps the allocator.
    /// Lines are predicted only under a native layout: of offset 0, and of size 32, 64, 128 or 256.
    pub fn new(alloc: Global, index: I, layout: Layout, thresholds: Thresholds) -> Detector<I>
        requires empty { I.entries index ≡ no_entries }
        requires native { IsTrue (may_predict layout thresholds) }
        ensures blank { result ≡ nothing_seen layout thresholds }
        ensures stands { StandsFor [] result }
    {
        Detector::at(alloc, index, layout, thresholds, 0)
    }

    /// A detector at a position, of whose accesses nothing is kept yet, over an index with no
    /// entry: `add_written` and `add_track` add what was kept of them. It keeps the allocator.
    /// Lines are predicted only under a native layout, as in `new`.
    pub fn at(
        alloc: Global,
        index: I,
        layout: Layout,
        thresholds: Thresholds,
        position: u64,
    ) -> Detector<I>
        requires empty { I.entries index ≡ no_entries }
        requires native { IsTrue (may_predict layout thresholds) }
        ensures { result ≡ nothing_kept layout thresholds position }
    {
        // A layout has whole words, as its size says.
        let _size = layout.size();
        Detector {
            index,
            tracks: Tracks::new(alloc),
            position,
            layout,
            thresholds: Dues::of(thresholds),
        }
    }

    /// Adds a line that wasn't written yet, at most 2^30, with how often it was written: at least
    /// once, and no more often than there were accesses.
    ///
    /// NoMemory leaves the detector as it was.
    pub fn add_written(&mut self, line: u64, writes: u64) -> Result<(), NoMemory>
        requires { CanAddLine self.old line writes }
        ensures added { OnOk result (self.new ≡ with_written self.old line writes) }
        ensures same { OnErr result (self.new ≡ self.old) }
    {
        set_writes(&mut self.index, line, writes)
    }

    /// Adds a track behind the others, as it was saved: of a line that was added before, and has
    /// none of its kind yet. Without a start its count is 0, and no word was accessed.
    ///
    /// NoMemory leaves the detector as it was. It comes too where there are 2^31 tracks.
    pub fn add_track(
        &mut self,
        kind: LineKind,
        shadow: Shadow,
        start: Option<(u64, History)>,
        count: u64,
    ) -> Result<(), NoMemory>
        requires { CanAddTrack self.old (saved kind shadow start count) }
        ensures added { OnOk result
            (self.new ≡ with_track self.old (saved kind shadow start count)) }
        ensures same { OnErr result (self.new ≡ self.old) }
    {
        add_saved(
            &mut self.index,
            &mut self.tracks,
            self.layout,
            self.thresholds.thresholds(),
            self.position,
            kind,
            shadow,
            start,
            count,
        )
    }

    /// One access more. It takes memory only where a counter begins, a track begins or a predicted
    /// line opens: at the first write of a line, at the one with the tracking threshold's number,
    /// and at one that brings its line to a multiple of the prediction threshold.
    ///
    /// At most 4 steps, and where the pairs of its line are searched one more for each pair of
    /// their words, of which there are at most three times the square of the words of a line.
    /// NoMemory leaves the detector as it was.
    #[inline]
    pub fn on_access<L: Ledger>(
        &mut self,
        access: Access,
        steps: &mut Steps<L>,
    ) -> Result<(), NoMemory>
        requires { self.old.position < 2 ^ 40 }
        ensures watched { OnOk result (self.new ≡ watched self.old access) }
        ensures same { OnErr result (self.new ≡ self.old) }
        ensures known { IsFalse (takes_memory self.old access) → IsOk result }
        ensures steps { steps.new ≤ steps.old + 4 + (if searches_at self.old access
            then 3 * (self.old.grid.size / 4 * (self.old.grid.size / 4)) else 0) }
        // for each list that it stood for, it stands for the list with the access
        ensures stands { OnOk result ((t : AccessList)
            → StandsFor t self.old → StandsFor (t ++ access ∷ []) self.new) }
        // and where memory ran out, for the list that it stood for
        ensures still { OnErr result ((t : AccessList) → StandsFor t self.old
            → StandsFor t self.new) }
    {
        let line = self.layout.number_of(access.addr());
        // A layout has whole words, and thresholds are at least 1, as these say.
        let _known = (self.layout.size(), self.thresholds.tracking());
        match touch(
            &mut self.index,
            &mut self.tracks,
            self.layout,
            &self.thresholds,
            line,
            self.position,
            access,
            steps,
        ) {
            Ok(()) => {
                self.position += 1;
                Ok(())
            }
            Err(refused) => Err(refused),
        }
    }

    /// How many accesses it has seen.
    pub fn position(&self) -> u64
        ensures { result ≡ self.now.position }
    {
        self.position
    }

    /// The layout of its lines.
    pub fn layout(&self) -> Layout
        ensures { result ≡ self.now.grid }
    {
        self.layout
    }

    /// Its thresholds. Lines are predicted only under a native layout.
    pub fn thresholds(&self) -> Thresholds
        ensures value { result ≡ self.now.levels }
        ensures native { IsTrue (may_predict self.now.grid self.now.levels) }
    {
        self.thresholds.thresholds()
    }

    /// How often a line was written.
    pub fn writes_of(&self, line: u64) -> u64
        requires { line ≤ 2 ^ 30 }
        ensures { result ≡ count_at self.now.writes line }
    {
        self.index.peek(line).writes
    }

    /// The least line at or above `from` that was written: None exactly where there is none. No
    /// line has a number above 2^30.
    pub fn next_written(&self, from: u64) -> Option<u64>
        ensures written { IfSome result (λ n. 0 < count_at self.now.writes n) }
        ensures at_or_above { IfSome result (λ n. from ≤ n) }
        ensures in_range { IfSome result (λ n. n ≤ 2 ^ 30) }
        ensures least { IfSome result (λ n.
            (q : ℕ) → from ≤ q → q < n → count_at self.now.writes q ≡ 0) }
        ensures none { IfNone result ((q : ℕ) → from ≤ q → count_at self.now.writes q ≡ 0) }
    {
        let index = &self.index;
        if from > LAST_LINE {
            return None;
        }
        index.next_from(from)
    }

    /// Whether a line has a track of a kind: its own, the shifted one of its pair with the line
    /// above, or the doubled one of the even pair whose lower line it is.
    pub fn has_track(&self, kind: LineKind, line: u64) -> bool
        requires { line ≤ 2 ^ 30 }
        ensures { result ≡ is_some (track_named self.now.grid kind line self.now.tracks) }
    {
        named_track(&self.index.peek(line), kind).is_some()
    }

    /// All that is kept, in the order in which it came to be kept: a track for each line that was
    /// written as often as the tracking threshold says, and one for each predicted line that
    /// opened.
    ///
    /// With m tracks of lines of n bytes that were written so often there are, where m isn't 0,
    /// fewer shifted ones and at most m / 2 doubled ones. All have at most 5 m entries and
    /// 3 m n / 4 words, without prediction at most 2 m entries and m n / 4 words. At most four hold
    /// one address.
    ///
    /// Of a list that it stands for, each kind and line has the track of what the list makes one
    /// keep there.
    ///
    /// Where the words of one have the verdict false, the accesses from its start on would take no
    /// word of it from a hart if each word had a line of its own.
    pub fn tracks(&self) -> &[Track]
        ensures value { result.now ≡ self.now.tracks }
        // no two have one kind and one base, and each lies as its kind says
        ensures apart { AreApart self.now.tracks }
        ensures shaped { (i : ℕ) (x : TrackValue) → slice_get self.now.tracks i ≡ Some x
            → IsShaped self.now.grid (line_of_base self.now.grid x.range) x.kind x.range }
        // for each list that it stands for
        ensures stated { (t : AccessList) → StandsFor t self.now → HasEach t self.now }
        ensures shifted { (t : AccessList) → StandsFor t self.now → HasFewerShifted self.now }
        ensures doubled { (t : AccessList) → StandsFor t self.now → HasHalfDoubled self.now }
        ensures entries { (t : AccessList) → StandsFor t self.now → HasFewEntries self.now }
        ensures words { (t : AccessList) → StandsFor t self.now → HasFewWords self.now }
        ensures unpredicted { (t : AccessList) → StandsFor t self.now
            → IsSmallUnpredicted self.now }
        ensures few_at_each { (t : AccessList) → StandsFor t self.now → HasFewAtEach self.now }
        ensures quiet { (t : AccessList) → StandsFor t self.now → AreQuietWhereFalse t self.now }
    {
        self.tracks.all()
    }
}
