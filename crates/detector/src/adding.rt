// A detector that is made of what was saved of one: a written line, and a track.
ghost use Rattle.std.specs.Prelude.{◌≡◌, ℕ, ◌<◌, ◌≤◌, ◌^◌, ◌∷◌, [], ◌++◌};
ghost use Rattle.std.specs.Prelude.{List, OnOk, OnErr};
ghost use Rattle.std.specs.FinMap as finite;
ghost use Rattle.detector.specs.Entries.{entry_at};
ghost use Rattle.base.specs.Lines.{Grid};
ghost use Rattle.line_tracks.specs.TrackValue.{TrackValue, saved};
ghost use Rattle.detector.specs.Added.{IsAddable};
ghost use Rattle.detector.specs.Counts.{counts_of};
ghost use Rattle.detector.specs.Index.{IsIndexed, place_in};
ghost use Rattle.detector.specs.Named.{line_of_base};

use crate::task::name;
use crate::{LineEntry, LineIndex, TrackNumber};
use base::{Layout, NoMemory, Range, Thresholds};
use line_tracks::{History, LineKind, Shadow, Tracks};
use sharing_rules::number_of_base;

/// The place that an entry names for a kind of track.
pub fn named_track(entry: &LineEntry, kind: LineKind) -> Option<u32>
    ensures { result ≡ place_in entry.now kind }
{
    match kind {
        LineKind::Observed => entry.track.number(),
        LineKind::Shifted => entry.shifted.number(),
        LineKind::Doubled => entry.doubled.number(),
    }
}

/// Says how often a line was written that has no write yet. NoMemory leaves the index as it was.
pub fn set_writes<I: LineIndex>(index: &mut I, line: u64, writes: u64) -> Result<(), NoMemory>
    requires small { line ≤ 2 ^ 30 }
    requires some { 0 < writes }
    requires fresh { (entry_at (I.entries index.old) line).writes ≡ 0 }
    ensures counts { OnOk result (counts_of (I.entries index.new)
        ≡ finite.insert (counts_of (I.entries index.old)) line writes) }
    ensures indexed { (g : Grid) (xs : List TrackValue) (T p : ℕ) → writes ≤ p
        → IsIndexed (entry_at (I.entries index.old)) g xs T p
        → IsIndexed (entry_at (I.entries index.new)) g xs T p }
    ensures same { OnErr result (I.entries index.new ≡ I.entries index.old) }
{
    match index.entry(line) {
        Ok(entry) => {
            entry.writes = writes;
            Ok(())
        }
        Err(refused) => Err(refused),
    }
}

// The number of the line in which a range begins.
fn line_of(layout: Layout, range: Range) -> u64
    ensures { result ≡ line_of_base layout range }
{
    number_of_base(layout, range.base)
}

/// Adds a track as it was saved, and names it. There are places for 2^31 of them, and NoMemory
/// leaves all as it was.
pub fn add_saved<I: LineIndex>(
    index: &mut I,
    tracks: &mut Tracks,
    layout: Layout,
    thresholds: Thresholds,
    position: u64,
    kind: LineKind,
    shadow: Shadow,
    start: Option<(u64, History)>,
    count: u64,
) -> Result<(), NoMemory>
    requires { IsAddable (I.entries index.old) layout tracks.old thresholds position
        (saved kind shadow start count) }
    ensures tracks { OnOk result (tracks.new ≡ tracks.old ++ saved kind shadow start count ∷ []) }
    ensures counts { counts_of (I.entries index.new) ≡ counts_of (I.entries index.old) }
    ensures indexed { IsIndexed (entry_at (I.entries index.new)) layout tracks.new
        thresholds.tracking position }
    ensures same { OnErr result (I.entries index.new ≡ I.entries index.old) }
    ensures same_tracks { OnErr result (tracks.new ≡ tracks.old) }
{
    if tracks.all().len() >= 1 << 31 {
        return Err(NoMemory);
    }
    let line = line_of(layout, shadow.range());
    match tracks.add_saved(kind, shadow, start, count) {
        Ok(place) => {
            name(index, line, kind, TrackNumber::at(place));
            Ok(())
        }
        Err(refused) => Err(refused),
    }
}
