// One access: of the tracks that hold its address, and of its line's entry in the index.
ghost use Rattle.std.specs.Prelude.{◌≡◌, ℕ, ◌+◌, ◌||◌, ◌<◌, ◌≤◌, ◌^◌};
ghost use Rattle.detector.specs.declared.line_entry.LineEntry.{LineEntry};
ghost use Rattle.std.specs.Prelude.{map, IsOk, IsTrue, IsFalse, OnOk, OnErr};
ghost use Rattle.base.specs.Lines.{Grid, is_layout, line_number};
ghost use Rattle.detector.specs.Entries.{entry_at};
ghost use Rattle.sharing_rules.specs.Listed.{may_predict};
ghost use Rattle.detector.specs.Counts.{counts_of};
ghost use Rattle.detector.specs.Index.{IsIndexed, IsReached};
ghost use Rattle.detector.specs.Noting.{IsNotable, places};
ghost use Rattle.detector.specs.Noting;
ghost use Rattle.detector.specs.Tasks.{IsTaskOf, search_steps};
ghost use Rattle.detector.specs.declared.task.Task.{Task as Doing};
ghost use Rattle.detector.specs.Watch.{is_search, may_take_memory, touched, tracks_after, watch_of};
ghost use Rattle.detector.specs.Watch.{writes_after};

use crate::dues::Dues;
use crate::task::{Task, do_task};
use crate::track_places::{note_places, places_between, places_of};
use crate::write_count::count;
use crate::{LineEntry, LineIndex};
use base::{Access, Kind, Layout, NoMemory, Steps};
use line_tracks::Tracks;
use std::sync::ledger::Ledger;

// Notes the tracks that hold the address of an access of a line with these entries.
#[inline(always)]
fn note<L: Ledger>(
    tracks: &mut Tracks,
    line: u64,
    here: LineEntry,
    below: LineEntry,
    position: u64,
    access: Access,
    steps: &mut Steps<L>,
)
    requires early { position < 2 ^ 40 }
    requires notable { (f : ℕ → LineEntry) × (g : Grid)
        × (Noting.places_between line here below ≡ places f line)
        × IsNotable f g tracks.old line position access }
    ensures tracks { tracks.new ≡ map (touched position access) tracks.old }
    ensures steps { steps.new ≤ steps.old + 4 }
{
    let places = places_between(line, here, below);
    note_places(tracks, places, position, access, steps);
}

// What a write of a line with this entry may do beside being noted.
#[inline(always)]
fn task_of(entry: &LineEntry, thresholds: &Dues) -> Task
    requires few { entry.now.writes < 2 ^ 40 }
    ensures { IsTaskOf entry.now thresholds.now result }
{
    let writes = entry.writes + 1;
    let begins = writes == thresholds.tracking();
    let searches = thresholds.searches(writes);
    Task { begins, searches }
}

// Whether it may do anything.
#[inline(always)]
fn is_due(entry: &LineEntry, thresholds: &Dues) -> bool
    requires few { entry.now.writes < 2 ^ 40 }
    ensures { (t : Doing) → IsTaskOf entry.now thresholds.now t
        → result ≡ (t.begins || t.searches) }
{
    let writes = entry.writes + 1;
    writes == thresholds.tracking() || thresholds.searches(writes)
}

// `touch` of any line: the entries are looked up one by one, and a write at which something is due
// is noted so that it can be taken back. Few accesses come here: those writes, and accesses of a
// line that has no place yet or begins a page.
#[inline(never)]
fn touch_apart<I: LineIndex, L: Ledger>(
    index: &mut I,
    tracks: &mut Tracks,
    layout: Layout,
    thresholds: &Dues,
    line: u64,
    position: u64,
    access: Access,
    steps: &mut Steps<L>,
) -> Result<(), NoMemory>
    requires indexed { IsIndexed (entry_at (I.entries index.old)) layout tracks.old
        thresholds.now.tracking position }
    requires small { line ≤ 2 ^ 30 }
    requires reached { IsReached layout line }
    requires early { position < 2 ^ 40 }
    requires line { line ≡ line_number layout.size layout.offset access.addr }
    requires layout { IsTrue (is_layout layout.size layout.offset) }
    requires native { IsTrue (may_predict layout thresholds.now) }
    requires some { 1 ≤ thresholds.now.tracking }
    ensures tracks { OnOk result
        (tracks.new ≡ tracks_after
        (watch_of (I.entries index.old) tracks.old layout thresholds.now position) line access) }
    ensures counts { OnOk result (counts_of (I.entries index.new) ≡ writes_after line access
        (counts_of (I.entries index.old))) }
    ensures indexed { OnOk result
        (IsIndexed (entry_at (I.entries index.new)) layout tracks.new thresholds.now.tracking
        (position + 1)) }
    ensures same { OnErr result (I.entries index.new ≡ I.entries index.old) }
    ensures same_tracks { OnErr result (tracks.new ≡ tracks.old) }
    ensures known { IsFalse
        (may_take_memory
        (watch_of (I.entries index.old) tracks.old layout thresholds.now position) line access)
        → IsOk result }
    ensures steps { steps.new ≤ steps.old + 4 + search_steps layout
        (is_search thresholds.now.prediction (counts_of (I.entries index.old)) line access) }
{
    let here = index.peek(line);
    let below = index.peek(line.saturating_sub(1));
    match access.kind() {
        Kind::Read => {
            note(tracks, line, here, below, position, access, steps);
            Ok(())
        }
        Kind::Write => {
            let task = task_of(&here, thresholds);
            if task.is_due_where(places_of(index, line).have_opened()) {
                return do_task(index, tracks, layout, line, task, position, access, steps);
            }
            match count(index, line) {
                Ok(()) => {
                    note(tracks, line, here, below, position, access, steps);
                    Ok(())
                }
                Err(refused) => Err(refused),
            }
        }
    }
}

/// An access: the tracks that hold its address are noted, a write is counted, and what is due
/// begins and opens. At most 4 steps, and where the pairs of its line are searched one more for
/// each pair of their words.
///
/// NoMemory leaves all as it was.
#[inline(always)]
pub fn touch<I: LineIndex, L: Ledger>(
    index: &mut I,
    tracks: &mut Tracks,
    layout: Layout,
    thresholds: &Dues,
    line: u64,
    position: u64,
    access: Access,
    steps: &mut Steps<L>,
) -> Result<(), NoMemory>
    requires indexed { IsIndexed (entry_at (I.entries index.old)) layout tracks.old
        thresholds.now.tracking position }
    requires small { line ≤ 2 ^ 30 }
    requires reached { IsReached layout line }
    requires early { position < 2 ^ 40 }
    requires line { line ≡ line_number layout.size layout.offset access.addr }
    requires layout { IsTrue (is_layout layout.size layout.offset) }
    requires native { IsTrue (may_predict layout thresholds.now) }
    requires some { 1 ≤ thresholds.now.tracking }
    ensures tracks { OnOk result
        (tracks.new ≡ tracks_after
        (watch_of (I.entries index.old) tracks.old layout thresholds.now position) line access) }
    ensures counts { OnOk result (counts_of (I.entries index.new) ≡ writes_after line access
        (counts_of (I.entries index.old))) }
    ensures indexed { OnOk result
        (IsIndexed (entry_at (I.entries index.new)) layout tracks.new thresholds.now.tracking
        (position + 1)) }
    ensures same { OnErr result (I.entries index.new ≡ I.entries index.old) }
    ensures same_tracks { OnErr result (tracks.new ≡ tracks.old) }
    ensures known { IsFalse
        (may_take_memory
        (watch_of (I.entries index.old) tracks.old layout thresholds.now position) line access)
        → IsOk result }
    ensures steps { steps.new ≤ steps.old + 4 + search_steps layout
        (is_search thresholds.now.prediction (counts_of (I.entries index.old)) line access) }
{
    // Most lines are found once, and the one below with them.
    if let Some(below) = index.beside(line) {
        match access.kind() {
            Kind::Read => {
                let here = index.peek(line);
                note(tracks, line, here, below, position, access, steps);
                return Ok(());
            }
            Kind::Write => {
                if !is_due(&index.peek(line), thresholds) {
                    return match index.entry(line) {
                        Ok(entry) => {
                            entry.writes += 1;
                            let here = *entry;
                            note(tracks, line, here, below, position, access, steps);
                            Ok(())
                        }
                        Err(refused) => Err(refused),
                    };
                }
            }
        }
    }
    touch_apart(
        index, tracks, layout, thresholds, line, position, access, steps,
    )
}
