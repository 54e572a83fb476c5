// A write at which a track may begin, or a predicted line may open.
ghost use Rattle.std.specs.Prelude.{◌≡◌, ◌≢◌, ℕ, ◌+◌, ◌%◌, ◌≤◌, ◌<◌, ◌^◌, ◌-◌, ◌∷◌, []};
ghost use Rattle.std.specs.Prelude.{◌++◌, ◌==◌, not, ◌&&◌, ◌||◌, IsOk, IsFalse, IsTrue, OnOk};
ghost use Rattle.std.specs.Prelude.{OnErr, is_some};
ghost use Rattle.std.specs.Prelude.{IfOk, None, Some, length, map, take, option_map, if◌then◌else◌};
ghost use Rattle.detector.specs.Entries.{blank_entry, entry_at};
ghost use Rattle.base.specs.declared.layout.Range.{Range as Span};
ghost use Rattle.base.specs.Lines.{Grid, is_layout, line_number};
ghost use Rattle.sharing_rules.specs.declared.line_kind.LineKind.TheVariants.{Observed};
ghost use Rattle.line_tracks.specs.TrackValue.{waiting};
ghost use Rattle.detector.specs.Counts.{counts_of, with_write};
ghost use Rattle.detector.specs.Index.{IsIndexed, IsNamed, IsReached, names_in};
ghost use Rattle.detector.specs.Noting.{IsNotable, UndoesAll};
ghost use Rattle.detector.specs.Openings.{nothing_opens, opened_tracks, waiting_for};
ghost use Rattle.detector.specs.Pairs.{AreShaped, IsNativeGrid};
ghost use Rattle.sharing_rules.specs.Opened.{even_lower};
ghost use Rattle.detector.specs.Tasks.{IsDue, IsDueAt, IsTask, opened_places, search_steps};
ghost use Rattle.detector.specs.Tasks.{settled, tracks_begun, tracks_changed, task_opens};
ghost use Rattle.detector.specs.Tasks.{with_name};
ghost use Rattle.detector.specs.Tasks.{with_place};
ghost use Rattle.detector.specs.Watch.{begun, touched};

use crate::openings::{Around, NOTHING, Openings, search};
use crate::track_places::places_of;
use crate::undo::{Undos, note_all_undoably, take_all_back};
use crate::write_count::count;
use crate::{LineEntry, LineIndex, TrackNumber};
use base::{Access, Layout, NoMemory, Range, Steps};
use line_tracks::{LineKind, Tracks};
use std::sync::ledger::Ledger;

/// What a write may do beside being noted: begin its line's own track, and search the pairs of its
/// line.
#[derive(Clone, Copy, Drop)]
pub struct Task {
    pub begins: bool,
    pub searches: bool,
}

impl Task {
    /// Whether it may do anything: nothing opens where all predicted lines have opened.
    #[inline(always)]
    pub fn is_due_where(self, have_opened: bool) -> bool
        ensures { result ≡ (self.begins || (self.searches && not have_opened)) }
    {
        self.begins || (self.searches && !have_opened)
    }
}

// The places of the tracks that were opened.
#[derive(Clone, Copy, Drop)]
struct OpenedTracks {
    below: TrackNumber,
    here: TrackNumber,
    doubled: TrackNumber,
}

// Adds a track. There are places for 2^31 of them.
fn add(tracks: &mut Tracks, kind: LineKind, range: Range) -> Result<u32, NoMemory>
    requires { range.size % 4 ≡ 0 }
    ensures added { OnOk result (tracks.new ≡ tracks.old ++ waiting kind range ∷ []) }
    ensures place { IfOk result (λ i. i ≡ length tracks.old) }
    ensures room { OnOk result (length tracks.old < 2 ^ 31) }
    ensures same { OnErr result (tracks.new ≡ tracks.old) }
{
    if tracks.all().len() >= 1 << 31 {
        return Err(NoMemory);
    }
    tracks.add(kind, range)
}

// Begins the track of a line at a write in it, and gives its place.
fn begin<L: Ledger>(
    tracks: &mut Tracks,
    layout: Layout,
    position: u64,
    access: Access,
    steps: &mut Steps<L>,
) -> Result<u32, NoMemory>
    requires early { position < 2 ^ 40 }
    ensures begun { OnOk result (tracks.new ≡ tracks.old
        ++ begun layout (line_number layout.size layout.offset access.addr) position access ∷ []) }
    ensures place { IfOk result (λ i. i ≡ length tracks.old) }
    ensures room { OnOk result (length tracks.old < 2 ^ 31) }
    ensures same { OnErr result (tracks.new ≡ tracks.old) }
    ensures steps { steps.new ≤ steps.old + 1 }
{
    match add(tracks, LineKind::Observed, layout.line_of(access.addr())) {
        Ok(place) => {
            tracks.note(place, position, access, steps);
            Ok(place)
        }
        Err(refused) => Err(refused),
    }
}

// Adds the track of a range that opens, if there is one.
fn open_one(
    tracks: &mut Tracks,
    kind: LineKind,
    opening: Option<Range>,
) -> Result<TrackNumber, NoMemory>
    requires few { length tracks.old ≤ 2 ^ 31 }
    requires sized { (r : Span) → opening ≡ Some r → r.size % 4 ≡ 0 }
    ensures added { OnOk result (tracks.new ≡ tracks.old ++ waiting_for kind opening) }
    ensures place { IfOk result (λ o. o ≡ option_map (λ r. length tracks.old) opening) }
    ensures few { length tracks.new ≤ 2 ^ 31 }
    ensures same { OnErr result (tracks.new ≡ tracks.old) }
    ensures known { opening ≡ None → IsOk result }
{
    match opening {
        Some(range) => match add(tracks, kind, range) {
            Ok(place) => Ok(TrackNumber::at(place)),
            Err(refused) => Err(refused),
        },
        None => Ok(TrackNumber::none()),
    }
}

// Adds the tracks of what opens.
fn open(tracks: &mut Tracks, openings: Openings) -> Result<OpenedTracks, NoMemory>
    requires few { length tracks.old ≤ 2 ^ 31 }
    requires sized { (n k : ℕ) × (n % 4 ≡ 0) × AreShaped n k openings }
    ensures added { OnOk result (tracks.new ≡ tracks.old ++ opened_tracks openings) }
    ensures places { IfOk result (λ o. o ≡ opened_places tracks.old openings) }
    ensures few { OnOk result (length tracks.new ≤ 2 ^ 31) }
    ensures kept { OnErr result (take (length tracks.old) tracks.new ≡ tracks.old) }
    ensures known { openings ≡ nothing_opens → IsOk result }
{
    let below = match open_one(tracks, LineKind::Shifted, openings.below) {
        Ok(place) => place,
        Err(refused) => return Err(refused),
    };
    let here = match open_one(tracks, LineKind::Shifted, openings.here) {
        Ok(place) => place,
        Err(refused) => return Err(refused),
    };
    let doubled = match open_one(tracks, LineKind::Doubled, openings.doubled) {
        Ok(place) => place,
        Err(refused) => return Err(refused),
    };
    Ok(OpenedTracks {
        below,
        here,
        doubled,
    })
}

// The place of the line's own track: that of the one that begins, or the one that the entry names.
fn own_place<L: Ledger>(
    tracks: &mut Tracks,
    begins: bool,
    named: TrackNumber,
    layout: Layout,
    position: u64,
    access: Access,
    steps: &mut Steps<L>,
) -> Result<TrackNumber, NoMemory>
    requires early { position < 2 ^ 40 }
    requires few { length tracks.old ≤ 2 ^ 31 }
    ensures tracks { OnOk result (tracks.new
        ≡ tracks_begun layout (line_number layout.size layout.offset access.addr) position access
        begins tracks.old) }
    ensures place { IfOk result (λ own. own
        ≡ (if begins then Some (length tracks.old) else named)) }
    ensures few { OnOk result (length tracks.new ≤ 2 ^ 31) }
    ensures same { OnErr result (tracks.new ≡ tracks.old) }
    ensures known { IsFalse begins → IsOk result }
    ensures steps { steps.new ≤ steps.old + (if begins then 1 else 0) }
{
    if !begins {
        return Ok(named);
    }
    match begin(tracks, layout, position, access, steps) {
        Ok(place) => Ok(TrackNumber::at(place)),
        Err(refused) => Err(refused),
    }
}

// What opens for a line whose own track stands at `own`: nothing where it isn't searched.
fn openings_at<I: LineIndex, L: Ledger>(
    index: &I,
    tracks: &Tracks,
    searches: bool,
    line: u64,
    own: TrackNumber,
    layout: Layout,
    steps: &mut Steps<L>,
) -> Openings
    requires named { IsNamed
        (with_name (names_in (entry_at (I.entries index.now))) Observed line own) layout tracks.now }
    requires own { own ≡ with_name (names_in (entry_at (I.entries index.now))) Observed line own
        Observed line }
    requires native { IsTrue searches → IsNativeGrid layout }
    requires reached { IsReached layout line }
    ensures value { result ≡ task_opens layout line searches tracks.now }
    ensures shaped { (n : ℕ) × (k : ℕ) × (n % 4 ≡ 0) × AreShaped n k result }
    ensures shaped_here { IsTrue searches → AreShaped layout.size line result }
    ensures cost { steps.new ≤ steps.old + search_steps layout searches }
{
    if !searches {
        return NOTHING;
    }
    let mut here = index.peek(line);
    here.track = own;
    let around = Around {
        below: index.peek(line.saturating_sub(1)),
        here,
        above: index.peek(line + 1),
    };
    search(tracks, line, &around, layout.size(), steps)
}

// Leaves an entry as it is.
fn leave(_entry: &mut LineEntry)
    ensures { _entry.new ≡ _entry.old }
{}

// Gives a line a place in the index, where it has none.
fn reserve<I: LineIndex>(index: &mut I, line: u64) -> Result<(), NoMemory>
    requires { line ≤ 2 ^ 30 }
    ensures same { I.entries index.new ≡ I.entries index.old }
    ensures placed { OnOk result (IsTrue (I.has_place index.new line)) }
    ensures blank { OnErr result (entry_at (I.entries index.old) line ≡ blank_entry) }
{
    match index.entry(line) {
        Ok(entry) => {
            leave(entry);
            Ok(())
        }
        Err(refused) => Err(refused),
    }
}

// An entry with a place for a kind.
fn set_place(entry: &mut LineEntry, kind: LineKind, place: TrackNumber)
    requires { IsTrue (is_some place) }
    ensures { entry.new ≡ with_place entry.old kind place }
{
    match kind {
        LineKind::Observed => entry.track = place,
        LineKind::Shifted => entry.shifted = place,
        LineKind::Doubled => entry.doubled = place,
    }
}

/// Names a track of a written line, if a place is given.
pub fn name<I: LineIndex>(index: &mut I, line: u64, kind: LineKind, place: TrackNumber)
    requires small { line ≤ 2 ^ 30 }
    requires written { (p : ℕ) → place ≡ Some p → 0 < (entry_at (I.entries index.old) line).writes }
    ensures names { names_in (entry_at (I.entries index.new)) ≡ with_name
        (names_in (entry_at (I.entries index.old))) kind line place }
    ensures writes { (q : ℕ) → (entry_at (I.entries index.new) q).writes ≡
        (entry_at (I.entries index.old) q).writes }
    ensures counts { counts_of (I.entries index.new) ≡ counts_of (I.entries index.old) }
{
    if place.is_some() {
        match index.entry(line) {
            Ok(entry) => set_place(entry, kind, place),
            Err(_) => unreachable!(),
        }
    }
}

// The lower line of the even pair that holds a line.
fn lower_of(line: u64) -> u64
    ensures { result ≡ even_lower line }
{
    if line % 2 == 1 {
        line
    } else {
        line.saturating_sub(1)
    }
}

// Counts a write of a line that has a place, and names its own track and those that were opened.
fn settle<I: LineIndex>(index: &mut I, line: u64, own: TrackNumber, opened: OpenedTracks)
    requires small { line ≤ 2 ^ 30 }
    requires placed { IsTrue (I.has_place index.old line) }
    requires few { (entry_at (I.entries index.old) line).writes < 2 ^ 40 }
    requires below { (p : ℕ) → opened.below ≡ Some p
        → 0 < (entry_at (I.entries index.old) (line - 1)).writes }
    requires doubled { (p : ℕ) → opened.doubled ≡ Some p → even_lower line ≢ line
        → 0 < (entry_at (I.entries index.old) (even_lower line)).writes }
    ensures names { names_in (entry_at (I.entries index.new)) ≡ settled
        (names_in (entry_at (I.entries index.old))) line own opened }
    ensures writes { (q : ℕ) → (entry_at (I.entries index.new) q).writes
        ≡ (if q == line then (entry_at (I.entries index.old) line).writes + 1
        else (entry_at (I.entries index.old) q).writes) }
    ensures counts { counts_of (I.entries index.new) ≡ with_write (counts_of (I.entries index.old))
        line }
{
    match count(index, line) {
        Ok(()) => {}
        Err(_) => unreachable!(),
    }
    name(index, line, LineKind::Observed, own);
    name(
        index,
        line.saturating_sub(1),
        LineKind::Shifted,
        opened.below,
    );
    name(index, line, LineKind::Shifted, opened.here);
    name(index, lower_of(line), LineKind::Doubled, opened.doubled);
}

// Begins and opens what is due at a write that was noted in the tracks that were there, and counts
// it.
fn change<I: LineIndex, L: Ledger>(
    index: &mut I,
    tracks: &mut Tracks,
    layout: Layout,
    line: u64,
    task: Task,
    position: u64,
    access: Access,
    steps: &mut Steps<L>,
) -> Result<(), NoMemory>
    requires early { position < 2 ^ 40 }
    requires line { line ≡ line_number layout.size layout.offset access.addr }
    requires placed { IsTrue (I.has_place index.old line) }
    requires task { IsTask (entry_at (I.entries index.old)) layout tracks.old line task position
        access }
    ensures tracks { OnOk result
        (tracks.new ≡ tracks_changed layout line position access task.begins task.searches
        tracks.old) }
    ensures counts { OnOk result
        (counts_of (I.entries index.new) ≡ with_write (counts_of (I.entries index.old)) line) }
    ensures indexed { OnOk result
        ((T : ℕ) → IsDue (entry_at (I.entries index.old)) layout tracks.old line task position T
        → IsIndexed (entry_at (I.entries index.new)) layout tracks.new T (position + 1)) }
    ensures same { OnErr result (I.entries index.new ≡ I.entries index.old) }
    ensures kept { OnErr result (take (length tracks.old) tracks.new ≡ tracks.old) }
    ensures known { IsFalse task.begins → task_opens layout line task.searches
        (tracks_begun layout line position access task.begins tracks.old) ≡ nothing_opens
        → IsOk result }
    ensures steps { steps.new ≤ steps.old + (if task.begins then 1 else 0)
        + search_steps layout task.searches }
{
    let named = index.peek(line).track;
    let own = match own_place(tracks, task.begins, named, layout, position, access, steps) {
        Ok(own) => own,
        Err(refused) => return Err(refused),
    };
    let openings = openings_at(index, tracks, task.searches, line, own, layout, steps);
    match open(tracks, openings) {
        Ok(opened) => {
            settle(index, line, own, opened);
            Ok(())
        }
        Err(refused) => Err(refused),
    }
}

// How many tracks there are.
fn count_of(tracks: &Tracks) -> u32
    requires { length tracks.now ≤ 2 ^ 31 }
    ensures { result ≡ length tracks.now }
{
    tracks.all().len() as u32
}

// Notes the tracks that hold the address of an access of a line, and gives what undoes that.
fn note_undoably<I: LineIndex, L: Ledger>(
    index: &I,
    tracks: &mut Tracks,
    line: u64,
    position: u64,
    access: Access,
    steps: &mut Steps<L>,
) -> Undos
    requires small { line ≤ 2 ^ 30 }
    requires early { position < 2 ^ 40 }
    requires notable { (g : Grid)
        × IsNotable (entry_at (I.entries index.now)) g tracks.old line position access }
    ensures tracks { tracks.new ≡ map (touched position access) tracks.old }
    ensures undos { UndoesAll result tracks.new tracks.old }
    ensures steps { steps.new ≤ steps.old
        + (if is_some (entry_at (I.entries index.now) line).track then 4 else 3) }
{
    let places = places_of(index, line);
    note_all_undoably(tracks, places, position, access, steps)
}

/// A write of a line at which its own track may begin, or its pairs are searched: it is noted and
/// counted, and what is due begins and opens.
///
/// NoMemory leaves all as it was.
#[inline(never)]
pub fn do_task<I: LineIndex, L: Ledger>(
    index: &mut I,
    tracks: &mut Tracks,
    layout: Layout,
    line: u64,
    task: Task,
    position: u64,
    access: Access,
    steps: &mut Steps<L>,
) -> Result<(), NoMemory>
    requires early { position < 2 ^ 40 }
    requires line { line ≡ line_number layout.size layout.offset access.addr }
    requires small { line ≤ 2 ^ 30 }
    requires reached { IsReached layout line }
    requires task { (T : ℕ) × IsDueAt (entry_at (I.entries index.old)) layout tracks.old line task
        position T }
    requires native { IsTrue task.searches → IsNativeGrid layout }
    requires layout { IsTrue (is_layout layout.size layout.offset) }
    ensures tracks { OnOk result (tracks.new
        ≡ tracks_changed layout line position access task.begins task.searches
        (map (touched position access) tracks.old)) }
    ensures counts { OnOk result
        (counts_of (I.entries index.new) ≡ with_write (counts_of (I.entries index.old)) line) }
    ensures indexed { OnOk result
        ((T : ℕ) → IsDueAt (entry_at (I.entries index.old)) layout tracks.old line task position T
        → IsIndexed (entry_at (I.entries index.new)) layout tracks.new T (position + 1)) }
    ensures same { OnErr result (I.entries index.new ≡ I.entries index.old) }
    ensures same_tracks { OnErr result (tracks.new ≡ tracks.old) }
    ensures known { IsFalse task.begins → 0 < (entry_at (I.entries index.old) line).writes
        → task_opens layout line task.searches (tracks_begun layout line position access task.begins
        (map (touched position access) tracks.old)) ≡ nothing_opens
        → IsOk result }
    ensures steps { steps.new ≤ steps.old + 4 + search_steps layout task.searches }
{
    match reserve(index, line) {
        Ok(()) => {}
        Err(refused) => return Err(refused),
    }
    let undos = note_undoably(index, tracks, line, position, access, steps);
    let len = count_of(tracks);
    match change(index, tracks, layout, line, task, position, access, steps) {
        Ok(()) => Ok(()),
        Err(refused) => {
            tracks.cut(len);
            take_all_back(tracks, undos);
            Err(refused)
        }
    }
}
