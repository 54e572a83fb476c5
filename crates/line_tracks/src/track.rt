// What is kept of one line.
ghost use Rattle.std.specs.Prelude.{◌≡◌, ℕ, ◌+◌, ◌<◌, ◌≤◌, ◌^◌, ◌*◌, ◌/◌, ◌%◌, ◌&&◌, if◌then◌else◌};
ghost use Rattle.std.specs.Prelude.{[], ◌∷◌, ◌++◌, length, IsTrue, IsFalse, IfOk, None, option_map};
ghost use Rattle.base.specs.Lines.{is_layout};
ghost use Rattle.base.specs.Ranges.{holds_address};
ghost use Rattle.base.specs.Touch.{Touch, is_write};
ghost use Rattle.sharing_rules.specs.AccessLists.{AccessList};
ghost use Rattle.sharing_rules.specs.Lines.{Line};
ghost use Rattle.line_tracks.specs.Entries.{entries_after_read, has_another};
ghost use Rattle.line_tracks.specs.TrackValue.{CanRestore, IsBlank, IsInTime, IsTrackOf, mark_of};
ghost use Rattle.line_tracks.specs.TrackValue.{note_kept, restored, saved, waiting, words_of};

use crate::{History, Shadow};
use base::{Access, Kind, NoMemory, Range, Steps};
use sharing_rules::{LineKind, Word};
use std::alloc::Global;
use std::marker::Model;
use std::sync::ledger::Ledger;

/// Where a track started, and who came since the last write.
#[derive(Clone, Copy, Drop)]
pub struct Started {
    /// The position of the write that started it.
    pub start: u64,
    /// The first two harts since the last write.
    pub history: History,
}

/// A line that is tracked, or is to be from its next write on.
///
/// Contracts see its kind, its range, its start, its entries, its count and its words.
#[derive(Drop)]
pub struct Track {
    kind: LineKind,
    started: Option<Started>,
    shadow: Shadow,
    count: u64,
}

impl Model for Track {
    ghost use Rattle.line_tracks.specs.TrackValue.{TrackValue};

    ghost Value = { TrackValue };

    ghost use Rattle.line_tracks.specs.TrackView.{kept_of, IsBlankBefore};

    ghost view = { kept_of };

    ghost invariant = { IsBlankBefore };
}

/// What `restore` needs to undo one access: the start, the entries, the count and one word.
#[derive(Drop)]
pub struct Mark {
    started: Option<Started>,
    count: u64,
    place: u32,
    word: Word,
}

impl Model for Mark {
    ghost use Rattle.std.specs.Prelude.{IsTrue};
    ghost use Rattle.line_tracks.specs.RangeWords.{is_possible};
    ghost use Rattle.line_tracks.specs.TrackValue.{Marked};

    ghost Value = { Marked };

    ghost use Rattle.line_tracks.specs.TrackView.{marked_of};

    ghost view = { marked_of };

    ghost invariant = { λ m. IsTrue (is_possible m.word) };
}

// An access of a line: true exactly where it is a write and another hart was among the entries.
#[inline(always)]
fn meet(history: &mut History, access: Access) -> bool
    ensures entries { history.new ≡ (if is_write access.kind then access.hart ∷ []
        else entries_after_read history.old access.hart) }
    ensures found { result ≡ (is_write access.kind && has_another history.old access.hart) }
{
    match access.kind() {
        Kind::Read => {
            history.note_read(access.hart());
            false
        }
        Kind::Write => history.note_write(access.hart()),
    }
}

impl Track {
    // A track of a range that has no start yet.
    pub(crate) fn waiting(alloc: Global, kind: LineKind, range: Range) -> Result<Track, NoMemory>
        requires { range.size % 4 ≡ 0 }
        ensures { IfOk result (λ track. track ≡ waiting kind range) }
    {
        match Shadow::new(alloc, range) {
            Ok(shadow) => Ok(Track {
                kind,
                started: None,
                shadow,
                count: 0,
            }),
            Err(refused) => Err(refused),
        }
    }

    // A track as it was saved.
    pub(crate) fn saved(
        kind: LineKind,
        shadow: Shadow,
        start: Option<(u64, History)>,
        count: u64,
    ) -> Track
        requires { start ≡ None → IsBlank (saved kind shadow start count) }
        ensures { result ≡ saved kind shadow start count }
    {
        let started = match start {
            Some((start, history)) => Some(Started { start, history }),
            None => None,
        };
        Track {
            kind,
            started,
            shadow,
            count,
        }
    }

    // What undoes one access of an address of the range.
    pub(crate) fn mark(&self, addr: u32) -> Mark
        requires { IsTrue (holds_address self.now.range addr) }
        ensures value { result ≡ mark_of self.now addr }
        ensures undoes { (position : ℕ) (a : Touch) → a.addr ≡ addr
            → CanRestore (note_kept self.now position a) result }
    {
        self.remembered(addr)
    }

    // The mark itself, and what the track's own fields say of it.
    fn remembered(&self, addr: u32) -> Mark
        requires { IsTrue (holds_address self.now.range addr) }
        ensures value { result ≡ mark_of self.now addr }
        ensures sized { 4 * length self.now.words ≡ self.now.range.size }
        ensures within { result.place < self.now.range.size / 4 }
        ensures blank { self.now.start ≡ None → IsBlank self.now }
    {
        let place = self.shadow.place(addr);
        Mark {
            started: self.started,
            count: self.count,
            place,
            word: self.shadow.word(place),
        }
    }

    // Gives it what a mark remembers.
    pub(crate) fn restore(&mut self, mark: Mark)
        requires { CanRestore self.old mark }
        ensures { self.new ≡ restored self.old mark }
    {
        let total = self.shadow.total();
        // The mark has no more accesses than its word has, and so the words stay within their
        // bound.
        prove!(total <= 1 << 40);
        self.started = mark.started;
        self.count = mark.count;
        self.shadow.put(mark.place, mark.word);
    }

    /// One access in the range, at a position. Before the start a read changes nothing, and a write
    /// starts the track. It takes one step and no memory.
    #[inline(always)]
    pub fn note<L: Ledger>(&mut self, position: u64, access: Access, steps: &mut Steps<L>)
        requires inside { IsTrue (holds_address self.old.range access.addr) }
        requires early { position < 2 ^ 40 }
        requires in_time { IsInTime self.old position }
        ensures exact { self.new ≡ note_kept self.old position access }
        ensures in_time { IsInTime self.new (position + 1) }
        ensures step { steps.new ≡ steps.old + 1 }
        // where it was the track of a list and a line, it is that of the list with the access
        ensures follows { (l : Line) (from : ℕ) (t : AccessList)
            → IsTrue (is_layout l.size l.offset) → length t ≡ position → from ≤ position
            → IsTrackOf l from t self.old → IsTrackOf l from (t ++ access ∷ []) self.new }
    {
        steps.tick();
        match &mut self.started {
            None => {
                if access.kind().is_write() {
                    self.started = Some(Started {
                        start: position,
                        history: History::one(access.hart()),
                    });
                    self.shadow.note(access);
                }
            }
            Some(started) => {
                let is_invalidation = meet(&mut started.history, access);
                self.count += u64::from(is_invalidation);
                self.shadow.note(access);
            }
        }
    }

    /// How it came to be tracked.
    pub fn kind(&self) -> LineKind
        ensures { result ≡ self.now.kind }
    {
        self.kind
    }

    /// Its range.
    pub fn range(&self) -> Range
        ensures { result ≡ self.now.range }
    {
        self.shadow.range()
    }

    /// Whether its range holds an address.
    #[inline(always)]
    pub fn contains(&self, addr: u32) -> bool
        ensures value { result ≡ holds_address self.now.range addr }
        // where it is the track of a list and a line, an access elsewhere leaves it that of the
        // list with the access
        ensures elsewhere { IsFalse result → (l : Line) (from : ℕ) (t : AccessList) (a : Touch)
            → a.addr ≡ addr
            → IsTrue (is_layout l.size l.offset) → IsTrackOf l from t self.now
            → IsTrackOf l from (t ++ a ∷ []) self.now }
    {
        self.shadow.holds(addr)
    }

    /// The position of the write that started it: None exactly where there was none yet.
    pub fn start(&self) -> Option<u64>
        ensures value { result ≡ self.now.start }
        // before its start nothing is counted
        ensures blank { self.now.start ≡ None → IsBlank self.now }
    {
        match self.started {
            Some(started) => Some(started.start),
            None => None,
        }
    }

    /// The first two harts since its last write: None exactly where it has no start.
    pub fn history(&self) -> Option<History>
        ensures value { result ≡ option_map (λ s. self.now.entries) self.now.start }
        ensures none { self.now.start ≡ None → self.now.entries ≡ [] }
    {
        match self.started {
            Some(started) => Some(started.history),
            None => None,
        }
    }

    /// What was counted of its words since its start.
    pub fn shadow(&self) -> &Shadow
        ensures { result.now ≡ words_of self.now }
    {
        &self.shadow
    }

    /// How many writes after its start found another hart holding it.
    pub fn count(&self) -> u64
        ensures { result ≡ self.now.count }
    {
        self.count
    }
}
