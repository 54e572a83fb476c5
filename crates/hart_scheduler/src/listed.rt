// The list of a schedule, and what is left of it.
ghost use Rattle.std.specs.Prelude.{◌≡◌, ◌≤◌, ◌<◌, length, true, is_some, slice_index_or};
ghost use Rattle.std.specs.List.{find, after_first};
ghost use Rattle.hart_scheduler.specs.ScheduleParts.{ListEntry};
ghost use Rattle.hart_scheduler.specs.Choices.{is_runnable};
ghost use Rattle.hart_scheduler.specs.Listed.{is_able, harts_from};
ghost use Rattle.hart_scheduler.specs.Texts.{harts_of};

use crate::entry::Entry;
use crate::runnable::is_runnable;
use base::Hart;
use std::marker::Model;

/// The harts that a list still names, in their order. Contracts see them each as often as it is to
/// run.
#[derive(Drop)]
pub struct Listed {
    entries: Vec<Entry>,
    // The entries before it are used up or passed over.
    place: usize,
}

impl Model for Listed {
    ghost use Rattle.std.specs.Prelude.{ℕ, List, ◌≤◌, length};

    ghost Value = { List ℕ };

    ghost use Rattle.hart_scheduler.specs.Listed.{harts_in};

    ghost view = { harts_in };

    ghost invariant = { λ a. a.place ≤ length a.entries.items };
}

// Whether the hart of an entry is runnable and its count isn't used up.
fn is_able(entry: Entry, runnable: &[bool]) -> bool
    ensures { result ≡ is_able runnable.now entry }
{
    entry.count > 0 && is_runnable(runnable, entry.hart)
}

// The place of the first able entry from a place on, or how many entries there are: the entries
// before it make no difference to what is found.
fn first_able(entries: &[Entry], place: usize, runnable: &[bool]) -> usize
    requires { place ≤ length entries.now }
    ensures bound { result ≤ length entries.now }
    ensures able { (d : ListEntry) → result < length entries.now
        → is_able runnable.now (slice_index_or entries.now result d) ≡ true }
    ensures found { find (is_runnable runnable.now) (harts_from entries.now place) ≡ find
        (is_runnable runnable.now) (harts_from entries.now result) }
    ensures left { after_first (is_runnable runnable.now) (harts_from entries.now place)
        ≡ after_first (is_runnable runnable.now) (harts_from entries.now result) }
{
    for able in place..entries.len() {
        if is_able(entries[able], runnable) {
            return able;
        }
    }
    entries.len()
}

impl Listed {
    pub(crate) fn of_entries(entries: Vec<Entry>) -> Listed
        ensures { result ≡ harts_of entries.items }
    {
        Listed { entries, place: 0 }
    }

    // The first runnable hart.
    pub(crate) fn first(&self, runnable: &[bool]) -> Option<Hart>
        ensures { result ≡ find (is_runnable runnable.now) self.now }
    {
        let place = first_able(self.entries.as_slice(), self.place, runnable);
        if place < self.entries.len() {
            Some(self.entries[place].hart)
        } else {
            None
        }
    }

    // Takes the first runnable hart, and what stands before it: everything where there is none. It
    // answers whether there is one.
    pub(crate) fn take(&mut self, runnable: &[bool]) -> bool
        ensures after { self.new ≡ after_first (is_runnable runnable.now) self.old }
        ensures taken { result ≡ is_some (find (is_runnable runnable.now) self.old) }
    {
        if self.place >= self.entries.len() {
            return false;
        }
        let place = first_able(self.entries.as_slice(), self.place, runnable);
        self.place = place;
        if place < self.entries.len() {
            let entry = &mut self.entries[place];
            entry.count -= 1;
            true
        } else {
            false
        }
    }
}
