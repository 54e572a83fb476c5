// An index by an ordered map.
ghost use Rattle.std.specs.Prelude.{◌≡◌, ℕ, ◌<◌, ◌≤◌, ◌^◌, false, IsTrue, IfSome, IfNone, OnOk};
ghost use Rattle.std.specs.Prelude.{OnErr};
ghost use Rattle.std.specs.Ordering.{nat_cmp};
ghost use Rattle.std.specs.BTreeMap.{get};
ghost use Rattle.detector.specs.Entries.{blank_entry, no_entries};
ghost use Rattle.detector.specs.Lending.{KeepsPlaces};
ghost use Rattle.detector_tests.specs.MapEntries.{map_entries, map_entry, map_place};

use base::NoMemory;
use detector::{LAST_LINE, LineEntry, LineIndex, TrackNumber};
use std::alloc::Global;
use std::collections::BTreeMap;

// The entry of a line that was never touched: no write and no track.
fn blank() -> LineEntry
    ensures { result ≡ blank_entry }
{
    LineEntry {
        writes: 0,
        track: TrackNumber::none(),
        shifted: TrackNumber::none(),
        doubled: TrackNumber::none(),
    }
}

/// An ordered map of the entries. Each new line takes memory for its entry alone.
#[derive(Drop)]
pub struct MapIndex {
    lines: BTreeMap<u64, LineEntry>,
}

impl MapIndex {
    /// An index with no entry. It takes no memory until a line is lent.
    pub fn new(alloc: Global) -> MapIndex
        ensures { map_entries result ≡ no_entries }
    {
        MapIndex {
            lines: BTreeMap::new(alloc),
        }
    }

    // Gives a line a place, with a blank entry where it had none.
    fn make_place(&mut self, line: u64) -> Result<(), NoMemory>
        ensures same { (q : ℕ) → map_entry self.new q ≡ map_entry self.old q }
        ensures keeps { KeepsPlaces (map_place self.old) (map_place self.new) }
        ensures placed { OnOk result (IsTrue (map_place self.new line)) }
        ensures unplaced { OnErr result (map_place self.old line ≡ false) }
        ensures blank { OnErr result (map_entry self.old line ≡ blank_entry) }
    {
        if self.lines.contains_key(&line) {
            return Ok(());
        }
        match self.lines.insert(line, blank()) {
            Ok(_) => Ok(()),
            Err(_) => Err(NoMemory),
        }
    }

    // The first line at or above `from` that has a place, with its entry.
    fn first_from(&self, from: u64) -> Option<(u64, LineEntry)>
        requires { from ≤ 2 ^ 30 }
        ensures has { IfSome result (λ e. get nat_cmp self.now.lines e.0 ≡ Some e.1) }
        ensures at_or_above { IfSome result (λ e. from ≤ e.0) }
        ensures in_range { IfSome result (λ e. e.0 ≤ 2 ^ 30) }
        ensures least { IfSome result (λ e. (q : ℕ) → from ≤ q → q < e.0
            → get nat_cmp self.now.lines q ≡ None) }
        ensures none { IfNone result ((q : ℕ) → from ≤ q → q ≤ 2 ^ 30
            → get nat_cmp self.now.lines q ≡ None) }
    {
        match self.lines.range(from..=LAST_LINE).next() {
            Some((number, entry)) => Some((*number, *entry)),
            None => None,
        }
    }
}

impl LineIndex for MapIndex {
    ghost use Rattle.detector_tests.specs.MapEntries.{map_entries, map_entry, map_place};
    ghost use Rattle.detector.specs.Laws.Entries.{only_entries_of};

    ghost entries = { map_entries };

    ghost has_place = { map_place };

    fn peek(&self, line: u64) -> LineEntry {
        match self.lines.get(&line) {
            Some(entry) => *entry,
            None => blank(),
        }
    }

    fn below(&self, line: u64) -> Option<LineEntry> {
        if !self.lines.contains_key(&line) {
            return None;
        }
        Some(self.peek(line.saturating_sub(1)))
    }

    fn beside(&self, line: u64) -> Option<LineEntry> {
        self.below(line)
    }

    fn entry(&mut self, line: u64) -> Result<&mut LineEntry, NoMemory> {
        match self.make_place(line) {
            Ok(()) => match self.lines.get_mut(&line) {
                Some(entry) => Ok(entry),
                None => Err(NoMemory),
            },
            Err(refused) => Err(refused),
        }
    }

    fn next_from(&self, line: u64) -> Option<u64> {
        let mut from = line;
        while from <= LAST_LINE {
            match self.first_from(from) {
                Some((number, entry)) => {
                    if entry.writes > 0 {
                        return Some(number);
                    }
                    from = number + 1;
                }
                None => return None,
            }
        }
        None
    }

    ghost only_entries = { λ s q. only_entries_of (map_entry s) q };
}
