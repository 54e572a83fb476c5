// A hart's cache of one set of lines.
ghost use Rattle.std.specs.Prelude.{◌≡◌, [], IfOk, IsTrue, IsOk, OnErr, OnOk, slice_get, take};
ghost use Rattle.std.specs.Prelude.{◌<◌, false, option_map};
ghost use Rattle.std.specs.Map.{keys_of};
ghost use Rattle.std.specs.NonZero.{non_zero_usize_get};
ghost use Rattle.finite_cache.specs.Bounded.{has, in_front, without};

use base::NoMemory;
use lru::LruCache;
use std::alloc::Global;
use std::marker::Model;
use std::num::NonZeroUsize;

/// The lines of a hart's cache of one set, the most recently used first, and how many it has room
/// for.
#[derive(Drop)]
pub struct WaySet {
    lines: LruCache<u64, ()>,
}

impl Model for WaySet {
    ghost use Rattle.std.specs.Map.{keys_of};
    ghost use Rattle.finite_cache.specs.CacheState.{WaySet as Ways};

    ghost Value = { Ways };

    ghost view = { λ s. record { lines = keys_of s.lines.entries; ways = s.lines.cap } };
}

// The line of an entry.
fn line_of(entry: Option<(u64, ())>) -> Option<u64>
    ensures { result ≡ option_map (λ e. e.0) entry }
{
    match entry {
        Some((line, ())) => Some(line),
        None => None,
    }
}

// Brings in a line that isn't there.
fn push_new(lines: &mut LruCache<u64, ()>, line: u64) -> Result<Option<u64>, NoMemory>
    requires new { has line (keys_of lines.old.entries) ≡ false }
    requires some { 0 < lines.old.cap }
    ensures left { IfOk result (λ left. left
        ≡ slice_get (in_front line (keys_of lines.old.entries)) lines.old.cap) }
    ensures pushed { OnOk result (keys_of lines.new.entries
        ≡ take lines.old.cap (in_front line (keys_of lines.old.entries))) }
    ensures room { lines.new.cap ≡ lines.old.cap }
    ensures refused { OnErr result (lines.new ≡ lines.old) }
{
    match lines.push(line, ()) {
        Ok(left) => Ok(line_of(left)),
        Err(_) => Err(NoMemory),
    }
}

impl WaySet {
    /// No line yet, with room for so many. It keeps the allocator.
    pub(crate) fn new(alloc: Global, ways: NonZeroUsize) -> Result<WaySet, NoMemory>
        ensures { IfOk result (λ s. s ≡ record { lines = []; ways = non_zero_usize_get ways }) }
    {
        match LruCache::sparse(alloc, ways) {
            Ok(lines) => Ok(WaySet { lines }),
            Err(_) => Err(NoMemory),
        }
    }

    /// Uses a line: it comes to the front, and where that leaves too many the last one leaves. It
    /// takes memory only for a line that isn't there; where there is none, nothing changes.
    pub(crate) fn bring(&mut self, line: u64) -> Result<Option<u64>, NoMemory>
        ensures left { IfOk result (λ left. left
            ≡ slice_get (in_front line self.old.lines) self.old.ways) }
        ensures used { OnOk result (self.new ≡ record self.old {
          lines = take self.old.ways (in_front line self.old.lines);
        }) }
        ensures refused { OnErr result (self.new ≡ self.old) }
        ensures known { IsTrue (has line self.old.lines) → IsOk result }
    {
        // No line is there twice, and there are no more than there is room for, as this says.
        let _len = self.lines.len();
        if self.lines.promote(&line) {
            return Ok(None);
        }
        push_new(&mut self.lines, line)
    }

    /// Takes a line out, and says whether it was there.
    pub(crate) fn take_out(&mut self, line: u64) -> bool
        ensures found { result ≡ has line self.old.lines }
        ensures out { self.new ≡ record self.old { lines = without line self.old.lines } }
    {
        // No line is there twice.
        let _len = self.lines.len();
        self.lines.pop(&line).is_some()
    }
}
