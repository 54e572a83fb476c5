// What every index of lines does, and what it means: a finite map from line numbers to entries.
ghost use Rattle.std.specs.Prelude.{◌≡◌, ℕ, ◌<◌, ◌≤◌, ◌^◌, Bool, false, IfOk, OnErr, IfSome};
ghost use Rattle.std.specs.Prelude.{IfNone, IsTrue, ◌-◌, is_some};
ghost use Rattle.std.specs.Borrow.{sem};
ghost use Rattle.detector.specs.Entries.{Entries, IsEntry, blank_entry, entry_at, get};
ghost use Rattle.detector.specs.Lending.{LendsEntry};

use crate::line_entry::LineEntry;
use base::NoMemory;

/// Entries by their line numbers, which are at most 2^30.
pub trait LineIndex {
    /// The entries of the lines that have a write or a track.
    ghost entries: { Self → Entries };

    /// Whether a line has a place, so that it can be lent without memory.
    ghost has_place: { Self → ℕ → Bool };

    /// The entry of a line, which has no write and no track where the line was never touched.
    fn peek(&self, line: u64) -> LineEntry
        requires { line ≤ 2 ^ 30 }
        ensures { result ≡ entry_at (entries self.now) line };

    /// The entry of the line below one (of line 0, its own): None exactly where the line itself has
    /// no place.
    fn below(&self, line: u64) -> Option<LineEntry>
        requires { line ≤ 2 ^ 30 }
        ensures placed { is_some result ≡ has_place self.now line }
        ensures value { IfSome result (λ e. e ≡ entry_at (entries self.now) (line - 1)) };

    /// The same, where it is known that both are found together: None says nothing of the line.
    fn beside(&self, line: u64) -> Option<LineEntry>
        requires { line ≤ 2 ^ 30 }
        ensures placed { IfSome result (λ e. IsTrue (has_place self.now line)) }
        ensures value { IfSome result (λ e. e ≡ entry_at (entries self.now) (line - 1)) };

    /// Lends the entry of a line for writing; every other line keeps its own. `NoMemory` comes only
    /// for a line that has no place yet, and so no write and no track, and then every line keeps
    /// its entry. A line that was lent keeps its place from then on.
    fn entry(&mut self, line: u64) -> Result<&mut LineEntry, NoMemory>
        requires { line ≤ 2 ^ 30 }
        ensures* writes_back { sem 𝓛
            (LendsEntry Self.row entries has_place self.entry line result) }
        ensures value { IfOk result (λ e. e.now ≡ entry_at (entries self.old) line) }
        ensures unplaced { OnErr result (has_place self.old line ≡ false) }
        ensures blank { OnErr result (entry_at (entries self.old) line ≡ blank_entry) };

    /// The least line at or above `line` that was written: None exactly where there is none.
    fn next_from(&self, line: u64) -> Option<u64>
        requires { line ≤ 2 ^ 30 }
        ensures written { IfSome result (λ n. 0 < (entry_at (entries self.now) n).writes) }
        ensures at_or_above { IfSome result (λ n. line ≤ n) }
        ensures in_range { IfSome result (λ n. n ≤ 2 ^ 30) }
        ensures least { IfSome result (λ n.
            (q : ℕ) → line ≤ q → q < n → (entry_at (entries self.now) q).writes ≡ 0) }
        ensures none { IfNone result (
            (q : ℕ) → line ≤ q → (entry_at (entries self.now) q).writes ≡ 0) };

    /// No line past 2^30 has an entry, and no entry is without a write and a track.
    ghost only_entries: { (s : Self) (q : ℕ) → IfSome (get (entries s) q) (IsEntry q) };
}
