// What is reported of a line, and of all lines.
ghost use Rattle.std.specs.Prelude.{◌≡◌, ◌≤◌};
ghost use Rattle.finite_cache.specs.Counts as counts;

use base::Range;

/// What is reported of a line that was written.
#[derive(Clone, Copy, PartialEq, Eq, Debug)]
pub struct CacheRow {
    /// Its addresses.
    pub range: Range,
    /// The position of its first write.
    pub start: u64,
    /// How many writes after that found it in another hart's cache.
    pub bounded: u64,
    /// How many would have in caches that lose no line.
    pub unbounded: u64,
    /// How often it was evicted from a cache, also before its start.
    pub evicted: u64,
}

/// The sums over all rows, and the evictions of all lines.
#[derive(Clone, Copy, PartialEq, Eq, Debug)]
pub struct Totals {
    /// The sum of what is bounded.
    pub bounded: u64,
    /// The sum of what is unbounded.
    pub unbounded: u64,
    /// How often any line was evicted, also one that was never written.
    pub evicted: u64,
}

/// 1 where something is so, else 0.
pub fn one_if(is_so: bool) -> u64
    ensures value { result ≡ counts.one_if is_so }
    ensures small { result ≤ 1 }
{
    if is_so { 1 } else { 0 }
}

/// What is counted of a line since its first write, at a position.
#[derive(Clone, Copy, Debug)]
pub struct Tally {
    pub start: u64,
    pub bounded: u64,
    pub unbounded: u64,
}
