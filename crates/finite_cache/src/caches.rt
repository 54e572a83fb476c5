// The caches of all harts, and what is counted of the lines.
ghost use Rattle.std.specs.Prelude.{◌≡◌, ◌<◌, ◌≤◌, ◌^◌, ◌∷◌, ◌++◌, [], length, IsFalse, IsOk, OnOk};
ghost use Rattle.std.specs.Prelude.{OnErr, Some, option_map, slice_get};
ghost use Rattle.sharing_rules.specs.AccessLists.{AccessList};
ghost use Rattle.finite_cache.specs.Fits.{bounded_sum, unbounded_sum};
ghost use Rattle.finite_cache.specs.CacheState.{HasNoted, MeansTheSame, StandsFor, nothing_kept};
ghost use Rattle.finite_cache.specs.CacheState.{row_kept, totals_kept, use_of, wants_memory};
ghost use Rattle.finite_cache.specs.Rows.{all_evicted, rows_of, totals_of};
ghost use Rattle.finite_cache.specs.Seen.{HasSeen};

use crate::line_use::LineUse;
use crate::rows::{CacheRow, Tally, Totals, one_if};
use crate::step::step;
use crate::way_set::WaySet;
use base::{Access, NoMemory, Shape};
use indexmap::IndexMap;
use sharing_rules::CacheLine;
use std::alloc::Global;
use std::marker::Model;

/// The private caches of all harts, of one shape, and what was counted of each line that was
/// written. The list of a hart and a set is made when it is first used.
///
/// Contracts see the shape, the position, how often any line was evicted, and the parts: the lists,
/// the lines that were used, and the rows in the order of first writes.
#[derive(Drop)]
pub struct Caches {
    shape: Shape,
    position: u64,
    evicted: u64,
    sets: IndexMap<u32, WaySet>,
    lines: IndexMap<u64, LineUse>,
    rows: IndexMap<u64, Tally>,
}

impl Model for Caches {
    ghost use Rattle.std.specs.Prelude.{◌≤◌};
    ghost use Rattle.finite_cache.specs.CacheState.{CacheState};
    ghost use Rattle.finite_cache.specs.KeptParts.{parts_of};
    ghost use Rattle.finite_cache.specs.Fits.{AreFit};

    ghost Value = { CacheState };

    ghost view = { λ m. record {
      shape = m.shape;
      position = m.position;
      evicted = m.evicted;
      parts = parts_of m.sets m.lines m.rows;
    } };

    ghost invariant = { λ m. AreFit m.shape m.position (parts_of m.sets m.lines m.rows)
        × (m.evicted ≤ m.position) };
}

// How often a line was evicted.
fn evictions(lines: &IndexMap<u64, LineUse>, line: u64) -> u64
    ensures { result ≡ (use_of lines.now.entries line).evicted }
{
    match lines.get(&line) {
        Some(seen) => seen.evicted(),
        None => 0,
    }
}

// What is counted of the line at an index.
fn tally_at(rows: &IndexMap<u64, Tally>, index: usize) -> Tally
    requires { index < length rows.now.entries }
    ensures { option_map (λ e. e.1) (slice_get rows.now.entries index) ≡ Some result }
{
    match rows.get_index(index) {
        Some((_, tally)) => *tally,
        None => unreachable!(),
    }
}

// The sums of all rows, none of which is above a number.
fn sums(rows: &IndexMap<u64, Tally>, most: u64) -> (u64, u64)
    requires bounded { bounded_sum rows.now.entries ≤ most }
    requires unbounded { unbounded_sum rows.now.entries ≤ most }
    ensures bounded { result.0 ≡ bounded_sum rows.now.entries }
    ensures unbounded { result.1 ≡ unbounded_sum rows.now.entries }
{
    let mut bounded = 0;
    let mut unbounded = 0;
    for index in 0..rows.len() {
        let tally = tally_at(rows, index);
        bounded += tally.bounded;
        unbounded += tally.unbounded;
    }
    (bounded, unbounded)
}

impl Caches {
    /// Empty caches, of a shape, of as many harts as there may be.
    pub fn new(alloc: Global, shape: Shape) -> Caches
        ensures kept { result ≡ nothing_kept shape }
        ensures begun { HasSeen result result [] }
        ensures stands { StandsFor [] result }
    {
        Caches {
            shape,
            position: 0,
            evicted: 0,
            sets: IndexMap::new(alloc),
            lines: IndexMap::new(alloc),
            rows: IndexMap::new(alloc),
        }
    }

    /// The shape of the caches.
    pub fn shape(&self) -> Shape
        ensures { result ≡ self.now.shape }
    {
        self.shape
    }

    /// How many accesses were seen.
    pub fn position(&self) -> u64
        ensures kept { result ≡ self.now.position }
        ensures stands { (t : AccessList) → StandsFor t self.now → result ≡ length t }
    {
        self.position
    }

    /// How often any line was evicted.
    pub fn evicted(&self) -> u64
        ensures kept { result ≡ self.now.evicted }
        ensures stands { (t : AccessList) → StandsFor t self.now
            → result ≡ all_evicted self.now.shape t }
    {
        self.evicted
    }

    /// How many lines were written.
    pub fn row_count(&self) -> usize
        ensures kept { result ≡ length self.now.parts.rows }
        ensures stands { (t : AccessList) → StandsFor t self.now
            → result ≡ length (rows_of self.now.shape t) }
    {
        self.rows.len()
    }

    /// The row of a line that was written, by its place in the order of first writes: None exactly
    /// where it is past the count.
    pub fn row(&self, index: usize) -> Option<CacheRow>
        ensures kept { result ≡ option_map (row_kept self.now.shape self.now.parts.lines)
            (slice_get self.now.parts.rows index) }
        ensures stands { (t : AccessList) → StandsFor t self.now
            → result ≡ slice_get (rows_of self.now.shape t) index }
    {
        self.kept_row(index)
    }

    // What is kept says the row.
    fn kept_row(&self, index: usize) -> Option<CacheRow>
        ensures { result ≡ option_map (row_kept self.now.shape self.now.parts.lines)
            (slice_get self.now.parts.rows index) }
    {
        match self.rows.get_index(index) {
            Some((number, tally)) => Some(CacheRow {
                range: CacheLine::numbered(self.shape.layout(), *number).range(),
                start: tally.start,
                bounded: tally.bounded,
                unbounded: tally.unbounded,
                evicted: evictions(&self.lines, *number),
            }),
            None => None,
        }
    }

    /// The sums over all rows, and the evictions of all lines.
    pub fn totals(&self) -> Totals
        ensures kept { result ≡ totals_kept self.now }
        ensures stands { (t : AccessList) → StandsFor t self.now
            → result ≡ totals_of self.now.shape t }
    {
        let (bounded, unbounded) = sums(&self.rows, self.position);
        Totals {
            bounded,
            unbounded,
            evicted: self.evicted,
        }
    }

    /// Sees the next access, before position 2^40. It takes memory only where the access's line
    /// isn't in its hart's cache, and at the first write of a line; where there is none, all means
    /// what it did.
    pub fn on_access(&mut self, access: &Access) -> Result<(), NoMemory>
        requires { self.old.position < 2 ^ 40 }
        ensures noted { OnOk result (HasNoted access.now self.old self.new) }
        // so what is kept stands for the longer list
        ensures stands { (t : AccessList) → StandsFor t self.old
            → OnOk result (StandsFor (t ++ access.now ∷ []) self.new) }
        ensures refused { OnErr result (MeansTheSame self.old self.new) }
        ensures known { IsFalse (wants_memory self.old.shape self.old.parts access.now)
            → IsOk result }
    {
        // There are some sets and some ways, as the size says.
        let _size = self.shape.size();
        let evicted = match step(
            &mut self.sets,
            &mut self.lines,
            &mut self.rows,
            self.shape,
            self.position,
            access,
        ) {
            Ok(evicted) => evicted,
            Err(fault) => return Err(fault),
        };
        self.evicted += one_if(evicted);
        self.position += 1;
        Ok(())
    }
}
