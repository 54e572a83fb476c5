// The tables of what is kept: lists by hart and set, and lines by number.
ghost use Rattle.std.specs.Prelude.{◌≡◌, ℕ, ◌+◌, ◌-◌, ◌<◌, ◌^◌, ◌∷◌, [], eqb, length, not};
ghost use Rattle.std.specs.Prelude.{take, slice_get, if◌then◌else◌};
ghost use Rattle.std.specs.Prelude.{IfOk, IfSome, IsOk, IsSome, IsTrue, OnErr, OnOk, nat_eq};
ghost use Rattle.std.specs.List.{list_any};
ghost use Rattle.std.specs.NonZero.{non_zero_usize_get};
ghost use Rattle.indexmap.specs.IndexMap.{insert_entry, set_value_at, values};
ghost use Rattle.sharing_rules.specs.Arrivals.{note_arrival};
ghost use Rattle.finite_cache.specs.Bounded.{has, in_front, without};
ghost use Rattle.finite_cache.specs.Fits.{HaveWays};
ghost use Rattle.finite_cache.specs.CacheState.{harts_of, lines_at, use_of};

use crate::line_use::LineUse;
use crate::way_set::WaySet;
use base::{Hart, NoMemory};
use indexmap::IndexMap;
use std::num::NonZeroUsize;

// Uses a line in a list that is new.
fn bring_new(
    sets: &mut IndexMap<u32, WaySet>,
    cell: u32,
    ways: NonZeroUsize,
    line: u64,
) -> Result<Option<u64>, NoMemory>
    ensures left { IfOk result (λ left. left ≡ slice_get (line ∷ []) (non_zero_usize_get ways)) }
    ensures used { OnOk result (sets.new.entries ≡ insert_entry nat_eq sets.old.entries cell
        (record {
          lines = take (non_zero_usize_get ways) (line ∷ []);
          ways = non_zero_usize_get ways;
        })) }
    ensures refused { OnErr result (sets.new.entries ≡ sets.old.entries) }
{
    let mut set = match WaySet::new(*sets.allocator(), ways) {
        Ok(set) => set,
        Err(fault) => return Err(fault),
    };
    let left = match set.bring(line) {
        Ok(left) => left,
        Err(fault) => return Err(fault),
    };
    match sets.insert(cell, set) {
        Ok(_) => Ok(left),
        Err(_) => Err(NoMemory),
    }
}

// Uses a line in the list at an index.
fn bring_known(
    sets: &mut IndexMap<u32, WaySet>,
    index: usize,
    line: u64,
) -> Result<Option<u64>, NoMemory>
    requires there { IsSome (slice_get (values sets.old) index) }
    ensures left { IfOk result (λ left. IfSome (slice_get (values sets.old) index)
        (λ w. left ≡ slice_get (in_front line w.lines) w.ways)) }
    ensures used { OnOk result (IfSome (slice_get (values sets.old) index)
        (λ w. sets.new.entries ≡ set_value_at sets.old.entries index
        (record w { lines = take w.ways (in_front line w.lines) }))) }
    ensures refused { OnErr result (sets.new.entries ≡ sets.old.entries) }
    ensures known { IfSome (slice_get (values sets.old) index)
        (λ w. IsTrue (has line w.lines) → IsOk result) }
{
    match sets.get_index_mut(index) {
        Some(set) => set.bring(line),
        None => Err(NoMemory),
    }
}

/// Uses a line in the list of a cell, which is made where it is used for the first time: the line
/// comes to the front, and where that leaves too many the last one leaves. It takes memory only for
/// a line that isn't there; where there is none, nothing changes.
pub fn bring(
    sets: &mut IndexMap<u32, WaySet>,
    cell: u32,
    ways: NonZeroUsize,
    line: u64,
) -> Result<Option<u64>, NoMemory>
    requires ways { HaveWays (non_zero_usize_get ways) sets.old.entries }
    ensures left { IfOk result (λ left. left
        ≡ slice_get (in_front line (lines_at sets.old.entries cell)) (non_zero_usize_get ways)) }
    ensures used { OnOk result ((c : ℕ) → lines_at sets.new.entries c
        ≡ if eqb c cell
        then take (non_zero_usize_get ways) (in_front line (lines_at sets.old.entries cell))
        else lines_at sets.old.entries c) }
    ensures refused { OnErr result (sets.new.entries ≡ sets.old.entries) }
    ensures known { IsTrue (has line (lines_at sets.old.entries cell)) → IsOk result }
    ensures kept { HaveWays (non_zero_usize_get ways) sets.new.entries }
{
    match sets.get_index_of(&cell) {
        Some(index) => bring_known(sets, index, line),
        None => bring_new(sets, cell, ways, line),
    }
}

// Takes a line out of the list at an index, and says whether it was there.
fn take_out_at(sets: &mut IndexMap<u32, WaySet>, index: usize, line: u64) -> bool
    requires there { IsSome (slice_get (values sets.old) index) }
    ensures found { IfSome (slice_get (values sets.old) index) (λ w. result ≡ has line w.lines) }
    ensures out { IfSome (slice_get (values sets.old) index)
        (λ w. sets.new.entries ≡ set_value_at sets.old.entries index
        (record w { lines = without line w.lines })) }
{
    match sets.get_index_mut(index) {
        Some(set) => set.take_out(line),
        None => false,
    }
}

/// Takes a line out of the list of a cell, and says whether it was there.
pub fn take_out(sets: &mut IndexMap<u32, WaySet>, cell: u32, line: u64) -> bool
    ensures found { result ≡ has line (lines_at sets.old.entries cell) }
    ensures out { (c : ℕ) → lines_at sets.new.entries c
        ≡ if eqb c cell then without line (lines_at sets.old.entries cell)
        else lines_at sets.old.entries c }
    ensures kept { (n : ℕ) → HaveWays n sets.old.entries → HaveWays n sets.new.entries }
{
    match sets.get_index_of(&cell) {
        Some(index) => take_out_at(sets, index, line),
        None => false,
    }
}

// A hart comes to the line at an index.
fn arrive_at(lines: &mut IndexMap<u64, LineUse>, index: usize, hart: Hart) -> Result<bool, NoMemory>
    requires there { IsSome (slice_get (values lines.old) index) }
    ensures arrived { OnOk result (IfSome (slice_get (values lines.old) index)
        (λ l. lines.new.entries ≡ set_value_at lines.old.entries index
        (record l { harts = note_arrival l.harts hart }))) }
    ensures stated { IfOk result (λ new. IfSome (slice_get (values lines.old) index)
        (λ l. new ≡ not (list_any (eqb hart) l.harts))) }
    ensures refused { OnErr result (lines.new.entries ≡ lines.old.entries) }
    ensures known { IfSome (slice_get (values lines.old) index)
        (λ l. IsTrue (list_any (eqb hart) l.harts) → IsOk result) }
{
    match lines.get_index_mut(index) {
        Some(line) => line.arrive(hart),
        None => Err(NoMemory),
    }
}

// A hart comes to a line that nobody used.
fn arrive_first(lines: &mut IndexMap<u64, LineUse>, line: u64, hart: Hart) -> Result<bool, NoMemory>
    ensures arrived { OnOk result (lines.new.entries ≡ insert_entry nat_eq lines.old.entries line
        (record { harts = hart ∷ []; evicted = 0 })) }
    ensures stated { IfOk result (λ new. IsTrue new) }
    ensures refused { OnErr result (lines.new.entries ≡ lines.old.entries) }
{
    let used = match LineUse::by(*lines.allocator(), hart) {
        Ok(used) => used,
        Err(fault) => return Err(fault),
    };
    match lines.insert(line, used) {
        Ok(_) => Ok(true),
        Err(_) => Err(NoMemory),
    }
}

/// A hart comes to a line: true where it wasn't among those that came. It takes memory only there;
/// where there is none, nothing changes.
pub fn arrive(lines: &mut IndexMap<u64, LineUse>, line: u64, hart: Hart) -> Result<bool, NoMemory>
    ensures arrived { OnOk result ((r : ℕ) → use_of lines.new.entries r ≡ if eqb r line
        then record (use_of lines.old.entries line) {
          harts = note_arrival (harts_of lines.old.entries line) hart;
        } else use_of lines.old.entries r) }
    ensures stated { IfOk result (λ new. new
        ≡ not (list_any (eqb hart) (harts_of lines.old.entries line))) }
    ensures refused { OnErr result (lines.new.entries ≡ lines.old.entries) }
    ensures known { IsTrue (list_any (eqb hart) (harts_of lines.old.entries line))
        → IsOk result }
{
    match lines.get_index_of(&line) {
        Some(index) => arrive_at(lines, index, hart),
        None => arrive_first(lines, line, hart),
    }
}

/// The hart that came to a line last didn't come.
pub fn take_back(lines: &mut IndexMap<u64, LineUse>, line: u64)
    ensures { (r : ℕ) → use_of lines.new.entries r ≡ if eqb r line
        then record (use_of lines.old.entries line) {
          harts = take (length (harts_of lines.old.entries line) - 1)
              (harts_of lines.old.entries line);
        } else use_of lines.old.entries r }
{
    let Some(index) = lines.get_index_of(&line) else {
        return;
    };
    let Some(used) = lines.get_index_mut(index) else {
        return;
    };
    used.take_back();
}

/// A hart writes a line to which some came: it is the only one that came since.
pub fn settle(lines: &mut IndexMap<u64, LineUse>, line: u64, hart: Hart)
    requires { 0 < length (harts_of lines.old.entries line) }
    ensures { (r : ℕ) → use_of lines.new.entries r ≡ if eqb r line
        then record (use_of lines.old.entries line) { harts = hart ∷ [] }
        else use_of lines.old.entries r }
{
    let Some(index) = lines.get_index_of(&line) else {
        return;
    };
    let Some(used) = lines.get_index_mut(index) else {
        return;
    };
    used.settle(hart);
}

/// A line to which some harts came is evicted once more.
pub fn evict(lines: &mut IndexMap<u64, LineUse>, line: u64)
    requires there { 0 < length (harts_of lines.old.entries line) }
    requires few { (use_of lines.old.entries line).evicted < 2 ^ 40 }
    ensures { (r : ℕ) → use_of lines.new.entries r ≡ if eqb r line
        then record (use_of lines.old.entries line) {
          evicted = (use_of lines.old.entries line).evicted + 1;
        } else use_of lines.old.entries r }
{
    let Some(index) = lines.get_index_of(&line) else {
        return;
    };
    let Some(used) = lines.get_index_mut(index) else {
        return;
    };
    used.evict();
}
