// One access more, over the tables of what is kept.
ghost use Rattle.std.specs.Prelude.{◌≡◌, ℕ, ◌+◌, ◌<◌, ◌≤◌, ◌==◌, ◌&&◌, ◌^◌, ◌∷◌, [], eqb, nat_eq};
ghost use Rattle.std.specs.Prelude.{not};
ghost use Rattle.std.specs.Prelude.{false, if◌then◌else◌, is_some, length};
ghost use Rattle.std.specs.Prelude.{IfOk, IsFalse, IsOk, IsTrue, OnErr, OnOk};
ghost use Rattle.std.specs.Option.{ForSome, option_map_or};
ghost use Rattle.std.specs.List.{list_any};
ghost use Rattle.std.specs.Map.{lookup};
ghost use Rattle.indexmap.specs.IndexMap.{insert_entry, spare};
ghost use Rattle.base.specs.Touch.{is_write};
ghost use Rattle.sharing_rules.specs.Arrivals.{note_arrival};
ghost use Rattle.finite_cache.specs.Bounded.{has, left, line_in, set_of, used, without};
ghost use Rattle.finite_cache.specs.Fits.{AreFit, AreNoted, HaveWays, bounded_sum, unbounded_sum};
ghost use Rattle.finite_cache.specs.Counts.{one_if};
ghost use Rattle.finite_cache.specs.CacheState.{IsStep, MeanTheSame, cell_of, evicted_now};
ghost use Rattle.finite_cache.specs.CacheState.{harts_of};
ghost use Rattle.finite_cache.specs.CacheState.{lines_at, lists_of, use_of, wants_memory};
ghost use Rattle.finite_cache.specs.KeptParts.{parts_of};
ghost use Rattle.base.specs.Shapes.{is_shape};
ghost use Rattle.finite_cache.specs.Sweeps.{had_by_another, is_cell_of_another};

use crate::line_use::LineUse;
use crate::rows::{Tally, one_if};
use crate::shape::{capacity, cell_of, line_of};
use crate::tables::{arrive, bring, evict, settle, take_back, take_out};
use crate::way_set::WaySet;
use base::{Access, Hart, Kind, NoMemory, Shape};
use indexmap::IndexMap;

// Takes a line out of the list of a hart, if it is another one, and says whether it was there.
fn take_from(
    sets: &mut IndexMap<u32, WaySet>,
    shape: Shape,
    other: Hart,
    hart: Hart,
    line: u64,
) -> bool
    ensures found { result ≡ (not (other == hart)
        && has line (lines_at sets.old.entries (cell_of shape other (set_of shape line)))) }
    ensures out { (c : ℕ) → lines_at sets.new.entries c
        ≡ if not (other == hart) && (c == cell_of shape other (set_of shape line))
        then without line (lines_at sets.old.entries c) else lines_at sets.old.entries c }
    ensures kept { (n : ℕ) → HaveWays n sets.old.entries → HaveWays n sets.new.entries }
{
    if other.number() == hart.number() {
        return false;
    }
    take_out(sets, cell_of(shape, other, line), line)
}

// Takes a line out of the lists of all harts of some but one, and says whether one of them had it.
fn take_from_others(
    sets: &mut IndexMap<u32, WaySet>,
    shape: Shape,
    harts: &[Hart],
    hart: Hart,
    line: u64,
) -> bool
    ensures found { result
        ≡ had_by_another shape harts.now hart line (lines_at sets.old.entries) }
    ensures out { (c : ℕ) → lines_at sets.new.entries c
        ≡ if is_cell_of_another shape harts.now hart line c
        then without line (lines_at sets.old.entries c) else lines_at sets.old.entries c }
    ensures kept { (n : ℕ) → HaveWays n sets.old.entries → HaveWays n sets.new.entries }
{
    let mut found = false;
    for other in harts {
        if take_from(sets, shape, *other, hart, line) {
            found = true;
        }
    }
    found
}

// A hart uses a line: it is noted with the line, which comes to the front of its list. It takes
// memory only where the line isn't in the list; where there is none, all means what it did.
fn use_line(
    sets: &mut IndexMap<u32, WaySet>,
    lines: &mut IndexMap<u64, LineUse>,
    shape: Shape,
    line: u64,
    hart: Hart,
) -> Result<Option<u64>, NoMemory>
    requires ways { HaveWays shape.ways sets.old.entries }
    requires noted { IsTrue (has line (lines_at sets.old.entries
        (cell_of shape hart (set_of shape line))))
        → IsTrue (list_any (eqb hart) (harts_of lines.old.entries line)) }
    ensures left { IfOk result (λ out. out ≡ left shape line
        (lines_at sets.old.entries (cell_of shape hart (set_of shape line)))) }
    ensures used { OnOk result ((c : ℕ) → lines_at sets.new.entries c
        ≡ if eqb c (cell_of shape hart (set_of shape line)) then used shape line
        (lines_at sets.old.entries (cell_of shape hart (set_of shape line)))
        else lines_at sets.old.entries c) }
    ensures arrived { OnOk result ((r : ℕ) → use_of lines.new.entries r ≡ if eqb r line
        then record (use_of lines.old.entries line) {
          harts = note_arrival (harts_of lines.old.entries line) hart;
        } else use_of lines.old.entries r) }
    ensures same_sets { OnErr result (sets.new.entries ≡ sets.old.entries) }
    ensures same_lines { OnErr result ((r : ℕ)
        → use_of lines.new.entries r ≡ use_of lines.old.entries r) }
    ensures known { IsTrue (has line (lines_at sets.old.entries
        (cell_of shape hart (set_of shape line)))) → IsOk result }
    ensures kept { HaveWays shape.ways sets.new.entries }
{
    let new = match arrive(lines, line, hart) {
        Ok(new) => new,
        Err(fault) => return Err(fault),
    };
    match bring(sets, cell_of(shape, hart, line), capacity(shape), line) {
        Ok(left) => Ok(left),
        Err(fault) => {
            if new {
                take_back(lines, line);
            }
            Err(fault)
        }
    }
}

// Makes room for the row of a line that wasn't written yet. It takes memory only there.
fn make_room(rows: &mut IndexMap<u64, Tally>, line: u64) -> Result<(), NoMemory>
    ensures same { rows.new.entries ≡ rows.old.entries }
    ensures room { OnOk result (is_some (lookup (nat_eq line) rows.old.entries) ≡ false
        → 0 < spare rows.new) }
    ensures known { IsTrue (is_some (lookup (nat_eq line) rows.old.entries)) → IsOk result }
{
    if rows.contains_key(&line) {
        return Ok(());
    }
    match rows.reserve(1) {
        Ok(()) => Ok(()),
        Err(_) => Err(NoMemory),
    }
}

// What is counted of a line after a write of it.
fn tally_after(
    rows: &IndexMap<u64, Tally>,
    line: u64,
    position: u64,
    cached: bool,
    held: bool,
) -> Tally
    requires early { position < 2 ^ 40 }
    requires bounded { bounded_sum rows.now.entries ≤ position }
    requires unbounded { unbounded_sum rows.now.entries ≤ position }
    ensures { result ≡ Rattle.finite_cache.specs.CacheState.tally_after
        (lookup (eqb line) rows.now.entries) position cached held }
{
    match rows.get(&line) {
        Some(tally) => Tally {
            start: tally.start,
            bounded: tally.bounded + one_if(cached),
            unbounded: tally.unbounded + one_if(held),
        },
        None => Tally {
            start: position,
            bounded: 0,
            unbounded: 0,
        },
    }
}

// Counts a write of a line, for which there is room.
fn count_write(rows: &mut IndexMap<u64, Tally>, line: u64, position: u64, cached: bool, held: bool)
    requires early { position < 2 ^ 40 }
    requires bounded { bounded_sum rows.old.entries ≤ position }
    requires unbounded { unbounded_sum rows.old.entries ≤ position }
    requires room { is_some (lookup (nat_eq line) rows.old.entries) ≡ false
        → 0 < spare rows.old }
    ensures { rows.new.entries ≡ insert_entry nat_eq rows.old.entries line
        (Rattle.finite_cache.specs.CacheState.tally_after (lookup (eqb line) rows.old.entries)
        position cached held) }
{
    let tally = tally_after(rows, line, position, cached, held);
    // There is room, so that this can't fail.
    let _ = rows.insert(line, tally);
}

// A write of a line takes it from all other harts: whether another had it in its cache, and whether
// another came since the last write.
fn take_line(
    sets: &mut IndexMap<u32, WaySet>,
    lines: &mut IndexMap<u64, LineUse>,
    shape: Shape,
    line: u64,
    hart: Hart,
) -> (bool, bool)
    requires { IsTrue (list_any (eqb hart) (harts_of lines.old.entries line)) }
    ensures cached { result.0 ≡ had_by_another shape (harts_of lines.old.entries line) hart line
        (lines_at sets.old.entries) }
    ensures held { result.1 ≡ list_any (λ g. not (g == hart)) (harts_of lines.old.entries line) }
    ensures out { (c : ℕ) → lines_at sets.new.entries c
        ≡ if is_cell_of_another shape (harts_of lines.old.entries line) hart line c
        then without line (lines_at sets.old.entries c) else lines_at sets.old.entries c }
    ensures settled { (r : ℕ) → use_of lines.new.entries r ≡ if eqb r line
        then record (use_of lines.old.entries line) { harts = hart ∷ [] }
        else use_of lines.old.entries r }
    ensures kept { (n : ℕ) → HaveWays n sets.old.entries → HaveWays n sets.new.entries }
{
    let Some(seen) = lines.get(&line) else {
        return (false, false);
    };
    let held = seen.has_another(hart);
    let cached = take_from_others(sets, shape, seen.harts(), hart, line);
    settle(lines, line, hart);
    (cached, held)
}

// A line left a list, if one did.
fn note_evicted(lines: &mut IndexMap<u64, LineUse>, gone: Option<u64>)
    requires there { ForSome gone (λ q. 0 < length (harts_of lines.old.entries q)) }
    requires few { (r : ℕ) → (use_of lines.old.entries r).evicted < 2 ^ 40 }
    ensures harts { (r : ℕ) → harts_of lines.new.entries r ≡ harts_of lines.old.entries r }
    ensures evicted { (r : ℕ) → (use_of lines.new.entries r).evicted
        ≡ (use_of lines.old.entries r).evicted + one_if (option_map_or (eqb r) gone false) }
{
    match gone {
        Some(line) => evict(lines, line),
        None => {}
    }
}

// A hart comes to a line, which it uses: whether a line was evicted for it. It takes memory only
// where the line isn't in the list; where there is none, all means what it did.
fn come(
    sets: &mut IndexMap<u32, WaySet>,
    lines: &mut IndexMap<u64, LineUse>,
    shape: Shape,
    line: u64,
    hart: Hart,
) -> Result<bool, NoMemory>
    requires shaped { IsTrue (is_shape shape) }
    requires ways { HaveWays shape.ways sets.old.entries }
    requires noted { AreNoted shape (lists_of shape sets.old.entries)
        (harts_of lines.old.entries) }
    requires few { (r : ℕ) → (use_of lines.old.entries r).evicted < 2 ^ 40 }
    ensures stated { IfOk result (λ evicted. evicted ≡ is_some (left shape line
        (lists_of shape sets.old.entries hart (set_of shape line)))) }
    ensures used { OnOk result ((c : ℕ) → lines_at sets.new.entries c
        ≡ if eqb c (cell_of shape hart (set_of shape line)) then used shape line
        (lists_of shape sets.old.entries hart (set_of shape line))
        else lines_at sets.old.entries c) }
    ensures harts { OnOk result ((r : ℕ) → harts_of lines.new.entries r ≡ if eqb r line
        then note_arrival (harts_of lines.old.entries line) hart
        else harts_of lines.old.entries r) }
    ensures evicted { OnOk result ((r : ℕ) → (use_of lines.new.entries r).evicted
        ≡ (use_of lines.old.entries r).evicted + one_if (option_map_or (eqb r) (left shape line
        (lists_of shape sets.old.entries hart (set_of shape line))) false)) }
    ensures same_sets { OnErr result (sets.new.entries ≡ sets.old.entries) }
    ensures same_lines { OnErr result ((r : ℕ)
        → use_of lines.new.entries r ≡ use_of lines.old.entries r) }
    ensures known { IsTrue (has line (lists_of shape sets.old.entries hart (set_of shape line)))
        → IsOk result }
    ensures kept { HaveWays shape.ways sets.new.entries }
{
    let gone = match use_line(sets, lines, shape, line, hart) {
        Ok(gone) => gone,
        Err(fault) => return Err(fault),
    };
    note_evicted(lines, gone);
    Ok(gone.is_some())
}

// A write at a position: whether a line was evicted for it.
fn write(
    sets: &mut IndexMap<u32, WaySet>,
    lines: &mut IndexMap<u64, LineUse>,
    rows: &mut IndexMap<u64, Tally>,
    shape: Shape,
    position: u64,
    access: &Access,
) -> Result<bool, NoMemory>
    requires early { position < 2 ^ 40 }
    requires writes { IsTrue (is_write access.now.kind) }
    requires shaped { IsTrue (is_shape shape) }
    requires fit { AreFit shape position (parts_of sets.old lines.old rows.old) }
    ensures stated { IfOk result (λ evicted. evicted ≡ is_some
        (evicted_now shape (parts_of sets.old lines.old rows.old) access.now)) }
    ensures stepped { OnOk result (IsStep shape position access.now
        (parts_of sets.old lines.old rows.old) (parts_of sets.new lines.new rows.new)) }
    ensures refused { OnErr result (MeanTheSame shape
        (parts_of sets.old lines.old rows.old) (parts_of sets.new lines.new rows.new)) }
    ensures known { IsFalse (wants_memory shape
        (parts_of sets.old lines.old rows.old) access.now) → IsOk result }
    ensures kept { HaveWays shape.ways sets.new.entries }
    ensures small { line_in shape access.now.addr ≤ 2 ^ 32 }
{
    let line = line_of(shape, access.addr());
    let hart = access.hart();
    match make_room(rows, line) {
        Ok(()) => {}
        Err(fault) => return Err(fault),
    }
    let evicted = match come(sets, lines, shape, line, hart) {
        Ok(evicted) => evicted,
        Err(fault) => return Err(fault),
    };
    let (cached, held) = take_line(sets, lines, shape, line, hart);
    count_write(rows, line, position, cached, held);
    Ok(evicted)
}

/// One access more at a position, before 2^40: whether a line was evicted for it. It takes memory
/// only where its line isn't in its hart's cache, and at the first write of a line; where there is
/// none, all means what it did.
pub fn step(
    sets: &mut IndexMap<u32, WaySet>,
    lines: &mut IndexMap<u64, LineUse>,
    rows: &mut IndexMap<u64, Tally>,
    shape: Shape,
    position: u64,
    access: &Access,
) -> Result<bool, NoMemory>
    requires early { position < 2 ^ 40 }
    requires shaped { IsTrue (is_shape shape) }
    requires fit { AreFit shape position (parts_of sets.old lines.old rows.old) }
    ensures stated { IfOk result (λ evicted. evicted ≡ is_some
        (evicted_now shape (parts_of sets.old lines.old rows.old) access.now)) }
    ensures stepped { OnOk result (IsStep shape position access.now
        (parts_of sets.old lines.old rows.old) (parts_of sets.new lines.new rows.new)) }
    ensures refused { OnErr result (MeanTheSame shape
        (parts_of sets.old lines.old rows.old) (parts_of sets.new lines.new rows.new)) }
    ensures known { IsFalse (wants_memory shape
        (parts_of sets.old lines.old rows.old) access.now) → IsOk result }
    ensures kept { HaveWays shape.ways sets.new.entries }
    ensures small { line_in shape access.now.addr ≤ 2 ^ 32 }
{
    match access.kind() {
        Kind::Read => come(
            sets,
            lines,
            shape,
            line_of(shape, access.addr()),
            access.hart(),
        ),
        Kind::Write => write(sets, lines, rows, shape, position, access),
    }
}
