// Whether a table brings a byte near an access that wasn't near it before.
ghost use Rattle.std.specs.Prelude.{◌≡◌, ◌+◌, ◌≤◌, ◌<◌, ◌^◌, drop, length, min, not};
ghost use Rattle.std.specs.List.{AllWithin, list_all};
ghost use Rattle.sharing_rules.specs.Filtered.{is_near};
ghost use Rattle.trace_files.specs.NearMoves.{comes_from_near, near_end, near_from};
ghost use Rattle.trace_files.specs.Rows.{AreRising, turned};

use crate::move_row::Move;

// How many bytes a region has.
fn region_size(near: u16) -> u64
    requires { near ≤ 16 }
    ensures size { result ≡ 2 ^ near }
    ensures some { 0 < result }
    ensures small { result ≤ 2 ^ 16 }
{
    1u64 << near
}

// The least address that is near one.
fn near_from(near: u16, addr: u32) -> u64
    requires { near ≤ 16 }
    ensures { result ≡ near_from near addr }
{
    let size = region_size(near);
    (u64::from(addr) / size).saturating_sub(1) * size
}

// Where the addresses end that are near one.
fn near_end(near: u16, addr: u32) -> u64
    requires { near ≤ 16 }
    ensures { result ≡ near_end near addr }
{
    let size = region_size(near);
    (u64::from(addr) / size + 2) * size
}

// Whether two addresses are near.
fn is_near(near: u16, a: u64, b: u32) -> bool
    requires { near ≤ 16 }
    ensures { result ≡ is_near near a b }
{
    let size = region_size(near);
    let x = a / size;
    let y = u64::from(b) / size;
    x <= y + 1 && y <= x + 1
}

// The end of so many bytes, or another one where that is lower.
fn cut_end(from: u32, size: u64, end: u64) -> u64
    ensures { result ≡ min (from + size) end }
{
    let from = u64::from(from);
    if end > from && size < end - from {
        from + size
    } else {
        end
    }
}

// Whether the bytes of a place that are near an address come from near an access, by their first
// and last. The place is the range of a way back.
fn comes_from_near(near: u16, moved: u32, addr: u32, back: &Move) -> bool
    requires { near ≤ 16 }
    ensures { result ≡ comes_from_near near moved addr (turned back.now) }
{
    let from = u64::from(back.from);
    let first = from.max(near_from(near.min(8), moved));
    let end = cut_end(back.from, back.size, near_end(near.min(8), moved));
    if end <= first {
        return true;
    }
    let to = u64::from(back.to);
    is_near(near, first - from + to, addr) && is_near(near, end - 1 - from + to, addr)
}

// Whether they do of each of some places.
fn all_come_from_near(near: u16, moved: u32, addr: u32, places: &[Move]) -> bool
    requires { near ≤ 16 }
    ensures { result ≡ list_all (λ m. comes_from_near near moved addr (turned m)) places.now }
{
    for back in places {
        if !comes_from_near(near, moved, addr, back) {
            return false;
        }
    }
    true
}

// How many ranges begin below an address.
fn begun_below(rows: &[Move], end: u64) -> usize
    requires { AreRising rows.now }
    ensures bound { result ≤ length rows.now }
    ensures below { AllWithin (λ m. m.from < end) rows.now 0 result }
    ensures above { AllWithin (λ m. end ≤ m.from) rows.now result (length rows.now) }
{
    rows.partition_point(|row| u64::from(row.from) < end)
}

// The rows from a place on, none where there aren't so many.
fn part_behind(rows: &[Move], start: usize) -> &[Move]
    ensures { result.now ≡ drop start rows.now }
{
    if start < rows.len() {
        &rows[start..]
    } else {
        &rows[rows.len()..]
    }
}

// Whether a place has a byte that is near an access once it is moved, and that comes from an address
// that isn't near the access's own. Only places that begin near where it is moved are looked at, and
// the one before them.
pub(crate) fn some_come_from_far(near: u16, moved: u32, addr: u32, places: &[Move]) -> bool
    requires small { near ≤ 16 }
    requires rising { AreRising places.now }
    ensures { result ≡ not (list_all (λ m. comes_from_near near moved addr (turned m)) places.now) }
{
    let before = begun_below(places, near_from(near.min(8), moved));
    let end = begun_below(places, near_end(near.min(8), moved));
    let begun = &places[..end];
    !all_come_from_near(
        near,
        moved,
        addr,
        part_behind(begun, before.saturating_sub(1)),
    )
}
