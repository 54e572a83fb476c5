// Accesses, in every version.
ghost use Rattle.std.specs.Prelude.{◌≡◌, ◌%◌, ◌^◌, ◌+◌, ◌*◌, ◌<◌, ◌≤◌, IsTrue, drop, length};
ghost use Rattle.std.specs.Prelude.{nat_lt, slice_index, Ok};
ghost use Rattle.base.specs.Touch.{is_access_size};
ghost use Rattle.trace_format.specs.Numbers.{address_at, are_groups, group_count, number_in};
ghost use Rattle.trace_format.specs.Judging.{short_touch_extent, sited_touch_extent};
ghost use Rattle.trace_format.specs.Judging.{sited_touch_judged, with_pc, without_pc};
ghost use Rattle.trace_format.specs.Judging.{short_touch_judged, touch_judged};

use crate::TraceFault;
use crate::before::Before;
use base::{Access, Hart, Kind, behind, u16_at, u32_at};

// The access in 8 bytes at a place.
#[tactic(auto, using(std::proofs::lemmas::Bool::Decides::nat_tests), unfolding(crate::specs::Judging::touch_judged))]
#[inline(always)]
pub(crate) fn touch_of(
    bytes: &[u8],
    kind: Kind,
    harts: u16,
    place: u64,
) -> Result<Access, TraceFault>
    requires long { 8 ≤ length bytes.now }
    requires few { harts ≤ 256 }
    requires low { place ≤ 2 ^ 44 }
    ensures { result ≡ touch_judged kind harts place bytes.now }
{
    let number = u16_at(bytes, 1);
    if number >= harts {
        return Err(TraceFault::BadField(place + 1));
    }
    let size = bytes[7];
    if !matches!(size, 1 | 2 | 4) {
        return Err(TraceFault::BadField(place + 7));
    }
    match Access::of_size(Hart::of_byte(number as u8), u32_at(bytes, 3), kind, size) {
        Some(access) => Ok(access),
        None => Err(TraceFault::BadField(place + 3)),
    }
}

// Whether no byte at a place says that another follows.
#[tactic(auto, using(std::proofs::lemmas::Bool::Decides::nat_tests))]
#[inline(always)]
fn is_last(bytes: &[u8], place: usize) -> bool
    ensures { result ≡ nat_lt (slice_index bytes.now place) 128 }
{
    place >= bytes.len() || bytes[place] < 128
}

// How many bytes the groups of a number have, as far as they are there.
#[tactic(auto, using(std::proofs::lemmas::Bool::Decides::nat_tests))]
#[inline(always)]
fn group_count(bytes: &[u8]) -> usize
    ensures { result ≡ group_count bytes.now }
{
    if is_last(bytes, 0) {
        1
    } else if is_last(bytes, 1) {
        2
    } else if is_last(bytes, 2) {
        3
    } else if is_last(bytes, 3) {
        4
    } else {
        5
    }
}

// Where the groups from a place on end, as far as they are there.
#[inline(always)]
fn end_of_groups(bytes: &[u8], place: usize) -> usize
    requires { place ≤ 7 }
    ensures { result ≡ place + group_count (drop place bytes.now) }
{
    place + group_count(bytes.get(place..).unwrap_or(&[]))
}

// How many bytes an access of version 2 has, as far as they are there.
#[inline(always)]
pub(crate) fn short_touch_extent(bytes: &[u8]) -> usize
    ensures value { result ≡ short_touch_extent bytes.now }
    ensures few { result ≤ 7 }
{
    end_of_groups(bytes, 2)
}

// How many bytes an access of version 3 has, as far as they are there.
#[inline(always)]
pub(crate) fn sited_touch_extent(bytes: &[u8]) -> usize
    ensures { result ≡ sited_touch_extent bytes.now }
{
    end_of_groups(bytes, short_touch_extent(bytes))
}

// The number of a group and of those behind it.
#[inline(always)]
fn with_group(byte: u8, above: u64) -> u64
    requires { above < 2 ^ 28 }
    ensures { result ≡ byte % 128 + 128 * above }
{
    u64::from(byte % 128) + 128 * above
}

// The number that groups state.
#[inline(always)]
fn number_in(stated: &[u8]) -> u64
    requires some { 1 ≤ length stated.now }
    requires few { length stated.now ≤ 5 }
    ensures { result ≡ number_in stated.now }
{
    match *stated {
        [a] => with_group(a, 0),
        [a, b] => with_group(a, with_group(b, 0)),
        [a, b, c] => with_group(a, with_group(b, with_group(c, 0))),
        [a, b, c, d] => with_group(a, with_group(b, with_group(c, with_group(d, 0)))),
        [a, b, c, d, e] => {
            let high = with_group(d, with_group(e, 0));
            with_group(a, with_group(b, with_group(c, high)))
        }
        _ => 0,
    }
}

// Whether groups are those that a number below 2^32 is spelled in.
#[tactic(auto, using(std::proofs::lemmas::Bool::Decides::nat_tests))]
#[inline(always)]
fn are_groups(stated: &[u8]) -> bool
    requires { 1 ≤ length stated.now }
    ensures { result ≡ are_groups stated.now }
{
    let last = stated[stated.len() - 1];
    (stated.len() == 1 || last > 0) && (stated.len() < 5 || last <= 15)
}

// The address at a distance from the one before.
#[inline(always)]
pub(crate) fn address_at(last: u32, z: u32) -> u32
    ensures { result ≡ address_at last z }
{
    if z % 2 == 0 {
        last.wrapping_add(z / 2)
    } else {
        last.wrapping_sub(z / 2 + 1)
    }
}

// The access in the bytes of a record of version 2, which are all there.
#[tactic(auto, using(std::proofs::lemmas::Bool::Decides::nat_tests, crate::proofs::Groups::small_number), unfolding(crate::specs::Judging::short_touch_judged))]
#[inline(always)]
pub(crate) fn short_touch_of(
    bytes: &[u8],
    kind: Kind,
    size: u8,
    harts: u16,
    last: u32,
    place: u64,
) -> Result<Access, TraceFault>
    requires long { length bytes.now ≡ short_touch_extent bytes.now }
    requires sized { IsTrue (is_access_size size) }
    requires few { harts ≤ 256 }
    requires low { place ≤ 2 ^ 44 }
    ensures { result ≡ short_touch_judged kind size harts last place bytes.now }
{
    let number = bytes[1];
    if u16::from(number) >= harts {
        return Err(TraceFault::BadField(place + 1));
    }
    let stated = behind(bytes, 2);
    if !are_groups(stated) {
        return Err(TraceFault::BadField(place + 2));
    }
    let addr = address_at(last, number_in(stated) as u32);
    match Access::of_size(Hart::of_byte(number), addr, kind, size) {
        Some(access) => Ok(access),
        None => Err(TraceFault::BadField(place + 2)),
    }
}

/// An access of a version that has no pcs.
#[inline(always)]
pub(crate) fn without_pc(
    access: Result<Access, TraceFault>,
) -> Result<(Access, Option<u32>), TraceFault>
    ensures { result ≡ without_pc access }
{
    match access {
        Ok(access) => Ok((access, None)),
        Err(fault) => Err(fault),
    }
}

// An access, and the pc that the groups behind it state.
#[tactic(auto, using(crate::proofs::Groups::small_number))]
#[inline(always)]
fn with_pc(
    before: &Before,
    place: u64,
    stated: &[u8],
    access: Access,
) -> Result<(Access, Option<u32>), TraceFault>
    requires long { length stated.now ≡ group_count stated.now }
    ensures { result ≡ with_pc before.now place stated.now (Ok access) }
{
    if !are_groups(stated) {
        return Err(TraceFault::BadField(place));
    }
    let pc = address_at(before.pc(access.hart()), number_in(stated) as u32);
    Ok((access, Some(pc)))
}

// The access and the pc in the two parts of a record of version 3, which are all there.
#[inline(always)]
fn sited_touch_in(
    front: &[u8],
    stated: &[u8],
    kind: Kind,
    size: u8,
    harts: u16,
    before: &Before,
    place: u64,
) -> Result<(Access, Option<u32>), TraceFault>
    requires front_long { length front.now ≡ short_touch_extent front.now }
    requires stated_long { length stated.now ≡ group_count stated.now }
    requires sized { IsTrue (is_access_size size) }
    requires few { harts ≤ 256 }
    requires low { place ≤ 2 ^ 44 }
    ensures { result ≡ with_pc before.now (place + length front.now) stated.now
        (short_touch_judged kind size harts before.now.last place front.now) }
{
    let behind = place + front.len() as u64;
    match short_touch_of(front, kind, size, harts, before.last, place) {
        Ok(access) => with_pc(before, behind, stated, access),
        Err(fault) => Err(fault),
    }
}

// The access in the bytes of a record of version 3, which are all there.
#[inline(always)]
pub(crate) fn sited_touch_of(
    bytes: &[u8],
    kind: Kind,
    size: u8,
    harts: u16,
    before: &Before,
    place: u64,
) -> Result<(Access, Option<u32>), TraceFault>
    requires long { length bytes.now ≡ sited_touch_extent bytes.now }
    requires sized { IsTrue (is_access_size size) }
    requires few { harts ≤ 256 }
    requires low { place ≤ 2 ^ 44 }
    ensures { result ≡ sited_touch_judged kind size harts before.now place bytes.now }
{
    let (front, stated) = bytes.split_at(short_touch_extent(bytes));
    sited_touch_in(front, stated, kind, size, harts, before, place)
}
