// The accesses at the front of some bytes, read one after the other. Most records are accesses, so
// that their way is short: what is no access, or not a good one, is left to the way of all records.
ghost use Rattle.std.specs.Prelude.{◌≡◌, ◌^◌, ◌+◌, ◌≤◌, [], ◌∷◌, ◌++◌, length, IfSome, Ok, IsTrue};
ghost use Rattle.std.specs.Prelude.{IsFalse, Some, drop, slice_index};
ghost use Rattle.base.specs.Touch.{is_access_size};
ghost use Rattle.trace_format.specs.Ahead.{with_site};
ghost use Rattle.trace_format.specs.Judging.{short_touch_judged, touch_counted};
ghost use Rattle.trace_format.specs.Numbers.{are_groups, number_in};
ghost use Rattle.trace_format.specs.Rules.{longest_trace};
ghost use Rattle.trace_format.specs.Tags.{tag_of};
ghost use Rattle.trace_format.specs.Sound.{IsSound};
ghost use Rattle.trace_format.specs.ReaderStates.{HasAccess, HasSameHead, ReadsBut, reading_at};

use crate::access_read::{address_at, touch_of, without_pc};
use crate::before::Before;
use crate::header_read::LAST_POSITION;
use crate::number_ahead::number_at;
use crate::reader_state::count_access;
use crate::record_read::TOUCH_LENGTH;
use crate::{ReadSoFar, Tag, TraceFault, TraceRecord, Version};
use base::{Access, Hart, Kind, behind};

// A good access at the front of some bytes, and how many bytes it has.
#[derive(Clone, Copy, Drop)]
struct Ahead {
    access: Access,
    pc: Option<u32>,
    size: usize,
}

// An access that is good in itself, if there is a position for it.
#[tactic(auto, using(std::proofs::lemmas::Bool::Decides::nat_tests))]
#[inline(always)]
fn placed(
    progress: &ReadSoFar,
    sited: Result<(Access, Option<u32>), TraceFault>,
    size: usize,
) -> Option<Ahead>
    requires sound { IsSound progress.now }
    requires low { progress.now.place ≤ 2 ^ 44 }
    ensures { IfSome result (λ a. (touch_counted progress.now sited
        ≡ Ok (TraceRecord.Touch a.access a.pc)) × (a.size ≡ size)) }
{
    match sited {
        Ok((access, pc)) if progress.header.first + progress.counted < LAST_POSITION => {
            Some(Ahead { access, pc, size })
        }
        _ => None,
    }
}

// A good access of version 1, if all of it is there.
#[inline(always)]
fn touch_ahead(progress: &ReadSoFar, kind: Kind, bytes: &[u8]) -> Option<Ahead>
    requires sound { IsSound progress.now }
    requires low { progress.now.place ≤ 2 ^ 44 }
    requires tagged { tag_of progress.now.version (slice_index bytes.now 0)
        ≡ Some (Tag.Touch kind) }
    ensures { IfSome result (λ ahead. HasAccess progress.now bytes.now ahead.access ahead.pc
        ahead.size) }
{
    if bytes.len() < TOUCH_LENGTH {
        return None;
    }
    let (part, _) = bytes.split_at(TOUCH_LENGTH);
    let access = touch_of(part, kind, progress.header.harts, progress.place);
    placed(progress, without_pc(access), TOUCH_LENGTH)
}

// The access in the bytes of a record of version 2, whose distance is read.
#[tactic(auto, using(std::proofs::lemmas::Bool::Decides::nat_tests), unfolding(crate::specs::Judging::short_touch_judged))]
#[inline(always)]
fn short_touch_stated(
    bytes: &[u8],
    z: u32,
    kind: Kind,
    size: u8,
    harts: u16,
    last: u32,
    place: u64,
) -> Result<Access, TraceFault>
    requires long { 2 ≤ length bytes.now }
    requires spelled { IsTrue (are_groups (drop 2 bytes.now)) }
    requires stated { z ≡ number_in (drop 2 bytes.now) }
    requires sized { IsTrue (is_access_size size) }
    requires few { harts ≤ 256 }
    requires low { place ≤ 2 ^ 44 }
    ensures { result ≡ short_touch_judged kind size harts last place bytes.now }
{
    let number = bytes[1];
    if u16::from(number) >= harts {
        return Err(TraceFault::BadField(place + 1));
    }
    match Access::of_size(Hart::of_byte(number), address_at(last, z), kind, size) {
        Some(access) => Ok(access),
        None => Err(TraceFault::BadField(place + 2)),
    }
}

// An access of a version that has pcs, whose pc is this far from the one before.
#[inline(always)]
fn with_site(
    before: &Before,
    z: u32,
    access: Result<Access, TraceFault>,
) -> Result<(Access, Option<u32>), TraceFault>
    ensures { result ≡ with_site before.now z access }
{
    match access {
        Ok(access) => Ok((access, Some(address_at(before.pc(access.hart()), z)))),
        Err(fault) => Err(fault),
    }
}

// A good access of version 2, if all of it is there.
#[inline(always)]
fn short_touch_ahead(progress: &ReadSoFar, kind: Kind, width: u8, bytes: &[u8]) -> Option<Ahead>
    requires sound { IsSound progress.now }
    requires low { progress.now.place ≤ 2 ^ 44 }
    requires sized { IsTrue (is_access_size width) }
    requires tagged { tag_of progress.now.version (slice_index bytes.now 0)
        ≡ Some (Tag.ShortTouch kind width) }
    ensures { IfSome result (λ ahead. HasAccess progress.now bytes.now ahead.access ahead.pc
        ahead.size) }
{
    if bytes.len() < 2 {
        return None;
    }
    let Some(near) = number_at(bytes, 2) else {
        return None;
    };
    let (part, _) = bytes.split_at(near.end);
    let (harts, last, place) = (progress.header.harts, progress.before.last, progress.place);
    let access = short_touch_stated(part, near.number, kind, width, harts, last, place);
    placed(progress, without_pc(access), near.end)
}

// A good access of version 3, if all of it is there.
#[inline(always)]
fn sited_touch_ahead(progress: &ReadSoFar, kind: Kind, width: u8, bytes: &[u8]) -> Option<Ahead>
    requires sound { IsSound progress.now }
    requires low { progress.now.place ≤ 2 ^ 44 }
    requires sized { IsTrue (is_access_size width) }
    requires tagged { tag_of progress.now.version (slice_index bytes.now 0)
        ≡ Some (Tag.SitedTouch kind width) }
    ensures { IfSome result (λ ahead. HasAccess progress.now bytes.now ahead.access ahead.pc
        ahead.size) }
{
    if bytes.len() < 2 {
        return None;
    }
    let Some(near) = number_at(bytes, 2) else {
        return None;
    };
    let Some(site) = number_at(bytes, near.end) else {
        return None;
    };
    let (front, _) = bytes.split_at(near.end);
    let (harts, before, place) = (progress.header.harts, &progress.before, progress.place);
    let access = short_touch_stated(front, near.number, kind, width, harts, before.last, place);
    placed(progress, with_site(before, site.number, access), site.end)
}

// The kind of the access of version 1 that a byte begins.
#[inline(always)]
fn kind_of(byte: u8) -> Option<Kind>
    ensures { IfSome result (λ kind. tag_of Version.One byte ≡ Some (Tag.Touch kind)) }
{
    match byte {
        // Both in one arm: a branch that goes as the kinds come is foretold badly.
        1 | 2 => Some(if byte == 1 { Kind::Read } else { Kind::Write }),
        _ => None,
    }
}

// The kind and the size of the access of another version that a byte begins.
#[inline(always)]
fn sized_kind_of(byte: u8) -> Option<(Kind, u8)>
    ensures two { IfSome result (λ it. tag_of Version.Two byte ≡ Some (Tag.ShortTouch it.0 it.1)) }
    ensures three { IfSome result (λ it. tag_of Version.Three byte
        ≡ Some (Tag.SitedTouch it.0 it.1)) }
    ensures four { IfSome result (λ it. tag_of Version.Four byte
        ≡ Some (Tag.SitedTouch it.0 it.1)) }
    ensures sized { IfSome result (λ it. IsTrue (is_access_size it.1)) }
{
    match byte {
        0x11 => Some((Kind::Read, 1)),
        0x12 => Some((Kind::Read, 2)),
        0x14 => Some((Kind::Read, 4)),
        0x21 => Some((Kind::Write, 1)),
        0x22 => Some((Kind::Write, 2)),
        0x24 => Some((Kind::Write, 4)),
        _ => None,
    }
}

// The good access that begins some bytes, if all of it is there.
#[inline(always)]
fn access_ahead(progress: &ReadSoFar, bytes: &[u8]) -> Option<Ahead>
    requires sound { IsSound progress.now }
    requires low { progress.now.place ≤ 2 ^ 44 }
    ensures { IfSome result (λ ahead. HasAccess progress.now bytes.now ahead.access ahead.pc
        ahead.size) }
{
    if bytes.is_empty() {
        return None;
    }
    match progress.version {
        Version::One => match kind_of(bytes[0]) {
            Some(kind) => touch_ahead(progress, kind, bytes),
            None => None,
        },
        Version::Two => match sized_kind_of(bytes[0]) {
            Some((kind, width)) => short_touch_ahead(progress, kind, width, bytes),
            None => None,
        },
        Version::Three | Version::Four => match sized_kind_of(bytes[0]) {
            Some((kind, width)) => sited_touch_ahead(progress, kind, width, bytes),
            None => None,
        },
    }
}

// Appends an access, if there is memory for it.
#[inline(always)]
fn put(access: Access, pc: Option<u32>, into: &mut Vec<TraceRecord>) -> bool
    ensures put { IsTrue result
        → into.new.items ≡ into.old.items ++ TraceRecord.Touch access pc ∷ [] }
    ensures same { IsFalse result → into.new.items ≡ into.old.items }
{
    match into.push(TraceRecord::Touch(access, pc)) {
        Ok(()) => true,
        Err(_) => false,
    }
}

/// Reads the accesses at the front of some bytes, as far as they are whole and good and there is
/// memory for them, and gives the bytes behind them.
#[inline(always)]
pub(crate) fn read_run<'a>(
    progress: &mut ReadSoFar,
    bytes: &'a [u8],
    into: &mut Vec<TraceRecord>,
) -> &'a [u8]
    requires sound { IsSound progress.old }
    requires low { progress.old.place + length bytes.now ≤ longest_trace }
    ensures sound { IsSound progress.new }
    ensures head { HasSameHead progress.new progress.old }
    ensures fewer { length result.now ≤ length bytes.now }
    ensures exact { progress.new.place + length result.now
        ≡ progress.old.place + length bytes.now }
    ensures read { ReadsBut (reading_at progress.old) bytes.now (reading_at progress.new) result.now
        into.old.items into.new.items }
{
    let mut rest = bytes;
    while let Some(ahead) = access_ahead(progress, rest) {
        if !put(ahead.access, ahead.pc, into) {
            break;
        }
        count_access(progress, ahead.access, ahead.pc, ahead.size);
        rest = behind(rest, ahead.size);
    }
    rest
}
