// One record, all of whose bytes are there.
ghost use Rattle.std.specs.Prelude.{◌≡◌, ◌^◌, ◌≤◌, ◌≢◌, Err, length};
ghost use Rattle.trace_format.specs.Judging.{alloc_at, end_extent, extent_of, is_whole};
ghost use Rattle.trace_format.specs.Judging.{record_extent, whole_at};
ghost use Rattle.trace_format.specs.Judging.{record_judged, tagged_judged, touch_counted};
ghost use Rattle.trace_format.specs.Tags.{IsTag};
ghost use Rattle.trace_format.specs.Sound.{IsSound};

use crate::access_read::{
    short_touch_extent, short_touch_of, sited_touch_extent, sited_touch_of, touch_of, without_pc,
};
use crate::ending_read::outcome_of;
use crate::header_read::LAST_POSITION;
use crate::symbol_read::{symbol_extent, symbol_of};
use crate::{ReadSoFar, Tag, TraceEnd, TraceFault, TraceRecord, Version};
use base::{Access, u32_at, u64_at};
use std::alloc::Global;

// How many bytes an access of version 1 has.
pub(crate) const TOUCH_LENGTH: usize = 8;

// How many bytes an end has.
fn end_extent(version: Version) -> usize
    ensures { result ≡ end_extent version }
{
    match version {
        Version::One | Version::Two | Version::Three => 25,
        Version::Four => 33,
    }
}

// How many bytes a record of a tag has, as far as they are there.
#[inline(always)]
fn extent_of(version: Version, tag: Tag, bytes: &[u8]) -> usize
    ensures { result ≡ extent_of version tag bytes.now }
{
    match tag {
        Tag::Touch(_) => TOUCH_LENGTH,
        Tag::ShortTouch(_, _) => short_touch_extent(bytes),
        Tag::SitedTouch(_, _) => sited_touch_extent(bytes),
        Tag::Alloc => 25,
        Tag::Free => 5,
        Tag::Symbol => symbol_extent(bytes),
        Tag::End => end_extent(version),
    }
}

// How many bytes the record that begins here has, as far as they are there.
#[tactic(auto, unfolding(crate::specs::Judging::record_extent))]
#[inline(always)]
pub(crate) fn record_extent(version: Version, bytes: &[u8]) -> usize
    ensures { result ≡ record_extent version bytes.now }
{
    let Some(first) = bytes.first() else {
        return 1;
    };
    match Tag::read(version, *first) {
        Some(tag) => extent_of(version, tag, bytes),
        None => 1,
    }
}

#[tactic(auto, unfolding(crate::specs::Judging::alloc_at))]
fn alloc_of(bytes: &[u8]) -> TraceRecord
    requires { 25 ≤ length bytes.now }
    ensures { result ≡ alloc_at bytes.now }
{
    TraceRecord::Alloc {
        addr: u32_at(bytes, 1),
        size: u32_at(bytes, 5),
        sites: [
            u32_at(bytes, 9),
            u32_at(bytes, 13),
            u32_at(bytes, 17),
            u32_at(bytes, 21),
        ],
    }
}

#[tactic(auto, using(std::proofs::lemmas::Bool::Decides::nat_tests))]
#[inline(always)]
fn counted(
    progress: &ReadSoFar,
    sited: Result<(Access, Option<u32>), TraceFault>,
) -> Result<TraceRecord, TraceFault>
    requires sound { IsSound progress.now }
    requires low { progress.now.place ≤ 2 ^ 44 }
    ensures { result ≡ touch_counted progress.now sited }
{
    match sited {
        Ok((access, pc)) => {
            if progress.header.first + progress.counted < LAST_POSITION {
                Ok(TraceRecord::Touch(access, pc))
            } else {
                Err(TraceFault::TooLong)
            }
        }
        Err(fault) => Err(fault),
    }
}

// How many accesses the list had before it was filtered, where the version states it.
fn whole_at(version: Version, bytes: &[u8]) -> Option<u64>
    requires { end_extent version ≤ length bytes.now }
    ensures { result ≡ whole_at version bytes.now }
{
    match version {
        Version::One | Version::Two | Version::Three => None,
        Version::Four => Some(u64_at(bytes, 25)),
    }
}

#[tactic(auto, using(std::proofs::lemmas::Bool::Decides::nat_tests))]
fn is_whole(accesses: u64, whole: Option<u64>) -> bool
    ensures { result ≡ is_whole accesses whole }
{
    match whole {
        None => true,
        Some(whole) => accesses <= whole && whole <= LAST_POSITION,
    }
}

#[tactic(auto, using(std::proofs::lemmas::Bool::Decides::nat_tests))]
fn end_of(progress: &ReadSoFar, bytes: &[u8]) -> Result<TraceRecord, TraceFault>
    requires long { 25 ≤ length bytes.now }
    requires all { end_extent progress.now.version ≤ length bytes.now }
    requires sound { IsSound progress.now }
    requires low { progress.now.place ≤ 2 ^ 44 }
    ensures { result ≡ tagged_judged progress.now Tag.End bytes.now }
{
    let outcome = match outcome_of(bytes, progress.header.harts, progress.place) {
        Ok(outcome) => outcome,
        Err(fault) => return Err(fault),
    };
    let (steps, stated) = (u64_at(bytes, 9), u64_at(bytes, 17));
    if stated != progress.counted {
        return Err(TraceFault::CountMismatch {
            stated,
            counted: progress.counted,
        });
    }
    let whole = whole_at(progress.version, bytes);
    if !is_whole(stated, whole) {
        return Err(TraceFault::BadField(progress.place + 25));
    }
    Ok(TraceRecord::End(TraceEnd {
        outcome,
        steps,
        accesses: stated,
        whole,
    }))
}

#[inline(always)]
fn tagged_of(
    alloc: Global,
    progress: &ReadSoFar,
    tag: Tag,
    bytes: &[u8],
) -> Result<TraceRecord, TraceFault>
    requires long { length bytes.now ≡ extent_of progress.now.version tag bytes.now }
    requires sound { IsSound progress.now }
    requires low { progress.now.place ≤ 2 ^ 44 }
    requires tagged { IsTag tag }
    ensures { result ≢ Err TraceFault.NoMemory → result ≡ tagged_judged progress.now tag bytes.now }
{
    let (harts, place) = (progress.header.harts, progress.place);
    match tag {
        Tag::Touch(kind) => counted(progress, without_pc(touch_of(bytes, kind, harts, place))),
        Tag::ShortTouch(kind, size) => {
            let last = progress.before.last;
            let access = short_touch_of(bytes, kind, size, harts, last, place);
            counted(progress, without_pc(access))
        }
        Tag::SitedTouch(kind, size) => {
            let before = &progress.before;
            counted(
                progress,
                sited_touch_of(bytes, kind, size, harts, before, place),
            )
        }
        Tag::Alloc => Ok(alloc_of(bytes)),
        Tag::Free => Ok(TraceRecord::Free {
            addr: u32_at(bytes, 1),
        }),
        Tag::Symbol => symbol_of(alloc, bytes, place),
        Tag::End => end_of(progress, bytes),
    }
}

// The record in the bytes, which are all that it has. It takes memory for a name alone.
#[tactic(auto, unfolding(crate::specs::Judging::record_judged, crate::specs::Judging::record_extent))]
#[inline(always)]
pub(crate) fn record_of(
    alloc: Global,
    progress: &ReadSoFar,
    bytes: &[u8],
) -> Result<TraceRecord, TraceFault>
    requires long { length bytes.now ≡ record_extent progress.now.version bytes.now }
    requires some { 1 ≤ length bytes.now }
    requires sound { IsSound progress.now }
    requires low { progress.now.place ≤ 2 ^ 44 }
    ensures { result ≢ Err TraceFault.NoMemory → result ≡ record_judged progress.now bytes.now }
{
    match Tag::read(progress.version, bytes[0]) {
        Some(tag) => tagged_of(alloc, progress, tag, bytes),
        None => Err(TraceFault::BadTag(progress.place)),
    }
}
