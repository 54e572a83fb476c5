// Where each word of an object goes.
ghost use Rattle.std.specs.Prelude.{◌≡◌, ◌+◌, ◌%◌, ◌<◌, ◌≤◌, ◌^◌, Err, IfOk, IfSome, IsFalse, IsTrue, pos};
ghost use Rattle.std.specs.Prelude.{OnOk, Some, ℕ, length, map, slice_get, slice_set, suc};
ghost use Rattle.base.specs.Lines.{is_line_size};
ghost use Rattle.sharing_rules.specs.Places.{below};
ghost use Rattle.placement.specs.Groups.{area_length, group_count, group_size, group_start};
ghost use Rattle.placement.specs.Plans.{ArePlaces, has_room, in_word, lines_from};
ghost use Rattle.placement.specs.Plans.{moved, place_at, place_from, plan_of};

use crate::extent::Extent;
use crate::groups::{
    group_of, group_sizes, group_starts, group_total, many_group, room_of, rounded,
};
use crate::owners::{Owners, index_of};
use base::{Access, NoMemory as WantOfMemory, Range};
use sharing_rules::Owner;
use std::alloc::{AllocError, Global};
use std::marker::Model;

/// Why there is no plan.
#[derive(Clone, Copy, PartialEq, Eq, Debug)]
pub enum PlanFault {
    /// The area would end behind the last address.
    NoRoom,
    /// There is no memory.
    NoMemory,
}

impl From<AllocError> for PlanFault {
    ghost use Rattle.placement.specs.declared.plan.PlanFault.TheVariants.{NoMemory};

    ghost from_gives = { λ _ e. e ≡ NoMemory };

    fn from(_: AllocError) -> Self {
        PlanFault::NoMemory
    }
}

impl From<WantOfMemory> for PlanFault {
    ghost use Rattle.placement.specs.declared.plan.PlanFault.TheVariants.{NoMemory};

    ghost from_gives = { λ _ e. e ≡ NoMemory };

    fn from(_: WantOfMemory) -> Self {
        PlanFault::NoMemory
    }
}

/// A place for each word of an object, so that the words of each hart, those of many and those of
/// none stand on lines of their own, behind all accesses.
///
/// Contracts see the object, the places of its words in their order, where the area begins and how
/// long it is, and the lines of the words of many harts.
#[derive(Drop)]
pub struct Plan {
    extent: Extent,
    places: Vec<u32>,
    start: u64,
    size: u64,
    many: Option<Range>,
}

impl Model for Plan {
    ghost use Rattle.std.specs.Prelude.{◌≡◌, length};
    ghost use Rattle.placement.specs.Plans.{ArePlaces, Planned};
    ghost use Rattle.placement.specs.Words.{word_count};

    ghost Value = { Planned };

    ghost view = { λ p. record {
      extent = p.extent;
      places = p.places.items;
      start = p.start;
      size = p.size;
      many = p.many;
    } };

    ghost invariant = { λ p. (length p.places.items ≡ word_count p.extent)
        × ArePlaces p.places.items };
}

// What a table has at a place.
#[inline(always)]
fn entry(table: &Vec<u64>, at: usize) -> u64
    requires { at < length table.now.items }
    ensures { Some result ≡ slice_get table.now.items at }
{
    table[at]
}

// The next place of a group, and 4 bytes less for those that follow.
#[inline(always)]
fn take_place(next: &mut Vec<u64>, group: usize) -> u64
    requires within { group < length next.old.items }
    requires few { (at : ℕ) → slice_get next.old.items group ≡ Some at → at < 2 ^ 60 }
    ensures taken { Some result ≡ slice_get next.old.items group }
    ensures next { next.new.items ≡ slice_set next.old.items group (result + 4) }
{
    let at = next[group];
    next[group] = at + 4;
    at
}

// The places of the words, from where each group begins.
fn places_of(
    alloc: Global,
    line: u64,
    start: u64,
    owners: &[Owner],
    mut next: Vec<u64>,
) -> Result<Vec<u32>, WantOfMemory>
    requires some { 0 < line }
    requires short { length owners.now ≤ 2 ^ 23 }
    requires whole { line % 4 ≡ 0 }
    requires even { start % 4 ≡ 0 }
    requires starts { next.items
        ≡ map (λ g. start + group_start line owners.now g) (below (suc group_count)) }
    requires fits { start + area_length line owners.now ≤ 2 ^ 32 }
    ensures places { IfOk result (λ places. places.items
        ≡ map (place_from line start owners.now) (below (length owners.now))) }
    ensures whole { IfOk result (λ places. ArePlaces places.items) }
{
    let mut places = Vec::new(alloc);
    for owner in owners {
        let place = take_place(&mut next, group_of(*owner));
        places.push(place as u32)?;
    }
    Ok(places)
}

// The range of so many bytes from a number on.
fn lines_at(begin: u64, size: u64) -> Range
    requires early { begin < 2 ^ 60 }
    requires short { size < 2 ^ 32 }
    ensures { result ≡ record { base = pos begin; size = size } }
{
    Range {
        base: begin.cast_signed(),
        size: size as u32,
    }
}

// The lines of the words of many harts.
fn many_range(
    line: u64,
    start: u64,
    owners: &[Owner],
    sizes: &Vec<u64>,
    starts: &Vec<u64>,
) -> Option<Range>
    requires some { 0 < line }
    requires few { line ≤ 1024 }
    requires early { start ≤ 2 ^ 33 }
    requires short { length owners.now ≤ 2 ^ 23 }
    requires sizes { sizes.now.items ≡ map (group_size owners.now) (below group_count) }
    requires starts { starts.now.items
        ≡ map (λ g. start + group_start line owners.now g) (below (suc group_count)) }
    ensures { result ≡ lines_from line start owners.now }
{
    let group = many_group();
    let size = entry(sizes, group);
    if size == 0 {
        return None;
    }
    Some(lines_at(entry(starts, group), room_of(line, size)))
}

// Where the area ends.
fn area_end(line: u64, start: u64, owners: &[Owner], starts: &Vec<u64>) -> u64
    requires starts { starts.now.items
        ≡ map (λ g. start + group_start line owners.now g) (below (suc group_count)) }
    ensures { result ≡ start + area_length line owners.now }
{
    let _owners = owners;
    let _area = (line, start);
    entry(starts, group_total())
}

// The places of the words, how long the area is, and the lines of the words of many harts.
#[derive(Drop)]
struct Area {
    places: Vec<u32>,
    size: u64,
    many: Option<Range>,
}

// The area that begins at a number.
fn area_at(alloc: Global, line: u64, start: u64, owners: &[Owner]) -> Result<Area, PlanFault>
    requires some { 0 < line }
    requires few { line ≤ 1024 }
    requires whole { line % 4 ≡ 0 }
    requires even { start % 4 ≡ 0 }
    requires early { start ≤ 2 ^ 33 }
    requires short { length owners.now ≤ 2 ^ 23 }
    ensures places { IfOk result (λ area. area.places.items
        ≡ map (place_from line start owners.now) (below (length owners.now))) }
    ensures whole { IfOk result (λ area. ArePlaces area.places.items) }
    ensures size { IfOk result (λ area. area.size ≡ area_length line owners.now) }
    ensures many { IfOk result (λ area. area.many ≡ lines_from line start owners.now) }
    ensures room { OnOk result (start + area_length line owners.now ≤ 2 ^ 32) }
    ensures no_room { result ≡ Err PlanFault.NoRoom
        → 2 ^ 32 < start + area_length line owners.now }
{
    let sizes = group_sizes(alloc, owners)?;
    let starts = group_starts(alloc, line, start, owners, sizes.as_slice())?;
    let end = area_end(line, start, owners, &starts);
    if end > 1 << 32 {
        return Err(PlanFault::NoRoom);
    }
    let many = many_range(line, start, owners, &sizes, &starts);
    let places = places_of(alloc, line, start, owners, starts)?;
    Ok(Area {
        places,
        size: end - start,
        many,
    })
}

// The place of a word.
#[inline(always)]
fn place_in(places: &Vec<u32>, index: usize) -> Option<u32>
    ensures { result ≡ slice_get places.now.items index }
{
    places.get(index).copied()
}

// The access at the same byte of another word.
#[inline(always)]
fn at_word(access: Access, word: u32) -> Access
    requires whole { word % 4 ≡ 0 }
    requires fits { word + 4 ≤ 2 ^ 32 }
    ensures { result ≡ in_word access word }
{
    let addr = word + access.addr() % 4;
    match Access::of_size(access.hart(), addr, access.kind(), access.size()) {
        Some(moved) => moved,
        None => unreachable!(),
    }
}

impl Plan {
    /// The plan for an object of these owners, under lines of a power of two from 4 to 1024 bytes.
    /// NoRoom comes exactly where the area would end behind 2^32.
    pub fn new(alloc: Global, owners: &Owners, line: u32) -> Result<Plan, PlanFault>
        requires { IsTrue (is_line_size line) }
        ensures made { IfOk result (λ plan. plan ≡ plan_of line owners.now) }
        ensures room { OnOk result (IsTrue (has_room line owners.now)) }
        ensures no_room { result ≡ Err PlanFault.NoRoom → IsFalse (has_room line owners.now) }
    {
        let line = u64::from(line);
        let extent = owners.extent();
        let start = rounded(line, owners.end());
        let area = area_at(alloc, line, start, owners.owners())?;
        Ok(Plan {
            extent,
            places: area.places,
            start,
            size: area.size,
            many: area.many,
        })
    }

    /// Where the word goes that begins at an address: None exactly where it is none of the object's.
    #[inline(always)]
    pub fn place_of(&self, word: u32) -> Option<u32>
        ensures value { result ≡ place_at self.now word }
        ensures whole { IfSome result (λ place. place % 4 ≡ 0) }
        ensures fits { IfSome result (λ place. place + 4 ≤ 2 ^ 32) }
    {
        match index_of(self.extent, word) {
            Some(index) => place_in(&self.places, index),
            None => None,
        }
    }

    /// An access of one of the object's words, at its place; any other as it is.
    #[inline(always)]
    pub fn moved(&self, access: Access) -> Access
        ensures { result ≡ moved self.now access }
    {
        match self.place_of(access.word()) {
            Some(place) => at_word(access, place),
            None => access,
        }
    }

    /// The place of word i of the object, if it has that many.
    pub fn place(&self, i: usize) -> Option<u32>
        ensures { result ≡ slice_get self.now.places i }
    {
        place_in(&self.places, i)
    }

    /// Where the area begins.
    pub fn start(&self) -> u64
        ensures { result ≡ self.now.start }
    {
        self.start
    }

    /// How many bytes the area has.
    pub fn size(&self) -> u64
        ensures { result ≡ self.now.size }
    {
        self.size
    }

    /// Where the area begins, and how many bytes it has.
    pub fn area(&self) -> (u64, u64)
        ensures { result ≡ (self.now.start, self.now.size) }
    {
        (self.start, self.size)
    }

    /// The lines of the words of many harts: None exactly where there is no such word.
    pub fn many(&self) -> Option<Range>
        ensures { result ≡ self.now.many }
    {
        self.many
    }
}
