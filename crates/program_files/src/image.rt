// Placing a program file in memory.
ghost use Rattle.std.specs.Prelude.{◌≡◌, ◌+◌, ◌-◌, ◌*◌, ◌/◌, ◌%◌, ◌^◌, ◌<◌, ◌≤◌, ◌==◌, ℕ, length};
ghost use Rattle.std.specs.Prelude.{slice_index, if◌then◌else◌, None, Some, IfOk};
ghost use Rattle.std.specs.Prelude.{OnOk, IfErr, Err};
ghost use Rattle.std.specs.List.{list_any};
ghost use Rattle.rv32_hart.specs.Space.{byte_at, page_at, size_of, is_among, IsRange};
ghost use Rattle.rv32_hart.specs.Changes.{touches, granted};
ghost use Rattle.program_files.specs.Programs.{segments_of};
ghost use Rattle.program_files.specs.Images.{least, greatest_end, base_of};
ghost use Rattle.program_files.specs.Images.{heap_start_of, has_no_room, runs_at, place_faults};
ghost use Rattle.program_files.specs.Images.{image_byte, IsImage};
ghost use Rattle.program_files.specs.Faults.{first_fault, read_fault};
ghost use Rattle.program_files.specs.PlacedImages.{IsAllowedSpace, place_fault, IsImageOf};
ghost use Rattle.program_files.specs.PlacedImages.{image_of};
ghost use Rattle.program_files.specs.declared.fault.ElfFault.{ElfFault};
ghost use Rattle.program_files.specs.PlacedSegments.{AreApart, AreWithin, with_segments};

use crate::fault::ElfFault;
use crate::program::{Segment, Segments};
use crate::view::ElfView;
use base::NoMemory;
use rv32_hart::Memory;
use std::alloc::Global;

const PF_X: u32 = 1;

const PF_W: u32 = 2;

impl<'a> Segment<'a> {
    fn may_run(&self) -> bool
        ensures { result ≡ (self.now.flags % 2 == 1) }
    {
        self.flags % 2 == PF_X
    }

    fn may_write(&self) -> bool
        ensures { result ≡ (self.now.flags / 2 % 2 == 1) }
    {
        self.flags / PF_W % 2 == 1
    }

    // Whether it touches the address's page.
    fn touches(&self, addr: u32) -> bool
        ensures { result ≡ touches self.now.addr self.now.size addr }
    {
        let last = u64::from(self.addr) + u64::from(self.size);
        self.size > 0
            && self.addr / 4096 <= addr / 4096
            && u64::from(addr) / 4096 <= (last - 1) / 4096
    }
}

// Maps the pages of a segment, and puts its content there.
#[tactic(auto, using(crate::proofs::Placing::same_pages, crate::proofs::Placing::same_bytes))]
fn put_segment(memory: &mut Memory, segment: Segment<'_>)
    requires within { IsRange memory.old segment.addr segment.size }
    requires fits { length segment.content.now ≤ segment.size }
    ensures base { memory.new.base ≡ memory.old.base }
    ensures size { size_of memory.new ≡ size_of memory.old }
    ensures bytes { (a : ℕ) → byte_at memory.new
        a ≡ (if is_among segment.entry.addr (length segment.entry.content.now) a then slice_index
        segment.entry.content.now (a - segment.entry.addr) else byte_at memory.old a) }
    ensures pages { (a : ℕ) → page_at memory.new
        a ≡ (if touches segment.entry.addr segment.entry.size a then granted
        (segment.entry.flags / 2 % 2 == 1) (segment.entry.flags % 2 == 1)
        (page_at memory.old a) else page_at memory.old a) }
{
    memory.map(
        segment.addr,
        segment.size,
        segment.may_write(),
        segment.may_run(),
    );
    memory.fill(segment.addr, segment.content);
}

// Puts segments that are apart into a memory of zeros.
fn put_segments(memory: &mut Memory, mut segments: Segments<'_>)
    requires zero { (a : ℕ) → byte_at memory.old a ≡ 0 }
    requires apart { AreApart segments }
    requires within { AreWithin memory.old.base (memory.old.base + size_of memory.old) segments }
    ensures base { memory.new.base ≡ memory.old.base }
    ensures size { size_of memory.new ≡ size_of memory.old }
    ensures bytes { (a : ℕ) → byte_at memory.new a ≡ image_byte segments.entry a }
    ensures pages { (a : ℕ) → page_at memory.new a ≡ with_segments segments.entry a
        (page_at memory.old a) }
{
    while let Some(segment) = segments.next() {
        put_segment(memory, segment);
    }
}

// The least address and the greatest end of segments.
#[tactic(auto, using(crate::proofs::Placing::least_low))]
fn extent_of(mut segments: Segments<'_>) -> (u64, u64)
    ensures least { result.0 ≡ least segments.entry }
    ensures end { result.1 ≡ greatest_end segments.entry }
    ensures end_low { result.1 ≤ 2 ^ 33 }
{
    let mut first: u64 = 1 << 32;
    let mut end: u64 = 0;
    while let Some(segment) = segments.next() {
        first = first.min(u64::from(segment.addr));
        end = end.max(u64::from(segment.addr) + u64::from(segment.size));
    }
    (first, end)
}

fn some_runs_at(mut segments: Segments<'_>, addr: u32) -> bool
    ensures { result ≡ list_any (runs_at addr) segments.entry }
{
    while let Some(segment) = segments.next() {
        if segment.may_run() && segment.touches(addr) {
            return true;
        }
    }
    false
}

/// How much memory a guest gets.
#[derive(Clone, Copy, Debug)]
pub struct Space {
    /// Bytes in all: 64 KiB to 64 MiB, a multiple of 4096.
    pub memory: u32,
    /// Bytes of each hart's stack: 4 KiB to 1 MiB, a multiple of 4096.
    pub stack: u32,
    /// How many harts there are: 1 to 256.
    pub harts: u16,
}

/// A program in memory, with its heap behind it and the stacks at the top.
#[derive(Drop)]
pub struct Image {
    /// The memory, from the page of the first segment to the top.
    pub memory: Memory,
    /// The address of the first instruction.
    pub entry: u32,
    /// Where the heap begins: the page behind the last segment.
    pub heap_start: u32,
    /// Where the heap ends and the last hart's stack begins.
    pub heap_end: u32,
    /// Where the memory ends. The stack of hart h ends at `top - h * stack`.
    pub top: u32,
    /// Bytes of each stack.
    pub stack: u32,
    /// How many harts there are.
    pub harts: u16,
}

/// Why a program file is not placed.
#[derive(Clone, Copy, PartialEq, Eq, Debug)]
pub enum PlaceFault {
    /// The file's first fault of `SegmentOutsideMemory`, `EntryMisaligned` and
    /// `EntryNotExecutable`.
    Refused(ElfFault),
    /// Memory ran out.
    NoMemory,
}

impl From<NoMemory> for PlaceFault {
    ghost use Rattle.std.specs.Prelude.{◌≡◌};
    ghost use Rattle.program_files.specs.declared.image.PlaceFault.TheVariants.{NoMemory as short};

    ghost from_gives = { λ _ e. e ≡ short };

    fn from(_: NoMemory) -> Self {
        PlaceFault::NoMemory
    }
}

// Whether the memory ends too high, or has no room for the segments and the stacks.
#[tactic(auto, using(std::proofs::lemmas::Bool::Decides::nat_tests))]
fn has_no_room(view: &ElfView<'_>, memory: u32, stacks: u32) -> bool
    requires { memory < 2 ^ 31 }
    ensures { result ≡ has_no_room memory stacks (segments_of view.now) }
{
    if view.segments().next().is_none() {
        return false;
    }
    let (first, end) = extent_of(view.segments());
    let top = first / 4096 * 4096 + u64::from(memory);
    let heap_start = (end + 4095) / 4096 * 4096;
    top > 0xffff_f000 || heap_start + u64::from(stacks) > top
}

// How many bytes all stacks have.
fn stacks_of(space: Space) -> u32
    requires { IsAllowedSpace space }
    ensures { result ≡ space.harts * space.stack }
{
    u32::from(space.harts) * space.stack
}

/// The first of `SegmentOutsideMemory`, `EntryMisaligned` and `EntryNotExecutable` that a program
/// file has in a space, for which `place` refuses it. It takes no memory.
pub fn place_fault(view: &ElfView<'_>, space: Space) -> Option<ElfFault>
    requires { IsAllowedSpace space }
    ensures { result ≡ place_fault space view.now }
{
    if has_no_room(view, space.memory, stacks_of(space)) {
        Some(ElfFault::SegmentOutsideMemory)
    } else if view.entry() % 4 != 0 {
        Some(ElfFault::EntryMisaligned)
    } else if !some_runs_at(view.segments(), view.entry()) {
        Some(ElfFault::EntryNotExecutable)
    } else {
        None
    }
}

// The memory of an image, whose base, heap and size are those of the segments and the space.
#[tactic(auto, using(crate::proofs::Placing::all_within, crate::proofs::FirstFaults::view_apart))]
fn image_memory(
    alloc: Global,
    view: &ElfView<'_>,
    base: u32,
    size: u32,
    heap_start: u32,
) -> Result<Memory, NoMemory>
    requires accepted { read_fault view.now ≡ None }
    requires base { base ≡ base_of (segments_of view.now) }
    requires heap { heap_start ≡ heap_start_of (segments_of view.now) }
    requires some { 0 < size }
    requires pages { size % 4096 ≡ 0 }
    requires low { base ≤ heap_start }
    requires room { heap_start ≤ base + size }
    requires high { base + size ≤ 0xfffff000 }
    ensures { IfOk result (λ memory. IsImage (segments_of view.now) size memory) }
{
    let mut memory = Memory::new(alloc, base, size)?;
    put_segments(&mut memory, view.segments());
    memory.map(heap_start, base + size - heap_start, true, false);
    Ok(memory)
}

// The base of the memory and the beginning of the heap, of a file that has no fault there.
#[tactic(auto, using(crate::proofs::Rooms::rooms))]
fn places_of(view: &ElfView<'_>, memory: u32, stacks: u32) -> (u32, u32)
    requires { first_fault (place_faults memory stacks) view.now ≡ None }
    ensures base { result.0 ≡ base_of (segments_of view.now) }
    ensures heap { result.1 ≡ heap_start_of (segments_of view.now) }
    ensures low { result.0 ≤ result.1 }
    ensures room { result.1 + stacks ≤ result.0 + memory }
    ensures high { result.0 + memory ≤ 0xfffff000 }
{
    let (first, end) = extent_of(view.segments());
    let base = first / 4096 * 4096;
    let heap_start = (end + 4095) / 4096 * 4096;
    (base as u32, heap_start as u32)
}

/// Places a program file in memory: its segments with their rights, the heap behind them, and the
/// stacks at the top.
/// It takes memory for all of the space, once it has judged all faults.
///
/// Refused with the first fault of `SegmentOutsideMemory`, `EntryMisaligned` and
/// `EntryNotExecutable`. A file that has one is never answered with NoMemory.
pub fn place(alloc: Global, view: &ElfView<'_>, space: Space) -> Result<Image, PlaceFault>
    requires { IsAllowedSpace space }

    // Placed exactly where there is no fault, and else refused with the first one, unless memory
    // runs out.
    ensures accepted { OnOk result (place_fault space view.now ≡ None) }
    ensures refused { IfErr result (λ fault. (e : ElfFault) → fault ≡ PlaceFault.Refused e
        → place_fault space view.now ≡ Some e) }

    // Memory runs out only at a file without a fault: all faults are judged before any is taken.
    ensures memory { result ≡ Err PlaceFault.NoMemory → place_fault space view.now ≡ None }
    ensures judged { (e : ElfFault) → place_fault space view.now ≡ Some e
        → result ≡ Err (PlaceFault.Refused e) }

    // What is placed is the image, said address by address and as a value.
    ensures placed { IfOk result (λ image. IsImageOf view.now space image) }
    ensures whole { IfOk result (λ image. image ≡ image_of space view.now) }

    // A guest can start in it: at a whole instruction, with a heap of whole blocks below the
    // stacks.
    ensures entry { IfOk result (λ image. image.entry % 4 ≡ 0) }
    ensures heap_start { IfOk result (λ image. image.heap_start % 16 ≡ 0) }
    ensures heap_end { IfOk result (λ image. image.heap_end % 16 ≡ 0) }
    ensures heap { IfOk result (λ image. image.heap_start ≤ image.heap_end) }
    ensures stacks { IfOk result (λ image. image.heap_end + image.harts * image.stack ≡ image.top) }
{
    if let Some(fault) = place_fault(view, space) {
        return Err(PlaceFault::Refused(fault));
    }
    let stacks = stacks_of(space);
    let entry = view.entry();
    let (base, heap_start) = places_of(view, space.memory, stacks);
    let memory = match image_memory(alloc, view, base, space.memory, heap_start) {
        Ok(memory) => memory,
        Err(NoMemory) => return Err(PlaceFault::NoMemory),
    };
    let top = memory.base() + memory.size();
    Ok(Image {
        memory,
        entry,
        heap_start,
        heap_end: top - stacks,
        top,
        stack: space.stack,
        harts: space.harts,
    })
}
