// The memory of a guest.
ghost use Rattle.std.specs.Prelude.{◌≡◌, ◌⊎◌, ℕ, ◌+◌, ◌-◌, ◌*◌, ◌%◌, ◌^◌, ◌<◌, ◌≤◌, ◌↔◌, ◌&&◌};
ghost use Rattle.std.specs.Prelude.{if◌then◌else◌, nat_le, nat_lt, slice_index_or, length, IsTrue};
ghost use Rattle.std.specs.Prelude.{IfSome, IfNone, IfOk, OnOk, OnErr, OnSome, IfErr, None, Some};
ghost use Rattle.std.specs.Prelude.{Ok, false};
ghost use Rattle.std.specs.Bool.{OnTrue, OnFalse};
ghost use Rattle.rv32_hart.specs.Bytes.{IsSize};
ghost use Rattle.rv32_hart.specs.Space.{IsSpace, IsRange, AllMapped, SomeUnmapped, space};
ghost use Rattle.rv32_hart.specs.Space.{IsFresh, size_of, page_at, byte_at, bytes_at, no_page};
ghost use Rattle.rv32_hart.specs.Faults.{load_fault, store_fault, loaded, fetched};
ghost use Rattle.rv32_hart.specs.Changes.{stored, granted, Maps, Fills};
ghost use Rattle.rv32_hart.specs.KeptInstructions.{instr_at, trap_of};

use crate::bytes::{number_of, put_number};
use crate::kept::{KeptInstr, PLACES, empty_places, forget_all, forget_word, keeps, slot_of};
use crate::page::{MemFault, Page};
use base::{Cause, NoMemory};
use rv32_decode::Instr;
use std::alloc::Global;
use std::marker::Model;

/// Memory of whole pages of 4096 bytes, from a base on.
///
/// Contracts see its base, its bytes and its pages' rights, mostly as the byte and the rights at
/// an address. Decoded instructions are kept, and never returned stale: whoever stores to the bytes
/// of one, the next step there has the new one.
#[derive(Drop)]
pub struct Memory {
    base: u32,
    bytes: Vec<u8>,
    pages: Vec<Page>,
    kept: Vec<KeptInstr>,
}

impl Model for Memory {
    ghost use Rattle.rv32_hart.specs.Space.{Space};
    ghost use Rattle.rv32_hart.specs.KeptInstructions.{IsKeeping};

    ghost Value = { Space };

    ghost view = { λ m. record { base = m.base; bytes = m.bytes.items; pages = m.pages.items } };

    ghost invariant = { λ m. IsKeeping (record {
      base = m.base;
      bytes = m.bytes.items;
      pages = m.pages.items;
    }) m.kept.items };
}

// Making it, and its place.
impl Memory {
    /// Memory of `size` bytes from `base` on, both multiples of 4096: all zero, and no page
    /// mapped.
    #[tactic(auto, using(crate::proofs::Freshness::fresh, crate::proofs::Rights::fresh_rights))]
    pub fn new(alloc: Global, base: u32, size: u32) -> Result<Memory, NoMemory>
        requires base { base % 4096 ≡ 0 }
        requires size { size % 4096 ≡ 0 }
        requires some { 0 < size }
        requires room { base + size ≤ 0xfffff000 }
        ensures { IfOk result (λ m. IsFresh m base size) }
    {
        let bytes = vec![in alloc; 0; size as usize]?;
        let pages = vec![in alloc; Page::NONE; (size / 4096) as usize]?;
        let kept = empty_places(alloc, PLACES)?;
        Ok(Memory {
            base,
            bytes,
            pages,
            kept,
        })
    }

    /// The first address, a multiple of 4096.
    pub fn base(&self) -> u32
        ensures value { result ≡ self.now.base }
        ensures aligned { result % 4096 ≡ 0 }
    {
        self.base
    }

    /// How many bytes there are, a multiple of 4096. The last address is below 0xfffff000.
    pub fn size(&self) -> u32
        ensures value { result ≡ size_of self.now }
        ensures aligned { result % 4096 ≡ 0 }
        ensures room { self.now.base + result ≤ 0xfffff000 }
        ensures pages { result ≡ 4096 * length self.now.pages }
    {
        self.bytes.len() as u32
    }
}

// Mapping and filling, which ask for no rights.
impl Memory {
    /// Maps each page that the `len` bytes from `at` on touch. A page keeps the rights that it has,
    /// and gains those that are given. Its bytes stay, and all other pages.
    pub fn map(&mut self, at: u32, len: u32, writable: bool, executable: bool)
        requires { IsRange self.old at len }
        ensures { Maps self.old self.new at len writable executable }
    {
        if len == 0 {
            return;
        }
        let first = ((at - self.base) / 4096) as usize;
        let last = ((at - self.base + (len - 1)) / 4096) as usize;
        grant(&mut self.pages, first, last + 1, writable, executable);
    }

    /// Puts the content at `at`, whatever the rights there. All else stays.
    pub fn fill(&mut self, at: u32, content: &[u8])
        requires { IsRange self.old at (length content.now) }
        ensures { Fills self.old self.new at content.now }
    {
        let from = (at - self.base) as usize;
        self.bytes[from..from + content.len()].copy_from_slice(content);
        forget_all(&mut self.kept);
    }
}

// Gives the pages from first on and before end these rights.
fn grant(pages: &mut [Page], first: usize, end: usize, writable: bool, executable: bool)
    requires order { first ≤ end }
    requires within { end ≤ length pages.old }
    ensures { (k : ℕ) → slice_index_or pages.new k
        no_page ≡ (if nat_le first k && nat_lt k end then granted writable executable
        (slice_index_or pages.old k no_page) else slice_index_or pages.old k no_page) }
{
    for i in first..end {
        let page = pages[i];
        pages[i] = Page {
            mapped: true,
            writable: page.writable || writable,
            executable: page.executable || executable,
        };
    }
}

#[inline]
fn page_in(pages: &[Page], number: usize) -> Page
    ensures { result ≡ slice_index_or pages.now number no_page }
{
    match pages.get(number) {
        Some(page) => *page,
        None => Page::NONE,
    }
}

/// The word at `pc`, a multiple of 4, or why it is not fetched.
#[tactic(auto, using(crate::proofs::LoadedNumbers::fetching))]
pub(crate) fn word_in(base: u32, bytes: &[u8], pages: &[Page], pc: u32) -> Result<u32, MemFault>
    requires space { IsSpace (space base bytes.now pages.now) }
    requires aligned { pc % 4 ≡ 0 }
    ensures { result ≡ fetched (space base bytes.now pages.now) pc }
{
    let page = page_in(pages, (pc.wrapping_sub(base) / 4096) as usize);
    if page.executable {
        Ok(number_of(bytes, (pc - base) as usize, 4))
    } else if page.mapped {
        Err(MemFault::NotExecutable)
    } else {
        Err(MemFault::Outside)
    }
}

// Whether the pages from first on and before end are mapped.
fn are_mapped(pages: &[Page], first: usize, end: usize) -> bool
    ensures mapped { OnTrue result ((k : ℕ) → first ≤ k → k < end
        → IsTrue (slice_index_or pages.now k no_page).mapped) }
    ensures unmapped { OnFalse result ((k : ℕ) × (first ≤ k) × (k < end)
        × ((slice_index_or pages.now k no_page).mapped ≡ false)) }
{
    for number in first..end {
        if !page_in(pages, number).mapped {
            return false;
        }
    }
    true
}

// Rights.
impl Memory {
    #[inline]
    #[tactic(auto, using(crate::proofs::Within::page_by_place, crate::proofs::Rights::rightful_at))]
    fn page_of(&self, addr: u32) -> Page
        ensures page { result ≡ page_at self.now addr }
        ensures writable { IsTrue result.writable → IsTrue result.mapped }
        ensures executable { IsTrue result.executable → IsTrue result.mapped }
    {
        // Below the base this is past the last page.
        page_in(&self.pages, (addr.wrapping_sub(self.base) / 4096) as usize)
    }

    /// Whether the address's page is mapped and executable.
    pub fn executable(&self, addr: u32) -> bool
        ensures { IsTrue result ↔ (IsTrue (page_at self.now addr).mapped
            × IsTrue (page_at self.now addr).executable) }
    {
        let page = self.page_of(addr);
        page.mapped && page.executable
    }

    fn load_fault(&self, addr: u32, size: u8) -> Option<MemFault>
        requires { IsSize size }
        ensures { result ≡ load_fault self.now addr size }
    {
        if addr % u32::from(size) != 0 {
            Some(MemFault::Misaligned)
        } else if !self.page_of(addr).mapped {
            Some(MemFault::Outside)
        } else {
            None
        }
    }

    /// The fault that a store of `size` bytes, 1, 2 or 4, would have at `addr`, and None where it
    /// would be made.
    #[inline(always)]
    pub fn store_fault(&self, addr: u32, size: u8) -> Option<MemFault>
        requires { IsSize size }
        ensures { result ≡ store_fault self.now addr size }
    {
        let page = self.page_of(addr);
        if addr % u32::from(size) != 0 {
            Some(MemFault::Misaligned)
        } else if page.writable {
            None
        } else if page.mapped {
            Some(MemFault::ReadOnly)
        } else {
            Some(MemFault::Outside)
        }
    }
}

// Accesses.
impl Memory {
    // Where an access that is not refused lies among the bytes.
    #[tactic(auto, using(crate::proofs::Within::inside))]
    fn byte_index(&self, addr: u32, size: u8) -> usize
        requires size { IsSize size }
        requires aligned { addr % size ≡ 0 }
        requires mapped { IsTrue (page_at self.now addr).mapped }
        ensures above { self.now.base ≤ addr }
        ensures same { result ≡ addr - self.now.base }
        ensures within { result + size ≤ length self.now.bytes }
    {
        (addr - self.base) as usize
    }

    // Where the `len` addresses from `addr` on lie among the bytes, if each is in a mapped page.
    #[tactic(auto, using(crate::proofs::Slices::all_mapped, crate::proofs::Slices::some_unmapped, crate::proofs::Slices::within))]
    fn range_of(&self, addr: u32, len: u32) -> Option<usize>
        requires { 0 < len }
        ensures above { OnSome result (self.now.base ≤ addr) }
        ensures same { IfSome result (λ at. at ≡ addr - self.now.base) }
        ensures within { IfSome result (λ at. at + len ≤ length self.now.bytes) }
        ensures mapped { OnSome result (AllMapped self.now addr len) }
        ensures unmapped { IfNone result (SomeUnmapped self.now addr len) }
    {
        if addr < self.base {
            return None;
        }
        let at = (addr - self.base) as usize;
        if !are_mapped(&self.pages, at / 4096, (at + (len as usize - 1)) / 4096 + 1) {
            return None;
        }
        Some(at)
    }

    /// The `len` bytes from `addr` on: None exactly where one of them is in no mapped page. No
    /// bytes may stand anywhere.
    #[tactic(auto, using(crate::proofs::Slices::bytes_at_place))]
    pub fn slice(&self, addr: u32, len: u32) -> Option<&[u8]>
        ensures bytes { IfSome result (λ bytes. bytes.now ≡ bytes_at self.now addr len) }
        ensures mapped { OnSome result (AllMapped self.now addr len) }
        ensures unmapped { IfNone result (SomeUnmapped self.now addr len) }
    {
        if len == 0 {
            return Some(&[]);
        }
        let at = self.range_of(addr, len)?;
        Some(&self.bytes[at..at + len as usize])
    }

    /// The number that the `size` bytes at `addr` make, the low byte first; `size` is 1, 2 or 4.
    /// Refused as Misaligned and Outside.
    #[tactic(auto, using(crate::proofs::LoadedNumbers::number_at_place))]
    #[inline(always)]
    pub fn load(&self, addr: u32, size: u8) -> Result<u32, MemFault>
        requires { IsSize size }
        ensures value { result ≡ loaded self.now addr size }
        ensures below { IfOk result (λ value. value < 256 ^ size) }
        ensures aligned { OnOk result (addr % size ≡ 0) }
    {
        if let Some(fault) = self.load_fault(addr, size) {
            return Err(fault);
        }
        let at = self.byte_index(addr, size);
        Ok(number_of(&self.bytes, at, size))
    }

    /// The word at `pc`. Refused as Misaligned, Outside and NotExecutable.
    pub fn fetch(&self, pc: u32) -> Result<u32, MemFault>
        ensures { result ≡ fetched self.now pc }
    {
        if pc % 4 != 0 {
            return Err(MemFault::Misaligned);
        }
        word_in(self.base, &self.bytes, &self.pages, pc)
    }

    /// The instruction at `pc`, or the trap of a step there. It is decoded once, until its word is
    /// stored to, memory is filled, or another instruction takes its place.
    #[inline(always)]
    pub(crate) fn instr_at(&mut self, pc: u32) -> Result<Instr, Cause>
        requires { pc % 4 ≡ 0 }
        ensures instr { result ≡ instr_at self.old pc }
        ensures unchanged { self.new ≡ self.old }
    {
        if !keeps(self.base, &self.bytes, &self.pages, &mut self.kept, pc) {
            return Err(self.trap_at(pc));
        }
        let found = self.kept[slot_of(pc)];
        Ok(found.instr)
    }

    // The trap at a `pc` where no instruction is.
    #[cold]
    fn trap_at(&self, pc: u32) -> Cause
        requires { pc % 4 ≡ 0 }
        ensures { result ≡ trap_of (fetched self.now pc) }
    {
        match self.fetch(pc) {
            Ok(_) => Cause::Illegal,
            Err(_) => Cause::FetchOutside,
        }
    }

    /// Stores the low `size` bytes of the value at `addr`, the lowest first; `size` is 1, 2 or 4.
    /// Refused as Misaligned, Outside and ReadOnly.
    #[tactic(auto, using(crate::proofs::Stores::keeps_others, crate::proofs::Stores::gives_stored, crate::proofs::Stores::above_base))]
    #[inline(always)]
    pub fn store(&mut self, addr: u32, size: u8, value: u32) -> Result<(), MemFault>
        requires { IsSize size }

        // Accepted exactly where there is no fault, and else refused with it.
        ensures accepted { OnOk result (store_fault self.old addr size ≡ None) }
        ensures aligned { OnOk result (addr % size ≡ 0) }
        ensures refused { IfErr result (λ fault. store_fault self.old addr size ≡ Some fault) }
        ensures unchanged { OnErr result (self.new ≡ self.old) }

        // The bytes of the store are the value's, and no other byte changes.
        ensures stored { OnOk result (self.new ≡ stored self.old addr size value) }
        ensures others { (b : ℕ) → (b < addr) ⊎ (addr + size ≤ b)
            → byte_at self.new b ≡ byte_at self.old b }
        ensures again { OnOk result (loaded self.new addr size ≡ Ok (value % 256 ^ size)) }
    {
        if let Some(fault) = self.store_fault(addr, size) {
            return Err(fault);
        }
        self.put(addr, size, value);
        Ok(())
    }

    // A store that has no fault.
    fn put(&mut self, addr: u32, size: u8, value: u32)
        requires size { IsSize size }
        requires accepted { store_fault self.old addr size ≡ None }
        ensures space { IsSpace self.old }
        ensures stored { self.new ≡ stored self.old addr size value }
    {
        let at = self.byte_index(addr, size);
        let executable = self.page_of(addr).executable;
        forget_word(&mut self.kept, addr, executable);
        put_number(&mut self.bytes, at, size, value);
    }
}
