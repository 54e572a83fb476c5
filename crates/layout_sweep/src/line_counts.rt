// The lines of one layout.
ghost use Rattle.std.specs.Prelude.{◌≡◌, ◌≢◌, ℕ, ◌+◌, ◌%◌, ◌<◌, ◌≤◌, ◌^◌, [], ◌∷◌, ◌++◌, vec_len};
ghost use Rattle.std.specs.Prelude.{IsTrue, OnErr, OnOk, if◌then◌else◌};
ghost use Rattle.base.specs.Lines.{line_number};
ghost use Rattle.base.specs.Touch.{is_write};
ghost use Rattle.sharing_rules.specs.AccessLists.{AccessList};
ghost use Rattle.layout_sweep.specs.Pages.{has_window, window_at, window_in};
ghost use Rattle.layout_sweep.specs.Windows.{BeginsLine, takes, window_after, window_of};

use crate::pages::{PAGE_WINDOWS, Page, has_page, make_page};
use base::{Access, NoMemory};
use std::alloc::Global;

/// The invalidations of the lines of one size that begin at its multiples, of each line since its
/// first write.
#[derive(Drop)]
pub struct LineCounts {
    size: u32,
    total: u64,
    pages: Vec<Page>,
    alloc: Global,
    pub ghost some: { 0 < size },
    pub ghost whole: { size % 4 ≡ 0 },
}

// The number of an address's line.
#[inline(always)]
fn number_of(size: u32, addr: u32) -> u64
    requires { 0 < size }
    ensures { result ≡ line_number size 0 addr }
{
    let size = u64::from(size);
    let place = u64::from(addr) + size;
    // Most lines have 64 bytes, and a shift takes less time than a division.
    if size == 64 { place / 64 } else { place / size }
}

// An access in the window at a place of a page: true exactly where it takes it from another hart.
// Where nothing is there yet, a read changes nothing.
#[inline(always)]
fn note_place(page: &mut Page, place: usize, access: Access) -> bool
    requires made { IsTrue (is_write access.kind) → place < vec_len page.old }
    ensures here { window_in page.new.items place
        ≡ window_after (window_in page.old.items place) access }
    ensures others { (q : ℕ) → q ≢ place
        → window_in page.new.items q ≡ window_in page.old.items q }
    ensures taken { result ≡ takes (window_in page.old.items place) access }
{
    match page.get_mut(place) {
        Some(window) => window.note(access),
        None => false,
    }
}

// The same in a window of all.
#[inline(always)]
fn note_window(pages: &mut Vec<Page>, window: u64, access: Access) -> bool
    requires made { IsTrue (is_write access.kind) → IsTrue (has_window pages.old.items window) }
    ensures here { window_at pages.new.items window
        ≡ window_after (window_at pages.old.items window) access }
    ensures others { (q : ℕ) → q ≢ window
        → window_at pages.new.items q ≡ window_at pages.old.items q }
    ensures taken { result ≡ takes (window_at pages.old.items window) access }
{
    let number = (window / PAGE_WINDOWS) as usize;
    let place = (window % PAGE_WINDOWS) as usize;
    if has_page(pages, number) {
        note_place(&mut pages[number], place, access)
    } else {
        false
    }
}

// One more, if a line was taken.
#[inline(always)]
fn count(total: &mut u64, taken: bool)
    requires { total.old < 2 ^ 60 }
    ensures value { total.new ≡ (if taken then total.old + 1 else total.old) }
    ensures few { total.new ≤ total.old + 1 }
{
    if taken {
        *total += 1;
    }
}

impl LineCounts {
    ghost use Rattle.sharing_rules.specs.Lines.{line_at, native_grid};
    ghost use Rattle.layout_sweep.specs.Standing.{CanNote, HasCounted};

    /// No access so far. The size is a multiple of 4 above 0.
    pub fn new(alloc: Global, size: u32) -> LineCounts
        requires some { 0 < size }
        requires whole { size % 4 ≡ 0 }
        ensures size { result.size ≡ size }
        ensures total { result.total ≡ 0 }
        ensures counts { HasCounted [] result }
    {
        LineCounts {
            size,
            total: 0,
            pages: Vec::new(alloc),
            alloc,
        }
    }

    /// How many bytes a line has.
    #[inline(always)]
    pub fn size(&self) -> u32
        ensures { result ≡ self.now.size }
    {
        self.size
    }

    /// How many invalidations there were.
    pub fn total(&self) -> u64
        ensures { result ≡ self.now.total }
    {
        self.total
    }

    /// Makes what an access needs. It takes memory only for the first write of a line, and NoMemory
    /// leaves every meaning as it was.
    #[inline(always)]
    pub fn make_room(&mut self, access: Access) -> Result<(), NoMemory>
        ensures room { OnOk result (CanNote self.new access) }
        ensures size { self.new.size ≡ self.old.size }
        ensures total { self.new.total ≡ self.old.total }
        ensures same { (t : AccessList) → HasCounted t self.old → HasCounted t self.new }
        ensures known { (t : AccessList) → HasCounted t self.old
            → OnErr result (BeginsLine self.old.size t access) }
    {
        if access.kind().is_write() {
            let line = number_of(self.size, access.addr());
            make_page(&mut self.pages, line, self.alloc)
        } else {
            Ok(())
        }
    }

    /// Notes the next access: true exactly where it is a write that takes its line from another
    /// hart, once the line was written.
    #[inline(always)]
    pub fn note(&mut self, access: Access) -> bool
        requires room { CanNote self.old access }
        requires few { self.old.total < 2 ^ 60 }
        ensures counts { (t : AccessList) → HasCounted t self.old
            → HasCounted (t ++ access ∷ []) self.new }
        ensures taken { (t : AccessList) → HasCounted t self.old → result
            ≡ takes (window_of (line_at (native_grid self.old.size) access.addr) t) access }
        ensures size { self.new.size ≡ self.old.size }
        ensures few { self.new.total ≤ self.old.total + 1 }
    {
        let line = number_of(self.size, access.addr());
        let taken = note_window(&mut self.pages, line, access);
        count(&mut self.total, taken);
        taken
    }
}
