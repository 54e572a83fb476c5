// Pages of 64 entries, and directories of 4096 pages. One that is not there yet is an empty `Vec`.
ghost use Rattle.std.specs.Prelude.{◌≡◌, ℕ, ◌<◌, ◌≤◌, false, IsTrue, OnOk, OnErr, vec_len};
ghost use Rattle.detector.specs.Entries.{blank_entry};
ghost use Rattle.detector.specs.Lending.{KeepsPlaces};
ghost use Rattle.detector.specs.Pages.{IsNext, directory_entry, has_line, items_at};
ghost use Rattle.detector.specs.Pages.{page_entry};

use crate::line_entry::{BLANK, LineEntry};
use base::NoMemory;
use std::alloc::Global;

/// The entries of 64 lines in a row.
pub type Page = Vec<LineEntry>;

/// The pages of 2^18 lines in a row.
pub type Directory = Vec<Page>;

/// How many lines a page has.
pub const PAGE_LINES: usize = 64;

/// How many pages a directory has.
pub const DIRECTORY_PAGES: usize = 4096;

/// How many lines a directory has.
pub const DIRECTORY_LINES: u64 = (PAGE_LINES * DIRECTORY_PAGES) as u64;

/// How many directories hold the lines up to 2^30.
pub const DIRECTORIES: usize = 4097;

/// Appends empty vectors until there is one at a place. It is refused only where there was none.
#[inline(always)]
pub fn reach<T: Drop>(all: &mut Vec<Vec<T>>, place: usize, alloc: Global) -> Result<(), NoMemory>
    ensures same { (k : ℕ) → items_at all.new.items k ≡ items_at all.old.items k }
    ensures reached { OnOk result (place < vec_len all.new) }
    ensures refused { OnErr result (vec_len all.old ≤ place) }
{
    while all.len() <= place {
        if all.push(Vec::new(alloc)).is_err() {
            return Err(NoMemory);
        }
    }
    Ok(())
}

/// Fills a page up to 64 entries where it has none at a place.
#[inline(always)]
pub fn fill_page(page: &mut Page, place: usize) -> Result<(), NoMemory>
    requires { place < 64 }
    ensures same { (k : ℕ) → page_entry page.new.items k ≡ page_entry page.old.items k }
    ensures grown { vec_len page.old ≤ vec_len page.new }
    ensures filled { OnOk result (place < vec_len page.new) }
    ensures refused { OnErr result (vec_len page.old ≤ place) }
{
    if place < page.len() {
        return Ok(());
    }
    match page.resize(PAGE_LINES, BLANK) {
        Ok(()) => Ok(()),
        Err(_) => Err(NoMemory),
    }
}

/// Gives a line of a directory a place in a page.
#[inline(always)]
pub fn make_page(directory: &mut Directory, place: usize, alloc: Global) -> Result<(), NoMemory>
    ensures same { (k : ℕ) → directory_entry directory.new.items k ≡ directory_entry
        directory.old.items k }
    ensures keeps { KeepsPlaces (has_line directory.old.items) (has_line directory.new.items) }
    ensures placed { OnOk result (IsTrue (has_line directory.new.items place)) }
    ensures unplaced { OnErr result (has_line directory.old.items place ≡ false) }
    ensures blank { OnErr result (directory_entry directory.old.items place ≡ blank_entry) }
{
    let number = place / PAGE_LINES;
    match reach(directory, number, alloc) {
        Ok(()) => fill_page(&mut directory[number], place % PAGE_LINES),
        Err(refused) => Err(refused),
    }
}

/// The first place of a page from `from` on that was written.
pub fn next_in_page(page: &Page, from: usize) -> Option<usize>
    ensures { IsNext (page_entry page.now.items) from 64 result }
{
    for place in from..page.len().min(PAGE_LINES) {
        if page[place].writes > 0 {
            return Some(place);
        }
    }
    None
}

/// The first line of a directory from `from` on that was written.
pub fn next_in_directory(directory: &Directory, from: usize) -> Option<usize>
    ensures { IsNext (directory_entry directory.now.items) from 262144 result }
{
    let mut place = from % PAGE_LINES;
    for number in from / PAGE_LINES..directory.len().min(DIRECTORY_PAGES) {
        if let Some(found) = next_in_page(&directory[number], place) {
            return Some(number * PAGE_LINES + found);
        }
        place = 0;
    }
    None
}
