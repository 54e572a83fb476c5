// An index by pages of 64 lines. Pages stand in directories of 4096, and directories and pages
// appear once a line of theirs is lent.
ghost use Rattle.std.specs.Prelude.{◌≡◌, ℕ, ◌-◌, false, IsTrue, OnOk, OnErr, unwrap_or};
ghost use Rattle.std.specs.Option.{option_copied};
ghost use Rattle.detector.specs.Entries.{blank_entry, no_entries};
ghost use Rattle.detector.specs.Lending.{KeepsPlaces};
ghost use Rattle.detector.specs.PagedEntries.{paged_entries, paged_entry, paged_place};
ghost use Rattle.detector.specs.Pages.{items_at, page_entry};

use crate::line_entry::{BLANK, LAST_LINE, LineEntry};
use crate::line_index::LineIndex;
use crate::pages::{
    self, DIRECTORIES, DIRECTORY_LINES, Directory, PAGE_LINES, next_in_directory, reach,
};
use base::NoMemory;
use std::alloc::Global;

/// Directories of pages of entries. A line's first `entry` makes its page of 64 lines, of 1.5
/// KiB.
#[derive(Drop)]
pub struct PagedIndex {
    directories: Vec<Directory>,
    alloc: Global,
}

impl PagedIndex {
    /// An index with no entry. It takes no memory until a line is lent.
    pub fn new(alloc: Global) -> PagedIndex
        ensures { paged_entries result ≡ no_entries }
    {
        PagedIndex {
            directories: Vec::new(alloc),
            alloc,
        }
    }

    // The entry at a place of a page of a directory, if it is there.
    #[inline(always)]
    fn entry_in(&self, directory: usize, page: usize, place: usize) -> Option<&LineEntry>
        ensures { unwrap_or (option_copied result) blank_entry
            ≡ page_entry (items_at (items_at self.now.directories.items directory) page) place }
    {
        self.directories.get(directory)?.get(page)?.get(place)
    }

    // The entry of a line that has a place.
    #[inline(always)]
    fn find(&self, line: u64) -> Option<&LineEntry>
        ensures { unwrap_or (option_copied result) blank_entry ≡ paged_entry self.now line }
    {
        let place = (line % DIRECTORY_LINES) as usize;
        let directory = (line / DIRECTORY_LINES) as usize;
        self.entry_in(directory, place / PAGE_LINES, place % PAGE_LINES)
    }

    // The entry of the line below one. It is on the same page, unless that begins with the line.
    #[inline(always)]
    fn entry_below(&self, line: u64) -> LineEntry
        ensures { result ≡ paged_entry self.now (line - 1) }
    {
        let place = (line % DIRECTORY_LINES) as usize;
        let directory = (line / DIRECTORY_LINES) as usize;
        let found = if place % PAGE_LINES > 0 {
            self.entry_in(directory, place / PAGE_LINES, place % PAGE_LINES - 1)
        } else {
            self.find(line.saturating_sub(1))
        };
        match found {
            Some(entry) => *entry,
            None => BLANK,
        }
    }

    // Whether the page of a line is there.
    #[inline(always)]
    fn has_page(&self, line: u64) -> bool
        ensures { result ≡ paged_place self.now line }
    {
        let place = (line % DIRECTORY_LINES) as usize;
        match self.directories.get((line / DIRECTORY_LINES) as usize) {
            Some(directory) => match directory.get(place / PAGE_LINES) {
                Some(page) => place % PAGE_LINES < page.len(),
                None => false,
            },
            None => false,
        }
    }

    // Gives a line a place, with a blank entry where it had none.
    #[inline(always)]
    fn make_place(&mut self, line: u64) -> Result<(), NoMemory>
        ensures same { (q : ℕ) → paged_entry self.new q ≡ paged_entry self.old q }
        ensures keeps { KeepsPlaces (paged_place self.old) (paged_place self.new) }
        ensures placed { OnOk result (IsTrue (paged_place self.new line)) }
        ensures unplaced { OnErr result (paged_place self.old line ≡ false) }
        ensures blank { OnErr result (paged_entry self.old line ≡ blank_entry) }
    {
        if self.has_page(line) {
            return Ok(());
        }
        self.make_page(line)
    }

    // The same, once for each page, and so apart from the way of each access.
    #[inline(never)]
    fn make_page(&mut self, line: u64) -> Result<(), NoMemory>
        ensures same { (q : ℕ) → paged_entry self.new q ≡ paged_entry self.old q }
        ensures keeps { KeepsPlaces (paged_place self.old) (paged_place self.new) }
        ensures placed { OnOk result (IsTrue (paged_place self.new line)) }
        ensures unplaced { OnErr result (paged_place self.old line ≡ false) }
        ensures blank { OnErr result (paged_entry self.old line ≡ blank_entry) }
    {
        let alloc = self.alloc;
        let number = (line / DIRECTORY_LINES) as usize;
        match reach(&mut self.directories, number, alloc) {
            Ok(()) => {
                let place = (line % DIRECTORY_LINES) as usize;
                pages::make_page(&mut self.directories[number], place, alloc)
            }
            Err(refused) => Err(refused),
        }
    }
}

impl LineIndex for PagedIndex {
    ghost use Rattle.detector.specs.PagedEntries.{paged_entries, paged_entry, paged_place};
    ghost use Rattle.detector.specs.Laws.Entries.{only_entries_of};

    ghost entries = { paged_entries };

    ghost has_place = { paged_place };

    #[inline(always)]
    fn peek(&self, line: u64) -> LineEntry {
        match self.find(line) {
            Some(entry) => *entry,
            None => BLANK,
        }
    }

    #[inline(always)]
    fn below(&self, line: u64) -> Option<LineEntry> {
        if !self.has_page(line) {
            return None;
        }
        Some(self.entry_below(line))
    }

    // Of all lines but the first of a page, whose line below is on another one.
    #[inline(always)]
    fn beside(&self, line: u64) -> Option<LineEntry> {
        if line % PAGE_LINES as u64 == 0 {
            return None;
        }
        self.below(line)
    }

    #[inline(always)]
    fn entry(&mut self, line: u64) -> Result<&mut LineEntry, NoMemory> {
        match self.make_place(line) {
            Ok(()) => {
                let place = (line % DIRECTORY_LINES) as usize;
                let directory = &mut self.directories[(line / DIRECTORY_LINES) as usize];
                let page = &mut directory[place / PAGE_LINES];
                Ok(&mut page[place % PAGE_LINES])
            }
            Err(refused) => Err(refused),
        }
    }

    fn next_from(&self, line: u64) -> Option<u64> {
        let mut place = (line % DIRECTORY_LINES) as usize;
        let first = (line / DIRECTORY_LINES) as usize;
        for number in first..self.directories.len().min(DIRECTORIES) {
            if let Some(found) = next_in_directory(&self.directories[number], place) {
                let line = number as u64 * DIRECTORY_LINES + found as u64;
                return if line <= LAST_LINE { Some(line) } else { None };
            }
            place = 0;
        }
        None
    }

    ghost only_entries = { λ s q. only_entries_of (paged_entry s) q };
}
