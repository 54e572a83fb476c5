// Windows in pages of 4096. A page that isn't there yet is an empty `Vec`.
ghost use Rattle.std.specs.Prelude.{◌≡◌, ◌≢◌, ℕ, ◌+◌, ◌-◌, ◌*◌, ◌/◌, ◌%◌, ◌<◌, ◌≤◌, ◌^◌, ◌⊎◌, length, vec_len};
ghost use Rattle.std.specs.Prelude.{IsTrue, OnOk, OnErr, if◌then◌else◌, nat_lt, option_map};
ghost use Rattle.std.specs.Prelude.{slice_get};
ghost use Rattle.base.specs.Touch.{is_write};
ghost use Rattle.layout_sweep.specs.Counts.{AreBelow, swept_after};
ghost use Rattle.layout_sweep.specs.Pages.{HasBlank, HasRow, IsTurned, has_window, page_at, window_at};
ghost use Rattle.layout_sweep.specs.Pages.{window_in};
ghost use Rattle.layout_sweep.specs.Windows.{blank_window, is_swept_size, window_after};

use crate::counts::Swept;
use crate::window::Window;
use base::{Access, NoMemory, Steps};
use std::alloc::Global;
use std::sync::ledger::Ledger;

/// Windows in a row.
pub type Page = Vec<Window>;

/// How many windows a page has.
pub const PAGE_WINDOWS: u64 = 4096;

// Appends empty pages until there is one at a place.
fn reach(pages: &mut Vec<Page>, place: usize, alloc: Global) -> Result<(), NoMemory>
    ensures same { (k : ℕ) → page_at pages.new.items k ≡ page_at pages.old.items k }
    ensures reached { OnOk result (place < vec_len pages.new) }
    ensures refused { OnErr result (vec_len pages.old ≤ place) }
{
    while pages.len() <= place {
        if pages.push(Vec::new(alloc)).is_err() {
            return Err(NoMemory);
        }
    }
    Ok(())
}

// Fills a page up with blank windows where it has none at a place.
fn fill(page: &mut Page, place: usize) -> Result<(), NoMemory>
    requires { place < 4096 }
    ensures same { (k : ℕ) → window_in page.new.items k ≡ window_in page.old.items k }
    ensures grown { vec_len page.old ≤ vec_len page.new }
    ensures filled { OnOk result (place < vec_len page.new) }
    ensures refused { OnErr result (vec_len page.old ≤ place) }
{
    if place < page.len() {
        return Ok(());
    }
    match page.resize(PAGE_WINDOWS as usize, Window::blank()) {
        Ok(()) => Ok(()),
        Err(_) => Err(NoMemory),
    }
}

/// Makes the page of a window where it isn't there, and so of those before it in the page. NoMemory
/// leaves all windows as they were, and comes only where this one is blank.
pub fn make_page(pages: &mut Vec<Page>, window: u64, alloc: Global) -> Result<(), NoMemory>
    ensures same { (q : ℕ) → window_at pages.new.items q ≡ window_at pages.old.items q }
    ensures keeps { (q : ℕ) → IsTrue (has_window pages.old.items q)
        → IsTrue (has_window pages.new.items q) }
    ensures made { OnOk result ((q : ℕ) → q / 4096 ≡ window / 4096 → q ≤ window
        → IsTrue (has_window pages.new.items q)) }
    ensures blank { OnErr result (window_at pages.old.items window ≡ blank_window) }
{
    let number = (window / PAGE_WINDOWS) as usize;
    match reach(pages, number, alloc) {
        Ok(()) => fill(&mut pages[number], (window % PAGE_WINDOWS) as usize),
        Err(refused) => Err(refused),
    }
}

// One access in a window, counted at its shift.
#[inline(always)]
fn note_window(window: &mut Window, counts: &mut Swept, access: Access)
    requires few { (counts.old.total < 2 ^ 40) × (counts.old.lines < 2 ^ 40) }
    ensures window { window.new ≡ window_after window.old access }
    ensures counts { counts.new ≡ swept_after counts.old window.old access }
{
    if window.is_taken() {
        counts.total += u64::from(window.note(access));
    } else if window.note(access) {
        counts.total += 1;
        counts.lines += 1;
    }
}

// The same at a place of a page. Where nothing is there yet, a read changes nothing.
#[inline(always)]
fn note_place(page: &mut Page, place: usize, counts: &mut Swept, access: Access)
    requires few { (counts.old.total < 2 ^ 40) × (counts.old.lines < 2 ^ 40) }
    requires made { IsTrue (is_write access.kind) → place < vec_len page.old }
    ensures here { window_in page.new.items place
        ≡ window_after (window_in page.old.items place) access }
    ensures others { (q : ℕ) → q ≢ place
        → window_in page.new.items q ≡ window_in page.old.items q }
    ensures counts { counts.new ≡ swept_after counts.old (window_in page.old.items place) access }
    ensures long { vec_len page.new ≡ vec_len page.old }
{
    if let Some(window) = page.get_mut(place) {
        note_window(window, counts, access);
    }
}

// One access in windows in a row of a page, counted at as many shifts.
#[inline(always)]
fn note_page<L: Ledger>(
    page: &mut Page,
    place: usize,
    counts: &mut [Swept],
    access: Access,
    steps: &mut Steps<L>,
)
    requires within { place + length counts.old ≤ 4096 }
    requires few { AreBelow (2 ^ 40) counts.old }
    requires made { IsTrue (is_write access.kind) → (i : ℕ) → i < length counts.old
        → place + i < vec_len page.old }
    ensures inside { (i : ℕ) → i < length counts.old → window_in page.new.items (place + i)
        ≡ window_after (window_in page.old.items (place + i)) access }
    ensures outside { (q : ℕ) → (q < place) ⊎ (place + length counts.old ≤ q)
        → window_in page.new.items q ≡ window_in page.old.items q }
    ensures counts { (i : ℕ) → slice_get counts.new i
        ≡ option_map (λ x. swept_after x (window_in page.old.items (place + i)) access)
        (slice_get counts.old i) }
    ensures long { length counts.new ≡ length counts.old }
    ensures page { vec_len page.new ≡ vec_len page.old }
    ensures cost { steps.new ≡ steps.old + length counts.old }
{
    for i in 0..counts.len() {
        steps.tick();
        note_place(page, place + i, &mut counts[i], access);
    }
}

/// Whether there is a page at a place, or an empty one.
#[inline(always)]
pub fn has_page(pages: &Vec<Page>, number: usize) -> bool
    ensures { result ≡ nat_lt number (length pages.now.items) }
{
    number < pages.len()
}

// The steps of an access in windows that aren't there.
#[inline(always)]
fn skip<L: Ledger>(count: usize, steps: &mut Steps<L>)
    ensures { steps.new ≡ steps.old + count }
{
    for _ in 0..count {
        steps.tick();
    }
}

// One access in windows in a row, which lie in one page, counted at as many shifts. A write needs
// their page.
#[inline(always)]
fn note_windows<L: Ledger>(
    pages: &mut Vec<Page>,
    first: u64,
    counts: &mut [Swept],
    access: Access,
    steps: &mut Steps<L>,
)
    requires within { first % 4096 + length counts.old ≤ 4096 }
    requires few { AreBelow (2 ^ 40) counts.old }
    requires made { IsTrue (is_write access.kind) → (i : ℕ) → i < length counts.old
        → IsTrue (has_window pages.old.items (first + i)) }
    ensures inside { (i : ℕ) → i < length counts.old → window_at pages.new.items (first + i)
        ≡ window_after (window_at pages.old.items (first + i)) access }
    ensures outside { (q : ℕ) → (q < first) ⊎ (first + length counts.old ≤ q)
        → window_at pages.new.items q ≡ window_at pages.old.items q }
    ensures counts { (i : ℕ) → slice_get counts.new i
        ≡ option_map (λ x. swept_after x (window_at pages.old.items (first + i)) access)
        (slice_get counts.old i) }
    ensures long { length counts.new ≡ length counts.old }
    ensures keeps { (q : ℕ) → IsTrue (has_window pages.old.items q)
        → IsTrue (has_window pages.new.items q) }
    ensures cost { steps.new ≡ steps.old + length counts.old }
{
    let number = (first / PAGE_WINDOWS) as usize;
    let place = (first % PAGE_WINDOWS) as usize;
    if has_page(pages, number) {
        note_page(&mut pages[number], place, counts, access, steps);
    } else {
        skip(counts.len(), steps);
    }
}

// Makes the page of the windows behind a word that end before a cut, where there are some.
fn make_lower(pages: &mut Vec<Page>, word: u64, cut: u64, alloc: Global) -> Result<(), NoMemory>
    requires { word < 2 ^ 30 }
    ensures same { (q : ℕ) → window_at pages.new.items q ≡ window_at pages.old.items q }
    ensures made { OnOk result ((q : ℕ) → q / 4096 ≡ (cut - 1) / 4096 → word < q → q < cut
        → IsTrue (has_window pages.new.items q)) }
    ensures blank { OnErr result ((word + 1 < cut)
        × (window_at pages.old.items (cut - 1) ≡ blank_window)) }
{
    if word + 1 < cut {
        make_page(pages, cut - 1, alloc)
    } else {
        Ok(())
    }
}

// Makes the pages of the windows that hold a word, of so many words each.
fn make_pages(pages: &mut Vec<Page>, word: u64, words: u64, alloc: Global) -> Result<(), NoMemory>
    requires early { word < 2 ^ 30 }
    requires sized { IsTrue (is_swept_size (4 * words)) }
    ensures same { (q : ℕ) → window_at pages.new.items q ≡ window_at pages.old.items q }
    ensures made { OnOk result ((q : ℕ) → word < q → q ≤ word + words
        → IsTrue (has_window pages.new.items q)) }
    ensures blank { OnErr result (HasBlank (window_at pages.old.items) word words) }
{
    let cut = word - word % words + words;
    match make_lower(pages, word, cut, alloc) {
        Ok(()) => make_page(pages, word + words, alloc),
        Err(refused) => Err(refused),
    }
}

// The same, unless all of these windows are there.
#[inline(always)]
fn make_row(pages: &mut Vec<Page>, word: u64, words: u64, alloc: Global) -> Result<(), NoMemory>
    requires early { word < 2 ^ 30 }
    requires sized { IsTrue (is_swept_size (4 * words)) }
    ensures same { (q : ℕ) → window_at pages.new.items q ≡ window_at pages.old.items q }
    ensures made { OnOk result ((q : ℕ) → word < q → q ≤ word + words
        → IsTrue (has_window pages.new.items q)) }
    ensures blank { OnErr result (HasBlank (window_at pages.old.items) word words) }
{
    if has_row(pages, word + 1, words) {
        Ok(())
    } else {
        make_pages(pages, word, words, alloc)
    }
}

/// Makes what an access needs in the windows that hold its word, of so many words each: their pages
/// for a write. NoMemory leaves all windows as they were, and comes only where one of them was never
/// written.
#[inline(always)]
pub fn make_room(
    pages: &mut Vec<Page>,
    word: u64,
    words: u64,
    access: Access,
    alloc: Global,
) -> Result<(), NoMemory>
    requires early { word < 2 ^ 30 }
    requires sized { IsTrue (is_swept_size (4 * words)) }
    ensures same { (q : ℕ) → window_at pages.new.items q ≡ window_at pages.old.items q }
    ensures made { OnOk result (IsTrue (is_write access.kind) → (q : ℕ) → word < q
        → q ≤ word + words → IsTrue (has_window pages.new.items q)) }
    ensures blank { OnErr result (IsTrue (is_write access.kind)
        × HasBlank (window_at pages.old.items) word words) }
{
    if access.kind().is_write() {
        make_row(pages, word, words, alloc)
    } else {
        Ok(())
    }
}

// One access in the window at a place of a page.
#[inline(always)]
fn note_there(windows: &mut [Window], place: usize, counts: &mut Swept, access: Access)
    requires there { place < length windows.old }
    requires few { (counts.old.total < 2 ^ 40) × (counts.old.lines < 2 ^ 40) }
    ensures here { window_in windows.new place ≡ window_after (window_in windows.old place) access }
    ensures others { (q : ℕ) → q ≢ place → window_in windows.new q ≡ window_in windows.old q }
    ensures counts { counts.new ≡ swept_after counts.old (window_in windows.old place) access }
    ensures long { length windows.new ≡ length windows.old }
{
    note_window(&mut windows[place], counts, access);
}

// The shift behind one of so many, and behind the last the first.
#[inline(always)]
fn shift_behind(shift: usize, count: usize) -> usize
    requires { shift < count }
    ensures { result ≡ (if nat_lt (shift + 1) count then shift + 1 else 0) }
{
    if shift + 1 < count { shift + 1 } else { 0 }
}

// The shift of the window that ends before a word, of so many shifts.
#[inline(always)]
fn shift_of(word: u64, count: usize) -> usize
    requires { 0 < count }
    ensures { result ≡ word % count }
{
    // Most lines have 64 bytes, and a remainder by 16 takes less time than a division.
    if count == 16 {
        (word % 16) as usize
    } else {
        (word % count as u64) as usize
    }
}

// One access in as many windows in a row as there are shifts. The first of them is counted at a
// shift that is given, and the others at those behind it.
#[inline(always)]
fn note_row<L: Ledger>(
    windows: &mut [Window],
    place: usize,
    counts: &mut [Swept],
    first: usize,
    access: Access,
    steps: &mut Steps<L>,
)
    requires there { place + length counts.old ≤ length windows.old }
    requires first { first < length counts.old }
    requires few { AreBelow (2 ^ 40) counts.old }
    ensures inside { (i : ℕ) → i < length counts.old → window_in windows.new (place + i)
        ≡ window_after (window_in windows.old (place + i)) access }
    ensures outside { (q : ℕ) → (q < place) ⊎ (place + length counts.old ≤ q)
        → window_in windows.new q ≡ window_in windows.old q }
    ensures counts { (i j : ℕ) → i < length counts.old → IsTurned (length counts.old) first i j
        → slice_get counts.new j
        ≡ option_map (λ x. swept_after x (window_in windows.old (place + i)) access)
        (slice_get counts.old j) }
    ensures long { length counts.new ≡ length counts.old }
    ensures windows { length windows.new ≡ length windows.old }
    ensures cost { steps.new ≡ steps.old + length counts.old }
{
    let count = counts.len();
    let mut shift = first;
    for i in 0..count {
        steps.tick();
        note_there(windows, place + i, &mut counts[shift], access);
        shift = shift_behind(shift, count);
    }
}

// Whether windows in a row are all there, in one page.
#[inline(always)]
fn has_row(pages: &Vec<Page>, first: u64, count: u64) -> bool
    requires { count ≤ 64 }
    ensures near { IsTrue result → first % 4096 + count ≤ 4096 }
    ensures page { IsTrue result → first / 4096 < length pages.now.items }
    ensures there { IsTrue result
        → first % 4096 + count ≤ length (page_at pages.now.items (first / 4096)) }
{
    let number = (first / PAGE_WINDOWS) as usize;
    let end = first % PAGE_WINDOWS + count;
    if end <= PAGE_WINDOWS && number < pages.len() {
        end <= pages[number].len() as u64
    } else {
        false
    }
}

// One access in all windows that hold a word, where they are there and lie in one page.
#[inline(always)]
fn note_near<L: Ledger>(
    pages: &mut Vec<Page>,
    counts: &mut [Swept],
    word: u64,
    access: Access,
    steps: &mut Steps<L>,
)
    requires early { word < 2 ^ 30 }
    requires sized { IsTrue (is_swept_size (4 * length counts.old)) }
    requires few { AreBelow (2 ^ 40) counts.old }
    requires row { HasRow pages.old.items (word + 1) (length counts.old) }
    ensures inside { (q : ℕ) → word < q → q ≤ word + length counts.old
        → window_at pages.new.items q ≡ window_after (window_at pages.old.items q) access }
    ensures outside { (q : ℕ) → (q ≤ word) ⊎ (word + length counts.old < q)
        → window_at pages.new.items q ≡ window_at pages.old.items q }
    ensures counts { (i q : ℕ) → word < q → q ≤ word + length counts.old
        → q % length counts.old ≡ i → slice_get counts.new i
        ≡ option_map (λ x. swept_after x (window_at pages.old.items q) access)
        (slice_get counts.old i) }
    ensures long { length counts.new ≡ length counts.old }
    ensures cost { steps.new ≡ steps.old + length counts.old }
{
    let first = word + 1;
    let number = (first / PAGE_WINDOWS) as usize;
    let place = (first % PAGE_WINDOWS) as usize;
    let shift = shift_behind(shift_of(word, counts.len()), counts.len());
    note_row(
        pages[number].as_mut_slice(),
        place,
        counts,
        shift,
        access,
        steps,
    );
}

/// One access in all windows that hold a word, each counted at its shift. They are neighbours, and
/// mostly lie in one page. A write needs their pages.
#[inline(always)]
pub fn note_word<L: Ledger>(
    pages: &mut Vec<Page>,
    counts: &mut [Swept],
    word: u64,
    access: Access,
    steps: &mut Steps<L>,
)
    requires early { word < 2 ^ 30 }
    requires sized { IsTrue (is_swept_size (4 * length counts.old)) }
    requires few { AreBelow (2 ^ 40) counts.old }
    requires made { IsTrue (is_write access.kind) → (q : ℕ) → word < q
        → q ≤ word + length counts.old → IsTrue (has_window pages.old.items q) }
    ensures inside { (q : ℕ) → word < q → q ≤ word + length counts.old
        → window_at pages.new.items q ≡ window_after (window_at pages.old.items q) access }
    ensures outside { (q : ℕ) → (q ≤ word) ⊎ (word + length counts.old < q)
        → window_at pages.new.items q ≡ window_at pages.old.items q }
    ensures counts { (i q : ℕ) → word < q → q ≤ word + length counts.old
        → q % length counts.old ≡ i → slice_get counts.new i
        ≡ option_map (λ x. swept_after x (window_at pages.old.items q) access)
        (slice_get counts.old i) }
    ensures long { length counts.new ≡ length counts.old }
    ensures cost { steps.new ≡ steps.old + length counts.old }
{
    if has_row(pages, word + 1, counts.len() as u64) {
        note_near(pages, counts, word, access, steps);
    } else {
        note_apart(pages, counts, word, access, steps);
    }
}

// One access in all windows that hold a word, those of each line number by themselves: these lie in
// one page.
fn note_apart<L: Ledger>(
    pages: &mut Vec<Page>,
    counts: &mut [Swept],
    word: u64,
    access: Access,
    steps: &mut Steps<L>,
)
    requires early { word < 2 ^ 30 }
    requires sized { IsTrue (is_swept_size (4 * length counts.old)) }
    requires few { AreBelow (2 ^ 40) counts.old }
    requires made { IsTrue (is_write access.kind) → (q : ℕ) → word < q
        → q ≤ word + length counts.old → IsTrue (has_window pages.old.items q) }
    ensures inside { (q : ℕ) → word < q → q ≤ word + length counts.old
        → window_at pages.new.items q ≡ window_after (window_at pages.old.items q) access }
    ensures outside { (q : ℕ) → (q ≤ word) ⊎ (word + length counts.old < q)
        → window_at pages.new.items q ≡ window_at pages.old.items q }
    ensures counts { (i q : ℕ) → word < q → q ≤ word + length counts.old
        → q % length counts.old ≡ i → slice_get counts.new i
        ≡ option_map (λ x. swept_after x (window_at pages.old.items q) access)
        (slice_get counts.old i) }
    ensures long { length counts.new ≡ length counts.old }
    ensures cost { steps.new ≡ steps.old + length counts.old }
{
    let words = counts.len() as u64;
    let place = word % words;
    let cut = word - place + words;
    let (front, back) = counts.split_at_mut((place + 1) as usize);
    note_windows(pages, cut, front, access, steps);
    note_windows(pages, word + 1, back, access, steps);
}
