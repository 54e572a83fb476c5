// Stamps in pages of 4096. A page that isn't there yet is an empty `Vec`.
ghost use Rattle.std.specs.Prelude.{◌≡◌, ◌≢◌, ℕ, ◌/◌, ◌<◌, ◌≤◌, ◌^◌, vec_len};
ghost use Rattle.std.specs.Prelude.{IsTrue, OnOk, OnErr};
ghost use Rattle.access_filter.specs.Stamps.{IsVisited, blank_stamp, number_of};
ghost use Rattle.access_filter.specs.Pages.{has_stamp, stamp_at, stamp_in, page_at};

use crate::stamp::Stamp;
use base::{Hart, NoMemory};
use std::alloc::Global;

/// Stamps in a row.
pub type Page = Vec<Stamp>;

// How many stamps a page has.
const PAGE_STAMPS: u64 = 4096;

// Appends empty pages until there is one at a place.
fn reach(pages: &mut Vec<Page>, place: usize, alloc: Global) -> Result<(), NoMemory>
    ensures same { (k : ℕ) → page_at pages.new.items k ≡ page_at pages.old.items k }
    ensures reached { OnOk result (place < vec_len pages.new) }
    ensures refused { OnErr result (vec_len pages.old ≤ place) }
{
    while pages.len() <= place {
        if pages.push(Vec::new(alloc)).is_err() {
            return Err(NoMemory);
        }
    }
    Ok(())
}

// Fills a page up with blank stamps where it has none at a place.
fn fill(page: &mut Page, place: usize) -> Result<(), NoMemory>
    requires { place < 4096 }
    ensures same { (k : ℕ) → stamp_in page.new.items k ≡ stamp_in page.old.items k }
    ensures grown { vec_len page.old ≤ vec_len page.new }
    ensures filled { OnOk result (place < vec_len page.new) }
    ensures refused { OnErr result (vec_len page.old ≤ place) }
{
    if place < page.len() {
        return Ok(());
    }
    match page.resize(PAGE_STAMPS as usize, Stamp::blank()) {
        Ok(()) => Ok(()),
        Err(_) => Err(NoMemory),
    }
}

/// Makes the page of a stamp where it isn't there, and so of those before it in the page. NoMemory
/// leaves all stamps as they were, and comes only where this one is blank.
pub fn make_page(pages: &mut Vec<Page>, place: u64, alloc: Global) -> Result<(), NoMemory>
    ensures same { (q : ℕ) → stamp_at pages.new.items q ≡ stamp_at pages.old.items q }
    ensures keeps { (q : ℕ) → IsTrue (has_stamp pages.old.items q)
        → IsTrue (has_stamp pages.new.items q) }
    ensures made { OnOk result ((q : ℕ) → q / 4096 ≡ place / 4096 → q ≤ place
        → IsTrue (has_stamp pages.new.items q)) }
    ensures blank { OnErr result (stamp_at pages.old.items place ≡ blank_stamp) }
{
    let number = (place / PAGE_STAMPS) as usize;
    match reach(pages, number, alloc) {
        Ok(()) => fill(&mut pages[number], (place % PAGE_STAMPS) as usize),
        Err(refused) => Err(refused),
    }
}

/// The stamp at a place, blank where there is none.
#[inline(always)]
pub fn get(pages: &Vec<Page>, place: u64) -> Stamp
    ensures { result ≡ stamp_at pages.now.items place }
{
    match pages.get((place / PAGE_STAMPS) as usize) {
        Some(page) => stamp_of(page, (place % PAGE_STAMPS) as usize),
        None => Stamp::blank(),
    }
}

// The stamp at a place of a page.
#[inline(always)]
fn stamp_of(page: &Page, place: usize) -> Stamp
    ensures { result ≡ stamp_in page.now.items place }
{
    match page.get(place) {
        Some(stamp) => *stamp,
        None => Stamp::blank(),
    }
}

// Puts a stamp at a place of a page.
#[inline(always)]
fn put_in(page: &mut Page, place: usize, stamp: Stamp)
    requires { place < vec_len page.old }
    ensures here { stamp_in page.new.items place ≡ stamp }
    ensures others { (q : ℕ) → q ≢ place → stamp_in page.new.items q ≡ stamp_in page.old.items q }
    ensures long { vec_len page.new ≡ vec_len page.old }
{
    page[place] = stamp;
}

/// Puts a stamp at a place whose page is there.
#[inline(always)]
pub fn put(pages: &mut Vec<Page>, place: u64, stamp: Stamp)
    requires { IsTrue (has_stamp pages.old.items place) }
    ensures here { stamp_at pages.new.items place ≡ stamp }
    ensures others { (q : ℕ) → q ≢ place
        → stamp_at pages.new.items q ≡ stamp_at pages.old.items q }
    ensures keeps { (q : ℕ) → IsTrue (has_stamp pages.old.items q)
        → IsTrue (has_stamp pages.new.items q) }
{
    let number = (place / PAGE_STAMPS) as usize;
    put_in(&mut pages[number], (place % PAGE_STAMPS) as usize, stamp);
}

/// A hart comes near the region whose stamp stands at a place.
#[inline(always)]
pub fn visit(pages: &mut Vec<Page>, place: u64, hart: Hart)
    requires there { IsTrue (has_stamp pages.old.items place) }
    requires few { number_of (stamp_at pages.old.items place) < 2 ^ 63 }
    ensures here { IsVisited hart (stamp_at pages.old.items place) (stamp_at pages.new.items place) }
    ensures others { (q : ℕ) → q ≢ place
        → stamp_at pages.new.items q ≡ stamp_at pages.old.items q }
    ensures keeps { (q : ℕ) → IsTrue (has_stamp pages.old.items q)
        → IsTrue (has_stamp pages.new.items q) }
{
    let mut stamp = get(pages, place);
    stamp.visit(hart);
    put(pages, place, stamp);
}
