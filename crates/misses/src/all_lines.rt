// The misses of all lines.
ghost use Rattle.std.specs.Prelude.{◌≡◌, ◌/◌, ◌<◌, ◌≤◌, ◌^◌, ◌∷◌, ◌++◌, [], length, OnOk};
ghost use Rattle.std.specs.Prelude.{OnErr, IfOk, IfSome, IsOk, IsSome, IsTrue, slice_get, nat_eq};
ghost use Rattle.std.specs.Prelude.{eqb, is_some, option_map};
ghost use Rattle.std.specs.Map.{lookup};
ghost use Rattle.indexmap.specs.IndexMap.{insert_entry, set_value_at, values};
ghost use Rattle.base.specs.Lines.{line_number};
ghost use Rattle.sharing_rules.specs.AccessLists.{AccessList};
ghost use Rattle.sharing_rules.specs.Lines.{word_place};
ghost use Rattle.misses.specs.Fits.{AreFit};
ghost use Rattle.misses.specs.MissCounts.{LineEntry, StandsFor, blank_line, cost_in, cost_of};
ghost use Rattle.misses.specs.MissCounts.{kept_of};
ghost use Rattle.misses.specs.MissCounts.{has_come, has_come_to, note_access, note_line};

use crate::line_misses::{Cost, Costs, Counts, LineMisses};
use crate::recent::Recent;
use base::{Access, Layout, NoMemory};
use indexmap::IndexMap;
use sharing_rules::CacheLine;
use std::alloc::Global;
use std::marker::Model;

/// The costs of a line.
#[derive(Clone, Copy, PartialEq, Eq, Debug)]
pub struct Row {
    pub line: CacheLine,
    pub costs: Costs,
}

/// The misses of all lines of a layout, so far.
///
/// Contracts see the layout, the position, the counts over all lines, and of each line that was
/// accessed what is kept of it, in the order of the lines' first accesses.
#[derive(Drop)]
pub struct Misses {
    layout: Layout,
    position: u64,
    totals: Counts,
    lines: IndexMap<u64, LineMisses>,
    recent: Recent,
}

impl Model for Misses {
    ghost use Rattle.misses.specs.MissCounts.{MissCounts};
    ghost use Rattle.std.specs.Prelude.{IsTrue};
    ghost use Rattle.base.specs.Lines.{is_layout};
    ghost use Rattle.misses.specs.Fits.{AreFit, IsWithin};

    ghost Value = { MissCounts };

    ghost view = { λ m. record {
      grid = m.layout;
      position = m.position;
      totals = m.totals;
      lines = m.lines.entries;
    } };

    ghost invariant = { λ m. AreFit m.layout.size m.position m.lines.entries
        × IsWithin m.position m.totals × IsTrue (is_layout m.layout.size m.layout.offset) };
}

// Notes an access in the line at an index.
#[inline(always)]
fn note_known(
    lines: &mut IndexMap<u64, LineMisses>,
    index: usize,
    position: u64,
    place: usize,
    access: &Access,
) -> Result<Cost, NoMemory>
    requires early { position < 2 ^ 40 }
    requires there { IsSome (slice_get (values lines.old) index) }
    requires fit { IfSome (slice_get (values lines.old) index) (λ l. (place < length l.words)
        × (l.counts.cold ≤ position) × (l.counts.misses ≤ position)
        × (l.counts.needed ≤ position)) }
    ensures stated { IfOk result (λ cost. IfSome (slice_get (values lines.old) index)
        (λ l. cost ≡ cost_of l place access.now.hart)) }
    ensures noted { OnOk result (IfSome (slice_get (values lines.old) index)
        (λ l. lines.new.entries ≡ set_value_at lines.old.entries index
        (note_line l position place access.now))) }
    ensures refused { OnErr result (lines.new.entries ≡ lines.old.entries) }
    ensures known { IfSome (slice_get (values lines.old) index)
        (λ l. IsTrue (has_come l access.now.hart) → IsOk result) }
{
    match lines.get_index_mut(index) {
        Some(line) => line.note(position, place, access),
        None => Err(NoMemory),
    }
}

// Notes the first access of a line of so many words.
#[inline(never)]
fn note_new(
    lines: &mut IndexMap<u64, LineMisses>,
    number: u64,
    words: usize,
    position: u64,
    place: usize,
    access: &Access,
) -> Result<Cost, NoMemory>
    requires early { position < 2 ^ 40 }
    requires within { place < words }
    ensures stated { IfOk result (λ cost. cost ≡ cost_of (blank_line words) place access.now.hart) }
    ensures noted { OnOk result (lines.new.entries ≡ insert_entry nat_eq lines.old.entries number
        (note_line (blank_line words) position place access.now)) }
    ensures refused { OnErr result (lines.new.entries ≡ lines.old.entries) }
{
    let mut line = match LineMisses::blank(*lines.allocator(), words) {
        Ok(line) => line,
        Err(fault) => return Err(fault),
    };
    let cost = match line.note(position, place, access) {
        Ok(cost) => cost,
        Err(fault) => return Err(fault),
    };
    match lines.insert(number, line) {
        Ok(_) => Ok(cost),
        Err(_) => Err(NoMemory),
    }
}

// The number by which a line is remembered.
#[inline(always)]
fn near(number: u64) -> u32 {
    (number % 4_294_967_296) as u32
}

// Whether the line of a number is at an index.
#[inline(always)]
fn is_at(lines: &IndexMap<u64, LineMisses>, index: usize, number: u64) -> bool
    ensures index { IsTrue result → (l : LineEntry)
        → insert_entry nat_eq lines.now.entries number l
        ≡ set_value_at lines.now.entries index l }
    ensures value { IsTrue result → slice_get (values lines.now) index
        ≡ lookup (eqb number) lines.now.entries }
    ensures found { IsTrue result → IsTrue (is_some (lookup (eqb number) lines.now.entries)) }
{
    if lines.len() <= index {
        return false;
    }
    match lines.get_index(index) {
        Some((key, _)) => *key == number,
        None => false,
    }
}

// Where a line is, if it was accessed, by the table.
#[inline(never)]
fn look_up(lines: &IndexMap<u64, LineMisses>, recent: &mut Recent, number: u64) -> Option<usize>
    ensures index { IfSome result (λ i. (l : LineEntry)
        → insert_entry nat_eq lines.now.entries number l ≡ set_value_at lines.now.entries i l) }
    ensures value { IfSome result (λ i. slice_get (values lines.now) i
        ≡ lookup (eqb number) lines.now.entries) }
    ensures found { is_some result ≡ is_some (lookup (eqb number) lines.now.entries) }
{
    match lines.get_index_of(&number) {
        Some(index) => {
            recent.keep(near(number), index);
            Some(index)
        }
        None => {
            recent.add(near(number), lines.len());
            None
        }
    }
}

// Where a line is, if it was accessed: first the place is looked at where it may be.
#[inline(always)]
fn find(lines: &IndexMap<u64, LineMisses>, recent: &mut Recent, number: u64) -> Option<usize>
    ensures index { IfSome result (λ i. (l : LineEntry)
        → insert_entry nat_eq lines.now.entries number l ≡ set_value_at lines.now.entries i l) }
    ensures value { IfSome result (λ i. slice_get (values lines.now) i
        ≡ lookup (eqb number) lines.now.entries) }
    ensures found { is_some result ≡ is_some (lookup (eqb number) lines.now.entries) }
{
    let guess = recent.guess(near(number));
    if is_at(lines, guess, number) {
        return Some(guess);
    }
    look_up(lines, recent, number)
}

// Which word of its line an address is in. Most lines have 64 bytes, and a mask takes less time
// than a division.
#[inline(always)]
fn place_in(line: CacheLine, addr: u32) -> usize
    ensures { result ≡ word_place line addr }
{
    let layout = line.layout();
    if layout.size() != 64 {
        return line.word_place(addr);
    }
    let from_a_begin = u64::from(addr) + 64 - u64::from(layout.offset());
    (from_a_begin % 64 / 4) as usize
}

// Notes an access of a line.
fn note_in(
    lines: &mut IndexMap<u64, LineMisses>,
    recent: &mut Recent,
    line: CacheLine,
    position: u64,
    access: &Access,
) -> Result<Cost, NoMemory>
    requires early { position < 2 ^ 40 }
    requires within { word_place line access.now.addr < line.size / 4 }
    requires fit { AreFit line.size position lines.old.entries }
    ensures stated { IfOk result (λ cost. cost ≡ cost_in lines.old.entries line access.now) }
    ensures noted { OnOk result (lines.new.entries ≡ Rattle.misses.specs.MissCounts.note_in
        lines.old.entries line position access.now) }
    ensures refused { OnErr result (lines.new.entries ≡ lines.old.entries) }
    ensures known { IsTrue (has_come_to lines.old.entries line.number access.now.hart)
        → IsOk result }
{
    let number = line.number();
    let place = place_in(line, access.addr());
    match find(lines, recent, number) {
        Some(index) => note_known(lines, index, position, place, access),
        None => note_new(lines, number, line.word_count(), position, place, access),
    }
}

impl Misses {
    ghost use Rattle.misses.specs.Rows.{all_costs, costs_of, row_of, rows_of};

    /// No access so far, under a layout.
    pub fn new(alloc: Global, layout: Layout) -> Misses
        ensures { result ≡ kept_of layout [] }
    {
        Misses {
            layout,
            position: 0,
            totals: Counts {
                cold: 0,
                misses: 0,
                needed: 0,
            },
            lines: IndexMap::new(alloc),
            recent: Recent::new(alloc),
        }
    }

    /// The layout of the lines.
    pub fn layout(&self) -> Layout
        ensures { result ≡ self.now.grid }
    {
        self.layout
    }

    /// How many accesses were noted.
    pub fn position(&self) -> u64
        ensures { result ≡ self.now.position }
    {
        self.position
    }

    /// How many lines were accessed.
    pub fn line_count(&self) -> usize
        ensures { result ≡ length self.now.lines }
    {
        self.lines.len()
    }

    /// The costs of a line, by its place in the order of the lines' first accesses.
    pub fn row(&self, index: usize) -> Option<Row>
        ensures kept { result ≡ option_map (row_of self.now.grid) (slice_get self.now.lines index) }
        ensures stands { (t : AccessList) → StandsFor t self.now
            → result ≡ slice_get (rows_of self.now.grid t) index }
    {
        self.kept_row(index)
    }

    // What is kept says the costs of a line.
    fn kept_row(&self, index: usize) -> Option<Row>
        ensures { result ≡ option_map (row_of self.now.grid) (slice_get self.now.lines index) }
    {
        match self.lines.get_index(index) {
            Some((number, line)) => Some(Row {
                line: CacheLine::numbered(self.layout, *number),
                costs: line.counts().costs(),
            }),
            None => None,
        }
    }

    /// The costs of all lines together.
    pub fn totals(&self) -> Costs
        ensures kept { result ≡ costs_of self.now.totals }
        ensures stands { (t : AccessList) → StandsFor t self.now
            → result ≡ all_costs self.now.grid t }
    {
        self.totals.costs()
    }

    /// Notes the next access, before position 2^40. It takes memory for a line, and for a hart in a
    /// line, that is new; where there is none, nothing changes. Up to 16 bytes more for each line
    /// remember where lines are, and without them it only takes longer.
    pub fn on_access(&mut self, access: &Access) -> Result<(), NoMemory>
        requires { self.old.position < 2 ^ 40 }
        ensures noted { OnOk result (self.new ≡ note_access self.old access.now) }
        // so what is kept is what the longer list makes
        ensures stands { (t : AccessList) → StandsFor t self.old
            → OnOk result (StandsFor (t ++ access.now ∷ []) self.new) }
        ensures refused { OnErr result (self.new ≡ self.old) }
        ensures known { IsTrue (has_come_to self.old.lines
            (line_number self.old.grid.size self.old.grid.offset access.now.addr)
            access.now.hart) → IsOk result }
    {
        let number = self.layout.number_of(access.addr());
        let line = CacheLine::numbered(self.layout, number);
        let cost = match note_in(
            &mut self.lines,
            &mut self.recent,
            line,
            self.position,
            access,
        ) {
            Ok(cost) => cost,
            Err(fault) => return Err(fault),
        };
        self.totals = self.totals.after(cost);
        self.position += 1;
        Ok(())
    }
}
