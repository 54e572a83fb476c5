// What is kept of each line, and the tables of the invalidations of all lines.
ghost use Rattle.std.specs.Prelude.{◌≡◌, ℕ, ◌<◌, ◌^◌, [], IfNone, IfOk, IfSome, IsFalse, IsOk};
ghost use Rattle.std.specs.Prelude.{IsTrue};
ghost use Rattle.std.specs.Prelude.{None, OnErr, OnOk};
ghost use Rattle.std.specs.Prelude.{Some, eqb, false, is_some, length, nat_eq};
ghost use Rattle.std.specs.Map.{lookup};
ghost use Rattle.indexmap.specs.IndexMap.{index_of, insert_entry, spare};
ghost use Rattle.invalidations.specs.BlameFits.{AreFew, AreFewTaken, IsPlace, parts_of};
ghost use Rattle.invalidations.specs.BlameKept.{has_new_sides, in_line, in_line_eq, is_new};
ghost use Rattle.invalidations.specs.BlameKept.{note_line};
ghost use Rattle.invalidations.specs.BlameKept.{note_parts};
ghost use Rattle.invalidations.specs.BlameKept.{note_sides_in, note_invalidation_in, taken_in_line};
ghost use Rattle.invalidations.specs.BlameKept.{taken_of};
ghost use Rattle.invalidations.specs.BlameKept.{invalidation_in, untouched, wants_memory_in};
ghost use Rattle.invalidations.specs.LineInvalidations.{IsFew, invalidation_by};
ghost use Rattle.invalidations.specs.Invalidations.{harts_of, pcs_of};

use crate::latest::LatestTwo;
use crate::recent::{RecentRows, mixed};
use crate::sited::{Invalidation, Sides, Sited};
use crate::tables::{Taken, after, put};
use base::NoMemory;
use indexmap::IndexMap;
use misses::Recent;

/// Of a line the two accesses that determine the next invalidation, and how many invalidations
/// there were.
#[derive(Clone, Copy, Debug)]
pub struct LineTaken {
    pub two: LatestTwo,
    pub invalidations: u64,
}

/// The two sides of an invalidation, in a line by its number.
#[derive(Clone, Copy, PartialEq, Eq, Hash, Debug, Drop)]
pub struct InLine {
    pub line: u32,
    pub sides: Sides,
}

impl LineTaken {
    // A line with its first access, which takes nothing.
    fn first(sited: Sited) -> LineTaken
        ensures { result ≡ note_line untouched sited false }
    {
        LineTaken {
            two: LatestTwo {
                latest: Some(sited),
                other: None,
                held: false,
            },
            invalidations: 0,
        }
    }

    // Notes an access, and whether it took the line.
    fn note(&mut self, sited: Sited, taken: bool)
        requires { self.old.invalidations < 2 ^ 40 }
        ensures { self.new ≡ note_line self.old sited taken }
    {
        self.two.note(sited);
        self.invalidations += u64::from(taken);
    }
}

// Two sides in a line.
fn in_line(line: u32, sides: Sides) -> InLine
    ensures { result ≡ in_line line sides }
{
    InLine { line, sides }
}

// Whether two sides in a line have an index.
#[inline(always)]
fn is_at(table: &IndexMap<InLine, Taken>, index: usize, key: InLine) -> bool
    ensures found { IsTrue result → index_of in_line_eq table.now key ≡ Some index }
    ensures within { IsTrue result → index < length table.now.entries }
{
    if table.len() <= index {
        return false;
    }
    match table.get_index(index) {
        Some((found, _)) => *found == key,
        None => false,
    }
}

// The index of two sides in a line, by the table. It makes room for them where they are new.
#[inline(never)]
fn look_up(
    table: &mut IndexMap<InLine, Taken>,
    recent: &mut Recent,
    number: u32,
    key: InLine,
) -> Result<Option<usize>, NoMemory>
    ensures same { table.new.entries ≡ table.old.entries }
    ensures placed { IfOk result (IsPlace table.new key) }
    ensures known { IsFalse (is_new table.old.entries key) → IsOk result }
{
    match table.get_index_of(&key) {
        Some(index) => {
            recent.keep(number, index);
            Ok(Some(index))
        }
        None => match table.reserve(1) {
            Ok(()) => {
                recent.add(number, table.len());
                Ok(None)
            }
            Err(_) => Err(NoMemory),
        },
    }
}

// The index of two sides in a line: first the place is looked at where they may be. It makes room
// for them where they are new.
#[inline(always)]
fn index_of_sides(
    table: &mut IndexMap<InLine, Taken>,
    recent: &mut Recent,
    number: u32,
    key: InLine,
) -> Result<Option<usize>, NoMemory>
    ensures same { table.new.entries ≡ table.old.entries }
    ensures placed { IfOk result (IsPlace table.new key) }
    ensures known { IsFalse (is_new table.old.entries key) → IsOk result }
{
    let guess = recent.guess(number);
    if is_at(table, guess, key) {
        return Ok(Some(guess));
    }
    look_up(table, recent, number, key)
}

// Counts an invalidation at an index.
fn count_at(table: &mut IndexMap<InLine, Taken>, index: usize, key: InLine, same: bool)
    requires found { index_of in_line_eq table.old key ≡ Some index }
    requires within { index < length table.old.entries }
    requires few { IsFew (taken_in_line table.old.entries key) }
    ensures { table.new.entries ≡ note_invalidation_in table.old.entries key same }
{
    match table.get_index_mut(index) {
        Some(taken) => *taken = after(*taken, same),
        None => unreachable!(),
    }
}

// Counts the first invalidation between two sides in a line.
fn count_first(table: &mut IndexMap<InLine, Taken>, key: InLine, same: bool)
    requires new { lookup (in_line_eq key) table.old.entries ≡ None }
    requires room { 0 < spare table.old }
    ensures { table.new.entries ≡ note_invalidation_in table.old.entries key same }
{
    let first = after(Taken { taken: 0, same: 0 }, same);
    match table.insert(key, first) {
        Ok(_) => {}
        Err(_) => unreachable!(),
    }
}

// Counts an invalidation between two sides in a line, which have this index or are new.
fn count_invalidation(
    table: &mut IndexMap<InLine, Taken>,
    place: Option<usize>,
    key: InLine,
    same: bool,
)
    requires placed { IsPlace table.old key place }
    requires few { IsFew (taken_in_line table.old.entries key) }
    ensures { table.new.entries ≡ note_invalidation_in table.old.entries key same }
{
    match place {
        Some(index) => count_at(table, index, key, same),
        None => count_first(table, key, same),
    }
}

/// The lines that were accessed, by their numbers, and the invalidations of all lines between two
/// instructions and between two harts.
#[derive(Drop)]
pub(crate) struct BlameTables {
    pub lines: IndexMap<u32, LineTaken>,
    pub pairs: IndexMap<InLine, Taken>,
    pub harts: IndexMap<InLine, Taken>,
    pub recent: RecentRows,
}

// Counts an invalidation of a line in both tables. It takes memory where its sides are new in the
// line.
fn count_both(
    pairs: &mut IndexMap<InLine, Taken>,
    harts: &mut IndexMap<InLine, Taken>,
    recent: &mut RecentRows,
    line: u32,
    invalidation: &Invalidation,
) -> Result<(), NoMemory>
    requires few_pairs { AreFew pairs.old.entries }
    requires few_harts { AreFew harts.old.entries }
    ensures pairs { OnOk result (pairs.new.entries
        ≡ note_sides_in pcs_of line pairs.old.entries (Some invalidation.now)) }
    ensures harts { OnOk result (harts.new.entries
        ≡ note_sides_in harts_of line harts.old.entries (Some invalidation.now)) }
    ensures same_pairs { OnErr result (pairs.new.entries ≡ pairs.old.entries) }
    ensures same_harts { OnErr result (harts.new.entries ≡ harts.old.entries) }
    ensures known { IsFalse (is_new pairs.old.entries (in_line line (pcs_of invalidation.now)))
        → IsFalse (is_new harts.old.entries (in_line line (harts_of invalidation.now))) → IsOk result }
{
    let by_pcs = in_line(line, invalidation.pcs());
    let by_harts = in_line(line, invalidation.harts());
    // instructions are 4 bytes apart
    let near = mixed(line, by_pcs.sides.victim / 4, by_pcs.sides.taker / 4);
    let pair = match index_of_sides(pairs, &mut recent.pairs, near, by_pcs) {
        Ok(place) => place,
        Err(fault) => return Err(fault),
    };
    let near = mixed(line, by_harts.sides.victim, by_harts.sides.taker);
    let hart = match index_of_sides(harts, &mut recent.harts, near, by_harts) {
        Ok(place) => place,
        Err(fault) => return Err(fault),
    };
    let same = invalidation.is_of_one_word();
    count_invalidation(pairs, pair, by_pcs, same);
    count_invalidation(harts, hart, by_harts, same);
    Ok(())
}

// Counts what an access took of a line, if it took it: whether it did.
fn count_if_taken(
    pairs: &mut IndexMap<InLine, Taken>,
    harts: &mut IndexMap<InLine, Taken>,
    recent: &mut RecentRows,
    line: u32,
    invalidation: Option<Invalidation>,
) -> Result<bool, NoMemory>
    requires few_pairs { AreFew pairs.old.entries }
    requires few_harts { AreFew harts.old.entries }
    ensures pairs { OnOk result (pairs.new.entries
        ≡ note_sides_in pcs_of line pairs.old.entries invalidation) }
    ensures harts { OnOk result (harts.new.entries
        ≡ note_sides_in harts_of line harts.old.entries invalidation) }
    ensures stated { IfOk result (λ taken. taken ≡ is_some invalidation) }
    ensures same_pairs { OnErr result (pairs.new.entries ≡ pairs.old.entries) }
    ensures same_harts { OnErr result (harts.new.entries ≡ harts.old.entries) }
    ensures known { IsFalse (has_new_sides (record {
      lines = [];
      pairs = pairs.old.entries;
      harts = harts.old.entries;
    }) line invalidation) → IsOk result }
{
    match invalidation {
        Some(invalidation) => match count_both(pairs, harts, recent, line, &invalidation) {
            Ok(()) => Ok(true),
            Err(fault) => Err(fault),
        },
        None => Ok(false),
    }
}

// Whether a line has an index.
#[inline(always)]
fn is_line_at(lines: &IndexMap<u32, LineTaken>, guess: usize, line: u32) -> bool
    ensures found { IsTrue result → index_of nat_eq lines.now line ≡ Some guess }
    ensures within { IsTrue result → guess < length lines.now.entries }
{
    if lines.len() <= guess {
        return false;
    }
    match lines.get_index(guess) {
        Some((found, _)) => *found == line,
        None => false,
    }
}

// The index of a line, by the table.
#[inline(never)]
fn look_up_line(lines: &IndexMap<u32, LineTaken>, recent: &mut Recent, line: u32) -> Option<usize>
    ensures found { result ≡ index_of nat_eq lines.now line }
    ensures within { IfSome result (λ i. i < length lines.now.entries) }
    ensures new { IfNone result (lookup (eqb line) lines.now.entries ≡ None) }
{
    match lines.get_index_of(&line) {
        Some(index) => {
            recent.keep(line, index);
            Some(index)
        }
        None => {
            recent.add(line, lines.len());
            None
        }
    }
}

// The index of a line, if it was accessed: first the place is looked at where it may be.
#[inline(always)]
fn find(lines: &IndexMap<u32, LineTaken>, recent: &mut Recent, line: u32) -> Option<usize>
    ensures found { result ≡ index_of nat_eq lines.now line }
    ensures within { IfSome result (λ i. i < length lines.now.entries) }
    ensures new { IfNone result (lookup (eqb line) lines.now.entries ≡ None) }
{
    let guess = recent.guess(line);
    if is_line_at(lines, guess, line) {
        return Some(guess);
    }
    look_up_line(lines, recent, line)
}

// What an access takes of the line at an index.
fn invalidation_at(
    lines: &IndexMap<u32, LineTaken>,
    line: u32,
    index: usize,
    position: u64,
    sited: &Sited,
) -> Option<Invalidation>
    requires found { index_of nat_eq lines.now line ≡ Some index }
    requires within { index < length lines.now.entries }
    ensures { result ≡ invalidation_by (taken_of lines.now.entries line).two 0 position sited.now }
{
    match lines.get_index(index) {
        Some((_, known)) => known.two.invalidation(0, position, *sited),
        None => unreachable!(),
    }
}

// Notes an access of the line at an index, and whether it took it.
fn note_at(
    lines: &mut IndexMap<u32, LineTaken>,
    line: u32,
    index: usize,
    sited: &Sited,
    taken: bool,
)
    requires found { index_of nat_eq lines.old line ≡ Some index }
    requires within { index < length lines.old.entries }
    requires few { AreFewTaken lines.old.entries }
    ensures { lines.new.entries ≡ insert_entry nat_eq lines.old.entries line
        (note_line (taken_of lines.old.entries line) sited.now taken) }
{
    match lines.get_index_mut(index) {
        Some(known) => known.note(*sited, taken),
        None => unreachable!(),
    }
}

// Notes the first access of a line, which takes nothing.
fn note_first(lines: &mut IndexMap<u32, LineTaken>, line: u32, sited: Sited) -> Result<(), NoMemory>
    ensures noted { OnOk result (lines.new.entries ≡ insert_entry nat_eq lines.old.entries line
        (note_line untouched sited false)) }
    ensures refused { OnErr result (lines.new.entries ≡ lines.old.entries) }
{
    put(lines, line, LineTaken::first(sited))
}

impl BlameTables {
    // Notes an access of the line at an index: whether it took it.
    fn note_known(
        &mut self,
        line: u32,
        index: usize,
        position: u64,
        sited: Sited,
    ) -> Result<bool, NoMemory>
        requires found { index_of nat_eq self.old.lines line ≡ Some index }
        requires within { index < length self.old.lines.entries }
        requires few { AreFewTaken self.old.lines.entries }
        requires few_pairs { AreFew self.old.pairs.entries }
        requires few_harts { AreFew self.old.harts.entries }
        ensures noted { OnOk result (parts_of self.new
            ≡ note_parts (parts_of self.old) line position sited) }
        ensures stated { IfOk result (λ taken. taken
            ≡ is_some (invalidation_in (parts_of self.old) line position sited)) }
        ensures refused { OnErr result (parts_of self.new ≡ parts_of self.old) }
        ensures known { IsFalse (has_new_sides (parts_of self.old) line
            (invalidation_in (parts_of self.old) line position sited)) → IsOk result }
    {
        let invalidation = invalidation_at(&self.lines, line, index, position, &sited);
        let taken = match count_if_taken(
            &mut self.pairs,
            &mut self.harts,
            &mut self.recent,
            line,
            invalidation,
        ) {
            Ok(taken) => taken,
            Err(fault) => return Err(fault),
        };
        note_at(&mut self.lines, line, index, &sited, taken);
        Ok(taken)
    }

    // Notes the first access of a line, which takes nothing.
    fn note_new(&mut self, line: u32, sited: Sited) -> Result<bool, NoMemory>
        requires { lookup (eqb line) self.old.lines.entries ≡ None }
        ensures noted { (position : ℕ) → OnOk result (parts_of self.new
            ≡ note_parts (parts_of self.old) line position sited) }
        ensures stated { (position : ℕ) → IfOk result (λ taken. taken
            ≡ is_some (invalidation_in (parts_of self.old) line position sited)) }
        ensures refused { OnErr result (parts_of self.new ≡ parts_of self.old) }
    {
        match note_first(&mut self.lines, line, sited) {
            Ok(()) => Ok(false),
            Err(fault) => Err(fault),
        }
    }

    /// Notes an access of a line at a position: whether it took the line. It takes memory where the
    /// line or the sides of the invalidation are new; where there is none, nothing changes.
    pub fn note(&mut self, line: u32, position: u64, sited: Sited) -> Result<bool, NoMemory>
        requires few { AreFewTaken self.old.lines.entries }
        requires few_pairs { AreFew self.old.pairs.entries }
        requires few_harts { AreFew self.old.harts.entries }
        ensures noted { OnOk result (parts_of self.new
            ≡ note_parts (parts_of self.old) line position sited) }
        ensures stated { IfOk result (λ taken. taken
            ≡ is_some (invalidation_in (parts_of self.old) line position sited)) }
        ensures refused { OnErr result (parts_of self.new ≡ parts_of self.old) }
        ensures known { IsFalse (wants_memory_in (parts_of self.old) line position sited)
            → IsOk result }
    {
        match find(&self.lines, &mut self.recent.lines, line) {
            Some(index) => self.note_known(line, index, position, sited),
            None => self.note_new(line, sited),
        }
    }
}
