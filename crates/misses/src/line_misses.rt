// What is kept of a line.
ghost use Rattle.std.specs.Prelude.{◌≡◌, ◌+◌, ◌<◌, ◌^◌, length, slice_set, OnOk};
ghost use Rattle.std.specs.Prelude.{OnErr, IfOk, IsOk, IsTrue};
ghost use Rattle.misses.specs.MissCounts.{blank_line, cost_of, counts_after, has_come};
ghost use Rattle.misses.specs.MissCounts.{misses_now, needs_now, note_line};
ghost use Rattle.misses.specs.Fits.{IsFew};
ghost use Rattle.misses.specs.MissCounts.{visits_after, visits_of};

use crate::hart_table::HartTable;
use crate::kept_write::KeptWrite;
use base::{Access, Kind, NoMemory};
use std::alloc::Global;
use std::marker::Model;

/// The latest write of a word: the position right after it, 0 where there is none, and its hart.
#[derive(Clone, Copy, Debug)]
pub struct LastWrite {
    pub behind: u64,
    pub hart: u16,
}

/// Of a hart in a line: the position right after its last access, and after the last load of its
/// copy; both are 0 where it never came.
#[derive(Clone, Copy, Debug)]
pub struct Visits {
    pub accessed: u64,
    pub loaded: u64,
}

/// How many cold misses, misses and needed loads.
#[derive(Clone, Copy, Debug)]
pub struct Counts {
    pub cold: u64,
    pub misses: u64,
    pub needed: u64,
}

/// What an access costs: whether it is a cold miss, a miss, and a needed load.
#[derive(Clone, Copy, Debug)]
pub struct Cost {
    pub cold: bool,
    pub missed: bool,
    pub needed: bool,
}

/// Of a line, or of all: the cold misses, those that bring what is needed, and those for nothing.
#[derive(Clone, Copy, PartialEq, Eq, Debug)]
pub struct Costs {
    pub cold: u64,
    pub useful: u64,
    pub useless: u64,
}

/// What is kept of a line.
#[derive(Drop)]
pub struct LineMisses {
    written: u64,
    words: Vec<KeptWrite>,
    harts: HartTable,
    counts: Counts,
}

impl Model for LineMisses {
    ghost use Rattle.misses.specs.MissCounts.{LineEntry};

    ghost Value = { LineEntry };

    ghost view = { λ l. record {
      written = l.written;
      words = l.words.items;
      harts = l.harts;
      counts = l.counts;
    } };
}

impl Visits {
    // Whether an access misses in a line whose latest write is this.
    fn misses(&self, written: u64) -> bool
        ensures { result ≡ misses_now self.now written }
    {
        self.accessed == 0 || self.accessed < written
    }

    // Whether an access by this hart of a word with this latest write needs a load.
    fn needs(&self, hart: u16, last: LastWrite) -> bool
        ensures { result ≡ needs_now self.now hart last }
    {
        self.loaded == 0 || (self.loaded < last.behind && hart != last.hart)
    }

    // After one access more.
    fn after(&self, needed: bool, position: u64) -> Visits
        requires { position < 2 ^ 40 }
        ensures { result ≡ visits_after self.now needed position }
    {
        Visits {
            accessed: position + 1,
            loaded: if needed { position + 1 } else { self.loaded },
        }
    }
}

impl Counts {
    // After one access more.
    pub(crate) fn after(&self, cost: Cost) -> Counts
        requires { IsFew self.now }
        ensures { result ≡ counts_after self.now cost }
    {
        Counts {
            cold: self.cold + u64::from(cost.cold),
            misses: self.misses + u64::from(cost.missed),
            needed: self.needed + u64::from(cost.needed),
        }
    }
}

impl Counts {
    ghost use Rattle.misses.specs.Rows.{costs_of};

    // What they say: no needed load is without a miss, and no cold miss without a needed load.
    pub(crate) fn costs(&self) -> Costs
        ensures { result ≡ costs_of self.now }
    {
        Costs {
            cold: self.cold,
            useful: self.needed.saturating_sub(self.cold),
            useless: self.misses.saturating_sub(self.needed),
        }
    }
}

// So many words of which none was written.
fn blank_words(alloc: Global, count: usize) -> Result<Vec<KeptWrite>, NoMemory>
    ensures { IfOk result (λ v. v.items ≡ Rattle.misses.specs.MissCounts.blank_words count) }
{
    let mut words = Vec::with_capacity(alloc, count)?;
    for _ in 0..count {
        words.push(KeptWrite::none())?;
    }
    Ok(words)
}

impl LineMisses {
    /// A line of so many words with no access.
    pub(crate) fn blank(alloc: Global, words: usize) -> Result<LineMisses, NoMemory>
        ensures { IfOk result (λ l. l ≡ blank_line words) }
    {
        Ok(LineMisses {
            written: 0,
            words: blank_words(alloc, words)?,
            harts: HartTable::new(alloc),
            counts: Counts {
                cold: 0,
                misses: 0,
                needed: 0,
            },
        })
    }

    /// What its accesses cost.
    pub(crate) fn counts(&self) -> Counts
        ensures { result ≡ self.now.counts }
    {
        self.counts
    }

    // What an access by a hart with these visits costs.
    fn cost(&self, visits: Visits, place: usize, hart: u16) -> Cost
        requires within { place < length self.now.words }
        requires visits { visits ≡ visits_of self.now.harts hart }
        ensures { result ≡ cost_of self.now place hart }
    {
        Cost {
            cold: visits.accessed == 0,
            missed: visits.misses(self.written),
            needed: visits.needs(hart, self.words[place].write()),
        }
    }

    // Notes the write of a word.
    fn write(&mut self, position: u64, place: usize, hart: u16)
        requires early { position < 2 ^ 40 }
        requires within { place < length self.old.words }
        requires few { hart < 256 }
        ensures { self.new ≡ record self.old {
          written = position + 1;
          words = slice_set self.old.words place (record { behind = position + 1; hart = hart });
        } }
    {
        self.written = position + 1;
        self.words[place] = KeptWrite::of(position + 1, hart);
    }

    /// Notes the access at a position, to the word at a place of the line, and says what it costs.
    /// It takes memory where its hart comes for the first time; where there is none, nothing
    /// changes.
    #[inline(always)]
    pub(crate) fn note(
        &mut self,
        position: u64,
        place: usize,
        access: &Access,
    ) -> Result<Cost, NoMemory>
        requires early { position < 2 ^ 40 }
        requires within { place < length self.old.words }
        requires few { IsFew self.old.counts }
        ensures stated { IfOk result (λ cost. cost ≡ cost_of self.old place access.now.hart) }
        ensures noted { OnOk result (self.new ≡ note_line self.old position place access.now) }
        ensures refused { OnErr result (self.new ≡ self.old) }
        ensures known { IsTrue (has_come self.old access.now.hart) → IsOk result }
    {
        let hart = access.hart().number();
        let visits = self.harts.visits(hart);
        let cost = self.cost(visits, place, hart);
        match self.harts.put(hart, visits.after(cost.needed, position)) {
            Ok(()) => {}
            Err(fault) => return Err(fault),
        }
        self.counts = self.counts.after(cost);
        match access.kind() {
            Kind::Read => {}
            Kind::Write => self.write(position, place, hart),
        }
        Ok(cost)
    }
}
