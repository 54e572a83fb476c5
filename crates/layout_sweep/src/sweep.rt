// All shifts of a line size.
ghost use Rattle.std.specs.Prelude.{◌≡◌, ◌+◌, ◌/◌, ◌%◌, ◌<◌, ◌≤◌, ◌^◌, ◌==◌, ◌&&◌, [], ◌∷◌, ◌++◌};
ghost use Rattle.std.specs.Prelude.{length, nat_lt, slice_get, IsTrue, IfOk, OnOk};
ghost use Rattle.std.specs.Prelude.{OnErr, Some};
ghost use Rattle.sharing_rules.specs.AccessLists.{AccessList};
ghost use Rattle.layout_sweep.specs.Counts.{AreBelow, at_shift, least_of, sweep_of};
ghost use Rattle.layout_sweep.specs.Windows.{IsFirstWrite, is_swept_size};

use crate::counts::Swept;
use crate::pages::{Page, make_room, note_word};
use base::{Access, NoMemory, Steps};
use std::alloc::Global;
use std::sync::ledger::Ledger;

/// What every shift of a line size counts, so far.
#[derive(Drop)]
pub struct Sweep {
    size: u32,
    position: u64,
    counts: Vec<Swept>,
    pages: Vec<Page>,
    alloc: Global,
    pub ghost sized: { IsTrue (is_swept_size size) },
    pub ghost each: { length counts.items ≡ size / 4 },
    pub ghost few: { AreBelow (position + 1) counts.items },
}

// Nothing counted at any shift.
fn blank_counts(alloc: Global, size: u32) -> Result<Vec<Swept>, NoMemory>
    requires { size ≤ 256 }
    ensures { IfOk result (λ counts. counts.items ≡ sweep_of size []) }
{
    let mut counts = Vec::new(alloc);
    for i in 0..size / 4 {
        let swept = Swept {
            shift: 4 * i,
            total: 0,
            lines: 0,
        };
        match counts.push(swept) {
            Ok(()) => (),
            Err(_) => return Err(NoMemory),
        }
    }
    Ok(counts)
}

// What stands at a place, if there is something.
fn count_at(counts: &[Swept], i: usize) -> Option<Swept>
    ensures { result ≡ slice_get counts.now i }
{
    counts.get(i).copied()
}

// The first whose total is at most every other's.
fn first_least(counts: &[Swept]) -> Swept
    requires { 0 < length counts.now }
    ensures { Some result ≡ least_of counts.now }
{
    let mut least = counts[0];
    for i in 1..counts.len() {
        if counts[i].total < least.total {
            least = counts[i];
        }
    }
    least
}

impl Sweep {
    ghost use Rattle.layout_sweep.specs.Seen.{HasSwept, begins_at};
    ghost use Rattle.layout_sweep.specs.Standing.{StandsFor};

    /// No access so far. The size is a power of two from 4 to 256.
    pub fn new(alloc: Global, size: u32) -> Result<Sweep, NoMemory>
        requires { IsTrue (is_swept_size size) }
        ensures size { IfOk result (λ sweep. sweep.size ≡ size) }
        ensures stands { IfOk result (StandsFor []) }
        ensures begins { IfOk result (λ sweep. begins_at sweep 0) }
        ensures fresh { IfOk result (λ sweep. HasSwept sweep sweep []) }
    {
        match blank_counts(alloc, size) {
            Ok(counts) => Ok(Sweep {
                size,
                position: 0,
                counts,
                pages: Vec::new(alloc),
                alloc,
            }),
            Err(refused) => Err(refused),
        }
    }

    /// How many bytes a line has.
    pub fn size(&self) -> u32
        ensures value { result ≡ self.now.size }
        ensures sized { IsTrue (is_swept_size self.now.size) }
    {
        self.size
    }

    /// How many accesses were noted.
    pub fn position(&self) -> u64
        ensures { result ≡ self.now.position }
    {
        self.position
    }

    /// What each shift counts, the shifts rising.
    pub fn counts(&self) -> &[Swept]
        ensures { (t : AccessList) → StandsFor t self.now
            → result.now ≡ sweep_of self.now.size t }
    {
        self.counts.as_slice()
    }

    // Whether a shift is a multiple of 4 below the size.
    fn has_shift(&self, shift: u32) -> bool
        ensures { result ≡ (nat_lt shift self.now.size && (shift % 4 == 0)) }
    {
        shift < self.size && shift % 4 == 0
    }

    /// What a shift counts: None exactly where it is no multiple of 4 below the size.
    pub fn at(&self, shift: u32) -> Option<Swept>
        ensures { (t : AccessList) → StandsFor t self.now
            → result ≡ at_shift self.now.size t shift }
    {
        if self.has_shift(shift) {
            count_at(self.counts.as_slice(), (shift / 4) as usize)
        } else {
            None
        }
    }

    /// The shift whose total no other undercuts, the lowest of these.
    pub fn least(&self) -> Swept
        ensures { (t : AccessList) → StandsFor t self.now
            → Some result ≡ least_of (sweep_of self.now.size t) }
    {
        first_least(self.counts.as_slice())
    }

    /// Notes the next access, before position 2^40, in size / 4 steps. It takes memory only for a
    /// write, where a line of some shift gets its first. NoMemory leaves every meaning as it was.
    pub fn on_access<L: Ledger>(
        &mut self,
        access: Access,
        steps: &mut Steps<L>,
    ) -> Result<(), NoMemory>
        requires { self.old.position < 2 ^ 40 }
        ensures stands { (t : AccessList) → StandsFor t self.old
            → OnOk result (StandsFor (t ++ access ∷ []) self.new) }
        ensures size { self.new.size ≡ self.old.size }
        ensures next { OnOk result (self.new.position ≡ self.old.position + 1) }
        ensures cost { OnOk result (steps.new ≡ steps.old + self.old.size / 4) }
        ensures known { (t : AccessList) → StandsFor t self.old
            → OnErr result (IsFirstWrite self.old.size t access) }
        ensures same { OnErr result (self.new.position ≡ self.old.position) }
        ensures still { (t : AccessList) → StandsFor t self.old
            → OnErr result (StandsFor t self.new) }
    {
        let word = u64::from(access.addr() / 4);
        let words = u64::from(self.size / 4);
        match make_room(&mut self.pages, word, words, access, self.alloc) {
            Ok(()) => (),
            Err(refused) => return Err(refused),
        }
        note_word(
            &mut self.pages,
            self.counts.as_mut_slice(),
            word,
            access,
            steps,
        );
        self.position += 1;
        Ok(())
    }
}
