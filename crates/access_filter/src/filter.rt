// The pass that finds redundant accesses.
ghost use Rattle.std.specs.Prelude.{◌≡◌, ℕ, ◌+◌, ◌/◌, ◌<◌, ◌≤◌, ◌^◌, ◌⊎◌, [], ◌∷◌, ◌++◌};
ghost use Rattle.std.specs.Prelude.{IsTrue, IfOk, OnOk, OnErr, not};
ghost use Rattle.base.specs.Touch.{IsAllowed};
ghost use Rattle.sharing_rules.specs.AccessLists.{AccessList};
ghost use Rattle.sharing_rules.specs.Filtered.{is_redundant};
ghost use Rattle.access_filter.specs.Stamps.{blank_stamp, number_of};
ghost use Rattle.access_filter.specs.Pages.{has_stamp, stamp_at};
ghost use Rattle.access_filter.specs.Rules.{AreFit, HasBlankBeside, HasNewRegion, IsKept};
ghost use Rattle.access_filter.specs.Rules.{IsNewWord, finds_redundant};

use crate::pages::{Page, get, make_page, put};
use crate::regions;
use crate::stamp::Stamp;
use base::{Access, NoMemory};
use std::alloc::Global;

/// Finds the redundant accesses of a list, one after another.
#[derive(Drop)]
pub struct Filter {
    near: u32,
    position: u64,
    words: Vec<Page>,
    regions: Vec<Page>,
    alloc: Global,
    pub ghost ranged: { (6 ≤ near) × (near ≤ 16) },
    pub ghost fit: { AreFit near position (stamp_at words.items) (stamp_at regions.items) },
}

// The number of the region of an address.
#[inline(always)]
fn region_of(addr: u32, near: u32) -> u64
    requires { near ≤ 16 }
    ensures value { result ≡ addr / 2 ^ near }
    ensures early { result < 2 ^ 32 }
{
    u64::from(addr >> near)
}

// Makes what an access needs that is kept. NoMemory leaves all stamps as they were.
fn make_room(
    words: &mut Vec<Page>,
    regions: &mut Vec<Page>,
    word: u64,
    region: u64,
    alloc: Global,
) -> Result<(), NoMemory>
    requires { region < 2 ^ 32 }
    ensures words { (q : ℕ) → stamp_at words.new.items q ≡ stamp_at words.old.items q }
    ensures regions { (q : ℕ) → stamp_at regions.new.items q ≡ stamp_at regions.old.items q }
    ensures word { OnOk result (IsTrue (has_stamp words.new.items word)) }
    ensures near { OnOk result ((q : ℕ) → region ≤ q → q ≤ region + 2
        → IsTrue (has_stamp regions.new.items q)) }
    ensures blank { OnErr result ((stamp_at words.old.items word ≡ blank_stamp)
        ⊎ HasBlankBeside (stamp_at regions.old.items) region) }
{
    match make_page(words, word, alloc) {
        Ok(()) => regions::make_room(regions, region, alloc),
        Err(refused) => Err(refused),
    }
}

// Notes an access that is kept.
#[inline(always)]
fn keep(words: &mut Vec<Page>, regions: &mut Vec<Page>, word: u64, region: u64, access: Access)
    requires early { region < 2 ^ 32 }
    requires word { IsTrue (has_stamp words.old.items word) }
    requires near { (q : ℕ) → region ≤ q → q ≤ region + 2
        → IsTrue (has_stamp regions.old.items q) }
    requires few { (q : ℕ) → number_of (stamp_at regions.old.items q) < 2 ^ 63 }
    ensures { IsKept word region access (stamp_at words.old.items) (stamp_at regions.old.items)
        (stamp_at words.new.items) (stamp_at regions.new.items) }
{
    regions::visit_all(regions, region, access.hart());
    let number = get(regions, region + 1).number();
    put(
        words,
        word,
        Stamp::new(access.hart(), access.kind().is_write(), number),
    );
}

impl Filter {
    ghost use Rattle.access_filter.specs.Standing.{StandsFor};

    /// No access so far. Regions have 2^near bytes.
    pub fn new(alloc: Global, near: u32) -> Filter
        requires ranged { (6 ≤ near) × (near ≤ 16) }
        ensures near { result.near ≡ near }
        ensures stands { StandsFor [] result }
    {
        Filter {
            near,
            position: 0,
            words: Vec::new(alloc),
            regions: Vec::new(alloc),
            alloc,
        }
    }

    /// How many accesses there were.
    pub fn position(&self) -> u64
        ensures { result ≡ self.now.position }
    {
        self.position
    }

    // Whether the stamps say that an access is redundant.
    #[inline(always)]
    fn is_redundant(&self, word: u64, region: u64, access: Access) -> bool
        requires word { word ≡ access.addr / 4 }
        requires region { region ≡ access.addr / 2 ^ self.now.near }
        ensures value { result ≡ finds_redundant self.now.near (stamp_at self.now.words.items)
            (stamp_at self.now.regions.items) access }
        ensures allowed { IsAllowed access }
    {
        let stamp = get(&self.words, word);
        stamp.covers(access) && stamp.number() == get(&self.regions, region + 1).number()
    }

    /// Takes the next access, before position 2^63: true exactly where it is kept, as it isn't
    /// redundant. NoMemory leaves all as it was, and comes only where an access is the first of its
    /// word, or the first near one of the regions beside it.
    pub fn on_access(&mut self, access: Access) -> Result<bool, NoMemory>
        requires { self.old.position < 2 ^ 63 }
        ensures kept { (t : AccessList) → StandsFor t self.old
            → IfOk result (λ kept. kept ≡ not (is_redundant self.old.near t access)) }
        ensures stands { (t : AccessList) → StandsFor t self.old
            → OnOk result (StandsFor (t ++ access ∷ []) self.new) }
        ensures near { self.new.near ≡ self.old.near }
        ensures next { OnOk result (self.new.position ≡ self.old.position + 1) }
        ensures same { OnErr result (self.new.position ≡ self.old.position) }
        ensures still { (t : AccessList) → StandsFor t self.old
            → OnErr result (StandsFor t self.new) }
        ensures known { (t : AccessList) → StandsFor t self.old
            → OnErr result (IsNewWord t access ⊎ HasNewRegion self.old.near t access) }
    {
        let word = u64::from(access.addr() / 4);
        let region = region_of(access.addr(), self.near);
        if self.is_redundant(word, region, access) {
            self.position += 1;
            return Ok(false);
        }
        match make_room(&mut self.words, &mut self.regions, word, region, self.alloc) {
            Ok(()) => (),
            Err(refused) => return Err(refused),
        }
        keep(&mut self.words, &mut self.regions, word, region, access);
        self.position += 1;
        Ok(true)
    }
}
