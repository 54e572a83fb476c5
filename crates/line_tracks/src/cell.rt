// A word as a shadow keeps it, in 16 bytes.
ghost use Rattle.std.specs.Prelude.{◌≡◌, ◌≢◌, ◌+◌, ◌<◌, ◌^◌, []};
ghost use Rattle.sharing_rules.specs.declared.word.Owner.TheVariants.{One};
ghost use Rattle.sharing_rules.specs.Words.{accesses, note_owner, note_word, tally};
ghost use Rattle.line_tracks.specs.OwnerNumbers.{owner_number};

use base::{Access, Hart, Kind};
use sharing_rules::{Owner, Word};
use std::marker::Model;

// Stand for no owner, and for many.
const NO_HART: u64 = 256;

const MANY_HARTS: u64 = 257;

/// A word whose owner is one number, so that one comparison decides whether an access leaves it.
///
/// Contracts see the word.
#[derive(Clone, Copy)]
pub struct Cell {
    // The reads, 65,536 times, and the number of the hart that owns it.
    reads: u64,
    writes: u64,
}

impl Model for Cell {
    ghost use Rattle.sharing_rules.specs.declared.word.Word.{Word};

    ghost Value = { Word };

    ghost use Rattle.line_tracks.specs.CellFields.{fields_of, word_of, IsOwned};

    ghost view = { word_of };

    ghost invariant = { IsOwned };

    ghost inverse = { fields_of };

    ghost use Rattle.line_tracks.specs.Laws.CellFields.{fields_back};

    ghost inverse_ok = { fields_back };
}

// The number of an owner.
fn number_of(owner: Owner) -> u64
    ensures value { result ≡ owner_number owner }
    ensures small { result < 258 }
{
    match owner {
        Owner::None => NO_HART,
        Owner::One(hart) => u64::from(hart.number()),
        Owner::Many => MANY_HARTS,
    }
}

impl Cell {
    /// A word that no one touched.
    pub fn blank() -> Cell
        ensures { result ≡ tally [] }
    {
        Cell {
            reads: NO_HART,
            writes: 0,
        }
    }

    /// A word.
    pub fn of(word: Word) -> Cell
        requires { word.reads < 2 ^ 41 }
        ensures { result ≡ word }
    {
        Cell {
            reads: word.reads * 65_536 + number_of(word.owner),
            writes: word.writes,
        }
    }

    /// The word.
    pub fn word(&self) -> Word
        ensures { result ≡ self.now }
    {
        let owner = match self.reads % 65_536 {
            NO_HART => Owner::None,
            MANY_HARTS => Owner::Many,
            number => Owner::One(Hart::of_byte(number as u8)),
        };
        Word {
            reads: self.reads / 65_536,
            writes: self.writes,
            owner,
        }
    }

    /// How often it was accessed.
    pub fn accesses(&self) -> u64
        requires { accesses self.now < 2 ^ 64 }
        ensures { result ≡ accesses self.now }
    {
        self.reads / 65_536 + self.writes
    }

    // An access of a hart that doesn't own it makes that the owner where there is none, and else
    // many. Few accesses come here.
    #[inline(never)]
    fn change(&mut self, hart: Hart)
        requires { self.old.owner ≢ One hart }
        ensures { self.new ≡ record {
          reads = self.old.reads;
          writes = self.old.writes;
          owner = note_owner self.old.owner hart;
        } }
    {
        let next = if self.reads % 65_536 == NO_HART {
            u64::from(hart.number())
        } else {
            MANY_HARTS
        };
        self.reads = self.reads / 65_536 * 65_536 + next;
    }

    // One hart's access.
    #[inline(always)]
    fn own(&mut self, hart: Hart)
        ensures { self.new ≡ record {
          reads = self.old.reads;
          writes = self.old.writes;
          owner = note_owner self.old.owner hart;
        } }
    {
        if self.reads % 65_536 != u64::from(hart.number()) {
            self.change(hart);
        }
    }

    /// One access of it more.
    #[inline(always)]
    pub fn note(&mut self, access: &Access)
        requires { accesses self.old < 2 ^ 41 }
        ensures value { self.new ≡ note_word self.old access.now }
        ensures more { accesses self.new ≡ accesses self.old + 1 }
    {
        self.own(access.hart());
        match access.kind() {
            Kind::Read => self.reads += 65_536,
            Kind::Write => self.writes += 1,
        }
    }
}
