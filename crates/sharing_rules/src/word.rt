// What is known of one word of a line.
ghost use Rattle.std.specs.Prelude.{◌≡◌, ◌+◌, ◌<◌, ◌^◌, []};
ghost use Rattle.sharing_rules.specs.Words.{accesses, note_owner, note_word, tally};

use base::{Access, Hart, Kind};

/// Which harts touched a word.
#[derive(Clone, Copy, PartialEq, Eq, Debug)]
pub enum Owner {
    /// None did.
    None,
    /// One alone did.
    One(Hart),
    /// At least two did.
    Many,
}

impl Owner {
    /// One access by a hart more.
    #[inline(always)]
    pub fn note(&mut self, hart: Hart)
        ensures { self.new ≡ note_owner self.old hart }
    {
        let owner = *self;
        match owner {
            Owner::None => *self = Owner::One(hart),
            Owner::One(one) => {
                if hart.number() != one.number() {
                    *self = Owner::Many;
                }
            }
            Owner::Many => {}
        }
    }
}

/// The accesses of a word of 4 bytes since some position.
#[derive(Clone, Copy, PartialEq, Eq, Debug)]
pub struct Word {
    /// How many reads.
    pub reads: u64,
    /// How many writes.
    pub writes: u64,
    /// By which harts.
    pub owner: Owner,
}

impl Word {
    /// A word that no one touched.
    pub fn blank() -> Word
        ensures value { result ≡ tally [] }
        ensures none { accesses result ≡ 0 }
    {
        Word {
            reads: 0,
            writes: 0,
            owner: Owner::None,
        }
    }

    /// How often it was accessed, reads and writes together.
    pub fn accesses(&self) -> u64
        requires { accesses self.now < 2 ^ 64 }
        ensures { result ≡ accesses self.now }
    {
        self.reads + self.writes
    }

    /// One access of it more.
    #[inline(always)]
    pub fn note(&mut self, access: &Access)
        requires { accesses self.old < 2 ^ 63 }
        ensures value { self.new ≡ note_word self.old access.now }
        ensures more { accesses self.new ≡ accesses self.old + 1 }
    {
        self.owner.note(access.hart());
        match access.kind() {
            Kind::Read => self.reads += 1,
            Kind::Write => self.writes += 1,
        }
    }
}
