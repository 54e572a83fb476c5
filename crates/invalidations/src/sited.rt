// Accesses with their pcs, and invalidations.
ghost use Rattle.std.specs.Prelude.{◌≡◌};
ghost use Rattle.invalidations.specs.Invalidations.{harts_of, is_of_one_word, pcs_of};

use base::Access;

/// An access, with the pc of its hart at the step that made it.
#[derive(Clone, Copy, PartialEq, Eq, Debug)]
pub struct Sited {
    pub access: Access,
    pub pc: u32,
}

/// An access that took a line, and its victim: the latest access in the line by another hart.
#[derive(Clone, Copy, PartialEq, Eq, Debug)]
pub struct Invalidation {
    pub victim: Sited,
    pub taker: Sited,
}

/// The two sides of an invalidation, each by a number: by its pc, or by its hart.
#[derive(Clone, Copy, PartialEq, Eq, Hash, Debug, Drop)]
pub struct Sides {
    pub victim: u32,
    pub taker: u32,
}

impl Invalidation {
    /// Its two sides by their pcs.
    pub fn pcs(&self) -> Sides
        ensures { result ≡ pcs_of self.now }
    {
        Sides {
            victim: self.victim.pc,
            taker: self.taker.pc,
        }
    }

    /// Its two sides by their harts.
    pub fn harts(&self) -> Sides
        ensures { result ≡ harts_of self.now }
    {
        Sides {
            victim: u32::from(self.victim.access.hart().number()),
            taker: u32::from(self.taker.access.hart().number()),
        }
    }

    /// Whether both accesses lie in one word.
    pub fn is_of_one_word(&self) -> bool
        ensures { result ≡ is_of_one_word self.now }
    {
        self.victim.access.addr() / 4 == self.taker.access.addr() / 4
    }
}
