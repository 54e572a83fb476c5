// The two accesses of a line that determine every victim.
ghost use Rattle.std.specs.Prelude.{◌≡◌};
ghost use Rattle.invalidations.specs.LineInvalidations.{is_held_by, is_latest_by, note_two};
ghost use Rattle.invalidations.specs.LineInvalidations.{invalidation_by, victim_by};

use crate::sited::{Invalidation, Sited};
use base::Kind;

/// The latest access of a line, the latest one by another hart than that one's, and whether the
/// hart of the second still holds the line.
#[derive(Clone, Copy, Debug)]
pub struct LatestTwo {
    pub latest: Option<Sited>,
    pub other: Option<Sited>,
    pub held: bool,
}

impl LatestTwo {
    // Whether the latest access is by a hart.
    fn is_latest_by(&self, hart: u16) -> bool
        ensures { result ≡ is_latest_by self.now hart }
    {
        match self.latest {
            Some(sited) => sited.access.hart().number() == hart,
            None => false,
        }
    }

    // The latest access by another hart.
    fn victim(&self, hart: u16) -> Option<Sited>
        ensures { result ≡ victim_by self.now hart }
    {
        if self.is_latest_by(hart) {
            self.other
        } else {
            self.latest
        }
    }

    // Whether another hart holds the line.
    fn is_held(&self, hart: u16) -> bool
        ensures { result ≡ is_held_by self.now hart }
    {
        if self.is_latest_by(hart) {
            self.held
        } else {
            self.latest.is_some()
        }
    }

    /// What the next access of the line takes, at a position, where it takes anything.
    pub fn invalidation(&self, start: u64, position: u64, sited: Sited) -> Option<Invalidation>
        ensures { result ≡ invalidation_by self.now start position sited }
    {
        let hart = sited.access.hart().number();
        if start < position && sited.access.kind().is_write() && self.is_held(hart) {
            match self.victim(hart) {
                Some(victim) => Some(Invalidation {
                    victim,
                    taker: sited,
                }),
                None => None,
            }
        } else {
            None
        }
    }

    /// Notes the next access of the line.
    pub fn note(&mut self, sited: Sited)
        ensures { self.new ≡ note_two self.old sited }
    {
        let hart = sited.access.hart().number();
        let other = self.victim(hart);
        let held = match sited.access.kind() {
            Kind::Read => self.is_held(hart),
            Kind::Write => false,
        };
        self.latest = Some(sited);
        self.other = other;
        self.held = held;
    }
}
