// What a hart is at, and what a join answers.
ghost use Rattle.std.specs.Prelude.{◌≡◌};
ghost use Rattle.guest.specs.Phases.{ended_code, is_free, is_joining, is_over, is_runnable};
ghost use Rattle.guest.specs.Phases.{is_waiting_at};

use base::Hart;

/// What a hart is at.
#[derive(Clone, Copy, PartialEq, Eq, Debug)]
pub enum HartPhase {
    /// It can be spawned.
    Free,
    /// It can run.
    Runnable,
    /// It waits until this hart ends.
    Joining(Hart),
    /// It waits until it is woken at this address.
    Waiting(u32),
    /// It has ended with this code, and no hart has joined it yet.
    Ended(u32),
}

/// What a join answers.
#[derive(Clone, Copy, PartialEq, Eq, Debug)]
pub enum JoinEnd {
    /// The hart can't be joined.
    Bad,
    /// The hart had ended with this code.
    Done(u32),
    /// The hart goes on, and the caller waits for its end.
    Waits,
}

impl HartPhase {
    /// Whether a hart in this phase can be spawned.
    pub fn is_free(&self) -> bool
        ensures { result ≡ is_free self.now }
    {
        match self {
            HartPhase::Free => true,
            HartPhase::Runnable
            | HartPhase::Joining(_)
            | HartPhase::Waiting(_)
            | HartPhase::Ended(_) => false,
        }
    }

    /// Whether it can run.
    pub fn is_runnable(&self) -> bool
        ensures { result ≡ is_runnable self.now }
    {
        match self {
            HartPhase::Runnable => true,
            HartPhase::Free | HartPhase::Joining(_) | HartPhase::Waiting(_) | HartPhase::Ended(_) =>
                false,
        }
    }

    /// Whether it is joining this hart.
    pub fn is_joining(&self, target: Hart) -> bool
        ensures { result ≡ is_joining target self.now }
    {
        match self {
            HartPhase::Joining(hart) => hart.number() == target.number(),
            HartPhase::Free | HartPhase::Runnable | HartPhase::Waiting(_) | HartPhase::Ended(_) =>
                false,
        }
    }

    /// Whether it waits at this address.
    pub fn is_waiting_at(&self, addr: u32) -> bool
        ensures { result ≡ is_waiting_at addr self.now }
    {
        match self {
            HartPhase::Waiting(at) => *at == addr,
            HartPhase::Free | HartPhase::Runnable | HartPhase::Joining(_) | HartPhase::Ended(_) =>
                false,
        }
    }

    /// The code with which it has ended, if it has.
    pub fn ended_code(&self) -> Option<u32>
        ensures { result ≡ ended_code self.now }
    {
        match self {
            HartPhase::Ended(code) => Some(*code),
            HartPhase::Free | HartPhase::Runnable | HartPhase::Joining(_) | HartPhase::Waiting(_) =>
                None,
        }
    }

    /// Whether it is free or has ended.
    pub fn is_over(&self) -> bool
        ensures { result ≡ is_over self.now }
    {
        match self {
            HartPhase::Free | HartPhase::Ended(_) => true,
            HartPhase::Runnable | HartPhase::Joining(_) | HartPhase::Waiting(_) => false,
        }
    }
}
