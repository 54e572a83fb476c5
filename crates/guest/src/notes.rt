// The blocks that a guest notes.
ghost use Rattle.std.specs.Prelude.{◌≡◌, ◌≤◌, ◌<◌, ◌↔◌, IsOk, IsTrue, OnOk, OnErr, if◌then◌else◌};
ghost use Rattle.guest.specs.Notes.{most_noted, none_noted, after_noting, after_dying, is_noted};

use base::NoMemory;
use std::alloc::Global;
use std::collections::BTreeSet;
use std::marker::Model;

// How many blocks a guest ever notes.
const MOST_NOTED: u32 = 1 << 20;

/// The blocks that a guest's own allocator notes: how many there were, and where they live.
#[derive(Drop)]
pub struct NotedBlocks {
    made: u32,
    live: BTreeSet<u32>,
}

impl Model for NotedBlocks {
    ghost use Rattle.std.specs.Prelude.{◌≤◌};
    ghost use Rattle.guest.specs.Notes.{Noted, most_noted};

    ghost Value = { Noted };

    ghost view = { λ a. record { made = a.made; live = a.live.keys } };

    ghost invariant = { λ a. a.made ≤ most_noted };
}

impl NotedBlocks {
    /// None was noted yet. It takes no memory here.
    pub fn new(alloc: Global) -> NotedBlocks
        ensures { result ≡ none_noted }
    {
        NotedBlocks {
            made: 0,
            live: BTreeSet::new(alloc),
        }
    }

    /// Whether no block more is noted.
    pub fn is_spent(&self) -> bool
        ensures { IsTrue result ↔ (most_noted ≤ self.now.made) }
    {
        self.made >= MOST_NOTED
    }

    /// Notes a block at an address; one that lives there dies. It takes memory where none lives
    /// there, and where there is none, nothing changes.
    pub fn note(&mut self, addr: u32) -> Result<(), NoMemory>
        requires { self.old.made < most_noted }
        ensures noted { OnOk result (self.new ≡ after_noting self.old addr) }
        ensures refused { OnErr result (self.new ≡ self.old) }
        ensures known { IsTrue (is_noted self.old addr) → IsOk result }
    {
        self.live.insert(addr)?;
        self.made += 1;
        Ok(())
    }

    /// Lets the noted block at an address die. Whether there was one.
    pub fn end(&mut self, addr: u32) -> bool
        ensures there { result ≡ is_noted self.old addr }
        ensures ended { self.new ≡ (if result then after_dying self.old addr else self.old) }
    {
        self.live.remove(&addr)
    }
}
