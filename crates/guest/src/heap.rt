// The guest's heap.
ghost use Rattle.std.specs.Prelude.{◌≡◌, ◌≤◌, ◌<◌, ◌%◌, ◌↔◌, [], length, IsTrue, IsOk};
ghost use Rattle.std.specs.Prelude.{IfOk, OnOk, OnErr, MatchOption};
ghost use Rattle.std.specs.List.{list_any};
ghost use Rattle.guest.specs.Heaps.{rounded, most_blocks, lives_at};
ghost use Rattle.guest.specs.Heaps.{HasNoPlace, IsLeastPlace, after_alloc, after_free};

use crate::block_tree::BlockTree;
use base::NoMemory;
use std::alloc::Global;
use std::marker::Model;

// How many blocks a heap ever makes.
const MOST_BLOCKS: usize = 1 << 20;

/// No live block begins at an address.
#[derive(Clone, Copy, PartialEq, Eq, Debug)]
pub struct NotLive;

/// A block that was made, of so many asked bytes.
#[derive(Clone, Copy, PartialEq, Eq, Debug)]
pub struct HeapBlock {
    pub addr: u32,
    pub size: u32,
    pub live: bool,
}

/// The heap from an address up to another.
///
/// Contracts see both and the list of all blocks that were ever made, live or dead, in order of
/// making.
#[derive(Drop)]
pub struct GuestHeap {
    start: u32,
    end: u32,
    // how many bytes are free before the first live block
    gap: u32,
    blocks: Vec<HeapBlock>,
    live: BlockTree,
}

impl Model for GuestHeap {
    ghost use Rattle.guest.specs.Heaps.{Heap};
    ghost use Rattle.guest.specs.HeapLayout.{IsLaidOut};

    ghost Value = { Heap };

    ghost view = { λ h. record { start = h.start; end = h.end; blocks = h.blocks.items } };

    ghost invariant = { λ h. IsLaidOut h.start h.gap h.end h.live.0 h.blocks.items };
}

// How many bytes a block of a size takes: a multiple of 16, at least 16.
fn rounded(size: u32) -> u64
    ensures value { result ≡ rounded size }
    ensures small { result < 4294967312 }
{
    ((u64::from(size) + 15) / 16 * 16).max(16)
}

impl GuestHeap {
    /// An empty heap from `start` up to `end`, both multiples of 16. It takes no memory here.
    pub fn new(alloc: Global, start: u32, end: u32) -> GuestHeap
        requires start_aligned { start % 16 ≡ 0 }
        requires end_aligned { end % 16 ≡ 0 }
        requires ordered { start ≤ end }
        ensures { result ≡ record { start = start; end = end; blocks = [] } }
    {
        GuestHeap {
            start,
            end,
            gap: end - start,
            blocks: Vec::new(alloc),
            live: BlockTree::new(),
        }
    }

    /// Makes a block of `size` bytes, rounded up to a multiple of 16 and at least 16, at the least
    /// multiple of 16 where these bytes lie in the heap and meet no live block. None exactly where
    /// there is no such place, or 2^20 blocks were ever made. It takes memory for a block that is
    /// made; where there is none, nothing changes.
    pub fn alloc(&mut self, size: u32) -> Result<Option<u32>, NoMemory>
        ensures place { IfOk result (λ place.
            MatchOption place (HasNoPlace self.old size) (IsLeastPlace self.old size)) }
        ensures made { IfOk result (λ place. self.new ≡ after_alloc self.old size place) }
        ensures refused { OnErr result (self.new ≡ self.old) }
        ensures settled { HasNoPlace self.old size → IsOk result }
    {
        if self.is_spent() {
            return Ok(None);
        }
        let bytes = rounded(size);
        if bytes > u64::from(self.live.most().max(self.gap)) {
            return Ok(None);
        }
        self.blocks.reserve(1)?;
        let alloc = *self.blocks.allocator();
        let number = self.blocks.len() as u32;
        match self
            .live
            .insert(alloc, self.start, &mut self.gap, bytes as u32, number)
        {
            Ok(place) => {
                self.blocks.push_reserved(HeapBlock {
                    addr: place,
                    size,
                    live: true,
                });
                Ok(Some(place))
            }
            Err(fault) => Err(fault),
        }
    }

    /// Lets the live block that begins at an address die. NotLive exactly where there is none;
    /// nothing changes then.
    pub fn free(&mut self, addr: u32) -> Result<(), NotLive>
        ensures live { IsOk result ↔ IsTrue (list_any (lives_at addr) self.old.blocks) }
        ensures freed { OnOk result (self.new ≡ after_free self.old addr) }
        ensures refused { OnErr result (self.new ≡ self.old) }
    {
        let Some(number) = self.live.remove(&mut self.gap, addr) else {
            return Err(NotLive);
        };
        self.blocks[number as usize].live = false;
        Ok(())
    }

    // Whether it makes no block more.
    fn is_spent(&self) -> bool
        ensures { IsTrue result ↔ (most_blocks ≤ length self.now.blocks) }
    {
        self.blocks.len() >= MOST_BLOCKS
    }
}
