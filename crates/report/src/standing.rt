// What stands on a line.
ghost use Rattle.std.specs.Prelude.{◌≡◌, ◌↔◌, IsTrue};
ghost use Rattle.report.specs.Standing.{BlockStands, SymbolStands};
ghost use Rattle.report.specs.Standing.{block_stands, last_position, symbol_stands};

use base::Range;
use objects::Block;

/// Whether a symbol of `size` bytes at `addr` stands on a line: some address of its bytes is in the
/// range. One of no bytes stands nowhere.
pub fn symbol_on(range: Range, addr: u32, size: u32) -> bool
    ensures exact { IsTrue result ↔ SymbolStands range addr size }
    ensures test { result ≡ symbol_stands range addr size }
{
    do_meet(range, addr, size)
}

/// Whether a block stands on a line that is kept from the position `start` up to `end`: its asked
/// bytes meet the range, and at some position from `start` on and before `end` it is born and has
/// not died.
pub fn block_on(range: Range, start: u64, end: u64, block: &Block) -> bool
    ensures exact { IsTrue result ↔ BlockStands range start end block.now }
    ensures test { result ≡ block_stands range start end block.now }
{
    stands_between(range, start, end, block)
}

// Whether a range and `size` bytes from `addr` on have an address in common.
fn do_meet(range: Range, addr: u32, size: u32) -> bool
    ensures { result ≡ symbol_stands range addr size }
{
    let first = i64::from(addr);
    let begins = range.base > first || first < range.base + i64::from(range.size);
    size > 0 && range.size > 0 && begins && range.base < first + i64::from(size)
}

fn stands_between(range: Range, start: u64, end: u64, block: &Block) -> bool
    ensures { result ≡ block_stands range start end block.now }
{
    do_meet(range, block.addr, block.size) && block.born.max(start) < last(block.died, end)
}

// Up to which position a block is kept.
fn last(died: Option<u64>, end: u64) -> u64
    ensures { result ≡ last_position died end }
{
    match died {
        Some(died) => died.min(end),
        None => end,
    }
}
