// What is asked of the shape of caches.
ghost use Rattle.std.specs.Prelude.{◌≡◌, ◌≤◌, ◌^◌};
ghost use Rattle.std.specs.NonZero.{non_zero_usize_get};
ghost use Rattle.finite_cache.specs.Bounded.{line_in, set_of};
ghost use Rattle.finite_cache.specs.CacheState as kept;

use base::{Hart, Shape};
use std::num::NonZeroUsize;

/// The line of an address.
pub fn line_of(shape: Shape, addr: u32) -> u64
    ensures value { result ≡ line_in shape addr }
    ensures small { result ≤ 2 ^ 30 }
{
    shape.layout().number_of(addr)
}

/// Where the list of a hart's set of a line is kept.
pub fn cell_of(shape: Shape, hart: Hart, line: u64) -> u32
    ensures { result ≡ kept.cell_of shape hart (set_of shape line) }
{
    let sets = shape.sets();
    let set = line.saturating_sub(1) % u64::from(sets);
    u32::from(hart.number()) * sets + set as u32
}

/// How many lines a set has room for, which is at least one.
pub fn capacity(shape: Shape) -> NonZeroUsize
    ensures { non_zero_usize_get result ≡ shape.ways }
{
    NonZeroUsize::new(shape.ways() as usize).unwrap()
}
