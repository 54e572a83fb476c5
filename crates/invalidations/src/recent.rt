// Where the entries that came lately are in the tables of invalidations.
use misses::Recent;
use std::alloc::Global;

// Chosen so that nearby sides in nearby lines don't meet in 2^8 places and more, whatever power of
// two these are: the least difference of two that meet is nearly as long as it can be.
const OF_VICTIM: u32 = 502_439_277;

const OF_LINE: u32 = 1_899_310_863;

/// A number for two sides in a line.
#[inline(always)]
pub(crate) fn mixed(line: u32, victim: u32, taker: u32) -> u32 {
    let by_line = line.wrapping_mul(OF_LINE);
    taker
        .wrapping_add(victim.wrapping_mul(OF_VICTIM))
        .wrapping_add(by_line)
}

/// Of each table of the invalidations of all lines, where its entries may be.
#[derive(Drop)]
pub(crate) struct RecentRows {
    pub lines: Recent,
    pub pairs: Recent,
    pub harts: Recent,
}

impl RecentRows {
    /// Nothing is remembered. That takes no memory.
    pub fn new(alloc: Global) -> RecentRows {
        RecentRows {
            lines: Recent::new(alloc),
            pairs: Recent::new(alloc),
            harts: Recent::new(alloc),
        }
    }
}
