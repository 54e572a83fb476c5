// A heap block, with its life.

/// A heap block. Positions are numbers of accesses: it lives from `born` on, and up to `died` if it
/// died.
#[derive(Clone, Copy, PartialEq, Eq, Debug)]
pub struct Block {
    /// Its first address.
    pub addr: u32,
    /// How many bytes were asked for.
    pub size: u32,
    /// The pcs of the last four calls of the hart that made it, the newest first; 0 where there is
    /// none.
    pub sites: [u32; 4],
    /// The position of its birth.
    pub born: u64,
    /// The position of its death: None while it lives.
    pub died: Option<u64>,
}
