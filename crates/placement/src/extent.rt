// Where an object lies.

/// Where an object lies: its first address, and how many bytes it has.
#[derive(Clone, Copy, PartialEq, Eq, Debug)]
pub struct Extent {
    /// Its first address.
    pub addr: u32,
    /// How many bytes it has.
    pub size: u32,
}
