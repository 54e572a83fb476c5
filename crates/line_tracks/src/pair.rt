// A pair of words.

/// A word of a line and a word of the line above it, by their addresses.
#[derive(Clone, Copy, PartialEq, Eq, Debug)]
pub struct Pair {
    /// The address of the lower word.
    pub x: u32,
    /// The address of the upper word.
    pub y: u32,
}
