// What is counted at one shift.

/// The total of a shift, and how many of its lines have a part in it.
#[derive(Clone, Copy, PartialEq, Eq, Debug, Drop)]
pub struct Swept {
    /// Where its lines begin within the line size.
    pub shift: u32,
    /// The invalidations of its lines, of each since its first write.
    pub total: u64,
    /// How many of its lines have one.
    pub lines: u64,
}
