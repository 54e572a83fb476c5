// What kinds of line there are, and what is said of one.

/// How a line came to be tracked. Lists of lines have this order.
#[derive(Clone, Copy, PartialEq, Eq, PartialOrd, Ord, Debug)]
pub enum LineKind {
    /// A line of the layout in use.
    Observed,
    /// A line of the same size that begins inside one line of the layout and ends inside the next.
    Shifted,
    /// A line of twice the size.
    Doubled,
}

/// What the words of a line say of its sharing.
#[derive(Clone, Copy, PartialEq, Eq, Debug)]
pub enum Verdict {
    /// No word is truly shared.
    FalseSharing,
    /// Every written word is truly shared.
    TrueSharing,
    /// Some written words are truly shared, and some are not.
    Mixed,
}
