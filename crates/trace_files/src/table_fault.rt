// Why a table is refused.

/// Why the text of a table is refused. Lines are numbered from 1, and empty ones are counted.
#[derive(Clone, Copy, PartialEq, Eq, Debug)]
pub enum TableFault {
    /// The text has more than 1 MiB.
    TooLong,
    /// The line of this number isn't three numbers with one space between each two, or one of them
    /// breaks a rule, or its range begins before an earlier one ends.
    BadLine(u64),
    /// The line of this number keeps these rules, and its place meets that of an earlier line.
    Overlap(u64),
    /// Memory ran out.
    NoMemory,
}
