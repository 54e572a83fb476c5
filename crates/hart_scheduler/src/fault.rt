// Why a schedule is refused.

/// Why the text of a schedule is refused. Lines are numbered from 1, and empty ones are counted.
#[derive(Clone, Copy, PartialEq, Eq, Debug)]
pub enum ScheduleFault {
    /// The line of this number isn't a hart, one space and a count, each below 2^32 in decimal
    /// without leading zeros.
    BadLine(u64),
    /// The line of this number names a hart that the guest hasn't.
    HartOutOfRange(u64),
    /// The line of this number has the count 0.
    ZeroCount(u64),
    /// It has more than 1 MiB.
    TooLong,
    /// Memory ran out.
    NoMemory,
}
