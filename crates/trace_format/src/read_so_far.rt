// How far a trace is read.
use crate::before::Before;
use crate::record::{Header, Version};

/// How far a trace is read whose header is accepted.
#[derive(Clone, Copy)]
pub struct ReadSoFar {
    /// How it spells its accesses.
    pub version: Version,
    /// Its header.
    pub header: Header,
    /// How many accesses it had so far.
    pub counted: u64,
    /// What the next access is spelled against.
    pub before: Before,
    /// Where the whole records end: the place of the next record.
    pub place: u64,
}
