// How a run ends.

use crate::Hart;

/// Why an instruction could not be carried out, numbered from 1 to 8.
#[derive(Clone, Copy, PartialEq, Eq, Debug)]
pub enum Cause {
    /// The word is no instruction.
    Illegal = 1,
    /// The instruction is EBREAK.
    Breakpoint = 2,
    /// A taken jump's target is no multiple of 4.
    FetchMisaligned = 3,
    /// No instruction can be fetched at the pc.
    FetchOutside = 4,
    /// A load's address is no multiple of its size.
    LoadMisaligned = 5,
    /// A load's address is not mapped.
    LoadOutside = 6,
    /// A store's address is no multiple of its size.
    StoreMisaligned = 7,
    /// A store's address is not mapped, or not writable.
    StoreOutside = 8,
}

/// What ended a run.
#[derive(Clone, Copy, PartialEq, Eq, Debug)]
pub enum Outcome {
    /// The program exited with this code.
    Exit(u32),
    /// All steps that the run may take are taken.
    Budget,
    /// No hart can run, and one has not ended.
    Deadlock,
    /// This hart's instruction at this pc could not be carried out, for this cause.
    Trap(Hart, u32, Cause),
    /// It has not ended: the list is the first half of one that was split.
    Part,
}

/// The end of a run or of a trace.
#[derive(Clone, Copy, PartialEq, Eq, Debug)]
pub struct Ending {
    /// What ended it.
    pub outcome: Outcome,
    /// How many steps were taken.
    pub steps: u64,
    /// How many accesses were made.
    pub accesses: u64,
}
