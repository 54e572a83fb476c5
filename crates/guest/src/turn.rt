// What a turn of a guest answers.

use base::{Access, Outcome};

/// What is seen of a step.
#[derive(Clone, Copy, PartialEq, Eq, Debug)]
pub enum Event {
    /// Nothing.
    Quiet,
    /// It made this access, by the instruction at `pc`.
    Touch {
        access: Access,
        pc: u32,
    },
    /// It made a heap block at `addr` of `size` bytes; the last four calls of its hart were at
    /// `sites`, the newest first, 0 where there is none.
    Alloc {
        addr: u32,
        size: u32,
        sites: [u32; 4],
    },
    /// It freed the block at `addr`.
    Free {
        addr: u32,
    },
    /// It put out the `len` bytes of the guest's memory from `addr` on, 1 to 4096 of them.
    Output {
        addr: u32,
        len: u32,
    },
}

/// An access that a step made, by the instruction at `pc`.
#[derive(Clone, Copy, PartialEq, Eq, Debug)]
pub struct Touched {
    pub access: Access,
    pub pc: u32,
}

/// What a turn of a guest was.
#[derive(Clone, Copy, PartialEq, Eq, Debug)]
pub enum Turn {
    /// A hart made a step.
    Ran(Event),
    /// The run has ended.
    Ended(Outcome),
}
