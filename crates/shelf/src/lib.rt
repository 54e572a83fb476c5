//! The outside, as the program sees it: files under names, and one printed text.
//!
//! [`Shelf`] is the one way out of the program. Its contract speaks of what the shelf means: the
//! files that can be read, what was written and printed, where that is known, how often calls have
//! failed, and what reads have given, which `specs/Agreeing.antt` puts together to what they show
//! of a file. [`MemoryShelf`] keeps all in memory and fails where it is asked to, [`NeverFails`]
//! never fails, and [`fetch`] reads a whole file from any shelf.
//!
//! [`Outputs`] is a list of named files on their way to a shelf. Each is begun once, gets its bytes
//! in pieces, and is whole once all is finished. What is put into a file waits until there are 64
//! KiB of it, so that a caller who adds some bytes at a time makes few calls of the shelf. However
//! many files there are, the clauses say the same: which bytes stand in each file, that the files
//! are begun in their order and a front of each stands where a call gave up, whose faults rose then,
//! and that no other name is touched.
#![tactic(auto)]

mod files;
mod memory;
mod never_fails;
mod outputs;
mod read_log;
mod shelf;
mod sink;
mod whole_file;

pub use files::HeldFile;
pub use memory::{Failing, MemoryShelf};
pub use never_fails::NeverFails;
pub use outputs::Outputs;
pub use shelf::{RunShown, Shelf, ShelfError};
pub use whole_file::{FetchError, fetch};
