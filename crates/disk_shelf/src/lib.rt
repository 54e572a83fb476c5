//! The system's files and its standard output, as a shelf.
//!
//! On a [`DiskShelf`] any contents that one thinks of ([`Contents`]) are known as long as all that
//! it has read is theirs: what is proved of such known files holds of all contents that agree with
//! what was read. What it handed to the system in calls that were answered Ok is known too, and how
//! often calls have failed: a call that fails is the cause of what the program answers. Beside that
//! the shelf says on standard error why a call failed, shows there what a run puts out and on a
//! terminal how far long work is, and begins no regular file that is in use under another name.
#![tactic(auto)]

mod disk;
mod known_files;
mod log;
mod meter;
mod open_files;
mod reasons;
mod run_end;

pub use disk::{Contents, DiskShelf};
