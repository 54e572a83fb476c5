//! A guest: the harts, their threads, the heap and a schedule together, from the entry of a program
//! to the end of its run.
//!
//! `specs/Turns.antt` says what one turn does, `specs/GuestCalls.antt` what each call does, and
//! `specs/Runs.antt` what a whole run is.
//!
//! Its parts, each with files of its own:
//!
//! - the run: `guest`, over a `configuration` that `one_turn`, the steps of a hart on its own in
//!   `ahead` and the calls of the environment in `guest_calls` change; accesses are kept in
//!   `touches` for a caller to take many at once;
//! - threads: each hart has one phase (`phase`), and `threads` has the calls by which harts start,
//!   join, wait for, wake and end one another (`specs/ThreadCalls.antt`);
//! - calls of functions: a [`CallList`] keeps the last 256 that a hart made and hasn't returned from
//!   (`specs/CallLists.antt` says which instruction calls and which returns);
//! - the heap: a [`GuestHeap`] gives each block the least free place (`specs/Heaps.antt`), which
//!   `block_tree` finds among the live blocks and the gaps between them (`specs/LiveBlocks.antt`);
//! - the blocks of a guest's own allocator, which it notes: `notes` (`specs/Notes.antt`).
#![tactic(auto)]

mod ahead;
mod block_tree;
mod call_list;
mod configuration;
mod guest;
mod guest_calls;
mod heap;
mod notes;
mod one_turn;
mod phase;
mod setup;
mod short_runs;
mod threads;
mod touches;
mod turn;

pub use call_list::CallList;
pub use guest::Guest;
pub use heap::{GuestHeap, NotLive};
pub use phase::JoinEnd;
pub use setup::RunSettings;
pub use short_runs::runs_are_short;
pub use threads::Threads;
pub use touches::Touches;
pub use turn::{Event, Touched, Turn};
