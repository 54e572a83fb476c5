//! The program `predator`, as one call over a shelf of files: `run` runs a program and `replay`
//! reads a recorded trace, and both print the cache lines that harts took from each other;
//! `check` describes a program file, `gen` makes a trace, `split` cuts one in two, `convert` writes
//! one in the other version, `move` one with its accesses at other addresses, `filter` one without
//! its redundant accesses, `sweep` counts one under every shift of a line size, `caches` reports
//! what is left of its invalidations in caches of a shape, `misses` what the sharing of each line
//! costs, `blame` which instructions and which harts take each line from each other, and `place`
//! where each word of an object should stand so that no two harts share a line for its sake;
//! `explain` runs a program and reports of one line what `blame` reports of all.
//!
//! [`predator`] is one call over any shelf of files, and [`predator_on_disk`] is all that the
//! process does with its arguments, over the system's files.
//!
//! The call says what it answers by `answer_of` (specs/Answer.antt), over the definitions of
//! `sharing_rules` and of `guest`; what it prints, writes and excuses at each end is `Meets`
//! (specs/Meets.antt).
#![tactic(auto)]

mod blame;
mod check;
mod command;
mod convert;
mod copies;
mod counter;
mod counting;
mod endings;
mod explain;
mod filter;
mod generate;
mod laws;
mod on_disk;
mod place;
mod print_caches;
mod print_misses;
mod relocate;
mod replay;
mod run;
mod split;
mod state_file;
mod steady;
mod sweep;
mod symbols;
mod trace_faults;

pub use command::predator;
pub use command_io::{StateFault, Status, advice_on};
pub use laws::{
    a_replay_goes_on_from_a_list, a_trace_counts_in_parts, two_halves_count_as_the_whole,
};
pub use on_disk::{predator_on_disk, system_shelf};
pub use steady::predator_steady;
