//! What the commands `explain` and `blame` print: which instructions take lines from each other.
//!
//! Counted are the invalidations of one line at positions above a start. The victim of an
//! invalidation is the latest access in the line by another hart than its own, so each has two
//! instructions, that of its victim and its own, and two harts.
//!
//! The definitions stand in `specs/Invalidations.antt`, over whole lists of accesses with their
//! pcs, and the laws in `specs/Laws/`: each invalidation has a victim, whose hart holds the line,
//! and two accesses are enough to determine every victim, whatever the number of harts.
//! [`Explainer`] keeps these two beside its tables, and [`write_explain`] prints what it reports.
//! [`explain_run`] runs a guest to its end without a detector: the explainer notes each access with
//! the pc of the instruction that made it.
//!
//! [`Blame`] does so for all lines of a layout at once, from the first access on; what it reports
//! is defined in `specs/Blame.antt`. Of each line it keeps these two accesses and a number, and it
//! has one table of instructions and one of harts for all lines, since most lines have few rows.
//! Where a line or a row is in its table is guessed first, and then looked up. It sees the records
//! of a trace, whose accesses come with their pcs: `specs/BlameRecords.antt`. [`write_blame`]
//! prints the lines that are taken, the most taken first.
#![tactic(auto)]

mod blame;
mod blame_rows;
mod blame_tables;
mod blame_text;
mod blamed_records;
mod explainer;
mod latest;
mod laws;
mod recent;
mod rows;
mod sited;
mod tables;
mod text;
mod watch;

pub use blame::Blame;
pub use blame_text::write_blame;
pub use explainer::Explainer;
pub use laws::{
    false_sharing_takes_no_word, invalidations_add_up, invalidations_beside_later_counts,
    lines_count_as_alone, listed_counts_are_invalidations, sited_lists_are_access_lists,
    taken_lines_add_up, two_accesses_are_enough, victims_hold_the_line,
};
pub use sited::{Invalidation, Sides, Sited};
pub use tables::Taken;
pub use text::write_explain;
pub use watch::{Explained, explain_run};
