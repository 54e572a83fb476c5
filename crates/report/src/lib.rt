//! The report of what was found: the listed lines by weight, the objects that stand on each, its
//! words, and the verdict over them.
#![tactic(auto)]

mod findings;
mod head;
mod lines;
mod listing;
mod object_lines;
mod report;
mod standing;
mod words;

pub use findings::Findings;
pub use head::push_outcome_lines;
pub use object_lines::{push_function, push_objects};
pub use report::write_report;
pub use standing::{block_on, symbol_on};
