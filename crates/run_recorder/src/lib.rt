//! A run, recorded while it goes on: an observer sees each record, and each file that is named gets
//! what its content says.
//!
//! [`record_run`] runs a guest to its end. Nothing of the run is kept but what the observer keeps,
//! and the bytes that wait for their file. What each file gets, by its content, is said in one
//! place, [`files`]: a content more is a variant more there.
#![tactic(auto)]

mod files;
mod laws;
mod notes;
mod run_file;
mod showing;
mod speller;
mod step_records;
mod touches;
mod whole_run;

pub use laws::a_trace_with_pcs_records_the_run;
pub use run_file::{Content, RunFile};
pub use whole_run::record_run;
