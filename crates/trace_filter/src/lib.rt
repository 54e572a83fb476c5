//! Filtered traces: what is left of a trace without its redundant accesses.
//!
//! [`RecordFilter`] says of each record of a trace, one after another, whether it is kept, and gives
//! the end that takes the place of the trace's own: it has the number of the accesses that are kept
//! and, as `whole`, that of all.
//!
//! [`filter_trace`] reads a trace once and writes its filtered trace to a file, a [`FilterFile`].
//!
//! `specs/Filtering.antt` says which records a filtered trace has. The accesses among them are the
//! filtered list. `specs/FilterPass.antt` says what stands in the file, also where the trace is
//! refused and where a read, a write or memory fails.
#![tactic(auto)]

mod filter_fault;
mod filter_file;
mod filter_pass;
mod laws;
mod record_filter;

pub use filter_fault::FilterFault;
pub use filter_file::FilterFile;
pub use filter_pass::{Filtered, filter_trace};
pub use laws::{
    a_filtered_trace_has_the_filtered_list, a_filtered_trace_is_a_trace,
    a_trace_with_pcs_is_filtered_whole,
};
pub use record_filter::{Passage, RecordFilter};
