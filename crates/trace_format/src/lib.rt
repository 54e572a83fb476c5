//! Traces: what one is made of, how it is read in pieces, and how it is written.
//!
//! `specs/Spelling.antt` has the format of the four versions as the one spelling of each part,
//! `specs/Rules.antt` the rules that the parts keep, `specs/Judging.antt` what the bytes of one
//! record say, and `specs/Reading.antt` what any bytes say: the records that are whole in them, and
//! the first fault. `specs/Faults.antt` says where that one stands, by the spelling alone, and
//! `specs/Splits.antt` on which side of a cut each record goes.
//!
//! A [`TraceReader`] takes pieces one after the other: what a piece leaves over is kept, and stands
//! before the next. A [`TraceWriter`] gives the bytes of each record, and a [`Splitter`] the side of
//! each. Symbols and blocks are read and written by calls of their own too, for other files that
//! have them as a trace does.
#![tactic(auto)]

mod access_read;
mod access_write;
mod before;
mod cut_laws;
mod ending_read;
mod ending_write;
mod fault;
mod header_read;
mod laws;
mod number_ahead;
mod read_so_far;
mod reader;
mod reader_state;
mod record;
mod record_read;
mod record_write;
mod run_read;
mod splitter;
mod symbol_read;
mod tag;
mod writer;

pub use cut_laws::a_trace_is_cut_in_two;
pub use fault::TraceFault;
pub use laws::{what_is_read_was_spelled, where_the_first_fault_stands};
pub(crate) use read_so_far::ReadSoFar;
pub use reader::TraceReader;
pub use record::{Header, TraceEnd, TraceRecord, Version};
pub use record_write::{alloc_bytes, symbol_bytes};
pub use splitter::{Side, Splitter};
pub use symbol_read::{symbol_extent, symbol_of};
pub(crate) use tag::Tag;
pub use writer::TraceWriter;
