//! The detector: one pass over the accesses of a run, and a track for each line that is kept,
//! observed or predicted.
//!
//! A layout cuts the addresses into lines, and an index keeps how often each line was written, and
//! where its tracks stand. A line has a track of its own from the write on that brings its writes
//! to the tracking threshold. At each write that brings a line to a multiple of the prediction
//! threshold, the pairs of the line are searched, and what opens has a track from then on.
//!
//! An index is a map from line numbers to entries, in which every line that was never touched has
//! the entry with no write and no track. [`PagedIndex`] is a directory of pages. [`Totals`] says
//! what the tracks of a detector come to.
#![tactic(auto)]

mod adding;
mod detector;
mod dues;
mod laws;
mod line_entry;
mod line_index;
mod one_access;
mod openings;
mod paged_index;
mod pages;
mod task;
mod totals;
mod touch;
mod track_places;
mod undo;
mod write_count;

pub use detector::Detector;
pub use laws::an_access_changes_what_it_meets;
pub use line_entry::{LAST_LINE, LineEntry, TrackNumber};
pub use line_index::LineIndex;
pub use line_tracks::Track;
pub use one_access::see;
pub use paged_index::PagedIndex;
pub use totals::{Totals, count_tracks};
