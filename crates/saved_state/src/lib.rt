//! The state that a replay saves, as bytes: a detector and a table of objects, saved and taken up
//! again. With a saved state a long replay is carried on.
//!
//! The detector's part is a header, the lines that were written, and the tracks.
//! `specs/Spelling.antt` says which bytes each has, and `write_state` writes them. `read_header`,
//! `read_line` and `read_track` read them again, one unit at a time; `specs/Units.antt` says which
//! bytes are at fault. Numbers are little endian.
//!
//! | Place | What |
//! |---|---|
//! | 0 | `PRDSTA01` |
//! | 8, 12 | the size of a line and the offset, 4 bytes each |
//! | 16, 24 | the tracking and the prediction threshold, 8 bytes each, 0 for no prediction |
//! | 32 | the number of harts, in 2 bytes, and 6 zero bytes |
//! | 40 | the position |
//! | 48, 56 | how many written lines and how many tracks there are |
//! | 64 | each written line in 16 bytes, by its base: the base and how often it was written |
//! | | each track, in the order of its kind and then of its base |
//!
//! A track has 32 bytes and then 20 for each word of its range: kind, number of entries, the two
//! entries, two zero bytes, base, start and count; and of a word its reads, its writes, its owner
//! and two zero bytes. No hart is 0xffff, many are 0xfffe, and no start is 2^64 - 1.
//!
//! The objects' part follows: `specs/ObjectSpelling.antt` has its one spelling, and
//! `specs/ObjectJudging.antt` what any bytes say of it. Symbols are those of a trace.
#![tactic(auto)]

mod block_units;
mod detector_laws;
mod detector_resume;
mod detector_save;
mod fields;
mod header_places;
mod header_read;
mod line_read;
mod object_laws;
mod objects_resume;
mod objects_save;
mod part_rest;
mod placing;
mod resumed_lines;
mod resumed_tracks;
mod state_laws;
mod state_parts;
mod state_write;
mod symbol_units;
mod track_order;
mod track_read;
mod track_write;

pub use detector_laws::the_state_of_a_list_is_taken_up;
pub use detector_resume::{Resumed, resume_detector};
pub use detector_save::save_detector;
pub use header_places::{HARTS_PLACE, OFFSET_PLACE, PREDICTION_PLACE, SIZE_PLACE, TRACKING_PLACE};
pub use header_read::read_header;
pub use line_read::read_line;
pub use object_laws::what_is_resumed_was_saved;
pub use objects_resume::resume_objects;
pub use objects_save::save_objects;
pub use state_laws::{the_state_of_a_list_is_good, what_is_read_was_spelled};
pub use state_parts::{CountedLine, SavedTrack, StateHeader, StateParts};
pub use state_write::write_state;
pub use track_read::read_track;
