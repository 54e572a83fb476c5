//! A named trace, read in pieces, each of whose records an observer sees.
//!
//! [`pass`] reads the trace, judges its version and its header against what a caller wants, and gives
//! each record to an [`Observer`]. It goes by a [`Cursor`], for those who need the shelf between two
//! pieces. `specs/Passes.antt` says which trace some bytes are, and how one is refused, and
//! `specs/Cursors.antt` how far a cursor is. `specs/Lives.antt` says which objects stand in memory
//! after a list of records, and [`note_object`] keeps a table of them. `specs/Laws/` has laws for
//! those who cite them.
#![tactic(auto)]

mod cursor;
mod laws;
mod noted_objects;
mod observer;
mod passes;
mod wanted;

pub use cursor::Cursor;
pub use laws::a_trace_is_its_spelling;
pub use noted_objects::note_object;
pub use observer::Observer;
pub use passes::{PassFault, Passed, pass};
pub use wanted::{Refusal, Wanted};
