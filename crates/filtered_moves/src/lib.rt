//! What stays of a filtered list whose accesses are moved by a table.
//!
//! A filtered list lacks accesses that no other hart came near. A move may bring words together that
//! weren't near, and then such an access would have mattered. A table is near for a filtered list
//! where it brings no byte near an access that wasn't near it before (`specs/NearMoves.antt` of trace_files). By a
//! near table the moved list of a filtered list is the moved list of the whole one without redundant
//! accesses, under ranges of at most 256 bytes. So both have the same counts.
#![tactic(auto)]

mod laws;

pub use laws::near_moves_keep_counts;
