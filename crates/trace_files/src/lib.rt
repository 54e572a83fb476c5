//! Traces on their way to files: made, or copied from another trace.
//!
//! [`make_trace`] writes a trace of as many accesses as are wanted, for trying out what reads
//! traces, and gives each record to an observer as it is made, so that nothing of it is kept. The
//! accesses come from a linear congruence; `specs/Made.antt` says which trace is made, as one list.
//!
//! [`convert_trace`] copies a named trace in the other version, and [`split_trace`] cuts it in two
//! at an access. The trace is read twice. A first reading judges it and returns how many accesses
//! there are, and only where it is accepted are the outputs begun. The second reading copies each
//! record to a `Target`, which knows the files and the spelling. `specs/Copies.antt` says which
//! traces are written, and what stands where a copy gave up.
//!
//! Each half may be cut again. `specs/Halves.antt` says what two traces are to each other that are the
//! halves of a third: each is a trace, its end states how many accesses it has, and the second goes
//! on where the first one ends.
//!
//! [`move_trace`] writes a trace with its accesses moved as a [`MoveTable`] says, in one pass.
//! `specs/Tables.antt` says what the text of a table is and which rules it keeps, `specs/Moves.antt`
//! where an address goes and what a list keeps then, and `specs/Moving.antt` which file is written,
//! and what stands where it gave up. A filtered trace lacks accesses, which would matter if a move
//! brought words together that weren't near: `specs/NearMoves.antt` says which tables bring none.
#![tactic(auto)]

mod convert;
mod copy;
mod copy_fault;
mod copy_laws;
mod made_laws;
mod maker;
mod move_fault;
mod move_laws;
mod move_row;
mod move_table;
mod mover;
mod near_moves;
mod numbers;
mod numerals;
mod part_laws;
mod relocation;
mod split;
mod table_fault;
mod taking;
mod target;
mod trace_file;
mod trace_outputs;

pub use convert::{Converted, convert_trace};
pub use copy_fault::CopyFault;
pub use copy_laws::{a_trace_converted_twice_is_itself, the_halves_have_the_accesses_of_the_whole};
pub use made_laws::a_made_trace_is_a_trace;
pub use maker::make_trace;
pub use move_fault::MoveFault;
pub use move_laws::{
    a_free_list_keeps_its_words, a_moved_trace_is_a_trace, what_is_far_is_not_near,
};
pub use move_table::MoveTable;
pub use part_laws::the_halves_are_traces;
pub use relocation::{Moved, move_trace};
pub use split::{Halves, split_trace};
pub use table_fault::TableFault;
pub use trace_outputs::TraceOutputs;
