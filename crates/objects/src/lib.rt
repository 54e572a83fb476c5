//! What stands in a guest's memory: the symbols of its program, each with its name, and the heap's
//! blocks.
//!
//! A table keeps the symbols in the order in which they were first seen, each place once, and all
//! blocks that were ever made, each with its life.
#![tactic(auto)]

mod address_tree;
mod block;
mod object_index;
mod symbol;
mod table;

pub use block::Block;
pub use object_index::ObjectIndex;
pub use symbol::SymbolKind;
pub use table::{ObjectTable, SymbolRow};
