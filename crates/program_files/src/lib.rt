//! Program files: ELF of 32 bits, little endian, static, for RISC-V, as the ELF specification lays
//! it out; and the text that describes one.
//!
//! Any bytes are a program file or are refused with their first fault. Segments, symbols and names
//! are slices of the file. Of a program that is placed in memory the summary states its entry, its
//! segments, its symbols, and where its heap and stacks lie. For one of 12 bytes of code it is:
//!
//! ```text
//! entry 0x00010000
//! segment 0x00010000 12 rwx
//! objects 0
//! functions 0
//! heap 0x00011000 0x00f90000
//! stacks 0x00f90000 0x01010000
//! end
//! ```
#![tactic(auto)]

mod fault;
mod fields;
mod header;
mod image;
mod program;
mod section;
mod summaries;
mod summary_symbols;
mod symbol;
mod view;

pub use fault::ElfFault;
pub use image::{Image, PlaceFault, Space, place, place_fault};
pub use program::Segment;
pub use summaries::summary;
pub use summary_symbols::note_symbols;
pub use symbol::{SymbolView, Symbols};
pub use view::ElfView;
