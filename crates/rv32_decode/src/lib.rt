//! The instructions of RV32IMA: read from words, and spelled as words again.
//!
//! `decode` and `encode` follow one table, a row an instruction, that stands in
//! `specs/Table.antt`.
//! Its source is the RISC-V unprivileged specification.
#![tactic(auto)]

mod codes;
mod decoder;
mod encoder;
mod fields;
mod instruction;
mod register;
mod validity;

pub use decoder::decode;
pub use encoder::encode;
pub use instruction::{AluOp, AmoOp, ImmOp, Instr, LoadKind, StoreKind, Test};
pub use register::Reg;
