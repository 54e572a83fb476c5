//! One step of one hart over a guest's memory: the instruction at its pc has its effect, with at
//! most one access to the memory, or it traps with its cause.
//!
//! The effects stand in `specs/Effect.antt`, a case an instruction. Their source is the RISC-V
//! unprivileged specification, RV32I with M and A.
//!
//! [`Memory`] is bytes by their addresses, in pages of 4096 bytes that are mapped or not, each
//! mapped one readable, and writable or executable where it was given that right. An access that
//! may not be made is refused with the first fault that it has, and changes nothing.
#![tactic(auto)]

mod arithmetic;
mod bytes;
mod effects;
mod hart_state;
mod kept;
mod memory;
mod one_step;
mod page;
mod reservations;
mod step_end;

pub use hart_state::HartState;
pub use memory::Memory;
pub use one_step::{own_step, step};
pub use page::MemFault;
pub use reservations::Reservations;
pub use step_end::StepEnd;
