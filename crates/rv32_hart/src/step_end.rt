use base::{Access, Cause};
use rv32_decode::Instr;

/// What became of the instruction that a step fetched.
#[derive(Clone, Copy, PartialEq, Eq, Debug)]
pub enum StepEnd {
    /// The instruction has had its effect, with its access to the memory if it made one.
    Next(Instr, Option<Access>),
    /// The instruction is ECALL, and all is as it was.
    Call,
    /// The instruction cannot be carried out, for this cause, and all is as it was.
    Trap(Cause),
}
