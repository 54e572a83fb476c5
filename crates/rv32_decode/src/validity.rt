//! Which instructions have a word.
ghost use Rattle.std.specs.Prelude.{◌↔◌, ◌≤◌, IsTrue};
ghost use Rattle.rv32_decode.specs.Validity.{IsValid, IsWithin, IsEvenWithin, IsImmediate};

use crate::instruction::{ImmOp, Instr};

fn is_within(half: u32, value: i32) -> bool
    requires { half ≤ 1048576 }
    ensures { IsTrue result ↔ IsWithin half value }
{
    -(half as i32) <= value && value < half as i32
}

fn is_even_within(half: u32, value: i32) -> bool
    requires { half ≤ 1048576 }
    ensures { IsTrue result ↔ IsEvenWithin half value }
{
    is_within(half, value) && value.unsigned_abs() % 2 == 0
}

fn is_immediate(op: ImmOp, value: i32) -> bool
    ensures { IsTrue result ↔ IsImmediate op value }
{
    match op {
        ImmOp::Slli | ImmOp::Srli | ImmOp::Srai => 0 <= value && value < 32,
        _ => is_within(2048, value),
    }
}

impl Instr {
    /// Whether the instruction has a word: its numbers fit the bits that the word has for them.
    /// The docs of each variant give their ranges.
    pub fn is_valid(&self) -> bool
        ensures { IsTrue result ↔ IsValid self.now }
    {
        match *self {
            Instr::Lui { imm, .. } | Instr::Auipc { imm, .. } => imm % 4096 == 0,
            Instr::Jal { offset, .. } => is_even_within(1048576, offset),
            Instr::Branch { offset, .. } => is_even_within(4096, offset),
            Instr::Jalr { offset, .. } => is_within(2048, offset),
            Instr::Load { offset, .. } => is_within(2048, offset),
            Instr::Store { offset, .. } => is_within(2048, offset),
            Instr::Imm { op, value, .. } => is_immediate(op, value),
            Instr::Fence { bits, .. } => bits < 4096,
            Instr::Lr { order, .. } => order < 4,
            Instr::Sc { order, .. } => order < 4,
            Instr::Amo { order, .. } => order < 4,
            Instr::Op { .. } | Instr::Ecall | Instr::Ebreak => true,
        }
    }
}
