//! The instructions of RV32I, M and A, as a program sees them.

use crate::register::Reg;

/// What a branch compares its two registers for.
#[derive(Clone, Copy, PartialEq, Eq, Debug)]
pub enum Test {
    /// equal
    Eq,
    /// not equal
    Ne,
    /// less, signed
    Lt,
    /// greater or equal, signed
    Ge,
    /// less, unsigned
    Ltu,
    /// greater or equal, unsigned
    Geu,
}

/// How much a load reads, and how it is extended to 32 bits.
#[derive(Clone, Copy, PartialEq, Eq, Debug)]
pub enum LoadKind {
    /// a byte, by its sign
    Lb,
    /// two bytes, by their sign
    Lh,
    /// four bytes
    Lw,
    /// a byte, by zeros
    Lbu,
    /// two bytes, by zeros
    Lhu,
}

/// How much a store writes.
#[derive(Clone, Copy, PartialEq, Eq, Debug)]
pub enum StoreKind {
    /// one byte
    Sb,
    /// two bytes
    Sh,
    /// four bytes
    Sw,
}

/// An operation on a register and an immediate.
#[derive(Clone, Copy, PartialEq, Eq, Debug)]
pub enum ImmOp {
    /// the sum
    Addi,
    /// whether it is less, signed
    Slti,
    /// whether it is less, unsigned
    Sltiu,
    /// exclusive or
    Xori,
    /// or
    Ori,
    /// and
    Andi,
    /// shifted left
    Slli,
    /// shifted right, filled with zeros
    Srli,
    /// shifted right, filled with the sign
    Srai,
}

/// An operation on two registers.
#[derive(Clone, Copy, PartialEq, Eq, Debug)]
pub enum AluOp {
    /// the sum
    Add,
    /// the difference
    Sub,
    /// shifted left
    Sll,
    /// whether it is less, signed
    Slt,
    /// whether it is less, unsigned
    Sltu,
    /// exclusive or
    Xor,
    /// shifted right, filled with zeros
    Srl,
    /// shifted right, filled with the sign
    Sra,
    /// or
    Or,
    /// and
    And,
    /// the low word of the product
    Mul,
    /// the high word of the product, signed by signed
    Mulh,
    /// the high word of the product, signed by unsigned
    Mulhsu,
    /// the high word of the product, unsigned by unsigned
    Mulhu,
    /// the quotient, signed
    Div,
    /// the quotient, unsigned
    Divu,
    /// the remainder, signed
    Rem,
    /// the remainder, unsigned
    Remu,
}

/// What an atomic instruction stores, from the word in memory and a register.
#[derive(Clone, Copy, PartialEq, Eq, Debug)]
pub enum AmoOp {
    /// the sum
    Add,
    /// the register
    Swap,
    /// exclusive or
    Xor,
    /// or
    Or,
    /// and
    And,
    /// the lesser, signed
    Min,
    /// the greater, signed
    Max,
    /// the lesser, unsigned
    Minu,
    /// the greater, unsigned
    Maxu,
}

/// An instruction with its fields. `rd` is the register that it writes, `rs1` and `rs2` are those
/// that it reads. Offsets are in bytes. `order` is below 4: 2 for acquire, 1 for release, 3 for
/// both. `is_valid` decides whether the numbers are in these ranges.
#[derive(Clone, Copy, PartialEq, Eq, Debug)]
pub enum Instr {
    /// `rd` becomes `imm`, of which the low 12 bits are 0.
    Lui {
        rd: Reg,
        imm: u32,
    },
    /// `rd` becomes the instruction's address plus `imm`, of which the low 12 bits are 0.
    Auipc {
        rd: Reg,
        imm: u32,
    },
    /// A jump by `offset`, even and from -2^20 to 2^20 - 2; `rd` becomes the address behind it.
    Jal {
        rd: Reg,
        offset: i32,
    },
    /// A jump to `rs1` plus `offset`, from -2048 to 2047; `rd` becomes the address behind it.
    Jalr {
        rd: Reg,
        rs1: Reg,
        offset: i32,
    },
    /// A jump by `offset`, even and from -4096 to 4094, where the test of `rs1` and `rs2` holds.
    Branch {
        test: Test,
        rs1: Reg,
        rs2: Reg,
        offset: i32,
    },
    /// `rd` becomes what is at `rs1` plus `offset`, from -2048 to 2047.
    Load {
        kind: LoadKind,
        rd: Reg,
        rs1: Reg,
        offset: i32,
    },
    /// `rs2` is written at `rs1` plus `offset`, from -2048 to 2047.
    Store {
        kind: StoreKind,
        rs1: Reg,
        rs2: Reg,
        offset: i32,
    },
    /// `rd` becomes the operation on `rs1` and `value`, from -2048 to 2047, or 0 to 31 for a
    /// shift.
    Imm {
        op: ImmOp,
        rd: Reg,
        rs1: Reg,
        value: i32,
    },
    /// `rd` becomes the operation on `rs1` and `rs2`.
    Op {
        op: AluOp,
        rd: Reg,
        rs1: Reg,
        rs2: Reg,
    },
    /// An order of accesses. `bits` are the twelve bits that say which, below 4096.
    Fence {
        rd: Reg,
        rs1: Reg,
        bits: u32,
    },
    /// A call of the environment.
    Ecall,
    /// A stop for a debugger.
    Ebreak,
    /// `rd` becomes the word at `rs1`, which is reserved.
    Lr {
        rd: Reg,
        rs1: Reg,
        order: u8,
    },
    /// `rs2` is written at `rs1` if that word is still reserved; `rd` becomes 0 if so, and 1 if
    /// not.
    Sc {
        rd: Reg,
        rs1: Reg,
        rs2: Reg,
        order: u8,
    },
    /// `rd` becomes the word at `rs1`, which becomes the operation on it and `rs2`.
    Amo {
        op: AmoOp,
        rd: Reg,
        rs1: Reg,
        rs2: Reg,
        order: u8,
    },
}
