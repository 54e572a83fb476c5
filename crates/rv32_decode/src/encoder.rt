//! From an instruction to its word.
ghost use Rattle.std.specs.Prelude.{◌≡◌, ◌<◌, ◌≤◌, ◌*◌, ◌^◌, ◌%◌, Some};
ghost use Rattle.rv32_decode.specs.Fields.{low_bits};
ghost use Rattle.rv32_decode.specs.Table.{decoded};
ghost use Rattle.rv32_decode.specs.Spelling.{word_of, r_word, i_word, u_word, j_word, atomic_word};
ghost use Rattle.rv32_decode.specs.Spelling.{imm_bits};
ghost use Rattle.rv32_decode.specs.declared.instruction.Instr.{Instr};
ghost use Rattle.rv32_decode.specs.Validity.{IsValid, IsWithin, IsImmediate, IsHeld};

use crate::codes::{
    alu_code_of, alu_high_of, amo_code_of, imm_code_of, load_code_of, store_code_of, test_code_of,
};
use crate::instruction::{ImmOp, Instr, StoreKind, Test};
use crate::register::Reg;

/// The word of a valid instruction, as `is_valid` decides.
#[tactic(auto, using(crate::proofs::Again::again))]
pub fn encode(instr: Instr) -> u32
    requires { IsValid instr }
    ensures word { result ≡ word_of instr }
    ensures fits { word_of instr < 2 ^ 32 }
    ensures again { decoded result ≡ Some instr }
{
    spelled(instr)
}

fn spelled(instr: Instr) -> u32
    requires { IsValid instr }
    ensures word { result ≡ word_of instr }
    ensures held { IsHeld instr }
{
    match instr {
        Instr::Lui { rd, imm } => u_form(0x37, rd, imm),
        Instr::Auipc { rd, imm } => u_form(0x17, rd, imm),
        Instr::Jal { rd, offset } => j_form(0x6f, rd, low_bits_of(1048576, offset)),
        Instr::Jalr { rd, rs1, offset } => i_form(0x67, rd, 0, rs1, low_bits_of(2048, offset)),
        Instr::Load {
            kind,
            rd,
            rs1,
            offset,
        } => i_form(0x03, rd, load_code_of(kind), rs1, low_bits_of(2048, offset)),
        Instr::Imm { op, rd, rs1, value } => i_form(
            0x13,
            rd,
            imm_code_of(op),
            rs1,
            imm_bits_of(op, value),
        ),
        Instr::Fence { rd, rs1, bits } => i_form(0x0f, rd, 0, rs1, bits),
        Instr::Store {
            kind,
            rs1,
            rs2,
            offset,
        } => store_word(kind, rs1, rs2, offset),
        Instr::Branch {
            test,
            rs1,
            rs2,
            offset,
        } => branch_word(test, rs1, rs2, offset),
        Instr::Op { op, rd, rs1, rs2 } => r_form(
            0x33,
            rd,
            alu_code_of(op),
            rs1,
            rs2,
            alu_high_of(op),
        ),
        Instr::Ecall => 0x0000_0073,
        Instr::Ebreak => 0x0010_0073,
        Instr::Lr { rd, rs1, order } => lr_word(rd, rs1, order),
        Instr::Sc {
            rd,
            rs1,
            rs2,
            order,
        } => atomic_form(3, rd, rs1, rs2, order),
        Instr::Amo {
            op,
            rd,
            rs1,
            rs2,
            order,
        } => atomic_form(amo_code_of(op), rd, rs1, rs2, order),
    }
}

fn number_of(register: Reg) -> u32
    ensures number { result ≡ register }
    ensures range { result < 32 }
{
    register.number() as u32
}

/// The low bits of a number in two's complement, twice `half` in all.
fn low_bits_of(half: u32, value: i32) -> u32
    requires half { half ≤ 1048576 }
    requires range { IsWithin half value }
    ensures bits { result ≡ low_bits (2 * half) value }
    ensures range { result < 2 * half }
{
    if value < 0 {
        (value + 2 * half as i32) as u32
    } else {
        value as u32
    }
}

fn imm_bits_of(op: ImmOp, value: i32) -> u32
    requires { IsImmediate op value }
    ensures bits { result ≡ imm_bits op value }
    ensures range { result < 4096 }
{
    match op {
        ImmOp::Slli | ImmOp::Srli => value as u32,
        ImmOp::Srai => 1024 + value as u32,
        _ => low_bits_of(2048, value),
    }
}

/// A word of the form R, by its fields as numbers.
fn from_fields(opcode: u32, rd: u32, funct3: u32, rs1: u32, rs2: u32, funct7: u32) -> u32
    requires opcode { opcode < 128 }
    requires rd { rd < 32 }
    requires funct3 { funct3 < 8 }
    requires rs1 { rs1 < 32 }
    requires rs2 { rs2 < 32 }
    requires funct7 { funct7 < 128 }
    ensures { result ≡ r_word opcode rd funct3 rs1 rs2 funct7 }
{
    opcode | rd << 7 | funct3 << 12 | rs1 << 15 | rs2 << 20 | funct7 << 25
}

fn r_form(opcode: u32, rd: Reg, funct3: u32, rs1: Reg, rs2: Reg, funct7: u32) -> u32
    requires opcode { opcode < 128 }
    requires funct3 { funct3 < 8 }
    requires funct7 { funct7 < 128 }
    ensures word { result ≡ r_word opcode rd funct3 rs1 rs2 funct7 }
    ensures registers { (rd < 32) × (rs1 < 32) × (rs2 < 32) }
{
    from_fields(
        opcode,
        number_of(rd),
        funct3,
        number_of(rs1),
        number_of(rs2),
        funct7,
    )
}

fn i_form(opcode: u32, rd: Reg, funct3: u32, rs1: Reg, bits: u32) -> u32
    requires opcode { opcode < 128 }
    requires funct3 { funct3 < 8 }
    requires bits { bits < 4096 }
    ensures word { result ≡ i_word opcode rd funct3 rs1 bits }
    ensures registers { (rd < 32) × (rs1 < 32) }
{
    opcode | number_of(rd) << 7 | funct3 << 12 | number_of(rs1) << 15 | bits << 20
}

fn u_form(opcode: u32, rd: Reg, imm: u32) -> u32
    requires opcode { opcode < 128 }
    requires imm { imm % 4096 ≡ 0 }
    ensures word { result ≡ u_word opcode rd imm }
    ensures registers { rd < 32 }
{
    (opcode | number_of(rd) << 7) + imm
}

fn j_form(opcode: u32, rd: Reg, bits: u32) -> u32
    requires opcode { opcode < 128 }
    requires bits { bits < 2097152 }
    ensures word { result ≡ j_word opcode rd bits }
    ensures registers { rd < 32 }
{
    opcode
        | number_of(rd) << 7
        | (bits >> 12 & 255) << 12
        | (bits >> 11 & 1) << 20
        | (bits >> 1 & 1023) << 21
        | (bits >> 20) << 31
}

fn store_word(kind: StoreKind, rs1: Reg, rs2: Reg, offset: i32) -> u32
    requires { IsWithin 2048 offset }
    ensures word { result ≡ word_of (Instr.Store kind rs1 rs2 offset) }
    ensures registers { (rs1 < 32) × (rs2 < 32) }
{
    let bits = low_bits_of(2048, offset);
    from_fields(
        0x23,
        bits & 31,
        store_code_of(kind),
        number_of(rs1),
        number_of(rs2),
        bits >> 5,
    )
}

fn branch_word(test: Test, rs1: Reg, rs2: Reg, offset: i32) -> u32
    requires { IsWithin 4096 offset }
    ensures word { result ≡ word_of (Instr.Branch test rs1 rs2 offset) }
    ensures registers { (rs1 < 32) × (rs2 < 32) }
{
    let bits = low_bits_of(4096, offset);
    let low = (bits >> 1 & 15) << 1 | bits >> 11 & 1;
    let high = bits >> 12 << 6 | bits >> 5 & 63;
    from_fields(
        0x63,
        low,
        test_code_of(test),
        number_of(rs1),
        number_of(rs2),
        high,
    )
}

/// An atomic instruction by its funct5.
fn atomic_form(funct5: u32, rd: Reg, rs1: Reg, rs2: Reg, order: u8) -> u32
    requires funct5 { funct5 < 32 }
    requires order { order < 4 }
    ensures word { result ≡ atomic_word funct5 rd rs1 rs2 order }
    ensures registers { (rd < 32) × (rs1 < 32) × (rs2 < 32) }
{
    r_form(0x2f, rd, 2, rs1, rs2, funct5 << 2 | order as u32)
}

fn lr_word(rd: Reg, rs1: Reg, order: u8) -> u32
    requires { order < 4 }
    ensures word { result ≡ atomic_word 2 rd rs1 0 order }
    ensures registers { (rd < 32) × (rs1 < 32) }
{
    from_fields(
        0x2f,
        number_of(rd),
        2,
        number_of(rs1),
        0,
        2 << 2 | order as u32,
    )
}
