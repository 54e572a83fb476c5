//! From a word to its instruction.
ghost use Rattle.std.specs.Prelude.{◌≡◌, ◌≤◌, ◌↔◌, pos, [], length, All, IfSome, IsNone, Some};
ghost use Rattle.rv32_decode.specs.Codes.{load_code, store_code, test_code};
ghost use Rattle.rv32_decode.specs.Fields.{funct3, opcode, rd, rs1, rs2, imm_i};
ghost use Rattle.rv32_decode.specs.Table.{decoded, rows_of};
ghost use Rattle.rv32_decode.specs.Spelling.{word_of};
ghost use Rattle.rv32_decode.specs.Validity.{IsValid};
ghost use Rattle.rv32_decode.specs.declared.instruction.Instr.{Instr};

use crate::codes::{alu_op_of, amo_op_of};
use crate::fields::{
    funct3_of, funct5_of, funct7_of, imm_b_of, imm_i_of, imm_j_of, imm_s_of, imm_u_of, opcode_of,
    order_of, rd_of, rs1_of, rs2_of,
};
use crate::instruction::{ImmOp, Instr, LoadKind, StoreKind, Test};

/// The instruction that a word is, or `None` where it is none of RV32I, M and A. The low byte of
/// the word is the first in memory.
pub fn decode(word: u32) -> Option<Instr>
    // What the table's row makes of the word, and None exactly where the word meets no row.
    ensures row { result ≡ decoded word }
    ensures none { IsNone result ↔ (rows_of word ≡ []) }

    // No word meets two rows, and the row that it meets makes this instruction.
    ensures single { length (rows_of word) ≤ 1 }
    ensures made { All (λ r. result ≡ Some (r.make word)) (rows_of word) }

    // The instruction is spelled as this word again.
    ensures valid { IfSome result IsValid }
    ensures spelled { IfSome result (λ i. word_of i ≡ word) }
{
    row_of(word)
}

#[tactic(auto, using(crate::proofs::Found::whole_rows, crate::proofs::Nowhere::no_other))]
fn row_of(word: u32) -> Option<Instr>
    ensures { result ≡ decoded word }
{
    match opcode_of(word) {
        0x37 => Some(Instr::Lui {
            rd: rd_of(word),
            imm: imm_u_of(word),
        }),
        0x17 => Some(Instr::Auipc {
            rd: rd_of(word),
            imm: imm_u_of(word),
        }),
        0x6f => Some(Instr::Jal {
            rd: rd_of(word),
            offset: imm_j_of(word),
        }),
        0x67 => jalr_of(word),
        0x63 => branch_of(word),
        0x03 => load_of(word),
        0x23 => store_of(word),
        0x13 => imm_of(word),
        0x33 => op_of(word),
        0x0f => fence_of(word),
        0x73 => system_of(word),
        0x2f => atomic_of(word),
        _ => None,
    }
}

#[tactic(auto, using(crate::proofs::Found::whole_rows, crate::proofs::Nowhere::no_jalr))]
fn jalr_of(word: u32) -> Option<Instr>
    requires { opcode word ≡ 0x67 }
    ensures { result ≡ decoded word }
{
    if funct3_of(word) != 0 {
        return None;
    }
    Some(Instr::Jalr {
        rd: rd_of(word),
        rs1: rs1_of(word),
        offset: imm_i_of(word),
    })
}

#[tactic(auto, using(crate::proofs::Nowhere::no_branch))]
fn branch_of(word: u32) -> Option<Instr>
    requires { opcode word ≡ 0x63 }
    ensures { result ≡ decoded word }
{
    match funct3_of(word) {
        0 => branch_by(Test::Eq, word),
        1 => branch_by(Test::Ne, word),
        4 => branch_by(Test::Lt, word),
        5 => branch_by(Test::Ge, word),
        6 => branch_by(Test::Ltu, word),
        7 => branch_by(Test::Geu, word),
        _ => None,
    }
}

// The branch by the test whose code the word has.
#[inline]
#[tactic(auto, using(crate::proofs::Found::branch_is))]
fn branch_by(test: Test, word: u32) -> Option<Instr>
    requires opcode { opcode word ≡ 0x63 }
    requires code { test_code test ≡ funct3 word }
    ensures { result ≡ decoded word }
{
    Some(Instr::Branch {
        test,
        rs1: rs1_of(word),
        rs2: rs2_of(word),
        offset: imm_b_of(word),
    })
}

#[tactic(auto, using(crate::proofs::Nowhere::no_load))]
fn load_of(word: u32) -> Option<Instr>
    requires { opcode word ≡ 0x03 }
    ensures { result ≡ decoded word }
{
    match funct3_of(word) {
        0 => load_by(LoadKind::Lb, word),
        1 => load_by(LoadKind::Lh, word),
        2 => load_by(LoadKind::Lw, word),
        4 => load_by(LoadKind::Lbu, word),
        5 => load_by(LoadKind::Lhu, word),
        _ => None,
    }
}

// The load of the kind whose code the word has.
#[inline]
#[tactic(auto, using(crate::proofs::Found::load_is))]
fn load_by(kind: LoadKind, word: u32) -> Option<Instr>
    requires opcode { opcode word ≡ 0x03 }
    requires code { load_code kind ≡ funct3 word }
    ensures { result ≡ decoded word }
{
    Some(Instr::Load {
        kind,
        rd: rd_of(word),
        rs1: rs1_of(word),
        offset: imm_i_of(word),
    })
}

#[tactic(auto, using(crate::proofs::Nowhere::no_store))]
fn store_of(word: u32) -> Option<Instr>
    requires { opcode word ≡ 0x23 }
    ensures { result ≡ decoded word }
{
    match funct3_of(word) {
        0 => store_by(StoreKind::Sb, word),
        1 => store_by(StoreKind::Sh, word),
        2 => store_by(StoreKind::Sw, word),
        _ => None,
    }
}

// The store of the kind whose code the word has.
#[inline]
#[tactic(auto, using(crate::proofs::Found::store_is))]
fn store_by(kind: StoreKind, word: u32) -> Option<Instr>
    requires opcode { opcode word ≡ 0x23 }
    requires code { store_code kind ≡ funct3 word }
    ensures { result ≡ decoded word }
{
    Some(Instr::Store {
        kind,
        rs1: rs1_of(word),
        rs2: rs2_of(word),
        offset: imm_s_of(word),
    })
}

#[tactic(auto, using(crate::proofs::Found::op_is, crate::proofs::Nowhere::no_op))]
fn op_of(word: u32) -> Option<Instr>
    requires { opcode word ≡ 0x33 }
    ensures { result ≡ decoded word }
{
    let op = alu_op_of(funct3_of(word), funct7_of(word))?;
    Some(Instr::Op {
        op,
        rd: rd_of(word),
        rs1: rs1_of(word),
        rs2: rs2_of(word),
    })
}

#[tactic(auto, using(crate::proofs::Found::imm_rows, crate::proofs::Nowhere::no_imm))]
fn imm_of(word: u32) -> Option<Instr>
    requires { opcode word ≡ 0x13 }
    ensures { result ≡ decoded word }
{
    match funct3_of(word) {
        0 => Some(plain_of(ImmOp::Addi, word)),
        1 if funct7_of(word) == 0 => Some(shift_of(ImmOp::Slli, word)),
        2 => Some(plain_of(ImmOp::Slti, word)),
        3 => Some(plain_of(ImmOp::Sltiu, word)),
        4 => Some(plain_of(ImmOp::Xori, word)),
        5 if funct7_of(word) == 0 => Some(shift_of(ImmOp::Srli, word)),
        5 if funct7_of(word) == 0x20 => Some(shift_of(ImmOp::Srai, word)),
        6 => Some(plain_of(ImmOp::Ori, word)),
        7 => Some(plain_of(ImmOp::Andi, word)),
        _ => None,
    }
}

fn plain_of(op: ImmOp, word: u32) -> Instr
    ensures { result ≡ Instr.Imm op (rd word) (rs1 word) (imm_i word) }
{
    Instr::Imm {
        op,
        rd: rd_of(word),
        rs1: rs1_of(word),
        value: imm_i_of(word),
    }
}

fn shift_of(op: ImmOp, word: u32) -> Instr
    ensures { result ≡ Instr.Imm op (rd word) (rs1 word) (pos (rs2 word)) }
{
    Instr::Imm {
        op,
        rd: rd_of(word),
        rs1: rs1_of(word),
        value: rs2_of(word).number() as i32,
    }
}

#[tactic(auto, using(crate::proofs::Found::whole_rows, crate::proofs::Nowhere::no_fence))]
fn fence_of(word: u32) -> Option<Instr>
    requires { opcode word ≡ 0x0f }
    ensures { result ≡ decoded word }
{
    if funct3_of(word) != 0 {
        return None;
    }
    Some(Instr::Fence {
        rd: rd_of(word),
        rs1: rs1_of(word),
        bits: word >> 20,
    })
}

#[tactic(auto, using(crate::proofs::Found::whole_rows, crate::proofs::Nowhere::no_system))]
fn system_of(word: u32) -> Option<Instr>
    requires { opcode word ≡ 0x73 }
    ensures { result ≡ decoded word }
{
    match word {
        0x0000_0073 => Some(Instr::Ecall),
        0x0010_0073 => Some(Instr::Ebreak),
        _ => None,
    }
}

#[tactic(auto, using(crate::proofs::Found::amo_is, crate::proofs::Found::sc_is, crate::proofs::Found::lr_is, crate::proofs::Nowhere::no_atomic))]
fn atomic_of(word: u32) -> Option<Instr>
    requires { opcode word ≡ 0x2f }
    ensures { result ≡ decoded word }
{
    let order = order_of(word);
    let (rd, rs1, rs2) = (rd_of(word), rs1_of(word), rs2_of(word));
    if funct3_of(word) != 2 {
        return None;
    }
    match funct5_of(word) {
        2 if rs2.number() == 0 => Some(Instr::Lr { rd, rs1, order }),
        2 => None,
        3 => Some(Instr::Sc {
            rd,
            rs1,
            rs2,
            order,
        }),
        code => {
            let op = amo_op_of(code)?;
            Some(Instr::Amo {
                op,
                rd,
                rs1,
                rs2,
                order,
            })
        }
    }
}
