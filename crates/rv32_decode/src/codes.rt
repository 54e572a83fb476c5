//! The numbers that stand in a word for the choices within a kind of instruction, both ways.
ghost use Rattle.std.specs.Prelude.{◌≡◌, ◌≢◌, ◌<◌, IfSome, IfNone};
ghost use Rattle.rv32_decode.specs.Codes.{test_code, load_code, store_code, imm_code, alu_code};
ghost use Rattle.rv32_decode.specs.Codes.{alu_high, amo_code};
ghost use Rattle.rv32_decode.specs.declared.instruction.AluOp.{AluOp};
ghost use Rattle.rv32_decode.specs.declared.instruction.AmoOp.{AmoOp};

use crate::instruction::{AluOp, AmoOp, ImmOp, LoadKind, StoreKind, Test};

pub(crate) fn test_code_of(test: Test) -> u32
    ensures code { result ≡ test_code test }
    ensures range { result < 8 }
{
    match test {
        Test::Eq => 0,
        Test::Ne => 1,
        Test::Lt => 4,
        Test::Ge => 5,
        Test::Ltu => 6,
        Test::Geu => 7,
    }
}

pub(crate) fn load_code_of(kind: LoadKind) -> u32
    ensures code { result ≡ load_code kind }
    ensures range { result < 8 }
{
    match kind {
        LoadKind::Lb => 0,
        LoadKind::Lh => 1,
        LoadKind::Lw => 2,
        LoadKind::Lbu => 4,
        LoadKind::Lhu => 5,
    }
}

pub(crate) fn store_code_of(kind: StoreKind) -> u32
    ensures code { result ≡ store_code kind }
    ensures range { result < 8 }
{
    match kind {
        StoreKind::Sb => 0,
        StoreKind::Sh => 1,
        StoreKind::Sw => 2,
    }
}

pub(crate) fn imm_code_of(op: ImmOp) -> u32
    ensures code { result ≡ imm_code op }
    ensures range { result < 8 }
{
    match op {
        ImmOp::Addi => 0,
        ImmOp::Slti => 2,
        ImmOp::Sltiu => 3,
        ImmOp::Xori => 4,
        ImmOp::Ori => 6,
        ImmOp::Andi => 7,
        ImmOp::Slli => 1,
        ImmOp::Srli | ImmOp::Srai => 5,
    }
}

pub(crate) fn alu_code_of(op: AluOp) -> u32
    ensures code { result ≡ alu_code op }
    ensures range { result < 8 }
{
    match op {
        AluOp::Add | AluOp::Sub | AluOp::Mul => 0,
        AluOp::Sll | AluOp::Mulh => 1,
        AluOp::Slt | AluOp::Mulhsu => 2,
        AluOp::Sltu | AluOp::Mulhu => 3,
        AluOp::Xor | AluOp::Div => 4,
        AluOp::Srl | AluOp::Sra | AluOp::Divu => 5,
        AluOp::Or | AluOp::Rem => 6,
        AluOp::And | AluOp::Remu => 7,
    }
}

pub(crate) fn alu_high_of(op: AluOp) -> u32
    ensures code { result ≡ alu_high op }
    ensures range { result < 128 }
{
    match op {
        AluOp::Sub | AluOp::Sra => 0x20,
        AluOp::Mul | AluOp::Mulh | AluOp::Mulhsu | AluOp::Mulhu => 1,
        AluOp::Div | AluOp::Divu | AluOp::Rem | AluOp::Remu => 1,
        _ => 0,
    }
}

pub(crate) fn alu_op_of(code: u32, high: u32) -> Option<AluOp>
    ensures found { IfSome result (λ o. (alu_code o ≡ code) × (alu_high o ≡ high)) }
    ensures none { IfNone result ((o : AluOp) → alu_code o ≡ code → alu_high o ≢ high) }
{
    match (high, code) {
        (0, 0) => Some(AluOp::Add),
        (0, 1) => Some(AluOp::Sll),
        (0, 2) => Some(AluOp::Slt),
        (0, 3) => Some(AluOp::Sltu),
        (0, 4) => Some(AluOp::Xor),
        (0, 5) => Some(AluOp::Srl),
        (0, 6) => Some(AluOp::Or),
        (0, 7) => Some(AluOp::And),
        (0x20, 0) => Some(AluOp::Sub),
        (0x20, 5) => Some(AluOp::Sra),
        (1, 0) => Some(AluOp::Mul),
        (1, 1) => Some(AluOp::Mulh),
        (1, 2) => Some(AluOp::Mulhsu),
        (1, 3) => Some(AluOp::Mulhu),
        (1, 4) => Some(AluOp::Div),
        (1, 5) => Some(AluOp::Divu),
        (1, 6) => Some(AluOp::Rem),
        (1, 7) => Some(AluOp::Remu),
        _ => None,
    }
}

pub(crate) fn amo_code_of(op: AmoOp) -> u32
    ensures code { result ≡ amo_code op }
    ensures range { result < 32 }
{
    match op {
        AmoOp::Add => 0,
        AmoOp::Swap => 1,
        AmoOp::Xor => 4,
        AmoOp::Or => 8,
        AmoOp::And => 12,
        AmoOp::Min => 16,
        AmoOp::Max => 20,
        AmoOp::Minu => 24,
        AmoOp::Maxu => 28,
    }
}

pub(crate) fn amo_op_of(code: u32) -> Option<AmoOp>
    ensures found { IfSome result (λ o. amo_code o ≡ code) }
    ensures none { IfNone result ((o : AmoOp) → amo_code o ≢ code) }
{
    match code {
        0 => Some(AmoOp::Add),
        1 => Some(AmoOp::Swap),
        4 => Some(AmoOp::Xor),
        8 => Some(AmoOp::Or),
        12 => Some(AmoOp::And),
        16 => Some(AmoOp::Min),
        20 => Some(AmoOp::Max),
        24 => Some(AmoOp::Minu),
        28 => Some(AmoOp::Maxu),
        _ => None,
    }
}
