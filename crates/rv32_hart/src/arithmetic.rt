// What the operations on registers give.
ghost use Rattle.std.specs.Prelude.{◌≡◌, ◌*ℤ◌};
ghost use Rattle.rv32_hart.specs.Arithmetic.{alu, amo, high, plain};

use rv32_decode::{AluOp, AmoOp, ImmOp};

#[inline(always)]
pub fn alu_of(op: AluOp, a: u32, b: u32) -> u32
    ensures { result ≡ alu op a b }
{
    match op {
        AluOp::Add => a.wrapping_add(b),
        AluOp::Sub => a.wrapping_sub(b),
        AluOp::Sll => a.wrapping_shl(b),
        AluOp::Slt => (a.cast_signed() < b.cast_signed()) as u32,
        AluOp::Sltu => (a < b) as u32,
        AluOp::Xor => a ^ b,
        AluOp::Srl => a.wrapping_shr(b),
        AluOp::Sra => a.cast_signed().wrapping_shr(b).cast_unsigned(),
        AluOp::Or => a | b,
        AluOp::And => a & b,
        AluOp::Mul => a.wrapping_mul(b),
        AluOp::Mulh => high_of(a.cast_signed(), b.cast_signed()),
        AluOp::Mulhsu => ((i64::from(a.cast_signed()) * i64::from(b)).cast_unsigned() >> 32) as u32,
        AluOp::Mulhu => (u64::from(a) * u64::from(b) >> 32) as u32,
        AluOp::Div => quotient(a, b),
        AluOp::Divu => if b == 0 { u32::MAX } else { a / b },
        AluOp::Rem => remainder(a, b),
        AluOp::Remu => if b == 0 { a } else { a % b },
    }
}

// The upper word of a signed product.
fn high_of(a: i32, b: i32) -> u32
    ensures { result ≡ high (a *ℤ b) }
{
    ((i64::from(a) * i64::from(b)).cast_unsigned() >> 32) as u32
}

fn quotient(a: u32, b: u32) -> u32
    ensures { result ≡ alu AluOp.Div a b }
{
    if b == 0 {
        return u32::MAX;
    }
    a.cast_signed()
        .wrapping_div(b.cast_signed())
        .cast_unsigned()
}

fn remainder(a: u32, b: u32) -> u32
    ensures { result ≡ alu AluOp.Rem a b }
{
    if b == 0 {
        return a;
    }
    a.cast_signed()
        .wrapping_rem(b.cast_signed())
        .cast_unsigned()
}

pub fn plain_op(op: ImmOp) -> AluOp
    ensures { result ≡ plain op }
{
    match op {
        ImmOp::Addi => AluOp::Add,
        ImmOp::Slti => AluOp::Slt,
        ImmOp::Sltiu => AluOp::Sltu,
        ImmOp::Xori => AluOp::Xor,
        ImmOp::Ori => AluOp::Or,
        ImmOp::Andi => AluOp::And,
        ImmOp::Slli => AluOp::Sll,
        ImmOp::Srli => AluOp::Srl,
        ImmOp::Srai => AluOp::Sra,
    }
}

pub fn amo_of(op: AmoOp, old: u32, value: u32) -> u32
    ensures { result ≡ amo op old value }
{
    match op {
        AmoOp::Add => old.wrapping_add(value),
        AmoOp::Swap => value,
        AmoOp::Xor => old ^ value,
        AmoOp::Or => old | value,
        AmoOp::And => old & value,
        AmoOp::Min => if value.cast_signed() < old.cast_signed() {
            value
        } else {
            old
        },
        AmoOp::Max => if old.cast_signed() < value.cast_signed() {
            value
        } else {
            old
        },
        AmoOp::Minu => if value < old { value } else { old },
        AmoOp::Maxu => if old < value { value } else { old },
    }
}
