//! The fields of a word.
ghost use Rattle.std.specs.Prelude.{◌≡◌};
ghost use Rattle.rv32_decode.specs.Fields.{opcode, rd, rs1, rs2, funct3, funct5, funct7, order};
ghost use Rattle.rv32_decode.specs.Fields.{imm_i, imm_s, imm_b, imm_u, imm_j};

use crate::register::Reg;

#[inline]
pub(crate) fn opcode_of(word: u32) -> u32
    ensures { result ≡ opcode word }
{
    word & 0x7f
}

#[inline]
pub(crate) fn funct3_of(word: u32) -> u32
    ensures { result ≡ funct3 word }
{
    word >> 12 & 7
}

#[inline]
pub(crate) fn funct7_of(word: u32) -> u32
    ensures { result ≡ funct7 word }
{
    word >> 25
}

#[inline]
pub(crate) fn funct5_of(word: u32) -> u32
    ensures { result ≡ funct5 word }
{
    word >> 27
}

#[inline]
pub(crate) fn order_of(word: u32) -> u8
    ensures { result ≡ order word }
{
    (word >> 25 & 3) as u8
}

#[inline]
pub(crate) fn rd_of(word: u32) -> Reg
    ensures { result ≡ rd word }
{
    Reg::of_low_bits(word >> 7)
}

#[inline]
pub(crate) fn rs1_of(word: u32) -> Reg
    ensures { result ≡ rs1 word }
{
    Reg::of_low_bits(word >> 15)
}

#[inline]
pub(crate) fn rs2_of(word: u32) -> Reg
    ensures { result ≡ rs2 word }
{
    Reg::of_low_bits(word >> 20)
}

#[inline]
pub(crate) fn imm_i_of(word: u32) -> i32
    ensures { result ≡ imm_i word }
{
    word.cast_signed() >> 20
}

#[inline]
pub(crate) fn imm_s_of(word: u32) -> i32
    ensures { result ≡ imm_s word }
{
    (word.cast_signed() >> 25) * 32 + (word >> 7 & 31) as i32
}

#[inline]
pub(crate) fn imm_b_of(word: u32) -> i32
    ensures { result ≡ imm_b word }
{
    let below = ((word >> 7 & 1) << 11) + ((word >> 25 & 63) << 5) + ((word >> 8 & 15) << 1);
    (word.cast_signed() >> 31) * 4096 + below as i32
}

#[inline]
pub(crate) fn imm_u_of(word: u32) -> u32
    ensures { result ≡ imm_u word }
{
    word >> 12 << 12
}

#[tactic(auto, using(crate::proofs::Extended::jump))]
#[inline]
pub(crate) fn imm_j_of(word: u32) -> i32
    ensures { result ≡ imm_j word }
{
    let below = ((word >> 12 & 255) << 12) + ((word >> 20 & 1) << 11) + ((word >> 21 & 1023) << 1);
    (word.cast_signed() >> 31) * 1048576 + below as i32
}
