//! Words that an assembler made, with the instructions that it was given.
//!
//! The words are those of clang 14: `clang --target=riscv32 -march=rv32ima -c`, and with
//! `--target=riscv64 -march=rv64imafd` for the instructions of other extensions. There are three
//! or
//! more for each row of the table, with the least and the greatest immediates.

use rv32_decode::{AluOp, AmoOp, ImmOp, Instr, LoadKind, Reg, StoreKind, Test, decode, encode};
use std::process::Abort;

// word, rd, imm
const LUI: &[(u32, u8, u32)] = &[
    (0x0000_0037, 0, 0x0000_0000),
    (0x0000_1537, 10, 0x0000_1000),
    (0xffff_ffb7, 31, 0xffff_f000),
    (0x8000_0ab7, 21, 0x8000_0000),
];

// word, rd, imm
const AUIPC: &[(u32, u8, u32)] = &[
    (0x0000_0017, 0, 0x0000_0000),
    (0x0000_1517, 10, 0x0000_1000),
    (0xffff_ff97, 31, 0xffff_f000),
    (0x8000_0a97, 21, 0x8000_0000),
];

// word, rd, offset
const JAL: &[(u32, u8, i32)] = &[
    (0x0000_006f, 0, 0),
    (0x8000_00ef, 1, -1048576),
    (0x7fff_f2ef, 5, 1048574),
    (0x0010_0fef, 31, 2048),
    (0xffff_f56f, 10, -2),
];

// word, rd, rs1, offset
const JALR: &[(u32, u8, u8, i32)] = &[
    (0x0000_8067, 0, 1, 0),
    (0x800f_80e7, 1, 31, -2048),
    (0x7ff2_8fe7, 31, 5, 2047),
];

// word, test, rs1, rs2, offset
const BRANCHES: &[(u32, Test, u8, u8, i32)] = &[
    (0x8020_8063, Test::Eq, 1, 2, -4096),
    (0x7e0f_8fe3, Test::Eq, 31, 0, 4094),
    (0x0152_80e3, Test::Eq, 5, 21, 2048),
    (0x8020_9063, Test::Ne, 1, 2, -4096),
    (0x7e0f_9fe3, Test::Ne, 31, 0, 4094),
    (0xff52_9fe3, Test::Ne, 5, 21, -2),
    (0x8020_c063, Test::Lt, 1, 2, -4096),
    (0x7e0f_cfe3, Test::Lt, 31, 0, 4094),
    (0x4152_c063, Test::Lt, 5, 21, 1024),
    (0x8020_d063, Test::Ge, 1, 2, -4096),
    (0x7e0f_dfe3, Test::Ge, 31, 0, 4094),
    (0xff52_df63, Test::Ge, 5, 21, -2050),
    (0x8020_e063, Test::Ltu, 1, 2, -4096),
    (0x7e0f_efe3, Test::Ltu, 31, 0, 4094),
    (0x0352_e063, Test::Ltu, 5, 21, 32),
    (0x8020_f063, Test::Geu, 1, 2, -4096),
    (0x7e0f_ffe3, Test::Geu, 31, 0, 4094),
    (0xfd52_f0e3, Test::Geu, 5, 21, -64),
];

// word, kind, rd, rs1, offset
const LOADS: &[(u32, LoadKind, u8, u8, i32)] = &[
    (0x8001_0083, LoadKind::Lb, 1, 2, -2048),
    (0x7ff5_0f83, LoadKind::Lb, 31, 10, 2047),
    (0x000f_0283, LoadKind::Lb, 5, 30, 0),
    (0x8001_1083, LoadKind::Lh, 1, 2, -2048),
    (0x7ff5_1f83, LoadKind::Lh, 31, 10, 2047),
    (0xffff_1283, LoadKind::Lh, 5, 30, -1),
    (0x8001_2083, LoadKind::Lw, 1, 2, -2048),
    (0x7ff5_2f83, LoadKind::Lw, 31, 10, 2047),
    (0x004f_2283, LoadKind::Lw, 5, 30, 4),
    (0x8001_4083, LoadKind::Lbu, 1, 2, -2048),
    (0x7ff5_4f83, LoadKind::Lbu, 31, 10, 2047),
    (0x001f_4283, LoadKind::Lbu, 5, 30, 1),
    (0x8001_5083, LoadKind::Lhu, 1, 2, -2048),
    (0x7ff5_5f83, LoadKind::Lhu, 31, 10, 2047),
    (0xfe0f_5283, LoadKind::Lhu, 5, 30, -32),
];

// word, kind, rs1, rs2, offset
const STORES: &[(u32, StoreKind, u8, u8, i32)] = &[
    (0x8011_0023, StoreKind::Sb, 2, 1, -2048),
    (0x7ff5_0fa3, StoreKind::Sb, 10, 31, 2047),
    (0x005f_0fa3, StoreKind::Sb, 30, 5, 31),
    (0x8011_1023, StoreKind::Sh, 2, 1, -2048),
    (0x7ff5_1fa3, StoreKind::Sh, 10, 31, 2047),
    (0xfe5f_1fa3, StoreKind::Sh, 30, 5, -1),
    (0x8011_2023, StoreKind::Sw, 2, 1, -2048),
    (0x7ff5_2fa3, StoreKind::Sw, 10, 31, 2047),
    (0x025f_2023, StoreKind::Sw, 30, 5, 32),
];

// word, op, rd, rs1, value
const IMMEDIATES: &[(u32, ImmOp, u8, u8, i32)] = &[
    (0x8001_0093, ImmOp::Addi, 1, 2, -2048),
    (0x7ff5_0f93, ImmOp::Addi, 31, 10, 2047),
    (0x0002_8a93, ImmOp::Addi, 21, 5, 0),
    (0x8001_2093, ImmOp::Slti, 1, 2, -2048),
    (0x7ff5_2f93, ImmOp::Slti, 31, 10, 2047),
    (0xfff2_aa93, ImmOp::Slti, 21, 5, -1),
    (0x8001_3093, ImmOp::Sltiu, 1, 2, -2048),
    (0x7ff5_3f93, ImmOp::Sltiu, 31, 10, 2047),
    (0x0012_ba93, ImmOp::Sltiu, 21, 5, 1),
    (0x8001_4093, ImmOp::Xori, 1, 2, -2048),
    (0x7ff5_4f93, ImmOp::Xori, 31, 10, 2047),
    (0xfff2_ca93, ImmOp::Xori, 21, 5, -1),
    (0x8001_6093, ImmOp::Ori, 1, 2, -2048),
    (0x7ff5_6f93, ImmOp::Ori, 31, 10, 2047),
    (0x4002_ea93, ImmOp::Ori, 21, 5, 1024),
    (0x8001_7093, ImmOp::Andi, 1, 2, -2048),
    (0x7ff5_7f93, ImmOp::Andi, 31, 10, 2047),
    (0x0ff2_fa93, ImmOp::Andi, 21, 5, 255),
    (0x0001_1093, ImmOp::Slli, 1, 2, 0),
    (0x01f5_1f93, ImmOp::Slli, 31, 10, 31),
    (0x0112_9a93, ImmOp::Slli, 21, 5, 17),
    (0x0001_5093, ImmOp::Srli, 1, 2, 0),
    (0x01f5_5f93, ImmOp::Srli, 31, 10, 31),
    (0x0112_da93, ImmOp::Srli, 21, 5, 17),
    (0x4001_5093, ImmOp::Srai, 1, 2, 0),
    (0x41f5_5f93, ImmOp::Srai, 31, 10, 31),
    (0x4112_da93, ImmOp::Srai, 21, 5, 17),
];

// word, op, rd, rs1, rs2
const OPERATIONS: &[(u32, AluOp, u8, u8, u8)] = &[
    (0x0051_00b3, AluOp::Add, 1, 2, 5),
    (0x00a0_0fb3, AluOp::Add, 31, 0, 10),
    (0x015f_8533, AluOp::Add, 10, 31, 21),
    (0x4051_00b3, AluOp::Sub, 1, 2, 5),
    (0x40a0_0fb3, AluOp::Sub, 31, 0, 10),
    (0x415f_8533, AluOp::Sub, 10, 31, 21),
    (0x0051_10b3, AluOp::Sll, 1, 2, 5),
    (0x00a0_1fb3, AluOp::Sll, 31, 0, 10),
    (0x015f_9533, AluOp::Sll, 10, 31, 21),
    (0x0051_20b3, AluOp::Slt, 1, 2, 5),
    (0x00a0_2fb3, AluOp::Slt, 31, 0, 10),
    (0x015f_a533, AluOp::Slt, 10, 31, 21),
    (0x0051_30b3, AluOp::Sltu, 1, 2, 5),
    (0x00a0_3fb3, AluOp::Sltu, 31, 0, 10),
    (0x015f_b533, AluOp::Sltu, 10, 31, 21),
    (0x0051_40b3, AluOp::Xor, 1, 2, 5),
    (0x00a0_4fb3, AluOp::Xor, 31, 0, 10),
    (0x015f_c533, AluOp::Xor, 10, 31, 21),
    (0x0051_50b3, AluOp::Srl, 1, 2, 5),
    (0x00a0_5fb3, AluOp::Srl, 31, 0, 10),
    (0x015f_d533, AluOp::Srl, 10, 31, 21),
    (0x4051_50b3, AluOp::Sra, 1, 2, 5),
    (0x40a0_5fb3, AluOp::Sra, 31, 0, 10),
    (0x415f_d533, AluOp::Sra, 10, 31, 21),
    (0x0051_60b3, AluOp::Or, 1, 2, 5),
    (0x00a0_6fb3, AluOp::Or, 31, 0, 10),
    (0x015f_e533, AluOp::Or, 10, 31, 21),
    (0x0051_70b3, AluOp::And, 1, 2, 5),
    (0x00a0_7fb3, AluOp::And, 31, 0, 10),
    (0x015f_f533, AluOp::And, 10, 31, 21),
    (0x0251_00b3, AluOp::Mul, 1, 2, 5),
    (0x02a0_0fb3, AluOp::Mul, 31, 0, 10),
    (0x035f_8533, AluOp::Mul, 10, 31, 21),
    (0x0251_10b3, AluOp::Mulh, 1, 2, 5),
    (0x02a0_1fb3, AluOp::Mulh, 31, 0, 10),
    (0x035f_9533, AluOp::Mulh, 10, 31, 21),
    (0x0251_20b3, AluOp::Mulhsu, 1, 2, 5),
    (0x02a0_2fb3, AluOp::Mulhsu, 31, 0, 10),
    (0x035f_a533, AluOp::Mulhsu, 10, 31, 21),
    (0x0251_30b3, AluOp::Mulhu, 1, 2, 5),
    (0x02a0_3fb3, AluOp::Mulhu, 31, 0, 10),
    (0x035f_b533, AluOp::Mulhu, 10, 31, 21),
    (0x0251_40b3, AluOp::Div, 1, 2, 5),
    (0x02a0_4fb3, AluOp::Div, 31, 0, 10),
    (0x035f_c533, AluOp::Div, 10, 31, 21),
    (0x0251_50b3, AluOp::Divu, 1, 2, 5),
    (0x02a0_5fb3, AluOp::Divu, 31, 0, 10),
    (0x035f_d533, AluOp::Divu, 10, 31, 21),
    (0x0251_60b3, AluOp::Rem, 1, 2, 5),
    (0x02a0_6fb3, AluOp::Rem, 31, 0, 10),
    (0x035f_e533, AluOp::Rem, 10, 31, 21),
    (0x0251_70b3, AluOp::Remu, 1, 2, 5),
    (0x02a0_7fb3, AluOp::Remu, 31, 0, 10),
    (0x035f_f533, AluOp::Remu, 10, 31, 21),
];

// word, rd, rs1, bits
const FENCES: &[(u32, u8, u8, u32)] = &[
    (0x0ff0_000f, 0, 0, 0x0ff),
    (0x8330_000f, 0, 0, 0x833),
    (0x0120_000f, 0, 0, 0x012),
    (0xfffa_8f8f, 31, 21, 0xfff),
];

// word, rd, rs1, order
const LR: &[(u32, u8, u8, u8)] = &[
    (0x1001_20af, 1, 2, 0),
    (0x1402_afaf, 31, 5, 2),
    (0x160a_a52f, 10, 21, 3),
    (0x120f_a2af, 5, 31, 1),
];

// word, rd, rs1, rs2, order
const SC: &[(u32, u8, u8, u8, u8)] = &[
    (0x1851_20af, 1, 2, 5, 0),
    (0x1a05_2faf, 31, 10, 0, 1),
    (0x1ffa_a52f, 10, 21, 31, 3),
    (0x1c1f_22af, 5, 30, 1, 2),
];

// word, op, rd, rs1, rs2, order
const ATOMICS: &[(u32, AmoOp, u8, u8, u8, u8)] = &[
    (0x0062_a02f, AmoOp::Add, 0, 5, 6, 0),
    (0x0051_20af, AmoOp::Add, 1, 2, 5, 0),
    (0x0205_2faf, AmoOp::Add, 31, 10, 0, 1),
    (0x07fa_a52f, AmoOp::Add, 10, 21, 31, 3),
    (0x0851_20af, AmoOp::Swap, 1, 2, 5, 0),
    (0x0c05_2faf, AmoOp::Swap, 31, 10, 0, 2),
    (0x0ffa_a52f, AmoOp::Swap, 10, 21, 31, 3),
    (0x2051_20af, AmoOp::Xor, 1, 2, 5, 0),
    (0x2205_2faf, AmoOp::Xor, 31, 10, 0, 1),
    (0x27fa_a52f, AmoOp::Xor, 10, 21, 31, 3),
    (0x4051_20af, AmoOp::Or, 1, 2, 5, 0),
    (0x4405_2faf, AmoOp::Or, 31, 10, 0, 2),
    (0x47fa_a52f, AmoOp::Or, 10, 21, 31, 3),
    (0x6051_20af, AmoOp::And, 1, 2, 5, 0),
    (0x6205_2faf, AmoOp::And, 31, 10, 0, 1),
    (0x67fa_a52f, AmoOp::And, 10, 21, 31, 3),
    (0x8051_20af, AmoOp::Min, 1, 2, 5, 0),
    (0x8405_2faf, AmoOp::Min, 31, 10, 0, 2),
    (0x87fa_a52f, AmoOp::Min, 10, 21, 31, 3),
    (0xa051_20af, AmoOp::Max, 1, 2, 5, 0),
    (0xa205_2faf, AmoOp::Max, 31, 10, 0, 1),
    (0xa7fa_a52f, AmoOp::Max, 10, 21, 31, 3),
    (0xc051_20af, AmoOp::Minu, 1, 2, 5, 0),
    (0xc405_2faf, AmoOp::Minu, 31, 10, 0, 2),
    (0xc7fa_a52f, AmoOp::Minu, 10, 21, 31, 3),
    (0xe051_20af, AmoOp::Maxu, 1, 2, 5, 0),
    (0xe205_2faf, AmoOp::Maxu, 31, 10, 0, 1),
    (0xe7fa_a52f, AmoOp::Maxu, 10, 21, 31, 3),
];

// Words of other extensions and of 64 bits, and some that no extension has.
const NO_INSTRUCTIONS: &[u32] = &[
    0x0000_0000, // all zeros
    0xffff_ffff, // all ones
    0x1062_a3af, // lr.w with an rs2
    0x1011_20af, // lr.w with the lowest rs2
    0x0000_4501, // c.li a0, 0
    0x0001_8082, // c.jr ra, c.nop
    0x1141_8082, // c.jr ra, c.addi sp, -16
    0x0000_1067, // jalr with funct3 1
    0x0020_2063, // a branch with funct3 2
    0x0020_3063, // a branch with funct3 3
    0x0000_7003, // a load with funct3 7
    0x0000_4023, // a store with funct3 4
    0x4000_1013, // slli with the bit of srai
    0x4000_1033, // sll with the bit of sub
    0x0400_0033, // an operation with funct7 2
    0x2800_202f, // an atomic operation with funct5 5
    0x0020_0073, // ecall with another number
    0x0000_00f3, // ecall with an rd
    0x0000_100f, // fence.i
    0x3020_0073, // mret
    0x1050_0073, // wfi
    0x3001_10f3, // csrrw x1, mstatus, x2
    0x342f_f073, // csrrci x0, mcause, 31
    0x8001_3083, // ld x1, -2048(x2)
    0x7fff_e283, // lwu x5, 2047(x31)
    0x0011_3023, // sd x1, 0(x2)
    0x0011_009b, // addiw x1, x2, 1
    0x0051_00bb, // addw x1, x2, x5
    0x0251_00bb, // mulw x1, x2, x5
    0x0201_1093, // slli x1, x2, 32
    0x03f1_5093, // srli x1, x2, 63
    0x4201_5093, // srai x1, x2, 32
    0x0051_30af, // amoadd.d x1, x5, (x2)
    0x1001_30af, // lr.d x1, (x2)
    0x1851_30af, // sc.d x1, x5, (x2)
    0x0001_2087, // flw f1, 0(x2)
    0x0011_2027, // fsw f1, 0(x2)
    0x0051_70d3, // fadd.s f1, f2, f5
    0x1220_8073, // sfence.vma x1, x2
];

fn x(rt: &impl Abort, number: u8) -> Reg {
    Reg::new(number).expect(rt, "a register")
}

fn agree(rt: &impl Abort, word: u32, instr: Instr) {
    assert!(rt;
        decode(word) == Some(instr) && instr.is_valid() && encode(instr) == word,
        "{word:08x}"
    );
}

#[test]
fn upper_immediates(rt: HostRuntime) {
    for &(word, rd, imm) in LUI {
        agree(
            &rt,
            word,
            Instr::Lui {
                rd: x(&rt, rd),
                imm,
            },
        );
    }
    for &(word, rd, imm) in AUIPC {
        agree(
            &rt,
            word,
            Instr::Auipc {
                rd: x(&rt, rd),
                imm,
            },
        );
    }
}

#[test]
fn jumps(rt: HostRuntime) {
    for &(word, rd, offset) in JAL {
        agree(
            &rt,
            word,
            Instr::Jal {
                rd: x(&rt, rd),
                offset,
            },
        );
    }
    for &(word, rd, rs1, offset) in JALR {
        agree(
            &rt,
            word,
            Instr::Jalr {
                rd: x(&rt, rd),
                rs1: x(&rt, rs1),
                offset,
            },
        );
    }
}

#[test]
fn branches(rt: HostRuntime) {
    for &(word, test, rs1, rs2, offset) in BRANCHES {
        agree(
            &rt,
            word,
            Instr::Branch {
                test,
                rs1: x(&rt, rs1),
                rs2: x(&rt, rs2),
                offset,
            },
        );
    }
}

#[test]
fn loads(rt: HostRuntime) {
    for &(word, kind, rd, rs1, offset) in LOADS {
        agree(
            &rt,
            word,
            Instr::Load {
                kind,
                rd: x(&rt, rd),
                rs1: x(&rt, rs1),
                offset,
            },
        );
    }
}

#[test]
fn stores(rt: HostRuntime) {
    for &(word, kind, rs1, rs2, offset) in STORES {
        agree(
            &rt,
            word,
            Instr::Store {
                kind,
                rs1: x(&rt, rs1),
                rs2: x(&rt, rs2),
                offset,
            },
        );
    }
}

#[test]
fn immediates(rt: HostRuntime) {
    for &(word, op, rd, rs1, value) in IMMEDIATES {
        agree(
            &rt,
            word,
            Instr::Imm {
                op,
                rd: x(&rt, rd),
                rs1: x(&rt, rs1),
                value,
            },
        );
    }
}

#[test]
fn operations(rt: HostRuntime) {
    for &(word, op, rd, rs1, rs2) in OPERATIONS {
        agree(
            &rt,
            word,
            Instr::Op {
                op,
                rd: x(&rt, rd),
                rs1: x(&rt, rs1),
                rs2: x(&rt, rs2),
            },
        );
    }
}

#[test]
fn fences_and_calls(rt: HostRuntime) {
    for &(word, rd, rs1, bits) in FENCES {
        agree(
            &rt,
            word,
            Instr::Fence {
                rd: x(&rt, rd),
                rs1: x(&rt, rs1),
                bits,
            },
        );
    }
    agree(&rt, 0x0000_0073, Instr::Ecall);
    agree(&rt, 0x0010_0073, Instr::Ebreak);
}

#[test]
fn reservations(rt: HostRuntime) {
    for &(word, rd, rs1, order) in LR {
        agree(
            &rt,
            word,
            Instr::Lr {
                rd: x(&rt, rd),
                rs1: x(&rt, rs1),
                order,
            },
        );
    }
    for &(word, rd, rs1, rs2, order) in SC {
        agree(
            &rt,
            word,
            Instr::Sc {
                rd: x(&rt, rd),
                rs1: x(&rt, rs1),
                rs2: x(&rt, rs2),
                order,
            },
        );
    }
}

#[test]
fn atomics(rt: HostRuntime) {
    for &(word, op, rd, rs1, rs2, order) in ATOMICS {
        agree(
            &rt,
            word,
            Instr::Amo {
                op,
                rd: x(&rt, rd),
                rs1: x(&rt, rs1),
                rs2: x(&rt, rs2),
                order,
            },
        );
    }
}

#[test]
fn other_words(rt: HostRuntime) {
    for &word in NO_INSTRUCTIONS {
        assert!(rt; decode(word).is_none(), "{word:08x}");
    }
}
