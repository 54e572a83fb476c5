// Calls and returns through the link registers, and more of them than are kept.

use guest::CallList;
use rv32_decode::{Instr, Reg};
use std::process::Abort;
use std::test::Fail;

fn reg(rt: &impl Abort, number: u8) -> Reg {
    Reg::new(number).expect(rt, "a register")
}

// JAL with a register, or JALR where there is a second one.
fn link(rt: &impl Abort, rd: u8, rs1: Option<u8>) -> Instr {
    let rd = reg(rt, rd);
    match rs1 {
        None => Instr::Jal { rd, offset: 8 },
        Some(rs1) => Instr::Jalr {
            rd,
            rs1: reg(rt, rs1),
            offset: 0,
        },
    }
}

// The registers of jumps, each with its place and the last four calls after it.
const JUMPS: [(u8, Option<u8>, u32, [u32; 4]); 7] = [
    (0, Some(1), 0x100, [0, 0, 0, 0]), // a return
    (1, None, 0x104, [0x104, 0, 0, 0]), // a call
    (0, None, 0x108, [0x104, 0, 0, 0]), // a jump
    (5, None, 0x10c, [0x10c, 0x104, 0, 0]), // another call
    (1, Some(5), 0x110, [0x110, 0x104, 0, 0]), // a return and a call
    (1, Some(1), 0x114, [0x114, 0x110, 0x104, 0]), // a call through its own register
    (0, Some(5), 0x11c, [0x110, 0x104, 0, 0]), // a return
];

// Notes all jumps, and behind each what is no jump, which changes nothing.
fn note_jumps(rt: &impl Abort, calls: &mut CallList) {
    for (rd, rs1, pc, four) in &JUMPS {
        calls.note(link(rt, *rd, *rs1), *pc);
        assert!(rt; calls.last_four() == *four);
        calls.note(Instr::Ecall, *pc);
        assert!(rt; calls.last_four() == *four);
    }
}

// Notes so many calls, one behind the other.
fn note_calls(rt: &impl Abort, calls: &mut CallList, count: u16) {
    for i in 0..count {
        calls.note(link(rt, 1, None), 4 * u32::from(i));
    }
}

// Notes so many returns.
fn note_returns(rt: &impl Abort, calls: &mut CallList, count: u16) {
    for _i in 0..count {
        calls.note(link(rt, 0, Some(1)), 0);
    }
}

// Forgets all calls, notes 300, of which the last 256 are kept, and returns from these.
fn note_more_than_are_kept(rt: &impl Abort, calls: &mut CallList) {
    calls.clear();
    assert!(rt; calls.last_four() == [0, 0, 0, 0]);
    note_calls(rt, calls, 300);
    assert!(rt; calls.last_four() == [1196, 1192, 1188, 1184]);
    note_returns(rt, calls, 255);
    assert!(rt; calls.last_four() == [176, 0, 0, 0]);
    note_returns(rt, calls, 1);
    assert!(rt; calls.last_four() == [0, 0, 0, 0]);
}

#[test]
fn notes_calls_and_returns(rt: HostRuntime) -> Result<(), Fail> {
    let mut calls = CallList::new(rt.alloc())?;
    note_jumps(&rt, &mut calls);
    note_more_than_are_kept(&rt, &mut calls);
    Ok(())
}
