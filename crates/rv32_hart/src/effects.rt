// What each kind of instruction does: its effect and its access, or its trap, which leaves all.
ghost use Rattle.std.specs.Prelude.{◌≡◌, ◌%◌, ◌<◌, ◌+◌, ◌^◌, ℕ, List, Option, None, length};
ghost use Rattle.rv32_hart.specs.Bytes.{IsSize};
ghost use Rattle.rv32_hart.specs.Space.{Space};
ghost use Rattle.rv32_hart.specs.Registers.{moved, advanced, with_reg};
ghost use Rattle.rv32_hart.specs.Reserved.{is_of};
ghost use Rattle.rv32_hart.specs.Effect.{amo_effect, lr_effect, sc_effect, machine, outcome};
ghost use Rattle.rv32_hart.specs.Effect.{branch_effect, jumps, holds, load_size, extended};
ghost use Rattle.rv32_hart.specs.Effect.{store_size, load_cause, store_cause, store_effect};
ghost use Rattle.rv32_hart.specs.Effect.{load_effect, access};

use crate::arithmetic::amo_of;
use crate::hart_state::HartState;
use crate::reservations::Reservations;
use crate::step_end::StepEnd;
use crate::{MemFault, Memory};
use base::{Access, Cause, Hart, Kind};
use rv32_decode::{AmoOp, Instr, LoadKind, Reg, StoreKind, Test};

/// The access that memory has let through.
fn access_of(hart: Hart, addr: u32, kind: Kind, size: u8) -> Option<Access>
    requires size { IsSize size }
    requires aligned { addr % size ≡ 0 }
    ensures { result ≡ access hart addr kind size }
{
    Access::new(hart, addr, kind, size)
}

pub fn moved_by(addr: u32, offset: i32) -> u32
    ensures { result ≡ moved addr offset }
{
    addr.wrapping_add(offset.cast_unsigned())
}

fn test_holds(test: Test, a: u32, b: u32) -> bool
    ensures { result ≡ holds test a b }
{
    match test {
        Test::Eq => a == b,
        Test::Ne => a != b,
        Test::Lt => a.cast_signed() < b.cast_signed(),
        Test::Ge => !(a.cast_signed() < b.cast_signed()),
        Test::Ltu => a < b,
        Test::Geu => !(a < b),
    }
}

fn size_of_load(kind: LoadKind) -> u8
    ensures same { result ≡ load_size kind }
    ensures size { IsSize result }
{
    match kind {
        LoadKind::Lb | LoadKind::Lbu => 1,
        LoadKind::Lh | LoadKind::Lhu => 2,
        LoadKind::Lw => 4,
    }
}

fn extension(kind: LoadKind, value: u32) -> u32
    requires { value < 256 ^ load_size kind }
    ensures { result ≡ extended kind value }
{
    match kind {
        LoadKind::Lb => if value < 128 {
            value
        } else {
            value + 0xffff_ff00
        },
        LoadKind::Lh => if value < 32768 {
            value
        } else {
            value + 0xffff_0000
        },
        LoadKind::Lw | LoadKind::Lbu | LoadKind::Lhu => value,
    }
}

fn size_of_store(kind: StoreKind) -> u8
    ensures same { result ≡ store_size kind }
    ensures size { IsSize result }
{
    match kind {
        StoreKind::Sb => 1,
        StoreKind::Sh => 2,
        StoreKind::Sw => 4,
    }
}

fn cause_of_load(fault: MemFault) -> Cause
    ensures { result ≡ load_cause fault }
{
    match fault {
        MemFault::Misaligned => Cause::LoadMisaligned,
        _ => Cause::LoadOutside,
    }
}

fn cause_of_store(fault: MemFault) -> Cause
    ensures { result ≡ store_cause fault }
{
    match fault {
        MemFault::Misaligned => Cause::StoreMisaligned,
        _ => Cause::StoreOutside,
    }
}

/// A value into a register, and on to the next instruction.
#[inline(always)]
pub fn give(instr: Instr, rd: Reg, value: u32, state: &mut HartState) -> StepEnd
    ensures end { result ≡ StepEnd.Next instr None }
    ensures state { state.new ≡ advanced (with_reg state.old rd value) }
{
    state.set_reg(rd, value);
    state.advance();
    StepEnd::Next(instr, None)
}

#[inline(always)]
pub fn branch(
    instr: Instr,
    test: Test,
    rs1: Reg,
    rs2: Reg,
    offset: i32,
    state: &mut HartState,
) -> StepEnd
    ensures { (m : Space) (h : List (Option ℕ))
        → outcome result (machine state.new m h) ≡ branch_effect instr test rs1 rs2 offset
        (machine state.old m h) }
{
    if !test_holds(test, state.reg(rs1), state.reg(rs2)) {
        state.advance();
        return StepEnd::Next(instr, None);
    }
    let target = moved_by(state.pc(), offset);
    if target % 4 != 0 {
        return StepEnd::Trap(Cause::FetchMisaligned);
    }
    state.jump(target);
    StepEnd::Next(instr, None)
}

/// A load. Each kind has code of its own, in which its size and its sign are known.
#[inline(always)]
pub fn load(
    hart: Hart,
    instr: Instr,
    kind: LoadKind,
    rd: Reg,
    rs1: Reg,
    offset: i32,
    state: &mut HartState,
    memory: &Memory,
) -> StepEnd
    ensures { (h : List (Option ℕ)) → outcome result (machine state.new memory.now h) ≡ load_effect
        hart instr kind rd rs1 offset (machine state.old memory.now h) }
{
    match kind {
        LoadKind::Lb => load_as(hart, instr, LoadKind::Lb, rd, rs1, offset, state, memory),
        LoadKind::Lh => load_as(hart, instr, LoadKind::Lh, rd, rs1, offset, state, memory),
        LoadKind::Lw => load_as(hart, instr, LoadKind::Lw, rd, rs1, offset, state, memory),
        LoadKind::Lbu => load_as(hart, instr, LoadKind::Lbu, rd, rs1, offset, state, memory),
        LoadKind::Lhu => load_as(hart, instr, LoadKind::Lhu, rd, rs1, offset, state, memory),
    }
}

#[inline(always)]
fn load_as(
    hart: Hart,
    instr: Instr,
    kind: LoadKind,
    rd: Reg,
    rs1: Reg,
    offset: i32,
    state: &mut HartState,
    memory: &Memory,
) -> StepEnd
    ensures { (h : List (Option ℕ)) → outcome result (machine state.new memory.now h) ≡ load_effect
        hart instr kind rd rs1 offset (machine state.old memory.now h) }
{
    let addr = moved_by(state.reg(rs1), offset);
    let size = size_of_load(kind);
    match memory.load(addr, size) {
        Ok(value) => {
            state.set_reg(rd, extension(kind, value));
            state.advance();
            StepEnd::Next(instr, access_of(hart, addr, Kind::Read, size))
        }
        Err(fault) => StepEnd::Trap(cause_of_load(fault)),
    }
}

/// A store. Each kind has code of its own, in which its size is known.
#[inline(always)]
pub fn store(
    hart: Hart,
    instr: Instr,
    kind: StoreKind,
    rs1: Reg,
    rs2: Reg,
    offset: i32,
    state: &mut HartState,
    memory: &mut Memory,
    held: &mut Reservations,
) -> StepEnd
    requires { hart < length held.old }
    ensures { outcome result (machine state.new memory.new held.new) ≡ store_effect hart instr kind
        rs1 rs2 offset (machine state.old memory.old held.old) }
{
    match kind {
        StoreKind::Sb => store_as(
            hart,
            instr,
            StoreKind::Sb,
            rs1,
            rs2,
            offset,
            state,
            memory,
            held,
        ),
        StoreKind::Sh => store_as(
            hart,
            instr,
            StoreKind::Sh,
            rs1,
            rs2,
            offset,
            state,
            memory,
            held,
        ),
        StoreKind::Sw => store_as(
            hart,
            instr,
            StoreKind::Sw,
            rs1,
            rs2,
            offset,
            state,
            memory,
            held,
        ),
    }
}

#[inline(always)]
fn store_as(
    hart: Hart,
    instr: Instr,
    kind: StoreKind,
    rs1: Reg,
    rs2: Reg,
    offset: i32,
    state: &mut HartState,
    memory: &mut Memory,
    held: &mut Reservations,
) -> StepEnd
    requires { hart < length held.old }
    ensures { outcome result (machine state.new memory.new held.new) ≡ store_effect hart instr kind
        rs1 rs2 offset (machine state.old memory.old held.old) }
{
    let addr = moved_by(state.reg(rs1), offset);
    let size = size_of_store(kind);
    match memory.store(addr, size, state.reg(rs2)) {
        Ok(()) => {
            let word = addr - addr % 4;
            held.release(hart, word);
            state.advance();
            StepEnd::Next(instr, access_of(hart, addr, Kind::Write, size))
        }
        Err(fault) => StepEnd::Trap(cause_of_store(fault)),
    }
}

#[inline(always)]
pub fn jump(instr: Instr, rd: Reg, target: u32, state: &mut HartState) -> StepEnd
    ensures { (m : Space) (h : List (Option ℕ))
        → outcome result (machine state.new m h) ≡ jumps instr rd ((state.old.pc + 4) % 2 ^ 32)
        target (machine state.old m h) }
{
    if target % 4 != 0 {
        return StepEnd::Trap(Cause::FetchMisaligned);
    }
    let link = state.pc().wrapping_add(4);
    state.set_reg(rd, link);
    state.jump(target);
    StepEnd::Next(instr, None)
}

#[inline(always)]
pub fn amo(
    hart: Hart,
    instr: Instr,
    op: AmoOp,
    rd: Reg,
    rs1: Reg,
    rs2: Reg,
    state: &mut HartState,
    memory: &mut Memory,
    held: &mut Reservations,
) -> StepEnd
    requires { hart < length held.old }
    ensures { outcome result (machine state.new memory.new held.new) ≡ amo_effect hart instr op rd
        rs1 rs2 (machine state.old memory.old held.old) }
{
    let addr = state.reg(rs1);
    let old = match memory.load(addr, 4) {
        Ok(old) => old,
        Err(_) => 0,
    };
    match memory.store(addr, 4, amo_of(op, old, state.reg(rs2))) {
        Ok(()) => {
            held.release(hart, addr - addr % 4);
            state.set_reg(rd, old);
            state.advance();
            StepEnd::Next(instr, access_of(hart, addr, Kind::Write, 4))
        }
        Err(fault) => StepEnd::Trap(cause_of_store(fault)),
    }
}

#[inline(always)]
pub fn load_reserved(
    hart: Hart,
    instr: Instr,
    rd: Reg,
    rs1: Reg,
    state: &mut HartState,
    memory: &Memory,
    held: &mut Reservations,
) -> StepEnd
    requires { hart < length held.old }
    ensures { outcome result (machine state.new memory.now held.new) ≡ lr_effect hart instr rd rs1
        (machine state.old memory.now held.old) }
{
    let addr = state.reg(rs1);
    match memory.load(addr, 4) {
        Ok(value) => {
            held.reserve(hart, addr);
            state.set_reg(rd, value);
            state.advance();
            StepEnd::Next(instr, access_of(hart, addr, Kind::Read, 4))
        }
        Err(fault) => StepEnd::Trap(cause_of_load(fault)),
    }
}

#[inline(always)]
pub fn store_conditional(
    hart: Hart,
    instr: Instr,
    rd: Reg,
    rs1: Reg,
    rs2: Reg,
    state: &mut HartState,
    memory: &mut Memory,
    held: &mut Reservations,
) -> StepEnd
    requires { hart < length held.old }
    ensures { outcome result (machine state.new memory.new held.new) ≡ sc_effect hart instr rd rs1
        rs2 (machine state.old memory.old held.old) }
{
    let addr = state.reg(rs1);
    if let Some(fault) = memory.store_fault(addr, 4) {
        return StepEnd::Trap(cause_of_store(fault));
    }
    if !has_word(held.held(hart), addr) {
        held.clear(hart);
        state.set_reg(rd, 1);
        state.advance();
        return StepEnd::Next(instr, None);
    }
    match memory.store(addr, 4, state.reg(rs2)) {
        Ok(()) => {
            held.release(hart, addr);
            held.clear(hart);
            state.set_reg(rd, 0);
            state.advance();
            StepEnd::Next(instr, access_of(hart, addr, Kind::Write, 4))
        }
        Err(fault) => StepEnd::Trap(cause_of_store(fault)),
    }
}

fn has_word(held: Option<u32>, addr: u32) -> bool
    ensures { result ≡ is_of held addr }
{
    match held {
        Some(word) => word == addr,
        None => false,
    }
}
