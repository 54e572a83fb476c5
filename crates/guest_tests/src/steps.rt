// Steps whose results come from outside, and the rules of reservations and traps.
ghost use Rattle.std.specs.Prelude.{◌≡◌, ◌≤◌, length};

use base::{Cause, Hart, Kind, NoMemory};
use rv32_decode::Reg;
use rv32_hart::{HartState, Memory, Reservations, StepEnd, step};
use std::alloc::Global;
use std::process::Abort;
use std::test::Fail;

const BASE: u32 = 0x10000;

fn hart(rt: &impl Abort, number: u16) -> Hart
    requires { number ≤ 255 }
    ensures { result ≡ number }
{
    Hart::new(number).expect(rt, "a hart")
}

fn reg(rt: &impl Abort, number: u8) -> Reg {
    Reg::new(number).expect(rt, "a register")
}

fn put(rt: &impl Abort, memory: &mut Memory, words: &[u32]) {
    let mut addr = BASE;
    for word in words {
        assert!(rt; memory.store(addr, 4, *word).is_ok());
        addr = addr.wrapping_add(4);
    }
}

// Two pages from BASE on that hold these words: the first may be written and run, the second only
// read.
fn memory_of(rt: &impl Abort, alloc: Global, words: &[u32]) -> Result<Memory, NoMemory> {
    let mut memory = Memory::new(alloc, BASE, 0x3000)?;
    memory.map(BASE, 0x1000, true, true);
    memory.map(BASE + 0x1000, 0x1000, false, false);
    put(rt, &mut memory, words);
    Ok(memory)
}

// One step of hart 0, where nothing is reserved.
fn step_alone(
    rt: &impl Abort,
    alloc: Global,
    state: &mut HartState,
    memory: &mut Memory,
) -> Result<StepEnd, NoMemory> {
    let mut held = Reservations::new(alloc, 1)?;
    Ok(step(hart(rt, 0), state, memory, &mut held))
}

// One step from BASE with these numbers in x1 and x2: how it ends, and what x3 is then, 77 before.
fn one(
    rt: &impl Abort,
    alloc: Global,
    memory: &mut Memory,
    x1: u32,
    x2: u32,
) -> Result<(StepEnd, u32), NoMemory> {
    let mut state = HartState::new(BASE, 0, 77, 0);
    state.set_reg(reg(rt, 1), x1);
    state.set_reg(reg(rt, 2), x2);
    let end = step_alone(rt, alloc, &mut state, memory)?;
    Ok((end, state.reg(reg(rt, 3))))
}

// The same of an instruction.
fn one_of(
    rt: &impl Abort,
    alloc: Global,
    word: u32,
    x1: u32,
    x2: u32,
) -> Result<(StepEnd, u32), NoMemory> {
    let mut memory = memory_of(rt, alloc, &[word])?;
    one(rt, alloc, &mut memory, x1, x2)
}

// What x3 is behind an instruction.
fn x3_after(rt: &impl Abort, alloc: Global, word: u32, x1: u32, x2: u32) -> Result<u32, NoMemory> {
    let mut memory = memory_of(rt, alloc, &[word])?;
    let end = one(rt, alloc, &mut memory, x1, x2)?;
    Ok(end.1)
}

// DIV, DIVU, REM and REMU of x1 by x2 into x3.
const DIVISIONS: [(u32, u32, u32, u32); 8] = [
    (0x0220_c1b3, 7, 0, 0xffff_ffff),
    (0x0220_d1b3, 7, 0, 0xffff_ffff),
    (0x0220_e1b3, 7, 0, 7),
    (0x0220_f1b3, 7, 0, 7),
    (0x0220_c1b3, 0x8000_0000, 0xffff_ffff, 0x8000_0000),
    (0x0220_e1b3, 0x8000_0000, 0xffff_ffff, 0),
    (0x0220_c1b3, 0xffff_fff9, 2, 0xffff_fffd),
    (0x0220_e1b3, 0xffff_fff9, 2, 0xffff_ffff),
];

#[test]
fn division_has_its_edges(rt: HostRuntime) -> Result<(), Fail> {
    for (word, x1, x2, x3) in &DIVISIONS {
        let found = x3_after(&rt, rt.alloc(), *word, *x1, *x2)?;
        assert!(rt; found == *x3, "{word:08x}");
    }
    Ok(())
}

const READ_ONLY: u32 = BASE + 0x1000;

const TRAPS: [(u32, u32, Cause); 12] = [
    (0x0000_0000, 0, Cause::Illegal), // no instruction
    (0x0010_0073, 0, Cause::Breakpoint), // ebreak
    (0x0020_81e7, BASE, Cause::FetchMisaligned), // jalr x3, 2(x1)
    (0x0000_0363, 0, Cause::FetchMisaligned), // beq x0, x0, 6
    (0x0000_a183, BASE + 2, Cause::LoadMisaligned), // lw x3, 0(x1)
    (0x0000_9183, BASE + 0x2000, Cause::LoadOutside), // lh x3, 0(x1)
    (0x1000_a1af, BASE + 2, Cause::LoadMisaligned), // lr.w x3, (x1)
    (0x0020_a023, BASE + 1, Cause::StoreMisaligned), // sw x2, 0(x1)
    (0x0020_8023, READ_ONLY, Cause::StoreOutside), // sb x2, 0(x1)
    (0x1820_a1af, BASE + 2, Cause::StoreMisaligned), // sc.w x3, x2, (x1)
    (0x1820_a1af, READ_ONLY, Cause::StoreOutside),
    (0x0020_a1af, 0xfffc, Cause::StoreOutside), // amoadd.w x3, x2, (x1)
];

#[test]
fn each_trap_has_its_cause(rt: HostRuntime) -> Result<(), Fail> {
    for (word, x1, cause) in &TRAPS {
        let end = one_of(&rt, rt.alloc(), *word, *x1, 5)?;
        assert!(rt; end == (StepEnd::Trap(*cause), 77), "{word:08x}");
    }
    Ok(())
}

#[test]
fn nothing_is_fetched_where_nothing_is_mapped(rt: HostRuntime) -> Result<(), Fail> {
    let mut memory = Memory::new(rt.alloc(), BASE, 0x1000)?;
    let end = one(&rt, rt.alloc(), &mut memory, 0, 0)?;
    assert!(rt; end == (StepEnd::Trap(Cause::FetchOutside), 77));
    Ok(())
}

#[test]
fn a_call_is_no_trap(rt: HostRuntime) -> Result<(), Fail> {
    let end = one_of(&rt, rt.alloc(), 0x0000_0073, 0, 0)?;
    assert!(rt; end == (StepEnd::Call, 77));
    Ok(())
}

// addi x3, x0, 1 at BASE, behind it a store by x1 of what x2 holds and a jump back, and the first
// instruction once more: what x3 is then.
fn x3_made_again(rt: &impl Abort, alloc: Global, store: u32, x2: u32) -> Result<u32, NoMemory> {
    let mut memory = memory_of(rt, alloc, &[0x0010_0193, store, 0xff9f_f06f])?;
    let mut state = HartState::new(BASE, 0, 0, 0);
    state.set_reg(reg(rt, 1), BASE);
    state.set_reg(reg(rt, 2), x2);
    for _ in 0..4 {
        let end = step_alone(rt, alloc, &mut state, &mut memory)?;
        assert!(rt; matches!(end, StepEnd::Next(_, _)));
    }
    Ok(state.reg(reg(rt, 3)))
}

const STORES_OVER: [(u32, u32, u32); 5] = [
    (0x0020_a023, 0x0070_0193, 7), // sw x2, 0(x1), of addi x3, x0, 7
    (0x0020_9123, 0x0050, 5), // sh x2, 2(x1), of its upper half
    (0x0020_8123, 0x0020, 2), // sb x2, 2(x1), of its third byte
    (0x0820_a02f, 0x0060_0193, 6), // amoswap.w x0, x2, (x1)
    (0x0020_a623, 0x0070_0193, 1), // sw x2, 12(x1), of another word
];

#[test]
fn an_instruction_that_is_stored_over_is_the_new_one(rt: HostRuntime) -> Result<(), Fail> {
    for (store, x2, x3) in &STORES_OVER {
        let found = x3_made_again(&rt, rt.alloc(), *store, *x2)?;
        assert!(rt; found == *x3, "{store:08x}");
    }
    Ok(())
}

// Hart 0 does LR at x1, hart 1 the store behind it, and hart 0 the SC behind that: its x3, whether
// it wrote four bytes, and whether a reservation is left.
fn reserve_and_store(
    rt: &impl Abort,
    memory: &mut Memory,
    held: &mut Reservations,
) -> (u32, bool, bool)
    requires { length held.old ≡ 2 }
{
    let mut first = HartState::new(BASE, 0, 0, 0);
    let mut second = HartState::new(BASE + 4, 0, 0, 0);
    first.set_reg(reg(rt, 1), BASE + 0x400);
    second.set_reg(reg(rt, 1), BASE + 0x400);
    step(hart(rt, 0), &mut first, memory, held);
    assert!(rt; held.held(hart(rt, 0)) == Some(BASE + 0x400));
    step(hart(rt, 1), &mut second, memory, held);
    first.advance();
    let end = step(hart(rt, 0), &mut first, memory, held);
    let writes = match end {
        StepEnd::Next(_, Some(access)) => access.kind() == Kind::Write && access.size() == 4,
        _ => false,
    };
    let is_held = held.held(hart(rt, 0)).is_some();
    (first.reg(reg(rt, 3)), writes, is_held)
}

// The same in a memory with this store, where hart 1 has let go what it reserved before.
fn reserved(
    rt: &impl Abort,
    alloc: Global,
    byte_store: u32,
) -> Result<(u32, bool, bool), NoMemory> {
    let mut memory = memory_of(rt, alloc, &[0x1000_a1af, byte_store, 0x1820_a1af])?;
    let mut held = Reservations::new(alloc, 2)?;
    held.clear(hart(rt, 1));
    assert!(rt; held.harts() == 2);
    Ok(reserve_and_store(rt, &mut memory, &mut held))
}

#[test]
fn a_byte_in_the_word_ends_its_reservation(rt: HostRuntime) -> Result<(), Fail> {
    // sb x2, 3(x1) and sb x2, 4(x1)
    assert!(rt; reserved(&rt, rt.alloc(), 0x0020_81a3)? == (1, false, false));
    assert!(rt; reserved(&rt, rt.alloc(), 0x0020_8223)? == (0, true, false));
    Ok(())
}
