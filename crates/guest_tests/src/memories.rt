// A memory of two pages, of which one may be written and run and one may only be read.

use base::NoMemory;
use rv32_hart::{MemFault, Memory};
use std::process::Abort;
use std::test::Fail;

fn two_pages(alloc: std::alloc::Global) -> Result<Memory, NoMemory> {
    let mut memory = Memory::new(alloc, 0x10000, 0x3000)?;
    memory.map(0x10ffc, 4, true, true);
    memory.fill(0x11ffe, &[0x80, 0xff, 7]);
    memory.map(0x11fff, 1, false, false);
    Ok(memory)
}

// Two stores, of which the second changes a byte of the first.
fn store_twice(memory: &mut Memory) -> bool {
    memory.store(0x10004, 4, 0x8091_a2b3).is_ok() && memory.store(0x10006, 1, 0x1234_56f7).is_ok()
}

// A word, half of it and a byte.
fn loads(memory: &Memory) -> [Result<u32, MemFault>; 3] {
    [
        memory.load(0x10004, 4),
        memory.load(0x10006, 2),
        memory.load(0x10005, 1),
    ]
}

const SLICES: [(u32, u32, Option<&[u8]>); 5] = [
    (0x10ffe, 3, Some(&[0, 0, 0])),
    (0x11ffd, 3, Some(&[0, 0x80, 0xff])),
    (0xffff_ffff, 0, Some(&[])),
    (0x11fff, 2, None),
    (0xffff, 2, None),
];

fn find_stored(rt: &impl Abort, memory: &Memory) {
    assert!(rt; loads(memory) == [Ok(0x80f7_a2b3), Ok(0x80f7), Ok(0xa2)]);
    for (addr, len, bytes) in &SLICES {
        assert!(rt; memory.slice(*addr, *len) == *bytes, "at {addr:x}");
    }
    assert!(rt; memory.fetch(0x10004) == Ok(0x80f7_a2b3));
}

#[test]
fn a_store_is_loaded_fetched_and_sliced(rt: HostRuntime) -> Result<(), Fail> {
    let mut memory = two_pages(rt.alloc())?;
    assert!(rt; store_twice(&mut memory));
    find_stored(&rt, &memory);
    Ok(())
}

fn refused_loads(memory: &Memory) -> [Result<u32, MemFault>; 3] {
    [
        memory.load(0xffff_ffff, 2),
        memory.load(0x12000, 1),
        memory.load(0xfffc, 4),
    ]
}

const LOAD_FAULTS: [Result<u32, MemFault>; 3] = [
    Err(MemFault::Misaligned),
    Err(MemFault::Outside),
    Err(MemFault::Outside),
];

const STORE_FAULTS: [(u32, MemFault); 3] = [
    (0x11002, MemFault::Misaligned),
    (0x13000, MemFault::Outside),
    (0x11000, MemFault::ReadOnly),
];

const FETCH_FAULTS: [(u32, MemFault); 3] = [
    (0x10002, MemFault::Misaligned),
    (0xf000, MemFault::Outside),
    (0x11000, MemFault::NotExecutable),
];

// Whether a store of four bytes has this fault, reported before it is made too.
fn is_unstored(memory: &mut Memory, addr: u32, fault: MemFault) -> bool {
    memory.store_fault(addr, 4) == Some(fault) && memory.store(addr, 4, 1) == Err(fault)
}

// Each access is refused with its first fault, and one without a fault is not.
fn refuse_all(rt: &impl Abort, memory: &mut Memory) {
    assert!(rt; refused_loads(memory) == LOAD_FAULTS);
    for (addr, fault) in &FETCH_FAULTS {
        assert!(rt; memory.fetch(*addr) == Err(*fault), "at {addr:x}");
    }
    for (addr, fault) in &STORE_FAULTS {
        assert!(rt; is_unstored(memory, *addr, *fault), "at {addr:x}");
    }
    assert!(rt; memory.store_fault(0x10000, 4).is_none());
}

#[test]
fn the_first_fault_is_reported(rt: HostRuntime) -> Result<(), Fail> {
    let mut memory = two_pages(rt.alloc())?;
    refuse_all(&rt, &mut memory);
    Ok(())
}

#[test]
fn pages_have_their_rights(rt: HostRuntime) -> Result<(), Fail> {
    let memory = two_pages(rt.alloc())?;
    assert!(rt; memory.executable(0x10fff) && !memory.executable(0x11000));
    assert!(rt; (memory.base(), memory.size()) == (0x10000, 0x3000));
    Ok(())
}
