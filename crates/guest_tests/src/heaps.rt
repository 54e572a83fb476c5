// The guest's heap: where blocks are made, and which are freed.

use guest::{GuestHeap, NotLive};
use std::alloc::Global;
use std::process::Abort;
use std::test::Fail;

// What a guest asks of its heap, with the answer: a block of some size, or to take one back.
enum Asked {
    Make(u32, Option<u32>),
    Free(u32, Result<(), NotLive>),
}

use Asked::{Free, Make};

// Whether a heap gives the answer.
fn is_answered(heap: &mut GuestHeap, asked: &Asked) -> Result<bool, Fail> {
    match asked {
        Make(size, place) => Ok(heap.alloc(*size)? == *place),
        Free(addr, answer) => Ok(heap.free(*addr) == *answer),
    }
}

// Number `i` of what is asked of a heap, one after the other.
fn all_are_answered(rt: &impl Abort, heap: &mut GuestHeap, all: &[Asked]) -> Result<(), Fail> {
    for (i, asked) in all.iter().enumerate() {
        assert!(rt; is_answered(heap, asked)?, "number {i}");
    }
    Ok(())
}

const LEAST_PLACES: [Asked; 7] = [
    Make(24, Some(0x20000)),
    Make(1, Some(0x20020)),
    Free(0x20000, Ok(())),
    Make(40, Some(0x20030)),
    Make(16, Some(0x20000)),
    Make(17, None),
    Free(0x20010, Err(NotLive)),
];

#[test]
fn each_block_takes_the_least_place(rt: HostRuntime) -> Result<(), Fail> {
    let mut heap = GuestHeap::new(rt.alloc(), 0x20000, 0x20060);
    all_are_answered(&rt, &mut heap, &LEAST_PLACES)
}

const ODD: [Asked; 6] = [
    // more than the heap has; no bytes take 16
    Make(u32::MAX, None),
    Make(0, Some(0x20000)),
    Make(0, Some(0x20010)),
    // inside a block; a block; freed before
    Free(0x20004, Err(NotLive)),
    Free(0x20000, Ok(())),
    Free(0x20000, Err(NotLive)),
];

#[test]
fn odd_sizes_and_frees_are_answered(rt: HostRuntime) -> Result<(), Fail> {
    let mut heap = GuestHeap::new(rt.alloc(), 0x20000, 0x20060);
    all_are_answered(&rt, &mut heap, &ODD)
}

#[test]
fn no_block_is_made_without_room(rt: HostRuntime) -> Result<(), Fail> {
    let mut heap = GuestHeap::new(rt.alloc(), 0x20000, 0x20000);
    all_are_answered(&rt, &mut heap, &[Make(0, None)])
}
