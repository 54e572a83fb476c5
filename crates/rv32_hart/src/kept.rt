// Instructions that were decoded, each kept at the place of its address.
ghost use Rattle.std.specs.Prelude.{◌≡◌, ◌<◌, ◌%◌, IfOk, if◌then◌else◌, length, slice_index_or};
ghost use Rattle.std.specs.Bool.{OnTrue, OnFalse};
ghost use Rattle.rv32_hart.specs.KeptInstructions.{AreEmpty, HasNoInstr, IsKeeping, no_instr};
ghost use Rattle.rv32_hart.specs.KeptInstructions.{slot_of};
ghost use Rattle.rv32_hart.specs.KeptInstructions.{without_word};
ghost use Rattle.rv32_hart.specs.Space.{space};

use crate::memory::word_in;
use crate::page::Page;
use base::NoMemory;
use rv32_decode::{Instr, decode};
use std::alloc::Global;

/// How many places there are.
pub const PLACES: usize = 4096;

/// An instruction, its word and its address; 1 for an address stands for an empty place. With the
/// word it has 16 bytes, so that a place is found by a shift.
#[derive(Clone, Copy)]
pub struct KeptInstr {
    pub pc: u32,
    pub word: u32,
    pub instr: Instr,
}

impl KeptInstr {
    /// An empty place.
    pub const NONE: KeptInstr = KeptInstr {
        pc: 1,
        word: 0,
        instr: Instr::Ecall,
    };
}

/// The place for the instruction at an address.
#[inline(always)]
pub fn slot_of(addr: u32) -> usize
    ensures place { result ≡ slot_of addr }
    ensures below { result < 4096 }
{
    (addr / 4 % 4096) as usize
}

/// So many places, all empty.
pub fn empty_places(alloc: Global, count: usize) -> Result<Vec<KeptInstr>, NoMemory>
    ensures { IfOk result (λ kept. AreEmpty kept.items count) }
{
    let kept = vec![in alloc; KeptInstr::NONE; count]?;
    Ok(kept)
}

/// Empties all places.
pub fn forget_all(kept: &mut [KeptInstr])
    ensures { AreEmpty kept.new (length kept.old) }
{
    for place in kept.iter_mut() {
        *place = KeptInstr::NONE;
    }
}

/// Forgets the instruction of the address's word, if the word's page may be executed.
#[inline(always)]
pub fn forget_word(kept: &mut [KeptInstr], addr: u32, executable: bool)
    requires { length kept.old ≡ 4096 }
    ensures { kept.new ≡ (if executable then without_word kept.old addr else kept.old) }
{
    if executable {
        let place = slot_of(addr);
        if kept[place].pc == addr / 4 * 4 {
            kept[place] = KeptInstr::NONE;
        }
    }
}

/// Whether there is an instruction at `pc`. It is kept then, at its place.
#[inline(always)]
pub fn keeps(base: u32, bytes: &[u8], pages: &[Page], kept: &mut [KeptInstr], pc: u32) -> bool
    requires keeping { IsKeeping (space base bytes.now pages.now) kept.old }
    requires aligned { pc % 4 ≡ 0 }
    ensures keeping { IsKeeping (space base bytes.now pages.now) kept.new }
    ensures kept { OnTrue result ((slice_index_or kept.new (slot_of pc) no_instr).pc ≡ pc) }
    ensures none { OnFalse result (HasNoInstr (space base bytes.now pages.now) pc) }
{
    if kept[slot_of(pc)].pc == pc {
        return true;
    }
    keep(base, bytes, pages, kept, pc)
}

// The same where it is not kept yet. It answers by a bool, since each step would clear the room of
// a larger answer.
#[cold]
#[inline(never)]
fn keep(base: u32, bytes: &[u8], pages: &[Page], kept: &mut [KeptInstr], pc: u32) -> bool
    requires keeping { IsKeeping (space base bytes.now pages.now) kept.old }
    requires aligned { pc % 4 ≡ 0 }
    ensures keeping { IsKeeping (space base bytes.now pages.now) kept.new }
    ensures kept { OnTrue result ((slice_index_or kept.new (slot_of pc) no_instr).pc ≡ pc) }
    ensures none { OnFalse result (HasNoInstr (space base bytes.now pages.now) pc) }
{
    let word = match word_in(base, bytes, pages, pc) {
        Ok(word) => word,
        Err(_) => return false,
    };
    match decode(word) {
        Some(instr) => {
            kept[slot_of(pc)] = KeptInstr { pc, word, instr };
            true
        }
        None => false,
    }
}
