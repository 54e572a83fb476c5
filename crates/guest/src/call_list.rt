// The calls of one hart.
ghost use Rattle.std.specs.Prelude.{◌≡◌, [], IfOk};
ghost use Rattle.guest.specs.CallLists.{call_at, calls_after, calls_after_jalr, is_link, last_four};
ghost use Rattle.guest.specs.CallLists.{popped, pushed};

use base::NoMemory;
use circular_buffer::HeapCircularBuffer;
use rv32_decode::{Instr, Reg};
use std::alloc::Global;
use std::marker::Model;

// How many calls are kept.
const MOST_CALLS: usize = 256;

/// The calls of a hart, by the addresses of their instructions. Contracts see the list, the newest
/// first.
#[derive(Drop)]
pub struct CallList {
    calls: HeapCircularBuffer<u32>,
}

impl Model for CallList {
    ghost use Rattle.std.specs.Prelude.{◌≡◌, ℕ, List};

    ghost Value = { List ℕ };

    ghost view = { λ c. c.calls.items };

    ghost invariant = { λ c. c.calls.capacity ≡ 256 };
}

// Whether a register is one that calls link through: x1 or x5.
fn is_link(reg: Reg) -> bool
    ensures { result ≡ is_link reg }
{
    matches!(reg.number(), 1 | 5)
}

impl CallList {
    /// No calls. It takes memory for 256 of them.
    pub fn new(alloc: Global) -> Result<CallList, NoMemory>
        ensures { IfOk result (λ calls. calls ≡ []) }
    {
        match HeapCircularBuffer::with_capacity(alloc, MOST_CALLS) {
            Ok(calls) => Ok(CallList { calls }),
            Err(_) => Err(NoMemory),
        }
    }

    // A call at `pc`. The oldest of 256 is dropped for it.
    fn push(&mut self, pc: u32)
        ensures { self.new ≡ pushed pc self.old }
    {
        let _oldest = self.calls.push_front(pc);
    }

    // A return. Without a call it changes nothing.
    fn pop(&mut self)
        ensures { self.new ≡ popped self.old }
    {
        let _newest = self.calls.pop_front();
    }

    // An indirect jump.
    fn note_jalr(&mut self, rd: Reg, rs1: Reg, pc: u32)
        ensures { self.new ≡ calls_after_jalr rd rs1 pc self.old }
    {
        if is_link(rd) {
            if is_link(rs1) && rd.number() != rs1.number() {
                self.pop();
            }
            self.push(pc);
        } else if is_link(rs1) {
            self.pop();
        }
    }

    /// An instruction that was made at `pc`. It takes no memory.
    #[inline(always)]
    pub fn note(&mut self, instr: Instr, pc: u32)
        ensures { self.new ≡ calls_after instr pc self.old }
    {
        match instr {
            Instr::Jal { rd, .. } => {
                if is_link(rd) {
                    self.push(pc);
                }
            }
            Instr::Jalr { rd, rs1, .. } => self.note_jalr(rd, rs1, pc),
            _ => {}
        }
    }

    // Call `i`, the newest being call 0, or 0 where there is none.
    fn call(&self, i: usize) -> u32
        ensures { result ≡ call_at self.now i }
    {
        match self.calls.get(i) {
            Some(pc) => *pc,
            None => 0,
        }
    }

    /// The last four calls, the newest first, 0 where there is none.
    pub fn last_four(&self) -> [u32; 4]
        ensures { result ≡ last_four self.now }
    {
        [self.call(0), self.call(1), self.call(2), self.call(3)]
    }

    /// Forgets all calls.
    pub fn clear(&mut self)
        ensures { self.new ≡ [] }
    {
        self.calls.clear();
    }
}
