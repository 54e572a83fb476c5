// The calls of a guest, each a counted step.
ghost use Rattle.std.specs.Prelude.{◌≡◌, ◌≢◌, ℕ, ◌+◌, ◌<◌, ◌≤◌, ◌%◌, ◌^◌, length, IfOk, IsOk};
ghost use Rattle.std.specs.Prelude.{IsFalse, OnErr, IfSome, None};
ghost use Rattle.std.specs.Bool.{OnTrue};
ghost use Rattle.rv32_hart.specs.Space.{AllMapped};
ghost use Rattle.guest.specs.ThreadCalls.{lowest_free};
ghost use Rattle.guest.specs.Configs.{CanStep, answered, calls_of, counted, value_in};
ghost use Rattle.guest.specs.Turns.{IsNext, chosen, wants_memory};
ghost use Rattle.guest.specs.GuestCalls.{alloc, alloc_turn, are_mapped, block_answered};
ghost use Rattle.guest.specs.GuestCalls.{block_turn, call_turn, note_fault, ran, unblock_turn};
ghost use Rattle.guest.specs.GuestCalls.{exit_group_turn, exit_turn, free_turn, join_turn, minus};
ghost use Rattle.guest.specs.GuestCalls.{quietly, refused, spawn_turn, started_with, steps_turn};
ghost use Rattle.guest.specs.GuestCalls.{wait_turn, wake_turn, write_turn, written};
ghost use Rattle.guest.specs.CallLists.{last_four};
ghost use Rattle.guest.specs.Notes.{most_noted};
ghost use Rattle.guest.specs.ConfigInside.{config_of};
ghost use Rattle.guest.specs.SeenTurns.{IsSeen, turn_seen};

use crate::configuration::Configuration;
use crate::setup::Setup;
use crate::turn::{Event, Turn};
use crate::{JoinEnd, NotLive};
use base::{Hart, NoMemory, Outcome};
use rv32_hart::{HartState, MemFault, Memory};

// The registers of a call: what it is given, and its number.
const A0: u8 = 10;

const A1: u8 = 11;

const A2: u8 = 12;

const A7: u8 = 17;

// The global pointer.
const GP: u8 = 3;

// The numbers of the calls that make a block of the heap, and that note another one.
const MAKE_BLOCK: u32 = 1024;

const NOTE_BLOCK: u32 = 1031;

// The faults that calls answer with.
const AGAIN: u32 = 11;

const NO_ROOM: u32 = 12;

const FAULT: u32 = 14;

const INVALID: u32 = 22;

const NO_CALL: u32 = 38;

// How many bytes a write puts out at most.
const MOST: u32 = 4096;

// A number below zero, as a word.
fn minus(n: u32) -> u32
    requires { 1 ≤ n }
    ensures { result ≡ minus n }
{
    u32::MAX - (n - 1)
}

// Whether each of the `len` bytes from `addr` on is mapped.
#[tactic(auto, using(crate::proofs::Mapped::all_mapped, crate::proofs::Mapped::some_unmapped))]
fn are_mapped(memory: &Memory, addr: u32, len: u32) -> bool
    ensures value { result ≡ are_mapped memory.now addr len }
    ensures all { OnTrue result (AllMapped memory.now addr len) }
{
    match memory.slice(addr, len) {
        Some(_) => true,
        None => false,
    }
}

impl Configuration {
    // A step of which nothing is seen.
    fn quietly(&mut self) -> Turn
        requires { self.old.steps + 1 < 2 ^ 64 }
        ensures turn { turn_seen result (config_of self.new) ≡ quietly (config_of self.old) }
        ensures quiet { result ≡ Turn.Ran Event.Quiet }
    {
        self.steps += 1;
        Turn::Ran(Event::Quiet)
    }

    // Answers a call, of which nothing is seen.
    fn answer_quietly(&mut self, hart: Hart, value: u32) -> Turn
        requires there { hart < length self.old.states.items }
        requires few { self.old.steps + 1 < 2 ^ 64 }
        ensures turn { turn_seen result (config_of self.new) ≡ quietly
            (answered hart value (config_of self.old)) }
        ensures quiet { result ≡ Turn.Ran Event.Quiet }
    {
        self.answer(hart, value);
        self.quietly()
    }

    // Refuses a call with a fault.
    fn refuse(&mut self, hart: Hart, fault: u32) -> Turn
        requires there { hart < length self.old.states.items }
        requires few { self.old.steps + 1 < 2 ^ 64 }
        requires fault { 1 ≤ fault }
        ensures turn { turn_seen result (config_of self.new) ≡ refused hart fault
            (config_of self.old) }
        ensures quiet { result ≡ Turn.Ran Event.Quiet }
    {
        self.answer_quietly(hart, minus(fault))
    }

    // 64: puts out the bytes of a range, to the file 1 or 2.
    fn write(&mut self, hart: Hart) -> Turn
        requires { CanStep hart (config_of self.old) }
        ensures turn { turn_seen result (config_of self.new) ≡ write_turn hart
            (config_of self.old) }
        ensures seen { (harts : ℕ) → IsSeen harts result (config_of self.new) }
    {
        let file = self.value_in(hart, A0);
        if file != 1 && file != 2 {
            return self.refuse(hart, INVALID);
        }
        let addr = self.value_in(hart, A1);
        let len = self.value_in(hart, A2).min(MOST);
        self.put_out(hart, addr, len)
    }

    // Puts out the bytes of a range.
    fn put_out(&mut self, hart: Hart, addr: u32, len: u32) -> Turn
        requires ready { CanStep hart (config_of self.old) }
        requires most { len ≤ 4096 }
        ensures turn { turn_seen result (config_of self.new) ≡ written hart addr len
            (config_of self.old) }
        ensures seen { (harts : ℕ) → IsSeen harts result (config_of self.new) }
    {
        if !are_mapped(&self.memory, addr, len) {
            return self.refuse(hart, FAULT);
        }
        self.answer(hart, len);
        self.steps += 1;
        if len == 0 {
            Turn::Ran(Event::Quiet)
        } else {
            Turn::Ran(Event::Output { addr, len })
        }
    }

    // 93: the hart ends, and one that joins it gets its code.
    fn exit(&mut self, hart: Hart) -> Turn
        requires { CanStep hart (config_of self.old) }
        ensures turn { turn_seen result (config_of self.new) ≡ exit_turn hart (config_of self.old) }
        ensures quiet { result ≡ Turn.Ran Event.Quiet }
    {
        let code = self.value_in(hart, A0);
        let joiner = self.threads.exit(hart, code);
        self.pass(hart);
        if let Some(joiner) = joiner {
            self.give(joiner, code);
        }
        self.quietly()
    }

    // 94: the run ends.
    fn exit_group(&mut self, hart: Hart) -> Turn
        requires { CanStep hart (config_of self.old) }
        ensures turn { turn_seen result (config_of self.new) ≡ exit_group_turn hart
            (config_of self.old) }
        ensures seen { (harts : ℕ) → IsSeen harts result (config_of self.new) }
    {
        let code = self.value_in(hart, A0);
        self.pass(hart);
        self.steps += 1;
        Turn::Ended(Outcome::Exit(code))
    }

    // 1026: the lowest free hart starts, at an address that can be fetched from.
    fn spawn(&mut self, setup: &Setup, hart: Hart) -> Turn
        requires { CanStep hart (config_of self.old) }
        ensures turn { turn_seen result (config_of self.new) ≡ spawn_turn setup.now hart
            (config_of self.old) }
        ensures quiet { result ≡ Turn.Ran Event.Quiet }
    {
        let pc = self.value_in(hart, A0);
        if pc % 4 != 0 || !self.memory.executable(pc) {
            return self.refuse(hart, INVALID);
        }
        self.start(setup, hart, pc)
    }

    // Starts the lowest free hart.
    fn start(&mut self, setup: &Setup, hart: Hart, pc: u32) -> Turn
        requires ready { CanStep hart (config_of self.old) }
        requires aligned { pc % 4 ≡ 0 }
        ensures turn { turn_seen result (config_of self.new) ≡ started_with setup.now hart pc
            (config_of self.old) (lowest_free self.old.threads) }
        ensures quiet { result ≡ Turn.Ran Event.Quiet }
    {
        let gp = self.value_in(hart, GP);
        let arg = self.value_in(hart, A1);
        match self.threads.spawn() {
            Some(new) => {
                self.states[usize::from(new.number())] = HartState::new(
                    pc,
                    setup.stack_end(new),
                    gp,
                    arg,
                );
                self.held.clear(new);
                self.calls[usize::from(new.number())].clear();
                self.lacks_hart = false;
                self.answer_quietly(hart, u32::from(new.number()))
            }
            None => {
                self.lacks_hart = true;
                self.refuse(hart, AGAIN)
            }
        }
    }

    // 1027: the code of a hart that has ended, or the caller waits for its end.
    fn join(&mut self, hart: Hart) -> Turn
        requires { CanStep hart (config_of self.old) }
        ensures turn { turn_seen result (config_of self.new) ≡ join_turn hart (config_of self.old) }
        ensures quiet { result ≡ Turn.Ran Event.Quiet }
    {
        let target = self.value_in(hart, A0);
        match self.threads.join(hart, target) {
            JoinEnd::Bad => self.refuse(hart, INVALID),
            JoinEnd::Done(code) => self.answer_quietly(hart, code),
            JoinEnd::Waits => {
                self.pass(hart);
                self.quietly()
            }
        }
    }

    // 1028: the caller waits at a word that still has a value.
    fn wait(&mut self, hart: Hart) -> Turn
        requires { CanStep hart (config_of self.old) }
        ensures turn { turn_seen result (config_of self.new) ≡ wait_turn hart (config_of self.old) }
        ensures quiet { result ≡ Turn.Ran Event.Quiet }
    {
        let addr = self.value_in(hart, A0);
        let value = self.value_in(hart, A1);
        match self.memory.load(addr, 4) {
            Ok(word) => {
                if word == value {
                    self.threads.wait(hart, addr);
                    self.answer_quietly(hart, 0)
                } else {
                    self.refuse(hart, AGAIN)
                }
            }
            Err(MemFault::Misaligned) => self.refuse(hart, INVALID),
            Err(_) => self.refuse(hart, FAULT),
        }
    }

    // 1029: wakes those who wait at an address.
    fn wake(&mut self, hart: Hart) -> Turn
        requires { CanStep hart (config_of self.old) }
        ensures turn { turn_seen result (config_of self.new) ≡ wake_turn hart (config_of self.old) }
        ensures quiet { result ≡ Turn.Ran Event.Quiet }
    {
        let addr = self.value_in(hart, A0);
        if addr % 4 != 0 {
            return self.refuse(hart, INVALID);
        }
        let most = self.value_in(hart, A1);
        let count = self.threads.wake(addr, most);
        self.answer_quietly(hart, count)
    }

    // 1024: makes a block at the least place that the heap has for it, and then the hart has its
    // turn.
    fn make_block(&mut self, hart: Hart) -> Result<Turn, NoMemory>
        requires ready { CanStep hart (config_of self.old) }
        requires plan { self.old.schedule.harts ≡ length self.old.threads }
        requires next { IsNext hart (config_of self.old) }
        ensures turn { IfOk result (λ turn. turn_seen turn (config_of self.new) ≡ alloc_turn hart
            (chosen (config_of self.old))) }
        ensures seen { IfOk result (λ turn. (harts : ℕ) → IsSeen harts turn (config_of self.new)) }
        ensures refused { OnErr result (config_of self.new ≡ config_of self.old) }
        ensures settled { IsFalse (wants_memory (config_of self.old)
            (alloc_turn hart (chosen (config_of self.old)))) → IsOk result }
    {
        let size = self.value_in(hart, A0);
        match self.heap.alloc(size) {
            Ok(place) => {
                self.take_turn(hart);
                Ok(self.answer_block(hart, size, place))
            }
            Err(refused) => Err(refused),
        }
    }

    // The answer to a hart that asked for a block, once it is made.
    fn answer_block(&mut self, hart: Hart, size: u32, place: Option<u32>) -> Turn
        requires there { hart < length self.old.states.items }
        requires calls { hart < length self.old.calls.items }
        requires few { self.old.steps + 1 < 2 ^ 64 }
        ensures turn { turn_seen result (config_of self.new) ≡ block_answered hart size place
            (config_of self.old) }
        ensures seen { (harts : ℕ) → IsSeen harts result (config_of self.new) }
    {
        match place {
            None => self.answer_quietly(hart, 0),
            Some(addr) => {
                let sites = self.calls[usize::from(hart.number())].last_four();
                self.answer(hart, addr);
                self.steps += 1;
                Turn::Ran(Event::Alloc { addr, size, sites })
            }
        }
    }

    // 1025: frees the live block that begins at an address.
    fn free(&mut self, hart: Hart) -> Turn
        requires { CanStep hart (config_of self.old) }
        ensures turn { turn_seen result (config_of self.new) ≡ free_turn hart (config_of self.old) }
        ensures seen { (harts : ℕ) → IsSeen harts result (config_of self.new) }
    {
        let addr = self.value_in(hart, A0);
        match self.heap.free(addr) {
            Ok(()) => {
                self.answer(hart, 0);
                self.steps += 1;
                Turn::Ran(Event::Free { addr })
            }
            Err(NotLive) => self.refuse(hart, INVALID),
        }
    }

    // 1031: notes a block that isn't the heap's, and then the hart has its turn.
    fn note_block(&mut self, hart: Hart) -> Result<Turn, NoMemory>
        requires ready { CanStep hart (config_of self.old) }
        requires plan { self.old.schedule.harts ≡ length self.old.threads }
        requires next { IsNext hart (config_of self.old) }
        ensures turn { IfOk result (λ turn. turn_seen turn (config_of self.new) ≡ block_turn hart
            (chosen (config_of self.old))) }
        ensures seen { IfOk result (λ turn. (harts : ℕ) → IsSeen harts turn (config_of self.new)) }
        ensures refused { OnErr result (config_of self.new ≡ config_of self.old) }
        ensures settled { IsFalse (wants_memory (config_of self.old)
            (block_turn hart (chosen (config_of self.old)))) → IsOk result }
    {
        let addr = self.value_in(hart, A0);
        let size = self.value_in(hart, A1);
        if let Some(fault) = self.note_fault(addr, size) {
            self.take_turn(hart);
            return Ok(self.refuse(hart, fault));
        }
        match self.notes.note(addr) {
            Ok(()) => {
                self.take_turn(hart);
                Ok(self.answer_noted(hart, addr, size))
            }
            Err(refused) => Err(refused),
        }
    }

    // Why a block can't be noted.
    fn note_fault(&self, addr: u32, size: u32) -> Option<u32>
        ensures value { result ≡ note_fault (config_of self.now) addr size }
        ensures fault { IfSome result (λ fault. 1 ≤ fault) }
        ensures room { result ≡ None → self.now.notes.made < most_noted }
    {
        if size == 0 || !are_mapped(&self.memory, addr, size) {
            Some(INVALID)
        } else if self.notes.is_spent() {
            Some(NO_ROOM)
        } else {
            None
        }
    }

    // The answer to a hart that had a block noted.
    fn answer_noted(&mut self, hart: Hart, addr: u32, size: u32) -> Turn
        requires there { hart < length self.old.states.items }
        requires calls { hart < length self.old.calls.items }
        requires few { self.old.steps + 1 < 2 ^ 64 }
        ensures turn { turn_seen result (config_of self.new) ≡ ran
            (alloc addr size (last_four (calls_of (config_of self.old) hart)))
            (counted (answered hart 0 (config_of self.old))) }
        ensures seen { (harts : ℕ) → IsSeen harts result (config_of self.new) }
    {
        let sites = self.calls[usize::from(hart.number())].last_four();
        self.answer(hart, 0);
        self.steps += 1;
        Turn::Ran(Event::Alloc { addr, size, sites })
    }

    // 1032: lets the noted block at an address die.
    fn end_block(&mut self, hart: Hart) -> Turn
        requires { CanStep hart (config_of self.old) }
        ensures turn { turn_seen result (config_of self.new) ≡ unblock_turn hart
            (config_of self.old) }
        ensures seen { (harts : ℕ) → IsSeen harts result (config_of self.new) }
    {
        let addr = self.value_in(hart, A0);
        if self.notes.end(addr) {
            self.answer(hart, 0);
            self.steps += 1;
            Turn::Ran(Event::Free { addr })
        } else {
            self.refuse(hart, INVALID)
        }
    }

    // 1033: how many steps were made before this one.
    fn count_steps(&mut self, hart: Hart) -> Turn
        requires { CanStep hart (config_of self.old) }
        ensures turn { turn_seen result (config_of self.new) ≡ steps_turn hart
            (config_of self.old) }
        ensures quiet { result ≡ Turn.Ran Event.Quiet }
    {
        let steps = self.steps;
        self.give_second(hart, (steps >> 32) as u32);
        self.answer_quietly(hart, (steps % (1 << 32)) as u32)
    }

    // A call that takes no memory.
    fn other_call(&mut self, setup: &Setup, hart: Hart) -> Turn
        requires ready { CanStep hart (config_of self.old) }
        requires heap { value_in (config_of self.old) hart 17 ≢ 1024 }
        requires noted { value_in (config_of self.old) hart 17 ≢ 1031 }
        ensures turn { turn_seen result (config_of self.new) ≡ call_turn setup.now hart
            (config_of self.old) }
        ensures seen { (harts : ℕ) → IsSeen harts result (config_of self.new) }
    {
        match self.value_in(hart, A7) {
            64 => self.write(hart),
            93 => self.exit(hart),
            94 => self.exit_group(hart),
            1025 => self.free(hart),
            1026 => self.spawn(setup, hart),
            1027 => self.join(hart),
            1028 => self.wait(hart),
            1029 => self.wake(hart),
            1030 => self.answer_quietly(hart, u32::from(hart.number())),
            1032 => self.end_block(hart),
            1033 => self.count_steps(hart),
            _ => self.refuse(hart, NO_CALL),
        }
    }

    /// The call of a hart that is at an ECALL, with its turn. Only a call that makes a new block
    /// takes memory, and it does so before the hart has its turn.
    ///
    /// NoMemory leaves all as it was.
    pub fn call(&mut self, setup: &Setup, hart: Hart) -> Result<Turn, NoMemory>
        requires ready { CanStep hart (config_of self.old) }
        requires plan { self.old.schedule.harts ≡ length self.old.threads }
        requires next { IsNext hart (config_of self.old) }
        ensures turn { IfOk result
            (λ turn. turn_seen turn (config_of self.new) ≡ call_turn setup.now hart
            (chosen (config_of self.old))) }
        ensures seen { IfOk result (λ turn. (harts : ℕ) → IsSeen harts turn (config_of self.new)) }
        ensures refused { OnErr result (config_of self.new ≡ config_of self.old) }
        ensures settled { IsFalse (wants_memory (config_of self.old)
            (call_turn setup.now hart (chosen (config_of self.old)))) → IsOk result }
    {
        match self.value_in(hart, A7) {
            MAKE_BLOCK => self.make_block(hart),
            NOTE_BLOCK => self.note_block(hart),
            _ => {
                self.take_turn(hart);
                Ok(self.other_call(setup, hart))
            }
        }
    }
}
