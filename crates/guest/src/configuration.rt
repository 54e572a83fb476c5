// What the steps of a guest change.
ghost use Rattle.std.specs.Prelude.{◌≡◌, ◌%◌, ◌<◌, ◌≤◌, [], length, replicate, slice_set, None};
ghost use Rattle.std.specs.Prelude.{IfOk, IfSome};
ghost use Rattle.hart_scheduler.specs.Choices.{choice};
ghost use Rattle.rv32_hart.specs.Registers.{started};
ghost use Rattle.guest.specs.Phases.{first_phases, phase_of};
ghost use Rattle.guest.specs.declared.phase.HartPhase.TheVariants.{Runnable};
ghost use Rattle.guest.specs.Configs.{answered, first_config, given, noted, passed, state_of};
ghost use Rattle.guest.specs.Configs.{stack_end, unused, value_in, with_value};
ghost use Rattle.guest.specs.Turns.{IsNext, chosen, runnable_in};
ghost use Rattle.guest.specs.ConfigInside.{config_of};

use crate::notes::NotedBlocks;
use crate::setup::Setup;
use crate::{CallList, GuestHeap, Threads};
use base::{Hart, NoMemory};
use hart_scheduler::{Schedule, lone_is_chosen};
use rv32_decode::{Instr, Reg};
use rv32_hart::{HartState, Memory, Reservations};
use std::alloc::Global;

/// The memory, the registers, reservation, phase and calls of each hart, the heap, the blocks that
/// are noted beside it, what the schedule has still to say, the counts, and whether no hart was
/// free for the latest that was to start.
#[derive(Drop)]
pub struct Configuration {
    pub memory: Memory,
    pub states: Vec<HartState>,
    pub held: Reservations,
    pub threads: Threads,
    pub calls: Vec<CallList>,
    pub heap: GuestHeap,
    pub notes: NotedBlocks,
    pub schedule: Schedule,
    pub steps: u64,
    pub accesses: u64,
    pub lacks_hart: bool,
}

fn register(number: u8) -> Reg
    requires { number < 32 }
    ensures { result ≡ number }
{
    match Reg::new(number) {
        Some(reg) => reg,
        None => unreachable!(),
    }
}

// The registers of harts that never ran.
fn unused_harts(alloc: Global, harts: u16) -> Result<Vec<HartState>, NoMemory>
    ensures { IfOk result (λ states. states.items ≡ replicate harts unused) }
{
    let mut states = Vec::new(alloc);
    for _hart in 0..harts {
        match states.push(HartState::new(0, 0, 0, 0)) {
            Ok(()) => {}
            Err(_) => return Err(NoMemory),
        }
    }
    Ok(states)
}

// The call lists of harts that made no call.
fn no_calls(alloc: Global, harts: u16) -> Result<Vec<CallList>, NoMemory>
    ensures { IfOk result (λ calls. calls.items ≡ replicate harts []) }
{
    let mut calls = Vec::new(alloc);
    for _hart in 0..harts {
        match CallList::new(alloc) {
            Ok(list) => match calls.push(list) {
                Ok(()) => {}
                Err(_) => return Err(NoMemory),
            },
            Err(refused) => return Err(refused),
        }
    }
    Ok(calls)
}

// What is kept of each hart.
#[derive(Drop)]
struct Harts {
    states: Vec<HartState>,
    held: Reservations,
    threads: Threads,
    calls: Vec<CallList>,
}

impl Harts {
    // Hart 0 at the entry, and the others free.
    fn first(alloc: Global, setup: &Setup, entry: u32) -> Result<Harts, NoMemory>
        requires some { 1 ≤ setup.now.harts }
        requires most { setup.now.harts ≤ 256 }
        requires aligned { entry % 4 ≡ 0 }
        ensures states { IfOk result (λ x. x.states.items ≡ slice_set
            (replicate setup.now.harts unused) 0 (started entry (stack_end setup.now 0) 0 0)) }
        ensures held { IfOk result (λ x. x.held ≡ replicate setup.now.harts None) }
        ensures phases { IfOk result (λ x. x.threads ≡ first_phases setup.now.harts) }
        ensures calls { IfOk result (λ x. x.calls.items ≡ replicate setup.now.harts []) }
    {
        let mut states = unused_harts(alloc, setup.harts)?;
        states[0] = HartState::new(entry, setup.top, 0, 0);
        let held = Reservations::new(alloc, setup.harts)?;
        let threads = Threads::new(alloc, setup.harts)?;
        let calls = no_calls(alloc, setup.harts)?;
        Ok(Harts {
            states,
            held,
            threads,
            calls,
        })
    }
}

impl Configuration {
    /// The first configuration of a run. It takes memory for what is kept of each hart.
    pub fn first(
        alloc: Global,
        setup: &Setup,
        memory: Memory,
        heap: GuestHeap,
        entry: u32,
        schedule: Schedule,
    ) -> Result<Configuration, NoMemory>
        requires some { 1 ≤ setup.now.harts }
        requires most { setup.now.harts ≤ 256 }
        requires aligned { entry % 4 ≡ 0 }
        ensures { IfOk result (λ x. config_of x
            ≡ first_config setup.now memory heap entry schedule) }
    {
        let Harts {
            states,
            held,
            threads,
            calls,
        } = Harts::first(alloc, setup, entry)?;
        Ok(Configuration {
            memory,
            states,
            held,
            threads,
            calls,
            heap,
            notes: NotedBlocks::new(alloc),
            schedule,
            steps: 0,
            accesses: 0,
            lacks_hart: false,
        })
    }

    /// What a hart's register of a number holds.
    pub fn value_in(&self, hart: Hart, number: u8) -> u32
        requires there { hart < length self.now.states.items }
        requires register { number < 32 }
        ensures { result ≡ value_in (config_of self.now) hart number }
    {
        let state = &self.states[usize::from(hart.number())];
        state.reg(register(number))
    }

    /// The address of a hart's next instruction.
    pub fn pc(&self, hart: Hart) -> u32
        requires { hart < length self.now.states.items }
        ensures value { result ≡ (state_of (config_of self.now) hart).pc }
        ensures aligned { result % 4 ≡ 0 }
    {
        let state = &self.states[usize::from(hart.number())];
        state.pc()
    }

    /// A hart made an instruction at an address.
    #[inline(always)]
    pub fn note_call(&mut self, hart: Hart, instr: Instr, pc: u32)
        requires { hart < length self.old.calls.items }
        ensures { config_of self.new ≡ noted hart instr pc (config_of self.old) }
    {
        let calls = &mut self.calls[usize::from(hart.number())];
        calls.note(instr, pc);
    }

    /// The hart that the schedule chooses, and None where none can run. The others aren't looked at
    /// where one alone can.
    #[inline]
    pub fn next_hart(&self) -> Option<Hart>
        requires { self.now.schedule.harts ≡ length self.now.threads }
        ensures value { result ≡ choice (runnable_in (config_of self.now)) self.now.schedule }
        ensures runs { IfSome result (λ hart. phase_of self.now.threads hart ≡ Runnable) }
    {
        match self.threads.lone() {
            Some(hart) => {
                lone_is_chosen();
                Some(hart)
            }
            None => self.schedule.peek(self.threads.runnable()),
        }
    }

    /// The hart that is next has its turn, as the schedule says.
    #[inline(always)]
    pub fn take_turn(&mut self, hart: Hart)
        requires plan { self.old.schedule.harts ≡ length self.old.threads }
        requires next { IsNext hart (config_of self.old) }
        ensures { config_of self.new ≡ chosen (config_of self.old) }
    {
        self.schedule.advance(self.threads.runnable(), hart);
    }

    /// Puts a value into a hart's x10.
    pub fn give(&mut self, hart: Hart, value: u32)
        requires { hart < length self.old.states.items }
        ensures { config_of self.new ≡ given hart value (config_of self.old) }
    {
        let state = &mut self.states[usize::from(hart.number())];
        state.set_reg(register(10), value);
    }

    /// Puts a value into a hart's x11.
    pub fn give_second(&mut self, hart: Hart, value: u32)
        requires { hart < length self.old.states.items }
        ensures { config_of self.new ≡ with_value hart 11 value (config_of self.old) }
    {
        let state = &mut self.states[usize::from(hart.number())];
        state.set_reg(register(11), value);
    }

    /// Lets a hart go on behind its ECALL.
    pub fn pass(&mut self, hart: Hart)
        requires { hart < length self.old.states.items }
        ensures { config_of self.new ≡ passed hart (config_of self.old) }
    {
        let state = &mut self.states[usize::from(hart.number())];
        state.advance();
    }

    /// Lets a hart go on with an answer.
    pub fn answer(&mut self, hart: Hart, value: u32)
        requires { hart < length self.old.states.items }
        ensures { config_of self.new ≡ answered hart value (config_of self.old) }
    {
        let state = &mut self.states[usize::from(hart.number())];
        state.set_reg(register(10), value);
        state.advance();
    }
}
