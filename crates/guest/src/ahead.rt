// The steps that a hart makes on its own while its turns are sure, so that neither the schedule nor
// the budget is asked between them.
ghost use Rattle.std.specs.Prelude.{◌≡◌, ◌+◌, ◌<◌, ◌≤◌, ◌^◌, length};
ghost use Rattle.std.specs.Bool.{OnFalse, OnTrue};
ghost use Rattle.hart_scheduler.specs.Choices.{AreOf};
ghost use Rattle.rv32_hart.specs.Effect.{machine};
ghost use Rattle.guest.specs.Phases.{phase_of};
ghost use Rattle.guest.specs.declared.phase.HartPhase.TheVariants.{Runnable};
ghost use Rattle.guest.specs.Configs.{CanStep};
ghost use Rattle.guest.specs.OwnSteps.{HasGone, HasPut, HasStepped, IsAt};
ghost use Rattle.guest.specs.Turns.{IsNext, chosen, hart_turn, runnable_in, turn_of};
ghost use Rattle.guest.specs.ConfigInside.{config_of};

use crate::configuration::Configuration;
use crate::setup::Setup;
use crate::{CallList, Touched, Touches};
use base::Hart;
use hart_scheduler::lone_goes_on;
use rv32_hart::{HartState, Memory, Reservations, StepEnd, own_step, step};

// Makes the instruction of a hart that may reach the memory, where there is room for its access.
// Answers false where there is none, and at a call and a trap, which leave all as it was.
#[inline(always)]
fn reach_memory(
    hart: Hart,
    state: &mut HartState,
    memory: &mut Memory,
    held: &mut Reservations,
    calls: &mut CallList,
    touches: &mut Touches,
) -> bool
    requires { hart < length held.old }
    ensures made { OnTrue result (HasStepped hart 1
        (machine state.old memory.old held.old) calls.old touches.old
        (machine state.new memory.new held.new) calls.new touches.new) }
    ensures left { OnFalse result (machine state.new memory.new held.new
        ≡ machine state.old memory.old held.old) }
    ensures same_calls { OnFalse result (calls.new ≡ calls.old) }
    ensures same_touches { OnFalse result (touches.new ≡ touches.old) }
{
    if !touches.has_room() {
        return false;
    }
    let pc = state.pc();
    match step(hart, state, memory, held) {
        StepEnd::Next(instr, Some(access)) => {
            calls.note(instr, pc);
            touches.put(Touched { access, pc });
            true
        }
        StepEnd::Next(instr, None) => {
            calls.note(instr, pc);
            true
        }
        StepEnd::Call | StepEnd::Trap(_) => false,
    }
}

// The same of any instruction of a hart. One that is for the registers alone is made by itself.
#[inline(always)]
fn one_step(
    hart: Hart,
    state: &mut HartState,
    memory: &mut Memory,
    held: &mut Reservations,
    calls: &mut CallList,
    touches: &mut Touches,
) -> bool
    requires { hart < length held.old }
    ensures made { OnTrue result (HasStepped hart 1
        (machine state.old memory.old held.old) calls.old touches.old
        (machine state.new memory.new held.new) calls.new touches.new) }
    ensures left { OnFalse result (machine state.new memory.new held.new
        ≡ machine state.old memory.old held.old) }
    ensures same_calls { OnFalse result (calls.new ≡ calls.old) }
    ensures same_touches { OnFalse result (touches.new ≡ touches.old) }
{
    let pc = state.pc();
    match own_step(hart, state, memory, held) {
        Some(instr) => {
            calls.note(instr, pc);
            true
        }
        None => reach_memory(hart, state, memory, held, calls, touches),
    }
}

// Makes steps of a hart as long as none of them is a call or a trap and there is room for their
// accesses, `most` at most: how many.
#[inline(always)]
fn own_steps(
    hart: Hart,
    state: &mut HartState,
    memory: &mut Memory,
    held: &mut Reservations,
    calls: &mut CallList,
    touches: &mut Touches,
    most: u64,
) -> u64
    requires { hart < length held.old }
    ensures most { result ≤ most }
    ensures made { HasStepped hart result
        (machine state.old memory.old held.old) calls.old touches.old
        (machine state.new memory.new held.new) calls.new touches.new }
{
    for made in 0..most {
        if !one_step(hart, state, memory, held, calls, touches) {
            return made;
        }
    }
    most
}

impl Configuration {
    // How many turns in a row are sure to be of the hart that is next.
    #[inline(always)]
    fn sure_turns(&self, hart: Hart) -> u64
        requires plan { self.now.schedule.harts ≡ length self.now.threads }
        requires next { IsNext hart (config_of self.now) }
        requires runs { phase_of self.now.threads hart ≡ Runnable }
        ensures { AreOf (runnable_in (config_of self.now)) self.now.schedule result hart }
    {
        match self.threads.lone() {
            Some(_lone) => {
                lone_goes_on();
                u64::MAX
            }
            None => u64::from(self.schedule.turns_left(hart)),
        }
    }

    // How many steps may be made ahead of one that is sure too, none of them the last that there
    // may be, nor that of so many.
    #[inline(always)]
    fn room_ahead(&self, setup: &Setup, hart: Hart, until: u64) -> u64
        requires { IsAt setup.now hart (config_of self.now) }
        ensures sure { AreOf (runnable_in (config_of self.now)) self.now.schedule (result + 1)
            hart }
        ensures budget { self.now.steps + result < setup.now.budget }
        ensures few { self.now.steps + result + 1 < 2 ^ 64 }
        ensures early { self.now.steps < until → self.now.steps + result < until }
    {
        let left = setup.budget - self.steps;
        let sure = self.sure_turns(hart);
        if sure < 2 {
            return 0;
        }
        sure.min(left)
            .min(until.saturating_sub(self.steps))
            .saturating_sub(1)
    }

    // The steps of the hart that is next, as long as it makes them on its own, `most` at most. Their
    // accesses are put behind the others.
    #[inline(always)]
    fn go_own(&mut self, hart: Hart, most: u64, touches: &mut Touches)
        requires ready { CanStep hart (config_of self.old) }
        requires plan { self.old.schedule.harts ≡ length self.old.threads }
        requires sure { AreOf (runnable_in (config_of self.old)) self.old.schedule (most + 1)
            hart }
        requires few { self.old.steps + most < 2 ^ 64 }
        requires accesses { self.old.accesses ≤ self.old.steps }
        ensures { HasGone hart most (config_of self.old) touches.old (config_of self.new)
            touches.new }
    {
        if most == 0 {
            return;
        }
        let before = touches.len();
        let place = usize::from(hart.number());
        let state = &mut self.states[place];
        let calls = &mut self.calls[place];
        let made = own_steps(
            hart,
            state,
            &mut self.memory,
            &mut self.held,
            calls,
            touches,
            most,
        );
        self.schedule
            .advance_by(self.threads.runnable(), hart, made);
        self.steps += made;
        self.accesses += (touches.len() - before) as u64;
    }

    /// Makes steps of the hart that is next of which nothing is seen but accesses, as many as are
    /// known to be its own and none of another, and leaves it at one more. It may make none. The
    /// accesses are put behind the others.
    #[inline(always)]
    pub fn go_ahead(&mut self, setup: &Setup, hart: Hart, until: u64, touches: &mut Touches)
        requires at { IsAt setup.now hart (config_of self.old) }
        requires accesses { self.old.accesses ≤ self.old.steps }
        ensures puts { HasPut setup.now hart (config_of self.old) touches.old
            (config_of self.new) touches.new }
        ensures at { IsAt setup.now hart (config_of self.new) }
        ensures ready { CanStep hart (config_of self.new) }
        ensures turn { hart_turn setup.now hart (chosen (config_of self.new))
            ≡ turn_of setup.now (config_of self.new) }
        ensures steps { self.old.steps ≤ self.new.steps }
        ensures early { self.old.steps < until → self.new.steps < until }
    {
        let most = self.room_ahead(setup, hart, until);
        self.go_own(hart, most, touches);
    }
}
