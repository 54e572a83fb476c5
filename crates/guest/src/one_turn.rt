// One turn of a configuration.
ghost use Rattle.std.specs.Prelude.{◌≡◌, ◌↔◌, ℕ, ◌+◌, ◌<◌, ◌^◌, ◌≤◌, [], length};
ghost use Rattle.std.specs.Prelude.{IfOk, IsOk, OnOk, OnErr, IsFalse, IsTrue, Ok, None};
ghost use Rattle.std.specs.Option.{option_map_or};
ghost use Rattle.hart_scheduler.specs.Choices.{choice};
ghost use Rattle.guest.specs.Phases.{phase_of};
ghost use Rattle.guest.specs.declared.phase.HartPhase.TheVariants.{Runnable};
ghost use Rattle.guest.specs.ThreadCalls.{finished_code};
ghost use Rattle.guest.specs.Configs.{CanStep, Config, Fits, counted, noted};
ghost use Rattle.guest.specs.GuestCalls.{over, quiet, ran};
ghost use Rattle.guest.specs.Runs.{ending_with};
ghost use Rattle.guest.specs.OwnSteps.{IsAt};
ghost use Rattle.guest.specs.Turns.{IsNext, chosen, hart_turn, made};
ghost use Rattle.guest.specs.Turns.{runnable_in, turn_of, wants_memory};
ghost use Rattle.guest.specs.ConfigInside.{config_of};
ghost use Rattle.guest.specs.declared.setup.Setup.{Setup};
ghost use Rattle.guest.specs.SeenTurns.{AreOfHarts, HasPassed, IsEndOf, IsSeen, MakesAccess};
ghost use Rattle.guest.specs.SeenTurns.{turn_seen};

use crate::Touches;
use crate::configuration::Configuration;
use crate::setup::Setup;
use crate::turn::{Event, Touched, Turn};
use base::{Access, Ending, Hart, NoMemory, Outcome};
use rv32_decode::Instr;
use rv32_hart::{StepEnd, step};

// Whether nothing is seen of a turn.
#[inline(always)]
fn is_quiet(answer: &Result<Turn, NoMemory>) -> bool
    ensures { IsTrue result ↔ (answer.now ≡ Ok (Turn.Ran Event.Quiet)) }
{
    matches!(answer, Ok(Turn::Ran(Event::Quiet)))
}

impl Configuration {
    /// The end of the run, with what was counted so far.
    pub fn ending(&self, outcome: &Outcome) -> Ending
        ensures { result ≡ ending_with outcome.now (config_of self.now) }
    {
        Ending {
            outcome: *outcome,
            steps: self.steps,
            accesses: self.accesses,
        }
    }

    // The hart that is next has its turn, and a step more is counted.
    #[inline(always)]
    fn count_step(&mut self, hart: Hart)
        requires plan { self.old.schedule.harts ≡ length self.old.threads }
        requires next { IsNext hart (config_of self.old) }
        requires steps { self.old.steps + 1 < 2 ^ 64 }
        ensures { config_of self.new ≡ counted (chosen (config_of self.old)) }
    {
        self.take_turn(hart);
        self.steps += 1;
    }

    // A step that made an instruction without an access.
    #[inline(always)]
    fn pass_over(&mut self, hart: Hart, instr: Instr, pc: u32)
        requires ready { CanStep hart (config_of self.old) }
        requires plan { self.old.schedule.harts ≡ length self.old.threads }
        requires next { IsNext hart (config_of self.old) }
        ensures turn { ran quiet (config_of self.new) ≡ made pc None
            (noted hart instr pc (chosen (config_of self.old))) }
        ensures fits { (harts : ℕ) → Fits harts (config_of self.old)
            → Fits harts (config_of self.new) }
    {
        self.note_call(hart, instr, pc);
        self.count_step(hart);
    }

    // A step that made an instruction, with its access. A step without one has code of its own, in
    // which nothing is seen.
    #[inline(always)]
    fn go_on(&mut self, hart: Hart, instr: Instr, pc: u32, access: Option<Access>) -> Turn
        requires ready { CanStep hart (config_of self.old) }
        requires accesses { self.old.accesses ≤ self.old.steps }
        requires plan { self.old.schedule.harts ≡ length self.old.threads }
        requires next { IsNext hart (config_of self.old) }
        ensures turn { turn_seen result (config_of self.new) ≡ made pc access
            (noted hart instr pc (chosen (config_of self.old))) }
        ensures fits { (harts : ℕ) → Fits harts (config_of self.old)
            → Fits harts (config_of self.new) }
        ensures seen { result ≡ Turn.Ran
            (option_map_or (λ a. Event.Touch a pc) access Event.Quiet) }
    {
        self.note_call(hart, instr, pc);
        match access {
            None => {
                self.count_step(hart);
                Turn::Ran(Event::Quiet)
            }
            Some(access) => {
                self.count_step(hart);
                self.accesses += 1;
                Turn::Ran(Event::Touch { access, pc })
            }
        }
    }

    // A hart's instruction.
    #[inline]
    fn run(&mut self, setup: &Setup, hart: Hart) -> Result<Turn, NoMemory>
        requires ready { CanStep hart (config_of self.old) }
        requires accesses { self.old.accesses ≤ self.old.steps }
        requires plan { self.old.schedule.harts ≡ length self.old.threads }
        requires next { IsNext hart (config_of self.old) }
        ensures turn { IfOk result
            (λ turn. turn_seen turn (config_of self.new) ≡ hart_turn setup.now hart
            (chosen (config_of self.old))) }
        ensures fits { OnOk result ((harts : ℕ) → Fits harts (config_of self.old)
            → Fits harts (config_of self.new)) }
        ensures seen { IfOk result
            (λ turn. IsSeen (length self.old.threads) turn (config_of self.new)) }
        ensures refused { OnErr result (config_of self.new ≡ config_of self.old) }
        ensures settled { IsFalse (wants_memory (config_of self.old)
            (hart_turn setup.now hart (chosen (config_of self.old)))) → IsOk result }
    {
        let pc = self.pc(hart);
        let state = &mut self.states[usize::from(hart.number())];
        match step(hart, state, &mut self.memory, &mut self.held) {
            StepEnd::Next(instr, access) => Ok(self.go_on(hart, instr, pc, access)),
            StepEnd::Call => self.call(setup, hart),
            StepEnd::Trap(cause) => {
                self.take_turn(hart);
                Ok(Turn::Ended(Outcome::Trap(hart, pc, cause)))
            }
        }
    }

    // The end of the run where no hart can run.
    #[cold]
    fn rest(&self) -> Outcome
        ensures outcome { result ≡ option_map_or Outcome.Exit (finished_code self.now.threads)
            Outcome.Deadlock }
        ensures over { (s : Setup)
            → None ≡ choice (runnable_in (config_of self.now)) self.now.schedule
            → over result (config_of self.now) ≡ turn_of s (config_of self.now) }
        ensures end { (harts : ℕ) → IsEndOf harts result }
    {
        match self.threads.finished() {
            Some(code) => Outcome::Exit(code),
            None => Outcome::Deadlock,
        }
    }

    // Whether no step is left to the hart that is next. A test alone: an answer that held the hart
    // or the end would be put together at each step before it is looked at.
    #[inline(always)]
    fn is_spent(&self, setup: &Setup, hart: Hart) -> bool
        requires fits { Fits setup.now.harts (config_of self.now) }
        requires next { IsNext hart (config_of self.now) }
        requires runs { phase_of self.now.threads hart ≡ Runnable }
        ensures over { IsTrue result
            → over Outcome.Budget (config_of self.now) ≡ turn_of setup.now (config_of self.now) }
        ensures ready { IsFalse result → CanStep hart (config_of self.now) }
        ensures at { IsFalse result → IsAt setup.now hart (config_of self.now) }
        ensures turn { IsFalse result → hart_turn setup.now hart (chosen (config_of self.now))
            ≡ turn_of setup.now (config_of self.now) }
    {
        self.steps >= setup.budget
    }

    /// One turn: the end of the run, or the step of the hart that the schedule chooses.
    #[inline]
    pub fn turn(&mut self, setup: &Setup) -> Result<Turn, NoMemory>
        requires fits { Fits setup.now.harts (config_of self.old) }
        requires accesses { self.old.accesses ≤ self.old.steps }
        ensures turn { IfOk result (λ turn. turn_seen turn (config_of self.new) ≡ turn_of setup.now
            (config_of self.old)) }
        ensures fits { Fits setup.now.harts (config_of self.new) }
        ensures seen { IfOk result (λ turn. IsSeen setup.now.harts turn (config_of self.new)) }
        ensures refused { OnErr result (config_of self.new ≡ config_of self.old) }
        ensures settled { IsFalse (wants_memory (config_of self.old)
            (turn_of setup.now (config_of self.old))) → IsOk result }
    {
        let hart = match self.next_hart() {
            Some(hart) => hart,
            None => return Ok(Turn::Ended(self.rest())),
        };
        if self.is_spent(setup, hart) {
            return Ok(Turn::Ended(Outcome::Budget));
        }
        self.run(setup, hart)
    }

    /// Turns until something else than an access is seen of one, or a step of which nothing is seen
    /// is the last of so many. The accesses are put into `touches`: one for which there is no room,
    /// or which is the last of so many steps, is answered.
    ///
    /// A step of which nothing is seen, and one whose access is put by, make no answer: they have
    /// ways of their own through the loop.
    pub fn run_on(
        &mut self,
        setup: &Setup,
        until: u64,
        touches: &mut Touches,
    ) -> Result<Turn, NoMemory>
        requires fits { Fits setup.now.harts (config_of self.old) }
        requires steps { self.old.steps ≤ setup.now.budget }
        requires accesses { self.old.accesses ≤ self.old.steps }
        requires none { touches.old ≡ [] }
        ensures turn { IfOk result (λ turn. (x : Config)
            × HasPassed setup.now until touches.new (config_of self.old) x
            × (turn_seen turn (config_of self.new) ≡ turn_of setup.now x)) }
        ensures fits { Fits setup.now.harts (config_of self.new) }
        ensures seen { IfOk result (λ turn. IsSeen setup.now.harts turn (config_of self.new)) }
        ensures theirs { AreOfHarts setup.now.harts touches.new }
        ensures passed { OnErr result
            (HasPassed setup.now until touches.new (config_of self.old) (config_of self.new)) }
        ensures settled { OnErr result
            (IsTrue (wants_memory (config_of self.new) (turn_of setup.now (config_of self.new)))) }
        ensures paused { result ≡ Ok (Turn.Ran Event.Quiet) → until ≤ self.new.steps }
        ensures room { IfOk result (λ turn. MakesAccess turn → self.new.steps < until
            → 256 ≤ length touches.new) }
    {
        'turns: loop {
            let hart = match self.next_hart() {
                Some(hart) => hart,
                None => return Ok(Turn::Ended(self.rest())),
            };
            if self.is_spent(setup, hart) {
                return Ok(Turn::Ended(Outcome::Budget));
            }
            self.go_ahead(setup, hart, until, touches);
            let pc = self.pc(hart);
            let state = &mut self.states[usize::from(hart.number())];
            match step(hart, state, &mut self.memory, &mut self.held) {
                StepEnd::Next(instr, None) => {
                    self.pass_over(hart, instr, pc);
                    if self.steps >= until {
                        return Ok(Turn::Ran(Event::Quiet));
                    }
                }
                StepEnd::Next(instr, Some(access)) => {
                    let turn = self.go_on(hart, instr, pc, Some(access));
                    if self.steps >= until || !touches.has_room() {
                        return Ok(turn);
                    }
                    touches.put(Touched { access, pc });
                }
                StepEnd::Call => {
                    let answer = self.call(setup, hart);
                    if !is_quiet(&answer) || self.steps >= until {
                        return answer;
                    }
                }
                StepEnd::Trap(cause) => {
                    self.take_turn(hart);
                    return Ok(Turn::Ended(Outcome::Trap(hart, pc, cause)));
                }
            }
        }
    }
}
