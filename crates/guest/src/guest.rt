// A guest, and its turns.
ghost use Rattle.std.specs.Prelude.{◌≡◌, ◌+◌, ◌*◌, ◌<◌, ◌≤◌, ◌↔◌, ◌%◌, [], None, Ok, IfOk};
ghost use Rattle.std.specs.Prelude.{IsOk, OnErr, IsFalse, IsTrue, IfSome, IsSome, length};
ghost use Rattle.rv32_hart.specs.Space.{AllMapped, bytes_at};
ghost use Rattle.guest.specs.LeastPlaces.{heap_over};
ghost use Rattle.guest.specs.Configs.{first_config};
ghost use Rattle.guest.specs.Turns.{turn_of, wants_memory};
ghost use Rattle.guest.specs.Runs.{IsShort, rest_of};
ghost use Rattle.guest.specs.SeenTurns.{AreOfHarts, ComesTo, Counts, CountsOn, IsLedTo, IsSeen};
ghost use Rattle.guest.specs.SeenTurns.{IsWithin, MakesAccess, begun_with, ending_after, turn_seen};

use crate::configuration::Configuration;
use crate::setup::{RunSettings, Setup};
use crate::turn::{Event, Turn};
use crate::{GuestHeap, Touches};
use base::{Ending, NoMemory};
use hart_scheduler::Schedule;
use program_files::Image;
use std::alloc::Global;
use std::marker::Model;

/// A program in memory whose harts run as a schedule says.
///
/// Contracts see what its run never changes, its configuration, and its end once it has ended.
#[derive(Drop)]
pub struct Guest {
    setup: Setup,
    config: Configuration,
    ending: Option<Ending>,
}

impl Model for Guest {
    ghost use Rattle.guest.specs.Runs.{Progress};

    ghost Value = { Progress };

    ghost use Rattle.guest.specs.GuestInside.{progress_of, IsGood};

    ghost view = { progress_of };

    ghost invariant = { IsGood };
}

impl Guest {
    /// A guest before its first turn: hart 0 is at the image's entry with its stack's end in x2,
    /// and all other registers are zero. It takes memory for what is kept of each hart.
    ///
    /// The image, the schedule and the settings are for the same harts, 1 to 256, and the schedule
    /// has the settings' quantum. The entry is a multiple of 4; the heap begins and ends at
    /// multiples of 16, and ends where the stacks begin.
    pub fn new(
        alloc: Global,
        image: Image,
        schedule: Schedule,
        settings: RunSettings,
    ) -> Result<Guest, NoMemory>
        requires some { 1 ≤ settings.harts }
        requires most { settings.harts ≤ 256 }
        requires image { image.harts ≡ settings.harts }
        requires schedule { schedule.harts ≡ settings.harts }
        requires quantum { schedule.quantum ≡ settings.quantum }
        requires aligned { image.entry % 4 ≡ 0 }
        requires heap_start { image.heap_start % 16 ≡ 0 }
        requires heap_end { image.heap_end % 16 ≡ 0 }
        requires heap { image.heap_start ≤ image.heap_end }
        requires stacks { image.heap_end + image.harts * image.stack ≡ image.top }
        ensures setup { IfOk result
            (λ guest. guest.setup ≡ record {
              harts = settings.harts;
              budget = settings.budget;
              top =
                  image.top;
              stack = image.stack;
            }) }
        ensures config { IfOk result (λ guest. guest.config ≡ first_config guest.setup image.memory
            (heap_over image.heap_start image.heap_end) image.entry schedule) }
        ensures ending { IfOk result (λ guest. guest.ending ≡ None) }
        // the whole run has at most as many steps as the budget
        ensures short { IfOk result (λ guest. IsShort guest.setup (rest_of guest)) }
    {
        let setup = Setup {
            harts: settings.harts,
            budget: settings.budget,
            top: image.top,
            stack: image.stack,
        };
        let heap = GuestHeap::new(alloc, image.heap_start, image.heap_end);
        let config = Configuration::first(
            alloc,
            &setup,
            image.memory,
            heap,
            image.entry,
            schedule,
        )?;
        Ok(Guest {
            setup,
            config,
            ending: None,
        })
    }

    /// One turn. The run has ended where every hart is free or has ended, where no hart can run, or
    /// where all steps of the budget are taken, judged in this order; else the hart that the
    /// schedule chooses carries out one instruction. A trap ends the run and is no step, and
    /// `exit_group` is a step that ends it.
    ///
    /// Once it has answered `Ended` it answers the same again, and all stays.
    ///
    /// NoMemory comes only at a turn that makes a block of the heap, or notes another one where no
    /// noted block lives: at no exit, deadlock or end of the budget, and only where the hart that is
    /// next is at the call and isn't refused. It leaves the guest as it was, its schedule included.
    #[inline]
    pub fn step(&mut self) -> Result<Turn, NoMemory>
        // the turn of the definition, and the configuration that it gives
        ensures exact { self.old.ending ≡ None
            → IfOk result
            (λ turn. turn_seen turn self.new.config ≡ turn_of self.old.setup self.old.config) }
        // once the run has ended, the same end again
        ensures again { IfSome self.old.ending (λ e. (result ≡ Ok (Turn.Ended e.outcome))
            × (self.new ≡ self.old)) }
        // the run that was left begins with this turn, and goes on as the one that is left now
        ensures run { IfOk result (λ turn. rest_of self.old ≡ begun_with turn self.new) }
        ensures setup { self.new.setup ≡ self.old.setup }
        ensures ending { IfOk result (λ turn. self.new.ending ≡ ending_after turn self.new.config) }
        ensures counts { IfOk result (λ turn. Counts self.old.config turn self.new.config) }
        ensures within { IsWithin self.new }
        ensures seen { IfOk result (λ turn. IsSeen self.new.setup.harts turn self.new.config) }
        ensures refused { OnErr result (self.new ≡ self.old) }
        // only a turn that makes a new block takes memory, so none where the run ends or is at the
        // end of its budget
        ensures settled { IsFalse (wants_memory self.old.config
            (turn_of self.old.setup self.old.config)) → IsOk result }
    {
        match self.ending {
            Some(ending) => Ok(Turn::Ended(ending.outcome)),
            None => match self.config.turn(&self.setup) {
                Ok(Turn::Ran(event)) => Ok(Turn::Ran(event)),
                Ok(Turn::Ended(outcome)) => {
                    self.ending = Some(self.config.ending(&outcome));
                    Ok(Turn::Ended(outcome))
                }
                Err(refused) => Err(refused),
            },
        }
    }

    /// Makes turns as `step` does, puts their accesses into `touches`, from an empty one on, and
    /// answers the first turn of which something else is seen: an event other than `Quiet`, or the
    /// end. An access for which there is no room is answered too, and so is a step behind which
    /// `until` steps or more are made, so that a caller hears of a run of which nothing is seen for
    /// long.
    ///
    /// Once it has answered `Ended` it answers the same again, with no access, and all stays.
    ///
    /// NoMemory comes as it does from `step`. The steps before are made then, and the guest is at
    /// the turn that memory was wanted for.
    pub fn run_on(&mut self, until: u64, touches: &mut Touches) -> Result<Turn, NoMemory>
        // some steps of which nothing is seen but these accesses, and then the turn of the
        // definition
        ensures exact { self.old.ending ≡ None → IfOk result
            (λ turn. ComesTo self.old.setup self.old.config touches.new turn self.new.config) }
        // once the run has ended, the same end again
        ensures again { IfSome self.old.ending (λ e. (result ≡ Ok (Turn.Ended e.outcome))
            × (self.new ≡ self.old) × (touches.new ≡ [])) }
        // the run that was left begins with those steps and this turn, and goes on as the one that
        // is left now
        ensures run { IfOk result
            (λ turn. IsLedTo (rest_of self.old) touches.new (begun_with turn self.new)) }
        ensures setup { self.new.setup ≡ self.old.setup }
        ensures ending { IfOk result (λ turn. self.new.ending ≡ ending_after turn self.new.config) }
        ensures counts { IfOk result
            (λ turn. CountsOn self.old.config touches.new turn self.new.config) }
        ensures within { IsWithin self.new }
        ensures seen { IfOk result (λ turn. IsSeen self.new.setup.harts turn self.new.config) }
        ensures theirs { AreOfHarts self.new.setup.harts touches.new }
        // a step of which nothing is seen is answered only where so many are made, and no more are
        // made than that
        ensures quiet { result ≡ Ok (Turn.Ran Event.Quiet) → until ≤ self.new.config.steps }
        ensures until { self.old.config.steps < until → self.new.config.steps ≤ until }
        // an access is answered only where there is no room for it, or where so many are made
        ensures room { IfOk result (λ turn. MakesAccess turn → self.new.config.steps < until
            → 256 ≤ length touches.new) }
        // where memory is refused, the run that was left begins with the steps before
        ensures refused { OnErr result
            (IsLedTo (rest_of self.old) touches.new (rest_of self.new)) }
        ensures going { OnErr result (self.new.ending ≡ None) }
        // only a turn that makes a new block takes memory, and the guest is at one
        ensures settled { OnErr result
            (IsTrue (wants_memory self.new.config (turn_of self.new.setup self.new.config))) }
    {
        touches.clear();
        match self.ending {
            Some(ending) => Ok(Turn::Ended(ending.outcome)),
            None => match self.config.run_on(&self.setup, until, touches) {
                Ok(Turn::Ran(event)) => Ok(Turn::Ran(event)),
                Ok(Turn::Ended(outcome)) => {
                    self.ending = Some(self.config.ending(&outcome));
                    Ok(Turn::Ended(outcome))
                }
                Err(refused) => Err(refused),
            },
        }
    }

    /// How many harts there are.
    pub fn harts(&self) -> u16
        ensures { result ≡ self.now.setup.harts }
    {
        self.setup.harts
    }

    /// How many steps the run has made: those of the budget at most.
    pub fn steps(&self) -> u64
        ensures value { result ≡ self.now.config.steps }
        ensures within { IsWithin self.now }
    {
        self.config.steps
    }

    /// How many steps the run may make, from 1 to 2^36.
    pub fn budget(&self) -> u64
        ensures { result ≡ self.now.setup.budget }
    {
        self.setup.budget
    }

    /// How many accesses the run has made: as many as steps at most.
    pub fn accesses(&self) -> u64
        ensures value { result ≡ self.now.config.accesses }
        ensures within { IsWithin self.now }
    {
        self.config.accesses
    }

    /// Whether the latest spawn was refused because no hart was free.
    pub fn lacks_hart(&self) -> bool
        ensures { result ≡ self.now.config.lacks_hart }
    {
        self.config.lacks_hart
    }

    /// How the run has ended: None exactly before `step` or `run_on` answers `Ended`.
    pub fn ending(&self) -> Option<Ending>
        ensures { result ≡ self.now.ending }
    {
        self.ending
    }

    /// The `len` bytes of the guest's memory from `addr` on: None exactly where one of them is in
    /// no mapped page.
    pub fn bytes(&self, addr: u32, len: u32) -> Option<&[u8]>
        ensures bytes { IfSome result
            (λ bytes. bytes.now ≡ bytes_at self.now.config.memory addr len) }
        ensures mapped { IsSome result ↔ AllMapped self.now.config.memory addr len }
    {
        self.config.memory.slice(addr, len)
    }
}
