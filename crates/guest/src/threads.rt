// The phases of all harts, and the calls that change them.
ghost use Rattle.std.specs.Prelude.{◌≡◌, ℕ, ◌<◌, ◌≤◌, ◌↔◌, length, map, count_by, position};
ghost use Rattle.std.specs.Prelude.{if◌then◌else◌, IsTrue, IfOk, IfSome, IsSome, MatchOption};
ghost use Rattle.std.specs.Prelude.{false, slice_index_or, slice_set};
ghost use Rattle.std.specs.List.{list_all, list_any};
ghost use Rattle.std.specs.Option.{ForSome, SomeIff};
ghost use Rattle.guest.specs.Phases.{first_phases, is_joining, is_over, is_runnable};
ghost use Rattle.guest.specs.Phases.{is_waiting_at, lone_runnable, phase_of};
ghost use Rattle.guest.specs.ThreadCalls.{after_join, answer_of_join, can_join, exited};
ghost use Rattle.guest.specs.ThreadCalls.{finished_code, join_end, joined, joiner_of, lowest_free};
ghost use Rattle.guest.specs.ThreadCalls.{spawned, woken, woken_count};
ghost use Rattle.guest.specs.ThreadChanges.{ChangesOnly, ExitsAlone, ExitsJoined, Joins, RunsAlone};
ghost use Rattle.guest.specs.ThreadChanges.{Starts, StartsNone, WakesLowest};
ghost use Rattle.guest.specs.ThreadsSound.{IsSound};

use crate::phase::{HartPhase, JoinEnd};
use base::{Hart, NoMemory};
use std::alloc::Global;
use std::marker::Model;

/// What each hart of a guest is at. Contracts see the list of the phases, from hart 0 on.
#[derive(Drop)]
pub struct Threads {
    phases: Vec<HartPhase>,
    runnable: Vec<bool>,
    // How many harts can run, and which one if it is the only one.
    running: usize,
    lone: Option<Hart>,
}

impl Model for Threads {
    ghost use Rattle.std.specs.Prelude.{List};
    ghost use Rattle.guest.specs.declared.phase.HartPhase.{HartPhase};
    ghost use Rattle.guest.specs.ThreadsInside.{IsKept};

    ghost Value = { List HartPhase };

    ghost view = { λ t. t.phases.items };

    ghost invariant = { λ t. IsKept t.phases.items t.runnable.items t.running t.lone };
}

impl Threads {
    /// Harts 0 to `harts` - 1: hart 0 is runnable, and the others are free. It takes memory for
    /// them.
    pub fn new(alloc: Global, harts: u16) -> Result<Threads, NoMemory>
        requires some { 1 ≤ harts }
        requires most { harts ≤ 256 }
        ensures { IfOk result (λ t. t ≡ first_phases harts) }
    {
        let mut phases = vec![in alloc; HartPhase::Free; usize::from(harts)]?;
        let mut runnable = vec![in alloc; false; usize::from(harts)]?;
        phases[0] = HartPhase::Runnable;
        runnable[0] = true;
        Ok(Threads {
            phases,
            runnable,
            running: 1,
            lone: Some(hart_at(0)),
        })
    }

    /// The phase of a hart.
    pub fn state(&self, hart: Hart) -> HartPhase
        requires { hart < length self.now }
        ensures value { result ≡ phase_of self.now hart }
        ensures sound { IsSound self.now }
    {
        self.phases[usize::from(hart.number())]
    }

    /// Whether each hart can run, from hart 0 on.
    pub fn runnable(&self) -> &[bool]
        ensures value { result.now ≡ map is_runnable self.now }
        ensures each { (k : ℕ) → IsTrue (slice_index_or result.now k false) ↔
            (phase_of self.now k ≡ HartPhase.Runnable) }
        ensures sound { IsSound self.now }
    {
        self.runnable.as_slice()
    }

    /// The hart that can run, if it is the only one. None exactly where none can, or more than one.
    #[inline]
    pub fn lone(&self) -> Option<Hart>
        ensures value { result ≡ lone_runnable self.now }
        ensures alone { IfSome result (RunsAlone self.now) }
    {
        self.lone
    }

    /// The lowest free hart becomes runnable, and is the answer: None exactly where none is free.
    pub fn spawn(&mut self) -> Option<Hart>
        ensures answer { result ≡ lowest_free self.old }
        ensures after { self.new ≡ spawned self.old }
        ensures effect { MatchOption result (StartsNone self.old self.new)
            (Starts self.old self.new) }
    {
        match self.lowest_free() {
            Some(place) => {
                let hart = hart_at(place);
                self.set(hart, HartPhase::Runnable);
                Some(hart)
            }
            None => None,
        }
    }

    /// Joins the hart of number `target`: `Bad` exactly where it is no hart, or is hart 0, the
    /// caller, free, or joined by another hart; nothing changes then. `Done` exactly where it has
    /// ended: it becomes free. Else `Waits`, and the caller is joining it.
    pub fn join(&mut self, caller: Hart, target: u32) -> JoinEnd
        requires within { caller < length self.old }
        requires runs { phase_of self.old caller ≡ HartPhase.Runnable }
        ensures answer { result ≡ join_end self.old caller target }
        ensures after { self.new ≡ joined self.old caller target }
        ensures effect { Joins self.old self.new caller target result }
    {
        match self.joinable(caller, target) {
            None => JoinEnd::Bad,
            Some(hart) => self.join_hart(caller, hart),
        }
    }

    /// The caller waits at an address until it is woken there.
    pub fn wait(&mut self, caller: Hart, addr: u32)
        requires within { caller < length self.old }
        requires runs { phase_of self.old caller ≡ HartPhase.Runnable }
        ensures after { self.new ≡ slice_set self.old caller (HartPhase.Waiting addr) }
        ensures waits { phase_of self.new caller ≡ HartPhase.Waiting addr }
        ensures others { ChangesOnly caller self.old self.new }
    {
        self.set(caller, HartPhase::Waiting(addr));
    }

    /// The lowest harts that wait at the address, at most `most`, become runnable. It answers how
    /// many.
    pub fn wake(&mut self, addr: u32, most: u32) -> u32
        ensures answer { result ≡ woken_count self.old addr most }
        ensures after { self.new ≡ woken self.old addr most }
        ensures effect { WakesLowest self.old self.new addr most }
    {
        let mut count = 0;
        for place in 0..self.phases.len() {
            if count < most && self.is_waiting(place, addr) {
                self.set(hart_at(place), HartPhase::Runnable);
                count += 1;
            }
        }
        count
    }

    /// The caller ends with a code. Where a hart is joining it, that hart becomes runnable and is
    /// the answer, and the caller becomes free; else the caller has ended, and its code is kept.
    pub fn exit(&mut self, caller: Hart, code: u32) -> Option<Hart>
        requires within { caller < length self.old }
        requires runs { phase_of self.old caller ≡ HartPhase.Runnable }
        ensures answer { result ≡ joiner_of self.old caller }
        ensures after { self.new ≡ exited self.old caller code }
        ensures effect { MatchOption result (ExitsAlone self.old self.new caller code)
            (ExitsJoined self.old self.new caller) }
    {
        match self.joiner_of(caller) {
            Some(place) => {
                let joiner = hart_at(place);
                self.set(joiner, HartPhase::Runnable);
                self.set(caller, HartPhase::Free);
                Some(joiner)
            }
            None => {
                self.set(caller, HartPhase::Ended(code));
                None
            }
        }
    }

    /// The code of hart 0, exactly where every hart is free or has ended.
    pub fn finished(&self) -> Option<u32>
        ensures answer { result ≡ finished_code self.now }
        ensures all { IsSome result ↔ IsTrue (list_all is_over self.now) }
        ensures code { IfSome result (λ code. phase_of self.now 0 ≡ HartPhase.Ended code) }
    {
        if self.is_over() {
            self.phases[0].ended_code()
        } else {
            None
        }
    }

    fn lowest_free(&self) -> Option<usize>
        ensures answer { result ≡ lowest_free self.now }
        ensures small { ForSome result (λ place. place < length self.now) }
        ensures sound { IsSound self.now }
    {
        self.phases.iter().position(|phase| phase.is_free())
    }

    fn is_waiting(&self, place: usize, addr: u32) -> bool
        requires { place < length self.now }
        ensures value { result ≡ is_waiting_at addr (phase_of self.now place) }
        ensures sound { IsSound self.now }
    {
        self.phases[place].is_waiting_at(addr)
    }

    // The hart that is joining this one, if one is.
    fn joiner_of(&self, hart: Hart) -> Option<usize>
        ensures answer { result ≡ joiner_of self.now hart }
        ensures small { ForSome result (λ place. place < length self.now) }
        ensures sound { IsSound self.now }
    {
        self.phases.iter().position(|phase| phase.is_joining(hart))
    }

    fn is_joined(&self, hart: Hart) -> bool
        ensures { result ≡ list_any (is_joining hart) self.now }
    {
        self.phases.iter().any(|phase| phase.is_joining(hart))
    }

    fn is_over(&self) -> bool
        ensures { result ≡ list_all is_over self.now }
    {
        self.phases.iter().all(|phase| phase.is_over())
    }

    // The hart of number `target`, if the caller can join it.
    fn joinable(&self, caller: Hart, target: u32) -> Option<Hart>
        ensures { SomeIff result (IsTrue (can_join self.now caller target)) target }
    {
        let place = target as usize;
        if place >= self.phases.len() {
            return None;
        }
        let hart = hart_at(place);
        if place == 0
            || place == usize::from(caller.number())
            || self.phases[place].is_free()
            || self.is_joined(hart)
        {
            return None;
        }
        Some(hart)
    }

    // Joins a hart that the caller can join.
    fn join_hart(&mut self, caller: Hart, target: Hart) -> JoinEnd
        requires within { caller < length self.old }
        requires can { IsTrue (can_join self.old caller target) }
        ensures answer { result ≡ answer_of_join (phase_of self.old target) }
        ensures after { self.new ≡ after_join self.old caller target result }
    {
        match self.state(target).ended_code() {
            Some(code) => {
                self.set(target, HartPhase::Free);
                JoinEnd::Done(code)
            }
            None => {
                self.set(caller, HartPhase::Joining(target));
                JoinEnd::Waits
            }
        }
    }

    fn set(&mut self, hart: Hart, phase: HartPhase)
        requires within { hart < length self.old }
        requires keeps { IsSound self.old → IsSound (slice_set self.old hart phase) }
        ensures { self.new ≡ slice_set self.old hart phase }
    {
        let place = usize::from(hart.number());
        let ran = running_in(self.phases[place]);
        let runs = phase.is_runnable();
        self.runnable[place] = runs;
        self.phases[place] = phase;
        self.running = self.running - ran + running_in(phase);
        self.lone = lone_in(self.phases.as_slice(), self.running);
    }
}

// How many harts can run of the one in this phase.
fn running_in(phase: HartPhase) -> usize
    ensures { result ≡ (if is_runnable phase then 1 else 0) }
{
    usize::from(phase.is_runnable())
}

// The only hart that can run, where so many can.
fn lone_in(phases: &[HartPhase], running: usize) -> Option<Hart>
    requires few { length phases.now ≤ 256 }
    requires running { running ≡ count_by is_runnable phases.now }
    ensures { result ≡ lone_runnable phases.now }
{
    if running != 1 {
        return None;
    }
    match first_runnable(phases) {
        Some(place) => Some(hart_at(place)),
        None => None,
    }
}

// The lowest hart that can run, if one can.
fn first_runnable(phases: &[HartPhase]) -> Option<usize>
    ensures answer { result ≡ position is_runnable phases.now }
    ensures small { ForSome result (λ place. place < length phases.now) }
{
    phases.iter().position(|phase| phase.is_runnable())
}

// The hart at a place in the list of phases.
fn hart_at(place: usize) -> Hart
    requires { place < 256 }
    ensures { result ≡ place }
{
    match Hart::new(place as u16) {
        Some(hart) => hart,
        None => unreachable!(),
    }
}
