// A schedule, and the choices that it makes.
ghost use Rattle.std.specs.Prelude.{◌≡◌, ◌≤◌, ◌<◌, ◌-◌, ◌↔◌, [], length, None, Some, IfSome};
ghost use Rattle.std.specs.Prelude.{Bool, IsTrue, List};
ghost use Rattle.std.specs.Bool.{OnTrue};
ghost use Rattle.hart_scheduler.specs.Choices.{AreOf, is_runnable, NoneRunnable, choice};
ghost use Rattle.hart_scheduler.specs.Choices.{drawn_turns, going_on, plan_after, plan_after_all};
ghost use Rattle.hart_scheduler.specs.Choices.{plan_with, shortened, turns_left};
ghost use Rattle.hart_scheduler.specs.Draws.{next_state, number_in};
ghost use Rattle.hart_scheduler.specs.Texts.{plan_of};

use crate::draws::Draws;
use crate::entry::Entry;
use crate::listed::Listed;
use crate::runnable::lowest_runnable;
use crate::streak::Streak;
use crate::turns::Turns;
use base::Hart;
use std::marker::Model;

/// Which hart runs next. Contracts see the harts that its list still names, in their order, the
/// hart that was last chosen after the list, how many harts there are, the quantum, and the state
/// of the drawn numbers.
#[derive(Drop)]
pub struct Schedule {
    // No turns are left to it before the list is used up, so that one test says that it goes on.
    latest: Streak,
    turns: Turns,
    harts: u16,
    quantum: u32,
    listed: Listed,
}

impl Model for Schedule {
    ghost use Rattle.hart_scheduler.specs.Choices.{Plan};

    ghost Value = { Plan };

    ghost use Rattle.hart_scheduler.specs.ScheduleInside.{plan_in, IsGood};

    ghost view = { plan_in };

    ghost invariant = { IsGood };
}

impl Schedule {
    pub(crate) fn of_entries(entries: Vec<Entry>, harts: u16, quantum: u32, seed: u32) -> Schedule
        requires some { 1 ≤ harts }
        requires bound { harts ≤ 256 }
        ensures { result ≡ plan_of harts quantum seed entries.items }
    {
        Schedule {
            latest: Streak::new(Hart::of_byte(0), 0),
            turns: Turns::First(Draws::of_seed(seed)),
            harts,
            quantum,
            listed: Listed::of_entries(entries),
        }
    }

    // The hart that is chosen before the first turn after the list is taken.
    #[inline(never)]
    fn first_choice(&self, runnable: &[bool], draws: Option<Draws>) -> Option<Hart>
        requires all { length runnable.now ≡ self.now.harts }
        requires first { self.now.streak ≡ None }
        requires draws { self.now.draws ≡ draws }
        ensures { result ≡ choice runnable.now self.now }
    {
        match self.listed.first(runnable) {
            Some(hart) => Some(hart),
            None => match draws {
                None => lowest_runnable(runnable, 0, usize::from(self.harts)),
                Some(draws) => draws.hart(runnable, self.harts),
            },
        }
    }

    // The hart that is chosen.
    #[inline(always)]
    fn choice(&self, runnable: &[bool]) -> Option<Hart>
        requires { length runnable.now ≡ self.now.harts }
        ensures { result ≡ choice runnable.now self.now }
    {
        if self.latest.goes_on(runnable) {
            return Some(self.latest.hart());
        }
        match self.turns {
            Turns::Round => self.latest.successor(runnable, self.harts),
            Turns::Drawn(draws) => draws.hart(runnable, self.harts),
            Turns::First(draws) => self.first_choice(runnable, draws),
        }
    }

    // A hart that the next number drew has the first of the turns that the number after it draws.
    #[inline(never)]
    fn draw_turns(&mut self, hart: Hart, draws: Draws)
        requires inside { hart < self.old.harts }
        requires over { self.old.listed ≡ [] }
        ensures { self.new ≡ record self.old {
          streak = Some (record {
            hart = hart;
            left = drawn_turns self.old.quantum (number_in (next_state (next_state draws))) - 1;
          });
          draws = Some (next_state (next_state draws));
        } }
    {
        let drawn = draws.next().next();
        self.latest = Streak::new(hart, drawn.further_turns(self.quantum));
        self.turns = Turns::Drawn(drawn);
    }

    // A turn of the list, or the first one after it.
    #[cold]
    fn take_listed(&mut self, runnable: &[bool], hart: Hart, draws: Option<Draws>)
        requires inside { hart < self.old.harts }
        requires first { self.old.streak ≡ None }
        requires draws { self.old.draws ≡ draws }
        ensures { self.new ≡ plan_with runnable.now self.old hart }
    {
        if !self.listed.take(runnable) {
            match draws {
                None => {
                    self.latest = Streak::new(hart, self.quantum.saturating_sub(1));
                    self.turns = Turns::Round;
                }
                Some(draws) => self.draw_turns(hart, draws),
            }
        }
    }

    // A turn where none goes on.
    #[inline(always)]
    fn take_anew(&mut self, runnable: &[bool], hart: Hart)
        requires all { length runnable.now ≡ self.old.harts }
        requires chosen { choice runnable.now self.old ≡ Some hart }
        requires anew { going_on runnable.now self.old.streak ≡ None }
        ensures { self.new ≡ plan_after runnable.now self.old }
    {
        // A copy, since a match on the field whose arms call with what it holds isn't proved.
        let turns = self.turns;
        match turns {
            Turns::Round => self.latest.take_turn(hart, self.quantum),
            Turns::Drawn(draws) => self.draw_turns(hart, draws),
            Turns::First(draws) => self.take_listed(runnable, hart, draws),
        }
    }

    /// The hart that `next` would answer now. `runnable` has one entry for each hart. None exactly
    /// where no hart is runnable.
    #[inline(always)]
    pub fn peek(&self, runnable: &[bool]) -> Option<Hart>
        requires { length runnable.now ≡ self.now.harts }
        ensures value { result ≡ choice runnable.now self.now }
        ensures none { (result ≡ None) ↔ NoneRunnable runnable.now }
        ensures able { IfSome result (λ hart. IsTrue (is_runnable runnable.now hart)) }
    {
        self.choice(runnable)
    }

    /// Chooses the hart that runs next. `runnable` has one entry for each hart.
    ///
    /// It is the first runnable hart that the list still names, and what stands before it in the
    /// list is passed over for good. Once the list is used up, or none of its harts is runnable,
    /// harts are chosen in turn: at first the lowest runnable one, later the one chosen last while
    /// it is runnable and has had fewer turns in a row than the quantum, else the first runnable
    /// one after it in cyclic order, itself last.
    ///
    /// With a seed the one chosen last goes on while it is runnable and has turns left, else two
    /// numbers are drawn. Of m runnable harts the first one, divided by m, leaves how many of them
    /// are below the hart that is chosen; the second one, divided by twice the quantum less 1,
    /// leaves how many turns it has after this one.
    ///
    /// None exactly where no hart is runnable, and then nothing changes.
    #[inline]
    pub fn next(&mut self, runnable: &[bool]) -> Option<Hart>
        requires { length runnable.now ≡ self.old.harts }
        ensures value { result ≡ choice runnable.now self.old }
        ensures after { self.new ≡ plan_after runnable.now self.old }
        ensures none { (result ≡ None) ↔ NoneRunnable runnable.now }
        ensures able { IfSome result (λ hart. IsTrue (is_runnable runnable.now hart)) }
        ensures unchanged { result ≡ None → self.new ≡ self.old }
        ensures harts { self.new.harts ≡ self.old.harts }
        ensures quantum { self.new.quantum ≡ self.old.quantum }
    {
        let hart = self.peek(runnable)?;
        self.advance(runnable, hart);
        Some(hart)
    }

    /// Chooses the hart that `peek` answers now, as `next` does, for a caller that knows which one
    /// that is. `runnable` has one entry for each hart.
    #[inline(always)]
    pub fn advance(&mut self, runnable: &[bool], hart: Hart)
        requires all { length runnable.now ≡ self.old.harts }
        requires chosen { choice runnable.now self.old ≡ Some hart }
        ensures after { self.new ≡ plan_after runnable.now self.old }
        ensures harts { self.new.harts ≡ self.old.harts }
        ensures quantum { self.new.quantum ≡ self.old.quantum }
    {
        // Two tests and a way from each, since both in one take more instructions.
        if !self.latest.is_of(hart) {
            self.take_anew(runnable, hart);
        } else if self.latest.has_left() {
            self.latest.shorten();
        } else {
            self.take_anew(runnable, hart);
        }
    }

    /// How many turns in a row this hart has left, if it was the last one chosen after the list, and
    /// 0 for others: while it can run, so many choices are sure to be of it.
    #[inline(always)]
    pub fn turns_left(&self, hart: Hart) -> u32
        ensures left { result ≡ turns_left self.now hart }
        ensures sure { (runnable : List Bool) → IsTrue (is_runnable runnable hart)
            → AreOf runnable self.now result hart }
    {
        if self.latest.is_of(hart) {
            self.latest.left()
        } else {
            0
        }
    }

    // Whether so many choices, all of this hart, do no more than to shorten its streak.
    #[inline(always)]
    fn only_shorten(&self, runnable: &[bool], hart: Hart, turns: u64) -> bool
        requires { AreOf runnable.now self.now turns hart }
        ensures { OnTrue result
            (shortened turns self.now ≡ plan_after_all runnable.now turns self.now) }
    {
        if !self.latest.is_of(hart) {
            return false;
        }
        if turns <= u64::from(self.latest.left()) {
            return true;
        }
        matches!(self.turns, Turns::Round)
    }

    /// Makes so many choices, all of them of this hart, as `advance` makes one.
    #[inline(always)]
    pub fn advance_by(&mut self, runnable: &[bool], hart: Hart, turns: u64)
        requires all { length runnable.now ≡ self.old.harts }
        requires chosen { AreOf runnable.now self.old turns hart }
        ensures after { self.new ≡ plan_after_all runnable.now turns self.old }
        ensures harts { self.new.harts ≡ self.old.harts }
        ensures quantum { self.new.quantum ≡ self.old.quantum }
    {
        if self.only_shorten(runnable, hart, turns) {
            self.shorten(turns);
        } else {
            self.advance_each(runnable, hart, turns);
        }
    }

    // Takes so many turns of the streak, or all where there are fewer.
    #[inline(always)]
    fn shorten(&mut self, turns: u64)
        ensures { self.new ≡ shortened turns self.old }
    {
        self.latest.shorten_by(turns);
    }

    // The same, one choice after the other until those that are left only shorten the streak.
    #[inline(never)]
    fn advance_each(&mut self, runnable: &[bool], hart: Hart, turns: u64)
        requires all { length runnable.now ≡ self.old.harts }
        requires chosen { AreOf runnable.now self.old turns hart }
        ensures after { self.new ≡ plan_after_all runnable.now turns self.old }
        ensures harts { self.new.harts ≡ self.old.harts }
        ensures quantum { self.new.quantum ≡ self.old.quantum }
    {
        for made in 0..turns {
            if self.only_shorten(runnable, hart, turns - made) {
                self.shorten(turns - made);
                return;
            }
            self.advance(runnable, hart);
        }
    }
}
