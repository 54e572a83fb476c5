// Whose turn it is after the list.
ghost use Rattle.std.specs.Prelude.{◌≡◌, ◌≤◌, ◌<◌, ◌-◌, length, nat_eq, nat_lt};
ghost use Rattle.std.specs.List.{find};
ghost use Rattle.hart_scheduler.specs.Choices.{goes_on, harts_after, is_runnable, left_with};

use crate::runnable::{first_from, hart_at};
use base::Hart;
use std::marker::Model;

/// The hart that was last chosen after the list, and how many turns in a row it has left.
#[derive(Clone, Copy, Debug)]
pub struct Streak {
    hart: Hart,
    left: u32,
}

impl Model for Streak {
    ghost use Rattle.hart_scheduler.specs.ScheduleParts.{AStreak};

    ghost Value = { AStreak };

    ghost view = { λ s. record { hart = s.hart; left = s.left } };

    ghost inverse = { λ t. record { hart = t.hart; left = t.left } };
}

impl Streak {
    // A hart with so many turns left.
    #[inline(always)]
    pub(crate) fn new(hart: Hart, left: u32) -> Streak
        ensures { result ≡ record { hart = hart; left = left } }
    {
        Streak { hart, left }
    }

    #[inline(always)]
    pub(crate) fn hart(self) -> Hart
        ensures { result ≡ self.hart }
    {
        self.hart
    }

    #[inline(always)]
    pub(crate) fn goes_on(self, runnable: &[bool]) -> bool
        requires { self.hart < length runnable.now }
        ensures { result ≡ goes_on runnable.now self }
    {
        self.left > 0 && runnable[usize::from(self.hart.number())]
    }

    #[inline(always)]
    pub(crate) fn is_of(self, hart: Hart) -> bool
        ensures { result ≡ nat_eq self.hart hart }
    {
        self.hart == hart
    }

    #[inline(always)]
    pub(crate) fn has_left(self) -> bool
        ensures { result ≡ nat_lt 0 self.left }
    {
        self.left > 0
    }

    #[inline(always)]
    pub(crate) fn left(self) -> u32
        ensures { result ≡ self.left }
    {
        self.left
    }

    // The first runnable hart after it in cyclic order, itself last.
    #[inline(always)]
    pub(crate) fn successor(self, runnable: &[bool], harts: u16) -> Option<Hart>
        requires bound { harts ≤ 256 }
        requires inside { harts ≤ length runnable.now }
        requires own { self.hart < harts }
        ensures { result ≡ find (is_runnable runnable.now) (harts_after harts self.hart) }
    {
        let next = usize::from(self.hart.number()) + 1;
        let harts = usize::from(harts);
        if next < harts && runnable[next] {
            Some(hart_at(next))
        } else {
            first_from(runnable, next, harts)
        }
    }

    // Takes one of the turns that are left, in place.
    #[inline(always)]
    pub(crate) fn shorten(&mut self)
        ensures { self.new ≡ record { hart = self.old.hart; left = self.old.left - 1 } }
    {
        self.left = self.left.saturating_sub(1);
    }

    // Takes so many of them, or all where there are fewer.
    #[inline(always)]
    pub(crate) fn shorten_by(&mut self, turns: u64)
        ensures { self.new ≡ record { hart = self.old.hart; left = self.old.left - turns } }
    {
        self.left = u64::from(self.left).saturating_sub(turns) as u32;
    }

    // A turn of the hart that was chosen. Another one than the last begins with its whole quantum.
    #[inline(always)]
    pub(crate) fn take_turn(&mut self, hart: Hart, quantum: u32)
        ensures { self.new ≡ record { hart = hart; left = left_with quantum hart self.old } }
    {
        if self.hart != hart {
            self.hart = hart;
            self.left = quantum;
        }
        self.left = self.left.saturating_sub(1);
    }
}
