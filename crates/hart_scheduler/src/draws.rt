// Numbers that are drawn from a seed, and the turns that they say.
ghost use Rattle.std.specs.Prelude.{◌≡◌, ◌≤◌, ◌-◌, length};
ghost use Rattle.hart_scheduler.specs.Draws.{next_state, number_in};
ghost use Rattle.hart_scheduler.specs.Choices.{drawn_hart, drawn_turns};
ghost use Rattle.hart_scheduler.specs.Texts.{draws_of};

use crate::runnable::{count_runnable, runnable_at};
use base::Hart;
use std::marker::Model;

/// The state of the drawn numbers.
#[derive(Clone, Copy, Debug)]
pub struct Draws {
    state: u64,
}

impl Model for Draws {
    ghost use Rattle.std.specs.Prelude.{ℕ};

    ghost Value = { ℕ };

    ghost view = { λ d. d.state };

    ghost inverse = { λ n. record { state = n } };
}

impl Draws {
    // The state before the first draw, None of a seed that draws nothing.
    pub(crate) fn of_seed(seed: u32) -> Option<Draws>
        ensures { result ≡ draws_of seed }
    {
        if seed == 0 {
            None
        } else {
            Some(Draws {
                state: u64::from(seed),
            })
        }
    }

    // The state after one draw more.
    pub(crate) fn next(self) -> Draws
        ensures { result ≡ next_state self }
    {
        let product = self.state.wrapping_mul(6_364_136_223_846_793_005);
        Draws {
            state: product.wrapping_add(1_442_695_040_888_963_407),
        }
    }

    // The number that the last draw gave.
    fn number(self) -> u32
        ensures { result ≡ number_in self }
    {
        (self.state >> 32) as u32
    }

    // The hart that the next number draws.
    #[inline(never)]
    pub(crate) fn hart(self, runnable: &[bool], harts: u16) -> Option<Hart>
        requires bound { harts ≤ 256 }
        requires inside { harts ≤ length runnable.now }
        ensures { result ≡ drawn_hart runnable.now harts (number_in (next_state self)) }
    {
        let able = count_runnable(runnable, harts);
        if able == 0 {
            return None;
        }
        let place = self.next().number() % u32::from(able);
        runnable_at(runnable, harts, place as u16)
    }

    // How many turns in a row the last number drew, without the first of them.
    pub(crate) fn further_turns(self, quantum: u32) -> u32
        ensures { result ≡ drawn_turns quantum (number_in self) - 1 }
    {
        let most = (2 * u64::from(quantum)).saturating_sub(1).max(1);
        (u64::from(self.number()) % most) as u32
    }
}
