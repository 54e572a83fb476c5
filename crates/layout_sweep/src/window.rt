// What is kept of one window.
ghost use Rattle.std.specs.Prelude.{◌≡◌, ◌≢◌, ◌==◌, ◌&&◌, not, IsTrue, ◌<◌, ◌^◌};
ghost use Rattle.layout_sweep.specs.WindowFields.{harts_after, unwritten};

use base::{Access, Hart, Kind};
use std::marker::Model;

/// What is kept of a window of bytes: the first two harts that came since its last write, and
/// whether it was ever taken from a hart since its first write.
#[derive(Clone, Copy, Drop)]
pub struct Window {
    // The number of the first hart, and 256 times one more than that of the second, if there is
    // one. Before the first write it is a number that no two harts have.
    harts: u32,
    taken: bool,
}

// The number of a window that was never written.
const UNWRITTEN: u32 = 1_048_576;

impl Model for Window {
    ghost use Rattle.layout_sweep.specs.WindowHistory.{WindowHistory};

    ghost Value = { WindowHistory };

    ghost use Rattle.layout_sweep.specs.WindowFields.{AreFit, fields_of, kept};

    ghost view = { kept };

    ghost invariant = { AreFit };

    ghost inverse = { fields_of };

    ghost use Rattle.layout_sweep.specs.Laws.WindowFields.{fields_back};

    ghost inverse_ok = { λ a h. fields_back a };
}

// The harts after a read by one.
#[inline(always)]
fn after_read(harts: u32, hart: Hart) -> u32
    requires { harts < 2 ^ 21 }
    ensures { result ≡ harts_after harts hart }
{
    let number = u32::from(hart.number());
    if harts / 256 == 0 && harts != number {
        harts + 256 * (number + 1)
    } else {
        harts
    }
}

// Whether a write finds another hart. A window that was taken has been written, so one test is
// enough there.
#[inline(always)]
fn is_another(harts: u32, taken: bool, hart: Hart) -> bool
    requires { IsTrue taken → harts ≢ unwritten }
    ensures { result ≡ (not (harts == unwritten) && not (harts == hart)) }
{
    let number = u32::from(hart.number());
    if taken {
        harts != number
    } else {
        harts != UNWRITTEN && harts != number
    }
}

impl Window {
    ghost use Rattle.layout_sweep.specs.Windows.{blank_window, takes, window_after};

    /// A window that was never written.
    pub fn blank() -> Window
        ensures { result ≡ blank_window }
    {
        Window {
            harts: UNWRITTEN,
            taken: false,
        }
    }

    /// Whether it was ever taken.
    #[inline(always)]
    pub fn is_taken(&self) -> bool
        ensures { result ≡ self.now.taken }
    {
        self.taken
    }

    /// An access in it: true exactly where it is a write that takes it from another hart.
    #[inline(always)]
    pub fn note(&mut self, access: Access) -> bool
        ensures after { self.new ≡ window_after self.old access }
        ensures taken { result ≡ takes self.old access }
    {
        match access.kind() {
            Kind::Read => {
                self.harts = after_read(self.harts, access.hart());
                false
            }
            Kind::Write => {
                let taken = is_another(self.harts, self.taken, access.hart());
                self.harts = u32::from(access.hart().number());
                self.taken = taken || self.taken;
                taken
            }
        }
    }
}
