// What says whether something is due at a write.
ghost use Rattle.std.specs.Prelude.{◌≡◌, ℕ, ◌%◌, ◌==◌, ◌<◌, false, IsTrue, Some};
ghost use Rattle.std.specs.Option.{option_map_or};
ghost use Rattle.base.specs.Levels.{are_levels};

use base::Thresholds;
use std::marker::Model;

// The usual threshold of prediction, by which no division is made.
const USUAL: u64 = 64;

/// Thresholds, of which is known whether that of prediction is the usual one.
///
/// Contracts see the thresholds.
#[derive(Drop)]
pub struct Dues {
    thresholds: Thresholds,
    is_usual: bool,
}

impl Model for Dues {
    ghost use Rattle.std.specs.Prelude.{◌≡◌, IsTrue, Some};
    ghost use Rattle.base.specs.Levels.{Levels};

    ghost Value = { Levels };

    ghost view = { λ d. d.thresholds };

    ghost invariant = { λ d. IsTrue d.is_usual → d.thresholds.prediction ≡ Some 64 };
}

// Whether a number is a multiple of another one that isn't 0, if one is given.
#[inline(never)]
fn is_multiple(n: u64, of: Option<u64>) -> bool
    requires { (m : ℕ) → of ≡ Some m → 0 < m }
    ensures { result ≡ option_map_or (λ m. n % m == 0) of false }
{
    match of {
        Some(of) => n % of == 0,
        None => false,
    }
}

impl Dues {
    /// What is due under these thresholds.
    pub fn of(thresholds: Thresholds) -> Dues
        ensures { result ≡ thresholds }
    {
        Dues {
            thresholds,
            is_usual: matches!(thresholds.prediction(), Some(USUAL)),
        }
    }

    /// The thresholds.
    #[inline(always)]
    pub fn thresholds(&self) -> Thresholds
        ensures { result ≡ self.now }
    {
        self.thresholds
    }

    /// Which write of a line its own track begins at.
    #[inline(always)]
    pub fn tracking(&self) -> u64
        ensures value { result ≡ self.now.tracking }
        ensures allowed { IsTrue
            (are_levels self.now.tracking self.now.prediction self.now.report) }
    {
        self.thresholds.tracking()
    }

    /// Whether the pairs of a line are searched at its write with this number.
    #[inline(always)]
    pub fn searches(&self, writes: u64) -> bool
        ensures { result ≡ option_map_or (λ P. writes % P == 0) self.now.prediction false }
    {
        if self.is_usual {
            return writes % USUAL == 0;
        }
        // Thresholds are at least 1, as this says.
        let _tracking = self.thresholds.tracking();
        is_multiple(writes, self.thresholds.prediction())
    }
}
