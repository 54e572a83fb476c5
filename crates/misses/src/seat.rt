// A hart that came to a line, and its visits there, in 12 bytes.
ghost use Rattle.std.specs.Prelude.{◌≡◌, ◌<◌, ◌^◌};
ghost use Rattle.misses.specs.Seats.{free_seat};

use crate::line_misses::Visits;
use std::marker::Model;

// Stands for no hart.
pub(crate) const NO_HART: u16 = 256;

// What 32 bits distinguish.
const LOW: u64 = 4_294_967_296;

/// The number of a hart, and its visits.
///
/// Contracts see the pair of both.
#[derive(Clone, Copy)]
pub struct Seat {
    // The lowest 32 bits of the two positions.
    accessed: u32,
    loaded: u32,
    // What is above those, and the number: 11, 11 and 10 bits.
    rest: u32,
}

impl Model for Seat {
    ghost use Rattle.std.specs.Prelude.{ℕ};
    ghost use Rattle.misses.specs.declared.line_misses.Visits.{Visits};

    ghost Value = { ℕ × Visits };

    ghost use Rattle.misses.specs.SeatFields.{AreLow, fields_of, visitor_of};

    ghost view = { visitor_of };

    ghost invariant = { AreLow };

    ghost inverse = { fields_of };
}

impl Seat {
    /// A seat where no hart sits.
    pub fn free() -> Seat
        ensures { result ≡ free_seat }
    {
        Seat {
            accessed: 0,
            loaded: 0,
            rest: u32::from(NO_HART),
        }
    }

    /// A hart with its visits.
    pub fn of(hart: u16, visits: Visits) -> Seat
        requires few { hart < 256 }
        requires accessed { visits.accessed < 2 ^ 43 }
        requires loaded { visits.loaded < 2 ^ 43 }
        ensures { result ≡ (hart, visits) }
    {
        let high = visits.loaded / LOW * 2_097_152 + visits.accessed / LOW * 1024;
        Seat {
            accessed: (visits.accessed % LOW) as u32,
            loaded: (visits.loaded % LOW) as u32,
            rest: (high + u64::from(hart)) as u32,
        }
    }

    /// The number of its hart.
    pub fn number(&self) -> u16
        ensures { result ≡ self.now.0 }
    {
        (self.rest % 1024) as u16
    }

    /// The visits of its hart.
    pub fn visits(&self) -> Visits
        ensures value { result ≡ self.now.1 }
        ensures accessed { result.accessed < 2 ^ 43 }
        ensures loaded { result.loaded < 2 ^ 43 }
    {
        Visits {
            accessed: u64::from(self.rest / 1024 % 2048) * LOW + u64::from(self.accessed),
            loaded: u64::from(self.rest / 2_097_152) * LOW + u64::from(self.loaded),
        }
    }
}
