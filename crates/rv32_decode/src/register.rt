//! The integer registers.
ghost use Rattle.std.specs.Prelude.{◌≡◌, ◌<◌, ◌%◌, IfSome, IsSome, ◌↔◌};

use std::marker::Model;

/// One of the 32 integer registers, `x0` to `x31`. Contracts see its number.
#[derive(Clone, Copy, PartialEq, Eq, Debug)]
pub struct Reg {
    number: u8,
}

impl Model for Reg {
    ghost use Rattle.std.specs.Prelude.{ℕ, ◌<◌};

    ghost Value = { ℕ };

    ghost view = { λ r. r.number };

    ghost invariant = { λ r. r.number < 32 };

    ghost inverse = { λ n. record { number = n } };
}

impl Reg {
    /// The register of that number, or `None` where the number is above 31.
    pub fn new(n: u8) -> Option<Reg>
        ensures exists { IsSome result ↔ (n < 32) }
        ensures number { IfSome result (λ r. r ≡ n) }
    {
        if n < 32 {
            Some(Reg { number: n })
        } else {
            None
        }
    }

    /// The register's number, 0 to 31.
    pub fn number(self) -> u8
        ensures number { result ≡ self }
        ensures range { result < 32 }
    {
        self.number
    }

    /// The register that the low five bits name.
    #[inline]
    pub(crate) fn of_low_bits(bits: u32) -> Reg
        ensures { result ≡ bits % 32 }
    {
        Reg {
            number: (bits & 31) as u8,
        }
    }
}
