// A hart of the guest, by its number.
ghost use Rattle.std.specs.Prelude.{◌≡◌, ◌<◌, ◌≤◌};
ghost use Rattle.std.specs.Option.{SomeIff};

use std::marker::Model;

/// A hart's number, from 0 to 255. Contracts see the number.
#[derive(Clone, Copy, PartialEq, Eq, Debug)]
pub struct Hart {
    number: u16,
}

impl Model for Hart {
    ghost use Rattle.std.specs.Prelude.{ℕ, ◌<◌};

    ghost Value = { ℕ };

    ghost view = { λ h. h.number };

    ghost invariant = { λ h. h.number < 256 };

    ghost inverse = { λ n. record { number = n } };
}

impl Hart {
    /// The hart of a number: None exactly where it is above 255.
    pub fn new(n: u16) -> Option<Hart>
        ensures { SomeIff result (n ≤ 255) n }
    {
        if n > 255 {
            None
        } else {
            Some(Hart { number: n })
        }
    }

    /// The hart of a byte.
    pub fn of_byte(n: u8) -> Hart
        ensures { result ≡ n }
    {
        Hart { number: n.into() }
    }

    /// The hart's number, from 0 to 255.
    pub fn number(self) -> u16
        ensures value { result ≡ self }
        ensures small { result < 256 }
    {
        self.number
    }
}
