// The latest write of a word, in 8 bytes.
ghost use Rattle.std.specs.Prelude.{◌≡◌, ◌<◌, ◌^◌};
ghost use Rattle.misses.specs.MissCounts.{unwritten};

use crate::line_misses::LastWrite;
use std::marker::Model;

/// The latest write of a word.
///
/// Contracts see the write.
#[derive(Clone, Copy)]
pub struct KeptWrite {
    // 256 times the position right after it, and the number of its hart.
    both: u64,
}

impl Model for KeptWrite {
    ghost use Rattle.misses.specs.declared.line_misses.LastWrite.{LastWrite};

    ghost Value = { LastWrite };

    ghost use Rattle.misses.specs.WriteFields.{fields_of, write_of};

    ghost view = { write_of };

    ghost inverse = { fields_of };
}

impl KeptWrite {
    /// There is none.
    pub fn none() -> KeptWrite
        ensures { result ≡ unwritten }
    {
        KeptWrite { both: 0 }
    }

    /// A write by a hart, right before a position.
    pub fn of(behind: u64, hart: u16) -> KeptWrite
        requires early { behind < 2 ^ 48 }
        requires few { hart < 256 }
        ensures { result ≡ record { behind = behind; hart = hart } }
    {
        KeptWrite {
            both: behind * 256 + u64::from(hart),
        }
    }

    /// The write.
    pub fn write(&self) -> LastWrite
        ensures { result ≡ self.now }
    {
        LastWrite {
            behind: self.both / 256,
            hart: (self.both % 256) as u16,
        }
    }
}
