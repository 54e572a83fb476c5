// What is kept of one line.
ghost use Rattle.std.specs.Prelude.{◌≡◌, ◌<◌, ◌^◌, None, Some, is_some};

use std::marker::Model;

// Stands for no place.
const NOWHERE: u32 = u32::MAX;

/// Where a track stands in the list of tracks, below 2^32 - 1, if it has a place there. It takes 4
/// bytes.
///
/// Contracts see it as an option.
#[derive(Clone, Copy, PartialEq, Eq, Debug)]
pub struct TrackNumber {
    number: u32,
}

impl Model for TrackNumber {
    ghost use Rattle.std.specs.Prelude.{ℕ, Option};
    ghost use Rattle.detector.specs.TrackNumberFields.{track_number_of, fields_of};
    ghost use Rattle.detector.specs.Laws.TrackNumberFields.{fields_back};

    ghost Value = { Option ℕ };

    ghost view = { track_number_of };

    ghost inverse = { fields_of };

    ghost inverse_ok = { λ a h. fields_back a };
}

impl TrackNumber {
    /// No place.
    #[inline(always)]
    pub fn none() -> TrackNumber
        ensures { result ≡ None }
    {
        TrackNumber { number: NOWHERE }
    }

    /// A place with a number.
    #[inline(always)]
    pub fn at(number: u32) -> TrackNumber
        requires { number < 2 ^ 31 }
        ensures { result ≡ Some number }
    {
        TrackNumber { number }
    }

    /// Its number, if there is one.
    #[inline(always)]
    pub fn number(self) -> Option<u32>
        ensures { result ≡ self }
    {
        if self.number == NOWHERE {
            None
        } else {
            Some(self.number)
        }
    }

    /// Whether there is one.
    #[inline(always)]
    pub fn is_some(self) -> bool
        ensures { result ≡ is_some self }
    {
        self.number != NOWHERE
    }
}

/// How often a line was written, and where its tracks stand in the list of tracks.
#[derive(Clone, Copy, PartialEq, Eq, Debug)]
pub struct LineEntry {
    /// How many writes.
    pub writes: u64,
    /// Where its own track stands, once it has one.
    pub track: TrackNumber,
    /// Where its shifted line's track stands, once it has one.
    pub shifted: TrackNumber,
    /// Where its doubled line's track stands, once it has one.
    pub doubled: TrackNumber,
}

/// The entry of a line that was never touched: no write and no track.
pub const BLANK: LineEntry = LineEntry {
    writes: 0,
    track: TrackNumber { number: NOWHERE },
    shifted: TrackNumber { number: NOWHERE },
    doubled: TrackNumber { number: NOWHERE },
};

/// The greatest line number: 2^30, which a line of 4 bytes can have.
pub const LAST_LINE: u64 = 1 << 30;
