// What is kept of a word or of a region.
ghost use Rattle.std.specs.Prelude.{◌≡◌, ◌<◌, ◌^◌, ◌==◌, ◌&&◌, ◌||◌, not};
ghost use Rattle.base.specs.Touch.{IsAllowed, is_write};

use base::{Access, Hart};

/// Who came last, and a number. It takes 12 bytes.
#[derive(Clone, Copy, Drop)]
pub struct Stamp {
    // The number's lower and upper half: a u64 would take 16 bytes.
    low: u32,
    high: u32,
    // The hart's number, or NOBODY.
    last: u16,
    // Whether the hart wrote, in the stamp of a word.
    writes: bool,
}

// The hart of a stamp where nobody came yet.
const NOBODY: u16 = 256;

impl Stamp {
    ghost use Rattle.access_filter.specs.Stamps.{IsVisited, blank_stamp, number_of};

    /// Nobody came yet.
    pub fn blank() -> Stamp
        ensures { result ≡ blank_stamp }
    {
        Stamp {
            low: 0,
            high: 0,
            last: NOBODY,
            writes: false,
        }
    }

    /// A hart came, and the number is this.
    #[inline(always)]
    pub fn new(hart: Hart, writes: bool, number: u64) -> Stamp
        ensures last { result.last ≡ hart }
        ensures writes { result.writes ≡ writes }
        ensures number { number_of result ≡ number }
    {
        Stamp {
            low: (number % 4_294_967_296) as u32,
            high: (number / 4_294_967_296) as u32,
            last: hart.number(),
            writes,
        }
    }

    /// The number.
    #[inline(always)]
    pub fn number(self) -> u64
        ensures { result ≡ number_of self }
    {
        u64::from(self.high) * 4_294_967_296 + u64::from(self.low)
    }

    /// Whether an access of the word is by the hart that came last, and does no more than it did.
    #[inline(always)]
    pub fn covers(self, access: Access) -> bool
        ensures value { result
            ≡ ((self.last == access.hart) && (self.writes || not (is_write access.kind))) }
        ensures allowed { IsAllowed access }
    {
        self.last == access.hart().number() && (self.writes || !access.kind().is_write())
    }

    /// A hart comes near a region: its number rises where another one came last.
    #[inline(always)]
    pub fn visit(&mut self, hart: Hart)
        requires { number_of self.old < 2 ^ 63 }
        ensures { IsVisited hart self.old self.new }
    {
        if self.last != hart.number() {
            *self = Stamp::new(hart, false, self.number() + 1);
        }
    }
}
