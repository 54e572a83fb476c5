// A line of a layout.
ghost use Rattle.std.specs.Prelude.{◌≡◌, ◌/◌, ◌≤◌, ◌^◌};
ghost use Rattle.sharing_rules.specs.Lines.{line_at, is_inside, range_of, word_place};

use base::{Layout, Range};
use std::marker::Model;

/// A line, by its layout and its number in it. Contracts see its size in bytes, its offset and its
/// number.
#[derive(Clone, Copy, PartialEq, Eq, Debug)]
pub struct CacheLine {
    layout: Layout,
    number: u64,
}

impl Model for CacheLine {
    ghost use Rattle.std.specs.Prelude.{◌≤◌, ◌^◌};
    ghost use Rattle.sharing_rules.specs.Lines.{Line};

    ghost Value = { Line };

    ghost view = { λ l. record {
      size = l.layout.size;
      offset = l.layout.offset;
      number = l.number;
    } };

    ghost invariant = { λ l. l.number ≤ 2 ^ 32 };

    ghost inverse = { λ l. record {
      layout = record { size = l.size; offset = l.offset };
      number =
          l.number;
    } };
}

impl CacheLine {
    /// The line of an address under a layout.
    pub fn at(layout: Layout, addr: u32) -> CacheLine
        ensures { result ≡ line_at layout addr }
    {
        CacheLine {
            layout,
            number: layout.number_of(addr),
        }
    }

    /// A line by its number, which is at most 2^32.
    pub fn numbered(layout: Layout, number: u64) -> CacheLine
        requires { number ≤ 2 ^ 32 }
        ensures { result ≡ record { size = layout.size; offset = layout.offset; number = number } }
    {
        CacheLine { layout, number }
    }

    /// Its layout.
    pub fn layout(&self) -> Layout
        ensures { result ≡ record { size = self.now.size; offset = self.now.offset } }
    {
        self.layout
    }

    /// Its number in its layout, at most 2^32.
    pub fn number(&self) -> u64
        ensures value { result ≡ self.now.number }
        ensures small { result ≤ 2 ^ 32 }
    {
        self.number
    }

    /// Whether it holds an address.
    pub fn contains(&self, addr: u32) -> bool
        ensures { result ≡ is_inside self.now addr }
    {
        self.layout.number_of(addr) == self.number
    }

    /// Which of its words an address is in, if it holds it.
    pub fn word_place(&self, addr: u32) -> usize
        ensures { result ≡ word_place self.now addr }
    {
        let size = u64::from(self.layout.size());
        let from_a_begin = u64::from(addr) + size - u64::from(self.layout.offset());
        (from_a_begin % size / 4) as usize
    }

    /// How many words it has.
    pub fn word_count(&self) -> usize
        ensures value { result ≡ self.now.size / 4 }
        ensures small { result ≤ 256 }
    {
        self.layout.size() as usize / 4
    }

    /// Its addresses.
    pub fn range(&self) -> Range
        ensures { result ≡ range_of self.now }
    {
        let size = self.layout.size();
        let end = self.number * u64::from(size) + u64::from(self.layout.offset());
        Range {
            base: end.cast_signed() - i64::from(size),
            size,
        }
    }
}
