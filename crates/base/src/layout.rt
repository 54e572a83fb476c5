// Layouts, and the lines into which they cut the addresses.
ghost use Rattle.std.specs.Prelude.{◌≡◌, ◌≤◌, ◌^◌, IsTrue};
ghost use Rattle.std.specs.Option.{SomeIff};
ghost use Rattle.base.specs.Lines.{is_layout, line_number};

use std::marker::Model;

/// A range of addresses. Its base may be negative, and its end may lie past 2^32.
#[derive(Clone, Copy, PartialEq, Eq, Debug)]
pub struct Range {
    /// The first address.
    pub base: i64,
    /// How many bytes it has.
    pub size: u32,
}

impl Range {
    ghost use Rattle.base.specs.Ranges.{holds_address};

    /// Whether it holds an address.
    pub fn contains(&self, addr: u32) -> bool
        ensures { result ≡ holds_address self.now addr }
    {
        let addr = i64::from(addr);
        self.base <= addr && addr < self.base + i64::from(self.size)
    }
}

/// A layout: lines of `size` bytes that begin at the addresses congruent to `offset` modulo `size`.
///
/// The size is a power of two from 4 to 1024, and the offset a multiple of 4 below it. Contracts
/// see both.
#[derive(Clone, Copy, PartialEq, Eq, Debug)]
pub struct Layout {
    size: u32,
    offset: u32,
}

impl Model for Layout {
    ghost use Rattle.std.specs.Prelude.{IsTrue};
    ghost use Rattle.base.specs.Lines.{Grid, is_layout};

    ghost Value = { Grid };

    ghost view = { λ l. record { size = l.size; offset = l.offset } };

    ghost invariant = { λ l. IsTrue (is_layout l.size l.offset) };

    ghost inverse = { λ g. record { size = g.size; offset = g.offset } };
}

impl Layout {
    ghost use Rattle.base.specs.Ranges.{IsLineOf, line_range};

    /// The layout of a line size in bytes and an offset: None exactly where the size is no power of
    /// two from 4 to 1024, or the offset no multiple of 4 below the size.
    pub fn new(size: u32, offset: u32) -> Option<Layout>
        ensures { SomeIff result (IsTrue (is_layout size offset))
            (record { size = size; offset = offset }) }
    {
        if !is_line_size(size) || offset >= size || offset % 4 != 0 {
            return None;
        }
        Some(Layout { size, offset })
    }

    /// The size of a line in bytes.
    pub fn size(&self) -> u32
        ensures value { result ≡ self.now.size }
        ensures allowed { IsTrue (is_layout self.now.size self.now.offset) }
    {
        self.size
    }

    /// Where lines begin, modulo the size.
    pub fn offset(&self) -> u32
        ensures { result ≡ self.now.offset }
    {
        self.offset
    }

    /// The number of an address's line: at most 2^30. Line 0 is the one that ends at the offset.
    pub fn number_of(&self, addr: u32) -> u64
        ensures value { result ≡ line_number self.now.size self.now.offset addr }
        ensures small { result ≤ 2 ^ 30 }
    {
        let size = u64::from(self.size);
        let place = u64::from(addr) + size - u64::from(self.offset);
        // Most lines have 64 bytes, and a shift takes less time than a division.
        if size == 64 { place / 64 } else { place / size }
    }

    /// The range of an address's line.
    pub fn line_of(&self, addr: u32) -> Range
        ensures value { result ≡ line_range self.now.size self.now.offset
            (line_number self.now.size self.now.offset addr) }
        ensures line { IsLineOf self.now.size self.now.offset addr result }
    {
        let end = self.number_of(addr) * u64::from(self.size) + u64::from(self.offset);
        Range {
            base: end.cast_signed() - i64::from(self.size),
            size: self.size,
        }
    }
}

// Whether lines may have this size.
fn is_line_size(size: u32) -> bool
    ensures { result ≡ Rattle.base.specs.Lines.is_line_size size }
{
    matches!(size, 4 | 8 | 16 | 32 | 64 | 128 | 256 | 512 | 1024)
}
