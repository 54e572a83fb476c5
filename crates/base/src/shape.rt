// The shape of caches.
ghost use Rattle.std.specs.Prelude.{◌≡◌, ◌<◌, ◌≤◌, IsTrue};
ghost use Rattle.std.specs.Option.{SomeIff};
ghost use Rattle.base.specs.Shapes.{grid_of, is_shape};

use crate::layout::Layout;
use std::marker::Model;

/// The shape of a cache: its lines, its sets, and how many lines a set has room for. Contracts see
/// the size of a line in bytes, the number of sets and that of ways.
#[derive(Clone, Copy, PartialEq, Eq, Debug)]
pub struct Shape {
    layout: Layout,
    sets: u32,
    ways: u32,
}

impl Model for Shape {
    ghost use Rattle.std.specs.Prelude.{◌≡◌, IsTrue};
    ghost use Rattle.base.specs.Shapes.{CacheShape, is_shape};

    ghost Value = { CacheShape };

    ghost view = { λ s. record { size = s.layout.size; sets = s.sets; ways = s.ways } };

    ghost invariant = { λ s. (s.layout.offset ≡ 0)
        × IsTrue (is_shape (record { size = s.layout.size; sets = s.sets; ways = s.ways })) };

    ghost inverse = { λ k. record {
      layout = record { size = k.size; offset = 0 };
      sets = k.sets;
      ways = k.ways;
    } };
}

// Whether there may be so many sets.
fn is_set_count(sets: u32) -> bool
    ensures { result ≡ Rattle.base.specs.Shapes.is_set_count sets }
{
    matches!(sets, 1 | 2 | 4 | 8 | 16 | 32 | 64 | 128 | 256 | 512 | 1024)
}

impl Shape {
    /// The shape of caches of lines of `size` bytes, with `sets` sets of `ways` lines each: None
    /// exactly where the size is no power of two from 4 to 1024, the number of sets none from 1 to
    /// 1024, there are not 1 to 64 ways, or more than 4096 lines in all.
    pub fn new(size: u32, sets: u32, ways: u32) -> Option<Shape>
        ensures { SomeIff result
            (IsTrue (is_shape (record { size = size; sets = sets; ways = ways })))
            (record { size = size; sets = sets; ways = ways }) }
    {
        let layout = Layout::new(size, 0)?;
        if !is_set_count(sets) || ways < 1 || ways > 64 || sets * ways > 4096 {
            return None;
        }
        Some(Shape { layout, sets, ways })
    }

    /// The size of a line in bytes.
    pub fn size(&self) -> u32
        ensures value { result ≡ self.now.size }
        ensures allowed { IsTrue (is_shape self.now) }
    {
        self.layout.size()
    }

    /// How many sets a cache has.
    pub fn sets(&self) -> u32
        ensures value { result ≡ self.now.sets }
        ensures some { 0 < result }
        ensures few { result ≤ 1024 }
    {
        self.sets
    }

    /// How many lines a set has room for.
    pub fn ways(&self) -> u32
        ensures value { result ≡ self.now.ways }
        ensures some { 0 < result }
        ensures few { result ≤ 64 }
    {
        self.ways
    }

    /// The layout of the lines.
    pub fn layout(&self) -> Layout
        ensures { result ≡ grid_of self.now }
    {
        self.layout
    }
}
