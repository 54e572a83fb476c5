// Accesses that a guest has made, kept until a caller takes them.
ghost use Rattle.std.specs.Prelude.{◌≡◌, ◌<◌, ◌≤◌, ◌↔◌, ◌++◌, ◌∷◌, [], IfOk, IsTrue, length};

use crate::Touched;
use base::{Access, Hart, Kind, NoMemory};
use std::alloc::Global;
use std::marker::Model;

// How many there are places for.
const MOST_TOUCHES: usize = 256;

/// Accesses, each with the pc of its instruction, in the order in which they were made: 256 at
/// most.
///
/// Contracts see the list of them.
#[derive(Drop)]
pub struct Touches {
    places: Vec<Touched>,
    count: usize,
}

impl Model for Touches {
    ghost use Rattle.std.specs.Prelude.{◌≡◌, ◌≤◌, List, length, take};
    ghost use Rattle.guest.specs.declared.turn.Touched.{Touched};

    ghost Value = { List Touched };

    ghost view = { λ t. take t.count t.places.items };

    ghost invariant = { λ t. (length t.places.items ≡ 256) × (t.count ≤ 256) };
}

// So many places, with what is never read.
fn blank_places(alloc: Global, count: usize) -> Result<Vec<Touched>, NoMemory>
    ensures { IfOk result (λ places. length places.items ≡ count) }
{
    let hart = Hart::new(0).unwrap();
    let access = Access::new(hart, 0, Kind::Read, 4).unwrap();
    let blank = Touched { access, pc: 0 };
    Ok(vec![in alloc; blank; count]?)
}

impl Touches {
    /// None yet. It takes memory for all that there may be.
    pub fn new(alloc: Global) -> Result<Touches, NoMemory>
        ensures { IfOk result (λ touches. touches ≡ []) }
    {
        match blank_places(alloc, MOST_TOUCHES) {
            Ok(places) => Ok(Touches { places, count: 0 }),
            Err(refused) => Err(refused),
        }
    }

    /// Forgets them all.
    #[inline(always)]
    pub fn clear(&mut self)
        ensures { self.new ≡ [] }
    {
        self.count = 0;
    }

    /// How many there are.
    #[inline(always)]
    pub fn len(&self) -> usize
        ensures value { result ≡ length self.now }
        ensures most { result ≤ 256 }
    {
        self.count
    }

    /// Whether there is a place for one more.
    #[inline(always)]
    pub fn has_room(&self) -> bool
        ensures { IsTrue result ↔ (length self.now < 256) }
    {
        self.count < MOST_TOUCHES
    }

    /// Puts an access behind the others.
    #[inline(always)]
    pub fn put(&mut self, touched: Touched)
        requires { length self.old < 256 }
        ensures { self.new ≡ self.old ++ touched ∷ [] }
    {
        self.places[self.count] = touched;
        self.count += 1;
    }

    /// All of them.
    #[inline]
    pub fn all(&self) -> &[Touched]
        ensures { result.now ≡ self.now }
    {
        &self.places[..self.count]
    }
}
