// What the harts have reserved.
ghost use Rattle.std.specs.Prelude.{◌≡◌, ◌<◌, length, replicate, None, Some, IfOk, slice_set};
ghost use Rattle.rv32_hart.specs.Reserved.{held_by, released};

use base::{Hart, NoMemory};
use std::alloc::Global;
use std::marker::Model;

/// The word that each hart has reserved, by its address, if it has one. Contracts see the list.
///
/// A write looks through them only where some hart has a reservation.
#[derive(Drop)]
pub struct Reservations {
    words: Vec<Option<u32>>,
    count: usize,
}

impl Model for Reservations {
    ghost use Rattle.std.specs.Prelude.{◌≡◌, ◌<◌, ◌^◌, ℕ, List, Option, length};
    ghost use Rattle.rv32_hart.specs.Reserved.{count_held};

    ghost Value = { List (Option ℕ) };

    ghost view = { λ r. r.words.items };

    ghost invariant = { λ r. (r.count ≡ count_held r.words.items)
        × (length r.words.items < 2 ^ 16) };
}

impl Reservations {
    /// None held, for harts 0 to `harts` - 1.
    pub fn new(alloc: Global, harts: u16) -> Result<Reservations, NoMemory>
        ensures { IfOk result (λ r. r ≡ replicate harts None) }
    {
        let words = vec![in alloc; None; usize::from(harts)]?;
        Ok(Reservations { words, count: 0 })
    }

    /// For how many harts there are reservations.
    pub fn harts(&self) -> u16
        ensures { result ≡ length self.now }
    {
        self.words.len() as u16
    }

    /// The address that a hart has reserved. A hart past the last has none.
    pub fn held(&self, hart: Hart) -> Option<u32>
        ensures { result ≡ held_by self.now hart }
    {
        let word = self.words.get(usize::from(hart.number()))?;
        *word
    }

    /// Ends a hart's reservation. For a hart past the last it changes nothing.
    pub fn clear(&mut self, hart: Hart)
        ensures { self.new ≡ slice_set self.old hart None }
    {
        let place = usize::from(hart.number());
        if place < self.words.len() {
            self.set(place, None);
        }
    }

    /// Reserves a word for a hart.
    pub(crate) fn reserve(&mut self, hart: Hart, word: u32)
        requires { hart < length self.old }
        ensures { self.new ≡ slice_set self.old hart (Some word) }
    {
        self.set(usize::from(hart.number()), Some(word));
    }

    /// Ends the reservations of a word that harts other than its writer have.
    #[inline(always)]
    #[tactic(auto, using(crate::proofs::Releases::released_none))]
    pub(crate) fn release(&mut self, hart: Hart, word: u32)
        requires { hart < length self.old }
        ensures { self.new ≡ released hart word self.old }
    {
        if self.count > 0 {
            self.end_others(usize::from(hart.number()), word);
        }
    }

    #[inline(never)]
    #[tactic(auto, using(crate::proofs::Releases::released_by_hart))]
    fn end_others(&mut self, writer: usize, word: u32)
        requires { writer < length self.old }
        ensures { self.new ≡ released writer word self.old }
    {
        for other in 0..self.words.len() {
            if other != writer && self.words[other] == Some(word) {
                self.set(other, None);
            }
        }
    }

    fn set(&mut self, hart: usize, word: Option<u32>)
        requires { hart < length self.old }
        ensures { self.new ≡ slice_set self.old hart word }
    {
        if self.words[hart].is_some() {
            self.count -= 1;
        }
        if word.is_some() {
            self.count += 1;
        }
        self.words[hart] = word;
    }
}
