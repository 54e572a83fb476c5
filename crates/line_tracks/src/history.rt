// One entry or two.
ghost use Rattle.std.specs.Prelude.{◌≡◌, ◌≢◌, ◌==◌, ℕ, Bool, [], ◌∷◌, ◌++◌, take, slice_get};
ghost use Rattle.std.specs.Prelude.{Some, IsTrue, IsFalse};
ghost use Rattle.std.specs.List.{list_any};
ghost use Rattle.std.specs.Option.{SomeIff};
ghost use Rattle.base.specs.Touch.{Touch, is_write};
ghost use Rattle.sharing_rules.specs.AccessLists.{AccessList, writes_to};
ghost use Rattle.sharing_rules.specs.Arrivals.{arrivals};
ghost use Rattle.sharing_rules.specs.Holders.{is_held_by_another};
ghost use Rattle.line_tracks.specs.Entries.{AreEntries, entries_after_read, has_another};

use base::Hart;
use std::marker::Model;

/// The first two harts that came to a line since its last write: one, or two that differ.
///
/// Contracts see their numbers as a list, in the order in which they came.
#[derive(Clone, Copy, PartialEq, Eq, Debug)]
pub struct History {
    // The number of the first, and 256 times one more than that of the second, if there is one: a
    // hart is alone where this is its number.
    both: u32,
}

impl Model for History {
    ghost use Rattle.std.specs.Prelude.{ℕ, List};

    ghost Value = { List ℕ };

    ghost use Rattle.line_tracks.specs.HistoryFields.{entries, AreDistinct, fields_of};

    ghost view = { entries };

    ghost invariant = { AreDistinct };

    ghost inverse = { fields_of };

    ghost use Rattle.line_tracks.specs.Laws.HistoryFields.{fields_back};

    ghost inverse_ok = { λ a h. fields_back a };
}

impl History {
    /// One hart alone.
    pub fn one(hart: Hart) -> History
        ensures { result ≡ hart ∷ [] }
    {
        History {
            both: u32::from(hart.number()),
        }
    }

    /// Two harts: None exactly where they are equal.
    pub fn two(first: Hart, second: Hart) -> Option<History>
        ensures { SomeIff result (first ≢ second) (first ∷ second ∷ []) }
    {
        if first == second {
            return None;
        }
        Some(History {
            both: u32::from(first.number()) + 256 * (u32::from(second.number()) + 1),
        })
    }

    /// The hart that came first. There is always one, and at most another.
    pub fn first(&self) -> Hart
        ensures value { slice_get self.now 0 ≡ Some result }
        ensures entries { AreEntries self.now }
    {
        Hart::of_byte((self.both % 256) as u8)
    }

    /// The hart that came second: None exactly where there is one entry.
    pub fn second(&self) -> Option<Hart>
        ensures { result ≡ slice_get self.now 1 }
    {
        if self.both / 256 == 0 {
            return None;
        }
        Some(Hart::of_byte((self.both / 256 - 1) as u8))
    }

    /// A read by a hart: it enters where it is not there and there is one entry.
    pub fn note_read(&mut self, hart: Hart)
        ensures exact { self.new ≡ entries_after_read self.old hart }
        // where they were the first two arrivals of a list that wrote the line, they are those of
        // the list with the read
        ensures arrived { (inside : ℕ → Bool) (t : AccessList) (a : Touch)
            → IsTrue (list_any (writes_to inside) t) → IsTrue (inside a.addr)
            → IsFalse (is_write a.kind) → a.hart ≡ hart
            → self.old ≡ take 2 (arrivals inside t)
            → self.new ≡ take 2 (arrivals inside (t ++ a ∷ [])) }
    {
        let number = u32::from(hart.number());
        if self.both / 256 == 0 && self.both != number {
            self.both += 256 * (number + 1);
        }
    }

    /// A write by a hart, which is alone afterwards: true exactly where it was not alone before.
    pub fn note_write(&mut self, hart: Hart) -> bool
        ensures alone { self.new ≡ hart ∷ [] }
        // whatever came before, they are the first two arrivals of the list with the write
        ensures arrived { (inside : ℕ → Bool) (t : AccessList) (a : Touch)
            → IsTrue (inside a.addr) → IsTrue (is_write a.kind) → a.hart ≡ hart
            → self.new ≡ take 2 (arrivals inside (t ++ a ∷ [])) }
        ensures another { result ≡ has_another self.old hart }
        // where they were the first two arrivals of a list that wrote the line, it says whether
        // another hart holds it
        ensures held { (line_of : ℕ → ℕ) (t : AccessList) (r : ℕ)
            → IsTrue (list_any (writes_to (λ addr. line_of addr == r)) t)
            → self.old ≡ take 2 (arrivals (λ addr. line_of addr == r) t)
            → result ≡ is_held_by_another line_of t hart r }
    {
        let is_shared = self.both != u32::from(hart.number());
        *self = History::one(hart);
        is_shared
    }
}
