// What is kept of the harts that came to a line, in the order in which they came: a list that only
// proofs read. It takes no memory, and nothing is done for it when the program runs.
ghost use Rattle.std.specs.Prelude.{◌≡◌, ℕ, List, [], nat_eq};
ghost use Rattle.std.specs.Borrow.{ftrue};
ghost use Rattle.indexmap.specs.IndexMap.{insert_entry};
ghost use Rattle.misses.specs.declared.line_misses.Visits.{Visits};

use crate::seat::Seat;
use std::marker::Model;

/// A clause reads who came, and with which visits, as `items`.
#[derive(Drop)]
pub struct Comers {
    pub ghost items: { List (ℕ × Visits) },
}

impl Model for Comers {
    ghost also_owns = { λ _. ftrue };
}

impl Comers {
    /// Nobody came yet.
    pub fn new() -> Comers
        ensures { result.items ≡ [] }
    {
        Comers {}
    }

    /// The hart of a seat came too, or has these visits now.
    pub fn and(&self, seat: &Seat) -> Comers
        ensures { result.items ≡ insert_entry nat_eq self.now.items seat.now.0 seat.now.1 }
    {
        Comers {}
    }
}
