// What the reads of a shelf have given: a list that only proofs read. It takes no memory, and
// nothing is done for it when the program runs.
ghost use Rattle.std.specs.Prelude.{◌≡◌, List, [], ◌∷◌};
ghost use Rattle.std.specs.Borrow.{ftrue};
ghost use Rattle.shelf.specs.Shelf.{Given};

use std::marker::Model;

// A file was read from a place on, into so much room, and these bytes were given.
#[derive(Drop)]
pub(crate) struct ReadBytes<'a> {
    pub(crate) name: &'a str,
    pub(crate) at: u64,
    pub(crate) room: usize,
    pub(crate) bytes: &'a [u8],
}

// A clause reads what was given as `items`, the latest first.
#[derive(Drop)]
pub(crate) struct ReadLog {
    pub ghost items: { List Given },
}

impl Model for ReadLog {
    ghost also_owns = { λ _. ftrue };
}

impl ReadLog {
    ghost use Rattle.shelf.specs.ReadLog.{given_in};

    // Nothing was given yet.
    pub(crate) fn new() -> ReadLog
        ensures { result.items ≡ [] }
    {
        ReadLog {}
    }

    // This was given too.
    pub(crate) fn and(&self, read: &ReadBytes<'_>) -> ReadLog
        ensures { result.items ≡ given_in read.now ∷ self.now.items }
    {
        ReadLog {}
    }
}
