// What a shelf of the system's files has done, and which of its calls failed: a list that only proofs
// read. It takes no memory, and nothing is done for it when the program runs.
ghost use Rattle.std.specs.Prelude.{◌≡◌, List, [], ◌∷◌};
ghost use Rattle.std.specs.Borrow.{ftrue};
ghost use Rattle.disk_shelf.specs.Done.{Done};

use shelf::ShelfError;
use std::marker::Model;

/// A call of the system, and how it was answered.
#[derive(Drop)]
pub enum Call<'a> {
    /// A file was read from a place on, into so much room, and these bytes were given.
    Read {
        name: &'a str,
        at: u64,
        room: usize,
        bytes: &'a [u8],
    },
    /// A file was made empty.
    Begin {
        name: &'a str,
    },
    /// A piece was added to a file.
    Append {
        name: &'a str,
        piece: &'a [u8],
    },
    /// A piece was printed.
    Print {
        piece: &'a [u8],
    },
    /// Reading a file failed so.
    ReadFailed {
        name: &'a str,
        error: ShelfError,
    },
    /// Writing a file failed so.
    WriteFailed {
        name: &'a str,
        error: ShelfError,
    },
    /// Printing failed so.
    PrintFailed {
        error: ShelfError,
    },
}

/// A clause reads what was done as `items`, the latest first.
#[derive(Drop)]
pub struct Log {
    pub ghost items: { List Done },
}

impl Model for Log {
    ghost also_owns = { λ _. ftrue };
}

impl Log {
    ghost use Rattle.disk_shelf.specs.Calls.{done_in};

    /// Nothing was done yet.
    pub fn new() -> Log
        ensures { result.items ≡ [] }
    {
        Log {}
    }

    /// This call was made too.
    pub fn and(&self, call: &Call<'_>) -> Log
        ensures { result.items ≡ done_in call.now ∷ self.now.items }
    {
        Log {}
    }
}
