// Many pieces and a large one, calls that fail, and two files at a time.
ghost use Rattle.std.specs.Prelude.{◌≡◌, ◌≤◌, ◌∷◌, [], IfOk, codes, length};
ghost use Rattle.shelf.specs.MemoryShelf.{memory_outside};
ghost use Rattle.shelf.specs.OnTheirWay.{AreBegun, names_of};

use crate::held::{filler, holds, shelf_with};
use base::NoMemory;
use shelf::{Failing, MemoryShelf, Outputs, ShelfError};
use std::alloc::Global;

// One file, or two, that are begun.
fn one(alloc: Global, shelf: &mut MemoryShelf) -> Result<Outputs<'static>, ShelfError>
    ensures names { IfOk result (λ outputs. names_of outputs ≡ codes "a" ∷ []) }
    ensures count { IfOk result (λ outputs. length outputs ≡ 1) }
    ensures begun { IfOk result (λ outputs. AreBegun (names_of outputs)
        (memory_outside shelf.new)) }
{
    let mut outputs = Outputs::new(alloc);
    match outputs.begin(alloc, shelf, "a") {
        Ok(()) => Ok(outputs),
        Err(error) => Err(error),
    }
}

fn two(alloc: Global, shelf: &mut MemoryShelf) -> Result<Outputs<'static>, ShelfError>
    ensures count { IfOk result (λ outputs. length outputs ≡ 2) }
    ensures begun { IfOk result (λ outputs. AreBegun (names_of outputs)
        (memory_outside shelf.new)) }
{
    let mut outputs = match one(alloc, shelf) {
        Ok(outputs) => outputs,
        Err(error) => return Err(error),
    };
    match outputs.begin(alloc, shelf, "b") {
        Ok(()) => Ok(outputs),
        Err(error) => Err(error),
    }
}

// Puts two pieces to a first file. The answer is whether it is empty up to then.
fn put_two(
    outputs: &mut Outputs<'_>,
    shelf: &mut MemoryShelf,
    first: &[u8],
    second: &[u8],
) -> Result<bool, ShelfError>
    requires count { 1 ≤ length outputs.old }
    requires begun { AreBegun (names_of outputs.old) (memory_outside shelf.old) }
{
    outputs.put(shelf, 0, first)?;
    let is = holds(shelf, "a", b"");
    outputs.put(shelf, 0, second)?;
    Ok(is)
}

// Puts them to one file.
fn put_to_one(
    alloc: Global,
    shelf: &mut MemoryShelf,
    first: &[u8],
    second: &[u8],
) -> Result<bool, ShelfError> {
    let mut outputs = one(alloc, shelf)?;
    put_two(&mut outputs, shelf, first, second)
}

// Whether the first file is so long.
fn is_long(shelf: &MemoryShelf, count: usize) -> bool {
    match shelf.written("a") {
        Some(file) => file.len() == count,
        None => false,
    }
}

// Whether 64 KiB are written once the last 8 bytes of them come.
fn are_written(alloc: Global) -> Result<bool, NoMemory> {
    let almost = filler(alloc, 65_528)?;
    let mut shelf = shelf_with(alloc, b"", &[])?;
    let is = put_to_one(alloc, &mut shelf, &almost, b"8 bytes.") == Ok(true);
    Ok(is && is_long(&shelf, 65_536))
}

#[test]
fn bytes_go_to_the_file_once_there_are_64_kib(rt: HostRuntime) {
    assert!(rt; are_written(rt.alloc()) == Ok(true));
}

// Puts pieces to two files in turn.
fn put_three(
    outputs: &mut Outputs<'_>,
    shelf: &mut MemoryShelf,
    pieces: [&[u8]; 3],
) -> Result<(), ShelfError>
    requires count { length outputs.old ≡ 2 }
    requires begun { AreBegun (names_of outputs.old) (memory_outside shelf.old) }
    ensures { AreBegun (names_of outputs.new) (memory_outside shelf.new) }
{
    let [first, second, third] = pieces;
    outputs.put(shelf, 0, first)?;
    outputs.put(shelf, 1, second)?;
    outputs.put(shelf, 0, third)
}

// Whether nothing is written until the files are made whole, and what comes of that.
fn put_in_turn(
    alloc: Global,
    shelf: &mut MemoryShelf,
    pieces: [&[u8]; 3],
) -> Result<(bool, Result<(), ShelfError>), ShelfError> {
    let mut outputs = two(alloc, shelf)?;
    put_three(&mut outputs, shelf, pieces)?;
    let is = holds(shelf, "a", b"") && holds(shelf, "b", b"");
    Ok((is, outputs.finish(shelf)))
}

// Pieces that are put to two files in turn, what making the files whole answers, and the files.
struct Put {
    pieces: [&'static [u8]; 3],
    answer: Result<(), ShelfError>,
    files: [&'static [u8]; 2],
}

// Whether they are put so, where these calls fail.
fn are_put(alloc: Global, failing: &[Failing], row: &Put) -> Result<bool, NoMemory> {
    let mut shelf = shelf_with(alloc, b"", failing)?;
    let is = put_in_turn(alloc, &mut shelf, row.pieces) == Ok((true, row.answer));
    let [first, second] = row.files;
    Ok(is && holds(&shelf, "a", first) && holds(&shelf, "b", second))
}

const WHOLE: [Put; 2] = [
    Put {
        pieces: [b"one", b"", b" two"],
        answer: Ok(()),
        files: [b"one two", b""],
    },
    Put {
        pieces: [b"one", b"two", b"!"],
        answer: Ok(()),
        files: [b"one!", b"two"],
    },
];

#[test]
fn pieces_come_to_their_files_in_their_order(rt: HostRuntime) {
    for row in &WHOLE {
        assert!(rt; are_put(rt.alloc(), &[], row) == Ok(true));
    }
}

const CUT: Put = Put {
    pieces: [b"one two", b"three", b""],
    answer: Err(ShelfError::Failed),
    files: [b"one t", b""],
};

// The third call is the append to the first file.
#[test]
fn a_failing_append_leaves_fronts(rt: HostRuntime) {
    let failing = [Failing { call: 3, keep: 5 }];
    assert!(rt; are_put(rt.alloc(), &failing, &CUT) == Ok(true));
}
