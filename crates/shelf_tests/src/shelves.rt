// Each call that takes memory, once with ample memory, and what a failing call keeps.
ghost use Rattle.std.specs.Prelude.{◌<◌, ◌^◌};

use crate::held::{filler, holds, one_file, shelf_with};
use base::NoMemory;
use shelf::{Failing, FetchError, MemoryShelf, NeverFails, Shelf, ShelfError, fetch};
use std::alloc::{AllocError, Global};
use std::test::Fail;

// The errors of calls that write two pieces to the file `a`, once it is begun, and print a text.
fn puts(
    shelf: &mut MemoryShelf,
    first: &[u8],
    second: &[u8],
    text: &[u8],
) -> Result<[Option<ShelfError>; 3], ShelfError> {
    match shelf.begin("a") {
        Ok(()) => {}
        Err(error) => return Err(error),
    }
    let one = shelf.append("a", first).err();
    let two = shelf.append("a", second).err();
    Ok([one, two, shelf.print(text).err()])
}

// Two pieces that are written, a text that is printed, and the errors and the file that this gives.
struct KeptPieces {
    pieces: [&'static [u8]; 2],
    text: &'static [u8],
    errors: [Option<ShelfError>; 3],
    file: &'static [u8],
}

// Whether a shelf of whose calls these fail keeps so much.
fn is_kept(alloc: Global, failing: &[Failing], kept: &KeptPieces) -> Result<bool, NoMemory> {
    let mut shelf = shelf_with(alloc, b"hello", failing)?;
    let [first, second] = kept.pieces;
    let is = puts(&mut shelf, first, second, kept.text) == Ok(kept.errors);
    let is_read = shelf.written("t").is_none();
    Ok(is && is_read && holds(&shelf, "a", kept.file) && shelf.printed() == kept.text)
}

const ALL: KeptPieces = KeptPieces {
    pieces: [b"one", b" two"],
    text: b"done",
    errors: [None, None, None],
    file: b"one two",
};

#[test]
fn a_memory_shelf_keeps_what_is_written_and_printed(rt: HostRuntime) {
    assert!(rt; is_kept(rt.alloc(), &[], &ALL) == Ok(true));
}

// Whether the file's end is read, and no more.
fn is_end_read(alloc: Global) -> Result<bool, NoMemory> {
    let mut shelf = shelf_with(alloc, b"hello", &[])?;
    let mut into = [0u8; 3];
    Ok(shelf.read_at("t", 3, &mut into) == Ok(2) && into == [b'l', b'o', 0])
}

#[test]
fn a_file_is_read_from_a_place_on(rt: HostRuntime) {
    assert!(rt; is_end_read(rt.alloc()) == Ok(true));
}

const FAILING: [Failing; 3] = [
    Failing { call: 2, keep: 3 },
    Failing { call: 2, keep: 1 },
    Failing { call: 4, keep: 9 },
];

const SOME: KeptPieces = KeptPieces {
    pieces: [b"hello", b"p"],
    text: b"text",
    errors: [Some(ShelfError::Failed), None, Some(ShelfError::Failed)],
    file: b"help",
};

#[test]
fn a_failing_call_keeps_what_its_first_entry_says(rt: HostRuntime) {
    assert!(rt; is_kept(rt.alloc(), &FAILING, &SOME) == Ok(true));
}

// How many bytes are fetched of a file.
fn fetched<S: Shelf>(
    alloc: Global,
    shelf: &mut S,
    name: &str,
    limit: u64,
) -> Result<usize, FetchError>
    requires { limit < 2 ^ 63 }
{
    Ok(fetch(alloc, shelf, name, limit)?.len())
}

// Whether these bytes are fetched of a file.
fn is_fetched(alloc: Global, shelf: &mut MemoryShelf, limit: u32, bytes: &[u8]) -> bool {
    match fetch(alloc, shelf, "t", u64::from(limit)) {
        Ok(content) => content.as_slice() == bytes,
        Err(_) => false,
    }
}

#[test]
fn a_file_is_fetched_whole_up_to_the_limit(rt: HostRuntime) -> Result<(), Fail> {
    let alloc = rt.alloc();
    let mut shelf = shelf_with(alloc, b"hello", &[])?;
    assert!(rt; is_fetched(alloc, &mut shelf, 5, b"hello"));
    assert!(rt; fetched(alloc, &mut shelf, "t", 4) == Err(FetchError::TooLong));
    assert!(rt; fetched(alloc, &mut shelf, "u", 5) == Err(FetchError::ReadFault));
    Ok(())
}

// A shelf with a file of so many bytes.
fn shelf_of_length(alloc: Global, count: usize) -> Result<NeverFails, AllocError> {
    let content = filler(alloc, count)?;
    Ok(NeverFails::new(one_file(alloc, &content)?))
}

#[test]
fn a_file_of_several_pieces_is_fetched_whole(rt: HostRuntime) -> Result<(), Fail> {
    let alloc = rt.alloc();
    let mut shelf = shelf_of_length(alloc, 150_000)?;
    assert!(rt; fetched(alloc, &mut shelf, "t", 150_000) == Ok(150_000));
    assert!(rt; fetched(alloc, &mut shelf, "t", 149_999) == Err(FetchError::TooLong));
    Ok(())
}

// Writes a file `a` and prints a text.
fn put_on(shelf: &mut NeverFails) -> Result<(), ShelfError> {
    shelf.begin("a")?;
    shelf.append("a", b"one")?;
    shelf.print(b"done")
}

#[test]
fn a_shelf_that_never_fails_keeps_nothing(rt: HostRuntime) -> Result<(), Fail> {
    let alloc = rt.alloc();
    let mut shelf = NeverFails::new(one_file(alloc, b"hello")?);
    assert!(rt; put_on(&mut shelf).is_ok());
    assert!(rt; fetched(alloc, &mut shelf, "t", 5) == Ok(5));
    assert!(rt; fetched(alloc, &mut shelf, "a", 5) == Ok(0));
    Ok(())
}
