// A whole file, read in pieces.
ghost use Rattle.std.specs.Prelude.{◌≡◌, ◌<◌, ◌≤◌, ◌+◌, ◌^◌, [], true, false, length, IfOk};
ghost use Rattle.std.specs.Prelude.{OnOk, IsErrOf};
ghost use Rattle.shelf.specs.Shelf.{content, Known, HasCauseAt, OnlyReads};
ghost use Rattle.shelf.specs.Fetch.{HasFetchCause, IsFront};

use crate::{Shelf, ShelfError};
use std::alloc::{AllocError, Global};

// The most bytes that are asked for at once.
const PIECE: usize = 65536;

/// Why a file was not fetched.
#[derive(Clone, Copy, Debug, PartialEq, Eq)]
pub enum FetchError {
    /// A read failed: the shelf's faults of reading this name rose in this call.
    ReadFault,
    /// The file has more bytes than the limit.
    TooLong,
    /// Memory ran out, the shelf's or this call's.
    NoMemory,
}

impl From<AllocError> for FetchError {
    ghost use Rattle.shelf.specs.declared.whole_file.FetchError.TheVariants.{NoMemory};

    ghost from_gives = { λ _ e. e ≡ NoMemory };

    fn from(_: AllocError) -> Self {
        FetchError::NoMemory
    }
}

impl From<ShelfError> for FetchError {
    ghost use Rattle.shelf.specs.Fetch.{fetch_error};

    ghost from_gives = { λ s e. e ≡ fetch_error s };

    fn from(error: ShelfError) -> Self {
        match error {
            ShelfError::Failed => FetchError::ReadFault,
            ShelfError::NoMemory => FetchError::NoMemory,
        }
    }
}

// A buffer of some bytes. (The length is a parameter, since a proof would write out a list of a
// known length.)
fn buffer_of(alloc: Global, count: usize) -> Result<Vec<u8>, AllocError>
    ensures { IfOk result (λ buffer. length buffer.items ≡ count) }
{
    Vec::from_elem(alloc, 0u8, count)
}

// Adds the next piece of the file to its front, and answers whether there was one.
fn read_piece<S: Shelf>(
    shelf: &mut S,
    name: &str,
    bytes: &mut Vec<u8>,
    piece: &mut [u8],
) -> Result<bool, ShelfError>
    requires room { 0 < length piece.old }
    requires front { Known (S.outside shelf.old).held
        (λ files. IsFront (content files name.now) bytes.old.items) }
    ensures more { IfOk result (λ more. more ≡ true
        → length bytes.old.items < length bytes.new.items) }
    ensures at_most { length bytes.new.items ≤ length bytes.old.items + length piece.old }
    ensures front { OnOk result (Known (S.outside shelf.new).held
        (λ files. IsFront (content files name.now) bytes.new.items)) }
    ensures all { IfOk result (λ more. more ≡ false → Known (S.outside shelf.new).held
        (λ files. bytes.new.items ≡ content files name.now)) }
    ensures bytes_stay { IfOk result (λ more. more ≡ false → bytes.new.items ≡ bytes.old.items) }
    ensures cause { HasCauseAt name.now
        (S.outside shelf.old).read_faults (S.outside shelf.new).read_faults result }
    ensures only { OnlyReads (S.outside shelf.old) (S.outside shelf.new) }
{
    let count = shelf.read_at(name, bytes.len() as u64, piece)?;
    if count == 0 {
        return Ok(false);
    }
    bytes.extend_from_slice(&piece[..count])?;
    Ok(true)
}

// Reads the file piece by piece into bytes that are empty at first, until it ends or there are more
// than `limit`, and answers whether it ended.
fn read_pieces<S: Shelf>(
    shelf: &mut S,
    name: &str,
    limit: u64,
    bytes: &mut Vec<u8>,
    piece: &mut [u8],
) -> Result<bool, ShelfError>
    requires limit { limit < 2 ^ 63 }
    requires room { 0 < length piece.old }
    requires empty { bytes.old.items ≡ [] }
    ensures all { IfOk result (λ all. all ≡ true → Known (S.outside shelf.new).held
        (λ files. bytes.new.items ≡ content files name.now)) }
    ensures within { IfOk result (λ all. all ≡ true → length bytes.new.items ≤ limit) }
    ensures too_long { IfOk result (λ all. all ≡ false → Known (S.outside shelf.new).held
        (λ files. limit < length (content files name.now))) }
    ensures cause { HasCauseAt name.now
        (S.outside shelf.old).read_faults (S.outside shelf.new).read_faults result }
    ensures only { OnlyReads (S.outside shelf.old) (S.outside shelf.new) }
{
    while bytes.len() as u64 <= limit {
        let room = limit + 1 - bytes.len() as u64;
        let most = room.min(piece.len() as u64) as usize;
        if !read_piece(shelf, name, bytes, &mut piece[..most])? {
            return Ok(true);
        }
    }
    Ok(false)
}

/// The whole held file of a name, of at most `limit` bytes, read in pieces of at most 64 KiB. The
/// condition is a limit below 2^63.
///
/// `ReadFault` comes only where the shelf's faults of reading this name rose in this call;
/// `TooLong` exactly where the shelf gave `limit + 1` bytes, which where the shelf's files are
/// still known are the bytes of a longer one; `NoMemory` for want of memory. Nothing of the shelf
/// changes but its faults of reading, which stay at each other answer than `ReadFault`, and that
/// its files may be known no more.
pub fn fetch<S: Shelf>(
    alloc: Global,
    shelf: &mut S,
    name: &str,
    limit: u64,
) -> Result<Vec<u8>, FetchError>
    requires { limit < 2 ^ 63 }
    // What is given are the held bytes, all of them.
    ensures whole { IfOk result (λ bytes. Known (S.outside shelf.new).held
        (λ files. bytes.items ≡ content files name.now)) }
    ensures within { IfOk result (λ bytes. length bytes.items ≤ limit) }
    ensures too_long { IsErrOf result FetchError.TooLong → Known (S.outside shelf.new).held
        (λ files. limit < length (content files name.now)) }
    // A fault of reading has its cause, and no number rises with another answer.
    ensures cause { HasFetchCause name.now (S.outside shelf.old) (S.outside shelf.new) result }
    ensures only { OnlyReads (S.outside shelf.old) (S.outside shelf.new) }
{
    let mut bytes = Vec::new(alloc);
    let mut piece = buffer_of(alloc, PIECE)?;
    if read_pieces(shelf, name, limit, &mut bytes, &mut piece)? {
        Ok(bytes)
    } else {
        Err(FetchError::TooLong)
    }
}
