// Files with names in a list: the first of a name counts.
ghost use Rattle.std.specs.Prelude.{◌≡◌, ◌-◌, ◌↔◌, min, List, ℕ, [], Some, length, OnOk};
ghost use Rattle.std.specs.Prelude.{OnErr, IsOkUnless, IfSome, IsSome, position};
ghost use Rattle.std.specs.Option.{option_copied};
ghost use Rattle.std.specs.Io.KnownBytes.{Appends};
ghost use Rattle.shelf.specs.Shelf.{content, ChangesAt, Reads};
ghost use Rattle.shelf.specs.HeldFile.{is_named, file_of};

use crate::ShelfError;
use std::alloc::Global;

/// A file with its name.
#[derive(Drop)]
pub struct HeldFile {
    pub name: String,
    pub content: Vec<u8>,
}

// Where the file of a name stands.
fn index_of_file(files: &[HeldFile], name: &str) -> Option<usize>
    ensures { result ≡ position (is_named name.now) files.now }
{
    files.iter().position(|file| file.name.as_str() == name)
}

// Copies bytes from a place on, as many as there are and have room, and answers how many.
fn copy_from(content: &[u8], at: u64, into: &mut [u8]) -> usize
    ensures count { result ≡ min (length content.now - at) (length into.new) }
    ensures reads { Reads content.now at result into.new }
{
    let at = at as usize;
    if at >= content.len() {
        return 0;
    }
    let rest = &content[at..];
    let count = rest.len().min(into.len());
    into[..count].copy_from_slice(&rest[..count]);
    count
}

// Reads the file of a name, if there is one.
pub(crate) fn read_file(files: &[HeldFile], name: &str, at: u64, into: &mut [u8]) -> Option<usize>
    ensures count { IfSome result (λ count. count
        ≡ min (length (content (file_of files.now) name.now) - at) (length into.new)) }
    ensures reads { IfSome result
        (λ count. Reads (content (file_of files.now) name.now) at count into.new) }
    ensures found { IsSome result ↔ IsSome (file_of files.now name.now) }
{
    match index_of_file(files, name) {
        Some(place) => Some(copy_from(&files[place].content, at, into)),
        None => None,
    }
}

// The bytes of the file of a name.
pub(crate) fn bytes_of<'a>(files: &'a [HeldFile], name: &str) -> Option<&'a [u8]>
    ensures { option_copied result ≡ file_of files.now name.now }
{
    match index_of_file(files, name) {
        Some(place) => Some(&files[place].content),
        None => None,
    }
}

// Makes the file of a name empty. Without memory, nothing changes.
pub(crate) fn begin_file(
    alloc: Global,
    files: &mut Vec<HeldFile>,
    name: &str,
) -> Result<(), ShelfError>
    ensures ok { OnOk result (ChangesAt name.now (λ _ new. new ≡ Some [])
        (file_of files.old.items) (file_of files.new.items)) }
    ensures err { OnErr result (files.new.items ≡ files.old.items) }
    ensures memory { IsOkUnless result ShelfError.NoMemory }
{
    if let Some(place) = index_of_file(files, name) {
        files[place].content.clear();
        return Ok(());
    }
    let name = String::from_str(alloc, name)?;
    files.push(HeldFile {
        name,
        content: Vec::new(alloc),
    })?;
    Ok(())
}

// Adds a piece to the file of a name. Without memory, nothing changes.
pub(crate) fn append_to(
    files: &mut Vec<HeldFile>,
    name: &str,
    piece: &[u8],
) -> Result<(), ShelfError>
    requires { IsSome (file_of files.old.items name.now) }
    ensures ok { OnOk result (ChangesAt name.now (λ old new. Appends old new piece.now)
        (file_of files.old.items) (file_of files.new.items)) }
    ensures err { OnErr result
        ((n : List ℕ) → file_of files.new.items n ≡ file_of files.old.items n) }
    ensures memory { IsOkUnless result ShelfError.NoMemory }
{
    if let Some(place) = index_of_file(files, name) {
        files[place].content.extend_from_slice(piece)?;
    }
    Ok(())
}
