// Shelves that hold one file.
use base::NoMemory;
use shelf::{Failing, HeldFile, MemoryShelf};
use std::alloc::{AllocError, Global};

// One file `t` that holds these bytes.
pub(crate) fn one_file(alloc: Global, content: &[u8]) -> Result<Vec<HeldFile>, AllocError> {
    let file = HeldFile {
        name: String::from_str(alloc, "t")?,
        content: content.to_vec(alloc)?,
    };
    let mut files = Vec::new(alloc);
    files.push(file)?;
    Ok(files)
}

// A shelf that holds these bytes under `t`, of whose calls these fail.
pub(crate) fn shelf_with(
    alloc: Global,
    content: &[u8],
    failing: &[Failing],
) -> Result<MemoryShelf, NoMemory> {
    let files = one_file(alloc, content)?;
    MemoryShelf::new(alloc, files, failing.to_vec(alloc)?)
}

// Whether these bytes were written under the name.
pub(crate) fn holds(shelf: &MemoryShelf, name: &str, bytes: &[u8]) -> bool {
    match shelf.written(name) {
        Some(file) => file == bytes,
        None => false,
    }
}

// So many bytes.
pub(crate) fn filler(alloc: Global, count: usize) -> Result<Vec<u8>, AllocError> {
    Vec::from_elem(alloc, b'x', count)
}
