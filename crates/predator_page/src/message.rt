// What is said of a call that didn't end well, as the program says it on standard error.
use command_io::{Status, advice_for, file_to_look_at};
use command_line::{WordsFault, read_words};
use shelf::{MemoryShelf, Shelf};
use std::alloc::{AllocError, Global};

// As much of a file's beginning is looked at.
const LONGEST_FRONT: usize = 65536;

// The beginning of a file.
fn front_of(alloc: Global, shelf: &mut MemoryShelf, name: &str) -> Result<Vec<u8>, AllocError> {
    let mut front = Vec::from_elem(alloc, 0u8, LONGEST_FRONT)?;
    let count = shelf.read_at(name, 0, &mut front).unwrap_or(0);
    front.truncate(count);
    Ok(front)
}

// What is wrong and what to do next, where there is something to say.
pub(crate) fn message_of(
    alloc: Global,
    words: &[String],
    status: &Status,
    shelf: &mut MemoryShelf,
) -> Result<Option<String>, AllocError> {
    match read_words(alloc, words) {
        Ok(demand) => {
            let front = match file_to_look_at(&demand, status) {
                Some(name) => front_of(alloc, shelf, name)?,
                None => Vec::new(alloc),
            };
            advice_for(alloc, &demand, status, &front)
        }
        Err(WordsFault::Usage(reason)) => Ok(Some(reason.text(alloc)?)),
        Err(WordsFault::NoMemory) => Ok(None),
    }
}
