// The bytes of a reply, whose fields are written as those of a request: the number of the status,
// the printed text, the message, and up to the end the name and the content of each file that was
// written.
use shelf::MemoryShelf;
use std::alloc::{AllocError, Global};

#[derive(Drop)]
pub(crate) struct Reply {
    bytes: Vec<u8>,
}

// What a word may name: itself, or what stands behind its first `=`.
fn name_in(word: &str) -> &str {
    match word.split_once('=') {
        Some((_, name)) => name,
        None => word,
    }
}

impl Reply {
    pub(crate) fn new(alloc: Global) -> Self {
        Reply {
            bytes: Vec::new(alloc),
        }
    }

    pub(crate) fn add_number(&mut self, number: u64) -> Result<(), AllocError> {
        self.bytes.extend_from_slice(&number.to_le_bytes())
    }

    pub(crate) fn add_bytes(&mut self, bytes: &[u8]) -> Result<(), AllocError> {
        self.add_number(bytes.len() as u64)?;
        self.bytes.extend_from_slice(bytes)
    }

    // The content of a written file of this name, where there is one.
    fn add_written(&mut self, shelf: &MemoryShelf, name: &str) -> Result<(), AllocError> {
        if let Some(content) = shelf.written(name) {
            self.add_bytes(name.as_bytes())?;
            self.add_bytes(content)?;
        }
        Ok(())
    }

    // The files that were written, up to the end of the reply. Each has its name in a word.
    pub(crate) fn add_files(
        &mut self,
        shelf: &MemoryShelf,
        words: &[String],
    ) -> Result<(), AllocError> {
        for word in words {
            self.add_written(shelf, word.as_str())?;
            let name = name_in(word.as_str());
            if name.len() < word.len() {
                self.add_written(shelf, name)?;
            }
        }
        Ok(())
    }

    // As many of its bytes as there is room for; how many there are in all.
    pub(crate) fn give(&self, room: &mut [u8]) -> u64 {
        let count = self.bytes.len().min(room.len());
        room[..count].copy_from_slice(&self.bytes[..count]);
        self.bytes.len() as u64
    }
}
