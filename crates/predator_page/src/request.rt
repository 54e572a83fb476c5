// The words and the files of a request. Its fields stand one behind the other: a number is eight
// bytes, the lowest first; a text or a content is the number of its bytes, and then these. First
// the number of words and each word, then the number of files, and of each the name and the
// content.
use base::{behind, u64_at};
use shelf::HeldFile;
use std::alloc::{AllocError, AllocFailed, Global};
use std::str;

// Why no words and files are taken out of some bytes.
#[derive(Clone, Copy, PartialEq, Eq, Debug)]
pub(crate) enum RequestFault {
    // They are no request.
    Malformed,
    NoMemory,
}

impl From<AllocError> for RequestFault {
    fn from(_: AllocError) -> Self {
        RequestFault::NoMemory
    }
}

impl<T: Drop> From<AllocFailed<T>> for RequestFault {
    fn from(_: AllocFailed<T>) -> Self {
        RequestFault::NoMemory
    }
}

// The fields that are left.
#[derive(Drop)]
pub(crate) struct Fields<'a> {
    rest: &'a [u8],
}

impl<'a> Fields<'a> {
    pub(crate) fn new(bytes: &'a [u8]) -> Self {
        Fields { rest: bytes }
    }

    pub(crate) fn is_empty(&self) -> bool {
        self.rest.is_empty()
    }

    fn number(&mut self) -> Result<u64, RequestFault> {
        if self.rest.len() < 8 {
            return Err(RequestFault::Malformed);
        }
        let number = u64_at(self.rest, 0);
        self.rest = behind(self.rest, 8);
        Ok(number)
    }

    fn bytes(&mut self) -> Result<&'a [u8], RequestFault> {
        let count = self.number()?;
        if count > self.rest.len() as u64 {
            return Err(RequestFault::Malformed);
        }
        let (front, rest) = self.rest.split_at(count as usize);
        self.rest = rest;
        Ok(front)
    }

    fn text(&mut self, alloc: Global) -> Result<String, RequestFault> {
        let Ok(text) = str::from_utf8(self.bytes()?) else {
            return Err(RequestFault::Malformed);
        };
        Ok(String::from_str(alloc, text)?)
    }

    pub(crate) fn words(&mut self, alloc: Global) -> Result<Vec<String>, RequestFault> {
        let count = self.number()?;
        let mut words = Vec::new(alloc);
        for _ in 0..count {
            words.push(self.text(alloc)?)?;
        }
        Ok(words)
    }

    fn file(&mut self, alloc: Global) -> Result<HeldFile, RequestFault> {
        let name = self.text(alloc)?;
        let content = self.bytes()?.to_vec(alloc)?;
        Ok(HeldFile { name, content })
    }

    pub(crate) fn files(&mut self, alloc: Global) -> Result<Vec<HeldFile>, RequestFault> {
        let count = self.number()?;
        let mut files = Vec::new(alloc);
        for _ in 0..count {
            files.push(self.file(alloc)?)?;
        }
        Ok(files)
    }
}
