// The content of a file, as a case spells it line by line.
use crate::trouble::Trouble;
use crate::words::{byte_of, hexadecimal, short_number};
use std::alloc::{AllocError, Global};
use std::str::SplitWhitespace;

// How its lines spell it.
#[derive(Clone, Copy, PartialEq, Eq)]
pub(crate) enum Form {
    // Each line as it is, with a line feed.
    Text,
    // Bytes of two hexadecimal digits.
    Bytes,
    // A trace of 8 harts: a line for each record. `W0 1000` and `R12 10fe 2` are a write of 4 bytes
    // by hart 0 at 0x1000, and a read of 2 bytes by hart 12; `alloc 2000 24 10018 1000c` is a block
    // of 24 bytes at 0x2000 with two call sites; `free 2000` frees it; `symbol function 10000 40
    // main` and `symbol object 2000 4 x` are symbols of 40 and 4 bytes.
    Trace,
}

// What is spelled so far.
#[derive(Drop)]
pub(crate) struct Content {
    form: Form,
    bytes: Vec<u8>,
    accesses: u64,
}

// `PRDTRC01`, the first position 0, 8 harts.
const HEADER: [u8; 20] = [
    0x50, 0x52, 0x44, 0x54, 0x52, 0x43, 0x30, 0x31, 0, 0, 0, 0, 0, 0, 0, 0, 8, 0, 0, 0,
];

// An access, as its record states it.
#[derive(Clone, Copy)]
struct Touch {
    tag: u8,
    hart: u16,
    addr: u32,
    size: u8,
}

// The tag of an access's record, and the digits of its hart: `W0` is a write by hart 0.
fn tag_of(word: &str) -> Option<(u8, &str)> {
    match word.strip_prefix('R') {
        Some(hart) => Some((1, hart)),
        None => Some((2, word.strip_prefix('W')?)),
    }
}

// The access that these words spell, the first of them apart.
fn touch_of(word: &str, mut words: SplitWhitespace<'_>) -> Option<Touch> {
    let (tag, hart) = tag_of(word)?;
    let hart = hart.parse().ok()?;
    let addr = hexadecimal(words.next()?)?;
    let size = words.next().unwrap_or("4").parse().ok()?;
    Some(Touch {
        tag,
        hart,
        addr,
        size,
    })
}

// The number of a kind of symbols.
fn kind_of(word: &str) -> Option<u8> {
    match word {
        "object" => Some(1),
        "function" => Some(2),
        _ => None,
    }
}

impl Content {
    // The content that no line has spelled yet.
    pub(crate) fn new(alloc: Global, form: Form) -> Result<Self, AllocError> {
        let mut bytes = Vec::new(alloc);
        if form == Form::Trace {
            bytes.extend_from_slice(&HEADER)?;
        }
        Ok(Content {
            form,
            bytes,
            accesses: 0,
        })
    }

    // Adds what a line spells.
    pub(crate) fn add(&mut self, line: &str) -> Result<(), Trouble> {
        match self.form {
            Form::Text => self.add_text(line)?,
            Form::Bytes => self.add_bytes(line)?,
            Form::Trace => self.add_record(line)?,
        }
        Ok(())
    }

    fn add_text(&mut self, line: &str) -> Result<(), Trouble> {
        self.bytes.extend_from_slice(line.as_bytes())?;
        self.bytes.push(b'\n')?;
        Ok(())
    }

    fn add_bytes(&mut self, line: &str) -> Result<(), Trouble> {
        for word in line.split_whitespace() {
            self.bytes.push(byte_of(word).ok_or(Trouble::BadLine)?)?;
        }
        Ok(())
    }

    fn add_record(&mut self, line: &str) -> Result<(), Trouble> {
        let mut words = line.split_whitespace();
        match words.next() {
            Some("alloc") => self.add_alloc(words),
            Some("free") => self.add_free(words),
            Some("symbol") => self.add_symbol(words),
            Some(word) => match touch_of(word, words) {
                Some(access) => Ok(self.add_access(access)?),
                None => Err(Trouble::BadLine),
            },
            None => Err(Trouble::BadLine),
        }
    }

    fn add_alloc(&mut self, mut words: SplitWhitespace<'_>) -> Result<(), Trouble> {
        self.bytes.push(3)?;
        self.add_addr(words.next())?;
        self.add_size(words.next())?;
        for _ in 0..4 {
            let site = words.next();
            self.add_addr(Some(site.unwrap_or("0")))?;
        }
        Ok(())
    }

    fn add_free(&mut self, mut words: SplitWhitespace<'_>) -> Result<(), Trouble> {
        self.bytes.push(4)?;
        self.add_addr(words.next())
    }

    fn add_symbol(&mut self, mut words: SplitWhitespace<'_>) -> Result<(), Trouble> {
        let kind = words.next().and_then(kind_of).ok_or(Trouble::BadLine)?;
        self.bytes.extend_from_slice(&[5, kind])?;
        self.add_addr(words.next())?;
        self.add_size(words.next())?;
        self.add_name(words.next())
    }

    // A name, and the number of its bytes before it.
    fn add_name(&mut self, word: Option<&str>) -> Result<(), Trouble> {
        let name = word.ok_or(Trouble::BadLine)?;
        let length = u16::try_from(name.len()).ok().ok_or(Trouble::BadLine)?;
        self.bytes.extend_from_slice(&length.to_le_bytes())?;
        self.bytes.extend_from_slice(name.as_bytes())?;
        Ok(())
    }

    // An address of hexadecimal digits.
    fn add_addr(&mut self, word: Option<&str>) -> Result<(), Trouble> {
        let addr = word.and_then(hexadecimal).ok_or(Trouble::BadLine)?;
        self.bytes.extend_from_slice(&addr.to_le_bytes())?;
        Ok(())
    }

    // A number of bytes, in decimal digits.
    fn add_size(&mut self, word: Option<&str>) -> Result<(), Trouble> {
        let size = word.and_then(short_number).ok_or(Trouble::BadLine)?;
        self.bytes.extend_from_slice(&size.to_le_bytes())?;
        Ok(())
    }

    fn add_access(&mut self, access: Touch) -> Result<(), AllocError> {
        self.bytes.push(access.tag)?;
        self.bytes.extend_from_slice(&access.hart.to_le_bytes())?;
        self.bytes.extend_from_slice(&access.addr.to_le_bytes())?;
        self.bytes.push(access.size)?;
        self.accesses = self.accesses.saturating_add(1);
        Ok(())
    }

    // The whole content. A trace ends by exit 0 after so many steps, or as many as it has accesses.
    pub(crate) fn end(mut self, steps: Option<u64>) -> Result<Vec<u8>, AllocError> {
        if self.form == Form::Trace {
            let steps = steps.unwrap_or(self.accesses);
            self.bytes.extend_from_slice(&[6, 0, 0, 0, 0, 0, 0, 0, 0])?;
            self.bytes.extend_from_slice(&steps.to_le_bytes())?;
            self.bytes.extend_from_slice(&self.accesses.to_le_bytes())?;
        }
        Ok(self.bytes)
    }
}
