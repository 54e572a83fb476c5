// Files that are open under their names: each is opened once, and kept until the shelf goes.
ghost use Rattle.std.specs.Prelude.{◌≤◌, IfOk, OnOk, length};
ghost use Rattle.std.specs.Io.KnownBytes.{Appends};

use std::alloc::{AllocError, Global};
use std::fs::OpenFile;
use std::io::{self, ErrorKind, Read, Seek, SeekFrom, Write};

// Why a file isn't read a second time.
const READ_ONCE: &str = "a pipe or a terminal can be read only once: write it to a file first";

// Why an output isn't made empty.
const WRITTEN_ONCE: &str = "a pipe or a terminal cannot be written again: name a file";

/// How many bytes a call has read, and how many the file had when it was opened: 0 where that
/// can't be known.
#[derive(Clone, Copy)]
pub struct ReadBytes {
    pub count: usize,
    pub length: u64,
}

/// A file that is open under a name, and the place in it at which the system goes on.
#[derive(Drop)]
struct OpenedFile<F: Drop> {
    name: String,
    file: F,
    length: u64,
    at: u64,
    // Whether the place may be changed: not in a pipe, nor in a terminal.
    can_seek: bool,
}

impl<F: Read + Write + Seek + OpenFile + Drop> OpenedFile<F> {
    // A file of so many bytes that was opened just now.
    fn new(alloc: Global, name: &str, file: F, length: u64) -> Result<Self, AllocError> {
        let mut file = file;
        let can_seek = file.seek(SeekFrom::Start(0)).is_ok();
        Ok(OpenedFile {
            name: String::from_str(alloc, name)?,
            file,
            length,
            at: 0,
            can_seek,
        })
    }

    // Goes to a place, where it isn't there already.
    fn go_to(&mut self, at: u64, refusal: &'static str) -> io::Result<()> {
        if self.at == at {
            return Ok(());
        }
        if !self.can_seek {
            return Err(io::Error::new(ErrorKind::NotSeekable, refusal));
        }
        self.file.seek(SeekFrom::Start(at))?;
        self.at = at;
        Ok(())
    }

    // Some bytes from a place on. A file that can't be sought is read from its front to its end
    // alone.
    fn read_at(&mut self, at: u64, into: &mut [u8]) -> io::Result<ReadBytes>
        ensures { IfOk result (λ read. read.count ≤ length into.new) }
    {
        self.go_to(at, READ_ONCE)?;
        let count = self.file.read(into)?;
        self.at = self.at.saturating_add(count as u64);
        Ok(ReadBytes {
            count,
            length: self.length,
        })
    }

    // Makes the file empty. One that can't be sought is empty until something is written.
    fn empty(&mut self) -> io::Result<()> {
        self.go_to(0, WRITTEN_ONCE)?;
        let metadata = self.file.metadata()?;
        if metadata.is_file() {
            return self.file.set_len(0);
        }
        Ok(())
    }

    // Adds a piece behind what was written, and answers how many bytes there are then.
    fn add(&mut self, piece: &[u8]) -> io::Result<u64>
        ensures { OnOk result
            (Appends (F.contents self.old.file) (F.contents self.new.file) piece.now) }
    {
        self.file.write_all(piece)?;
        self.at = self.at.saturating_add(piece.len() as u64);
        Ok(self.at)
    }
}

/// The files that are open, each under its name.
#[derive(Drop)]
pub struct OpenFiles<F: Drop> {
    files: Vec<OpenedFile<F>>,
}

impl<F: Read + Write + Seek + OpenFile + Drop> OpenFiles<F> {
    /// None yet.
    pub fn new(alloc: Global) -> Self {
        OpenFiles {
            files: Vec::new(alloc),
        }
    }

    // The place of the file of a name, if it is open.
    fn index_of_name(&self, name: &str) -> Option<usize> {
        self.files
            .iter()
            .position(|file| file.name.as_str() == name)
    }

    /// Whether a file is open under a name.
    pub fn has(&self, name: &str) -> bool {
        self.index_of_name(name).is_some()
    }

    /// Keeps a file of so many bytes that was opened just now.
    pub fn keep(
        &mut self,
        alloc: Global,
        name: &str,
        file: F,
        length: u64,
    ) -> Result<(), AllocError> {
        let opened = OpenedFile::new(alloc, name, file, length)?;
        self.files.push(opened)?;
        Ok(())
    }

    /// Refuses to have the file of a name read again, where that can't be.
    pub fn want_again(&self, name: &str) -> io::Result<()> {
        if self
            .files
            .iter()
            .any(|file| file.name.as_str() == name && !file.can_seek)
        {
            return Err(io::Error::new(ErrorKind::NotSeekable, READ_ONCE));
        }
        Ok(())
    }

    /// Reads some bytes of the file of a name, from a place on.
    pub fn read_at(&mut self, name: &str, at: u64, into: &mut [u8]) -> io::Result<ReadBytes>
        ensures { IfOk result (λ read. read.count ≤ length into.new) }
    {
        let Some(place) = self.index_of_name(name) else {
            return Err(io::Error::from(ErrorKind::NotFound));
        };
        match self.files.get_mut(place) {
            Some(file) => file.read_at(at, into),
            None => Err(io::Error::from(ErrorKind::NotFound)),
        }
    }

    /// Reads the first bytes of the file of a name again, as many as fit: none where it isn't open
    /// or can't be read again.
    pub fn front_of(&mut self, name: &str, into: &mut [u8]) -> usize
        ensures { result ≤ length into.new }
    {
        let Some(place) = self.index_of_name(name) else {
            return 0;
        };
        match self.files.get_mut(place) {
            Some(file) if file.can_seek => match file.read_at(0, into) {
                Ok(read) => read.count,
                Err(_) => 0,
            },
            _ => 0,
        }
    }

    /// Makes the file of a name empty.
    pub fn empty(&mut self, name: &str) -> io::Result<()> {
        let Some(place) = self.index_of_name(name) else {
            return Err(io::Error::from(ErrorKind::NotFound));
        };
        match self.files.get_mut(place) {
            Some(file) => file.empty(),
            None => Err(io::Error::from(ErrorKind::NotFound)),
        }
    }

    /// Adds a piece to the file of a name, and answers how many bytes were written to it.
    pub fn add(&mut self, name: &str, piece: &[u8]) -> io::Result<u64> {
        let Some(place) = self.index_of_name(name) else {
            return Err(io::Error::from(ErrorKind::NotFound));
        };
        match self.files.get_mut(place) {
            Some(file) => file.add(piece),
            None => Err(io::Error::from(ErrorKind::NotFound)),
        }
    }
}
