// Real files and standard output: the trusted edge. What it was given and what it handed to the
// system is kept in a log that only proofs read.
//
// Each call that fails says so on standard error, with the file's name and the system's reason.
ghost use Rattle.std.specs.Prelude.{◌≡◌, ◌≢◌, ◌≤◌, ◌↔◌, IfOk, OnOk, Some, false, length};
ghost use Rattle.std.specs.Io.{ReadsAtMost};
ghost use Rattle.std.specs.IoError.{error_kind};
ghost use Rattle.shelf.specs.Shelf.{content, Known, HasCauseAt, OnlyReads, Reads, given_after};
ghost use Rattle.disk_shelf.specs.Disk.{has_other_name};

use crate::known_files::{FileId, KnownFiles};
use crate::log::{Call, Log};
use crate::meter::Meter;
use crate::open_files::{OpenFiles, ReadBytes};
use crate::reasons::report_fault;
use crate::run_end::RunEnd;
use shelf::{RunShown, Shelf, ShelfError};
use std::alloc::{AllocError, Global};
use std::fs::{self, OpenFile, OpenOptions};
use std::io::{self, ErrorKind, Print, Read, Seek, Stderr, Write};
use std::marker::{Brand, Model, PhantomData};
use std::rt::{Clock, Files};

// What standard output and standard input are called where they fail, and their paths.
const STANDARD_OUTPUT: &str = "standard output";

const OUTPUT_PATH: &str = "/dev/stdout";

const STANDARD_INPUT: &str = "standard input";

const INPUT_PATH: &str = "/dev/stdin";

const ERROR_PATH: &str = "/dev/stderr";

// The three streams that a process begins with, in the order of their numbers.
const STREAMS: [&str; 3] = [INPUT_PATH, OUTPUT_PATH, ERROR_PATH];

// The name of a trace that is standard input.
const INPUT: &str = "-";

// The most bytes of a file that are given again.
const LONGEST_FRONT: usize = 1 << 16;

// Why a file isn't begun that is read or written under another name.
const IN_USE: &str = "the file is in use under another name and stays unchanged: name another file";

/// Contents of files that one thinks of. No code reads them: on a shelf of the system's files they
/// are known as long as all that it has read is theirs. What is proved of the known files is proved
/// for any contents, and so holds of all that agree with what was read.
pub trait Contents {
    ghost use Rattle.shelf.specs.Shelf.{Files};

    /// The bytes of each name that has a file.
    ghost files: { Files };
}

// No file: a proof that speaks of others picks them, or is of any.
impl Contents for Brand {
    ghost use Rattle.std.specs.Prelude.{None};

    ghost files = { λ _. None };
}

/// The files of the system and its standard output, as a shelf.
///
/// What it holds are contents that one thinks of: they are known as long as all that it has read is
/// theirs, and no more from the first reading on that gave other bytes. What was written and
/// printed is what it handed to the system in calls that were answered Ok. Contracts see how often
/// reading and writing each file has failed, want of memory aside.
///
/// Each file is opened once for reading and once for writing, and kept open, so that pipes and
/// terminals serve where they are read, or written, from the front to the end. A regular file that
/// it has read or begun is not begun under another name, nor is one that standard output is, and
/// nothing is printed over one: that fails, and the file stays as it is. It says on standard error
/// why a call failed, and where that is asked for shows there how far long work is and what a run
/// puts out.
#[derive(Drop)]
pub struct DiskShelf<'a, R: Files + Print + Eprint + Clock + AllocGlobal, K: Contents> {
    runtime: &'a R,
    contents: PhantomData<K>,
    log: Log,
    files: FilesOfCall<R::File>,
    meter: Meter,
    stderr: Option<Stderr>,
    run_end: RunEnd,
}

impl<'a, R: Files + Print + Eprint + Clock + AllocGlobal, K: Contents> Model
    for DiskShelf<'a, R, K> {
    ghost use Rattle.disk_shelf.specs.Disk.{Seen};

    ghost Value = { Seen };

    ghost view = { λ s. record { done = s.log.items } };
}

// What an error of the system is to a shelf: a failure, unless it is want of memory, which is what
// the system calls so.
fn fault_of(error: &io::Error) -> ShelfError
    ensures memory { (result ≡ ShelfError.NoMemory)
        ↔ (error_kind error.now ≡ ErrorKind.OutOfMemory) }
{
    if error.kind() == ErrorKind::OutOfMemory {
        return ShelfError::NoMemory;
    }
    ShelfError::Failed
}

// Says why a call of the system failed, and what that is to a shelf. Room is made for it before.
fn report<R: Eprint + AllocGlobal>(
    runtime: &R,
    meter: &mut Meter,
    name: &str,
    error: io::Error,
) -> ShelfError
    ensures memory { (result ≡ ShelfError.NoMemory) ↔ (error_kind error ≡ ErrorKind.OutOfMemory) }
{
    meter.make_room(runtime);
    report_fault(runtime, name, &error);
    fault_of(&error)
}

// What is expected of the reading of a trace.
#[derive(Drop)]
struct Expected {
    name: String,
    again: bool,
}

// The files of a call, as the system has them: what stands for streams that were closed, the files
// that are open, those that are known, and the regular files that standard output and standard
// error are, where they are any.
#[derive(Drop)]
struct FilesOfCall<F: Drop> {
    closed: Vec<F>,
    read: OpenFiles<F>,
    written: OpenFiles<F>,
    known: KnownFiles,
    printed: Option<FileId>,
    said: Option<FileId>,
    expected: Option<Expected>,
}

impl<F: Read + Write + Seek + OpenFile + Drop> FilesOfCall<F> {
    // None is open yet.
    fn new<R: Files<File = F> + AllocGlobal>(runtime: &R) -> Self {
        FilesOfCall {
            closed: stand_ins(runtime),
            read: OpenFiles::new(runtime.alloc()),
            written: OpenFiles::new(runtime.alloc()),
            known: KnownFiles::new(runtime.alloc()),
            printed: file_of_stream(runtime, OUTPUT_PATH),
            said: file_of_stream(runtime, ERROR_PATH),
            expected: None,
        }
    }

    // Whether a name is that of a trace that is read so.
    fn is_expected(&self, name: &str, again: bool) -> bool {
        match &self.expected {
            Some(expected) => expected.name.as_str() == name && expected.again == again,
            None => false,
        }
    }

    // Whether a name is that of standard input.
    fn is_input(&self, name: &str) -> bool {
        name == INPUT && self.is_expected(name, false)
    }

    // What a file is called in a message.
    fn called<'n>(&self, name: &'n str) -> &'n str {
        if self.is_input(name) {
            STANDARD_INPUT
        } else {
            name
        }
    }

    // Opens the file of a name to be read, unless it is open. From now on it is known.
    fn open_to_read<R: Files<File = F> + AllocGlobal>(
        &mut self,
        runtime: &R,
        name: &str,
    ) -> io::Result<()> {
        if self.read.has(name) {
            return Ok(());
        }
        let path = if self.is_input(name) {
            INPUT_PATH
        } else {
            name
        };
        let file = fs::open(runtime, path)?;
        let metadata = file.metadata()?;
        self.known
            .note_opened(runtime.alloc(), FileId::of(&metadata), name)?;
        self.read.keep(runtime.alloc(), name, file, metadata.len())?;
        Ok(())
    }

    // Some bytes of a file from a place on.
    fn read_at<R: Files<File = F> + AllocGlobal>(
        &mut self,
        runtime: &R,
        name: &str,
        at: u64,
        into: &mut [u8],
    ) -> io::Result<ReadBytes>
        ensures { IfOk result (λ read. read.count ≤ length into.new) }
    {
        self.open_to_read(runtime, name)?;
        if self.is_expected(name, true) {
            self.read.want_again(name)?;
        }
        self.read.read_at(name, at, into)
    }

    // Makes a file empty. It is opened as it stands, once, and emptied once it is seen to be no
    // other one.
    fn begin<R: Files<File = F> + AllocGlobal>(
        &mut self,
        runtime: &R,
        name: &str,
    ) -> io::Result<()> {
        if !self.written.has(name) {
            let file = OpenOptions::new()
                .write(true)
                .create(true)
                .open(runtime, name)?;
            let metadata = file.metadata()?;
            if let Some(id) = FileId::of(&metadata) {
                claim(&mut self.known, self.printed, runtime.alloc(), id, name)?;
            }
            self.written.keep(runtime.alloc(), name, file, 0)?;
        }
        self.written.empty(name)
    }

    // Whether standard output is a file that is read or written.
    fn prints_over(&self) -> bool {
        self.is_known(self.printed)
    }

    // Whether standard error is one.
    fn says_over(&self) -> bool {
        self.is_known(self.said)
    }

    fn is_known(&self, file: Option<FileId>) -> bool {
        match file {
            Some(id) => self.known.has(id),
            None => false,
        }
    }
}

// Knows a file that is to be written, unless it is known under another name, or is standard output.
fn claim(
    known: &mut KnownFiles,
    printed: Option<FileId>,
    alloc: Global,
    id: FileId,
    name: &str,
) -> io::Result<()>
    ensures other { OnOk result (has_other_name id name.now known.old.files.items ≡ false) }
    ensures printed { OnOk result (printed ≢ Some id) }
{
    if known.has_other_name(id, name) || printed == Some(id) {
        return Err(io::Error::new(ErrorKind::InvalidInput, IN_USE));
    }
    known.note(alloc, id, name)?;
    Ok(())
}

// A file for each stream that was closed before the program began, which can't be written. Else
// the next file that is opened would have the stream's number, and get what is printed.
fn stand_ins<R: Files + AllocGlobal>(runtime: &R) -> Vec<R::File> {
    let mut files = Vec::new(runtime.alloc());
    for path in &STREAMS {
        if fs::metadata(runtime, path).is_err() {
            if let Ok(file) = fs::open(runtime, "/dev/null") {
                let _ = files.push(file);
            }
        }
    }
    files
}

// The regular file that a stream is, where it is one.
fn file_of_stream<R: Files>(runtime: &R, path: &str) -> Option<FileId> {
    let metadata = fs::metadata(runtime, path).ok()?;
    FileId::of(&metadata)
}

// Prints a piece, unless standard output is a file that is read or written.
fn print_to<R: Files + Print>(
    runtime: &R,
    files: &FilesOfCall<R::File>,
    piece: &[u8],
) -> io::Result<()> {
    if files.prints_over() {
        return Err(io::Error::new(ErrorKind::InvalidInput, IN_USE));
    }
    runtime.write_all(piece)
}

impl<'a, R: Files + Print + Eprint + Clock + AllocGlobal, K: Contents> DiskShelf<'a, R, K> {
    ghost use Rattle.disk_shelf.specs.Disk.{disk_outside, fresh_outside};

    fn with_meter(runtime: &'a R, meter: Meter) -> Self
        ensures { disk_outside K.files result ≡ fresh_outside K.files }
    {
        DiskShelf {
            runtime,
            contents: PhantomData,
            log: Log::new(),
            files: FilesOfCall::new(runtime),
            meter,
            stderr: None,
            run_end: RunEnd::new(),
        }
    }

    /// The shelf of a runtime, which has done nothing yet: any contents are known, and it is known
    /// that nothing was written or printed and no call has failed.
    pub fn new(runtime: &'a R) -> Self
        ensures { disk_outside K.files result ≡ fresh_outside K.files }
    {
        DiskShelf::with_meter(runtime, Meter::hidden())
    }

    /// The same, for a standard error that is a terminal: once a second it shows there how far it
    /// is.
    pub fn on_terminal(runtime: &'a R) -> Self
        ensures { disk_outside K.files result ≡ fresh_outside K.files }
    {
        DiskShelf::with_meter(runtime, Meter::shown(runtime))
    }

    /// Shows on standard error what a run puts out from now on, unless that is a file that is read
    /// or written. Nothing that contracts see changes.
    pub fn show_output_on(&mut self, stderr: Stderr)
        ensures { self.new ≡ self.old }
    {
        self.stderr = Some(stderr);
    }

    /// Says on standard error how a run went, once it is over: that no hart was free for the latest
    /// that was to start, and an exit code other than 0. Nothing that contracts see changes.
    pub fn report_run_end(&mut self)
        ensures { self.new ≡ self.old }
    {
        if !self.files.says_over() {
            self.meter.make_room(self.runtime);
            self.run_end.report(self.runtime);
        }
    }

    /// Hears how a trace will be read: once from its front to its end, or again. Where it is read
    /// once, the name `-` is standard input. Where it is read again, one that can't be sought, as a
    /// pipe, is refused at its first reading. Nothing that contracts see changes.
    pub fn expect(&mut self, name: &str, again: bool)
        ensures { self.new ≡ self.old }
    {
        self.files.expected = match String::from_str(self.runtime.alloc(), name) {
            Ok(name) => Some(Expected { name, again }),
            Err(AllocError) => None,
        };
    }

    /// The beginning of a file that was read, up to 64 KiB: none of one that can't be read again,
    /// as a pipe, and none where there is no memory. Nothing that contracts see changes.
    pub fn front_of(&mut self, name: &str) -> Vec<u8>
        ensures { self.new ≡ self.old }
    {
        let alloc = self.runtime.alloc();
        let Ok(mut front) = Vec::from_elem(alloc, 0, LONGEST_FRONT) else {
            return Vec::new(alloc);
        };
        let count = self.files.read.front_of(name, &mut front);
        front.truncate(count);
        front
    }
}

impl<R: Files + Print + Eprint + Clock + AllocGlobal, K: Contents> Shelf for DiskShelf<'_, R, K> {
    ghost use Rattle.disk_shelf.specs.Disk.{disk_outside};

    ghost outside = { disk_outside K.files };

    fn read_at(&mut self, name: &str, at: u64, into: &mut [u8]) -> Result<usize, ShelfError>
        ensures bound { ReadsAtMost result into.new }
        ensures bytes { IfOk result (λ n. Known (disk_outside K.files self.new).held
            (λ files. Reads (content files name.now) at n into.new)) }
        ensures given { (disk_outside K.files self.new).given ≡ given_after result name.now at
            into.new (disk_outside K.files self.old).given }
        ensures cause { HasCauseAt name.now (disk_outside K.files self.old).read_faults
            (disk_outside K.files self.new).read_faults result }
        ensures only { OnlyReads (disk_outside K.files self.old) (disk_outside K.files self.new) }

        // Beyond the trait's: what is known stays known where what was read is of it.
        ensures stays { Known (disk_outside K.files self.old).held
            (λ files. IfOk result (λ n. Reads (content files name.now) at n into.new)
            → (disk_outside K.files self.new).held ≡ Some files) }
    {
        match self.files.read_at(self.runtime, name, at, into) {
            Ok(read) => {
                self.meter.show_read(self.runtime, at, read.length);
                self.log = self.log.and(&Call::Read {
                    name,
                    at,
                    room: into.len(),
                    bytes: &into[..read.count],
                });
                Ok(read.count)
            }
            Err(error) => {
                let called = self.files.called(name);
                let error = report(self.runtime, &mut self.meter, called, error);
                self.log = self.log.and(&Call::ReadFailed { name, error });
                Err(error)
            }
        }
    }

    fn begin(&mut self, name: &str) -> Result<(), ShelfError> {
        match self.files.begin(self.runtime, name) {
            Ok(()) => {
                self.log = self.log.and(&Call::Begin { name });
                Ok(())
            }
            Err(error) => {
                let error = report(self.runtime, &mut self.meter, name, error);
                self.log = self.log.and(&Call::WriteFailed { name, error });
                Err(error)
            }
        }
    }

    fn append(&mut self, name: &str, piece: &[u8]) -> Result<(), ShelfError> {
        match self.files.written.add(name, piece) {
            Ok(length) => {
                self.meter.show_written(self.runtime, length);
                self.log = self.log.and(&Call::Append { name, piece });
                Ok(())
            }
            Err(error) => {
                let error = report(self.runtime, &mut self.meter, name, error);
                self.log = self.log.and(&Call::WriteFailed { name, error });
                Err(error)
            }
        }
    }

    fn print(&mut self, piece: &[u8]) -> Result<(), ShelfError> {
        self.meter.make_room(self.runtime);
        match print_to(self.runtime, &self.files, piece) {
            Ok(()) => {
                self.log = self.log.and(&Call::Print { piece });
                Ok(())
            }
            Err(error) => {
                let error = report(self.runtime, &mut self.meter, STANDARD_OUTPUT, error);
                self.log = self.log.and(&Call::PrintFailed { error });
                Err(error)
            }
        }
    }

    fn show_steps(&mut self, made: u64, most: u64) {
        self.meter.show_steps(self.runtime, made, most);
    }

    fn show_run(&mut self, shown: RunShown<'_>) {
        match shown {
            RunShown::Output(bytes) => {
                if let Some(stderr) = self.stderr {
                    if !self.files.says_over() {
                        self.meter.show_output(self.runtime, stderr, bytes);
                    }
                }
            }
            RunShown::NoFreeHart(harts) => self.run_end.note_no_free_hart(harts),
            RunShown::ExitCode(code) => self.run_end.note_exit(code),
        }
    }
}
