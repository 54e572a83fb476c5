// One call of the program, and how it is to end.
use crate::trouble::Trouble;
use crate::words::{number, words_of};
use predator_cli::predator;
use shelf::{Failing, HeldFile, MemoryShelf};
use std::alloc::{AllocError, Global};

// A call's words in one line, and what is wanted of it: the text or so many bytes of its front, the
// status, the files, the names of other files that it is to write, and those that it may not write.
// Calls of the shelf fail by a list.
#[derive(Drop)]
pub(crate) struct Call {
    line: String,
    printed: Vec<u8>,
    front: Option<usize>,
    status: usize,
    failing: Vec<Failing>,
    pub(crate) writes: Vec<HeldFile>,
    kept: Vec<String>,
    absent: Vec<String>,
}

// What a line says beside the text that is to be printed.
#[derive(Clone, Copy)]
enum Wish<'a> {
    Absent(&'a str),
    Keeps(&'a str),
    Front(usize),
    Status(usize),
    Fails(Failing),
}

// A call of the shelf that fails, by its number, and how many bytes it keeps.
fn failing_of(call: usize, keep: &str) -> Option<Failing> {
    let keep = keep.parse().ok()?;
    Some(Failing {
        call: call as u64,
        keep,
    })
}

// What a line says by a number.
fn wish_by(what: &str, count: usize, next: Option<&str>) -> Option<Wish<'static>> {
    match what {
        "front" => Some(Wish::Front(count)),
        "status" => Some(Wish::Status(count)),
        _ => Some(Wish::Fails(failing_of(count, next?)?)),
    }
}

fn wish_of(line: &str) -> Option<Wish<'_>> {
    let mut words = line.split_whitespace();
    let what = words.next()?;
    let word = words.next()?;
    match what {
        "absent" => Some(Wish::Absent(word)),
        "keeps" => Some(Wish::Keeps(word)),
        _ => wish_by(what, number(word)?, words.next()),
    }
}

// The file of this name and this content.
fn file_of(alloc: Global, name: &str, content: &[u8]) -> Result<HeldFile, AllocError> {
    let name = String::from_str(alloc, name)?;
    let content = content.to_vec(alloc)?;
    Ok(HeldFile { name, content })
}

fn copies_of(alloc: Global, files: &[HeldFile]) -> Result<Vec<HeldFile>, AllocError> {
    let mut copies = Vec::new(alloc);
    for file in files {
        copies.push(file_of(alloc, &file.name, &file.content)?)?;
    }
    Ok(copies)
}

// Whether each of these names was written, and with this content.
fn has_written(shelf: &MemoryShelf, files: &[HeldFile]) -> bool {
    for file in files {
        match shelf.written(&file.name) {
            Some(content) if content == file.content.as_slice() => {}
            _ => return false,
        }
    }
    true
}

// Whether none of these names was written.
fn has_left(shelf: &MemoryShelf, names: &[String]) -> bool {
    for name in names {
        if shelf.written(name).is_some() {
            return false;
        }
    }
    true
}

// Adds a name.
fn note(alloc: Global, names: &mut Vec<String>, name: &str) -> Result<(), AllocError> {
    names.push(String::from_str(alloc, name)?)?;
    Ok(())
}

// Puts what was written under these names among the files, and answers whether all were written.
fn keep(
    alloc: Global,
    shelf: &MemoryShelf,
    names: &[String],
    held: &mut Vec<HeldFile>,
) -> Result<bool, Trouble> {
    let mut all = true;
    for name in names {
        match shelf.written(name) {
            Some(content) => held.insert(0, file_of(alloc, name, content)?)?,
            None => all = false,
        }
    }
    Ok(all)
}

impl Call {
    // A call that is to print nothing and to end with 0.
    pub(crate) fn new(alloc: Global, line: &str) -> Result<Self, AllocError> {
        Ok(Call {
            line: String::from_str(alloc, line)?,
            printed: Vec::new(alloc),
            front: None,
            status: 0,
            failing: Vec::new(alloc),
            writes: Vec::new(alloc),
            kept: Vec::new(alloc),
            absent: Vec::new(alloc),
        })
    }

    // The bytes that it is to print.
    fn wanted(&self) -> &[u8] {
        match self.front {
            Some(count) => &self.printed[..count.min(self.printed.len())],
            None => &self.printed,
        }
    }

    // Adds a line to the text that it is to print.
    pub(crate) fn wants(&mut self, line: &str) -> Result<(), AllocError> {
        self.printed.extend_from_slice(line.as_bytes())?;
        self.printed.push(b'\n')?;
        Ok(())
    }

    fn grant(&mut self, alloc: Global, wish: Wish<'_>) -> Result<(), AllocError> {
        match wish {
            Wish::Absent(name) => note(alloc, &mut self.absent, name)?,
            Wish::Keeps(name) => note(alloc, &mut self.kept, name)?,
            Wish::Front(count) => self.front = Some(count),
            Wish::Status(status) => self.status = status,
            Wish::Fails(failing) => self.failing.push(failing)?,
        }
        Ok(())
    }

    // Notes what a line says beside the text: the status, a name, the front or a failure.
    pub(crate) fn want(&mut self, alloc: Global, line: &str) -> Result<(), Trouble> {
        match wish_of(line) {
            Some(wish) => Ok(self.grant(alloc, wish)?),
            None => Err(Trouble::BadLine),
        }
    }

    // The shelf of these files, whose calls fail as the call says.
    fn shelf_of(&self, alloc: Global, held: &[HeldFile]) -> Result<MemoryShelf, Trouble> {
        let files = copies_of(alloc, held)?;
        let failing = self.failing.to_vec(alloc)?;
        match MemoryShelf::new(alloc, files, failing) {
            Ok(shelf) => Ok(shelf),
            Err(_) => Err(Trouble::NoMemory),
        }
    }

    // Runs the program over these files, says what is other than wanted, and answers whether
    // nothing is. What it is to keep is put among the files.
    pub(crate) fn passes<R: Print + AllocGlobal>(
        &self,
        rt: &R,
        held: &mut Vec<HeldFile>,
    ) -> Result<bool, Trouble> {
        let mut shelf = self.shelf_of(rt.alloc(), held)?;
        self.passes_over(rt, &mut shelf, held)
    }

    // The status of the program, run with the call's words.
    fn status_over(&self, alloc: Global, shelf: &mut MemoryShelf) -> Result<usize, AllocError> {
        let words = words_of(alloc, &self.line)?;
        Ok(usize::from(predator(alloc, &words, shelf).number()))
    }

    fn passes_over<R: Print + AllocGlobal>(
        &self,
        rt: &R,
        shelf: &mut MemoryShelf,
        held: &mut Vec<HeldFile>,
    ) -> Result<bool, Trouble> {
        let status = self.status_over(rt.alloc(), shelf)?;
        let ends = self.ends_well(rt, status)?;
        let prints = self.prints_well(rt, shelf.printed())?;
        let writes = self.writes_well(rt, shelf, held)?;
        Ok(ends && prints && writes)
    }

    fn ends_well<R: Print + AllocGlobal>(&self, rt: &R, status: usize) -> Result<bool, Trouble> {
        if status != self.status {
            println!(rt;
                "{}: status {status}, and {} is wanted",
                self.line, self.status
            )?;
        }
        Ok(status == self.status)
    }

    fn prints_well<R: Print + AllocGlobal>(&self, rt: &R, printed: &[u8]) -> Result<bool, Trouble> {
        if printed == self.wanted() {
            return Ok(true);
        }
        let text = String::from_utf8_lossy(rt.alloc(), printed)?;
        println!(rt; "{}: another text is printed:\n{text}", self.line)?;
        Ok(false)
    }

    fn writes_well<R: Print + AllocGlobal>(
        &self,
        rt: &R,
        shelf: &MemoryShelf,
        held: &mut Vec<HeldFile>,
    ) -> Result<bool, Trouble> {
        let has_kept = keep(rt.alloc(), shelf, &self.kept, held)?;
        let passes = has_kept && has_written(shelf, &self.writes) && has_left(shelf, &self.absent);
        if !passes {
            println!(rt; "{}: other files are written", self.line)?;
        }
        Ok(passes)
    }
}
