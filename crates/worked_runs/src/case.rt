// A case, line by line. What it may say:
//
//     # a remark; empty lines say nothing either
//     text NAME               a file, whose lines follow, each behind `| `
//     bytes NAME              a file, whose bytes follow in hexadecimal
//     trace NAME [STEPS]      a trace, whose records follow, with exit 0 after so many steps
//     file NAME DATA          a file that is the one of the name DATA beside the case
//     resize NAME LENGTH      the file, cut to this length or with zeros behind it
//     patch NAME PLACE BYTES  the file, with other bytes from a place on
//     $ WORDS                 a call of the program; the text that it is to print follows
//     usage                   of that text the usage lines, which stand in the file `usage.txt`
//     status N                the status that it is to end with, if not 0
//     writes text NAME ..     a file that it is to write, in any of the four forms
//                             (later calls can read it)
//     keeps NAME              the same, whatever its bytes
//     absent NAME             a file that it may not write
//     front N                 of the text only the first N bytes are to be printed
//     fails N KEEP            the N-th call of the shelf fails, and keeps so many bytes
use crate::call::Call;
use crate::content::{Content, Form};
use crate::trouble::Trouble;
use crate::words::{byte_of, number};
use shelf::HeldFile;
use std::alloc::{AllocError, Global};
use std::fs;
use std::rt::Files;
use std::str::SplitWhitespace;

const USAGE: &str = "usage.txt";

// A file whose lines follow: its name, whether the call is to write it, and the steps of a trace.
#[derive(Drop)]
struct Spelling {
    name: String,
    is_written: bool,
    steps: Option<u64>,
    content: Content,
}

#[derive(Drop)]
pub(crate) struct Case {
    alloc: Global,
    held: Vec<HeldFile>,
    call: Option<Call>,
    spelling: Option<Spelling>,
    passed: u32,
    failed: u32,
}

impl Spelling {
    // The file that no line has spelled yet.
    fn new(
        alloc: Global,
        name: &str,
        is_written: bool,
        form: Form,
        steps: Option<u64>,
    ) -> Result<Self, AllocError> {
        let name = String::from_str(alloc, name)?;
        let content = Content::new(alloc, form)?;
        Ok(Spelling {
            name,
            is_written,
            steps,
            content,
        })
    }

    // The file that the lines spelled.
    fn end(self) -> Result<HeldFile, AllocError> {
        let content = self.content.end(self.steps)?;
        Ok(HeldFile {
            name: self.name,
            content,
        })
    }
}

// What follows the mark of a line that spells something.
fn spelled(line: &str) -> Option<&str> {
    if line == "|" {
        return Some("");
    }
    line.strip_prefix("| ")
}

fn form_of(word: &str) -> Option<Form> {
    match word {
        "text" => Some(Form::Text),
        "bytes" => Some(Form::Bytes),
        "trace" => Some(Form::Trace),
        _ => None,
    }
}

// Puts the bytes that words spell in place of others, from a place on.
fn overwrite(bytes: &mut [u8], mut place: usize, words: SplitWhitespace<'_>) -> Option<()> {
    for word in words {
        *bytes.get_mut(place)? = byte_of(word)?;
        place = place.saturating_add(1);
    }
    Some(())
}

impl Case {
    pub(crate) fn new(alloc: Global) -> Self {
        Case {
            alloc,
            held: Vec::new(alloc),
            call: None,
            spelling: None,
            passed: 0,
            failed: 0,
        }
    }

    pub(crate) fn passed(&self) -> u32 {
        self.passed
    }

    pub(crate) fn failed(&self) -> u32 {
        self.failed
    }

    // Takes the next line of the case. A call is made once the case goes on behind what is wanted
    // of it.
    pub(crate) fn take<R: Files + Print + AllocGlobal>(
        &mut self,
        rt: &R,
        line: &str,
    ) -> Result<(), Trouble> {
        if let Some(text) = spelled(line) {
            return self.spell(text);
        }
        self.end_spelling()?;
        let mut words = line.split_whitespace();
        match words.next() {
            Some(word) if !word.starts_with('#') => self.follow(rt, line, word, words),
            _ => Ok(()),
        }
    }

    // Follows a line that begins with a word.
    fn follow<R: Files + Print + AllocGlobal>(
        &mut self,
        rt: &R,
        line: &str,
        word: &str,
        mut words: SplitWhitespace<'_>,
    ) -> Result<(), Trouble> {
        match word {
            "status" | "absent" | "keeps" | "front" | "fails" => self.want(line),
            "usage" => self.spell_usage(rt),
            "writes" => match words.next() {
                Some(form) => self.begin_file(rt, form, words, true),
                None => Err(Trouble::BadLine),
            },
            _ => {
                self.make_call(rt)?;
                self.change(rt, line, word, words)
            }
        }
    }

    // Begins a call, or changes a file that is held.
    fn change<R: Files + AllocGlobal>(
        &mut self,
        rt: &R,
        line: &str,
        word: &str,
        words: SplitWhitespace<'_>,
    ) -> Result<(), Trouble> {
        match word {
            "$" => Ok(self.begin_call(line.strip_prefix("$").unwrap_or(""))?),
            "resize" => self.resize(words),
            "patch" => self.patch(words).ok_or(Trouble::BadLine),
            _ => self.begin_file(rt, word, words, false),
        }
    }

    fn begin_call(&mut self, line: &str) -> Result<(), AllocError> {
        let call = Call::new(self.alloc, line)?;
        self.call = Some(call);
        Ok(())
    }

    // Ends the case.
    pub(crate) fn end<R: Print + AllocGlobal>(&mut self, rt: &R) -> Result<(), Trouble> {
        self.end_spelling()?;
        self.make_call(rt)
    }

    fn spell(&mut self, text: &str) -> Result<(), Trouble> {
        if let Some(spelling) = &mut self.spelling {
            return spelling.content.add(text);
        }
        match &mut self.call {
            Some(call) => Ok(call.wants(text)?),
            None => Err(Trouble::BadLine),
        }
    }

    // Adds the usage lines to the text that the call is to print.
    fn spell_usage<R: Files + AllocGlobal>(&mut self, rt: &R) -> Result<(), Trouble> {
        let usage = fs::read_to_string(rt, USAGE)?;
        for line in usage.lines() {
            self.spell(line)?;
        }
        Ok(())
    }

    fn want(&mut self, line: &str) -> Result<(), Trouble> {
        match &mut self.call {
            Some(call) => call.want(self.alloc, line),
            None => Err(Trouble::BadLine),
        }
    }

    // Begins a file of a form: one that is read, or one that the call is to write.
    fn begin_file<R: Files + AllocGlobal>(
        &mut self,
        rt: &R,
        form: &str,
        mut words: SplitWhitespace<'_>,
        is_written: bool,
    ) -> Result<(), Trouble> {
        let name = words.next().ok_or(Trouble::BadLine)?;
        if form == "file" {
            self.put_data(rt, name, words.next(), is_written)
        } else {
            self.begin_spelling(form, name, words.next(), is_written)
        }
    }

    // Puts the file that has the name `data` beside the case.
    fn put_data<R: Files + AllocGlobal>(
        &mut self,
        rt: &R,
        name: &str,
        data: Option<&str>,
        is_written: bool,
    ) -> Result<(), Trouble> {
        let content = fs::read(rt, data.ok_or(Trouble::BadLine)?)?;
        let name = String::from_str(self.alloc, name)?;
        self.put(HeldFile { name, content }, is_written)
    }

    // Begins a file whose lines follow.
    fn begin_spelling(
        &mut self,
        form: &str,
        name: &str,
        steps: Option<&str>,
        is_written: bool,
    ) -> Result<(), Trouble> {
        let form = form_of(form).ok_or(Trouble::BadLine)?;
        let steps = steps.and_then(number).map(|steps| steps as u64);
        let spelling = Spelling::new(self.alloc, name, is_written, form, steps)?;
        self.spelling = Some(spelling);
        Ok(())
    }

    fn end_spelling(&mut self) -> Result<(), Trouble> {
        let Some(spelling) = self.spelling.take() else {
            return Ok(());
        };
        let is_written = spelling.is_written;
        let file = spelling.end()?;
        self.put(file, is_written)
    }

    // Puts a file among those that are held, in place of an older one, or among those that the call
    // is to write.
    fn put(&mut self, file: HeldFile, is_written: bool) -> Result<(), Trouble> {
        if !is_written {
            // Of two files of one name the first counts.
            return Ok(self.held.insert(0, file)?);
        }
        match &mut self.call {
            Some(call) => Ok(call.writes.push(file)?),
            None => Err(Trouble::BadLine),
        }
    }

    // The bytes of the held file of a name.
    fn bytes_of(&mut self, name: &str) -> Option<&mut Vec<u8>> {
        for file in &mut self.held {
            if file.name.as_str() == name {
                return Some(&mut file.content);
            }
        }
        None
    }

    fn resize(&mut self, mut words: SplitWhitespace<'_>) -> Result<(), Trouble> {
        let name = words.next().ok_or(Trouble::BadLine)?;
        let length = words.next().and_then(number).ok_or(Trouble::BadLine)?;
        match self.bytes_of(name) {
            Some(bytes) => Ok(bytes.resize(length, 0)?),
            None => Err(Trouble::BadLine),
        }
    }

    fn patch(&mut self, mut words: SplitWhitespace<'_>) -> Option<()> {
        let bytes = self.bytes_of(words.next()?)?;
        let place = number(words.next()?)?;
        overwrite(bytes, place, words)
    }

    // Makes the call that the case has described, if there is one. Later calls can read what it was
    // to write.
    fn make_call<R: Print + AllocGlobal>(&mut self, rt: &R) -> Result<(), Trouble> {
        let Some(call) = self.call.take() else {
            return Ok(());
        };
        if call.passes(rt, &mut self.held)? {
            self.passed = self.passed.saturating_add(1);
        } else {
            self.failed = self.failed.saturating_add(1);
        }
        for file in call.writes {
            self.held.insert(0, file)?;
        }
        Ok(())
    }
}
