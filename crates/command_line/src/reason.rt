// Why words are refused. Each reason is made where the words are refused, and says which of them is
// wrong.

use clap::Error;
use std::alloc::{AllocError, Global};

const ALLOWED: &str =
    "--size must be a power of two from 4 to 1024, --shift a multiple of 4 below the size";

const LINES: &str = concat!(
    "BASE must be a multiple of 4 below 2^32, SIZE a power of two from 4 to 1024, ",
    "START a number below 2^40",
);

const SWEPT: &str = "it must be a power of two from 4 to 256";

const LINE_SIZE: &str = "it must be a power of two from 4 to 1024";

const NEAR: &str = "it must be a power of two from 64 to 65536";

const COUNT: &str = "N must be a whole number up to 1000000000";

const PLACE: &str = "K must be a whole number up to 18446744073709551615";

const SHAPES: &str = concat!(
    "--size must be a power of two from 4 to 1024, --sets one from 1 to 1024, ",
    "--ways from 1 to 64, ",
    "and sets times ways at most 4096"
);

/// Why a part of `--set` names no change.
#[derive(Clone, Copy, PartialEq, Eq, Debug)]
pub enum WrongChange {
    /// It has no `=`.
    Form,
    /// What stands before `=` is no key of the settings file.
    Key,
    /// What stands behind `=` is no number.
    Number,
    /// A part before it changes the same key.
    Again,
}

/// Why words are refused.
#[derive(Debug, Drop)]
pub enum Reason<'a> {
    /// There is no word.
    NoCommand,
    /// The first word is none of the commands.
    UnknownCommand(&'a str),
    /// `clap` refuses the words behind the command.
    Words(Error),
    /// The command wants a word that this name stands for.
    Missing(&'static str),
    /// The size and the shift are no layout of lines.
    Layout {
        /// The word for the size, if there is one.
        size: Option<&'a str>,
        /// The word for the shift, if there is one.
        shift: Option<&'a str>,
    },
    /// No line of an allowed layout begins at the base, or the start is no number below 2^40.
    Line {
        /// The word for the base, if there is one.
        base: Option<&'a str>,
        /// The word for the size, if there is one.
        size: Option<&'a str>,
        /// The word for the start, if there is one.
        start: Option<&'a str>,
    },
    /// The size, the sets and the ways are no shape of caches, or not all of them are given.
    Shape {
        /// The word for the size, if there is one.
        size: Option<&'a str>,
        /// The word for the number of sets, if there is one.
        sets: Option<&'a str>,
        /// The word for the number of ways, if there is one.
        ways: Option<&'a str>,
    },
    /// The word for a number of accesses is no number that a trace may be asked to have.
    Count(Option<&'a str>),
    /// The word for the size is none that a sweep takes; None where it is missing.
    SweptSize(Option<&'a str>),
    /// The word for the size of a line is none that lines may have.
    LineSize(Option<&'a str>),
    /// The word for the bytes of a region is none that a filter takes.
    Near(Option<&'a str>),
    /// A part of `--set` names no change.
    Change {
        /// The part.
        part: &'a str,
        /// Why it names none.
        wrong: WrongChange,
    },
    /// The word for the place of a cut is no number.
    Place(Option<&'a str>),
    /// The pcs of a trace are asked for, and no trace.
    NoTrace,
    /// A file that is written has this name, and so has another one.
    SameName(&'a str),
}

// Whether a text is decimal digits, one or more.
fn are_digits(text: &str) -> bool {
    !text.is_empty() && text.bytes().all(|byte| byte.is_ascii_digit())
}

// What is wrong with how a number is spelled, where that is all that is.
fn misspelling(word: &str) -> Option<&'static str> {
    if word.strip_prefix('-').is_some_and(are_digits) {
        Some("is negative")
    } else if word.strip_prefix('+').is_some_and(are_digits) {
        Some("has a sign")
    } else if word.strip_prefix('0').is_some_and(are_digits) {
        Some("has a leading zero")
    } else {
        None
    }
}

// The first of some words that is a number but for its spelling, in a line with what is allowed.
fn misspelled(
    alloc: Global,
    words: &[Option<&str>],
    allowed: &str,
) -> Result<Option<String>, AllocError> {
    for word in words {
        let word = word.unwrap_or("");
        if let Some(wrong) = misspelling(word) {
            return Ok(Some(format!(in alloc; "'{word}' {wrong}: {allowed}")?));
        }
    }
    Ok(None)
}

// A line of what `clap` says, without its mark and its indentation.
fn plain(line: &str) -> &str {
    line.strip_prefix("error: ").unwrap_or(line.trim_start())
}

// What `clap` says of words, in one line, without its usage and its tips.
fn said_by(alloc: Global, error: &Error) -> Result<String, AllocError> {
    let text = format!(in alloc; "{error}")?;
    let mut said = String::new(alloc);
    for line in text.as_str().lines() {
        if line.is_empty() {
            return Ok(said);
        }
        if !said.is_empty() {
            said.push_str(" ")?;
        }
        said.push_str(plain(line))?;
    }
    Ok(said)
}

// The same, with more of a word that `clap` takes for an option, and that is a negative number.
fn words_text(alloc: Global, error: &Error) -> Result<String, AllocError> {
    let mut said = said_by(alloc, error)?;
    let digit = said
        .strip_prefix("unexpected argument '-")
        .and_then(|rest| rest.bytes().next());
    if digit.is_some_and(|byte| byte.is_ascii_digit()) {
        said.push_str(": numbers cannot be negative")?;
    }
    Ok(said)
}

// What is wrong with a size and a shift, of which one is given, or both.
fn layout_text(
    alloc: Global,
    size: Option<&str>,
    shift: Option<&str>,
) -> Result<String, AllocError> {
    if let Some(text) = misspelled(alloc, &[size, shift], ALLOWED)? {
        return Ok(text);
    }
    let size = size.unwrap_or("64");
    let shift = shift.unwrap_or("0");
    format!(in alloc; "'--size {size} --shift {shift}' is not a layout: {ALLOWED}")
}

// What is wrong with a base, a size and a start.
fn line_text(
    alloc: Global,
    base: Option<&str>,
    size: Option<&str>,
    start: Option<&str>,
) -> Result<String, AllocError> {
    if let Some(text) = misspelled(alloc, &[base, size, start], LINES)? {
        return Ok(text);
    }
    let base = base.unwrap_or("");
    let size = size.unwrap_or("");
    let start = start.unwrap_or("");
    format!(in alloc; "'{base} {size} {start}' is not a line and a start: {LINES}")
}

// What is wrong with the shape of caches, or which part of it is missing.
fn shape_text(
    alloc: Global,
    size: Option<&str>,
    sets: Option<&str>,
    ways: Option<&str>,
) -> Result<String, AllocError> {
    if let Some(text) = misspelled(alloc, &[size, sets, ways], SHAPES)? {
        return Ok(text);
    }
    match (size, sets, ways) {
        (None, _, _) => String::from_str(alloc, "--size is missing"),
        (_, None, _) => String::from_str(alloc, "--sets is missing"),
        (_, _, None) => String::from_str(alloc, "--ways is missing"),
        (Some(size), Some(sets), Some(ways)) => format!(in alloc;
            "'--size {size} --sets {sets} --ways {ways}' is not a cache shape: {SHAPES}"
        ),
    }
}

// What is wrong with a number, by its spelling, or else as `what` says.
fn number_text(
    alloc: Global,
    option: &str,
    word: &str,
    what: &str,
    allowed: &str,
) -> Result<String, AllocError> {
    let wrong = misspelling(word).unwrap_or(what);
    format!(in alloc; "'{option}{word}' {wrong}: {allowed}")
}

// What is wrong with a part of `--set`.
fn change_text(alloc: Global, part: &str, wrong: WrongChange) -> Result<String, AllocError> {
    let why = match wrong {
        WrongChange::Form => "is not KEY=N",
        WrongChange::Key => "names an unknown key",
        WrongChange::Number =>
            "needs a whole number below 2^64, in decimal digits without leading zeros",
        WrongChange::Again => "repeats a key",
    };
    format!(in alloc; "'{part}' in --set {why}")
}

impl Reason<'_> {
    /// What is wrong, in one line without its line feed.
    pub fn text(&self, alloc: Global) -> Result<String, AllocError> {
        match self {
            Reason::NoCommand => String::from_str(
                alloc,
                "the command is missing: see predator --help",
            ),
            Reason::UnknownCommand(word) => {
                format!(in alloc; "'{word}' is not a command: see predator --help")
            }
            Reason::Words(error) => words_text(alloc, error),
            Reason::Missing(name) => format!(in alloc; "{name} is missing"),
            Reason::Layout { size, shift } => layout_text(alloc, *size, *shift),
            Reason::Line { base, size, start } => line_text(alloc, *base, *size, *start),
            Reason::Shape { size, sets, ways } => shape_text(alloc, *size, *sets, *ways),
            Reason::Change { part, wrong } => change_text(alloc, *part, *wrong),
            Reason::Count(word) => {
                number_text(alloc, "", word.unwrap_or(""), "is not a count", COUNT)
            }
            Reason::SweptSize(Some(size)) => {
                number_text(
                    alloc,
                    "--size ",
                    size,
                    "is not a size that sweep takes",
                    SWEPT,
                )
            }
            Reason::SweptSize(None) => format!(in alloc; "--size is missing: {SWEPT}"),
            Reason::LineSize(size) => {
                let size = size.unwrap_or("64");
                number_text(alloc, "--size ", size, "is not a line size", LINE_SIZE)
            }
            Reason::Near(size) => {
                let size = size.unwrap_or("4096");
                number_text(alloc, "--near ", size, "is not a region size", NEAR)
            }
            Reason::Place(word) => {
                number_text(alloc, "", word.unwrap_or(""), "is not a position", PLACE)
            }
            Reason::NoTrace => { String::from_str(alloc, "--pcs needs --trace") }
            Reason::SameName(name) => {
                format!(in alloc;
                    "'{name}' is named twice: an output file must differ from all other files"
                )
            }
        }
    }
}
