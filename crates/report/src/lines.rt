// The lines of one listed line.
ghost use Rattle.std.specs.Prelude.{◌++◌, ◌∷◌, ◌*◌, ◌+ℤ◌, [], pos, codes, OnOk, nat_lt};
ghost use Rattle.std.specs.Prelude.{if◌then◌else◌};
ghost use Rattle.std.specs.Fmt.{decimal};
ghost use Rattle.sharing_rules.specs.Words.{accesses};
ghost use Rattle.base.specs.Addresses.{address_text};
ghost use Rattle.report.specs.Added.{AddsLine, AddsLines, AddsText};
ghost use Rattle.report.specs.Lines.{head_line, owner_words, rest_of_line, word_line, word_lines};
ghost use Rattle.report.specs.Shown.{shown_from};

use crate::words::{kind_name, verdict_name};
use base::{Range, push_address_past};
use line_tracks::{Shadow, Track, verdict};
use sharing_rules::{Owner, Word};
use std::alloc::AllocError;

/// The line of a listed line.
pub fn push_head(text: &mut String, track: &Track, start: u64) -> Result<(), AllocError>
    ensures { OnOk result (AddsLine text.old text.new (head_line (shown_from track.now start))) }
{
    let kind = kind_name(track.kind());
    let range = track.range();
    let size = range.size;
    let count = track.count();
    let verdict = verdict_name(verdict(track.shadow()));
    write!(text, "line {kind} ")?;
    push_address_past(text, range.base, 0)?;
    writeln!(
        text,
        " {size} start {start} count {count} verdict {verdict}"
    )
}

// The end of a word's line: which harts touched it.
fn push_owner(text: &mut String, owner: Owner) -> Result<(), AllocError>
    ensures { OnOk result (AddsText text.old text.new (rest_of_line (owner_words owner))) }
{
    match owner {
        Owner::None => text.push_str("\n"),
        Owner::One(hart) => {
            let number = hart.number();
            writeln!(text, " hart {number}")
        }
        Owner::Many => text.push_str(" many\n"),
    }
}

// The line of word number `i` of a range, up to its numbers.
fn push_numbers(text: &mut String, range: Range, i: u32, word: Word) -> Result<(), AllocError>
    ensures { OnOk result (AddsText text.old text.new
        (codes "word " ++ address_text (range.base +ℤ pos (4 * i))
        ++ codes " reads " ++ decimal word.reads ++ codes " writes " ++ decimal word.writes)) }
{
    let reads = word.reads;
    let writes = word.writes;
    text.push_str("word ")?;
    push_address_past(text, range.base, 4 * u64::from(i))?;
    write!(text, " reads {reads} writes {writes}")
}

// The line of word number `i` of a range.
fn push_word(text: &mut String, range: Range, i: u32, word: Word) -> Result<(), AllocError>
    ensures { OnOk result (AddsLine text.old text.new (word_line range (i, word))) }
{
    let owner = word.owner;
    push_numbers(text, range, i, word)?;
    push_owner(text, owner)
}

// The line of a word, if it was accessed.
fn push_accessed(text: &mut String, range: Range, i: u32, word: Word) -> Result<(), AllocError>
    ensures { OnOk result (AddsLines text.old text.new
        (if nat_lt 0 (accesses word) then word_line range (i, word) ∷ [] else [])) }
{
    if word.reads > 0 || word.writes > 0 {
        push_word(text, range, i, word)?;
    }
    Ok(())
}

/// The lines of the accessed words.
pub fn push_words(text: &mut String, shadow: &Shadow) -> Result<(), AllocError>
    ensures { OnOk result (AddsLines text.old text.new
        (word_lines shadow.now.range shadow.now.words)) }
{
    let range = shadow.range();
    for i in 0..range.size / 4 {
        push_accessed(text, range, i, shadow.word(i))?;
    }
    Ok(())
}
