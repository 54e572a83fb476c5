// The command `explain`.
ghost use Rattle.std.specs.Prelude.{◌≡◌, ◌^◌, ◌%◌, option_and_then};
ghost use Rattle.std.specs.Prelude.{option_map};
ghost use Rattle.clap.specs.Words.{found_of, rows_of};
ghost use Rattle.command_line.specs.Demands.{text_of};
ghost use Rattle.command_line.specs.Explain.{explain_meaning};
ghost use Rattle.command_line.specs.Explain.{explain_of};
ghost use Rattle.command_line.specs.Layouts.{layout_at};
ghost use Rattle.command_line.specs.Numbers.{address_of, below, number_of};

use crate::address::address;
use crate::demand::{Demand, WordsFault};
use crate::forms::{Form, matches_of, value_of};
use crate::layout::{allowed_layout, number};
use crate::reason::Reason;
use crate::set::{given_changes, wrong_changes};
use base::Layout;
use clap::ArgMatches;
use settings::Changes;
use std::alloc::Global;

/// What an `explain` is asked for. A name is a text as it stands in the words.
#[derive(Clone, Copy, PartialEq, Eq, Debug)]
pub struct ExplainOptions<'a> {
    /// The name of the program file.
    pub program: &'a str,
    /// The layout of the line: its size, and where it begins modulo that.
    pub layout: Layout,
    /// Where the line begins.
    pub base: u32,
    /// The start, below 2^40.
    pub start: u64,
    /// The name of the settings file, where one is given.
    pub settings: Option<&'a str>,
    /// The name of the schedule, where one is given.
    pub schedule: Option<&'a str>,
    /// The numbers in the place of those of the settings.
    pub set: Changes,
}

// The base of a line: an address below 2^32.
fn base_in(word: Option<&str>) -> Option<u32>
    ensures { result ≡ below (2 ^ 32) (option_and_then address_of (text_of word.entry)) }
{
    u32::try_from(address(word?)?).ok()
}

// The size of a line.
fn size_in(word: Option<&str>) -> Option<u64>
    ensures { result ≡ option_and_then number_of (text_of word.entry) }
{
    number(word?)
}

// The start: a number below 2^40.
fn start_in(word: Option<&str>) -> Option<u64>
    ensures { result ≡ below (2 ^ 40) (option_and_then number_of (text_of word.entry)) }
{
    let start = number(word?)?;
    if start < 1 << 40 { Some(start) } else { None }
}

// The layout of a size whose lines begin where a base is.
fn layout_from(base: u32, size: u64) -> Option<Layout>
    ensures { result ≡ layout_at size (base % size) }
{
    match u64::from(base).checked_rem(size) {
        Some(shift) => allowed_layout(size, shift),
        None => None,
    }
}

// What the values of an `explain` ask for.
fn options_in<'a>(matches: &ArgMatches<'a>) -> Option<ExplainOptions<'a>>
    ensures { option_map explain_meaning result ≡ explain_of (rows_of (found_of matches.now)) }
{
    let program = value_of(matches, "program")?;
    let base = base_in(value_of(matches, "base"))?;
    let size = size_in(value_of(matches, "size"))?;
    let start = start_in(value_of(matches, "start"))?;
    let layout = layout_from(base, size)?;
    let set = given_changes(value_of(matches, "set"))?;
    Some(ExplainOptions {
        program,
        layout,
        base,
        start,
        settings: value_of(matches, "settings"),
        schedule: value_of(matches, "schedule"),
        set,
    })
}

// Why they ask for nothing.
fn refusal<'a>(matches: &ArgMatches<'a>) -> Reason<'a> {
    wrong_changes(value_of(matches, "set")).unwrap_or(Reason::Line {
        base: value_of(matches, "base"),
        size: value_of(matches, "size"),
        start: value_of(matches, "start"),
    })
}

/// The words of an `explain`.
pub struct ExplainForm;

impl Form for ExplainForm {
    ghost use Rattle.command_line.specs.Explain.{asked_of_explain, explain_app, explain_of};
    ghost use Rattle.command_line.specs.Laws.Asked.{given_asked};
    ghost use Rattle.command_line.specs.Words.{given_apart, explain};

    ghost app = { explain_app };

    ghost of = { λ rows. given_apart explain (explain_of rows) };

    ghost asks = { λ words. given_apart explain (asked_of_explain words) };

    fn matches<'a>(alloc: Global, words: &'a [String]) -> Result<ArgMatches<'a>, WordsFault<'a>> {
        matches_of(
            alloc,
            "explain",
            &["program", "base", "size", "start"],
            &["settings", "schedule", "set"],
            words,
        )
    }

    fn demand<'a>(matches: &ArgMatches<'a>) -> Result<Demand<'a>, WordsFault<'a>> {
        match options_in(matches) {
            Some(options) => Ok(Demand::Explain(options)),
            None => Err(WordsFault::Usage(refusal(matches))),
        }
    }

    ghost meant = { given_asked explain explain_app explain_of };
}
