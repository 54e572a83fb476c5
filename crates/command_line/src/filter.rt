// The command `filter`.
ghost use Rattle.std.specs.Prelude.{◌≡◌, ◌≤◌, option_map};
ghost use Rattle.std.specs.Option.{IfSome};
ghost use Rattle.clap.specs.Words.{found_of, rows_of};
ghost use Rattle.command_line.specs.Demands.{text_of};
ghost use Rattle.command_line.specs.Filter.{filter_inputs, filter_meaning, filter_of};
ghost use Rattle.command_line.specs.Filter.{filter_outputs, given_near, near_at};
ghost use Rattle.command_line.specs.Names.{are_apart};

use crate::demand::{Demand, WordsFault};
use crate::forms::{Form, matches_of, value_of};
use crate::layout::number;
use crate::reason::Reason;
use clap::ArgMatches;
use std::alloc::Global;

// The logarithm of the bytes of a region where none is given: 4096 bytes.
const USUAL_NEAR: u16 = 12;

/// What a `filter` is asked for. A name is a text as it stands in the words.
#[derive(Clone, Copy, PartialEq, Eq, Debug)]
pub struct FilterOptions<'a> {
    /// The name of the trace.
    pub trace: &'a str,
    /// The name under which the filtered trace is written.
    pub file: &'a str,
    /// The logarithm of the bytes of a region, from 6 to 16. A missing one is 12.
    pub near: u16,
}

// Whether the file has another name than the trace.
fn has_names_apart(options: &FilterOptions<'_>) -> bool
    ensures { result ≡ are_apart (filter_outputs (filter_meaning options.now))
        (filter_inputs (filter_meaning options.now)) }
{
    options.file != options.trace
}

// The logarithm of a number of bytes, where regions may have so many.
fn near_at(size: u64) -> Option<u16>
    ensures value { result ≡ near_at size }
    ensures allowed { IfSome result (λ near. (6 ≤ near) × (near ≤ 16)) }
{
    match size {
        64 => Some(6),
        128 => Some(7),
        256 => Some(8),
        512 => Some(9),
        1024 => Some(10),
        2048 => Some(11),
        4096 => Some(12),
        8192 => Some(13),
        16384 => Some(14),
        32768 => Some(15),
        65536 => Some(16),
        _ => None,
    }
}

// The logarithm of the number that a word is, where it is allowed, and the usual one where there is
// no word.
fn given_near(word: Option<&str>) -> Option<u16>
    ensures value { result ≡ given_near (text_of word.entry) }
    ensures allowed { IfSome result (λ near. (6 ≤ near) × (near ≤ 16)) }
{
    match word {
        Some(text) => near_at(number(text)?),
        None => Some(USUAL_NEAR),
    }
}

// What the values of a `filter` ask for, unless its regions have a size that isn't allowed.
fn options_in<'a>(matches: &ArgMatches<'a>) -> Option<FilterOptions<'a>>
    ensures value { option_map filter_meaning result ≡ filter_of (rows_of (found_of matches.now)) }
    ensures allowed { IfSome result (λ options. (6 ≤ options.near) × (options.near ≤ 16)) }
{
    let trace = value_of(matches, "trace")?;
    let file = value_of(matches, "file")?;
    let near = given_near(value_of(matches, "near"))?;
    Some(FilterOptions { trace, file, near })
}

/// The words of a `filter`.
pub struct FilterForm;

impl Form for FilterForm {
    ghost use Rattle.command_line.specs.Filter.{asked_of_filter, filter_app, filter_of};
    ghost use Rattle.command_line.specs.Laws.Asked.{given_asked};
    ghost use Rattle.command_line.specs.Words.{filter, given_apart};

    ghost app = { filter_app };

    ghost of = { λ rows. given_apart filter (filter_of rows) };

    ghost asks = { λ words. given_apart filter (asked_of_filter words) };

    fn matches<'a>(alloc: Global, words: &'a [String]) -> Result<ArgMatches<'a>, WordsFault<'a>> {
        matches_of(alloc, "filter", &["trace", "file"], &["near"], words)
    }

    fn demand<'a>(matches: &ArgMatches<'a>) -> Result<Demand<'a>, WordsFault<'a>> {
        match options_in(matches) {
            Some(options) => {
                if has_names_apart(&options) {
                    Ok(Demand::Filter(options))
                } else {
                    Err(WordsFault::Usage(Reason::SameName(options.file)))
                }
            }
            None => Err(WordsFault::Usage(Reason::Near(value_of(matches, "near")))),
        }
    }

    ghost meant = { given_asked filter filter_app filter_of };
}
