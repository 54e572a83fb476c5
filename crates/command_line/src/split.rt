// The command `split`.
ghost use Rattle.std.specs.Prelude.{◌≡◌, option_map};
ghost use Rattle.clap.specs.Words.{found_of, rows_of};
ghost use Rattle.command_line.specs.Names.{are_apart};
ghost use Rattle.command_line.specs.Split.{split_inputs, split_meaning};
ghost use Rattle.command_line.specs.Split.{split_of, split_outputs};

use crate::demand::{Demand, WordsFault};
use crate::forms::{Form, matches_of, value_of};
use crate::layout::number;
use crate::reason::Reason;
use clap::ArgMatches;
use std::alloc::Global;

/// What a `split` is asked for. A name is a text as it stands in the words.
#[derive(Clone, Copy, PartialEq, Eq, Debug)]
pub struct SplitOptions<'a> {
    /// The name of the trace.
    pub trace: &'a str,
    /// How many accesses the first half has, unless the trace has fewer.
    pub at: u64,
    /// The name under which the first half is written.
    pub first: &'a str,
    /// The name under which the second half is written.
    pub second: &'a str,
}

// Whether the trace and its halves have three names.
fn has_names_apart(options: &SplitOptions<'_>) -> bool
    ensures { result ≡ are_apart (split_outputs (split_meaning options.now))
        (split_inputs (split_meaning options.now)) }
{
    options.first != options.second
        && options.first != options.trace
        && options.second != options.trace
}

// The half's name that the other half or the trace has.
fn repeated<'a>(options: &SplitOptions<'a>) -> &'a str {
    if options.first == options.second || options.first == options.trace {
        options.first
    } else {
        options.second
    }
}

// What the values of a `split` ask for.
fn options_in<'a>(matches: &ArgMatches<'a>) -> Option<SplitOptions<'a>>
    ensures { option_map split_meaning result ≡ split_of (rows_of (found_of matches.now)) }
{
    let trace = value_of(matches, "trace")?;
    let first = value_of(matches, "first")?;
    let second = value_of(matches, "second")?;
    let at = number(value_of(matches, "at")?)?;
    Some(SplitOptions {
        trace,
        at,
        first,
        second,
    })
}

/// The words of a `split`.
pub struct SplitForm;

impl Form for SplitForm {
    ghost use Rattle.command_line.specs.Split.{asked_of_split, split_app, split_of};
    ghost use Rattle.command_line.specs.Laws.Asked.{given_asked};
    ghost use Rattle.command_line.specs.Words.{given_apart, split};

    ghost app = { split_app };

    ghost of = { λ rows. given_apart split (split_of rows) };

    ghost asks = { λ words. given_apart split (asked_of_split words) };

    fn matches<'a>(alloc: Global, words: &'a [String]) -> Result<ArgMatches<'a>, WordsFault<'a>> {
        matches_of(
            alloc,
            "split",
            &["trace", "at", "first", "second"],
            &[],
            words,
        )
    }

    fn demand<'a>(matches: &ArgMatches<'a>) -> Result<Demand<'a>, WordsFault<'a>> {
        match options_in(matches) {
            Some(options) => {
                if has_names_apart(&options) {
                    Ok(Demand::Split(options))
                } else {
                    Err(WordsFault::Usage(Reason::SameName(repeated(&options))))
                }
            }
            None => Err(WordsFault::Usage(Reason::Place(value_of(matches, "at")))),
        }
    }

    ghost meant = { given_asked split split_app split_of };
}
