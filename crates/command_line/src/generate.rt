// The command `gen`.
ghost use Rattle.std.specs.Prelude.{◌≡◌, ◌≤◌, ◌^◌, option_map};
ghost use Rattle.std.specs.Option.{IfSome};
ghost use Rattle.clap.specs.Words.{found_of, rows_of};
ghost use Rattle.command_line.specs.Gen.{count_in, gen_meaning, gen_of};
ghost use Rattle.command_line.specs.Demands.{text_of};

use crate::demand::{Demand, WordsFault};
use crate::forms::{Form, matches_of, value_of};
use crate::layout::number;
use crate::reason::Reason;
use clap::ArgMatches;
use std::alloc::Global;

// The most accesses that a trace may be asked to have.
const MOST: u64 = 1_000_000_000;

/// What a `gen` is asked for. The name is a text as it stands in the words.
#[derive(Clone, Copy, PartialEq, Eq, Debug)]
pub struct GenOptions<'a> {
    /// How many accesses the trace has, at most 10^9.
    pub count: u64,
    /// The name under which it is written.
    pub file: &'a str,
}

// The number of accesses that a word is, where a trace may have so many.
fn read_count(word: Option<&str>) -> Option<u64>
    ensures value { result ≡ count_in (text_of word.entry) }
    ensures few { IfSome result (λ count. count ≤ 10 ^ 9) }
{
    let count = number(word?)?;
    if count <= MOST { Some(count) } else { None }
}

// What the values of a `gen` ask for.
fn options_in<'a>(matches: &ArgMatches<'a>) -> Option<GenOptions<'a>>
    ensures value { option_map gen_meaning result ≡ gen_of (rows_of (found_of matches.now)) }
    ensures few { IfSome result (λ options. options.count ≤ 10 ^ 9) }
{
    let file = value_of(matches, "file")?;
    let count = read_count(value_of(matches, "count"))?;
    Some(GenOptions { count, file })
}

/// The words of a `gen`.
pub struct GenForm;

impl Form for GenForm {
    ghost use Rattle.command_line.specs.Gen.{asked_of_gen, gen_app, gen_of};
    ghost use Rattle.command_line.specs.Laws.Asked.{given_asked};
    ghost use Rattle.command_line.specs.Words.{given_apart, gen};

    ghost app = { gen_app };

    ghost of = { λ rows. given_apart gen (gen_of rows) };

    ghost asks = { λ words. given_apart gen (asked_of_gen words) };

    fn matches<'a>(alloc: Global, words: &'a [String]) -> Result<ArgMatches<'a>, WordsFault<'a>> {
        matches_of(alloc, "gen", &["count", "file"], &[], words)
    }

    fn demand<'a>(matches: &ArgMatches<'a>) -> Result<Demand<'a>, WordsFault<'a>> {
        match options_in(matches) {
            Some(options) => Ok(Demand::Gen(options)),
            None => Err(WordsFault::Usage(Reason::Count(value_of(matches, "count")))),
        }
    }

    ghost meant = { given_asked gen gen_app gen_of };
}
