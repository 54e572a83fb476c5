// The command `convert`.
ghost use Rattle.std.specs.Prelude.{◌≡◌, option_map};
ghost use Rattle.clap.specs.Words.{found_of, rows_of};
ghost use Rattle.command_line.specs.Convert.{convert_inputs};
ghost use Rattle.command_line.specs.Convert.{convert_meaning, convert_of, convert_outputs};
ghost use Rattle.command_line.specs.Names.{are_apart};

use crate::demand::{Demand, WordsFault};
use crate::forms::{Form, matches_of, value_of};
use crate::reason::Reason;
use clap::ArgMatches;
use std::alloc::Global;

/// What a `convert` is asked for. A name is a text as it stands in the words.
#[derive(Clone, Copy, PartialEq, Eq, Debug)]
pub struct ConvertOptions<'a> {
    /// The name of the trace.
    pub trace: &'a str,
    /// The name under which it is written in the other version.
    pub file: &'a str,
}

// Whether the file has another name than the trace.
fn has_names_apart(options: &ConvertOptions<'_>) -> bool
    ensures { result ≡ are_apart (convert_outputs (convert_meaning options.now))
        (convert_inputs (convert_meaning options.now)) }
{
    options.file != options.trace
}

// What the values of a `convert` ask for.
fn options_in<'a>(matches: &ArgMatches<'a>) -> Option<ConvertOptions<'a>>
    ensures { option_map convert_meaning result ≡ convert_of (rows_of (found_of matches.now)) }
{
    let trace = value_of(matches, "trace")?;
    let file = value_of(matches, "file")?;
    Some(ConvertOptions { trace, file })
}

/// The words of a `convert`.
pub struct ConvertForm;

impl Form for ConvertForm {
    ghost use Rattle.command_line.specs.Convert.{asked_of_convert, convert_app, convert_of};
    ghost use Rattle.command_line.specs.Laws.Asked.{given_asked};
    ghost use Rattle.command_line.specs.Words.{given_apart, convert};

    ghost app = { convert_app };

    ghost of = { λ rows. given_apart convert (convert_of rows) };

    ghost asks = { λ words. given_apart convert (asked_of_convert words) };

    fn matches<'a>(alloc: Global, words: &'a [String]) -> Result<ArgMatches<'a>, WordsFault<'a>> {
        matches_of(alloc, "convert", &["trace", "file"], &[], words)
    }

    fn demand<'a>(matches: &ArgMatches<'a>) -> Result<Demand<'a>, WordsFault<'a>> {
        match options_in(matches) {
            Some(options) => {
                if has_names_apart(&options) {
                    Ok(Demand::Convert(options))
                } else {
                    Err(WordsFault::Usage(Reason::SameName(options.file)))
                }
            }
            None => Err(WordsFault::Usage(Reason::Missing("FILE"))),
        }
    }

    ghost meant = { given_asked convert convert_app convert_of };
}
