// The command `check`.
ghost use Rattle.std.specs.Prelude.{◌≡◌, option_map};
ghost use Rattle.clap.specs.Words.{found_of, rows_of};
ghost use Rattle.command_line.specs.Check.{check_meaning, check_of};

use crate::demand::{Demand, WordsFault};
use crate::forms::{Form, matches_of, value_of};
use crate::reason::Reason;
use crate::set::{given_changes, wrong_changes};
use clap::ArgMatches;
use settings::Changes;
use std::alloc::Global;

/// What a `check` is asked for. A name is a text as it stands in the words.
#[derive(Clone, Copy, PartialEq, Eq, Debug)]
pub struct CheckOptions<'a> {
    /// The name of the program file.
    pub program: &'a str,
    /// The name of the settings file, where one is given.
    pub settings: Option<&'a str>,
    /// The numbers in the place of those of the settings.
    pub set: Changes,
}

// What the values of a `check` ask for.
fn options_in<'a>(matches: &ArgMatches<'a>) -> Option<CheckOptions<'a>>
    ensures { option_map check_meaning result ≡ check_of (rows_of (found_of matches.now)) }
{
    let program = value_of(matches, "program")?;
    let set = given_changes(value_of(matches, "set"))?;
    Some(CheckOptions {
        program,
        settings: value_of(matches, "settings"),
        set,
    })
}

// Why they ask for nothing.
fn refusal<'a>(matches: &ArgMatches<'a>) -> Reason<'a> {
    wrong_changes(value_of(matches, "set")).unwrap_or(Reason::Missing("PROGRAM"))
}

/// The words of a `check`.
pub struct CheckForm;

impl Form for CheckForm {
    ghost use Rattle.command_line.specs.Check.{asked_of_check, check_app, check_of};
    ghost use Rattle.command_line.specs.Laws.Asked.{given_asked};
    ghost use Rattle.command_line.specs.Words.{given_apart, check};

    ghost app = { check_app };

    ghost of = { λ rows. given_apart check (check_of rows) };

    ghost asks = { λ words. given_apart check (asked_of_check words) };

    fn matches<'a>(alloc: Global, words: &'a [String]) -> Result<ArgMatches<'a>, WordsFault<'a>> {
        matches_of(alloc, "check", &["program"], &["settings", "set"], words)
    }

    fn demand<'a>(matches: &ArgMatches<'a>) -> Result<Demand<'a>, WordsFault<'a>> {
        match options_in(matches) {
            Some(options) => Ok(Demand::Check(options)),
            None => Err(WordsFault::Usage(refusal(matches))),
        }
    }

    ghost meant = { given_asked check check_app check_of };
}
