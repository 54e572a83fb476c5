// The command `run`.
ghost use Rattle.std.specs.Prelude.{◌≡◌, option_map};
ghost use Rattle.clap.specs.Words.{found_of, rows_of};
ghost use Rattle.command_line.specs.Run.{lacks_trace, run_in, run_inputs};
ghost use Rattle.command_line.specs.Run.{run_meaning, run_outputs};
ghost use Rattle.command_line.specs.Names.{are_apart, is_named};

use crate::demand::{Demand, WordsFault};
use crate::forms::{Form, is_set, matches_with_flag, value_of};
use crate::names::is_given;
use crate::reason::Reason;
use crate::set::{given_changes, wrong_changes};
use clap::ArgMatches;
use settings::Changes;
use std::alloc::Global;

/// What a `run` is asked for. A name is a text as it stands in the words.
#[derive(Clone, Copy, PartialEq, Eq, Debug)]
pub struct RunOptions<'a> {
    /// The name of the program file.
    pub program: &'a str,
    /// The name of the settings file, where one is given.
    pub settings: Option<&'a str>,
    /// The name of the schedule, where one is given.
    pub schedule: Option<&'a str>,
    /// The name under which the trace is written, where one is given.
    pub trace: Option<&'a str>,
    /// Whether the trace records the pc of each access. Then there is a trace.
    pub pcs: bool,
    /// The name under which what the guest writes is written, where one is given.
    pub output: Option<&'a str>,
    /// The numbers in the place of those of the settings.
    pub set: Changes,
}

// Whether a name is one of the files that are read.
fn is_input(options: &RunOptions<'_>, name: &str) -> bool
    ensures { result ≡ is_named name.now (run_inputs (run_meaning options.now)) }
{
    is_given(name, options.settings) || name == options.program || is_given(name, options.schedule)
}

// Whether no output has the name of another output or of an input.
fn has_names_apart(options: &RunOptions<'_>) -> bool
    ensures { result ≡ are_apart (run_outputs (run_meaning options.now))
        (run_inputs (run_meaning options.now)) }
{
    match (options.trace, options.output) {
        (None, None) => true,
        (Some(name), None) | (None, Some(name)) => !is_input(options, name),
        (Some(trace), Some(output)) => {
            trace != output && !is_input(options, trace) && !is_input(options, output)
        }
    }
}

// The output's name that another output or an input has.
fn repeated<'a>(options: &RunOptions<'a>) -> &'a str {
    match (options.trace, options.output) {
        (Some(trace), Some(output)) => {
            if trace == output || is_input(options, trace) {
                trace
            } else {
                output
            }
        }
        (Some(name), None) | (None, Some(name)) => name,
        (None, None) => options.program,
    }
}

// What the values of a `run` ask for.
fn options_in<'a>(matches: &ArgMatches<'a>) -> Option<RunOptions<'a>>
    ensures { option_map run_meaning result ≡ run_in (rows_of (found_of matches.now)) }
{
    let program = value_of(matches, "program")?;
    let set = given_changes(value_of(matches, "set"))?;
    Some(RunOptions {
        program,
        settings: value_of(matches, "settings"),
        schedule: value_of(matches, "schedule"),
        trace: value_of(matches, "trace"),
        pcs: is_set(matches, "pcs"),
        output: value_of(matches, "output"),
        set,
    })
}

// Whether pcs are asked for, and no trace.
fn lacks_trace(options: &RunOptions<'_>) -> bool
    ensures { result ≡ lacks_trace (run_meaning options.now) }
{
    options.pcs && options.trace.is_none()
}

// Why they ask for nothing.
fn refusal<'a>(matches: &ArgMatches<'a>) -> Reason<'a> {
    wrong_changes(value_of(matches, "set")).unwrap_or(Reason::Missing("PROGRAM"))
}

/// The words of a `run`.
pub struct RunForm;

impl Form for RunForm {
    ghost use Rattle.command_line.specs.Run.{asked_of_run, run_app, run_of};
    ghost use Rattle.command_line.specs.Laws.Asked.{given_asked};
    ghost use Rattle.command_line.specs.Words.{given_apart, run};

    ghost app = { run_app };

    ghost of = { λ rows. given_apart run (run_of rows) };

    ghost asks = { λ words. given_apart run (asked_of_run words) };

    fn matches<'a>(alloc: Global, words: &'a [String]) -> Result<ArgMatches<'a>, WordsFault<'a>> {
        matches_with_flag(
            alloc,
            "run",
            &["program"],
            &["settings", "schedule", "trace", "output", "set"],
            "pcs",
            words,
        )
    }

    fn demand<'a>(matches: &ArgMatches<'a>) -> Result<Demand<'a>, WordsFault<'a>> {
        match options_in(matches) {
            Some(options) => {
                if lacks_trace(&options) {
                    Err(WordsFault::Usage(Reason::NoTrace))
                } else if has_names_apart(&options) {
                    Ok(Demand::Run(options))
                } else {
                    Err(WordsFault::Usage(Reason::SameName(repeated(&options))))
                }
            }
            None => Err(WordsFault::Usage(refusal(matches))),
        }
    }

    ghost meant = { given_asked run run_app run_of };
}
