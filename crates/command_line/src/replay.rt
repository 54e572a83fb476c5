// The command `replay`.
ghost use Rattle.std.specs.Prelude.{◌≡◌, option_map};
ghost use Rattle.clap.specs.Words.{found_of, rows_of};
ghost use Rattle.command_line.specs.Replay.{replay_inputs};
ghost use Rattle.command_line.specs.Replay.{replay_meaning, replay_of, replay_outputs};
ghost use Rattle.command_line.specs.Names.{are_apart, is_named};

use crate::demand::{Demand, WordsFault};
use crate::forms::{Form, matches_of, value_of};
use crate::layout::read_layout;
use crate::names::is_given;
use crate::reason::Reason;
use crate::set::{given_changes, wrong_changes};
use base::Layout;
use clap::ArgMatches;
use settings::Changes;
use std::alloc::Global;

/// What a `replay` is asked for. A name is a text as it stands in the words.
#[derive(Clone, Copy, PartialEq, Eq, Debug)]
pub struct ReplayOptions<'a> {
    /// The name of the trace.
    pub trace: &'a str,
    /// The name of the settings file, where one is given.
    pub settings: Option<&'a str>,
    /// The layout, where a size or a shift is given. A missing size is 64 bytes, a missing shift 0.
    pub layout: Option<Layout>,
    /// The name under which the state at the trace's end is written, where one is given.
    pub save: Option<&'a str>,
    /// The name of the saved state from which the trace goes on, where one is given.
    pub resume: Option<&'a str>,
    /// The numbers in the place of those of the settings.
    pub set: Changes,
}

// Whether a name is one of the files that are read.
fn is_input(options: &ReplayOptions<'_>, name: &str) -> bool
    ensures { result ≡ is_named name.now (replay_inputs (replay_meaning options.now)) }
{
    is_given(name, options.settings) || is_given(name, options.resume) || name == options.trace
}

// Whether the file that is written has the name of none that is read.
fn has_names_apart(options: &ReplayOptions<'_>) -> bool
    ensures { result ≡ are_apart (replay_outputs (replay_meaning options.now))
        (replay_inputs (replay_meaning options.now)) }
{
    match options.save {
        None => true,
        Some(name) => !is_input(options, name),
    }
}

// What the values of a `replay` ask for, unless its layout is none that is allowed, or
// they name no changes that can be.
fn options_in<'a>(matches: &ArgMatches<'a>) -> Option<ReplayOptions<'a>>
    ensures { option_map replay_meaning result ≡ replay_of (rows_of (found_of matches.now)) }
{
    let trace = value_of(matches, "trace")?;
    let layout = read_layout(value_of(matches, "size"), value_of(matches, "shift"))?;
    let set = given_changes(value_of(matches, "set"))?;
    Some(ReplayOptions {
        trace,
        settings: value_of(matches, "settings"),
        layout,
        save: value_of(matches, "save"),
        resume: value_of(matches, "resume"),
        set,
    })
}

// Why they ask for nothing.
fn refusal<'a>(matches: &ArgMatches<'a>) -> Reason<'a> {
    wrong_changes(value_of(matches, "set")).unwrap_or(Reason::Layout {
        size: value_of(matches, "size"),
        shift: value_of(matches, "shift"),
    })
}

/// The words of a `replay`.
pub struct ReplayForm;

impl Form for ReplayForm {
    ghost use Rattle.command_line.specs.Replay.{asked_of_replay, replay_app, replay_of};
    ghost use Rattle.command_line.specs.Laws.Asked.{given_asked};
    ghost use Rattle.command_line.specs.Words.{given_apart, replay};

    ghost app = { replay_app };

    ghost of = { λ rows. given_apart replay (replay_of rows) };

    ghost asks = { λ words. given_apart replay (asked_of_replay words) };

    fn matches<'a>(alloc: Global, words: &'a [String]) -> Result<ArgMatches<'a>, WordsFault<'a>> {
        matches_of(
            alloc,
            "replay",
            &["trace"],
            &["settings", "size", "shift", "save", "resume", "set"],
            words,
        )
    }

    fn demand<'a>(matches: &ArgMatches<'a>) -> Result<Demand<'a>, WordsFault<'a>> {
        match options_in(matches) {
            Some(options) => {
                if has_names_apart(&options) {
                    Ok(Demand::Replay(options))
                } else {
                    Err(WordsFault::Usage(Reason::SameName(options.save.unwrap_or(options.trace))))
                }
            }
            None => Err(WordsFault::Usage(refusal(matches))),
        }
    }

    ghost meant = { given_asked replay replay_app replay_of };
}
