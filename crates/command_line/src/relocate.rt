// The command `move`.
ghost use Rattle.std.specs.Prelude.{◌≡◌, option_map};
ghost use Rattle.clap.specs.Words.{found_of, rows_of};
ghost use Rattle.command_line.specs.Names.{are_apart};
ghost use Rattle.command_line.specs.Relocate.{move_inputs, move_meaning, move_of};
ghost use Rattle.command_line.specs.Relocate.{move_outputs};

use crate::demand::{Demand, WordsFault};
use crate::forms::{Form, matches_of, value_of};
use crate::reason::Reason;
use clap::ArgMatches;
use std::alloc::Global;

/// What a `move` is asked for. A name is a text as it stands in the words.
#[derive(Clone, Copy, PartialEq, Eq, Debug)]
pub struct MoveOptions<'a> {
    /// The name of the trace.
    pub trace: &'a str,
    /// The name of the table of ranges, and of their places.
    pub table: &'a str,
    /// The name under which the trace is written with its accesses moved.
    pub file: &'a str,
}

// Whether the file has another name than the trace and the table.
fn has_names_apart(options: &MoveOptions<'_>) -> bool
    ensures { result ≡ are_apart (move_outputs (move_meaning options.now))
        (move_inputs (move_meaning options.now)) }
{
    options.file != options.table && options.file != options.trace
}

// What the values of a `move` ask for.
fn options_in<'a>(matches: &ArgMatches<'a>) -> Option<MoveOptions<'a>>
    ensures { option_map move_meaning result ≡ move_of (rows_of (found_of matches.now)) }
{
    let trace = value_of(matches, "trace")?;
    let table = value_of(matches, "table")?;
    let file = value_of(matches, "file")?;
    Some(MoveOptions { trace, table, file })
}

/// The words of a `move`.
pub struct MoveForm;

impl Form for MoveForm {
    ghost use Rattle.command_line.specs.Relocate.{asked_of_move, move_app, move_of};
    ghost use Rattle.command_line.specs.Laws.Asked.{given_asked};
    ghost use Rattle.command_line.specs.Words.{given_apart, relocate};

    ghost app = { move_app };

    ghost of = { λ rows. given_apart relocate (move_of rows) };

    ghost asks = { λ words. given_apart relocate (asked_of_move words) };

    fn matches<'a>(alloc: Global, words: &'a [String]) -> Result<ArgMatches<'a>, WordsFault<'a>> {
        matches_of(alloc, "move", &["trace", "table", "file"], &[], words)
    }

    fn demand<'a>(matches: &ArgMatches<'a>) -> Result<Demand<'a>, WordsFault<'a>> {
        match options_in(matches) {
            Some(options) => {
                if has_names_apart(&options) {
                    Ok(Demand::Move(options))
                } else {
                    Err(WordsFault::Usage(Reason::SameName(options.file)))
                }
            }
            None => Err(WordsFault::Usage(Reason::Missing("FILE"))),
        }
    }

    ghost meant = { given_asked relocate move_app move_of };
}
