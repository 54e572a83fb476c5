// The command `blame`.
use crate::demand::{Demand, WordsFault};
use crate::forms::Form;
use crate::trace_layout::{layout_matches, layout_options};
use clap::ArgMatches;
use std::alloc::Global;

/// The words of a `blame`.
pub struct BlameForm;

impl Form for BlameForm {
    ghost use Rattle.std.specs.Prelude.{codes};
    ghost use Rattle.command_line.specs.Blame.{asked_of_blame};
    ghost use Rattle.command_line.specs.Laws.Asked.{given_asked};
    ghost use Rattle.command_line.specs.TraceLayouts.{layout_app, layout_demand};
    ghost use Rattle.command_line.specs.Words.{given_apart, blame};

    ghost app = { layout_app (codes "blame") };

    ghost of = { λ rows. given_apart blame (layout_demand rows) };

    ghost asks = { λ words. given_apart blame (asked_of_blame words) };

    fn matches<'a>(alloc: Global, words: &'a [String]) -> Result<ArgMatches<'a>, WordsFault<'a>> {
        layout_matches(alloc, "blame", words)
    }

    fn demand<'a>(matches: &ArgMatches<'a>) -> Result<Demand<'a>, WordsFault<'a>> {
        match layout_options(matches) {
            Ok(options) => Ok(Demand::Blame(options)),
            Err(fault) => Err(fault),
        }
    }

    ghost meant = { given_asked blame (layout_app (codes "blame")) layout_demand };
}
