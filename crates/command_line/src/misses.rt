// The command `misses`.
use crate::demand::{Demand, WordsFault};
use crate::forms::Form;
use crate::trace_layout::{layout_matches, layout_options};
use clap::ArgMatches;
use std::alloc::Global;

/// The words of a `misses`.
pub struct MissesForm;

impl Form for MissesForm {
    ghost use Rattle.std.specs.Prelude.{codes};
    ghost use Rattle.command_line.specs.Misses.{asked_of_misses};
    ghost use Rattle.command_line.specs.Laws.Asked.{given_asked};
    ghost use Rattle.command_line.specs.TraceLayouts.{layout_app, layout_demand};
    ghost use Rattle.command_line.specs.Words.{given_apart, misses};

    ghost app = { layout_app (codes "misses") };

    ghost of = { λ rows. given_apart misses (layout_demand rows) };

    ghost asks = { λ words. given_apart misses (asked_of_misses words) };

    fn matches<'a>(alloc: Global, words: &'a [String]) -> Result<ArgMatches<'a>, WordsFault<'a>> {
        layout_matches(alloc, "misses", words)
    }

    fn demand<'a>(matches: &ArgMatches<'a>) -> Result<Demand<'a>, WordsFault<'a>> {
        match layout_options(matches) {
            Ok(options) => Ok(Demand::Misses(options)),
            Err(fault) => Err(fault),
        }
    }

    ghost meant = { given_asked misses (layout_app (codes "misses")) layout_demand };
}
