// The command `sweep`.
ghost use Rattle.std.specs.Prelude.{◌≡◌, IsTrue, option_map};
ghost use Rattle.std.specs.Option.{IfSome};
ghost use Rattle.clap.specs.Words.{found_of, rows_of};
ghost use Rattle.command_line.specs.Demands.{text_of};
ghost use Rattle.command_line.specs.Sweep.{is_swept_size, size_in};
ghost use Rattle.command_line.specs.Sweep.{sweep_meaning, sweep_of};

use crate::demand::{Demand, WordsFault};
use crate::forms::{Form, matches_of, value_of};
use crate::layout::number;
use crate::reason::Reason;
use clap::ArgMatches;
use std::alloc::Global;

/// What a `sweep` is asked for. The name is a text as it stands in the words.
#[derive(Clone, Copy, PartialEq, Eq, Debug)]
pub struct SweepOptions<'a> {
    /// The name of the trace.
    pub trace: &'a str,
    /// The size of a line in bytes, a power of two from 4 to 256.
    pub size: u32,
}

// Whether every shift of a size can be counted.
fn is_allowed(size: u32) -> bool
    ensures { result ≡ is_swept_size size }
{
    matches!(size, 4 | 8 | 16 | 32 | 64 | 128 | 256)
}

// The size that a word is, where it is allowed.
fn read_size(word: Option<&str>) -> Option<u32>
    ensures value { result ≡ size_in (text_of word.entry) }
    ensures allowed { IfSome result (λ size. IsTrue (is_swept_size size)) }
{
    let size = u32::try_from(number(word?)?).ok()?;
    if is_allowed(size) { Some(size) } else { None }
}

// What the values of a `sweep` ask for.
fn options_in<'a>(matches: &ArgMatches<'a>) -> Option<SweepOptions<'a>>
    ensures value { option_map sweep_meaning result ≡ sweep_of (rows_of (found_of matches.now)) }
    ensures allowed { IfSome result (λ options. IsTrue (is_swept_size options.size)) }
{
    let trace = value_of(matches, "trace")?;
    let size = read_size(value_of(matches, "size"))?;
    Some(SweepOptions { trace, size })
}

/// The words of a `sweep`.
pub struct SweepForm;

impl Form for SweepForm {
    ghost use Rattle.command_line.specs.Sweep.{asked_of_sweep, sweep_app, sweep_of};
    ghost use Rattle.command_line.specs.Laws.Asked.{given_asked};
    ghost use Rattle.command_line.specs.Words.{given_apart, sweep};

    ghost app = { sweep_app };

    ghost of = { λ rows. given_apart sweep (sweep_of rows) };

    ghost asks = { λ words. given_apart sweep (asked_of_sweep words) };

    fn matches<'a>(alloc: Global, words: &'a [String]) -> Result<ArgMatches<'a>, WordsFault<'a>> {
        matches_of(alloc, "sweep", &["trace"], &["size"], words)
    }

    fn demand<'a>(matches: &ArgMatches<'a>) -> Result<Demand<'a>, WordsFault<'a>> {
        match options_in(matches) {
            Some(options) => Ok(Demand::Sweep(options)),
            None => Err(WordsFault::Usage(Reason::SweptSize(value_of(matches, "size")))),
        }
    }

    ghost meant = { given_asked sweep sweep_app sweep_of };
}
