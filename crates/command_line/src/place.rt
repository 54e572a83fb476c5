// The command `place`.
ghost use Rattle.std.specs.Prelude.{◌≡◌, IsTrue, option_map};
ghost use Rattle.std.specs.Option.{IfSome};
ghost use Rattle.base.specs.Lines.{is_line_size};
ghost use Rattle.clap.specs.Words.{found_of, rows_of};
ghost use Rattle.command_line.specs.Place.{place_meaning, place_demand_of};

use crate::address::marked_address;
use crate::demand::{Demand, WordsFault};
use crate::forms::{Form, matches_of, value_of};
use crate::layout::given_size;
use crate::reason::Reason;
use clap::ArgMatches;
use std::alloc::Global;

/// What a `place` is asked for. A name is a text as it stands in the words.
#[derive(Clone, Copy, PartialEq, Eq, Debug)]
pub struct PlaceOptions<'a> {
    /// The name of the trace.
    pub trace: &'a str,
    /// The name of the object, of any bytes.
    pub name: &'a str,
    /// The address that the name is, where it is `0x` and one to eight hexadecimal digits.
    pub at: Option<u32>,
    /// The size of a line in bytes, a power of two from 4 to 1024. A missing one is 64.
    pub size: u32,
}

// What the values of a `place` ask for, unless its size is none that is allowed.
fn options_in<'a>(matches: &ArgMatches<'a>) -> Option<PlaceOptions<'a>>
    ensures value { option_map place_meaning result ≡ place_demand_of (rows_of (found_of matches.now)) }
    ensures allowed { IfSome result (λ options. IsTrue (is_line_size options.size)) }
{
    let trace = value_of(matches, "trace")?;
    let name = value_of(matches, "name")?;
    let size = given_size(value_of(matches, "size"))?;
    Some(PlaceOptions {
        trace,
        name,
        at: marked_address(name),
        size,
    })
}

/// The words of a `place`.
pub struct PlaceForm;

impl Form for PlaceForm {
    ghost use Rattle.command_line.specs.Place.{asked_of_place, place_app, place_demand_of};
    ghost use Rattle.command_line.specs.Laws.Asked.{given_asked};
    ghost use Rattle.command_line.specs.Words.{given_apart, place};

    ghost app = { place_app };

    ghost of = { λ rows. given_apart place (place_demand_of rows) };

    ghost asks = { λ words. given_apart place (asked_of_place words) };

    fn matches<'a>(alloc: Global, words: &'a [String]) -> Result<ArgMatches<'a>, WordsFault<'a>> {
        matches_of(alloc, "place", &["trace", "name"], &["size"], words)
    }

    fn demand<'a>(matches: &ArgMatches<'a>) -> Result<Demand<'a>, WordsFault<'a>> {
        match options_in(matches) {
            Some(options) => Ok(Demand::Place(options)),
            None => Err(WordsFault::Usage(Reason::LineSize(value_of(matches, "size")))),
        }
    }

    ghost meant = { given_asked place place_app place_demand_of };
}
