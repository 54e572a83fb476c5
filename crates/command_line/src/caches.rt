// The command `caches`.
ghost use Rattle.std.specs.Prelude.{◌≡◌, option_map};
ghost use Rattle.clap.specs.Words.{found_of, rows_of};
ghost use Rattle.command_line.specs.Caches.{caches_meaning, caches_of, shape_at};
ghost use Rattle.command_line.specs.Demands.{text_of};

use crate::demand::{Demand, WordsFault};
use crate::forms::{Form, matches_of, value_of};
use crate::layout::number;
use crate::reason::Reason;
use base::Shape;
use clap::ArgMatches;
use std::alloc::Global;

/// What `caches` is asked for. A name is a text as it stands in the words.
#[derive(Clone, Copy, PartialEq, Eq, Debug)]
pub struct CachesOptions<'a> {
    /// The name of the trace.
    pub trace: &'a str,
    /// The shape of the caches.
    pub shape: Shape,
}

// The shape of three numbers, where it is allowed.
fn shape_of(size: u32, sets: u32, ways: u32) -> Option<Shape>
    ensures { result ≡ shape_at size sets ways }
{
    Shape::new(size, sets, ways)
}

// The same of numbers of the words.
fn allowed_shape(size: u64, sets: u64, ways: u64) -> Option<Shape>
    ensures { result ≡ shape_at size sets ways }
{
    let size = u32::try_from(size).ok()?;
    let sets = u32::try_from(sets).ok()?;
    let ways = u32::try_from(ways).ok()?;
    shape_of(size, sets, ways)
}

// The shape of three numbers, all of which are given.
fn given_shape(size: Option<&str>, sets: Option<&str>, ways: Option<&str>) -> Option<Shape>
    ensures { result ≡ Rattle.command_line.specs.Caches.given_shape (text_of size.entry)
        (text_of sets.entry) (text_of ways.entry) }
{
    let size = number(size?)?;
    let sets = number(sets?)?;
    let ways = number(ways?)?;
    allowed_shape(size, sets, ways)
}

// What the values of a `caches` ask for, unless its shape is none that is allowed.
fn options_in<'a>(matches: &ArgMatches<'a>) -> Option<CachesOptions<'a>>
    ensures { option_map caches_meaning result ≡ caches_of (rows_of (found_of matches.now)) }
{
    let trace = value_of(matches, "trace")?;
    let shape = given_shape(
        value_of(matches, "size"),
        value_of(matches, "sets"),
        value_of(matches, "ways"),
    )?;
    Some(CachesOptions { trace, shape })
}

/// The words of a `caches`.
pub struct CachesForm;

impl Form for CachesForm {
    ghost use Rattle.command_line.specs.Caches.{asked_of_caches, caches_app, caches_of};
    ghost use Rattle.command_line.specs.Laws.Asked.{given_asked};
    ghost use Rattle.command_line.specs.Words.{given_apart, caches};

    ghost app = { caches_app };

    ghost of = { λ rows. given_apart caches (caches_of rows) };

    ghost asks = { λ words. given_apart caches (asked_of_caches words) };

    fn matches<'a>(alloc: Global, words: &'a [String]) -> Result<ArgMatches<'a>, WordsFault<'a>> {
        matches_of(
            alloc,
            "caches",
            &["trace"],
            &["size", "sets", "ways"],
            words,
        )
    }

    fn demand<'a>(matches: &ArgMatches<'a>) -> Result<Demand<'a>, WordsFault<'a>> {
        match options_in(matches) {
            Some(options) => Ok(Demand::Caches(options)),
            None => Err(WordsFault::Usage(Reason::Shape {
                size: value_of(matches, "size"),
                sets: value_of(matches, "sets"),
                ways: value_of(matches, "ways"),
            })),
        }
    }

    ghost meant = { given_asked caches caches_app caches_of };
}
