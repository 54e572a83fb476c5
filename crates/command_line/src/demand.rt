// The table of the commands: what words ask for, how a command's words are read, and which files it
// reads.
ghost use Rattle.std.specs.Prelude.{◌≡◌, IfOk, IfErr, IsErrAnd, Some, None, [], ◌∷◌};
ghost use Rattle.std.specs.Prelude.{false, option_and_then};
ghost use Rattle.command_line.specs.Demands.{texts, IsUsage, UnlessMemory};
ghost use Rattle.command_line.specs.Words.{IsBounded, asked_of, is_command, meaning};
ghost use Rattle.command_line.specs.Words.{with_names_apart};

use crate::blame::BlameForm;
use crate::caches::{CachesForm, CachesOptions};
use crate::check::{CheckForm, CheckOptions};
use crate::convert::{ConvertForm, ConvertOptions};
use crate::explain::{ExplainForm, ExplainOptions};
use crate::files_read::{FilesRead, of_program, of_trace};
use crate::filter::{FilterForm, FilterOptions};
use crate::forms::read;
use crate::generate::{GenForm, GenOptions};
use crate::misses::MissesForm;
use crate::place::{PlaceForm, PlaceOptions};
use crate::reason::Reason;
use crate::relocate::{MoveForm, MoveOptions};
use crate::replay::{ReplayForm, ReplayOptions};
use crate::run::{RunForm, RunOptions};
use crate::split::{SplitForm, SplitOptions};
use crate::sweep::{SweepForm, SweepOptions};
use crate::trace_layout::LayoutOptions;
use std::alloc::{AllocError, Global};

/// A line for each command.
pub const USAGE: &str = concat!(
    "usage: predator run PROGRAM [--settings F] [--schedule F] [--trace F] [--pcs] [--output F]\n",
    "usage: predator replay TRACE [--settings F] [--size N] [--shift N] [--save F] [--resume F]\n",
    "usage: predator check PROGRAM [--settings F]\n",
    "usage: predator split TRACE K A B\n",
    "usage: predator gen N FILE\n",
    "usage: predator convert TRACE FILE\n",
    "usage: predator sweep TRACE --size N\n",
    "usage: predator caches TRACE --size N --sets S --ways W\n",
    "usage: predator place TRACE NAME [--size N]\n",
    "usage: predator move TRACE TABLE FILE\n",
    "usage: predator filter TRACE FILE [--near N]\n",
    "usage: predator misses TRACE [--size N] [--shift N]\n",
    "usage: predator blame TRACE [--size N] [--shift N]\n",
    "usage: predator explain PROGRAM BASE SIZE START [--settings F] [--schedule F]\n",
);

/// What the words ask for: a command, with its options.
#[derive(Clone, Copy, PartialEq, Eq, Debug)]
pub enum Demand<'a> {
    /// Count a trace's accesses, and report. The file that it writes has the name of none that it
    /// reads.
    Replay(ReplayOptions<'a>),
    /// Load and place a program, and describe it.
    Check(CheckOptions<'a>),
    /// Run a program, and report. No file that it writes has the name of another that it reads or
    /// writes.
    Run(RunOptions<'a>),
    /// Cut a trace in two, and report both. The trace and its halves have three names.
    Split(SplitOptions<'a>),
    /// Make a trace, and report it.
    Gen(GenOptions<'a>),
    /// Write a trace in the other version, and report it. The file has another name than the trace.
    Convert(ConvertOptions<'a>),
    /// Count every shift of a line size in a trace, and report which counts least.
    Sweep(SweepOptions<'a>),
    /// Report what is left of a trace's invalidations in private caches of a shape.
    Caches(CachesOptions<'a>),
    /// Give the words of an object of a trace new places, and count again.
    Place(PlaceOptions<'a>),
    /// Write a trace with its accesses moved as a table says, and report it. The file has another
    /// name than the trace and the table.
    Move(MoveOptions<'a>),
    /// Write the filtered trace of a trace, and report it. The file has another name than the
    /// trace.
    Filter(FilterOptions<'a>),
    /// Report what the sharing of each line costs in a trace.
    Misses(LayoutOptions<'a>),
    /// Print which instructions and which harts take the lines of a trace from each other.
    Blame(LayoutOptions<'a>),
    /// Run a program, and report which instructions take one line from each other.
    Explain(ExplainOptions<'a>),
}

impl<'a> Demand<'a> {
    ghost use Rattle.std.specs.Prelude.{option_map};
    ghost use Rattle.command_line.specs.FilesRead.{trace_read};
    ghost use Rattle.command_line.specs.Words.{meaning, trace_of};

    /// The files that are read for it.
    pub fn files(&self) -> FilesRead<'a>
        ensures { option_map trace_read result.trace ≡ trace_of (meaning self.now) }
    {
        match self {
            Demand::Replay(options) => FilesRead {
                settings: options.settings,
                state: options.resume,
                ..of_trace(options.trace, false)
            },
            Demand::Check(options) => { of_program(options.program, options.settings, None) }
            Demand::Run(options) => {
                of_program(options.program, options.settings, options.schedule)
            }
            Demand::Explain(options) => {
                of_program(options.program, options.settings, options.schedule)
            }
            Demand::Split(options) => of_trace(options.trace, true),
            Demand::Convert(options) => of_trace(options.trace, true),
            Demand::Move(options) => FilesRead {
                table: Some(options.table),
                ..of_trace(options.trace, false)
            },
            Demand::Filter(options) => of_trace(options.trace, false),
            Demand::Sweep(options) => of_trace(options.trace, false),
            Demand::Caches(options) => of_trace(options.trace, false),
            Demand::Misses(options) => of_trace(options.trace, false),
            Demand::Blame(options) => of_trace(options.trace, false),
            Demand::Place(options) => of_trace(options.trace, true),
            Demand::Gen(_) => FilesRead::none(),
        }
    }
}

/// Why words give no demand.
#[derive(Debug, Drop)]
pub enum WordsFault<'a> {
    /// They name no command, the command refuses the words after it, or an output has the name of
    /// another output or of an input.
    Usage(Reason<'a>),
    /// Memory ran out.
    NoMemory,
}

impl From<AllocError> for WordsFault<'_> {
    ghost use Rattle.command_line.specs.declared.demand.WordsFault.TheVariants.{NoMemory};

    ghost from_gives = { λ _ e. e ≡ NoMemory };

    fn from(_: AllocError) -> Self {
        WordsFault::NoMemory
    }
}

// What the words ask of the command that the first of them names.
pub fn read_command<'a>(
    alloc: Global,
    command: &'a str,
    words: &'a [String],
) -> Result<Demand<'a>, WordsFault<'a>>
    ensures accepted { IfOk result (λ demand. option_and_then with_names_apart
        (asked_of command.now (texts words.now)) ≡ Some (meaning demand)) }
    ensures refused { IfErr result (λ fault. UnlessMemory fault (option_and_then with_names_apart
        (asked_of command.now (texts words.now)) ≡ None)) }
    ensures bounded { IfOk result IsBounded }
    ensures unknown { is_command (command.now ∷ []) ≡ false → IsErrAnd result IsUsage }
{
    match command {
        "run" => read::<RunForm>(alloc, words),
        "replay" => read::<ReplayForm>(alloc, words),
        "check" => read::<CheckForm>(alloc, words),
        "split" => read::<SplitForm>(alloc, words),
        "gen" => read::<GenForm>(alloc, words),
        "convert" => read::<ConvertForm>(alloc, words),
        "sweep" => read::<SweepForm>(alloc, words),
        "caches" => read::<CachesForm>(alloc, words),
        "place" => read::<PlaceForm>(alloc, words),
        "move" => read::<MoveForm>(alloc, words),
        "filter" => read::<FilterForm>(alloc, words),
        "misses" => read::<MissesForm>(alloc, words),
        "blame" => read::<BlameForm>(alloc, words),
        "explain" => read::<ExplainForm>(alloc, words),
        _ => Err(WordsFault::Usage(Reason::UnknownCommand(command))),
    }
}
