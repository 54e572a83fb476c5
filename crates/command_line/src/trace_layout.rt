// The words of a command that reads a trace under a layout of lines, as `misses` and `blame` do.
ghost use Rattle.std.specs.Prelude.{◌≡◌, ◌≢◌, [], IfOk, IfErr, Some, None, option_map};
ghost use Rattle.clap.specs.Words.{fault_of, found_of, matches_of, rows_of};
ghost use Rattle.command_line.specs.Demands.{texts, UnlessMemory};
ghost use Rattle.command_line.specs.TraceLayouts.{layout_app, layout_demand, layout_meaning};

use crate::demand::WordsFault;
use crate::forms::{matches_of, value_of};
use crate::layout::given_layout;
use crate::reason::Reason;
use base::Layout;
use clap::ArgMatches;
use std::alloc::Global;

/// What a command is asked for that reads a trace under a layout of lines. The name is as it was
/// given.
#[derive(Clone, Copy, PartialEq, Eq, Debug)]
pub struct LayoutOptions<'a> {
    /// The name of the trace.
    pub trace: &'a str,
    /// The layout of the lines. A missing size is 64 bytes, a missing shift 0.
    pub layout: Layout,
}

// What the values of the command ask for, unless its layout is none that is allowed.
fn options_in<'a>(matches: &ArgMatches<'a>) -> Option<LayoutOptions<'a>>
    ensures { option_map layout_meaning result ≡ layout_demand (rows_of (found_of matches.now)) }
{
    let trace = value_of(matches, "trace")?;
    let layout = given_layout(value_of(matches, "size"), value_of(matches, "shift"))?;
    Some(LayoutOptions { trace, layout })
}

// The same, or why they are refused.
pub fn layout_options<'a>(matches: &ArgMatches<'a>) -> Result<LayoutOptions<'a>, WordsFault<'a>>
    ensures accepted { IfOk result (λ options.
        layout_demand (rows_of (found_of matches.now)) ≡ Some (layout_meaning options)) }
    ensures refused { IfErr result (λ fault. UnlessMemory fault
        (layout_demand (rows_of (found_of matches.now)) ≡ None)) }
{
    match options_in(matches) {
        Some(options) => Ok(options),
        None => Err(WordsFault::Usage(Reason::Layout {
            size: value_of(matches, "size"),
            shift: value_of(matches, "shift"),
        })),
    }
}

// What `clap` makes of the words for the command of a name.
pub fn layout_matches<'a>(
    alloc: Global,
    name: &'a str,
    words: &'a [String],
) -> Result<ArgMatches<'a>, WordsFault<'a>>
    ensures taken { IfOk result (λ matches. fault_of (layout_app name.entry.now) (texts words.now)
        ≡ []) }
    ensures rows { IfOk result (λ matches. rows_of (found_of matches)
        ≡ matches_of (layout_app name.entry.now) (texts words.now)) }
    ensures refused { IfErr result (λ fault. UnlessMemory fault
        (fault_of (layout_app name.entry.now) (texts words.now) ≢ [])) }
{
    matches_of(alloc, name, &["trace"], &["size", "shift"], words)
}
