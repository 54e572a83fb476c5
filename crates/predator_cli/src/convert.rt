// The command `convert`.
ghost use Rattle.std.specs.Prelude.{◌≡◌, Some};
ghost use Rattle.command_line.specs.Convert.{convert_meaning};
ghost use Rattle.command_line.specs.Words.{convert as asks};
ghost use Rattle.predator_cli.specs.Convert.{version_number};
ghost use Rattle.predator_cli.specs.Meets.{Meets};

use crate::copies::print_copies;
use crate::endings::refuse;
use crate::trace_faults::status_of_copy;
use command_io::Status;
use command_line::ConvertOptions;
use shelf::Shelf;
use std::alloc::Global;
use trace_files::convert_trace;
use trace_format::Version;

fn version_number(version: Version) -> u64
    ensures { result ≡ version_number version }
{
    match version {
        Version::One => 1,
        Version::Two => 2,
        Version::Three => 3,
        Version::Four => 4,
    }
}

/// Writes the trace of a name in the other version under another name, and prints which version
/// that is and how many accesses there are.
pub fn convert<S: Shelf>(alloc: Global, options: &ConvertOptions<'_>, shelf: &mut S) -> Status
    ensures { Meets (Some (asks (convert_meaning options.now)))
        (S.outside shelf.old) (S.outside shelf.new) result }
{
    match convert_trace(alloc, shelf, options.trace, options.file) {
        Ok(made) => {
            let version = version_number(made.version);
            print_copies(alloc, shelf, "convert", version, made.accesses)
        }
        Err(fault) => refuse(alloc, shelf, status_of_copy(fault)),
    }
}
