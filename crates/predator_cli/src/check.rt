// The command `check`.
ghost use Rattle.std.specs.Prelude.{◌≡◌, IfErr, IfOk, Some, string_bytes};
ghost use Rattle.command_line.specs.Check.{check_meaning};
ghost use Rattle.command_line.specs.Words.{check as asks};
ghost use Rattle.program_files.specs.PlacedImages.{IsImageOf};
ghost use Rattle.program_files.specs.Symbols.{symbols_of};
ghost use Rattle.program_files.specs.declared.image.Space.{Space};
ghost use Rattle.program_files.specs.Summaries.{placed_text};
ghost use Rattle.command_io.specs.Readings.{IsStopped};
ghost use Rattle.predator_cli.specs.Check.{check_readings};
ghost use Rattle.predator_cli.specs.Meets.{IsAnswered, Meets};

use crate::endings::{answer, stop};
use base::NoMemory;
use command_io::{
    Judge, PROGRAM_LIMIT, Program, Status, judge_program, read_judged, read_settings,
};
use command_line::CheckOptions;
use program_files::{ElfFault, note_symbols, summary};
use settings::Settings;
use shelf::Shelf;
use std::alloc::Global;

// The summary of a program in memory.
fn program_text(alloc: Global, program: Program<'_>) -> Result<String, NoMemory>
    ensures { IfOk result (λ text. (space : Space)
        → IsImageOf program.entry.view space program.entry.image → program.entry.symbols
        ≡ symbols_of program.entry.view → string_bytes text
        ≡ placed_text space program.entry.view) }
{
    let Program {
        view,
        image,
        symbols,
    } = program;
    let table = note_symbols(alloc, symbols)?;
    summary(alloc, &view, &image, &table)
}

/// A program file that gives its summary, under settings.
#[derive(Clone, Copy)]
struct SummaryOf {
    settings: Settings,
}

impl Judge for SummaryOf {
    ghost use Rattle.std.specs.Prelude.{◌^◌};
    ghost use Rattle.settings.specs.Allowed.{IsAllowed};
    ghost use Rattle.predator_cli.specs.Check.{checked};
    ghost use Rattle.command_io.specs.ProgramFiles.{program_refusal};

    type Given = String;

    ghost ready = { λ j. IsAllowed j.settings };

    ghost most = { λ _. 2 ^ 24 };

    ghost refusal = { λ j bytes. program_refusal j.settings bytes };

    ghost gives = { λ j bytes text. string_bytes text ≡ checked j.settings bytes };

    fn limit(&self) -> u64 {
        PROGRAM_LIMIT
    }

    fn too_long(&self) -> Status {
        Status::Elf(ElfFault::TooLong)
    }

    fn judge(&self, alloc: Global, bytes: &[u8]) -> Result<String, Status> {
        let program = match judge_program(alloc, bytes, &self.settings) {
            Ok(program) => program,
            Err(status) => return Err(status),
        };
        Ok(program_text(alloc, program)?)
    }
}

// The summary of the program of a name, or why there is none.
fn check_text<S: Shelf>(
    alloc: Global,
    options: &CheckOptions<'_>,
    shelf: &mut S,
) -> Result<String, Status>
    ensures answered { IfOk result (λ text. IsAnswered (asks (check_meaning options.now))
        (S.outside shelf.old) (S.outside shelf.new) (string_bytes text)) }
    ensures stopped { IfErr result (IsStopped (check_readings (check_meaning options.now))
        (S.outside shelf.old) (S.outside shelf.new)) }
{
    let settings = match read_settings(alloc, shelf, options.settings, &options.set) {
        Ok(settings) => settings,
        Err(status) => return Err(status),
    };
    match read_judged(alloc, shelf, options.program, &SummaryOf { settings }) {
        Ok(text) => Ok(text),
        Err(status) => Err(status),
    }
}

/// Checks the program of a name: loads it and places it under the settings, and prints its summary.
pub fn check<S: Shelf>(alloc: Global, options: &CheckOptions<'_>, shelf: &mut S) -> Status
    ensures { Meets (Some (asks (check_meaning options.now)))
        (S.outside shelf.old) (S.outside shelf.new) result }
{
    match check_text(alloc, options, shelf) {
        Ok(text) => answer(shelf, text.as_bytes()),
        Err(status) => stop(alloc, shelf, status),
    }
}
