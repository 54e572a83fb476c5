// How a program file is judged: viewed, placed, and its symbols.
ghost use Rattle.std.specs.Prelude.{◌≡◌, ◌≤◌, ◌^◌, Err, IfErr, IfOk, None, OnOk, length};
ghost use Rattle.program_files.specs.PlacedImages.{IsAllowedSpace, IsImageOf, image_of};
ghost use Rattle.program_files.specs.Symbols.{symbols_of};
ghost use Rattle.settings.specs.Allowed.{IsAllowed};
ghost use Rattle.command_io.specs.ProgramFiles.{IsStartable, program_refusal, space_of as space};
ghost use Rattle.command_io.specs.Readings.{IsJudged};

use crate::Status;
use program_files::{ElfView, Image, Space, Symbols, place, place_fault};
use settings::Settings;
use std::alloc::Global;

/// The most bytes of a program file.
pub const PROGRAM_LIMIT: u64 = 1 << 24;

/// A program in memory, with its symbols. It borrows the file.
#[derive(Drop)]
pub struct Program<'a> {
    /// The file.
    pub view: ElfView<'a>,
    /// Its image.
    pub image: Image,
    /// Its symbols.
    pub symbols: Symbols<'a>,
}

// The space that settings give a program.
fn space_of(settings: &Settings) -> Space
    requires { IsAllowed settings.now }
    ensures value { result ≡ space settings.now }
    ensures allowed { IsAllowedSpace result }
{
    Space {
        memory: settings.memory,
        stack: settings.stack,
        harts: settings.harts,
    }
}

/// The program that a content of at most 2^24 bytes is, under settings, or why the command stops:
/// `Elf` by its first fault, as it is viewed, as it is placed, and then of its symbols; `NoMemory`
/// where memory runs out.
pub fn judge_program<'a>(
    alloc: Global,
    bytes: &'a [u8],
    settings: &Settings,
) -> Result<Program<'a>, Status>
    requires allowed { IsAllowed settings.now }
    requires short { length bytes.now ≤ 2 ^ 24 }
    ensures view { IfOk result (λ program. program.view ≡ bytes.now) }
    ensures image { IfOk result (λ program. program.image
        ≡ image_of (space settings.now) bytes.now) }
    ensures placed { IfOk result (λ program. IsImageOf bytes.now (space settings.now)
        program.image) }
    ensures starts { IfOk result (λ program. IsStartable program.image) }
    ensures symbols { IfOk result (λ program. program.symbols ≡ symbols_of bytes.now) }
    ensures accepted { OnOk result (program_refusal settings.now bytes.now ≡ None) }
    ensures judged { IfErr result (IsJudged (program_refusal settings.now bytes.now)) }
    // no memory is taken for a file that is refused
    ensures memory { result ≡ Err Status.NoMemory
        → program_refusal settings.now bytes.now ≡ None }
{
    let view = ElfView::read(bytes)?;
    let space = space_of(settings);
    match view.symbols() {
        Ok(symbols) => {
            let image = place(alloc, &view, space)?;
            Ok(Program {
                view,
                image,
                symbols,
            })
        }
        Err(fault) => Err(Status::Elf(place_fault(&view, space).unwrap_or(fault))),
    }
}
