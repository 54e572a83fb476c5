// Bytes that are written under a name, if one is given.
ghost use Rattle.std.specs.Prelude.{IfErr, OnOk};
ghost use Rattle.command_line.specs.Demands.{text_of};
ghost use Rattle.shelf.specs.Files.{AreCut, AreWritten, one_file};
ghost use Rattle.command_io.specs.Works.{output_for};

use shelf::{Outputs, Shelf, ShelfError};
use std::alloc::Global;

// Writes bytes under a name.
fn write_file<S: Shelf>(
    alloc: Global,
    shelf: &mut S,
    name: &str,
    bytes: &[u8],
) -> Result<(), ShelfError>
    ensures written { OnOk result (AreWritten (one_file name.now bytes.now)
        (S.outside shelf.old) (S.outside shelf.new)) }
    ensures cut { IfErr result (AreCut (one_file name.now bytes.now)
        (S.outside shelf.old) (S.outside shelf.new)) }
{
    let mut outputs = Outputs::new(alloc);
    match outputs.begin(alloc, shelf, name) {
        Ok(()) => {}
        Err(error) => return Err(error),
    }
    match outputs.put(shelf, 0, bytes) {
        Ok(()) => {}
        Err(error) => return Err(error),
    }
    outputs.finish(shelf)
}

/// Writes bytes under a name, if one is given. At an error what stands there is as it was, or a
/// front of them: `Failed` where the writing failed, `NoMemory` where memory runs out.
pub fn save<S: Shelf>(
    alloc: Global,
    shelf: &mut S,
    name: Option<&str>,
    bytes: &[u8],
) -> Result<(), ShelfError>
    ensures written { OnOk result (AreWritten (output_for (text_of name.entry) bytes.now)
        (S.outside shelf.old) (S.outside shelf.new)) }
    ensures cut { IfErr result (AreCut (output_for (text_of name.entry) bytes.now)
        (S.outside shelf.old) (S.outside shelf.new)) }
{
    match name {
        Some(name) => write_file(alloc, shelf, name, bytes),
        None => Ok(()),
    }
}
