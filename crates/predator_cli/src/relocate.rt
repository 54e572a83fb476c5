// The command `move`.
ghost use Rattle.std.specs.Prelude.{◌≡◌, ◌^◌, ◌∷◌, [], Ok, Some};
ghost use Rattle.command_line.specs.Relocate.{move_meaning};
ghost use Rattle.command_line.specs.Words.{relocate as asks};
ghost use Rattle.command_io.specs.Readings.{IsAccepted};
ghost use Rattle.predator_cli.specs.Meets.{Meets};
ghost use Rattle.predator_cli.specs.Relocate.{table_reading};
ghost use Rattle.shelf.specs.Shelf.{Outside, Known, content};
ghost use Rattle.trace_files.specs.Tables.{IsTable, table_of};

use crate::copies::print_copies;
use crate::endings::{refuse, stop};
use crate::trace_faults::status_of_move;
use command_io::{Judge, Status, read_judged};
use command_line::MoveOptions;
use shelf::Shelf;
use std::alloc::Global;
use trace_files::{MoveTable, TableFault, a_moved_trace_is_a_trace, move_trace};

/// A table of moves, of at most 1 MiB.
#[derive(Clone, Copy)]
struct Table;

impl Judge for Table {
    ghost use Rattle.predator_cli.specs.Relocate.{table_refusal};

    type Given = MoveTable;

    ghost most = { λ _. 2 ^ 20 };

    ghost refusal = { λ _ bytes. table_refusal (table_of bytes) };

    ghost gives = { λ _ bytes table. (table_of bytes ≡ Ok table) × IsTable table };

    fn limit(&self) -> u64 {
        1 << 20
    }

    fn too_long(&self) -> Status {
        Status::Table(TableFault::TooLong)
    }

    fn judge(&self, alloc: Global, bytes: &[u8]) -> Result<MoveTable, Status> {
        Ok(MoveTable::read(alloc, bytes)?)
    }
}

// Does it by a table that was read.
fn relocate_by<S: Shelf>(
    alloc: Global,
    options: &MoveOptions<'_>,
    table: &MoveTable,
    shelf: &mut S,
) -> Status
    ensures { (old : Outside)
        → IsAccepted (table_reading options.now.table.now ∷ []) old (S.outside shelf.old)
        → Known (S.outside shelf.old).held
        (λ files. table_of (content files options.now.table.now) ≡ Ok table.now)
        → IsTable table.now
        → Meets (Some (asks (move_meaning options.now))) old (S.outside shelf.new) result }
{
    a_moved_trace_is_a_trace();
    match move_trace(alloc, shelf, options.trace, table, options.file) {
        Ok(made) => print_copies(alloc, shelf, "move", made.accesses, made.moved),
        Err(fault) => refuse(alloc, shelf, status_of_move(fault)),
    }
}

/// Writes the trace of a name under another name with its accesses moved as a table says, and
/// prints how many accesses there are and how many of them are moved. The file is written as the
/// trace is read.
pub fn relocate<S: Shelf>(alloc: Global, options: &MoveOptions<'_>, shelf: &mut S) -> Status
    ensures { Meets (Some (asks (move_meaning options.now)))
        (S.outside shelf.old) (S.outside shelf.new) result }
{
    match read_judged(alloc, shelf, options.table, &Table) {
        Ok(table) => relocate_by(alloc, options, &table, shelf),
        Err(status) => stop(alloc, shelf, status),
    }
}
