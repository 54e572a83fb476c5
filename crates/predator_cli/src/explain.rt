// The command `explain`.
ghost use Rattle.std.specs.Prelude.{◌≡◌, ◌++◌, ◌∷◌, [], IfOk, IsTrue, List, OnOk, Some};
ghost use Rattle.base.specs.Lines.{is_layout};
ghost use Rattle.command_line.specs.Explain.{explain_meaning};
ghost use Rattle.command_line.specs.Run.{run_meaning};
ghost use Rattle.command_line.specs.Words.{explain as asks};
ghost use Rattle.guest.specs.Runs.{rest_of};
ghost use Rattle.objects.specs.Symbols.{Symbol, symbols_of};
ghost use Rattle.settings.specs.Allowed.{IsAllowed};
ghost use Rattle.shelf.specs.Shelf.{Outside};
ghost use Rattle.trace_passes.specs.Lives.{symbols_in};
ghost use Rattle.predator_cli.specs.Explain.{IsToExplain, as_run, explained};
ghost use Rattle.predator_cli.specs.Meets.{Meets};

use crate::endings::{finish, refuse, stop};
use crate::run::{Loaded, load_guest, status_of};
use base::{Layout, NoMemory};
use command_io::Status;
use command_line::{ExplainOptions, RunOptions};
use invalidations::{Explained, explain_run};
use objects::ObjectTable;
use sharing_rules::CacheLine;
use shelf::Shelf;
use std::alloc::Global;
use trace_format::TraceRecord;

// Notes a symbol of the program.
fn note_symbol(table: &mut ObjectTable, item: &TraceRecord) -> Result<(), NoMemory>
    ensures { (seen : List Symbol) → table.old.symbols ≡ symbols_of seen
        → OnOk result (table.new.symbols ≡ symbols_of (seen ++ symbols_in (item.now ∷ []))) }
{
    match item {
        TraceRecord::Symbol {
            kind,
            addr,
            size,
            name,
        } => table.note_symbol(*kind, *addr, *size, name.bytes()),
        TraceRecord::Touch(_, _) => Ok(()),
        TraceRecord::Alloc { .. } => Ok(()),
        TraceRecord::Free { .. } => Ok(()),
        TraceRecord::End(_) => Ok(()),
    }
}

// The symbols of the program, as a table keeps them.
fn symbol_table(alloc: Global, symbols: &[TraceRecord]) -> Result<ObjectTable, NoMemory>
    ensures { IfOk result (λ table. table.symbols ≡ symbols_of (symbols_in symbols.now)) }
{
    let mut table = ObjectTable::new(alloc);
    for symbol in symbols {
        note_symbol(&mut table, symbol)?;
    }
    Ok(table)
}

// A layout is an allowed one. The call does nothing.
fn is_allowed(layout: Layout)
    ensures { IsTrue (is_layout layout.size layout.offset) }
{
    let _ = layout.size();
}

// The run whose files are read, which writes none.
fn run_of<'a>(options: &ExplainOptions<'a>) -> RunOptions<'a>
    ensures { run_meaning result ≡ as_run (explain_meaning options.now) }
{
    RunOptions {
        program: options.program,
        settings: options.settings,
        schedule: options.schedule,
        trace: None,
        pcs: false,
        output: None,
        set: options.set,
    }
}

// The run of a guest that is loaded, and what is reported of the line.
fn watch(alloc: Global, options: &ExplainOptions<'_>, loaded: Loaded) -> Result<Explained, NoMemory>
    requires allowed { IsAllowed loaded.settings }
    requires budget { loaded.guest.setup.budget ≡ loaded.settings.budget }
    ensures ending { IfOk result (λ stated. stated.ending ≡ (rest_of loaded.guest).ending) }
    ensures text { IfOk result (λ stated. stated.text.items
        ≡ (explained (explain_meaning options.now) loaded.symbols.items
        (rest_of loaded.guest)).text) }
{
    let Loaded { guest, symbols, .. } = loaded;
    let table = symbol_table(alloc, &symbols)?;
    let line = CacheLine::at(options.layout, options.base);
    explain_run(alloc, guest, line, options.start, &table)
}

// Runs a guest, and prints what is reported of the line.
fn explain_loaded<S: Shelf>(
    alloc: Global,
    options: &ExplainOptions<'_>,
    loaded: Loaded,
    shelf: &mut S,
) -> Status
    requires allowed { IsAllowed loaded.settings }
    requires budget { loaded.guest.setup.budget ≡ loaded.settings.budget }
    ensures { (old : Outside)
        → IsToExplain (explain_meaning options.now) loaded.symbols.items (rest_of loaded.guest)
        old (S.outside shelf.old)
        → Meets (Some (asks (explain_meaning options.now))) old (S.outside shelf.new) result }
{
    is_allowed(options.layout);
    match watch(alloc, options, loaded) {
        Ok(stated) => finish(shelf, status_of(stated.ending.outcome), &stated.text),
        Err(NoMemory) => refuse(alloc, shelf, Status::NoMemory),
    }
}

/// Runs the program of a name under settings and a schedule, and prints which instructions and
/// which harts took a line from each other.
pub fn explain<S: Shelf>(alloc: Global, options: &ExplainOptions<'_>, shelf: &mut S) -> Status
    ensures { Meets (Some (asks (explain_meaning options.now)))
        (S.outside shelf.old) (S.outside shelf.new) result }
{
    match load_guest(alloc, shelf, &run_of(options)) {
        Err(status) => stop(alloc, shelf, status),
        Ok(loaded) => explain_loaded(alloc, options, loaded, shelf),
    }
}
