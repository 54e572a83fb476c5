// The symbols of a program, noted and counted.
ghost use Rattle.std.specs.Prelude.{◌≡◌, [], false, slice_get, IfOk};
ghost use Rattle.std.specs.Option.{option_map_or};
ghost use Rattle.objects.specs.Symbols.{is_same_kind};
ghost use Rattle.program_files.specs.NotedSymbols.{count_of, noted};

use crate::Symbols;
use base::NoMemory;
use objects::{ObjectTable, SymbolKind};
use std::alloc::Global;

/// A table of symbols, in their order: one with the kind, address and size of an earlier one is
/// dropped, and of a name of more than 1024 bytes the first 1024 are kept. It takes memory for what
/// is kept.
pub fn note_symbols(alloc: Global, mut symbols: Symbols<'_>) -> Result<ObjectTable, NoMemory>
    ensures symbols { IfOk result (λ table. table.symbols ≡ noted symbols.entry) }
    ensures blocks { IfOk result (λ table. table.blocks ≡ []) }
{
    let mut table = ObjectTable::new(alloc);
    while let Some(symbol) = symbols.next() {
        match table.note_symbol(symbol.kind, symbol.addr, symbol.size, symbol.name) {
            Ok(()) => {}
            Err(fault) => return Err(fault),
        }
    }
    Ok(table)
}

fn is_same_kind(a: SymbolKind, b: SymbolKind) -> bool
    ensures { result ≡ is_same_kind a b }
{
    a == b
}

// Whether a table has a symbol of a number, and it is of a kind.
fn is_of_kind(symbols: &ObjectTable, i: usize, kind: SymbolKind) -> bool
    ensures { result ≡ option_map_or (λ s. is_same_kind s.kind kind)
        (slice_get symbols.now.symbols i) false }
{
    match symbols.symbol(i) {
        Some(symbol) => is_same_kind(symbol.kind, kind),
        None => false,
    }
}

// How many symbols of a table are of a kind.
pub(crate) fn count_of(symbols: &ObjectTable, kind: SymbolKind) -> usize
    ensures { result ≡ count_of kind symbols.now.symbols }
{
    let mut count = 0usize;
    for i in 0..symbols.symbol_count() {
        if is_of_kind(symbols, i, kind) {
            count += 1;
        }
    }
    count
}
