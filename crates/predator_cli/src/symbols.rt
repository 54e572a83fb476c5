// The symbols of a program, as its trace records them.
ghost use Rattle.std.specs.Prelude.{◌≡◌, ◌≤◌, ◌≢◌, IfOk, map};
ghost use Rattle.std.specs.List.{All};
ghost use Rattle.base.specs.Names.{name_of};
ghost use Rattle.trace_format.specs.declared.record.TraceRecord.TheVariants as records;
ghost use Rattle.run_recorder.specs.Recorded.{IsSymbolRecord};
ghost use Rattle.predator_cli.specs.Run.{HasNameAndSize, symbol_record};

use base::{Name, NoMemory};
use objects::SymbolKind;
use program_files::Symbols;
use std::alloc::Global;
use trace_format::TraceRecord;

// A symbol of some bytes, as a trace records it: of a name of more than 1024 bytes the first 1024.
fn record_of(
    alloc: Global,
    kind: SymbolKind,
    addr: u32,
    size: u32,
    name: &[u8],
) -> Result<TraceRecord, NoMemory>
    requires some { 1 ≤ size }
    requires no_zero { All (λ b. b ≢ 0) name.now }
    ensures value { IfOk result (λ stated. stated ≡ records.Symbol kind addr size (name_of name.now)) }
    ensures good { IfOk result IsSymbolRecord }
{
    let kept = Name::new(alloc, name)?;
    Ok(TraceRecord::Symbol {
        kind,
        addr,
        size,
        name: kept,
    })
}

/// The records of the symbols of a program, in their order.
pub fn records_of(alloc: Global, mut symbols: Symbols<'_>) -> Result<Vec<TraceRecord>, NoMemory>
    requires { All HasNameAndSize symbols }
    ensures value { IfOk result (λ stated. stated.items ≡ map symbol_record symbols.entry) }
    ensures good { IfOk result (λ stated. All IsSymbolRecord stated.items) }
{
    let mut records = Vec::new(alloc);
    while let Some(symbol) = symbols.next() {
        let record = record_of(alloc, symbol.kind, symbol.addr, symbol.size, symbol.name)?;
        records.push(record)?;
    }
    Ok(records)
}
