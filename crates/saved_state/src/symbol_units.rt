// The symbols of a part, taken up again.
ghost use Rattle.std.specs.Prelude.{◌≡◌, ◌≢◌, ◌≤◌, ◌<◌, ◌+◌, ◌^◌, ◌++◌, ◌∷◌, ◌&&◌, ℕ, suc, drop};
ghost use Rattle.std.specs.Prelude.{Ok, Err, IfOk, IfErr, OnOk, length, nat_eq, take};
ghost use Rattle.std.specs.Int.{w16, w32, to_le_bytes};
ghost use Rattle.std.specs.List.{list_any, starts_with};
ghost use Rattle.base.specs.Fields.{number_at};
ghost use Rattle.base.specs.declared.faults.ResumeFault.TheVariants as faults;
ghost use Rattle.trace_format.specs.Spelling.{kind_number};
ghost use Rattle.saved_state.specs.ObjectJudging.{is_good_name, is_good_symbol, kind_at, symbol_at};
ghost use Rattle.saved_state.specs.ObjectJudging.{symbols_at, symbols_read};
ghost use Rattle.saved_state.specs.ObjectSpelling.{spell_saved_symbol};

use crate::part_rest::{Rest, behind, fault_at};
use base::{ResumeFault, u16_at, u32_at};
use objects::{ObjectTable, SymbolKind};

// The tag of a symbol.
const SYMBOL: u8 = 5;

// How many bytes a symbol has before its name.
const NAME_PLACE: usize = 12;

// How many bytes a name has at most.
const LONGEST_NAME: usize = 1024;

fn kind_number(kind: SymbolKind) -> u8
    ensures { result ≡ kind_number kind }
{
    match kind {
        SymbolKind::Object => 1,
        SymbolKind::Function => 2,
    }
}

fn kind_at(bytes: &[u8]) -> SymbolKind
    requires { 12 ≤ length bytes.now }
    ensures { result ≡ kind_at bytes.now }
{
    match bytes[1] {
        2 => SymbolKind::Function,
        _ => SymbolKind::Object,
    }
}

// The name behind some bytes, as far as it is there.
fn name_at(bytes: &[u8]) -> &[u8]
    requires { 12 ≤ length bytes.now }
    ensures value { result.now ≡ take (number_at w16 10 bytes.now) (drop 12 bytes.now) }
    ensures short { length result.now < 2 ^ 16 }
    ensures there { 12 + length result.now ≤ length bytes.now }
{
    let content = bytes.split_at(NAME_PLACE).1;
    let size = usize::from(u16_at(bytes, 10));
    if size < content.len() {
        content.split_at(size).0
    } else {
        content
    }
}

// What stands before a name of so many bytes.
fn front_bytes(kind: SymbolKind, addr: u32, size: u32, length: u16) -> [u8; 12]
    ensures { result ≡ 5 ∷ kind_number kind
        ∷ (to_le_bytes w32 addr ++ (to_le_bytes w32 size ++ to_le_bytes w16 length)) }
{
    let [a0, a1, a2, a3] = addr.to_le_bytes();
    let [n0, n1, n2, n3] = size.to_le_bytes();
    let [l0, l1] = length.to_le_bytes();
    [
        SYMBOL,
        kind_number(kind),
        a0,
        a1,
        a2,
        a3,
        n0,
        n1,
        n2,
        n3,
        l0,
        l1,
    ]
}

fn has_zero(name: &[u8]) -> bool
    ensures { result ≡ list_any (nat_eq 0) name.now }
{
    name.iter().any(|byte| 0 == *byte)
}

#[tactic(auto, using(std::proofs::lemmas::Bool::Decides::nat_tests))]
fn is_good_name(name: &[u8]) -> bool
    ensures { result ≡ is_good_name name.now }
{
    name.len() <= LONGEST_NAME && !has_zero(name)
}

// Whether a symbol keeps the rule behind those of a table.
#[tactic(auto, using(std::proofs::lemmas::Bool::Decides::nat_tests))]
fn is_good(table: &ObjectTable, kind: SymbolKind, addr: u32, size: u32, name: &[u8]) -> bool
    ensures { result ≡ is_good_symbol table.now.symbols (record {
      kind = kind;
      addr = addr;
      size = size;
      name = name.now;
    }) }
{
    size >= 1 && is_good_name(name) && !table.has_symbol(kind, addr, size)
}

// Whether a symbol begins some bytes, behind those of a table.
fn is_symbol(table: &ObjectTable, bytes: &[u8]) -> bool
    requires { 12 ≤ length bytes.now }
    ensures { result ≡ (is_good_symbol table.now.symbols (symbol_at bytes.now)
        && starts_with nat_eq bytes.now (spell_saved_symbol (symbol_at bytes.now))) }
{
    let (kind, addr, size) = (kind_at(bytes), u32_at(bytes, 2), u32_at(bytes, 6));
    let name = name_at(bytes);
    is_good(table, kind, addr, size, name)
        && bytes.starts_with(&front_bytes(kind, addr, size, name.len() as u16))
}

// Reads one symbol, and gives how many bytes it has.
fn next_symbol(table: &mut ObjectTable, rest: Rest<'_>) -> Result<usize, ResumeFault>
    ensures read { (more : ℕ) → IfOk result (λ size.
        symbols_read (suc more) table.old rest.entry.place rest.entry.bytes.now
        ≡ symbols_read more table.new (rest.entry.place + size)
        (drop size rest.entry.bytes.now)) }
    ensures long { IfOk result (λ size. size ≤ length rest.entry.bytes.now) }
    ensures others { OnOk result (table.new.blocks ≡ table.old.blocks) }
    ensures refused { (more : ℕ) → IfErr result (λ fault. fault ≢ faults.NoMemory
        → symbols_read (suc more) table.old rest.entry.place rest.entry.bytes.now ≡ Err fault) }
{
    let bytes = rest.bytes;
    if bytes.len() < NAME_PLACE || !is_symbol(table, bytes) {
        return Err(fault_at(rest));
    }
    let name = name_at(bytes);
    match table.note_symbol(kind_at(bytes), u32_at(bytes, 2), u32_at(bytes, 6), name) {
        Ok(()) => Ok(NAME_PLACE + name.len()),
        Err(_) => Err(ResumeFault::NoMemory),
    }
}

// Reads so many symbols behind those of a table.
pub(crate) fn read_symbols<'a>(
    table: &mut ObjectTable,
    count: u64,
    rest: Rest<'a>,
) -> Result<Rest<'a>, ResumeFault>
    requires few { rest.place + length rest.bytes.now < 2 ^ 64 }
    ensures read { IfOk result (λ after.
        symbols_read count table.old rest.entry.place rest.entry.bytes.now
        ≡ Ok (symbols_at table.new after.place after.bytes.now)) }
    ensures few { IfOk result (λ after. after.place + length after.bytes.now < 2 ^ 64) }
    ensures others { OnOk result (table.new.blocks ≡ table.old.blocks) }
    ensures refused { IfErr result (λ fault. fault ≢ faults.NoMemory
        → symbols_read count table.old rest.entry.place rest.entry.bytes.now ≡ Err fault) }
{
    let mut rest = rest;
    for _ in 0..count {
        match next_symbol(table, rest) {
            Ok(size) => rest = behind(rest, size),
            Err(fault) => return Err(fault),
        }
    }
    Ok(rest)
}
