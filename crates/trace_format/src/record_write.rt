// One record.
ghost use Rattle.std.specs.Prelude.{◌≡◌, ◌++◌, OnOk, OnErr};
ghost use Rattle.std.specs.List.{flat_map};
ghost use Rattle.std.specs.Int.{w32, to_le_bytes};
ghost use Rattle.trace_format.specs.Spelling.{kind_number, spell_alloc, spell_free, spell_record};
ghost use Rattle.trace_format.specs.Spelling.{spell_symbol};

use crate::access_write::{put_bytes, put_touch};
use crate::before::Before;
use crate::ending_write::put_ending;
use crate::{TraceRecord, Version};
use base::{Name, NoMemory};
use objects::SymbolKind;

// Four call sites, one after the other.
fn site_bytes(sites: &[u32; 4]) -> [u8; 16]
    ensures { result ≡ flat_map (to_le_bytes w32) sites.now }
{
    let [a, b, c, d] = *sites;
    let [a0, a1, a2, a3] = a.to_le_bytes();
    let [b0, b1, b2, b3] = b.to_le_bytes();
    let [c0, c1, c2, c3] = c.to_le_bytes();
    let [d0, d1, d2, d3] = d.to_le_bytes();
    [
        a0, a1, a2, a3, b0, b1, b2, b3, c0, c1, c2, c3, d0, d1, d2, d3,
    ]
}

/// Appends the 25 bytes that record that a block is made. At `NoMemory` nothing is appended.
#[tactic(auto, unfolding(crate::specs::Spelling::spell_alloc))]
pub fn alloc_bytes(
    addr: u32,
    size: u32,
    sites: &[u32; 4],
    into: &mut Vec<u8>,
) -> Result<(), NoMemory>
    ensures ok { OnOk result (into.new.items ≡ into.old.items ++ spell_alloc addr size sites.now) }
    ensures err { OnErr result (into.new.items ≡ into.old.items) }
{
    let [a0, a1, a2, a3] = addr.to_le_bytes();
    let [n0, n1, n2, n3] = size.to_le_bytes();
    put_both(
        &[3, a0, a1, a2, a3, n0, n1, n2, n3],
        &site_bytes(sites),
        into,
    )
}

#[tactic(auto, unfolding(crate::specs::Spelling::spell_free))]
fn free_bytes(addr: u32) -> [u8; 5]
    ensures { result ≡ spell_free addr }
{
    let [a0, a1, a2, a3] = addr.to_le_bytes();
    [4, a0, a1, a2, a3]
}

fn kind_number(kind: SymbolKind) -> u8
    ensures { result ≡ kind_number kind }
{
    match kind {
        SymbolKind::Object => 1,
        SymbolKind::Function => 2,
    }
}

// Appends two parts. At `NoMemory` nothing is appended.
pub(crate) fn put_both(front: &[u8], back: &[u8], into: &mut Vec<u8>) -> Result<(), NoMemory>
    ensures ok { OnOk result (into.new.items ≡ into.old.items ++ front.now ++ back.now) }
    ensures err { OnErr result (into.new.items ≡ into.old.items) }
{
    let before = into.len();
    into.extend_from_slice(front)?;
    match into.extend_from_slice(back) {
        Ok(()) => Ok(()),
        Err(_) => {
            into.truncate(before);
            Err(NoMemory)
        }
    }
}

/// Appends the 12 bytes of a symbol and its name. At `NoMemory` nothing is appended.
#[tactic(auto, unfolding(crate::specs::Spelling::spell_symbol))]
pub fn symbol_bytes(
    kind: SymbolKind,
    addr: u32,
    size: u32,
    name: &Name,
    into: &mut Vec<u8>,
) -> Result<(), NoMemory>
    ensures ok { OnOk result
        (into.new.items ≡ into.old.items ++ spell_symbol kind addr size name.now) }
    ensures err { OnErr result (into.new.items ≡ into.old.items) }
{
    let content = name.bytes();
    let [a0, a1, a2, a3] = addr.to_le_bytes();
    let [n0, n1, n2, n3] = size.to_le_bytes();
    let [l0, l1] = (content.len() as u16).to_le_bytes();
    let front = [5, kind_number(kind), a0, a1, a2, a3, n0, n1, n2, n3, l0, l1];
    put_both(&front, content, into)
}

// Appends a record behind others. At `NoMemory` nothing is appended.
pub(crate) fn put_record(
    version: Version,
    before: &Before,
    item: &TraceRecord,
    into: &mut Vec<u8>,
) -> Result<(), NoMemory>
    ensures ok { OnOk result (into.new.items ≡ into.old.items ++ spell_record version before.now item.now) }
    ensures err { OnErr result (into.new.items ≡ into.old.items) }
{
    match item {
        TraceRecord::Touch(access, pc) => put_touch(version, before, access, *pc, into),
        TraceRecord::Alloc { addr, size, sites } => alloc_bytes(*addr, *size, sites, into),
        TraceRecord::Free { addr } => put_bytes(&free_bytes(*addr), into),
        TraceRecord::Symbol {
            kind,
            addr,
            size,
            name,
        } => symbol_bytes(*kind, *addr, *size, name, into),
        TraceRecord::End(ending) => put_ending(version, ending, into),
    }
}
