// Symbols.
ghost use Rattle.std.specs.Prelude.{◌≡◌, ◌^◌, ◌≤◌, ◌≢◌, Err, length, nat_eq};
ghost use Rattle.std.specs.List.{list_any};
ghost use Rattle.trace_format.specs.Judging.{symbol_extent, symbol_judged, symbol_kind_of};

use crate::{TraceFault, TraceRecord};
use base::{Name, behind, u16_at, u32_at};
use objects::SymbolKind;
use std::alloc::Global;

// How many bytes a symbol has before its name.
pub(crate) const NAME_PLACE: usize = 12;

// How many bytes a name has at most.
pub(crate) const LONGEST_NAME: u16 = 1024;

fn kind_of(number: u8) -> Option<SymbolKind>
    ensures { result ≡ symbol_kind_of number }
{
    match number {
        1 => Some(SymbolKind::Object),
        2 => Some(SymbolKind::Function),
        _ => None,
    }
}

fn has_zero(name: &[u8]) -> bool
    ensures { result ≡ list_any (nat_eq 0) name.now }
{
    name.iter().any(|byte| 0 == *byte)
}

/// How many bytes the symbol has that begins here, as far as they state it: 12, and those of its
/// name once its length is there and at most 1024.
#[tactic(auto, using(std::proofs::lemmas::Bool::Decides::nat_tests), unfolding(crate::specs::Judging::symbol_extent))]
pub fn symbol_extent(bytes: &[u8]) -> usize
    ensures { result ≡ symbol_extent bytes.now }
{
    if bytes.len() < NAME_PLACE {
        return NAME_PLACE;
    }
    let stated = u16_at(bytes, 10);
    if stated > LONGEST_NAME {
        NAME_PLACE
    } else {
        NAME_PLACE + usize::from(stated)
    }
}

/// The symbol in the bytes of a record, which are all there; its tag isn't looked at. BadField has
/// the place of the first field that breaks its rule, for a record that begins at a place of at
/// most 2^44. It takes memory for the name.
#[tactic(auto, using(std::proofs::lemmas::Bool::Decides::nat_tests), unfolding(crate::specs::Judging::symbol_judged, crate::specs::Judging::symbol_extent))]
pub fn symbol_of(alloc: Global, bytes: &[u8], place: u64) -> Result<TraceRecord, TraceFault>
    requires long { length bytes.now ≡ symbol_extent bytes.now }
    requires low { place ≤ 2 ^ 44 }
    ensures { result ≢ Err TraceFault.NoMemory → result ≡ symbol_judged place bytes.now }
{
    let Some(kind) = kind_of(bytes[1]) else {
        return Err(TraceFault::BadField(place + 1));
    };
    let size = u32_at(bytes, 6);
    if size == 0 {
        return Err(TraceFault::BadField(place + 6));
    }
    if u16_at(bytes, 10) > LONGEST_NAME {
        return Err(TraceFault::BadField(place + 10));
    }
    let content = behind(bytes, NAME_PLACE);
    if has_zero(content) {
        return Err(TraceFault::BadField(place + 12));
    }
    let addr = u32_at(bytes, 2);
    match Name::new(alloc, content) {
        Ok(name) => Ok(TraceRecord::Symbol {
            kind,
            addr,
            size,
            name,
        }),
        Err(_) => Err(TraceFault::NoMemory),
    }
}
