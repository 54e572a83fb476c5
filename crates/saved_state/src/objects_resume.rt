// A saved table of objects, taken up again.
ghost use Rattle.std.specs.Prelude.{◌≡◌, ◌≢◌, ◌≤◌, ◌<◌, ◌+◌, ◌^◌, Err, IfErr, IfOk, length};
ghost use Rattle.base.specs.declared.faults.ResumeFault.TheVariants as faults;
ghost use Rattle.objects.specs.Objects.{no_objects};
ghost use Rattle.saved_state.specs.ObjectJudging.{all_taken, objects_judged, units_judged};
ghost use Rattle.saved_state.specs.ObjectRules.{IsPartOf};

use crate::block_units::read_blocks;
use crate::object_laws::what_is_resumed_was_saved;
use crate::part_rest::{Rest, behind, fault_at};
use crate::symbol_units::read_symbols;
use base::{ResumeFault, u64_at};
use objects::ObjectTable;
use std::alloc::Global;

// How many bytes the numbers of symbols and blocks have.
const COUNTS_LENGTH: usize = 16;

// Reads what the units of a part that begins at a place say into a table that has nothing, and gives
// what is left behind them.
fn read_units<'a>(
    table: &mut ObjectTable,
    part: &'a [u8],
    place: u64,
    position: u64,
) -> Result<Rest<'a>, ResumeFault>
    requires empty { table.old ≡ no_objects }
    requires long { 16 ≤ length part.now }
    requires few { place + length part.now < 2 ^ 64 }
    ensures read { IfOk result (λ rest.
        units_judged place position part.now ≡ all_taken rest.place table.new rest.bytes.now) }
    ensures refused { IfErr result (λ fault. fault ≢ faults.NoMemory
        → units_judged place position part.now ≡ Err fault) }
{
    let (symbols, blocks) = (u64_at(part, 0), u64_at(part, 8));
    let units = behind(
        Rest {
            place: place as usize,
            bytes: part,
        },
        COUNTS_LENGTH,
    );
    let rest = match read_symbols(table, symbols, units) {
        Ok(rest) => rest,
        Err(fault) => return Err(fault),
    };
    match read_blocks(table, blocks, position, rest) {
        Ok(rest) => Ok(rest),
        Err(fault) => Err(fault),
    }
}

// The table that the bytes of a part say.
fn read_objects(
    alloc: Global,
    part: &[u8],
    place: u64,
    position: u64,
) -> Result<ObjectTable, ResumeFault>
    requires { place + length part.now < 2 ^ 64 }
    ensures { result ≢ Err faults.NoMemory → result ≡ objects_judged place position part.now }
{
    if part.len() < COUNTS_LENGTH {
        return Err(ResumeFault::BadState(place));
    }
    let mut table = ObjectTable::new(alloc);
    let rest = match read_units(&mut table, part, place, position) {
        Ok(rest) => rest,
        Err(fault) => return Err(fault),
    };
    if rest.bytes.is_empty() {
        Ok(table)
    } else {
        Err(fault_at(rest))
    }
}

/// The table of the object part of a saved state, which begins at a place of its file and belongs
/// to a list up to a position. BadState has the place of the first unit at fault: the two numbers,
/// a symbol, a block, or a byte after the last. It takes memory for the symbols and blocks that are
/// there, whatever their numbers say.
pub fn resume_objects(
    alloc: Global,
    part: &[u8],
    place: u64,
    position: u64,
) -> Result<ObjectTable, ResumeFault>
    requires { place + length part.now < 2 ^ 64 }
    ensures judged { result ≢ Err faults.NoMemory
        → result ≡ objects_judged place position part.now }
    // what is taken up is good, and its part is these bytes
    ensures spelled { IfOk result (λ table. IsPartOf position part.now table) }
{
    what_is_resumed_was_saved();
    read_objects(alloc, part, place, position)
}
