// A table of objects, saved.
ghost use Rattle.std.specs.Prelude.{◌≡◌, ◌≤◌, ◌^◌, ◌++◌, ℕ, Ok, IfOk, OnOk};
ghost use Rattle.std.specs.List.{flat_map};
ghost use Rattle.saved_state.specs.ObjectJudging.{objects_judged};
ghost use Rattle.saved_state.specs.ObjectRules.{AreSavable};
ghost use Rattle.saved_state.specs.ObjectSpelling.{spell_counts, spell_objects, spell_saved_symbol};
ghost use Rattle.saved_state.specs.ObjectSpelling.{spell_block};

use crate::block_units::block_bytes;
use base::NoMemory;
use objects::{Block, ObjectTable};
use trace_format::symbol_bytes;

// Two numbers of 8 bytes.
#[tactic(auto, unfolding(crate::specs::ObjectSpelling::spell_counts))]
fn pair_bytes(first: u64, second: u64) -> [u8; 16]
    ensures { result ≡ spell_counts first second }
{
    let [a0, a1, a2, a3, a4, a5, a6, a7] = first.to_le_bytes();
    let [b0, b1, b2, b3, b4, b5, b6, b7] = second.to_le_bytes();
    [
        a0, a1, a2, a3, a4, a5, a6, a7, b0, b1, b2, b3, b4, b5, b6, b7,
    ]
}

fn put_symbols(table: &ObjectTable, into: &mut Vec<u8>) -> Result<(), NoMemory>
    ensures { OnOk result (into.new.items
        ≡ into.old.items ++ flat_map spell_saved_symbol table.now.symbols) }
{
    for i in 0..table.symbol_count() {
        match table.symbol(i) {
            Some(row) => symbol_bytes(row.kind, row.addr, row.size, row.name, into)?,
            None => {}
        }
    }
    Ok(())
}

fn put_blocks(blocks: &[Block], into: &mut Vec<u8>) -> Result<(), NoMemory>
    ensures { OnOk result (into.new.items ≡ into.old.items ++ flat_map spell_block blocks.now) }
{
    for block in blocks {
        into.extend_from_slice(&block_bytes(block))?;
    }
    Ok(())
}

/// The object part of a saved state: 16 bytes with the numbers of symbols and blocks, then 12 bytes
/// and the name for each symbol and 41 bytes for each block. It takes memory for them.
pub fn save_objects(table: &ObjectTable) -> Result<Vec<u8>, NoMemory>
    ensures saved { IfOk result (λ part. part.items ≡ spell_objects table.now) }
    // of symbols and blocks that are good each at a position, these bytes say that table again
    ensures again { (place position : ℕ) → position ≤ 2 ^ 40 → AreSavable position table.now
        → IfOk result (λ part. objects_judged place position part.items ≡ Ok table.now) }
{
    let mut part = Vec::new(table.allocator());
    let (symbols, blocks) = (table.symbol_count() as u64, table.blocks());
    part.extend_from_slice(&pair_bytes(symbols, blocks.len() as u64))?;
    put_symbols(table, &mut part)?;
    put_blocks(blocks, &mut part)?;
    Ok(part)
}
