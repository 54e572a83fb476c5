// The blocks of a part, written, and taken up again.
ghost use Rattle.std.specs.Prelude.{◌≡◌, ◌≢◌, ◌≤◌, ◌<◌, ◌+◌, ◌^◌, ℕ, suc, drop, Ok, Err, IfOk};
ghost use Rattle.std.specs.Prelude.{IfErr, IfSome, IsFalse, OnOk, length};
ghost use Rattle.base.specs.declared.faults.ResumeFault.TheVariants as faults;
ghost use Rattle.objects.specs.Blocks.{meets_live};
ghost use Rattle.saved_state.specs.ObjectJudging.{block_at, block_in, blocks_at, blocks_read};
ghost use Rattle.saved_state.specs.ObjectJudging.{death_of, is_life};
ghost use Rattle.saved_state.specs.ObjectSpelling.{death_number, spell_block};

use crate::part_rest::{Rest, behind, fault_at};
use base::{ResumeFault, u32_at, u64_at};
use objects::{Block, ObjectTable};

// The tag of a block that is made.
const ALLOC: u8 = 3;

// How many bytes a block has.
const BLOCK_LENGTH: usize = 41;

// The death of a block that lives.
const NO_DEATH: u64 = u64::MAX;

fn death_number(died: Option<u64>) -> u64
    ensures { result ≡ death_number died }
{
    died.unwrap_or(NO_DEATH)
}

#[tactic(auto, unfolding(crate::specs::ObjectSpelling::spell_block, trace_format::specs::Spelling::spell_alloc))]
pub(crate) fn block_bytes(block: &Block) -> [u8; 41]
    ensures { result ≡ spell_block block.now }
{
    let [a0, a1, a2, a3] = block.addr.to_le_bytes();
    let [n0, n1, n2, n3] = block.size.to_le_bytes();
    let [first, second, third, fourth] = block.sites;
    let [f0, f1, f2, f3] = first.to_le_bytes();
    let [s0, s1, s2, s3] = second.to_le_bytes();
    let [t0, t1, t2, t3] = third.to_le_bytes();
    let [l0, l1, l2, l3] = fourth.to_le_bytes();
    let [b0, b1, b2, b3, b4, b5, b6, b7] = block.born.to_le_bytes();
    let [d0, d1, d2, d3, d4, d5, d6, d7] = death_number(block.died).to_le_bytes();
    [
        ALLOC, a0, a1, a2, a3, n0, n1, n2, n3, f0, f1, f2, f3, s0, s1, s2, s3, t0, t1, t2, t3, l0,
        l1, l2, l3, b0, b1, b2, b3, b4, b5, b6, b7, d0, d1, d2, d3, d4, d5, d6, d7,
    ]
}

fn death_of(number: u64) -> Option<u64>
    ensures { result ≡ death_of number }
{
    if number == NO_DEATH {
        None
    } else {
        Some(number)
    }
}

// The block in 41 bytes, whose tag isn't looked at.
#[tactic(auto, unfolding(crate::specs::ObjectJudging::block_at))]
fn block_at(bytes: &[u8]) -> Block
    requires { 41 ≤ length bytes.now }
    ensures { result ≡ block_at bytes.now }
{
    Block {
        addr: u32_at(bytes, 1),
        size: u32_at(bytes, 5),
        sites: [
            u32_at(bytes, 9),
            u32_at(bytes, 13),
            u32_at(bytes, 17),
            u32_at(bytes, 21),
        ],
        born: u64_at(bytes, 25),
        died: death_of(u64_at(bytes, 33)),
    }
}

fn is_life(position: u64, born: u64, died: Option<u64>) -> bool
    ensures { result ≡ is_life position born died }
{
    match died {
        None => born <= position,
        Some(died) => born <= died && died <= position,
    }
}

// The block that begins some bytes, behind those of a table: None exactly where it is at fault.
#[tactic(auto, unfolding(crate::specs::ObjectJudging::block_in))]
fn block_in(table: &ObjectTable, position: u64, bytes: &[u8]) -> Option<Block>
    requires { 41 ≤ length bytes.now }
    ensures value { result ≡ block_in position table.now.blocks bytes.now }
    ensures fresh { IfSome result (λ b. IsFalse (meets_live table.now.blocks b)) }
{
    let block = block_at(bytes);
    if is_life(position, block.born, block.died)
        && !table.meets_live(&block)
        && bytes.starts_with(&block_bytes(&block))
    {
        Some(block)
    } else {
        None
    }
}

fn read_block(table: &ObjectTable, position: u64, bytes: &[u8]) -> Option<Block>
    ensures value { result ≡ block_in position table.now.blocks bytes.now }
    ensures fresh { IfSome result (λ b. IsFalse (meets_live table.now.blocks b)) }
    ensures long { IfSome result (λ b. 41 ≤ length bytes.now) }
{
    if bytes.len() < BLOCK_LENGTH {
        return None;
    }
    block_in(table, position, bytes)
}

// Reads one block.
fn next_block(table: &mut ObjectTable, position: u64, rest: Rest<'_>) -> Result<(), ResumeFault>
    ensures read { (more : ℕ) → OnOk result
        (blocks_read position (suc more) table.old rest.entry.place rest.entry.bytes.now
        ≡ blocks_read position more table.new (rest.entry.place + 41)
        (drop 41 rest.entry.bytes.now)) }
    ensures long { OnOk result (41 ≤ length rest.entry.bytes.now) }
    ensures others { OnOk result (table.new.symbols ≡ table.old.symbols) }
    ensures refused { (more : ℕ) → IfErr result (λ fault. fault ≢ faults.NoMemory
        → blocks_read position (suc more) table.old rest.entry.place rest.entry.bytes.now
        ≡ Err fault) }
{
    let block = match read_block(table, position, rest.bytes) {
        Some(block) => block,
        None => return Err(fault_at(rest)),
    };
    match table.note_saved_block(block) {
        Ok(()) => Ok(()),
        Err(_) => Err(ResumeFault::NoMemory),
    }
}

// Reads so many blocks behind those of a table.
pub(crate) fn read_blocks<'a>(
    table: &mut ObjectTable,
    count: u64,
    position: u64,
    rest: Rest<'a>,
) -> Result<Rest<'a>, ResumeFault>
    requires few { rest.place + length rest.bytes.now < 2 ^ 64 }
    ensures read { IfOk result (λ after.
        blocks_read position count table.old rest.entry.place rest.entry.bytes.now
        ≡ Ok (blocks_at table.new after.place after.bytes.now)) }
    ensures others { OnOk result (table.new.symbols ≡ table.old.symbols) }
    ensures refused { IfErr result (λ fault. fault ≢ faults.NoMemory
        → blocks_read position count table.old rest.entry.place rest.entry.bytes.now
        ≡ Err fault) }
{
    let mut rest = rest;
    for _ in 0..count {
        match next_block(table, position, rest) {
            Ok(()) => rest = behind(rest, BLOCK_LENGTH),
            Err(fault) => return Err(fault),
        }
    }
    Ok(rest)
}
