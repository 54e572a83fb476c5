// Accesses, in every version.
ghost use Rattle.std.specs.Prelude.{◌≡◌, ◌%◌, ◌+◌, ◌∷◌, ◌++◌, OnOk, OnErr, None};
ghost use Rattle.trace_format.specs.Tags.{half_of};
ghost use Rattle.trace_format.specs.Numbers.{distance, groups};
ghost use Rattle.trace_format.specs.Spelling.{nothing_before, pc_before, spell_short_touch};
ghost use Rattle.trace_format.specs.Spelling.{spell_touch};
ghost use Rattle.trace_format.specs.declared.record.Version.TheVariants.{One};

use crate::Version;
use crate::before::{Before, pc_or_zero};
use base::{Access, Kind, NoMemory};

fn half_of(kind: Kind) -> u8
    ensures { result ≡ half_of kind }
{
    match kind {
        Kind::Read => 1,
        Kind::Write => 2,
    }
}

#[tactic(auto, unfolding(crate::specs::Spelling::spell_touch))]
fn touch_bytes(access: &Access) -> [u8; 8]
    ensures { result ≡ spell_touch One nothing_before access.now None }
{
    let [h0, h1] = access.hart().number().to_le_bytes();
    let [a0, a1, a2, a3] = access.addr().to_le_bytes();
    [
        half_of(access.kind()),
        h0,
        h1,
        a0,
        a1,
        a2,
        a3,
        access.size(),
    ]
}

// How far an address is from the one before, as version 2 records it.
#[tactic(auto, using(std::proofs::lemmas::Bool::Decides::nat_tests))]
fn distance(last: u32, addr: u32) -> u32
    ensures { result ≡ distance last addr }
{
    let up = addr.wrapping_sub(last);
    if up < 0x8000_0000 {
        2 * up
    } else {
        2 * (u32::MAX - up) + 1
    }
}

// The seven lowest bits, and the top bit, which says that more follow.
fn more(z: u32) -> u8
    ensures { result ≡ z % 128 + 128 }
{
    (z % 128) as u8 + 128
}

// Appends bytes. At `NoMemory` nothing is appended.
#[inline]
pub(crate) fn put_bytes(bytes: &[u8], into: &mut Vec<u8>) -> Result<(), NoMemory>
    ensures ok { OnOk result (into.new.items ≡ into.old.items ++ bytes.now) }
    ensures err { OnErr result (into.new.items ≡ into.old.items) }
{
    into.extend_from_slice(bytes)?;
    Ok(())
}

// Appends two bytes and the groups of a number. At `NoMemory` nothing is appended.
#[tactic(auto, using(std::proofs::lemmas::Bool::Decides::nat_tests))]
#[inline(always)]
fn put_groups(tag: u8, hart: u8, z: u32, into: &mut Vec<u8>) -> Result<(), NoMemory>
    ensures ok { OnOk result (into.new.items ≡ into.old.items ++ tag ∷ hart ∷ groups z) }
    ensures err { OnErr result (into.new.items ≡ into.old.items) }
{
    let second = z / 128;
    let third = second / 128;
    let fourth = third / 128;
    let fifth = fourth / 128;
    if z < 128 {
        put_bytes(&[tag, hart, z as u8], into)
    } else if second < 128 {
        put_bytes(&[tag, hart, more(z), second as u8], into)
    } else if third < 128 {
        put_bytes(&[tag, hart, more(z), more(second), third as u8], into)
    } else if fourth < 128 {
        let bytes = [tag, hart, more(z), more(second), more(third), fourth as u8];
        put_bytes(&bytes, into)
    } else {
        let bytes = [
            tag,
            hart,
            more(z),
            more(second),
            more(third),
            more(fourth),
            fifth as u8,
        ];
        put_bytes(&bytes, into)
    }
}

// Appends an access against the address of the one before. At `NoMemory` nothing is appended.
#[inline(always)]
fn put_short_touch(last: u32, access: &Access, into: &mut Vec<u8>) -> Result<(), NoMemory>
    ensures ok { OnOk result (into.new.items ≡ into.old.items ++ spell_short_touch last access.now) }
    ensures err { OnErr result (into.new.items ≡ into.old.items) }
{
    let tag = 16 * half_of(access.kind()) + access.size();
    let hart = access.hart().number() as u8;
    put_groups(tag, hart, distance(last, access.addr()), into)
}

// Appends the groups of a number. At `NoMemory` nothing is appended.
#[tactic(auto, using(std::proofs::lemmas::Bool::Decides::nat_tests))]
#[inline(never)]
fn put_number(z: u32, into: &mut Vec<u8>) -> Result<(), NoMemory>
    ensures ok { OnOk result (into.new.items ≡ into.old.items ++ groups z) }
    ensures err { OnErr result (into.new.items ≡ into.old.items) }
{
    let second = z / 128;
    if z < 128 {
        put_bytes(&[z as u8], into)
    } else if second < 128 {
        put_bytes(&[more(z), second as u8], into)
    } else {
        put_groups(more(z), more(second), second / 128, into)
    }
}

// Appends an access and its pc. At `NoMemory` nothing is appended.
#[inline(never)]
fn put_sited_touch(
    before: &Before,
    access: &Access,
    pc: u32,
    into: &mut Vec<u8>,
) -> Result<(), NoMemory>
    ensures ok { OnOk result
        (into.new.items ≡ into.old.items ++ spell_short_touch before.now.last access.now
        ++ groups (distance (pc_before before.now access.now.hart) pc)) }
    ensures err { OnErr result (into.new.items ≡ into.old.items) }
{
    let start = into.len();
    put_short_touch(before.last, access, into)?;
    match put_number(distance(before.pc(access.hart()), pc), into) {
        Ok(()) => Ok(()),
        Err(_) => {
            into.truncate(start);
            Err(NoMemory)
        }
    }
}

// Appends an access. At `NoMemory` nothing is appended.
#[tactic(auto, unfolding(crate::specs::Spelling::spell_touch))]
pub(crate) fn put_touch(
    version: Version,
    before: &Before,
    access: &Access,
    pc: Option<u32>,
    into: &mut Vec<u8>,
) -> Result<(), NoMemory>
    ensures ok { OnOk result
        (into.new.items ≡ into.old.items ++ spell_touch version before.now access.now pc) }
    ensures err { OnErr result (into.new.items ≡ into.old.items) }
{
    match version {
        Version::One => put_bytes(&touch_bytes(access), into),
        Version::Two => put_short_touch(before.last, access, into),
        Version::Three | Version::Four => put_sited_touch(before, access, pc_or_zero(pc), into),
    }
}
