// The header of a trace.
ghost use Rattle.std.specs.Prelude.{◌≡◌, ◌≢◌, ◌≤◌, ◌^◌, Err, IfOk, length};
ghost use Rattle.trace_format.specs.Judging.{begun, fields_judged, header_judged, highest_first};
ghost use Rattle.trace_format.specs.Judging.{is_near, is_unused, version_at};
ghost use Rattle.trace_format.specs.Sound.{IsSound};

use crate::before::Before;
use crate::{Header, ReadSoFar, TraceFault, Version};
use base::{u16_at, u64_at};

pub(crate) const MAGIC_ONE: [u8; 8] = *b"PRDTRC01";

pub(crate) const MAGIC_TWO: [u8; 8] = *b"PRDTRC02";

pub(crate) const MAGIC_THREE: [u8; 8] = *b"PRDTRC03";

pub(crate) const MAGIC_FOUR: [u8; 8] = *b"PRDTRC04";

// How many bytes a header has.
pub(crate) const HEADER_LENGTH: usize = 20;

// The position that no access has.
pub(crate) const LAST_POSITION: u64 = 1 << 40;

// The version whose magic some bytes begin with.
pub(crate) fn version_of(bytes: &[u8]) -> Option<Version>
    ensures { result ≡ version_at bytes.now }
{
    if bytes.starts_with(&MAGIC_ONE) {
        Some(Version::One)
    } else if bytes.starts_with(&MAGIC_TWO) {
        Some(Version::Two)
    } else if bytes.starts_with(&MAGIC_THREE) {
        Some(Version::Three)
    } else if bytes.starts_with(&MAGIC_FOUR) {
        Some(Version::Four)
    } else {
        None
    }
}

fn begin(version: Version, header: Header) -> ReadSoFar
    ensures { result ≡ begun version header }
{
    ReadSoFar {
        version,
        header,
        counted: 0,
        before: Before::nothing(),
        place: HEADER_LENGTH as u64,
    }
}

// The greatest first position of a version.
fn highest_first(version: Version) -> u64
    ensures value { result ≡ highest_first version }
    ensures low { result ≤ 2 ^ 40 }
{
    match version {
        Version::One | Version::Two | Version::Three => LAST_POSITION,
        Version::Four => 0,
    }
}

// Whether the last field is zero where the version has no use for it.
#[tactic(auto, using(std::proofs::lemmas::Bool::Decides::nat_tests))]
fn is_unused(version: Version, near: u16) -> bool
    ensures { result ≡ is_unused version near }
{
    match version {
        Version::One | Version::Two | Version::Three => near == 0,
        Version::Four => true,
    }
}

// Whether the last field is a size of regions where the version has them.
#[tactic(auto, using(std::proofs::lemmas::Bool::Decides::nat_tests))]
fn is_near(version: Version, near: u16) -> bool
    ensures { result ≡ is_near version near }
{
    match version {
        Version::One | Version::Two | Version::Three => true,
        Version::Four => near >= 6 && near <= 16,
    }
}

#[tactic(auto, using(std::proofs::lemmas::Bool::Decides::nat_tests))]
fn progress_of(
    version: Option<Version>,
    first: u64,
    harts: u16,
    near: u16,
) -> Result<ReadSoFar, TraceFault>
    ensures value { result ≡ fields_judged version first harts near }
    ensures sound { IfOk result IsSound }
    ensures begins { IfOk result (λ p. p.place ≡ 20) }
    ensures never { result ≢ Err TraceFault.NoMemory }
{
    let Some(version) = version else {
        return Err(TraceFault::BadMagic);
    };
    if first > highest_first(version) {
        return Err(TraceFault::BadField(8));
    }
    if harts < 1 || harts > 256 || !is_unused(version, near) {
        return Err(TraceFault::BadHarts);
    }
    if !is_near(version, near) {
        return Err(TraceFault::BadField(18));
    }
    Ok(begin(version, Header { first, harts, near }))
}

#[tactic(auto, unfolding(crate::specs::Judging::header_judged))]
pub(crate) fn header_of(bytes: &[u8]) -> Result<ReadSoFar, TraceFault>
    requires { 20 ≤ length bytes.now }
    ensures value { result ≡ header_judged bytes.now }
    ensures sound { IfOk result IsSound }
    ensures begins { IfOk result (λ p. p.place ≡ 20) }
    ensures never { result ≢ Err TraceFault.NoMemory }
{
    progress_of(
        version_of(bytes),
        u64_at(bytes, 8),
        u16_at(bytes, 16),
        u16_at(bytes, 18),
    )
}
