// The records that describe what a step of a guest does.
ghost use Rattle.std.specs.Prelude.{◌≡◌, ◌<◌, ℕ};
ghost use Rattle.trace_format.specs.declared.record.Version.{Version as AVersion};
ghost use Rattle.trace_format.specs.declared.record.TraceRecord.TheVariants as records;
ghost use Rattle.trace_format.specs.Rules.{IsGoodRecord};
ghost use Rattle.run_recorder.specs.Recorded.{pc_for};

use base::Access;
use trace_format::{TraceRecord, Version};

// The pc that a record of a version has of an access.
#[inline(always)]
fn pc_for(version: Version, pc: u32) -> Option<u32>
    ensures { result ≡ pc_for version pc }
{
    match version {
        Version::Three | Version::Four => Some(pc),
        Version::One | Version::Two => None,
    }
}

// The record of an access by the instruction at `pc`. The access is of an allowed size and place,
// as its hart says.
#[inline(always)]
pub(crate) fn touch_record(version: Version, access: Access, pc: u32) -> TraceRecord
    ensures value { result ≡ records.Touch access (pc_for version pc) }
    ensures good { (harts : ℕ) → access.hart < harts → IsGoodRecord version harts result }
{
    let _hart = access.hart();
    TraceRecord::Touch(access, pc_for(version, pc))
}

// The record of a block.
pub(crate) fn alloc_record(addr: u32, size: u32, sites: [u32; 4]) -> TraceRecord
    ensures value { result ≡ records.Alloc addr size sites }
    ensures good { (v : AVersion) (harts : ℕ) → IsGoodRecord v harts result }
{
    TraceRecord::Alloc { addr, size, sites }
}

pub(crate) fn free_record(addr: u32) -> TraceRecord
    ensures value { result ≡ records.Free addr }
    ensures good { (v : AVersion) (harts : ℕ) → IsGoodRecord v harts result }
{
    TraceRecord::Free { addr }
}
