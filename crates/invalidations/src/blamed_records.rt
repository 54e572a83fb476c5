// The invalidations of all lines, as the records of a trace show them one after the other.
ghost use Rattle.std.specs.Prelude.{◌≤◌, IsFalse, IsOk, OnOk};
ghost use Rattle.invalidations.specs.BlameRecords.{HasBlamed, record_wants_memory};
ghost use Rattle.trace_format.specs.Reading.{counted_after};
ghost use Rattle.trace_format.specs.Rules.{last_position};
ghost use Rattle.trace_passes.specs.Rooms.{GivenNext};

use crate::blame::Blame;
use base::NoMemory;
use trace_format::TraceRecord;
use trace_passes::Observer;

// A record, where it is an access, at the position that is next.
#[inline]
fn see(blame: &mut Blame, item: &TraceRecord) -> Result<(), NoMemory>
    requires { counted_after blame.old.position item.now ≤ last_position }
    ensures next { OnOk result (GivenNext HasBlamed blame.old blame.new item.now) }
    ensures known { IsFalse (record_wants_memory blame.old item.now) → IsOk result }
{
    match item {
        TraceRecord::Touch(access, pc) => blame.on_access(access, pc.unwrap_or(0)),
        _ => Ok(()),
    }
}

impl Observer for Blame {
    ghost use Rattle.std.specs.Prelude.{IsFalse};
    ghost use Rattle.invalidations.specs.BlameRecords.{HasBlamed, blame_begins_at};
    ghost use Rattle.invalidations.specs.BlameRecords.{record_wants_memory};

    ghost given = { HasBlamed };

    ghost known = { λ k item. IsFalse (record_wants_memory k item) };

    ghost begins = { blame_begins_at };

    #[inline]
    fn note(&mut self, item: &TraceRecord) -> Result<(), NoMemory> {
        see(self, item)
    }
}
