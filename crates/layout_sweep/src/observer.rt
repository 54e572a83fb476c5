// A sweep sees the records of a trace.
ghost use Rattle.std.specs.Prelude.{◌≤◌, OnErr, OnOk};
ghost use Rattle.sharing_rules.specs.AccessLists.{AccessList};
ghost use Rattle.trace_format.specs.Reading.{counted_after};
ghost use Rattle.trace_format.specs.Rules.{last_position};
ghost use Rattle.trace_passes.specs.Rooms.{GivenNext};
ghost use Rattle.layout_sweep.specs.Seen.{HasSwept, WantsMemory};
ghost use Rattle.layout_sweep.specs.Standing.{StandsFor};

use crate::one_access::see;
use crate::sweep::Sweep;
use base::NoMemory;
use trace_format::TraceRecord;
use trace_passes::Observer;

// One record more. All but accesses change nothing.
#[inline]
fn note_record(sweep: &mut Sweep, item: &TraceRecord) -> Result<(), NoMemory>
    requires { counted_after sweep.old.position item.now ≤ last_position }
    ensures next { OnOk result (GivenNext HasSwept sweep.old sweep.new item.now) }
    ensures known { (t : AccessList) → StandsFor t sweep.old
        → OnErr result (WantsMemory sweep.old.size t item.now) }
{
    match item {
        TraceRecord::Touch(access, _) => see(sweep, *access),
        _ => Ok(()),
    }
}

impl Observer for Sweep {
    ghost use Rattle.layout_sweep.specs.Seen.{HasSwept, NeedsNone, begins_at};

    ghost given = { HasSwept };

    ghost known = { NeedsNone };

    ghost begins = { begins_at };

    #[inline]
    fn note(&mut self, item: &TraceRecord) -> Result<(), NoMemory> {
        note_record(self, item)
    }
}
