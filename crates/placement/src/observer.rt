// The owners of an object's words see the records of a trace, and so does a recount.
ghost use Rattle.std.specs.Prelude.{◌≤◌, OnErr, OnOk};
ghost use Rattle.sharing_rules.specs.AccessLists.{AccessList};
ghost use Rattle.trace_format.specs.Reading.{counted_after};
ghost use Rattle.trace_format.specs.Rules.{last_position};
ghost use Rattle.trace_passes.specs.Rooms.{GivenNext};
ghost use Rattle.placement.specs.Passing.{HasOwned, HasRecounted, RecountsFor, WantsMemory};

use crate::owners::Owners;
use crate::recount::Recount;
use base::NoMemory;
use trace_format::TraceRecord;
use trace_passes::Observer;

// One record more. All but accesses change nothing.
#[inline]
fn note_record(owners: &mut Owners, item: &TraceRecord)
    ensures { GivenNext HasOwned owners.old owners.new item.now }
{
    match item {
        TraceRecord::Touch(access, _) => owners.note(*access),
        _ => (),
    }
}

impl Observer for Owners {
    ghost use Rattle.placement.specs.Passing.{HasOwned};

    ghost given = { HasOwned };

    ghost known = { λ _ _. Unit {0} };

    #[inline]
    fn note(&mut self, item: &TraceRecord) -> Result<(), NoMemory> {
        note_record(self, item);
        Ok(())
    }
}

// One record more of the third reading. All but accesses change nothing.
#[inline]
fn recount_record(recount: &mut Recount, item: &TraceRecord) -> Result<(), NoMemory>
    requires { counted_after recount.old.position item.now ≤ last_position }
    ensures next { OnOk result (GivenNext HasRecounted recount.old recount.new item.now) }
    ensures known { (t : AccessList) → RecountsFor t recount.old
        → OnErr result (WantsMemory recount.old.size recount.old.plan t item.now) }
{
    match item {
        TraceRecord::Touch(access, _) => recount.note(*access),
        _ => Ok(()),
    }
}

impl Observer for Recount {
    ghost use Rattle.placement.specs.Passing.{HasRecounted, NeedsNone, begins_at};

    ghost given = { HasRecounted };

    ghost known = { NeedsNone };

    ghost begins = { begins_at };

    #[inline]
    fn note(&mut self, item: &TraceRecord) -> Result<(), NoMemory> {
        recount_record(self, item)
    }
}
