// Caches see the accesses of a trace.
ghost use Rattle.std.specs.Prelude.{◌≤◌, IsFalse, IsOk, OnOk};
ghost use Rattle.trace_format.specs.Reading.{counted_after};
ghost use Rattle.trace_format.specs.Rules.{last_position};
ghost use Rattle.trace_passes.specs.Rooms.{GivenNext};
ghost use Rattle.finite_cache.specs.Seen.{HasSeen, record_wants_memory};

use crate::caches::Caches;
use base::NoMemory;
use trace_format::TraceRecord;
use trace_passes::Observer;

// A record, where it is an access, at the position that is next.
#[inline]
fn see(caches: &mut Caches, item: &TraceRecord) -> Result<(), NoMemory>
    requires { counted_after caches.old.position item.now ≤ last_position }
    ensures next { OnOk result (GivenNext HasSeen caches.old caches.new item.now) }
    ensures known { IsFalse (record_wants_memory caches.old item.now) → IsOk result }
{
    match item {
        TraceRecord::Touch(access, _) => caches.on_access(access),
        _ => Ok(()),
    }
}

impl Observer for Caches {
    ghost use Rattle.std.specs.Prelude.{IsFalse};
    ghost use Rattle.finite_cache.specs.Seen.{HasSeen, begins_at, record_wants_memory};

    ghost given = { HasSeen };

    ghost known = { λ k item. IsFalse (record_wants_memory k item) };

    ghost begins = { begins_at };

    #[inline]
    fn note(&mut self, item: &TraceRecord) -> Result<(), NoMemory> {
        see(self, item)
    }
}
