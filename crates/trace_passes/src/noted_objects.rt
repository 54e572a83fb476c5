// A table of objects, which sees the records of a trace one after the other.
ghost use Rattle.std.specs.Prelude.{◌≡◌, IsFalse, IsOk, OnOk};
ghost use Rattle.trace_passes.specs.Lives.{objects_noted, objects_want_memory};

use base::NoMemory;
use objects::ObjectTable;
use trace_format::TraceRecord;

/// Notes a record that comes at a position, where it is one of an object. It takes memory for a
/// block, and for a symbol that isn't dropped. At NoMemory nothing is said of the table.
pub fn note_object(
    objects: &mut ObjectTable,
    position: u64,
    item: &TraceRecord,
) -> Result<(), NoMemory>
    ensures noted { OnOk result (objects.new ≡ objects_noted objects.old item.now position) }
    ensures known { IsFalse (objects_want_memory objects.old item.now) → IsOk result }
{
    match item {
        TraceRecord::Touch(_, _) => Ok(()),
        TraceRecord::Alloc { addr, size, sites } => {
            objects.note_alloc(position, *addr, *size, *sites)
        }
        TraceRecord::Free { addr } => {
            objects.note_free(position, *addr);
            Ok(())
        }
        TraceRecord::Symbol {
            kind,
            addr,
            size,
            name,
        } => objects.note_symbol(*kind, *addr, *size, name.bytes()),
        TraceRecord::End(_) => Ok(()),
    }
}
